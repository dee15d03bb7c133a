//! Documents, from their bytes on.

ghost use Rattle.std.specs.Prelude.{◌≡◌, IfOk};
ghost use Rattle.siri_json.specs.Shown.{shown};
ghost use Rattle.siri_tables.specs.Refusals.{Gives};
ghost use Rattle.siri_wire.specs.Documents.{message_at, siri, root, message_of, Decodes, decode_error, refusal_text};

use crate::incoming::read_delivery;
use crate::kinds::{Kind, only_held};
use crate::read_requests::ServiceRequestTable;
use crate::read_statuses::{
    CheckStatusRequestTable, CheckStatusResponseTable, HeartbeatNotificationTable,
};
use crate::read_subscriptions::{SubscriptionRequestTable, SubscriptionResponseTable};
use crate::read_supplies::{
    DataReadyAcknowledgementTable, DataReadyNotificationTable, DataReceivedAcknowledgementTable,
    DataSupplyRequestTable,
};
use crate::read_terminations::{
    TerminateSubscriptionRequestTable, TerminateSubscriptionResponseTable,
};
use siri_base::{OutOfMemory, Reason, append};
use siri_deliveries::{NotRead, ServiceDeliveryTable, names};
use siri_json::{Path, Scratch, Tree, TreeError, read_tree};
use siri_messages::Message;
use siri_tables::TableError;
use siri_tables::refusal::refuse;
use siri_tables::rows::required_row;
use siri_tables::rules::Table;
use std::alloc::Global;
use thiserror::Error;

/// Where a document is refused, and why.
#[derive(Debug, Drop)]
pub struct Refusal {
    /// The path from the document's root.
    pub path: Path,
    pub reason: Reason,
}

impl Refusal {
    /// Its text: the path, `: ` and the name of the reason.
    pub fn text(&self) -> Result<Vec<u8>, OutOfMemory>
        ensures { IfOk result (λ text. text.items ≡ refusal_text (record { path = self.now.path; reason = self.now.reason })) }
    {
        let mut text = self.path.text()?.into_vec();
        append(&mut text, b": ")?;
        append(&mut text, self.reason.name().as_bytes())?;
        Ok(text)
    }
}

/// Why a document gave no message.
#[derive(Debug, Drop, Error)]
pub enum DecodeError {
    /// The document is refused: the first refusal in the order of the tables, depth first.
    #[error("the document is refused")]
    Refused(Refusal),
    /// There was no memory.
    #[error("out of memory")]
    OutOfMemory,
}

impl From<TableError> for DecodeError {
    ghost from_gives = { λ error given. given ≡ decode_error error };

    fn from(error: TableError) -> Self {
        match error {
            TableError::Refused { path, reason } => DecodeError::Refused(Refusal { path, reason }),
            TableError::OutOfMemory => DecodeError::OutOfMemory,
        }
    }
}

/// The message of that kind, read by its table in the member of its name, which has to be there.
fn message_at(alloc: Global, tree: &Tree<'_>, kind: Kind) -> Result<Message, TableError>
    ensures { Gives result (message_at kind (shown tree.now)) }
{
    let name = kind.name();
    Ok(match kind {
        Kind::ServiceRequest => {
            Message::ServiceRequest(required_row::<ServiceRequestTable>(alloc, tree, name)?)
        }
        Kind::ServiceDelivery => {
            Message::ServiceDelivery(required_row::<ServiceDeliveryTable>(alloc, tree, name)?)
        }
        Kind::SubscriptionRequest => {
            Message::SubscriptionRequest(required_row::<SubscriptionRequestTable>(
                alloc, tree, name,
            )?)
        }
        Kind::SubscriptionResponse => {
            Message::SubscriptionResponse(required_row::<SubscriptionResponseTable>(
                alloc, tree, name,
            )?)
        }
        Kind::TerminateSubscriptionRequest => {
            Message::TerminateSubscriptionRequest(required_row::<TerminateSubscriptionRequestTable>(
                alloc, tree, name,
            )?)
        }
        Kind::TerminateSubscriptionResponse => {
            Message::TerminateSubscriptionResponse(required_row::<
                TerminateSubscriptionResponseTable,
            >(alloc, tree, name)?)
        }
        Kind::DataReadyNotification => {
            Message::DataReadyNotification(required_row::<DataReadyNotificationTable>(
                alloc, tree, name,
            )?)
        }
        Kind::DataReadyAcknowledgement => {
            Message::DataReadyAcknowledgement(required_row::<DataReadyAcknowledgementTable>(
                alloc, tree, name,
            )?)
        }
        Kind::DataSupplyRequest => {
            Message::DataSupplyRequest(required_row::<DataSupplyRequestTable>(alloc, tree, name)?)
        }
        Kind::DataReceivedAcknowledgement => {
            Message::DataReceivedAcknowledgement(required_row::<DataReceivedAcknowledgementTable>(
                alloc, tree, name,
            )?)
        }
        Kind::CheckStatusRequest => {
            Message::CheckStatusRequest(required_row::<CheckStatusRequestTable>(alloc, tree, name)?)
        }
        Kind::CheckStatusResponse => {
            Message::CheckStatusResponse(required_row::<CheckStatusResponseTable>(
                alloc, tree, name,
            )?)
        }
        Kind::HeartbeatNotification => {
            Message::HeartbeatNotification(required_row::<HeartbeatNotificationTable>(
                alloc, tree, name,
            )?)
        }
    })
}

/// The one message in Siri; `UnknownMessage` where there isn't exactly one.
struct SiriTable;

impl Table for SiriTable {
    type Out = Message;

    ghost rows = { siri };

    #[tactic(auto, unfolding(crate::specs::Documents::siri))]
    fn read_rows(alloc: Global, tree: &Tree<'_>) -> Result<Message, TableError> {
        match only_held(tree) {
            Some(kind) => message_at(alloc, tree, kind),
            None => refuse(alloc, Reason::UnknownMessage),
        }
    }
}

/// The message in Siri of a document's root: `WrongKind` where that is no object, `Missing` where it lacks Siri.
#[tactic(auto, unfolding(crate::specs::Documents::root))]
fn root(alloc: Global, tree: &Tree<'_>) -> Result<Message, TableError>
    ensures { Gives result (root (shown tree.now)) }
{
    match tree {
        Tree::Object(_) => required_row::<SiriTable>(alloc, tree, names::SIRI),
        _ => refuse(alloc, Reason::WrongKind),
    }
}

/// The message of a document or its first refusal, `TooLong` and `NotJson` before all others.
fn message_of(alloc: Global, document: &[u8]) -> Result<Message, TableError>
    ensures { Gives result (message_of document.now) }
{
    let mut scratch = Scratch::new(alloc);
    match read_delivery(alloc, document, &mut scratch) {
        Ok(delivery) => Ok(Message::ServiceDelivery(delivery)),
        Err(NotRead::Otherwise) => message_by_tree(alloc, document, &mut scratch),
        Err(NotRead::OutOfMemory) => Err(TableError::OutOfMemory),
    }
}

/// The same by the document's tree.
#[tactic(auto, unfolding(crate::specs::Documents::message_of))]
fn message_by_tree(
    alloc: Global,
    document: &[u8],
    scratch: &mut Scratch,
) -> Result<Message, TableError>
    ensures { Gives result (message_of document.now) }
{
    match read_tree(alloc, document, scratch) {
        Ok(tree) => root(alloc, &tree),
        Err(TreeError::TooLong) => refuse(alloc, Reason::TooLong),
        Err(TreeError::NotJson) => refuse(alloc, Reason::NotJson),
        Err(TreeError::OutOfMemory) => Err(TableError::OutOfMemory),
    }
}

/// The message that a document is read as (EN 15531-2), or the first refusal: `TooLong` above 8,388,608 bytes,
/// `NotJson`, `WrongKind` where it is no object, `Missing` and `WrongKind` at Siri, `UnknownMessage` at Siri where it
/// doesn't hold exactly one message, and then what the message's table is refused for, row by row, depth first.
pub fn decode(alloc: Global, bytes: &[u8]) -> Result<Message, DecodeError>
    ensures { Decodes result (message_of bytes.now) }
{
    Ok(message_of(alloc, bytes)?)
}
