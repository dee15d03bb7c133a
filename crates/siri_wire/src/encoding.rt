//! Writing documents.

ghost use Rattle.std.specs.Prelude.{◌≡◌, ◌++◌, IfOk, OnOk};
ghost use Rattle.siri_json.specs.Tokens.{tokens_of};
ghost use Rattle.siri_wire.specs.Canonical.{written_body, written_message, canonical};

use crate::write_requests::write_service_request;
use crate::write_statuses::{write_check_status, write_heartbeat, write_status_response};
use crate::write_subscriptions::{write_subscription_request, write_subscription_response};
use crate::write_supplies::{
    write_data_ready, write_ready_acknowledgement, write_received, write_supply,
};
use crate::write_terminations::{write_termination, write_termination_response};
use siri_base::OutOfMemory;
use siri_deliveries::{names, write_service_delivery};
use siri_json::Output;
use siri_messages::Message;
use std::alloc::Global;

/// Writes the object of a message, without Siri and the name of its kind around it.
#[tactic(auto, unfolding(crate::specs::Canonical::written_body))]
fn write_body(out: &mut Output, message: &Message) -> Result<(), OutOfMemory>
    ensures { OnOk result (out.new ≡ out.old ++ tokens_of (written_body message.now)) }
{
    match message {
        Message::ServiceRequest(m) => write_service_request(out, m),
        Message::ServiceDelivery(m) => write_service_delivery(out, m),
        Message::SubscriptionRequest(m) => write_subscription_request(out, m),
        Message::SubscriptionResponse(m) => write_subscription_response(out, m),
        Message::TerminateSubscriptionRequest(m) => write_termination(out, m),
        Message::TerminateSubscriptionResponse(m) => write_termination_response(out, m),
        Message::DataReadyNotification(m) => write_data_ready(out, m),
        Message::DataReadyAcknowledgement(m) => write_ready_acknowledgement(out, m),
        Message::DataSupplyRequest(m) => write_supply(out, m),
        Message::DataReceivedAcknowledgement(m) => write_received(out, m),
        Message::CheckStatusRequest(m) => write_check_status(out, m),
        Message::CheckStatusResponse(m) => write_status_response(out, m),
        Message::HeartbeatNotification(m) => write_heartbeat(out, m),
    }
}

/// Writes a whole document: an object with Siri, that with the name of the message's kind, that with the message.
#[tactic(auto, using(crate::proofs::InOrder::message_in_order))]
fn write_message(out: &mut Output, message: &Message) -> Result<(), OutOfMemory>
    ensures { OnOk result (out.new ≡ out.old ++ tokens_of (written_message message.now)) }
{
    out.begin_object()?;
    out.key(names::SIRI)?;
    out.begin_object()?;
    out.key(message.kind())?;
    write_body(out, message)?;
    out.end_object()?;
    out.end_object()
}

/// The document that says a message, in its one text: compact, members in byte order of their names. Texts, moments,
/// spans and decimals are strings, flags `true` and `false`, numbers JSON numbers, but for a MessageIdentifier, which
/// is always a string; lists are lists. What is absent isn't written, nor a list or an object that need not be there
/// and would be empty. Each journey stands in an EstimatedJourneyVersionFrame of its own, which carries its
/// RecordedAtTime. Topics, items and removals of another service than their list's are written by the tables of their
/// own service.
#[tactic(auto, using(crate::proofs::InOrder::message_said))]
pub fn encode(alloc: Global, message: &Message) -> Result<Vec<u8>, OutOfMemory>
    ensures { IfOk result (λ text. text.items ≡ canonical message.now) }
{
    let mut out = Output::new(alloc);
    write_message(&mut out, message)?;
    Ok(out.into_text())
}
