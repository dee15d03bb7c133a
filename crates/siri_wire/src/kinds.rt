//! The kinds of messages, and which of them an object holds.

ghost use Rattle.std.specs.Prelude.{◌≡◌};
ghost use Rattle.siri_json.specs.Shown.{shown};
ghost use Rattle.siri_wire.specs.Documents.{kinds, name_of, holds, only, held, only_held};

use siri_deliveries::names;
use siri_json::{ObjectOf, Tree, member, object_of};

/// A kind of messages (EN 15531-2).
#[derive(Clone, Copy)]
pub enum Kind {
    ServiceRequest,
    ServiceDelivery,
    SubscriptionRequest,
    SubscriptionResponse,
    TerminateSubscriptionRequest,
    TerminateSubscriptionResponse,
    DataReadyNotification,
    DataReadyAcknowledgement,
    DataSupplyRequest,
    DataReceivedAcknowledgement,
    CheckStatusRequest,
    CheckStatusResponse,
    HeartbeatNotification,
}

/// All kinds of messages that a Siri may hold.
const KINDS: [Kind; 13] = [
    Kind::ServiceRequest,
    Kind::ServiceDelivery,
    Kind::SubscriptionRequest,
    Kind::SubscriptionResponse,
    Kind::TerminateSubscriptionRequest,
    Kind::TerminateSubscriptionResponse,
    Kind::DataReadyNotification,
    Kind::DataReadyAcknowledgement,
    Kind::DataSupplyRequest,
    Kind::DataReceivedAcknowledgement,
    Kind::CheckStatusRequest,
    Kind::CheckStatusResponse,
    Kind::HeartbeatNotification,
];

impl Kind {
    /// The name under which a document holds such a message.
    pub(crate) fn name(self) -> &'static str
        ensures { result.now ≡ name_of self }
    {
        match self {
            Kind::ServiceRequest => names::SERVICE_REQUEST,
            Kind::ServiceDelivery => names::SERVICE_DELIVERY,
            Kind::SubscriptionRequest => names::SUBSCRIPTION_REQUEST,
            Kind::SubscriptionResponse => names::SUBSCRIPTION_RESPONSE,
            Kind::TerminateSubscriptionRequest => names::TERMINATE_SUBSCRIPTION_REQUEST,
            Kind::TerminateSubscriptionResponse => names::TERMINATE_SUBSCRIPTION_RESPONSE,
            Kind::DataReadyNotification => names::DATA_READY_NOTIFICATION,
            Kind::DataReadyAcknowledgement => names::DATA_READY_ACKNOWLEDGEMENT,
            Kind::DataSupplyRequest => names::DATA_SUPPLY_REQUEST,
            Kind::DataReceivedAcknowledgement => names::DATA_RECEIVED_ACKNOWLEDGEMENT,
            Kind::CheckStatusRequest => names::CHECK_STATUS_REQUEST,
            Kind::CheckStatusResponse => names::CHECK_STATUS_RESPONSE,
            Kind::HeartbeatNotification => names::HEARTBEAT_NOTIFICATION,
        }
    }
}

/// Whether a member of that name is there and doesn't count as absent; a value that is no object is held too.
#[tactic(auto, unfolding(crate::specs::Documents::holds))]
fn holds(tree: &Tree<'_>, key: &str) -> bool
    ensures { result ≡ holds key.now (shown tree.now) }
{
    match member(tree, key) {
        Some(value) => match object_of(value) {
            ObjectOf::Absent => false,
            ObjectOf::Is(_) | ObjectOf::Wrong => true,
        },
        None => false,
    }
}

/// The kind of the only one of these messages that an object holds.
fn only_among(tree: &Tree<'_>, kinds: &[Kind]) -> Option<Kind>
    ensures { result ≡ only (held (shown tree.now) kinds.now) }
{
    let mut only = None;
    for kind in kinds {
        if holds(tree, kind.name()) {
            if only.is_some() {
                return None;
            }
            only = Some(*kind);
        }
    }
    only
}

/// The kind of the only message that an object holds: `None` exactly where it holds none, or more than one. A member
/// that is null or an empty list counts as absent.
#[tactic(auto, unfolding(crate::specs::Documents::only_held))]
pub(crate) fn only_held(tree: &Tree<'_>) -> Option<Kind>
    ensures { result ≡ only_held (shown tree.now) }
{
    only_among(tree, &KINDS)
}
