//! What is answered to a message that is taken.

ghost use Rattle.std.specs.Prelude.{◌≡◌, Some, None};

use siri_base::Place;
use siri_messages::Message;
use siri_responder::Fed;

/// What became of a message that a producer took.
#[derive(Clone, Copy, Debug, PartialEq, Eq)]
pub enum Note {
    /// A ServiceRequest: the reply is the direct response.
    Asked,
    /// A SubscriptionRequest: the reply has a status for each subscription.
    Subscribed,
    /// A TerminateSubscriptionRequest: the reply has a status for each subscription.
    Ended,
    /// A DataSupplyRequest of the wanted part of a round that is to be fetched: the reply is the part.
    Supplied,
    /// A DataSupplyRequest of a part of a subscription that isn't held, whose delivery isn't fetched, or of which no
    /// round is outstanding. Nothing changed, and the reply has Status false.
    NothingReady,
    /// Any other DataSupplyRequest of a part. Nothing changed, and the reply has Status false.
    WrongPart {
        /// The part that is wanted.
        wanted: Place,
    },
    /// A DataSupplyRequest with AllData that renewed a subscription, or did so before: the reply is a delivery without
    /// items, and the parts are sent by themselves.
    Renewed,
    /// Any other DataSupplyRequest with AllData. Nothing changed, and the reply has Status false.
    NotRenewed,
    /// A DataReceivedAcknowledgement of the wanted part. There is no reply.
    Acknowledged,
    /// Any other DataReceivedAcknowledgement. Nothing changed, and there is no reply.
    NotThis,
    /// A CheckStatusRequest: the reply is the status of the producer.
    Checked,
    /// A ServiceDelivery of no round, which is a feed: the reply acknowledges it.
    Fed(Fed),
    /// Any other message. Nothing changed, and there is no reply.
    Ignored,
}

/// What a producer answers to a message.
#[derive(Drop)]
pub struct Answer {
    pub note: Note,
    /// What is sent back to whom the message came from, if anything is.
    pub reply: Option<Message>,
}

impl Answer {
    /// With a reply.
    pub(crate) fn replied(note: Note, reply: Message) -> Answer
        ensures { result ≡ record { note = note; reply = Some reply } }
    {
        Answer {
            note,
            reply: Some(reply),
        }
    }

    /// With none.
    pub(crate) fn noted(note: Note) -> Answer
        ensures { result ≡ record { note = note; reply = None } }
    {
        Answer { note, reply: None }
    }
}
