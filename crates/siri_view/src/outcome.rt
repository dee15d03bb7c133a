//! What a consumer answers.

ghost use Rattle.std.specs.Prelude.{◌≡◌};
ghost use Rattle.siri_view.specs.declared.outcome.AskError.TheVariants.{OutOfMemory};

use siri_base::{List, OutOfMemory, Place};
use siri_messages::Message;
use thiserror::Error;

/// What a message was to a consumer. Of a delivery or a notification of a part (EN 15531-2, DataReadyNotification and
/// ServiceDelivery of a subscription) it is the first that fits.
#[derive(Clone, Copy, Debug, PartialEq, Eq)]
pub enum Outcome {
    /// The part is of another subscriber, or of a subscription that isn't held under that number.
    UnknownSubscription,
    /// It is of an earlier start of the producer than the one that is kept.
    OldStart,
    /// A part before it is missing.
    Gap {
        /// The part that is wanted next.
        wanted: Place,
    },
    /// It was taken before.
    Repeat,
    /// It is past the greatest part, 400, or the greatest round, 999,999,999,999,999,999.
    Overlong,
    /// The part that is wanted next can be fetched.
    Ready,
    /// It was taken, and further parts of its round follow.
    Buffered {
        /// The part.
        place: Place,
    },
    /// It was the last part of its round, and the round was applied to the view.
    Applied {
        /// The round.
        round: u64,
    },
    /// The message says nothing of a part: a response, a heartbeat, or a delivery that has no place in a round.
    Noted,
    /// The message is for a producer.
    NotForMe,
}

/// What a consumer answers to a message that it took.
#[derive(Drop)]
pub struct Seen {
    pub outcome: Outcome,
    /// What it replies to the sender, in order.
    pub replies: List<Message>,
}

/// The round whose target a view is. All are 0 where there is none.
#[derive(Clone, Copy, Debug, PartialEq, Eq)]
pub struct Held {
    /// The number of the request under which its subscription was held.
    pub number: u64,
    /// The number of the producer's start.
    pub start: u64,
    pub round: u64,
}

/// Why a consumer doesn't ask. It is as it was.
#[derive(Clone, Copy, Debug, PartialEq, Eq, Error)]
pub enum AskError {
    /// Its next number would pass 999,999,999,999,999,999.
    #[error("the numbers of requests are used up")]
    Spent,
    /// It would hold more than 200 subscriptions.
    #[error("more subscriptions would be held than can be")]
    TooMany,
    /// It doesn't hold the subscription.
    #[error("no such subscription is held")]
    NotHeld,
    /// There was no memory.
    #[error("out of memory")]
    OutOfMemory,
}

impl From<OutOfMemory> for AskError {
    ghost from_gives = { λ _ e. e ≡ OutOfMemory };

    fn from(_: OutOfMemory) -> Self {
        AskError::OutOfMemory
    }
}
