//! What a relay answers.

ghost use Rattle.std.specs.Prelude.{◌≡◌};
ghost use Rattle.siri_relay.specs.declared.answers.OpenError.TheVariants.{Ask};
ghost use Rattle.siri_view.specs.declared.outcome.AskError.TheVariants.{OutOfMemory};

use siri_base::OutOfMemory;
use siri_producer::Answer;
use siri_view::{AskError, Seen};
use thiserror::Error;

/// What became of a message that a relay took.
#[derive(Drop)]
pub enum RelayAnswer {
    /// It came from the source's side: what it was to the consumer, and the replies to it.
    Up(Seen),
    /// It came from a subscriber's side: what the producer answers to it.
    Down(Answer),
}

/// Why a relay doesn't subscribe to its source. It is as it was.
#[derive(Clone, Copy, Debug, PartialEq, Eq, Error)]
pub enum OpenError {
    /// It has subscribed before.
    #[error("the relay has subscribed before")]
    Already,
    /// Its consumer doesn't ask.
    #[error("{0}")]
    Ask(AskError),
}

impl From<AskError> for OpenError {
    ghost from_gives = { λ why e. e ≡ Ask why };

    fn from(why: AskError) -> Self {
        OpenError::Ask(why)
    }
}

impl From<OutOfMemory> for OpenError {
    ghost from_gives = { λ _ e. e ≡ Ask OutOfMemory };

    fn from(_: OutOfMemory) -> Self {
        OpenError::Ask(AskError::OutOfMemory)
    }
}
