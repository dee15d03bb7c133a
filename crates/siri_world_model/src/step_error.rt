//! Why an event doesn't happen.

ghost use Rattle.std.specs.Prelude.{◌≡◌};
ghost use Rattle.siri_world_model.specs.declared.step_error.StepError.TheVariants.{OutOfMemory};

use siri_base::OutOfMemory;
use thiserror::Error;

/// Why an event doesn't happen: of `NotStarted`, `StartLimit`, `ConsumerLimit` and `PacketLimit` the first that holds.
/// After `PacketLimit` and `OutOfMemory` the world is given up.
#[derive(Clone, Copy, Debug, PartialEq, Eq, Error)]
pub enum StepError {
    /// The event isn't a start, and no start came before.
    #[error("the producer hasn't started")]
    NotStarted,
    /// More than 1,000,000 packets would have been sent.
    #[error("more packets would be sent than can be")]
    PacketLimit,
    /// A 17th consumer would be made.
    #[error("more consumers would be made than can be")]
    ConsumerLimit,
    /// The producer would start for the 1,000,001st time.
    #[error("the producer would start more often than it can")]
    StartLimit,
    /// There was no memory.
    #[error("out of memory")]
    OutOfMemory,
}

impl From<OutOfMemory> for StepError {
    ghost from_gives = { λ _ e. e ≡ OutOfMemory };

    fn from(_: OutOfMemory) -> Self {
        StepError::OutOfMemory
    }
}
