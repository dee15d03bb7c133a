//! Why a load is played no further.

ghost use Rattle.std.specs.Prelude.{◌≡◌};
ghost use Rattle.siri_load.specs.declared.stop.Stop.TheVariants.{OutOfMemory};

use siri_base::OutOfMemory;
use siri_world_model::StepError;

/// Why a load is played no further.
#[derive(Clone, Copy, Debug, PartialEq, Eq)]
pub(crate) enum Stop {
    /// The line of this number passes a limit.
    Limit(u64),
    /// There was no memory.
    OutOfMemory,
}

impl Stop {
    ghost use Rattle.siri_load.specs.Playing.{stop_of};

    /// Why it stops where the line of this number doesn't happen.
    pub(crate) fn of(error: StepError, line: u64) -> Stop
        ensures { result ≡ stop_of line error }
    {
        match error {
            StepError::OutOfMemory => Stop::OutOfMemory,
            StepError::NotStarted
            | StepError::StartLimit
            | StepError::ConsumerLimit
            | StepError::PacketLimit => Stop::Limit(line),
        }
    }
}

impl From<OutOfMemory> for Stop {
    ghost from_gives = { λ _ e. e ≡ OutOfMemory };

    fn from(_: OutOfMemory) -> Self {
        Stop::OutOfMemory
    }
}
