//! Why lines are read no further.

ghost use Rattle.std.specs.Prelude.{◌≡◌};
ghost use Rattle.siri_lines.specs.Stops.{sink_stop, status_of};
ghost use Rattle.siri_lines.specs.declared.stop.Stop.TheVariants.{OutOfMemory};

use siri_base::{OutOfMemory, ScriptReason, Status};
use siri_outside::OutsideError;

/// Why lines are read no further: the statuses that a line may end a run with.
#[derive(Debug, Drop)]
pub enum Stop {
    /// The line isn't of the grammar.
    Script { line: u64, reason: ScriptReason },
    /// The line passes a limit.
    Limit { line: u64 },
    /// There was no memory.
    OutOfMemory,
    /// The sink failed.
    WriteFault,
}

impl From<OutsideError> for Stop {
    ghost from_gives = { λ e stop. stop ≡ sink_stop e };

    fn from(error: OutsideError) -> Self {
        match error {
            OutsideError::Failed => Stop::WriteFault,
            OutsideError::OutOfMemory => Stop::OutOfMemory,
        }
    }
}

impl From<OutOfMemory> for Stop {
    ghost from_gives = { λ e stop. stop ≡ OutOfMemory };

    fn from(_: OutOfMemory) -> Self {
        Stop::OutOfMemory
    }
}

impl From<Stop> for Status {
    ghost from_gives = { λ stop status. status ≡ status_of stop };

    fn from(stop: Stop) -> Self {
        match stop {
            Stop::Script { line, reason } => Status::Script { line, reason },
            Stop::Limit { line } => Status::Limit { line },
            Stop::OutOfMemory => Status::OutOfMemory,
            Stop::WriteFault => Status::WriteFault,
        }
    }
}
