//! Why a line isn't taken.

ghost use Rattle.std.specs.Prelude.{◌≡◌};
ghost use Rattle.siri_document.specs.declared.script.line_error.LineError.TheVariants.{OutOfMemory};
ghost use Rattle.siri_document.specs.script.Reads.{line_stop};

use siri_base::{OutOfMemory, ScriptReason};
use siri_lines::Stop;
use thiserror::Error;

/// Why a line isn't taken.
#[derive(Debug, Drop, Error)]
pub enum LineError {
    /// It isn't of the grammar.
    #[error("the line isn't of the grammar")]
    Refused(ScriptReason),
    /// There was no memory.
    #[error("out of memory")]
    OutOfMemory,
}

impl LineError {
    /// How it ends the run, at the line of this number.
    pub fn stop(self, line: u64) -> Stop
        ensures { result ≡ line_stop line self }
    {
        match self {
            LineError::Refused(reason) => Stop::Script { line, reason },
            LineError::OutOfMemory => Stop::OutOfMemory,
        }
    }
}

impl From<OutOfMemory> for LineError {
    ghost from_gives = { λ e error. error ≡ OutOfMemory };

    fn from(_: OutOfMemory) -> Self {
        LineError::OutOfMemory
    }
}
