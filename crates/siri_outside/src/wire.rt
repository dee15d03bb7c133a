//! Connections, as a run sees them.

ghost use Rattle.std.specs.Prelude.{◌≡◌, ℕ, ◌<◌, ◌≤◌, length, Option, IfOk, IsSome, OnOk};
ghost use Rattle.std.specs.Io.{ReadsAtMost, WritesAtMost};
ghost use Rattle.siri_outside.specs.Causes.{CountsFailures, HasCause, HasOutsideCause};
ghost use Rattle.siri_outside.specs.OutsideCalls.{WhereTold};
ghost use Rattle.siri_outside.specs.Wires.{WireState, Listens, Accepts, Dials, Reads, Writes, hung_up};

use crate::{Failed, OutsideError};
use siri_base::Name;

/// One connection at a time, read and written as a `Source` and a `Sink` are.
pub trait Wire {
    /// Whether a connection is there.
    ghost is_open: { Self → Type 0 };

    /// What it holds, where it tells it.
    ghost tells: { Self → Option WireState };

    /// How often it has failed.
    ghost faults: { Self → ℕ };

    /// Listens at an address, `HOST:PORT`.
    fn listen(&mut self, address: &Name) -> Result<(), OutsideError>
        ensures told { WhereTold (tells self.old) (tells self.new) (λ old new. Listens address.now old new result) }
        ensures cause { HasOutsideCause (faults self.old) (faults self.new) result }
        ensures counted { IsSome (tells self.old) → CountsFailures (faults self.old) (faults self.new) result };

    /// Waits for a connection, which replaces the one that is there. After an error that one stays.
    fn accept(&mut self) -> Result<(), OutsideError>
        ensures open { OnOk result (is_open self.new) }
        ensures told { WhereTold (tells self.old) (tells self.new) (λ old new. Accepts old new result) }
        ensures cause { HasOutsideCause (faults self.old) (faults self.new) result }
        ensures counted { IsSome (tells self.old) → CountsFailures (faults self.old) (faults self.new) result };

    /// Opens a connection to an address, `HOST:PORT`, which replaces the one that is there. After an error that one
    /// stays.
    fn dial(&mut self, address: &Name) -> Result<(), OutsideError>
        ensures open { OnOk result (is_open self.new) }
        ensures told { WhereTold (tells self.old) (tells self.new) (λ old new. Dials address.now old new result) }
        ensures cause { HasOutsideCause (faults self.old) (faults self.new) result }
        ensures counted { IsSome (tells self.old) → CountsFailures (faults self.old) (faults self.new) result };

    /// Gives the next bytes of the connection. 0 into a buffer that isn't empty is the end.
    fn read(&mut self, into: &mut [u8]) -> Result<usize, Failed>
        requires { is_open self.old }
        ensures open { is_open self.new }
        ensures bound { ReadsAtMost result into.new }
        ensures told { WhereTold (tells self.old) (tells self.new) (λ old new. Reads old new result into.new) }
        ensures cause { HasCause (faults self.old) (faults self.new) result }
        ensures counted { IsSome (tells self.old) → OnOk result (faults self.new ≡ faults self.old) };

    /// Appends a front of the piece to the connection, at least one byte where it isn't empty.
    fn write(&mut self, piece: &[u8]) -> Result<usize, OutsideError>
        requires { is_open self.old }
        ensures open { is_open self.new }
        ensures bound { WritesAtMost result piece.now }
        ensures some { IfOk result (λ count. 0 < length piece.now → 0 < count) }
        ensures told { WhereTold (tells self.old) (tells self.new) (λ old new. Writes old new result piece.now) }
        ensures cause { HasOutsideCause (faults self.old) (faults self.new) result }
        ensures counted { IsSome (tells self.old) → CountsFailures (faults self.old) (faults self.new) result };

    /// Ends the connection, where one is there.
    fn hang_up(&mut self)
        ensures told { WhereTold (tells self.old) (tells self.new) (λ old new. new ≡ hung_up old) }
        ensures later { faults self.old ≤ faults self.new }
        ensures counted { IsSome (tells self.old) → faults self.new ≡ faults self.old };
}
