//! The outside, by slot.

ghost use Rattle.std.specs.Prelude.{◌≡◌, ℕ, ◌<◌, ◌≤◌, length, Option, IfOk, IsSome, OnOk};
ghost use Rattle.std.specs.Io.{ReadsAtMost, WritesAtMost};
ghost use Rattle.siri_outside.specs.Causes.{CountsFailures, HasCause, HasOutsideCause};
ghost use Rattle.siri_outside.specs.OutsideCalls.{WhereTold};
ghost use Rattle.siri_outside.specs.Wires.{Listens, Reads, Writes, hung_up};
ghost use Rattle.siri_doors.specs.Doors.{DoorsState, DialsSlot, GivesEvent, GivesTurn, OnLine, Refuses};

use crate::Event;
use siri_base::{Name, OutOfMemory};
use siri_outside::{Failed, OutsideError};

/// What happens to the connections that come, side by side, and the one connection that has its turn.
pub trait Doors {
    /// Whether the connection in a slot has its turn.
    ghost is_open: { Self → ℕ → Type 0 };

    /// What it holds, where it tells it.
    ghost tells: { Self → Option DoorsState };

    /// How often it has failed.
    ghost faults: { Self → ℕ };

    /// Listens at an address, `HOST:PORT`.
    fn listen(&mut self, address: &Name) -> Result<(), OutsideError>
        ensures told { WhereTold (tells self.old) (tells self.new) (OnLine (λ old new. Listens address.now old new result)) }
        ensures cause { HasOutsideCause (faults self.old) (faults self.new) result }
        ensures counted { IsSome (tells self.old) → CountsFailures (faults self.old) (faults self.new) result };

    /// Waits for the next event.
    fn next(&mut self) -> Result<Event, OutsideError>
        ensures told { WhereTold (tells self.old) (tells self.new) (λ old new. GivesEvent old new result) }
        ensures cause { HasOutsideCause (faults self.old) (faults self.new) result }
        ensures counted { IsSome (tells self.old) → CountsFailures (faults self.old) (faults self.new) result };

    /// Gives its turn to the connection in a slot, in the place of the one that has it. After want of memory that one
    /// stays.
    fn turn(&mut self, slot: usize) -> Result<(), OutOfMemory>
        ensures open { OnOk result (is_open self.new slot) }
        ensures told { WhereTold (tells self.old) (tells self.new) (λ old new. GivesTurn slot old new result) }
        ensures later { faults self.old ≤ faults self.new }
        ensures counted { IsSome (tells self.old) → faults self.new ≡ faults self.old };

    /// Ends the connection in a slot, which has had no turn. After want of memory it is there as before.
    fn refuse(&mut self, slot: usize) -> Result<(), OutOfMemory>
        ensures told { WhereTold (tells self.old) (tells self.new) (λ old new. Refuses slot old new result) }
        ensures later { faults self.old ≤ faults self.new }
        ensures counted { IsSome (tells self.old) → faults self.new ≡ faults self.old };

    /// Opens a connection to an address, `HOST:PORT`, and gives its slot. It has its turn, in the place of the one that
    /// has it. After an error that one stays.
    fn dial(&mut self, address: &Name) -> Result<usize, OutsideError>
        ensures open { IfOk result (is_open self.new) }
        ensures told { WhereTold (tells self.old) (tells self.new) (λ old new. DialsSlot address.now old new result) }
        ensures cause { HasOutsideCause (faults self.old) (faults self.new) result }
        ensures counted { IsSome (tells self.old) → CountsFailures (faults self.old) (faults self.new) result };

    /// Gives the next bytes of the connection in a slot, which was dialled. 0 into a buffer that isn't empty is the
    /// end.
    fn read(&mut self, slot: usize, into: &mut [u8]) -> Result<usize, Failed>
        requires { is_open self.old slot }
        ensures open { is_open self.new slot }
        ensures bound { ReadsAtMost result into.new }
        ensures told { WhereTold (tells self.old) (tells self.new) (OnLine (λ old new. Reads old new result into.new)) }
        ensures cause { HasCause (faults self.old) (faults self.new) result }
        ensures counted { IsSome (tells self.old) → OnOk result (faults self.new ≡ faults self.old) };

    /// Appends a front of the piece to the connection in a slot, at least one byte where it isn't empty.
    fn write(&mut self, slot: usize, piece: &[u8]) -> Result<usize, OutsideError>
        requires { is_open self.old slot }
        ensures open { is_open self.new slot }
        ensures bound { WritesAtMost result piece.now }
        ensures some { IfOk result (λ count. 0 < length piece.now → 0 < count) }
        ensures told { WhereTold (tells self.old) (tells self.new) (OnLine (λ old new. Writes old new result piece.now)) }
        ensures cause { HasOutsideCause (faults self.old) (faults self.new) result }
        ensures counted { IsSome (tells self.old) → CountsFailures (faults self.old) (faults self.new) result };

    /// Ends the connection that has its turn, where one is there.
    fn hang_up(&mut self)
        ensures told { WhereTold (tells self.old) (tells self.new) (OnLine (λ old new. new ≡ hung_up old)) }
        ensures later { faults self.old ≤ faults self.new }
        ensures counted { IsSome (tells self.old) → faults self.new ≡ faults self.old };
}
