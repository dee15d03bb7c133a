//! The outside, as a run sees it. What an object holds or has left is told by some objects only. Those count the calls
//! that fail, and nothing else: named failures, and calls that find nothing left.

ghost use Rattle.std.specs.Prelude.{◌≡◌, ℕ, ◌<◌, ◌≤◌, List, length, Option, IfOk, IsSome, OnOk};
ghost use Rattle.std.specs.Io.{ReadsAtMost, WritesAtMost};
ghost use Rattle.std.specs.Io.KnownBytes.{ReadConsumes, WriteAppends};
ghost use Rattle.siri_outside.specs.Causes.{CountsFailures, HasCause, HasOutsideCause};
ghost use Rattle.siri_outside.specs.Failures.{ReadMeets, WriteMeets};
ghost use Rattle.siri_outside.specs.OutsideCalls.{WhereTold, ClockState, KeeperState, GivesMoment, RaisesNumber};

use crate::{Failed, OutsideError};
use siri_base::Moment;

/// Bytes that come.
pub trait Source {
    /// The bytes that are left, where it tells them.
    ghost left: { Self → Option (List ℕ) };

    /// Its failures to come, each by how many bytes it gives before, counted from the failure before it, where it tells
    /// them.
    ghost fails: { Self → Option (List ℕ) };

    /// How often it has failed.
    ghost faults: { Self → ℕ };

    /// Gives the next bytes. 0 into a buffer that isn't empty is the end.
    fn read(&mut self, into: &mut [u8]) -> Result<usize, Failed>
        ensures bound { ReadsAtMost result into.new }
        ensures bytes { ReadConsumes (left self.old) (left self.new) result into.new }
        ensures failing { WhereTold (fails self.old) (fails self.new) (λ old new. ReadMeets old new result (length into.new)) }
        ensures cause { HasCause (faults self.old) (faults self.new) result }
        ensures counted { IsSome (fails self.old) → OnOk result (faults self.new ≡ faults self.old) };
}

/// Bytes that go.
pub trait Sink {
    /// The bytes that it holds, where it tells them.
    ghost held: { Self → Option (List ℕ) };

    /// How often it has failed.
    ghost faults: { Self → ℕ };

    /// Its failures to come, each by how many bytes it takes before, counted from the failure before it, where it tells
    /// them.
    ghost fails: { Self → Option (List ℕ) };

    /// Appends a front of the piece, at least one byte where it isn't empty.
    fn write(&mut self, piece: &[u8]) -> Result<usize, OutsideError>
        ensures bound { WritesAtMost result piece.now }
        ensures some { IfOk result (λ count. 0 < length piece.now → 0 < count) }
        ensures bytes { WriteAppends (held self.old) (held self.new) result piece.now }
        ensures failing { WhereTold (fails self.old) (fails self.new) (λ old new. WriteMeets old new result (length piece.now)) }
        ensures cause { HasOutsideCause (faults self.old) (faults self.new) result }
        ensures counted { IsSome (fails self.old) → CountsFailures (faults self.old) (faults self.new) result };
}

/// Moments that come.
pub trait Clock {
    /// What it holds, where it tells it.
    ghost tells: { Self → Option ClockState };

    /// How often it has failed.
    ghost faults: { Self → ℕ };

    /// The next moment.
    fn now(&mut self) -> Result<Moment, Failed>
        ensures moment { WhereTold (tells self.old) (tells self.new) (λ old new. GivesMoment old new result) }
        ensures cause { HasCause (faults self.old) (faults self.new) result }
        ensures counted { IsSome (tells self.old) → OnOk result (faults self.new ≡ faults self.old) };
}

/// The start number that is kept from one run to the next.
pub trait Keeper {
    /// What it holds, where it tells it.
    ghost tells: { Self → Option KeeperState };

    /// How often it has failed.
    ghost faults: { Self → ℕ };

    /// Adds one to the number and gives it. At 99,999,999,999 it fails.
    fn raise(&mut self) -> Result<u64, OutsideError>
        ensures number { WhereTold (tells self.old) (tells self.new) (λ old new. RaisesNumber old new result) }
        ensures range { IfOk result (λ n. (1 ≤ n) × (n ≤ 99999999999)) }
        ensures cause { HasOutsideCause (faults self.old) (faults self.new) result }
        ensures counted { IsSome (tells self.old) → CountsFailures (faults self.old) (faults self.new) result };
}
