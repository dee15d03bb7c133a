//! What a shelf does.

ghost use Rattle.std.specs.Prelude.{ℕ, Option, OnErr, OnOk};
ghost use Rattle.siri_outside.specs.Causes.{HasOutsideCause};
ghost use Rattle.siri_outside.specs.OutsideCalls.{WhereTold};
ghost use Rattle.siri_outside.specs.Shelves.{CountsFault, GivesRow, Opens, ShelfState, Writes, key_after};

use crate::{OutsideError, Put, Row};
use siri_base::{List, Name};

/// What a call of a shelf answers where it doesn't succeed: `Failed` exactly where its count of faults rose, or
/// `OutOfMemory`.
pub use crate::OutsideError as ShelfError;

/// Rows that outlast a run, in a file: a finite map from a table and a key to a text. A call that fails leaves the rows
/// as they were, and its fault is counted once: it isn't made again, and no other call hides it.
pub trait Shelf {
    /// Whether a file is open.
    ghost is_open: { Self → Type 0 };

    /// What it holds, what a stop may leave of it, and which files it was to open, where it tells that.
    ghost tells: { Self → Option ShelfState };

    /// How often it has failed.
    ghost faults: { Self → ℕ };

    /// Opens the file of a name, which is made where there is none. The rows stay as they are, whether it succeeds or
    /// not. After an error no file is open.
    fn open(&mut self, file: &Name) -> Result<(), OutsideError>
        ensures open { OnOk result (is_open self.new) }
        ensures closed { OnErr result (¬ is_open self.new) }
        ensures told { WhereTold (tells self.old) (tells self.new) (λ old new. Opens file.now old new result) }
        ensures cause { HasOutsideCause (faults self.old) (faults self.new) result }
        ensures counted { CountsFault (faults self.old) (faults self.new) result };

    /// The row of a table with the least key above the one that is given, or with the least key of all where none is;
    /// `None` where there is no such row. Nothing changes.
    fn next(&mut self, table: u8, after: Option<&[u8]>) -> Result<Option<Row>, OutsideError>
        requires { is_open self.old }
        ensures open { is_open self.new }
        ensures told { WhereTold (tells self.old) (tells self.new) (λ old new. GivesRow table (key_after after.entry) old new result) }
        ensures cause { HasOutsideCause (faults self.old) (faults self.new) result }
        ensures counted { CountsFault (faults self.old) (faults self.new) result };

    /// Makes all puts, in order, or none of them where it doesn't succeed. A stop within it leaves the rows before it
    /// or those after it.
    fn write(&mut self, list: &List<Put>) -> Result<(), OutsideError>
        requires { is_open self.old }
        ensures open { is_open self.new }
        ensures told { WhereTold (tells self.old) (tells self.new) (λ old new. Writes list.now old new result) }
        ensures cause { HasOutsideCause (faults self.old) (faults self.new) result }
        ensures counted { CountsFault (faults self.old) (faults self.new) result };
}
