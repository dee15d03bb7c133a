//! What calls answer where they don't succeed.

ghost use Rattle.std.specs.Prelude.{◌≡◌};
ghost use Rattle.siri_keep.specs.declared.errors.KeepError.TheVariants as error;

use siri_base::{List, OutOfMemory};

/// Why a call of a producer over a shelf was refused.
#[derive(Debug)]
pub enum KeepError {
    /// The shelf failed: its count of faults rose.
    ShelfFault,
    /// That row is the first, by table and key, that isn't one that this crate would have written there.
    BadRow {
        /// Its table.
        table: u8,
        /// Its key.
        key: List<u8>,
    },
    /// The rows are of a producer with another name.
    OtherName,
    /// The number of the start isn't above the one that is kept.
    OldStart {
        /// The one that is kept.
        kept: u64,
    },
    /// An earlier call failed, or found no memory.
    Closed,
    /// A row of the message would have more than 8,388,608 bytes.
    RowTooLong,
    /// There was no memory.
    OutOfMemory,
}

impl Drop for KeepError {
    fn drop(self) {
        match self {
            KeepError::BadRow { table: _, key: _ } => {}
            KeepError::ShelfFault
            | KeepError::OtherName
            | KeepError::OldStart { kept: _ }
            | KeepError::Closed
            | KeepError::RowTooLong
            | KeepError::OutOfMemory => {}
        }
    }
}

impl From<OutOfMemory> for KeepError {
    ghost from_gives = { λ _ e. e ≡ error.OutOfMemory };

    fn from(_: OutOfMemory) -> Self {
        KeepError::OutOfMemory
    }
}
