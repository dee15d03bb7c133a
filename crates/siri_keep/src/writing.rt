//! One write.

ghost use Rattle.std.specs.Prelude.{false, is_err, IsErrOf};
ghost use Rattle.siri_outside.specs.Shelves.{OnShelf};
ghost use Rattle.siri_keep.specs.declared.errors.KeepError.TheVariants as error;
ghost use Rattle.siri_keep.specs.Calls.{ClosesBy, CountsKept, HasKeepCause};
ghost use Rattle.siri_keep.specs.Planning.{WritesAll};

use crate::KeepError;
use siri_base::List;
use siri_outside::{OutsideError, Put, Shelf};

/// Writes puts, all of them or none. The shelf isn't called where there are none.
pub(crate) fn write_all<B: Shelf>(shelf: &mut B, puts: &List<Put>) -> Result<(), KeepError>
    requires { B.is_open shelf.old }
    ensures open { B.is_open shelf.new }
    ensures told { OnShelf B.tells shelf.old shelf.new (λ old new. WritesAll puts.now old new result) }
    ensures cause { HasKeepCause (B.faults shelf.old) (B.faults shelf.new) result }
    ensures counted { CountsKept (B.faults shelf.old) (B.faults shelf.new) result }
    ensures closes { ClosesBy false (is_err result) result }
    ensures too_long { ¬ IsErrOf result error.RowTooLong }
{
    if puts.len() == 0 {
        return Ok(());
    }
    match shelf.write(puts) {
        Ok(()) => Ok(()),
        Err(OutsideError::Failed) => Err(KeepError::ShelfFault),
        Err(OutsideError::OutOfMemory) => Err(KeepError::OutOfMemory),
    }
}
