//! How a run opens.

ghost use Rattle.std.specs.Prelude.{◌≡◌, ◌≤◌, IfErr, IfOk, OnErr, OnOk};
ghost use Rattle.siri_outside.specs.Shelves.{OnShelf};
ghost use Rattle.siri_runs.specs.Calls.{outside};
ghost use Rattle.siri_keep_run.specs.Opening.{CountsOpening, EndsOpening, FailsToOpen, IsOpened, LeavesUnopened, OpensKept, opening_end};

use siri_base::{Moment, Name, ShelfReason, Status};
use siri_keep::{KeepError, Kept};
use siri_outside::{Clock, Keeper, OutsideError, Shelf, Wire};
use siri_runs::{listen, now, raise};
use std::alloc::Global;

/// What a shelf whose rows aren't opened ends a run with.
fn opening_end(error: KeepError) -> Status
    ensures { result ≡ opening_end error }
{
    match &error {
        KeepError::ShelfFault => Status::ShelfFault,
        KeepError::BadRow { table, .. } => Status::BadShelf {
            why: ShelfReason::Row { table: *table },
        },
        KeepError::OtherName => Status::BadShelf {
            why: ShelfReason::Name,
        },
        KeepError::OldStart { kept } => Status::BadShelf {
            why: ShelfReason::Start { kept: *kept },
        },
        KeepError::Closed | KeepError::RowTooLong | KeepError::OutOfMemory => Status::OutOfMemory,
    }
}

/// Opens the file of a shelf, and a producer of what it keeps.
#[tactic(auto, using(crate::proofs::Opened::opening_counts))]
fn open_shelf<B: Shelf>(
    alloc: Global,
    name: Name,
    file: &Name,
    start: u64,
    moment: Moment,
    shelf: &mut B,
) -> Result<Kept, Status>
    requires from_one { 1 ≤ start }
    requires small { start ≤ 99999999999 }
    ensures ok { IfOk result (λ kept. IsOpened name file.now start moment kept (B.tells shelf.old) (B.tells shelf.new)) }
    ensures err { IfErr result (λ end. EndsOpening name start end (B.tells shelf.old)) }
    ensures leaves { OnErr result (OnShelf B.tells shelf.old shelf.new (LeavesUnopened name file.now start moment)) }
    ensures open { OnOk result (B.is_open shelf.new) }
    ensures counted { CountsOpening (B.faults shelf.old) (B.faults shelf.new) result }
{
    match shelf.open(file) {
        Ok(()) => {}
        Err(OutsideError::Failed) => return Err(Status::ShelfFault),
        Err(OutsideError::OutOfMemory) => return Err(Status::OutOfMemory),
    }
    match Kept::open(alloc, shelf, name, start, moment) {
        Ok(kept) => Ok(kept),
        Err(error) => Err(opening_end(error)),
    }
}

/// Raises the number of the start, listens, reads the clock, and opens the file and a producer of what it keeps.
pub(crate) fn open<W: Wire, C: Clock, E: Keeper, B: Shelf>(
    alloc: Global,
    name: Name,
    address: &Name,
    file: &Name,
    wire: &mut W,
    clock: &mut C,
    keeper: &mut E,
    shelf: &mut B,
) -> Result<Kept, Status>
    ensures ok { IfOk result (λ kept. OpensKept name address.now file.now kept (B.tells shelf.old) (B.tells shelf.new)
        (outside W.Wire C.Clock E.Keeper wire.old clock.old keeper.old)
        (outside W.Wire C.Clock E.Keeper wire.new clock.new keeper.new)) }
    ensures err { IfErr result (λ end. FailsToOpen name address.now file.now end (B.tells shelf.old) (B.tells shelf.new)
        (outside W.Wire C.Clock E.Keeper wire.old clock.old keeper.old)
        (outside W.Wire C.Clock E.Keeper wire.new clock.new keeper.new)) }
    ensures open { OnOk result (B.is_open shelf.new) }
    ensures counted { CountsOpening (B.faults shelf.old) (B.faults shelf.new) result }
{
    let start = raise(keeper)?;
    listen(wire, address)?;
    let moment = now(clock)?;
    open_shelf(alloc, name, file, start, moment, shelf)
}
