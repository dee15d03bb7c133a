//! The command `keep`.

ghost use Rattle.std.specs.Prelude.{◌≡◌, IfErr, IfOk, Some, []};
ghost use Rattle.siri_outside.specs.Causes.{Rose};
ghost use Rattle.siri_outside.specs.MetFailures.{SinkMeets, is_write_fault};
ghost use Rattle.siri_base.specs.declared.status.Status.TheVariants as status;
ghost use Rattle.siri_outside.specs.Shelves.{OnShelf};
ghost use Rattle.siri_runs.specs.Calls.{outside};
ghost use Rattle.siri_runs.specs.Enough.{HasEnough};
ghost use Rattle.siri_keep_run.specs.Left.{KeepAnswered, KeepTrail};
ghost use Rattle.siri_keep_run.specs.Opening.{CountsEnd, CountsOpening};
ghost use Rattle.siri_keep_run.specs.Runs.{EndsKeeping, EndsWholeOrByShelf, KeepRun, keep_procedure};
ghost use Rattle.siri_runs.specs.Run.{Completes, EndsBefore};
ghost use Rattle.siri_runs.specs.Summaries.{summary_text};

use crate::opening::open;
use siri_base::{Name, Status};
use siri_http::{PostAlone, Tally};
use siri_keep::Kept;
use siri_outside::{Clock, Keeper, OutsideError, Shelf, Sink, Wire};
use siri_runs::{run_turns, write_summary};
use std::alloc::Global;

/// A producer of this name over the shelf of a file, for so many connections at `HOST:PORT`: it raises the number of its
/// start, listens, reads the clock for its first moment, opens that file, once and no other, and begins with what its
/// rows keep; then it serves each connection at the clock's moment. What a message changes is in the file before it is
/// answered. After each 1,000 connections the rows of dead items leave. Then it writes
/// `served N refused R dropped D unsent U`.
///
/// However it ends, and wherever it is cut off, the rows are as they were before, or keep what it opened with, or all that
/// so many of its turns made, with a front of the next. Where it ends, they keep each message whose connection was
/// answered 200.
///
/// `KeeperFault`, `WireFault` and `ClockFault` only where the keeper, the wire or the clock failed, the wire to listen or to
/// accept; `ShelfFault` exactly where the shelf failed, which isn't called again then; `BadShelf` where the rows aren't
/// those of a producer of this name and an earlier start, for the reason that [`Kept::open`](siri_keep::Kept::open)
/// gives; nothing is written then. `WriteFault` only where the sink failed, `OutOfMemory` wherever memory is asked for,
/// otherwise `Done`.
pub fn keep<K: Sink, W: Wire, C: Clock, E: Keeper, B: Shelf>(
    alloc: Global,
    name: Name,
    address: &Name,
    file: &Name,
    count: u64,
    sink: &mut K,
    wire: &mut W,
    clock: &mut C,
    keeper: &mut E,
    shelf: &mut B,
) -> Status
    ensures run { KeepRun name address.now file.now count (B.tells shelf.old) (B.tells shelf.new)
        (outside W.Wire C.Clock E.Keeper wire.old clock.old keeper.old)
        (outside W.Wire C.Clock E.Keeper wire.new clock.new keeper.new)
        (K.held sink.old) (K.held sink.new) result }
    // What it leaves on the shelf, at every moment and at whatever status.
    ensures keep_trail { OnShelf B.tells shelf.old shelf.new (KeepTrail name address.now file.now count
        (outside W.Wire C.Clock E.Keeper wire.old clock.old keeper.old)) }
    ensures keep_answered { OnShelf B.tells shelf.old shelf.new (KeepAnswered name address.now file.now count result
        (outside W.Wire C.Clock E.Keeper wire.old clock.old keeper.old)
        (outside W.Wire C.Clock E.Keeper wire.new clock.new keeper.new)) }
    ensures unwritten { EndsKeeping result → sink.new ≡ sink.old }
    ensures meets { SinkMeets (is_write_fault result) (K.held sink.old) (K.held sink.new) (K.fails sink.old) (K.fails sink.new) }
    // Where there is enough for so many connections, and no failure is named for the sink.
    ensures complete { HasEnough count (outside W.Wire C.Clock E.Keeper wire.old clock.old keeper.old)
        → K.fails sink.old ≡ Some [] → EndsWholeOrByShelf result }
    // When each fault comes.
    ensures write_fault { result ≡ status.WriteFault → Rose (K.faults sink.old) (K.faults sink.new) }
    ensures wire_fault { result ≡ status.WireFault → Rose (W.faults wire.old) (W.faults wire.new) }
    ensures clock_fault { result ≡ status.ClockFault → Rose (C.faults clock.old) (C.faults clock.new) }
    ensures keeper_fault { result ≡ status.KeeperFault → Rose (E.faults keeper.old) (E.faults keeper.new) }
    ensures shelf_fault { result ≡ status.ShelfFault → Rose (B.faults shelf.old) (B.faults shelf.new) }
    ensures shelf_counted { CountsEnd (B.faults shelf.old) (B.faults shelf.new) result }
{
    match keep_all(
        alloc, name, address, file, count, wire, clock, keeper, shelf,
    ) {
        Ok(tally) => match write_summary(alloc, &tally, sink) {
            Ok(()) => Status::Done,
            Err(OutsideError::Failed) => Status::WriteFault,
            Err(OutsideError::OutOfMemory) => Status::OutOfMemory,
        },
        Err(end) => end,
    }
}

/// Opens and serves all connections, and gives what was counted.
fn keep_all<W: Wire, C: Clock, E: Keeper, B: Shelf>(
    alloc: Global,
    name: Name,
    address: &Name,
    file: &Name,
    count: u64,
    wire: &mut W,
    clock: &mut C,
    keeper: &mut E,
    shelf: &mut B,
) -> Result<Tally, Status>
    ensures ok { IfOk result (λ tally. Completes (keep_procedure name address.now file.now (B.tells shelf.old) (B.tells shelf.new)) count (summary_text tally)
        (outside W.Wire C.Clock E.Keeper wire.old clock.old keeper.old)
        (outside W.Wire C.Clock E.Keeper wire.new clock.new keeper.new)) }
    ensures err { IfErr result (λ end. EndsBefore (keep_procedure name address.now file.now (B.tells shelf.old) (B.tells shelf.new)) count end
        (outside W.Wire C.Clock E.Keeper wire.old clock.old keeper.old)
        (outside W.Wire C.Clock E.Keeper wire.new clock.new keeper.new)) }
    ensures counted { CountsOpening (B.faults shelf.old) (B.faults shelf.new) result }
{
    let mut kept = open(alloc, name, address, file, wire, clock, keeper, shelf)?;
    let mut tally = Tally::new();
    run_turns::<PostAlone, W, C, B, Kept>(
        alloc,
        count,
        &(),
        wire,
        clock,
        &mut kept,
        shelf,
        &mut tally,
    )?;
    Ok(tally)
}
