//! The commands `serve` and `lite`.

ghost use Rattle.std.specs.Prelude.{◌≡◌, IfErr, IfOk, Some, []};
ghost use Rattle.siri_outside.specs.Causes.{Rose};
ghost use Rattle.siri_outside.specs.MetFailures.{SinkMeets, is_write_fault};
ghost use Rattle.siri_runs.specs.Calls.{outside};
ghost use Rattle.siri_runs.specs.Enough.{EndsWhole, HasEnough};
ghost use Rattle.siri_runs.specs.Run.{Completes, EndsBefore};
ghost use Rattle.siri_runs.specs.Summaries.{summary_text};
ghost use Rattle.siri_runs.specs.producers.Runs.{EndsServing, ServeRun, serve_procedure};

mod opening;

use crate::summary::write_summary;
use crate::turns::run_turns;
use opening::open;
use siri_base::{Name, Status};
use siri_http::{Asking, Tally};
use siri_outside::{Clock, Keeper, OutsideError, Sink, Wire};
use siri_producer::Producer;
use std::alloc::Global;

/// A producer of this name for so many connections at `HOST:PORT`: it raises the number of its start, listens, reads
/// the clock for its first moment, and serves each connection at the clock's moment, whose request asks what [`Asking`]
/// says: in `serve` a POST alone asks something, in `lite` a query by GET, too. Then it writes `served N refused R dropped
/// D unsent U`.
///
/// `KeeperFault`, `WireFault` and `ClockFault` only where the keeper, the wire or the clock failed, the wire to listen
/// or to accept; nothing is written then. `WriteFault` only where the sink failed, `OutOfMemory` wherever memory is
/// asked for, otherwise `Done`.
pub fn serve<A: Asking, K: Sink, W: Wire, C: Clock, E: Keeper>(
    alloc: Global,
    name: Name,
    address: &Name,
    count: u64,
    sink: &mut K,
    wire: &mut W,
    clock: &mut C,
    keeper: &mut E,
) -> Status
    ensures run { ServeRun A.asks name address.now count
        (outside W.Wire C.Clock E.Keeper wire.old clock.old keeper.old)
        (outside W.Wire C.Clock E.Keeper wire.new clock.new keeper.new)
        (K.held sink.old) (K.held sink.new) result }
    ensures unwritten { EndsServing result → sink.new ≡ sink.old }
    ensures meets { SinkMeets (is_write_fault result) (K.held sink.old) (K.held sink.new) (K.fails sink.old) (K.fails sink.new) }
    // Where there is enough for so many connections, and no failure is named for the sink.
    ensures complete { HasEnough count (outside W.Wire C.Clock E.Keeper wire.old clock.old keeper.old)
        → K.fails sink.old ≡ Some [] → EndsWhole result }
    // When each fault comes.
    ensures write_fault { result ≡ Status.WriteFault → Rose (K.faults sink.old) (K.faults sink.new) }
    ensures wire_fault { result ≡ Status.WireFault → Rose (W.faults wire.old) (W.faults wire.new) }
    ensures clock_fault { result ≡ Status.ClockFault → Rose (C.faults clock.old) (C.faults clock.new) }
    ensures keeper_fault { result ≡ Status.KeeperFault → Rose (E.faults keeper.old) (E.faults keeper.new) }
{
    match serve_all::<A, W, C, E>(alloc, name, address, count, wire, clock, keeper) {
        Ok(tally) => match write_summary(alloc, &tally, sink) {
            Ok(()) => Status::Done,
            Err(OutsideError::Failed) => Status::WriteFault,
            Err(OutsideError::OutOfMemory) => Status::OutOfMemory,
        },
        Err(end) => end,
    }
}

/// Opens and serves all connections, and gives what was counted.
fn serve_all<A: Asking, W: Wire, C: Clock, E: Keeper>(
    alloc: Global,
    name: Name,
    address: &Name,
    count: u64,
    wire: &mut W,
    clock: &mut C,
    keeper: &mut E,
) -> Result<Tally, Status>
    ensures ok { IfOk result (λ tally. Completes (serve_procedure A.asks name address.now) count (summary_text tally)
        (outside W.Wire C.Clock E.Keeper wire.old clock.old keeper.old)
        (outside W.Wire C.Clock E.Keeper wire.new clock.new keeper.new)) }
    ensures err { IfErr result (λ end. EndsBefore (serve_procedure A.asks name address.now) count end
        (outside W.Wire C.Clock E.Keeper wire.old clock.old keeper.old)
        (outside W.Wire C.Clock E.Keeper wire.new clock.new keeper.new)) }
{
    let mut producer = open(alloc, name, address, wire, clock, keeper)?;
    let mut tally = Tally::new();
    run_turns::<A, W, C, (), Producer>(
        alloc,
        count,
        &(),
        wire,
        clock,
        &mut producer,
        &mut (),
        &mut tally,
    )?;
    Ok(tally)
}
