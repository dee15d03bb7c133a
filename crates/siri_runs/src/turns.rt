//! The turns of a run, of whichever end.

ghost use Rattle.std.specs.Prelude.{◌+◌, ◌-◌, ◌^◌, ◌<◌, IfErr, OnOk};
ghost use Rattle.siri_outside.specs.OutsideCalls.{KeeperState};
ghost use Rattle.siri_runs.specs.Calls.{CountsShelf, Told, outside_with};
ghost use Rattle.siri_runs.specs.Ends.{RunsTurn, StopsTurns, in_run};
ghost use Rattle.siri_runs.specs.Turns.{Turns, TurnsFail, running};

use crate::NetworkError;
use crate::calls::{accept, now};
use siri_ends::{Taker, take_turn};
use siri_http::{Asking, Tally};
use siri_outside::{Clock, Wire};
use std::alloc::Global;

/// Accepts a connection, gives the end a moment, and lets it take the turn of the connection, after so many
/// turns.
fn turn<A: Asking, W: Wire, C: Clock, B, T: Taker<B>>(
    alloc: Global,
    made: u64,
    target: &T::Target,
    wire: &mut W,
    clock: &mut C,
    taker: &mut T,
    beside: &mut B,
    tally: &mut Tally,
) -> Result<(), NetworkError>
    requires ready { T.is_ready beside.old }
    requires more { made < 2 ^ 64 - 1 }
    ensures ready { T.is_ready beside.new }
    ensures ok { OnOk result ((keeper : Told KeeperState) → RunsTurn T.Taker A.asks target.now
        (running (in_run taker.old beside.old tally.old made) (outside_with W.Wire C.Clock wire.old clock.old keeper))
        (running (in_run taker.new beside.new tally.new (made + 1)) (outside_with W.Wire C.Clock wire.new clock.new keeper))) }
    ensures err { IfErr result (λ error. (keeper : Told KeeperState) → StopsTurns T.Taker A.asks target.now beside.new error
        (running (in_run taker.old beside.old tally.old made) (outside_with W.Wire C.Clock wire.old clock.old keeper))
        (outside_with W.Wire C.Clock wire.new clock.new keeper)) }
    ensures counted { CountsShelf (T.faults beside.old) (T.faults beside.new) result }
{
    accept(wire)?;
    let moment = now(clock)?;
    taker.clock(beside, moment)?;
    take_turn::<W, A, B, T>(alloc, wire, target, taker, beside, tally)?;
    taker.end_turn(beside, made + 1)?;
    Ok(())
}

/// So many turns of an end, one after the other: in each a connection is accepted, the end is given the clock's moment,
/// and it takes the turn of the connection, whose request asks what [`Asking`] says. The first call that fails ends
/// them: `WireFault` and `ClockFault` only where the wire failed to accept or the clock failed, otherwise what a call of
/// the end answers, `ShelfFault` exactly where the shelf beside it failed: its count rose by one, and else not. What
/// stands beside the end then is as the turn before left it, or as the end leaves it of a turn that it began.
pub fn run_turns<A: Asking, W: Wire, C: Clock, B, T: Taker<B>>(
    alloc: Global,
    count: u64,
    target: &T::Target,
    wire: &mut W,
    clock: &mut C,
    taker: &mut T,
    beside: &mut B,
    tally: &mut Tally,
) -> Result<(), NetworkError>
    requires { T.is_ready beside.old }
    ensures ready { T.is_ready beside.new }
    ensures ok { OnOk result ((keeper : Told KeeperState) → Turns (RunsTurn T.Taker A.asks target.now) count
        (running (in_run taker.old beside.old tally.old 0) (outside_with W.Wire C.Clock wire.old clock.old keeper))
        (running (in_run taker.new beside.new tally.new count) (outside_with W.Wire C.Clock wire.new clock.new keeper))) }
    ensures err { IfErr result (λ error. (keeper : Told KeeperState) → TurnsFail (RunsTurn T.Taker A.asks target.now)
        (StopsTurns T.Taker A.asks target.now beside.new) count error
        (running (in_run taker.old beside.old tally.old 0) (outside_with W.Wire C.Clock wire.old clock.old keeper))
        (outside_with W.Wire C.Clock wire.new clock.new keeper)) }
    ensures counted { CountsShelf (T.faults beside.old) (T.faults beside.new) result }
{
    for made in 0..count {
        turn::<A, W, C, B, T>(alloc, made, target, wire, clock, taker, beside, tally)?;
    }
    Ok(())
}
