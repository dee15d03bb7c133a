//! The command `relay`.

ghost use Rattle.std.specs.Prelude.{◌≡◌, ◌≤◌, ◌++◌, length, IfErr, IfOk, OnErr, OnOk, Some, []};
ghost use Rattle.std.specs.Io.KnownBytes.{Appends};
ghost use Rattle.siri_outside.specs.Causes.{HasOutsideCause, Rose};
ghost use Rattle.siri_outside.specs.MetFailures.{SinkMeets, SourceMeets, has_failed, is_read_fault, is_write_fault};
ghost use Rattle.siri_ends.specs.At.{at_of};
ghost use Rattle.siri_lines.specs.Ends.{AppendsFront, ReadsAll};
ghost use Rattle.siri_lines.specs.Pieces.{ReadsNoFurther};
ghost use Rattle.siri_lines.specs.RunResult.{verdict};
ghost use Rattle.siri_runs.specs.Calls.{outside};
ghost use Rattle.siri_runs.specs.Enough.{EndsWhole, HasEnough};
ghost use Rattle.siri_runs.specs.Run.{Completes, EndsBefore};
ghost use Rattle.siri_runs.specs.Summaries.{summary_text};
ghost use Rattle.siri_runs.specs.consumers.Reading.{has_failed_to_read};
ghost use Rattle.siri_runs.specs.consumers.Views.{views_text};
ghost use Rattle.siri_runs.specs.consumers.Wanting.{event, nothing_wanted};
ghost use Rattle.siri_relay_run.specs.Made.{SendsFirst, SendsFirstSome};
ghost use Rattle.siri_relay_run.specs.Runs.{EndsRelaying, RelayRun, TellsOne, relay_procedure};

use crate::going::Going;
use crate::opening::{OpenedRelay, open};
use crate::taking::RelayTaker;
use siri_base::{List, Name, OutOfMemory, Status};
use siri_ends::{Tally, send_all};
use siri_http::{Address, PostAlone};
use siri_messages::Message;
use siri_outside::{Clock, Keeper, OutsideError, Sink, Source, Wire};
use siri_runs::{run_turns, write_summary, write_views};
use std::alloc::Global;

/// What a run comes to: the relay, and what was counted.
#[derive(Drop)]
struct Passed {
    taker: RelayTaker,
    tally: Tally,
}

/// A relay of this name for so many connections at `HOST:PORT`, of at most 247 bytes: it raises the number of its start, reads its
/// one line, a wanted subscription, listens, reads the clock, and asks its source at the upstream address for what is wanted;
/// then it answers each connection at the clock's moment, from its source and from its subscribers. In the end it writes its
/// view and `served N refused R dropped D unsent U`.
///
/// `Script` at line 1, with `BadArgument` where no line wants anything; `Limit` at line 2, or where line 1 is too long.
/// `ReadFault`, `KeeperFault`, `WireFault` and `ClockFault` only where the source, the keeper, the wire or the clock failed,
/// the wire to listen or to accept; nothing is written then, nor where a line isn't taken. `WriteFault` only where the sink
/// failed, `OutOfMemory` wherever memory is asked for, otherwise `Done`.
pub fn relay<S: Source, K: Sink, W: Wire, C: Clock, E: Keeper>(
    alloc: Global,
    name: Name,
    address: &Name,
    upstream: &Address,
    count: u64,
    source: &mut S,
    sink: &mut K,
    wire: &mut W,
    clock: &mut C,
    keeper: &mut E,
) -> Status
    requires { length address.now ≤ 247 }
    ensures run { RelayRun name address.now (upstream.now.host, upstream.now.path) count (S.left source.old) (S.left source.new)
        (outside W.Wire C.Clock E.Keeper wire.old clock.old keeper.old)
        (outside W.Wire C.Clock E.Keeper wire.new clock.new keeper.new)
        (K.held sink.old) (K.held sink.new) result }
    ensures pieces { ReadsNoFurther (verdict 1 event) (nothing_wanted name) (S.left source.old) (S.left source.new) }
    ensures all { ReadsAll (S.left source.new) result }
    ensures unwritten { EndsRelaying result → sink.new ≡ sink.old }
    ensures source_meets { SourceMeets (is_read_fault result) (S.left source.old) (S.left source.new) (S.fails source.old) (S.fails source.new) }
    ensures sink_meets { SinkMeets (is_write_fault result) (K.held sink.old) (K.held sink.new) (K.fails sink.old) (K.fails sink.new) }
    // Where there is enough for so many connections, the source has one good line that wants something, and no failure is
    // named for the source or the sink.
    ensures complete { HasEnough count (outside W.Wire C.Clock E.Keeper wire.old clock.old keeper.old)
        → TellsOne name (S.left source.old)
        → S.fails source.old ≡ Some [] → K.fails sink.old ≡ Some [] → EndsWhole result }
    // When each fault comes.
    ensures read_fault { result ≡ Status.ReadFault → Rose (S.faults source.old) (S.faults source.new) }
    ensures write_fault { result ≡ Status.WriteFault → Rose (K.faults sink.old) (K.faults sink.new) }
    ensures wire_fault { result ≡ Status.WireFault → Rose (W.faults wire.old) (W.faults wire.new) }
    ensures clock_fault { result ≡ Status.ClockFault → Rose (C.faults clock.old) (C.faults clock.new) }
    ensures keeper_fault { result ≡ Status.KeeperFault → Rose (E.faults keeper.old) (E.faults keeper.new) }
{
    match relay_all(
        alloc, name, address, upstream, count, source, wire, clock, keeper,
    ) {
        Ok(passed) => match write_end(alloc, &passed, sink) {
            Ok(()) => Status::Done,
            Err(OutsideError::Failed) => Status::WriteFault,
            Err(OutsideError::OutOfMemory) => Status::OutOfMemory,
        },
        Err(end) => end,
    }
}

/// Writes the view and the summary.
#[tactic(auto, using(siri_lines::proofs::Meeting::sink_more))]
fn write_end<K: Sink>(alloc: Global, passed: &Passed, sink: &mut K) -> Result<(), OutsideError>
    ensures ok { OnOk result (Appends (K.held sink.old) (K.held sink.new) (views_text passed.now.taker.relay.consumer ++ summary_text passed.now.tally)) }
    ensures err { OnErr result (AppendsFront (K.held sink.old) (K.held sink.new) (views_text passed.now.taker.relay.consumer ++ summary_text passed.now.tally)) }
    ensures cause { HasOutsideCause (K.faults sink.old) (K.faults sink.new) result }
    ensures meets { SinkMeets (has_failed result) (K.held sink.old) (K.held sink.new) (K.fails sink.old) (K.fails sink.new) }
{
    write_views(alloc, passed.taker.relay.consumer(), sink)?;
    write_summary(alloc, &passed.tally, sink)
}

/// Sends the request, and what comes of its response.
#[tactic(auto, using(crate::proofs::Takes::sends_first))]
fn ask<W: Wire>(
    alloc: Global,
    upstream: &Address,
    wire: &mut W,
    taker: &mut RelayTaker,
    request: Message,
    tally: &mut Tally,
) -> Result<(), OutOfMemory>
    ensures ok { OnOk result (SendsFirst upstream.now.host upstream.now.path request
        (at_of taker.old.relay tally.old (W.tells wire.old) (W.faults wire.old))
        (at_of taker.new.relay tally.new (W.tells wire.new) (W.faults wire.new))) }
    ensures err { OnErr result (SendsFirstSome upstream.now.host upstream.now.path request taker.old.relay (W.tells wire.old) (W.tells wire.new)) }
{
    let mut list = List::new(alloc);
    list.push(Going::Up(request))?;
    send_all::<W, (), RelayTaker>(alloc, wire, list, upstream, taker, tally)
}

/// Opens, asks, and answers all connections.
fn relay_all<S: Source, W: Wire, C: Clock, E: Keeper>(
    alloc: Global,
    name: Name,
    address: &Name,
    upstream: &Address,
    count: u64,
    source: &mut S,
    wire: &mut W,
    clock: &mut C,
    keeper: &mut E,
) -> Result<Passed, Status>
    requires { length address.now ≤ 247 }
    ensures ok { IfOk result (λ passed. Completes (relay_procedure name address.now (upstream.now.host, upstream.now.path) (S.left source.old) (S.left source.new)) count
        (views_text passed.taker.relay.consumer ++ summary_text passed.tally)
        (outside W.Wire C.Clock E.Keeper wire.old clock.old keeper.old)
        (outside W.Wire C.Clock E.Keeper wire.new clock.new keeper.new)) }
    ensures err { IfErr result (λ end. EndsBefore (relay_procedure name address.now (upstream.now.host, upstream.now.path) (S.left source.old) (S.left source.new)) count end
        (outside W.Wire C.Clock E.Keeper wire.old clock.old keeper.old)
        (outside W.Wire C.Clock E.Keeper wire.new clock.new keeper.new)) }
    ensures all { OnOk result (ReadsAll (S.left source.new) Status.Done) }
    ensures read { IfErr result (λ end. end ≡ Status.ReadFault → Rose (S.faults source.old) (S.faults source.new)) }
    ensures meets { SourceMeets (has_failed_to_read result) (S.left source.old) (S.left source.new) (S.fails source.old) (S.fails source.new) }
    ensures pieces { ReadsNoFurther (verdict 1 event) (nothing_wanted name) (S.left source.old) (S.left source.new) }
{
    let OpenedRelay { mut taker, request } = open(
        alloc, name, address, source, wire, clock, keeper,
    )?;
    let mut tally = Tally::new();
    match ask(alloc, upstream, wire, &mut taker, request, &mut tally) {
        Ok(()) => {}
        Err(OutOfMemory) => return Err(Status::OutOfMemory),
    }
    run_turns::<PostAlone, W, C, (), RelayTaker>(
        alloc,
        count,
        upstream,
        wire,
        clock,
        &mut taker,
        &mut (),
        &mut tally,
    )?;
    Ok(Passed { taker, tally })
}
