//! The command `consume`.

ghost use Rattle.std.specs.Prelude.{◌≡◌, ◌≤◌, length, IfErr, IfOk, OnErr, OnOk, Some, []};
ghost use Rattle.std.specs.Io.KnownBytes.{Appends};
ghost use Rattle.siri_outside.specs.Causes.{HasOutsideCause, Rose};
ghost use Rattle.siri_outside.specs.MetFailures.{SinkMeets, SourceMeets, has_failed, is_read_fault, is_write_fault};
ghost use Rattle.siri_lines.specs.Ends.{AppendsFront, ReadsAll};
ghost use Rattle.siri_lines.specs.Pieces.{ReadsNoFurther};
ghost use Rattle.siri_lines.specs.RunResult.{verdict};
ghost use Rattle.siri_runs.specs.Calls.{outside};
ghost use Rattle.siri_runs.specs.consumers.Wanting.{event, nothing_wanted, most_wanted};
ghost use Rattle.siri_runs.specs.Enough.{EndsWhole, HasEnough};
ghost use Rattle.siri_runs.specs.consumers.Reading.{TellsWanted, has_failed_to_read};
ghost use Rattle.siri_runs.specs.Run.{Completes, EndsBefore};
ghost use Rattle.siri_runs.specs.consumers.Runs.{ConsumeRun, EndsConsuming, consume_procedure, end_text};

mod asking;
mod opening;
mod reading;
mod views;
mod wanted_lines;

use crate::summary::write_summary;
use crate::turns::run_turns;
use asking::ask_all;
pub use opening::own_address;
use opening::{OpenedConsumer, open};
pub use reading::read_wanted;
use siri_base::{Name, OutOfMemory, Status};
use siri_ends::Tally;
use siri_http::{Address, PostAlone};
use siri_outside::{Clock, Keeper, OutsideError, Sink, Source, Wire};
use siri_view::Consumer;
use std::alloc::Global;
pub use views::write_views;

/// What a run comes to: the consumer, and what was counted.
#[derive(Drop)]
struct Consumed {
    consumer: Consumer,
    tally: Tally,
}

/// A consumer of this name for so many connections at `HOST:PORT`, of at most 247 bytes: it raises the number of its
/// start, reads its lines, each a wanted subscription, reads the clock, listens, and asks the producer for all that is
/// wanted; then it answers each connection at the clock's moment. In the end it writes its views and `served N refused
/// R dropped D unsent U`.
///
/// `Script` and `Limit` exactly at the first line that isn't taken. `ReadFault`, `KeeperFault`, `WireFault` and
/// `ClockFault` only where the source, the keeper, the wire or the clock failed, the wire to listen or to accept;
/// nothing is written then, nor where a line isn't taken. `WriteFault` only where the sink failed, `OutOfMemory`
/// wherever memory is asked for, otherwise `Done`.
pub fn consume<S: Source, K: Sink, W: Wire, C: Clock, E: Keeper>(
    alloc: Global,
    name: Name,
    address: &Name,
    producer: &Address,
    count: u64,
    source: &mut S,
    sink: &mut K,
    wire: &mut W,
    clock: &mut C,
    keeper: &mut E,
) -> Status
    requires { length address.now ≤ 247 }
    ensures run { ConsumeRun name address.now (producer.now.host, producer.now.path) count (S.left source.old) (S.left source.new)
        (outside W.Wire C.Clock E.Keeper wire.old clock.old keeper.old)
        (outside W.Wire C.Clock E.Keeper wire.new clock.new keeper.new)
        (K.held sink.old) (K.held sink.new) result }
    ensures pieces { ReadsNoFurther (verdict most_wanted event) (nothing_wanted name) (S.left source.old) (S.left source.new) }
    ensures all { ReadsAll (S.left source.new) result }
    ensures unwritten { EndsConsuming result → sink.new ≡ sink.old }
    ensures source_meets { SourceMeets (is_read_fault result) (S.left source.old) (S.left source.new) (S.fails source.old) (S.fails source.new) }
    ensures sink_meets { SinkMeets (is_write_fault result) (K.held sink.old) (K.held sink.new) (K.fails sink.old) (K.fails sink.new) }
    // Where there is enough for so many connections, all lines are good, and no failure is named for the source or the
    // sink.
    ensures complete { HasEnough count (outside W.Wire C.Clock E.Keeper wire.old clock.old keeper.old)
        → TellsWanted name (S.left source.old)
        → S.fails source.old ≡ Some [] → K.fails sink.old ≡ Some [] → EndsWhole result }
    // When each fault comes.
    ensures read_fault { result ≡ Status.ReadFault → Rose (S.faults source.old) (S.faults source.new) }
    ensures write_fault { result ≡ Status.WriteFault → Rose (K.faults sink.old) (K.faults sink.new) }
    ensures wire_fault { result ≡ Status.WireFault → Rose (W.faults wire.old) (W.faults wire.new) }
    ensures clock_fault { result ≡ Status.ClockFault → Rose (C.faults clock.old) (C.faults clock.new) }
    ensures keeper_fault { result ≡ Status.KeeperFault → Rose (E.faults keeper.old) (E.faults keeper.new) }
{
    match consume_all(
        alloc, name, address, producer, count, source, wire, clock, keeper,
    ) {
        Ok(consumed) => match write_end(alloc, &consumed, sink) {
            Ok(()) => Status::Done,
            Err(OutsideError::Failed) => Status::WriteFault,
            Err(OutsideError::OutOfMemory) => Status::OutOfMemory,
        },
        Err(end) => end,
    }
}

/// Writes the views and the summary.
#[tactic(auto, using(siri_lines::proofs::Meeting::sink_more))]
fn write_end<K: Sink>(alloc: Global, consumed: &Consumed, sink: &mut K) -> Result<(), OutsideError>
    ensures ok { OnOk result (Appends (K.held sink.old) (K.held sink.new) (end_text (record { consumer = consumed.now.consumer; tally = consumed.now.tally }))) }
    ensures err { OnErr result (AppendsFront (K.held sink.old) (K.held sink.new) (end_text (record { consumer = consumed.now.consumer; tally = consumed.now.tally }))) }
    ensures cause { HasOutsideCause (K.faults sink.old) (K.faults sink.new) result }
    ensures meets { SinkMeets (has_failed result) (K.held sink.old) (K.held sink.new) (K.fails sink.old) (K.fails sink.new) }
{
    write_views(alloc, &consumed.consumer, sink)?;
    write_summary(alloc, &consumed.tally, sink)
}

/// Opens, asks, and answers all connections.
fn consume_all<S: Source, W: Wire, C: Clock, E: Keeper>(
    alloc: Global,
    name: Name,
    address: &Name,
    producer: &Address,
    count: u64,
    source: &mut S,
    wire: &mut W,
    clock: &mut C,
    keeper: &mut E,
) -> Result<Consumed, Status>
    requires { length address.now ≤ 247 }
    ensures ok { IfOk result (λ consumed. Completes (consume_procedure name address.now (producer.now.host, producer.now.path) (S.left source.old) (S.left source.new)) count
        (end_text (record { consumer = consumed.consumer; tally = consumed.tally }))
        (outside W.Wire C.Clock E.Keeper wire.old clock.old keeper.old)
        (outside W.Wire C.Clock E.Keeper wire.new clock.new keeper.new)) }
    ensures err { IfErr result (λ end. EndsBefore (consume_procedure name address.now (producer.now.host, producer.now.path) (S.left source.old) (S.left source.new)) count end
        (outside W.Wire C.Clock E.Keeper wire.old clock.old keeper.old)
        (outside W.Wire C.Clock E.Keeper wire.new clock.new keeper.new)) }
    ensures all { OnOk result (ReadsAll (S.left source.new) Status.Done) }
    ensures read { IfErr result (λ end. end ≡ Status.ReadFault → Rose (S.faults source.old) (S.faults source.new)) }
    ensures meets { SourceMeets (has_failed_to_read result) (S.left source.old) (S.left source.new) (S.fails source.old) (S.fails source.new) }
    ensures pieces { ReadsNoFurther (verdict most_wanted event) (nothing_wanted name) (S.left source.old) (S.left source.new) }
{
    let OpenedConsumer {
        mut consumer,
        wanted,
    } = open(alloc, name, address, source, wire, clock, keeper)?;
    let mut tally = Tally::new();
    match ask_all(alloc, producer, wire, &mut consumer, wanted, &mut tally) {
        Ok(()) => {}
        Err(OutOfMemory) => return Err(Status::OutOfMemory),
    }
    run_turns::<PostAlone, W, C, (), Consumer>(
        alloc,
        count,
        producer,
        wire,
        clock,
        &mut consumer,
        &mut (),
        &mut tally,
    )?;
    Ok(Consumed { consumer, tally })
}
