//! How a run opens.

ghost use Rattle.std.specs.Prelude.{◌≡◌, ◌≤◌, ◌*◌, length, IfErr, IfOk, OnOk};
ghost use Rattle.siri_outside.specs.Causes.{Rose};
ghost use Rattle.siri_outside.specs.MetFailures.{SourceMeets};
ghost use Rattle.siri_runs.specs.consumers.Reading.{has_failed_to_read};
ghost use Rattle.siri_lines.specs.Pieces.{ReadsNoFurther};
ghost use Rattle.siri_lines.specs.RunResult.{verdict};
ghost use Rattle.siri_runs.specs.consumers.Wanting.{event, nothing_wanted, most_wanted};
ghost use Rattle.siri_lines.specs.Ends.{ReadsAll};
ghost use Rattle.siri_runs.specs.Calls.{outside};
ghost use Rattle.siri_runs.specs.consumers.Opening.{FailsToOpen, opened, own_address};
ghost use Rattle.siri_runs.specs.consumers.inner.Steps.{MayAsk, OpensConsumer};

use crate::calls::{listen, now, raise};
use crate::consuming::reading::read_wanted;
use siri_base::{List, Moment, Name, OutOfMemory, Status};
use siri_outside::{Clock, Keeper, Source, Wire};
use siri_view::Consumer;
use siri_wire::Wanted;
use std::alloc::Global;

/// How many numbers a consumer may use in one run: the next run's begin after them.
const NUMBERS_OF_A_START: u64 = 1_000_000;

/// The most lines that there may be.
const MOST_WANTED: u64 = 200;

/// A consumer, and what it is to ask for.
#[derive(Drop)]
pub(crate) struct OpenedConsumer {
    pub consumer: Consumer,
    pub wanted: List<Wanted>,
}

/// Raises the number of the start, reads what is wanted, reads the clock, listens, and makes a consumer of this name.
#[tactic(auto, using(siri_lines::proofs::Meeting::source_none, siri_lines::proofs::Whole::ends_at_once, crate::proofs::Statuses::no_read_fault))]
pub(crate) fn open<S: Source, W: Wire, C: Clock, E: Keeper>(
    alloc: Global,
    name: Name,
    address: &Name,
    source: &mut S,
    wire: &mut W,
    clock: &mut C,
    keeper: &mut E,
) -> Result<OpenedConsumer, Status>
    requires { length address.now ≤ 247 }
    ensures ok { IfOk result (λ opened. OpensConsumer name address.now (S.left source.old) opened.wanted opened.consumer
        (outside W.Wire C.Clock E.Keeper wire.old clock.old keeper.old)
        (outside W.Wire C.Clock E.Keeper wire.new clock.new keeper.new)) }
    ensures err { IfErr result (λ end. FailsToOpen name address.now (S.left source.old) (S.left source.new) end
        (outside W.Wire C.Clock E.Keeper wire.old clock.old keeper.old)
        (outside W.Wire C.Clock E.Keeper wire.new clock.new keeper.new)) }
    ensures may_ask { IfOk result (λ opened. MayAsk opened.consumer opened.wanted) }
    ensures all { OnOk result (ReadsAll (S.left source.new) Status.Done) }
    ensures read { IfErr result (λ end. end ≡ Status.ReadFault → Rose (S.faults source.old) (S.faults source.new)) }
    ensures meets { SourceMeets (has_failed_to_read result) (S.left source.old) (S.left source.new) (S.fails source.old) (S.fails source.new) }
    ensures pieces { ReadsNoFurther (verdict most_wanted event) (nothing_wanted name) (S.left source.old) (S.left source.new) }
{
    let start = raise(keeper)?;
    let wanted = read_wanted(alloc, MOST_WANTED, source, &name)?;
    let moment = now(clock)?;
    listen(wire, address)?;
    match consumer_of(alloc, name, address, start, moment) {
        Ok(consumer) => Ok(OpenedConsumer { consumer, wanted }),
        Err(_) => Err(Status::OutOfMemory),
    }
}

/// A consumer of this name at this moment, whose deliveries are sent to `http://HOST:PORT/`.
fn consumer_of(
    alloc: Global,
    name: Name,
    address: &Name,
    start: u64,
    moment: Moment,
) -> Result<Consumer, OutOfMemory>
    requires short { length address.now ≤ 247 }
    requires from_one { 1 ≤ start }
    requires small { start ≤ 99999999999 }
    ensures { IfOk result (λ consumer. consumer ≡ opened name address.now start moment) }
{
    let own = own_address(alloc, address)?;
    let mut consumer = Consumer::new(alloc, name, Some(own), NUMBERS_OF_A_START * start)?;
    consumer.clock(moment);
    Ok(consumer)
}

/// Where an end that listens at `HOST:PORT` is reached: `http://HOST:PORT/`.
pub fn own_address(alloc: Global, address: &Name) -> Result<Name, OutOfMemory>
    requires { length address.now ≤ 247 }
    ensures { IfOk result (λ own. own ≡ own_address address.now) }
{
    let text = format!(in alloc; "http://{}/", address.text())?;
    match Name::new(alloc, &text) {
        Ok(own) => Ok(own),
        Err(_) => Err(OutOfMemory),
    }
}
