//! How a run opens.

ghost use Rattle.std.specs.Prelude.{◌≡◌, ◌≤◌, ◌*◌, length, IfErr, IfOk, OnOk};
ghost use Rattle.siri_outside.specs.Causes.{Rose};
ghost use Rattle.siri_outside.specs.MetFailures.{SourceMeets};
ghost use Rattle.siri_lines.specs.Ends.{ReadsAll};
ghost use Rattle.siri_lines.specs.Pieces.{ReadsNoFurther};
ghost use Rattle.siri_lines.specs.RunResult.{verdict};
ghost use Rattle.siri_runs.specs.Calls.{outside};
ghost use Rattle.siri_runs.specs.consumers.Reading.{has_failed_to_read};
ghost use Rattle.siri_runs.specs.consumers.Wanting.{event, nothing_wanted};
ghost use Rattle.siri_relay_run.specs.Made.{Begins, EndsAtLines, OpensRelay};
ghost use Rattle.siri_relay_run.specs.Opening.{FailsToOpen, WantsOne};

use crate::taking::RelayTaker;
use siri_base::{Moment, Name, OutOfMemory, ScriptReason, Status};
use siri_messages::Message;
use siri_outside::{Clock, Keeper, Source, Wire};
use siri_relay::{OpenError, Relay};
use siri_runs::{listen, now, own_address, raise, read_wanted};
use siri_view::AskError;
use siri_wire::Wanted;
use std::alloc::Global;

/// How many numbers a relay may use in one run: the next run's begin after them.
const NUMBERS_OF_A_START: u64 = 1_000_000;

/// A relay that has asked, and its request.
#[derive(Drop)]
pub(crate) struct OpenedRelay {
    pub taker: RelayTaker,
    pub request: Message,
}

/// Reads the source's one line, and gives the subscription that it wants.
#[tactic(auto, using(crate::proofs::Lines::one_is, crate::proofs::Lines::none_is))]
fn read_one<S: Source>(alloc: Global, source: &mut S, subscriber: &Name) -> Result<Wanted, Status>
    ensures wanted { IfOk result (λ wanted. WantsOne subscriber.now (S.left source.old) wanted) }
    ensures all { OnOk result (ReadsAll (S.left source.new) Status.Done) }
    ensures ends { IfErr result (λ end. EndsAtLines subscriber.now (S.left source.old) (S.left source.new) end) }
    ensures pieces { ReadsNoFurther (verdict 1 event) (nothing_wanted subscriber.now) (S.left source.old) (S.left source.new) }
    ensures read { IfErr result (λ end. end ≡ Status.ReadFault → Rose (S.faults source.old) (S.faults source.new)) }
    ensures meets { SourceMeets (has_failed_to_read result) (S.left source.old) (S.left source.new) (S.fails source.old) (S.fails source.new) }
{
    let wanted = read_wanted(alloc, 1, source, subscriber)?;
    let mut wanted = wanted.into_vec();
    match wanted.pop() {
        Some(one) => Ok(one),
        None => Err(Status::Script {
            line: 1,
            reason: ScriptReason::BadArgument,
        }),
    }
}

/// A relay of this name at this moment, whose deliveries are sent to `http://HOST:PORT/`, which has asked for what is wanted.
fn relay_of(
    alloc: Global,
    name: Name,
    address: &Name,
    start: u64,
    moment: Moment,
    wanted: &Wanted,
) -> Result<OpenedRelay, OutOfMemory>
    requires short { length address.now ≤ 247 }
    requires from_one { 1 ≤ start }
    requires small { start ≤ 99999999999 }
    ensures { IfOk result (λ opened. Begins name address.now start moment wanted.now opened.taker.relay opened.request) }
{
    let own = own_address(alloc, address)?;
    let first = NUMBERS_OF_A_START * start;
    let mut relay = Relay::new(alloc, name, Some(own), start, first, moment)?;
    match relay.open(&wanted.subscription, wanted.beat) {
        Ok(request) => Ok(OpenedRelay {
            taker: RelayTaker { relay },
            request,
        }),
        Err(OpenError::Ask(AskError::OutOfMemory)) => Err(OutOfMemory),
        // (A new relay hasn't asked before, and its numbers aren't used up.)
        Err(OpenError::Already | OpenError::Ask(_)) => unreachable!(),
    }
}

/// Raises the number of the start, reads what is wanted, listens, reads the clock, and makes a relay of this name that has
/// asked for it.
#[tactic(auto, using(siri_lines::proofs::Meeting::source_none, siri_lines::proofs::Whole::ends_at_once, siri_runs::proofs::Statuses::no_read_fault))]
pub(crate) fn open<S: Source, W: Wire, C: Clock, E: Keeper>(
    alloc: Global,
    name: Name,
    address: &Name,
    source: &mut S,
    wire: &mut W,
    clock: &mut C,
    keeper: &mut E,
) -> Result<OpenedRelay, Status>
    requires { length address.now ≤ 247 }
    ensures ok { IfOk result (λ opened. OpensRelay name address.now (S.left source.old) opened.taker.relay opened.request
        (outside W.Wire C.Clock E.Keeper wire.old clock.old keeper.old)
        (outside W.Wire C.Clock E.Keeper wire.new clock.new keeper.new)) }
    ensures err { IfErr result (λ end. FailsToOpen name address.now (S.left source.old) (S.left source.new) end
        (outside W.Wire C.Clock E.Keeper wire.old clock.old keeper.old)
        (outside W.Wire C.Clock E.Keeper wire.new clock.new keeper.new)) }
    ensures all { OnOk result (ReadsAll (S.left source.new) Status.Done) }
    ensures read { IfErr result (λ end. end ≡ Status.ReadFault → Rose (S.faults source.old) (S.faults source.new)) }
    ensures meets { SourceMeets (has_failed_to_read result) (S.left source.old) (S.left source.new) (S.fails source.old) (S.fails source.new) }
    ensures pieces { ReadsNoFurther (verdict 1 event) (nothing_wanted name) (S.left source.old) (S.left source.new) }
{
    let start = raise(keeper)?;
    let wanted = read_one(alloc, source, &name)?;
    listen(wire, address)?;
    let moment = now(clock)?;
    match relay_of(alloc, name, address, start, moment, &wanted) {
        Ok(opened) => Ok(opened),
        Err(_) => Err(Status::OutOfMemory),
    }
}
