//! What a run sends at first.

ghost use Rattle.std.specs.Prelude.{◌≡◌, ◌⊎◌, IfOk, OnErr, OnOk};
ghost use Rattle.siri_ends.specs.At.{at_of};
ghost use Rattle.siri_ends.specs.Consuming.{FirstSendsUp, SendsUp};
ghost use Rattle.siri_runs.specs.Calls.{told_by};
ghost use Rattle.siri_runs.specs.consumers.inner.Steps.{MayAsk};
ghost use Rattle.siri_runs.specs.consumers.Consumption.{after_asking, requests, subscriptions};

use siri_base::{Copies, List, OutOfMemory};
use siri_ends::{Tally, send_up};
use siri_http::Address;
use siri_messages::Message;
use siri_outside::Wire;
use siri_topic::Subscription;
use siri_view::{AskError, Consumer};
use siri_wire::Wanted;
use std::alloc::Global;

/// Asks for all that is wanted, where anything is: one request for all, with the interval of heartbeats of the first.
#[tactic(auto, using(crate::proofs::consumers::Asked::none_too_many))]
fn ask(
    alloc: Global,
    consumer: &mut Consumer,
    wanted: &[Wanted],
) -> Result<List<Message>, OutOfMemory>
    requires { MayAsk consumer.old wanted.now }
    ensures messages { IfOk result (λ messages. messages ≡ requests consumer.old wanted.now) }
    ensures consumer { OnOk result (consumer.new ≡ after_asking consumer.old wanted.now) }
{
    let mut messages = List::new(alloc);
    if let Some(first) = wanted.first() {
        let list = subscriptions(alloc, wanted)?;
        match consumer.subscribe(&list, first.beat) {
            Ok(message) => messages.push(message)?,
            Err(AskError::OutOfMemory) => return Err(OutOfMemory),
            // (Of at most 200 lines no more is asked for than a consumer may hold, and its numbers aren't used up.)
            Err(AskError::Spent | AskError::TooMany | AskError::NotHeld) => unreachable!(),
        }
    }
    Ok(messages)
}

/// Sends what is asked for, and what is replied to the response.
pub(crate) fn ask_all<W: Wire>(
    alloc: Global,
    producer: &Address,
    wire: &mut W,
    consumer: &mut Consumer,
    wanted: List<Wanted>,
    tally: &mut Tally,
) -> Result<(), OutOfMemory>
    requires { MayAsk consumer.old wanted }
    ensures ok { OnOk result (SendsUp producer.now.host producer.now.path (requests consumer.old wanted)
        (at_of (after_asking consumer.old wanted) tally.old (W.tells wire.old) (W.faults wire.old))
        (at_of consumer.new tally.new (W.tells wire.new) (W.faults wire.new))) }
    ensures err { OnErr result ((told_by (W.tells wire.new) (W.faults wire.new) ≡ told_by (W.tells wire.old) (W.faults wire.old))
        ⊎ FirstSendsUp producer.now.host producer.now.path (requests consumer.old wanted) (after_asking consumer.old wanted) (W.tells wire.old) (W.tells wire.new)) }
{
    let messages = ask(alloc, consumer, wanted.slice());
    drop(wanted);
    send_up(alloc, wire, messages?, producer, consumer, tally)
}

/// The subscriptions that are wanted.
fn subscriptions(alloc: Global, wanted: &[Wanted]) -> Result<List<Subscription>, OutOfMemory>
    ensures { IfOk result (λ list. list ≡ subscriptions wanted.now) }
{
    let mut list = List::new(alloc);
    for one in wanted {
        list.push(one.subscription.copy()?)?;
    }
    Ok(list)
}
