//! The ends of a chain's links: a source, relays and a display.

ghost use Rattle.std.specs.Prelude.{◌≤◌};

use crate::making::{identifier, moment, numbered};
use crate::stopped::Stopped;
use siri_base::{Copies, List, Name, Span};
use siri_messages::Message;
use siri_producer::{Answer, Out, Producer};
use siri_relay::{Relay, RelayAnswer};
use siri_topic::Subscription;
use siri_view::{Consumer, Seen};
use std::alloc::Global;
use std::rc::Rc;

/// Which end it is.
#[derive(Clone, Copy, Debug, PartialEq, Eq)]
pub(crate) enum Kind {
    Source,
    Relay,
    Display,
}

/// An end.
pub(crate) enum End {
    Source(Producer),
    Relay(Relay),
    Display(Consumer),
}

impl Drop for End {
    fn drop(self) {
        match self {
            End::Source(_) => {}
            End::Relay(_) => {}
            End::Display(_) => {}
        }
    }
}

/// The name of an end, by its place from the source on.
pub(crate) fn name(alloc: Global, place: usize) -> Result<Name, Stopped> {
    numbered(alloc, "end", place as u64)
}

impl End {
    /// An end that starts, for the first time or anew. What it had is gone, but for the number of its starts, from 1 to
    /// a million.
    pub(crate) fn new(
        alloc: Global,
        kind: Kind,
        name: Name,
        start: u64,
        now: u64,
    ) -> Result<End, Stopped>
        requires from_one { 1 ≤ start }
        requires to_a_million { start ≤ 1000000 }
    {
        let now = moment(now);
        let first = 1_000_000 * start;
        match kind {
            Kind::Source => Ok(End::Source(Producer::new(alloc, name, start, now)?)),
            Kind::Relay => Ok(End::Relay(Relay::new(alloc, name, None, start, first, now)?)),
            Kind::Display => {
                let mut display = Consumer::new(alloc, name, None, first)?;
                display.clock(now);
                Ok(End::Display(display))
            }
        }
    }

    /// Asks the end before it for a subscription. A source asks for nothing.
    pub(crate) fn ask(
        &mut self,
        alloc: Global,
        wanted: Subscription,
    ) -> Result<Option<Rc<Message>>, Stopped> {
        match self {
            End::Source(_) => {
                drop(wanted);
                Ok(None)
            }
            End::Relay(relay) => opened(alloc, relay, &wanted),
            End::Display(display) => subscribed(alloc, display, wanted),
        }
    }

    /// A display that restarts asks for all data of its subscription; any other end asks for nothing so.
    pub(crate) fn ask_for_all(&mut self, alloc: Global) -> Result<Option<Rc<Message>>, Stopped> {
        let End::Display(display) = self else {
            return Ok(None);
        };
        match display.restart()?.into_vec().pop() {
            Some(request) => Ok(Some(Rc::new(alloc, request)?)),
            None => Ok(None),
        }
    }

    /// Takes a message: what it replies.
    pub(crate) fn take(
        &mut self,
        alloc: Global,
        message: &Message,
    ) -> Result<Vec<Rc<Message>>, Stopped> {
        match self {
            End::Source(source) => answered(alloc, &*Rc::new(alloc, source.take(message)?)?),
            End::Relay(relay) => relayed(alloc, &*Rc::new(alloc, relay.take(message)?)?),
            End::Display(display) => replied(alloc, &*Rc::new(alloc, display.take(message)?)?),
        }
    }

    /// The moment of the end becomes the later one.
    pub(crate) fn clock(&mut self, now: u64) -> Result<(), Stopped> {
        let now = moment(now);
        match self {
            End::Source(source) => source.clock(now),
            End::Relay(relay) => relay.clock(now)?,
            End::Display(display) => display.clock(now),
        }
        Ok(())
    }

    /// What it sends to the end behind it.
    pub(crate) fn settle(&mut self, alloc: Global) -> Result<List<Out>, Stopped> {
        match self {
            End::Source(source) => Ok(source.settle()?),
            End::Relay(relay) => Ok(relay.settle()?),
            End::Display(_) => Ok(List::new(alloc)),
        }
    }
}

/// The request of a relay.
fn opened(
    alloc: Global,
    relay: &mut Relay,
    wanted: &Subscription,
) -> Result<Option<Rc<Message>>, Stopped> {
    let request = relay.open(wanted, Span::zero())?;
    Ok(Some(Rc::new(alloc, request)?))
}

/// The request of a display.
fn subscribed(
    alloc: Global,
    display: &mut Consumer,
    wanted: Subscription,
) -> Result<Option<Rc<Message>>, Stopped> {
    let mut list = List::new(alloc);
    list.push(wanted)?;
    let request = display.subscribe(&list, Span::zero())?;
    Ok(Some(Rc::new(alloc, request)?))
}

/// What a relay replies.
fn relayed(alloc: Global, answer: &RelayAnswer) -> Result<Vec<Rc<Message>>, Stopped> {
    match answer {
        RelayAnswer::Up(seen) => replied(alloc, seen),
        RelayAnswer::Down(answer) => answered(alloc, answer),
    }
}

/// What a producer replies.
fn answered(alloc: Global, answer: &Answer) -> Result<Vec<Rc<Message>>, Stopped> {
    let mut replies = Vec::new(alloc);
    if let Some(reply) = &answer.reply {
        replies.push(Rc::new(alloc, reply.copy()?)?)?;
    }
    Ok(replies)
}

/// What a consumer replies.
fn replied(alloc: Global, seen: &Seen) -> Result<Vec<Rc<Message>>, Stopped> {
    let mut replies = Vec::new(alloc);
    for reply in seen.replies.slice() {
        replies.push(Rc::new(alloc, reply.copy()?)?)?;
    }
    Ok(replies)
}

/// The rounds that a display has applied, by the round that its view is of.
pub(crate) fn rounds(alloc: Global, display: &Consumer) -> Result<u64, Stopped> {
    match display.held(&identifier(alloc)?) {
        Some(held) => Ok(held.round),
        None => Err(Stopped::NotHeld),
    }
}
