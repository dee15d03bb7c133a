//! A chain and its network.

use crate::dice::Dice;
use crate::ends::{End, Kind, name};
use crate::making::{FIRST_MOMENT, Link, moment, subscription};
use crate::running::Tally;
use crate::stopped::Stopped;
use siri_messages::{Message, ServiceDelivery};
use std::alloc::Global;
use std::mem;
use std::rc::Rc;

/// The most times that everything is delivered that is on its way, until nothing is.
const MOST_TURNS: u32 = 100_000;

/// The most starts of an end.
const MOST_STARTS: u64 = 1_000_000;

/// Which way a packet goes.
#[derive(Clone, Copy, Debug, PartialEq, Eq)]
pub(crate) enum Way {
    /// From the source's side.
    Down,
    /// To the source's side.
    Up,
}

/// A message on its way, over the link that begins at an end.
#[derive(Drop)]
struct Packet {
    link: usize,
    way: Way,
    message: Rc<Message>,
}

/// An end at its place: what it asks of the end before it, and by which requests it did so since it began anew.
#[derive(Drop)]
struct Place {
    end: End,
    kind: Kind,
    link: Option<Link>,
    starts: u64,
    requests: Vec<Rc<Message>>,
}

/// A source, relays and a display, from the source on, and the packets between them.
pub(crate) struct Chain {
    alloc: Global,
    now: u64,
    places: Vec<Place>,
    network: Vec<Packet>,
    sent: u64,
}

impl Drop for Chain {
    fn drop(self) {
        let Chain {
            alloc: _,
            now: _,
            places: _,
            network: _,
            sent: _,
        } = self;
    }
}

impl Chain {
    /// A chain with a source alone.
    pub(crate) fn new(alloc: Global) -> Result<Chain, Stopped> {
        let mut chain = Chain {
            alloc,
            now: FIRST_MOMENT,
            places: Vec::new(alloc),
            network: Vec::new(alloc),
            sent: 0,
        };
        chain.join(Kind::Source, None)?;
        Ok(chain)
    }

    /// One more end, which asks this of the last one. Its request is on its way.
    pub(crate) fn join(&mut self, kind: Kind, link: Option<Link>) -> Result<(), Stopped> {
        let place = self.places.len();
        let name = name(self.alloc, place)?;
        let end = End::new(self.alloc, kind, name, 1, self.now)?;
        self.places.push(Place {
            end,
            kind,
            link,
            starts: 1,
            requests: Vec::new(self.alloc),
        })?;
        self.subscribe(place)
    }

    /// How many ends there are.
    pub(crate) fn len(&self) -> usize {
        self.places.len()
    }

    /// The moment of the latest clock.
    pub(crate) fn now(&self) -> u64 {
        self.now
    }

    /// How many packets were sent.
    pub(crate) fn sent(&self) -> u64 {
        self.sent
    }

    /// The end at a place.
    pub(crate) fn end(&mut self, place: usize) -> Option<&mut End> {
        match self.places.get_mut(place) {
            Some(at) => Some(&mut at.end),
            None => None,
        }
    }

    /// What the display asks for.
    pub(crate) fn last_link(&self) -> Option<Link> {
        self.places.last()?.link
    }

    /// The thresholds of all links together.
    pub(crate) fn slack(&self) -> u64 {
        let mut slack = 0u64;
        for place in &self.places {
            if let Some(link) = place.link {
                slack = slack.saturating_add(link.slack);
            }
        }
        slack
    }

    // ---- requests

    /// An end asks the one before it.
    fn subscribe(&mut self, place: usize) -> Result<(), Stopped> {
        let alloc = self.alloc;
        let Some(at) = self.places.get_mut(place) else {
            return Ok(());
        };
        let Some(link) = at.link else {
            return Ok(());
        };
        let wanted = subscription(alloc, name(alloc, place)?, link)?;
        if let Some(request) = at.end.ask(alloc, wanted)? {
            at.requests.push(request)?;
        }
        self.repeat(place)
    }

    /// The requests of an end are sent, once more or for the first time.
    pub(crate) fn repeat(&mut self, place: usize) -> Result<(), Stopped> {
        let Some(at) = self.places.get(place) else {
            return Ok(());
        };
        let mut requests = Vec::new(self.alloc);
        for request in &at.requests {
            requests.push(request.clone()?)?;
        }
        for request in requests {
            self.send(place.saturating_sub(1), Way::Up, request)?;
        }
        Ok(())
    }

    /// An end starts anew: what it had is gone, and it subscribes.
    pub(crate) fn restart(&mut self, place: usize) -> Result<(), Stopped> {
        let alloc = self.alloc;
        let name = name(alloc, place)?;
        let Some(at) = self.places.get_mut(place) else {
            return Ok(());
        };
        let starts = at.starts.min(MOST_STARTS - 1) + 1;
        at.starts = starts;
        at.end = End::new(alloc, at.kind, name, starts, self.now)?;
        at.requests.truncate(0);
        self.subscribe(place)
    }

    /// The display restarts and asks for all data of its subscription.
    pub(crate) fn come_back(&mut self) -> Result<(), Stopped> {
        let alloc = self.alloc;
        let place = self.places.len().saturating_sub(1);
        let Some(at) = self.places.get_mut(place) else {
            return Ok(());
        };
        if let Some(request) = at.end.ask_for_all(alloc)? {
            at.requests.truncate(1);
            at.requests.push(request)?;
        }
        self.repeat(place)
    }

    // ---- feeds and the clock

    /// The source is fed, and settles.
    pub(crate) fn feed(&mut self, delivery: ServiceDelivery) -> Result<(), Stopped> {
        if let Some(End::Source(source)) = self.end(0) {
            let fed = source.feed_owned(delivery);
            fed?;
        }
        self.settle(0)
    }

    /// Time passes, which each end learns by its own clock.
    pub(crate) fn pass(&mut self, ms: u64) {
        self.now = self.now.saturating_add(ms);
    }

    /// An end reads its clock, and settles.
    pub(crate) fn clock(&mut self, place: usize) -> Result<(), Stopped> {
        let now = self.now;
        if let Some(end) = self.end(place) {
            end.clock(now)?;
        }
        self.settle(place)
    }

    /// Each end reads its clock.
    pub(crate) fn clock_all(&mut self) -> Result<(), Stopped> {
        for place in 0..self.places.len() {
            self.clock(place)?;
        }
        Ok(())
    }

    // ---- the network

    /// A message is on its way.
    fn send(&mut self, link: usize, way: Way, message: Rc<Message>) -> Result<(), Stopped> {
        self.sent = self.sent.saturating_add(1);
        self.network.push(Packet { link, way, message })?;
        Ok(())
    }

    /// An end settles, and what it sends is on its way.
    fn settle(&mut self, place: usize) -> Result<(), Stopped> {
        let alloc = self.alloc;
        let Some(end) = self.end(place) else {
            return Ok(());
        };
        for out in end.settle(alloc)?.into_vec() {
            let message = Rc::new(alloc, out.message)?;
            self.send(place, Way::Down, message)?;
        }
        Ok(())
    }

    /// A packet arrives: the end takes it, its replies are on their way, and it settles.
    fn arrive(&mut self, packet: &Packet) -> Result<(), Stopped> {
        let alloc = self.alloc;
        let (place, back) = match packet.way {
            Way::Down => (packet.link.saturating_add(1), Way::Up),
            Way::Up => (packet.link, Way::Down),
        };
        let Some(end) = self.end(place) else {
            return Ok(());
        };
        for reply in end.take(alloc, &packet.message)? {
            self.send(packet.link, back, reply)?;
        }
        self.settle(place)
    }

    /// One of the packets is lost, or arrives, and may come once more.
    pub(crate) fn deliver_one(
        &mut self,
        dice: &mut Dice,
        tally: &mut Tally,
    ) -> Result<(), Stopped> {
        let Some(place) = dice.place(self.network.len()) else {
            return Ok(());
        };
        let packet = self.network.swap_remove(place);
        match dice.draw(10) {
            0 => {
                tally.lost = tally.lost.saturating_add(1);
                Ok(())
            }
            1 => {
                tally.repeated = tally.repeated.saturating_add(1);
                self.arrive(&packet)?;
                self.network.push(packet)?;
                Ok(())
            }
            _ => self.arrive(&packet),
        }
    }

    /// Everything that is on its way arrives, in the order in which it was sent, until nothing is sent any more.
    pub(crate) fn deliver_all(&mut self) -> Result<(), Stopped> {
        for _ in 0..MOST_TURNS {
            if self.network.is_empty() {
                return Ok(());
            }
            let packets = mem::replace(&mut self.network, Vec::new(self.alloc));
            for packet in &packets {
                self.arrive(packet)?;
            }
        }
        Err(Stopped::NotQuiet)
    }

    /// Whether nothing is on its way.
    pub(crate) fn is_quiet(&self) -> bool {
        self.network.is_empty()
    }
}
