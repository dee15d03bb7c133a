//! Connections that this end is done with: what isn't sent yet goes out as the peer takes it, and then the peer's end is
//! waited for. Nobody is held up by it.

use crate::connection::Connection;
use crate::limit::{Limit, shorter};
use crate::stream::would_wait;
use mio::Registry;
use std::alloc::Global;
use std::time::{Duration, Instant};

/// How long a peer may take for what isn't sent yet, in seconds.
const ANSWER_SECONDS: u64 = 10;

/// How long what still comes is taken after this side has ended, in seconds. A connection that is closed while
/// something comes is reset, and a peer that still sends a document which was refused may then not see the answer.
const FAREWELL_SECONDS: u64 = 2;

/// How many pieces of 16 KiB are taken of one connection before the others are looked at.
const MOST_PIECES: u32 = 64;

/// How many connections are kept at most; of more the first is closed that has nothing to send, or else the first.
const MOST_FAREWELLS: usize = 256;

/// How many bytes of all of them aren't sent yet, at most; of more the connection is closed that has most to send.
const MOST_BYTES: usize = 67_108_864;

/// A connection that this end is done with, and when its time is over.
#[derive(Drop)]
struct Farewell {
    connection: Connection,
    /// Whether all is sent, and this side has ended.
    is_sent: bool,
    /// Whether more may have come than was taken.
    has_more: bool,
    limit: Limit,
}

impl Farewell {
    /// Sends and takes what it can. Whether more is to be done.
    fn goes_on(&mut self, now: Instant) -> bool {
        if !self.is_sent {
            match self.connection.push() {
                Ok(true) => self.is_sent = true,
                Ok(false) => return !self.limit.is_over(now),
                Err(_) => return false,
            }
            if self.connection.end().is_err() {
                return false;
            }
            self.limit = Limit::after(now, Duration::from_secs(FAREWELL_SECONDS));
        }
        self.is_open() && !self.limit.is_over(now)
    }

    /// The same, and where more is to be done it is told when it can be.
    fn goes_on_later(&mut self, registry: &Registry, now: Instant) -> bool {
        self.goes_on(now) && self.connection.watch(registry).is_ok()
    }

    /// Takes what still comes. Whether the peer hasn't ended.
    fn is_open(&mut self) -> bool {
        let mut piece = [0u8; 16_384];
        for _ in 0..MOST_PIECES {
            match self.connection.take(&mut piece) {
                Ok(0) => return false,
                Ok(_) => {}
                Err(error) => {
                    self.has_more = false;
                    return would_wait(&error);
                }
            }
        }
        self.has_more = true;
        true
    }
}

/// Connections that this end is done with.
#[derive(Drop)]
pub(crate) struct Farewells {
    list: Vec<Farewell>,
}

impl Farewells {
    /// None yet.
    pub(crate) fn new(alloc: Global) -> Farewells {
        Farewells {
            list: Vec::new(alloc),
        }
    }

    /// One more. It is closed at once where there is no memory for it.
    pub(crate) fn add(&mut self, connection: Connection, now: Instant) {
        let mut farewell = Farewell {
            connection,
            is_sent: false,
            has_more: false,
            limit: Limit::after(now, Duration::from_secs(ANSWER_SECONDS)),
        };
        if farewell.goes_on(now) {
            if self.list.len() >= MOST_FAREWELLS {
                self.close_first();
            }
            let _ = self.list.push(farewell);
        } else {
            drop(farewell);
        }
    }

    /// Closes the first that has nothing to send, or else the first.
    fn close_first(&mut self) {
        let place = self
            .list
            .iter()
            .position(|farewell: &Farewell| farewell.is_sent)
            .unwrap_or(0);
        if place < self.list.len() {
            drop(self.list.remove(place));
        }
    }

    /// Sends and takes what can be, and closes those that are done.
    pub(crate) fn look(&mut self, registry: &Registry, now: Instant) {
        self.list.retain_mut(|farewell: &mut Farewell| farewell.goes_on_later(registry, now));
    }

    /// How many bytes aren't sent yet.
    fn left(&self) -> usize {
        let mut left: usize = 0;
        for farewell in &self.list {
            left = left.saturating_add(farewell.connection.left());
        }
        left
    }

    /// Makes room for so many bytes of another connection, which are all that it has to send: those are closed that
    /// have more. Whether there is room.
    pub(crate) fn has_room(&mut self, bytes: usize) -> bool {
        for _ in 0..MOST_FAREWELLS {
            if self.left().saturating_add(bytes) <= MOST_BYTES {
                return true;
            }
            let mut found = None;
            let mut most = bytes;
            for (place, farewell) in self.list.iter().enumerate() {
                if most < farewell.connection.left() {
                    most = farewell.connection.left();
                    found = Some(place);
                }
            }
            match found {
                Some(place) if place < self.list.len() => drop(self.list.swap_remove(place)),
                _ => return false,
            }
        }
        false
    }

    /// How long nothing needs to be done where nothing happens, where there is such a time.
    pub(crate) fn rest(&self, now: Instant) -> Option<Duration> {
        let mut rest = None;
        for farewell in &self.list {
            let left = if farewell.has_more {
                Duration::ZERO
            } else {
                farewell.limit.left(now)
            };
            rest = shorter(rest, Some(left));
        }
        rest
    }

    /// Time in which this end didn't look isn't counted.
    pub(crate) fn lengthen(&mut self, by: Duration) {
        for farewell in self.list.iter_mut() {
            farewell.limit.lengthen(by);
        }
    }
}
