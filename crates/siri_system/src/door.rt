//! A listener, and the connections that came and wait for their turn. They are read side by side, and one has its turn
//! when its request has come whole, when it has ended, or when its time is over.

use crate::limit::{Limit, shorter};
use crate::message::Message;
use crate::stream::{Stream, would_wait};
use mio::net::{TcpListener, TcpStream};
use mio::{Interest, Registry, Token};
use std::alloc::Global;
use std::io;
use std::net::{SocketAddr, ToSocketAddrs};
use std::time::{Duration, Instant};

/// How long a request may take to come, in seconds: the longest document, of 8 MiB, has to come at 7 Mbit/s. Time in
/// which this end doesn't look isn't counted.
const REQUEST_SECONDS: u64 = 10;

/// How many connections wait at most; who comes then waits at the system.
const MOST_WAITING: usize = 256;

/// How many bytes are held of all that wait, at most.
const MOST_BYTES: usize = 67_108_864;

/// How much of a connection is read at a time, in bytes.
const PIECE: usize = 16_384;

/// How many pieces of one connection are read before the others are looked at.
const MOST_PIECES: u32 = 64;

/// After how much silence a connection is refused where others can't come in, in seconds.
const QUIET_SECONDS: u64 = 1;

/// How long it is waited for descriptors before the next try, in milliseconds, and for how long in all, in seconds.
const PAUSE_MILLISECONDS: u64 = 100;

const SHORT_SECONDS: u64 = 60;

/// What the system tells of a connection that came and was given up before it was accepted: ENONET, EPROTO,
/// ENOPROTOOPT, ENETDOWN, ENETUNREACH, ECONNABORTED, ECONNRESET, EHOSTDOWN and EHOSTUNREACH.
const GIVEN_UP: [i32; 9] = [64, 71, 92, 100, 101, 103, 104, 112, 113];

/// What the system tells where descriptors or buffers are short: ENFILE, EMFILE and ENOBUFS.
const SHORT: [i32; 3] = [23, 24, 105];

/// The token of the listener.
pub(crate) const LISTENER: Token = Token(0);

/// A connection that waits for its turn.
#[derive(Drop)]
struct Waiting {
    stream: Stream,
    peer: SocketAddr,
    message: Message,
    /// Something may have come that wasn't read.
    has_news: bool,
    /// It ended or failed.
    is_over: bool,
    /// When it came, and when something came of it last.
    came: Instant,
    heard: Instant,
    limit: Limit,
}

/// A connection that has its turn.
#[derive(Drop)]
pub(crate) struct Handed {
    pub stream: Stream,
    pub peer: SocketAddr,
    /// What was read of it.
    pub read: Vec<u8>,
    /// When it came.
    pub came: Instant,
    /// Its time is over, and it hasn't come whole.
    pub is_late: bool,
}

impl Waiting {
    /// A connection that came just now.
    fn new(alloc: Global, stream: Stream, peer: SocketAddr, now: Instant) -> Waiting {
        Waiting {
            stream,
            peer,
            message: Message::new(alloc),
            has_news: true,
            is_over: false,
            came: now,
            heard: now,
            limit: Limit::after(now, Duration::from_secs(REQUEST_SECONDS)),
        }
    }

    /// Whether no more is waited for of it.
    fn is_done(&self) -> bool {
        self.is_over || self.message.is_whole()
    }

    /// Whether it has its turn: what came is read before its time is over.
    fn is_ready(&self, now: Instant) -> bool {
        self.is_done() || !self.has_news && self.limit.is_over(now)
    }

    /// Reads what has come, of at most so many bytes, and gives how many more there is room for.
    fn read(&mut self, registry: &Registry, mut room: usize, now: Instant) -> usize {
        let mut piece = [0u8; PIECE];
        for _ in 0..MOST_PIECES {
            if self.is_done() || room < PIECE {
                return room;
            }
            match self.stream.read(&mut piece) {
                Ok(0) => self.is_over = true,
                Ok(count) => {
                    let came = piece.get(..count).unwrap_or(&[]);
                    self.is_over = self.message.take(came).is_err();
                    self.heard = now;
                    room = room.saturating_sub(count);
                }
                Err(error) if would_wait(&error) => {
                    self.has_news = false;
                    self.is_over = self.stream.watch(registry, Interest::READABLE).is_err();
                    return room;
                }
                Err(_) => self.is_over = true,
            }
        }
        room
    }
}

/// A listener, where there is one, and who waits.
#[derive(Drop)]
pub(crate) struct Door {
    alloc: Global,
    listener: Option<TcpListener>,
    /// Somebody may have come who wasn't taken in.
    may_come: bool,
    waiting: Vec<Waiting>,
    /// Until when it is waited for descriptors, where they are short.
    shortage: Option<Limit>,
    /// What the system told where nobody can be taken in any more.
    fault: Option<io::Error>,
}

/// Whether an error of the system is one of these.
fn is_among(error: &io::Error, codes: &[i32]) -> bool {
    match error.raw_os_error() {
        Some(code) => codes.contains(&code),
        None => false,
    }
}

/// A listener at the first address of a text, `HOST:PORT`, at which there can be one.
fn bound(rt: &HostRuntime, address: &str) -> io::Result<TcpListener> {
    let mut last = io::Error::from(io::ErrorKind::NotFound);
    for address in address.to_socket_addrs(rt)? {
        match TcpListener::bind(rt, address) {
            Ok(listener) => return Ok(listener),
            Err(error) => last = error,
        }
    }
    Err(last)
}

impl Door {
    /// A door that is closed.
    pub(crate) fn new(alloc: Global) -> Door {
        Door {
            alloc,
            listener: None,
            may_come: false,
            waiting: Vec::new(alloc),
            shortage: None,
            fault: None,
        }
    }

    /// Listens at an address, `HOST:PORT`.
    pub(crate) fn listen(
        &mut self,
        rt: &HostRuntime,
        registry: &Registry,
        address: &str,
    ) -> io::Result<()> {
        let mut listener = bound(rt, address)?;
        registry.register(&mut listener, LISTENER, Interest::READABLE)?;
        self.listener = Some(listener);
        self.may_come = true;
        Ok(())
    }

    /// Whether it listens.
    pub(crate) fn is_open(&self) -> bool {
        self.listener.is_some()
    }

    /// What the system told where nobody can be taken in any more.
    pub(crate) fn fault(&self) -> Option<io::Error> {
        self.fault
    }

    /// Something happened under a token.
    pub(crate) fn tell(&mut self, token: Token) {
        self.may_come = self.may_come || token == LISTENER;
        for waiting in self.waiting.iter_mut() {
            waiting.has_news = waiting.has_news || waiting.stream.is_at(token);
        }
    }

    /// Takes in who came, and reads what came.
    pub(crate) fn look(&mut self, registry: &Registry, tokens: &mut usize, now: Instant) {
        for _ in 0..MOST_WAITING {
            if !self.may_come || self.is_crowded() || self.take_in(tokens, now) {
                break;
            }
        }
        let mut room = self.room();
        for waiting in self.waiting.iter_mut() {
            if waiting.has_news {
                room = waiting.read(registry, room, now);
            }
        }
    }

    /// Takes in the next who came. Whether it is no use to go on.
    fn take_in(&mut self, tokens: &mut usize, now: Instant) -> bool {
        let Some(listener) = &self.listener else {
            return true;
        };
        match listener.accept() {
            Ok((tcp, peer)) => self.add(tcp, peer, tokens, now),
            Err(error) if would_wait(&error) => {
                self.may_come = false;
                self.shortage = None;
            }
            Err(error) if is_among(&error, &GIVEN_UP) => {}
            Err(error) => {
                self.fail(error, now);
                return true;
            }
        }
        false
    }

    /// Somebody waits; nobody does where there is no memory for it.
    fn add(&mut self, tcp: TcpStream, peer: SocketAddr, tokens: &mut usize, now: Instant) {
        self.shortage = None;
        *tokens = tokens.saturating_add(1);
        let stream = Stream::new(tcp, Token(*tokens));
        let _ = self
            .waiting
            .push(Waiting::new(self.alloc, stream, peer, now));
    }

    /// Nobody can be taken in: for good, or for now, where descriptors are short.
    fn fail(&mut self, error: io::Error, now: Instant) {
        let limit = match self.shortage {
            Some(limit) => limit,
            None => Limit::after(now, Duration::from_secs(SHORT_SECONDS)),
        };
        self.shortage = Some(limit);
        if !is_among(&error, &SHORT) || limit.is_over(now) {
            self.fault = Some(error);
        }
    }

    /// Whether as many wait as may.
    fn is_crowded(&self) -> bool {
        self.waiting.len() >= MOST_WAITING
    }

    /// How many more bytes may be held.
    fn room(&self) -> usize {
        let mut room = MOST_BYTES;
        for waiting in &self.waiting {
            room = room.saturating_sub(waiting.message.len());
        }
        room
    }

    /// The first who has its turn.
    pub(crate) fn hand(&mut self, now: Instant) -> Option<Handed> {
        let place = self
            .waiting
            .iter()
            .position(|waiting: &Waiting| waiting.is_ready(now))?;
        if place >= self.waiting.len() {
            return None;
        }
        let waiting = self.waiting.remove(place);
        let is_late = !waiting.is_done();
        let Waiting {
            stream,
            peer,
            message,
            came,
            ..
        } = waiting;
        Some(Handed {
            stream,
            peer,
            read: message.into_bytes(),
            came,
            is_late,
        })
    }

    /// Where nobody has its turn: refuses whoever holds most where there is no room, and whoever is silent for longest
    /// where others can't come in. Whether one was refused.
    pub(crate) fn refuse(&mut self, now: Instant) -> bool {
        let mut found = None;
        let mut most = Duration::from_secs(QUIET_SECONDS);
        if self.room() < PIECE {
            found = self.longest();
        } else if self.is_crowded() && self.may_come {
            for (place, waiting) in self.waiting.iter().enumerate() {
                let silence = now.duration_since(waiting.heard);
                if most <= silence {
                    most = silence;
                    found = Some(place);
                }
            }
        }
        match found {
            Some(place) if place < self.waiting.len() => {
                drop(self.waiting.swap_remove(place));
                true
            }
            _ => false,
        }
    }

    /// The place of whoever holds most.
    fn longest(&self) -> Option<usize> {
        let mut found = None;
        let mut most = 0;
        for (place, waiting) in self.waiting.iter().enumerate() {
            if most <= waiting.message.len() {
                most = waiting.message.len();
                found = Some(place);
            }
        }
        found
    }

    /// How long nothing needs to be done where nothing happens, where there is such a time.
    pub(crate) fn rest(&self, now: Instant) -> Option<Duration> {
        let mut rest = match self.shortage {
            Some(_) => Some(Duration::from_millis(PAUSE_MILLISECONDS)),
            None => None,
        };
        if self.is_crowded() && self.may_come {
            rest = shorter(rest, Some(Duration::from_millis(PAUSE_MILLISECONDS)));
        }
        let has_room = self.room() >= PIECE;
        for waiting in &self.waiting {
            if !waiting.is_ready(now) {
                let left = if waiting.has_news && has_room {
                    Duration::ZERO
                } else {
                    waiting.limit.left(now)
                };
                rest = shorter(rest, Some(left));
            }
        }
        rest
    }

    /// Time in which this end didn't look isn't counted.
    pub(crate) fn lengthen(&mut self, by: Duration) {
        for waiting in self.waiting.iter_mut() {
            waiting.limit.lengthen(by);
        }
    }
}
