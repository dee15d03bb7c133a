//! The connection that has its turn.

ghost use Rattle.std.specs.Prelude.{◌≡◌, ◌<◌, ◌≤◌, length, IfOk};
ghost use Rattle.std.specs.Io.{ReadsAtMost, WritesAtMost};

use crate::beside::Beside;
use crate::door::Handed;
use crate::limit::Limit;
use crate::stream::{Stream, would_wait};
use mio::{Interest, Registry};
use siri_base::Name;
use std::alloc::Global;
use std::io;
use std::io::ErrorKind;
use std::net::SocketAddr;
use std::time::{Duration, Instant};

/// How long this end waits for a peer as a whole, from the moment at which a connection was handed over or began to be
/// made, in seconds.
const CONNECTION_SECONDS: u64 = 10;

/// How long this end waits for an address that is tried after it was left alone, in milliseconds. What it is sent and
/// what it answers go on beside.
const TRIAL_MILLISECONDS: u64 = 100;

/// Whose connection it is.
#[derive(Drop)]
pub(crate) enum Whose {
    /// A client's, who asks.
    Client,
    /// This end's, to an address that is asked.
    Ours(Name),
    /// This end's, to an address that was left alone and is tried.
    Tried(Name),
}

/// How often what isn't sent yet is written at a time: mostly twice, until no more is taken.
const MOST_WRITES: u32 = 64;

/// The connection that has its turn.
#[derive(Drop)]
pub(crate) struct Connection {
    alloc: Global,
    stream: Stream,
    pub whose: Whose,
    pub peer: Option<SocketAddr>,
    /// What came of it before, and how much of that was given.
    came: Vec<u8>,
    given: usize,
    /// What isn't sent yet, and how much of that is.
    going: Vec<u8>,
    sent: usize,
    /// When it came, or began to be made.
    pub begun: Instant,
    limit: Limit,
    /// Whether anything came of it.
    pub was_heard: bool,
    /// Whether a call failed, and whether for want of time.
    pub has_failed: bool,
    pub is_late: bool,
}

/// What is told where a peer takes too long.
pub(crate) fn timed_out() -> io::Error {
    io::Error::from(ErrorKind::TimedOut)
}

impl Connection {
    /// A client's connection. One that is late has no time left for what is lacking.
    pub(crate) fn handed(alloc: Global, handed: Handed, now: Instant) -> Connection {
        let Handed {
            stream,
            peer,
            read,
            came,
            is_late,
        } = handed;
        let seconds = if is_late { 0 } else { CONNECTION_SECONDS };
        Connection {
            alloc,
            stream,
            whose: Whose::Client,
            peer: Some(peer),
            came: read,
            given: 0,
            going: Vec::new(alloc),
            sent: 0,
            begun: came,
            limit: Limit::after(now, Duration::from_secs(seconds)),
            was_heard: false,
            has_failed: false,
            is_late: false,
        }
    }

    /// A connection that this end has made, or begun to make, at a moment.
    pub(crate) fn ours(
        alloc: Global,
        stream: Stream,
        peer: SocketAddr,
        whose: Whose,
        begun: Instant,
    ) -> Connection {
        let time = match whose {
            Whose::Tried(_) => Duration::from_millis(TRIAL_MILLISECONDS),
            _ => Duration::from_secs(CONNECTION_SECONDS),
        };
        Connection {
            alloc,
            stream,
            whose,
            peer: Some(peer),
            came: Vec::new(alloc),
            given: 0,
            going: Vec::new(alloc),
            sent: 0,
            begun,
            limit: Limit::after(begun, time),
            was_heard: false,
            has_failed: false,
            is_late: false,
        }
    }

    /// Gives of what came before.
    fn give(&mut self, into: &mut [u8]) -> usize
        ensures bound { result ≤ length into.new }
        ensures length { length into.new ≡ length into.old }
    {
        let rest = self.came.get(self.given..).unwrap_or(&[]);
        let count = rest.len().min(into.len());
        into[..count].copy_from_slice(&rest[..count]);
        self.given = self.given.saturating_add(count);
        if self.given >= self.came.len() {
            self.came = Vec::new(self.alloc);
            self.given = 0;
        }
        count
    }

    /// Sends what isn't sent yet, as far as it is taken. Whether all is sent.
    pub(crate) fn push(&mut self) -> io::Result<bool> {
        for _ in 0..MOST_WRITES {
            let rest = self.going.get(self.sent..).unwrap_or(&[]);
            if rest.is_empty() {
                if self.sent > 0 {
                    self.going = Vec::new(self.alloc);
                    self.sent = 0;
                }
                return Ok(true);
            }
            match self.stream.write(rest) {
                Ok(0) => return Err(io::Error::from(ErrorKind::WriteZero)),
                Ok(count) => self.sent = self.sent.saturating_add(count),
                Err(error) if would_wait(&error) => return Ok(false),
                Err(error) => return Err(error),
            }
        }
        Ok(false)
    }

    /// How many bytes aren't sent yet.
    pub(crate) fn left(&self) -> usize {
        self.going.len().saturating_sub(self.sent)
    }

    /// Gives the next bytes that came. 0 into a buffer that isn't empty is the end.
    pub(crate) fn take(&mut self, into: &mut [u8]) -> io::Result<usize>
        ensures bound { ReadsAtMost result into.new }
    {
        self.stream.read(into)
    }

    /// It is told when it can be read or written.
    pub(crate) fn watch(&mut self, registry: &Registry) -> io::Result<()> {
        self.stream
            .watch(registry, Interest::READABLE | Interest::WRITABLE)
    }

    /// Ends this side.
    pub(crate) fn end(&self) -> io::Result<()> {
        self.stream.end()
    }

    /// Waits until it may be read or written, or until something else happens: `TimedOut` where no time is left.
    fn wait(&mut self, rt: &HostRuntime, beside: &mut Beside) -> io::Result<()> {
        let left = self.limit.left(Instant::now(rt)?);
        if left.is_zero() {
            return Err(timed_out());
        }
        self.watch(beside.registry())?;
        beside.look(rt, Some(left))
    }

    /// Gives the next bytes that come. 0 into a buffer that isn't empty is the end.
    pub(crate) fn read(
        &mut self,
        rt: &HostRuntime,
        beside: &mut Beside,
        into: &mut [u8],
    ) -> io::Result<usize>
        ensures bound { ReadsAtMost result into.new }
    {
        if self.given < self.came.len() {
            return Ok(self.give(into));
        }
        for _ in 0..u64::MAX {
            self.push()?;
            match self.take(into) {
                Err(error) if would_wait(&error) => self.wait(rt, beside)?,
                told => {
                    self.was_heard = self.was_heard || matches!(told, Ok(1..));
                    return told;
                }
            }
        }
        Err(timed_out())
    }

    /// Sends a front of the piece, at least one byte where it isn't empty, or keeps it to be sent: this end waits for
    /// those alone whom it asks.
    pub(crate) fn write(
        &mut self,
        rt: &HostRuntime,
        beside: &mut Beside,
        piece: &[u8],
    ) -> io::Result<usize>
        ensures bound { WritesAtMost result piece.now }
        ensures some { IfOk result (λ count. 0 < length piece.now → 0 < count) }
    {
        for _ in 0..u64::MAX {
            if self.push()? {
                match self.stream.write(piece) {
                    Ok(0) if !piece.is_empty() => {
                        return Err(io::Error::from(ErrorKind::WriteZero));
                    }
                    Err(error) if would_wait(&error) => {}
                    told => return told,
                }
            }
            match self.whose {
                Whose::Ours(_) => self.wait(rt, beside)?,
                _ => return self.keep(beside, piece),
            }
        }
        Err(timed_out())
    }

    /// Keeps a piece to be sent, where there is room for it.
    fn keep(&mut self, beside: &mut Beside, piece: &[u8]) -> io::Result<usize>
        ensures bound { WritesAtMost result piece.now }
        ensures some { IfOk result (λ count. 0 < length piece.now → 0 < count) }
    {
        if !beside.has_room(self.left().saturating_add(piece.len())) {
            return Err(timed_out());
        }
        match self.going.extend_from_slice(piece) {
            Ok(()) => Ok(piece.len()),
            Err(_) => Err(io::Error::from(ErrorKind::OutOfMemory)),
        }
    }
}
