//! What goes on beside the connection that has its turn, and the one place in which this end waits.

use crate::connection::{Connection, Whose, timed_out};
use crate::door::{Door, Handed};
use crate::farewells::Farewells;
use crate::gone::{Change, GoneList, Standing};
use crate::limit::{Limit, shorter};
use crate::names::Names;
use crate::stream::Stream;
use crate::trials::Trials;
use mio::net::TcpStream;
use mio::{Events, Interest, Poll, Registry, Token};
use siri_base::Name;
use std::alloc::Global;
use std::io;
use std::io::ErrorKind;
use std::net::SocketAddr;
use std::time::{Duration, Instant};

/// How long it may take to make a connection, in seconds, which the addresses of a name share alike. A host that is
/// there answers at once, or to the second packet, which the system sends after a second; of one that swallows packets
/// the system itself waits for two minutes.
const DIAL_SECONDS: u64 = 2;

/// How much is told at a time of what may be read or written.
const MOST_READY: usize = 512;

/// From how long on the time in which this end didn't look is given to those who wait, in milliseconds.
const BUSY_MILLISECONDS: u64 = 10;

/// What goes on beside the connection that has its turn.
#[derive(Drop)]
pub(crate) struct Beside {
    poll: Poll,
    events: Events<Global>,
    /// The last token that was given.
    tokens: usize,
    /// When this end looked last.
    looked: Instant,
    door: Door,
    farewells: Farewells,
    trials: Trials,
    gone: GoneList,
    names: Names,
}

/// What is told of an address that is left alone.
fn left_alone() -> io::Error {
    io::Error::new(ErrorKind::HostUnreachable, "left alone, it didn't answer")
}

/// Whether that is what was told.
pub(crate) fn is_left_alone(error: &io::Error) -> bool {
    error.kind() == ErrorKind::HostUnreachable && error.raw_os_error().is_none()
}

impl Beside {
    /// Nothing yet.
    pub(crate) fn new(rt: &HostRuntime) -> io::Result<Beside> {
        let alloc = rt.alloc();
        let Ok(events) = Events::with_capacity(alloc, MOST_READY) else {
            return Err(io::Error::from(ErrorKind::OutOfMemory));
        };
        Ok(Beside {
            poll: Poll::new(rt)?,
            events,
            tokens: 0,
            looked: Instant::now(rt)?,
            door: Door::new(alloc),
            farewells: Farewells::new(alloc),
            trials: Trials::new(alloc),
            gone: GoneList::new(alloc),
            names: Names::new(alloc),
        })
    }

    /// Where connections are told of.
    pub(crate) fn registry(&self) -> &Registry {
        self.poll.registry()
    }

    /// Whether so many bytes of one connection may wait to be sent.
    pub(crate) fn has_room(&mut self, bytes: usize) -> bool {
        self.farewells.has_room(bytes)
    }

    /// Waits until something happens, for no longer than this, and does what it asks for.
    pub(crate) fn look(&mut self, rt: &HostRuntime, most: Option<Duration>) -> io::Result<()> {
        let now = Instant::now(rt)?;
        self.give_back(now.duration_since(self.looked));
        let rest = shorter(self.door.rest(now), self.farewells.rest(now));
        let rest = shorter(rest, self.trials.rest(now));
        self.poll.poll(&mut self.events, shorter(most, rest))?;
        for event in &self.events {
            self.door.tell(event.token());
        }
        let now = Instant::now(rt)?;
        self.looked = now;
        let registry = self.poll.registry();
        self.door.look(registry, &mut self.tokens, now);
        self.farewells.look(registry, now);
        self.trials.look(&mut self.gone, registry, now);
        Ok(())
    }

    /// Gives those who wait the time in which this end didn't look.
    fn give_back(&mut self, busy: Duration) {
        if busy >= Duration::from_millis(BUSY_MILLISECONDS) {
            self.door.lengthen(busy);
            self.farewells.lengthen(busy);
            self.trials.lengthen(busy);
        }
    }

    /// Listens at an address, `HOST:PORT`.
    pub(crate) fn listen(&mut self, rt: &HostRuntime, address: &str) -> io::Result<()> {
        self.door.listen(rt, self.poll.registry(), address)
    }

    /// The next client whose turn it is, for whom is waited for as long as none comes.
    pub(crate) fn accept(&mut self, rt: &HostRuntime) -> io::Result<Connection> {
        if !self.door.is_open() {
            return Err(io::Error::from(ErrorKind::NotConnected));
        }
        let mut most = Some(Duration::ZERO);
        for _ in 0..u64::MAX {
            self.look(rt, most)?;
            // (what was done since then is no time of those who wait)
            let now = self.looked;
            if let Some(handed) = self.door.hand(now) {
                return Ok(self.handed(rt, handed, now));
            }
            if let Some(fault) = self.door.fault() {
                return Err(fault);
            }
            most = if self.door.refuse(now) {
                Some(Duration::ZERO)
            } else {
                None
            };
        }
        Err(timed_out())
    }

    /// A client that has its turn. The addresses at its host are there again.
    fn handed(&mut self, rt: &HostRuntime, handed: Handed, now: Instant) -> Connection {
        self.gone.came_from(&self.names, handed.peer.ip(), now);
        Connection::handed(rt.alloc(), handed, now)
    }

    /// A connection to an address, or what is told of one that is left alone.
    pub(crate) fn dial(&mut self, rt: &HostRuntime, address: &Name) -> io::Result<Connection> {
        let begun = Instant::now(rt)?;
        let made = match self.gone.standing(address, begun) {
            Standing::Good => self.made(rt, address, begun),
            Standing::Trial if !self.trials.has(address) => self.tried(rt, address, begun),
            _ => return Err(left_alone()),
        };
        if made.is_err() {
            self.failed(rt, address, begun);
        }
        made
    }

    /// An address failed that was dialled at a moment.
    pub(crate) fn failed(&mut self, rt: &HostRuntime, address: &Name, begun: Instant) {
        if let Ok(now) = Instant::now(rt) {
            self.gone.failed(address, now.duration_since(begun), now);
        }
    }

    /// Dials the addresses of a name in turn.
    fn made(&mut self, rt: &HostRuntime, address: &Name, begun: Instant) -> io::Result<Connection> {
        let found = self.names.look_up(rt, address)?;
        let count = u32::try_from(found.all().len()).unwrap_or(1);
        let each = Duration::from_secs(DIAL_SECONDS) / count.max(1);
        let mut last = timed_out();
        for peer in found.all() {
            match self.connected(rt, *peer, each) {
                Ok(stream) => {
                    let whose = Whose::Ours(copied(address)?);
                    return Ok(Connection::ours(rt.alloc(), stream, *peer, whose, begun));
                }
                Err(error) => last = error,
            }
        }
        Err(last)
    }

    /// Dials an address of a name, within so much time.
    fn connected(
        &mut self,
        rt: &HostRuntime,
        peer: SocketAddr,
        time: Duration,
    ) -> io::Result<Stream> {
        let mut stream = self.begun(rt, peer)?;
        let limit = Limit::after(Instant::now(rt)?, time);
        for _ in 0..u64::MAX {
            if stream.is_made()? {
                return Ok(stream);
            }
            let left = limit.left(Instant::now(rt)?);
            if left.is_zero() {
                break;
            }
            stream.watch(self.poll.registry(), Interest::WRITABLE)?;
            self.look(rt, Some(left))?;
        }
        Err(timed_out())
    }

    /// A connection that begins to be made.
    fn begun(&mut self, rt: &HostRuntime, peer: SocketAddr) -> io::Result<Stream> {
        self.tokens = self.tokens.saturating_add(1);
        Ok(Stream::new(TcpStream::connect(rt, peer)?, Token(self.tokens)))
    }

    /// Begins to dial the first address of a name that was left alone.
    fn tried(
        &mut self,
        rt: &HostRuntime,
        address: &Name,
        begun: Instant,
    ) -> io::Result<Connection> {
        let found = self.names.look_up(rt, address)?;
        let Some(peer) = found.all().first() else {
            return Err(io::Error::from(ErrorKind::NotFound));
        };
        let stream = self.begun(rt, *peer)?;
        let whose = Whose::Tried(copied(address)?);
        Ok(Connection::ours(rt.alloc(), stream, *peer, whose, begun))
    }

    /// A connection that had its turn has ended.
    pub(crate) fn end(&mut self, rt: &HostRuntime, connection: Connection) {
        let Ok(now) = Instant::now(rt) else {
            return;
        };
        if let Whose::Ours(address) | Whose::Tried(address) = &connection.whose {
            if connection.is_late {
                self.trials.add(connection, now);
                return;
            }
            if connection.has_failed {
                // (that was counted when it did)
            } else if connection.was_heard {
                self.gone.answered(address);
            } else {
                let took = now.duration_since(connection.begun);
                self.gone.failed(address, took, now);
            }
        }
        self.farewells.add(connection, now);
    }

    /// What changed of addresses since this was asked last.
    pub(crate) fn take_changes(&mut self) -> Vec<Change> {
        self.gone.take_changes()
    }
}

/// A copy of a name.
fn copied(name: &Name) -> io::Result<Name> {
    match siri_base::Copies::copy(name) {
        Ok(name) => Ok(name),
        Err(_) => Err(io::Error::from(ErrorKind::OutOfMemory)),
    }
}
