//! Connections over TCP, with a line of standard error for each that ends.

ghost use Rattle.std.specs.Prelude.{◌≡◌, None, IsSome};

use crate::gone::Change;
use crate::telling::{Begun, Logged, Telling, Way};
use crate::traffic::Traffic;
use crate::wire::TcpWire;
use siri_base::Name;
use siri_outside::{Failed, OutsideError, Wire};
use std::io;
use std::net::SocketAddr;

/// The wire over TCP, which tells what became of each connection where that is asked for, on a line of standard error:
///
/// ```text
/// 2024-05-01T08:00:00Z accepted 127.0.0.1:50312 "POST / HTTP/1.1" "HTTP/1.1 200 OK" in 532 out 310 bytes, 3 ms
/// 2024-05-01T08:00:01Z accepted 127.0.0.1:50314 "POST / HTTP/1.1" "HTTP/1.1 400 Bad Request" in 148 out 107 bytes, 1 ms: Siri: Missing
/// 2024-05-01T08:00:02Z dialled 127.0.0.1:7002 failed: Connection refused (os error 111), 1 ms
/// 2024-05-01T08:00:14Z left alone 127.0.0.1:7003 for 15 s
/// 2024-05-01T08:00:44Z answers again 127.0.0.1:7003
/// ```
///
/// The moment at which it came or was dialled, the peer, the first lines of the request and of the response, how many
/// bytes came in and went out, what the system told where a call failed, how long it took, and the first line of an
/// answer in plain text. Where an address is left alone, a line says so once, and one says that it answers again; what
/// isn't sent to it meanwhile has none. Nothing that a connection carries depends on it; a line that can't be written is
/// left out. [`Telling`] says whether lines or objects are written.
#[derive(Drop)]
pub struct LoggedWire {
    wire: TcpWire,
    log: Option<Log>,
}

/// What is told, and where.
#[derive(Drop)]
struct Log {
    rt: HostRuntime,
    telling: Telling,
    connection: Option<Logged>,
}

impl Log {
    /// A connection is there, in the place of the one before it.
    fn begin(&mut self, way: Way, begun: Begun, peer: Option<SocketAddr>) {
        self.end();
        self.connection = Some(Logged {
            way,
            begun,
            peer,
            came: Traffic::new(),
            went: Traffic::new(),
            fault: None,
        });
    }

    /// The connection that is there ends, and its line is written.
    fn end(&mut self) {
        if let Some(connection) = self.connection.take() {
            self.telling.end(&self.rt, &connection);
        }
    }
}

/// Tells changes, one after the other.
fn tell_each(log: &Log, changes: &[Change]) {
    for change in changes {
        log.telling.change(&log.rt, change);
    }
}

impl LoggedWire {
    /// A wire with no connection, which listens nowhere; how it tells what becomes of connections.
    pub fn new(rt: HostRuntime, telling: Telling) -> LoggedWire
        ensures faults { ⟦<LoggedWire as Wire>⟧.faults result ≡ 0 }
    {
        let log = match telling {
            Telling::Nothing => None,
            telling => Some(Log {
                rt,
                telling,
                connection: None,
            }),
        };
        LoggedWire {
            wire: TcpWire::new(rt),
            log,
        }
    }

    /// Tells what changed of addresses since this was told last.
    fn tell_changes(&mut self)
        ensures faults { self.new.wire.faults ≡ self.old.wire.faults }
        ensures connection { self.new.wire.connection ≡ self.old.wire.connection }
    {
        if let Some(log) = &self.log
            && let Some(changes) = self.wire.take_changes()
        {
            tell_each(log, &changes);
        }
    }

    /// What the system told at the last failure.
    pub fn fault(&self) -> Option<io::Error>
        ensures { result ≡ self.now.wire.fault }
    {
        self.wire.fault()
    }
}

impl Wire for LoggedWire {
    ghost is_open = { λ w. IsSome w.wire.connection };

    ghost tells = { λ w. None };

    ghost faults = { λ w. w.wire.faults };

    fn listen(&mut self, address: &Name) -> Result<(), OutsideError> {
        self.wire.listen(address)
    }

    fn accept(&mut self) -> Result<(), OutsideError> {
        let told = self.wire.accept();
        if let (Some(log), Ok(())) = (&mut self.log, told) {
            let rt = log.rt;
            let (peer, came) = self.wire.peer();
            log.begin(Way::Accepted, Begun::at(&rt, came), peer);
        }
        self.tell_changes();
        told
    }

    fn dial(&mut self, address: &Name) -> Result<(), OutsideError> {
        let begun = match &self.log {
            Some(log) => Some(Begun::now(&log.rt)),
            None => None,
        };
        let told = self.wire.dial(address);
        if let (Some(log), Some(begun)) = (&mut self.log, begun) {
            match told {
                Ok(()) => log.begin(Way::Dialled, begun, self.wire.peer().0),
                Err(_) if self.wire.was_left_alone() => {}
                Err(_) => {
                    let fault = self.wire.fault();
                    log.telling.failure(&log.rt, &begun, address.text(), fault);
                }
            }
        }
        self.tell_changes();
        told
    }

    fn read(&mut self, into: &mut [u8]) -> Result<usize, Failed> {
        let told = self.wire.read(into);
        if let Some(connection) = connection_of(&mut self.log) {
            match told {
                Ok(count) => connection.came.carry(into.get(..count).unwrap_or(&[])),
                Err(_) => connection.fault = self.wire.fault(),
            }
        }
        told
    }

    fn write(&mut self, piece: &[u8]) -> Result<usize, OutsideError> {
        let told = self.wire.write(piece);
        if let Some(connection) = connection_of(&mut self.log) {
            match told {
                Ok(count) => connection.went.carry(piece.get(..count).unwrap_or(&[])),
                Err(_) => connection.fault = self.wire.fault(),
            }
        }
        told
    }

    fn hang_up(&mut self) {
        self.wire.hang_up();
        if let Some(log) = &mut self.log {
            log.end();
        }
        self.tell_changes();
    }
}

/// The connection that is told of.
fn connection_of(log: &mut Option<Log>) -> Option<&mut Logged> {
    match log {
        Some(log) => log.connection.as_mut(),
        None => None,
    }
}
