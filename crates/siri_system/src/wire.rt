//! Connections over TCP.

ghost use Rattle.std.specs.Prelude.{◌≡◌, ◌≤◌, None, IsSome};
ghost use Rattle.siri_outside.specs.Causes.{Rose};

use crate::beside::{Beside, is_left_alone};
use crate::connection::{Connection, Whose};
use crate::gone::Change;
use siri_base::Name;
use siri_outside::{Failed, OutsideError, Wire};
use std::io;
use std::io::ErrorKind;
use std::net::SocketAddr;
use std::time::Instant;

/// One connection at a time over TCP, and what goes on beside it: clients that come are read side by side until one has
/// its turn, and answers go out as they are taken. How long this end waits for whom is said in `connection`, `door` and
/// `beside`; to accept waits for as long as none comes.
///
/// An address that cost time and didn't answer is left alone for a while: to dial it fails at once then, and counts as
/// any failure does.
#[derive(Drop)]
pub struct TcpWire {
    rt: HostRuntime,
    beside: Option<Beside>,
    connection: Option<Connection>,
    fault: Option<io::Error>,
    faults: u64,
}

impl TcpWire {
    /// A wire with no connection, which listens nowhere.
    pub fn new(rt: HostRuntime) -> TcpWire
        ensures faults { ⟦<TcpWire as Wire>⟧.faults result ≡ 0 }
    {
        TcpWire {
            rt,
            beside: None,
            connection: None,
            fault: None,
            faults: 0,
        }
    }

    /// What the system told at the last failure.
    pub fn fault(&self) -> Option<io::Error>
        ensures { result ≡ self.now.fault }
    {
        self.fault
    }

    /// The peer of the connection that is there, where it is known, and when that connection came or began to be made.
    pub(crate) fn peer(&self) -> (Option<SocketAddr>, Option<Instant>) {
        match &self.connection {
            Some(connection) => (connection.peer, Some(connection.begun)),
            None => (None, None),
        }
    }

    /// Whether the last failure was that an address is left alone.
    pub(crate) fn was_left_alone(&self) -> bool {
        match &self.fault {
            Some(fault) => is_left_alone(fault),
            None => false,
        }
    }

    /// What changed of addresses since this was asked last.
    pub(crate) fn take_changes(&mut self) -> Option<Vec<Change>>
        ensures faults { self.new.faults ≡ self.old.faults }
        ensures connection { self.new.connection ≡ self.old.connection }
        ensures fault { self.new.fault ≡ self.old.fault }
    {
        match &mut self.beside {
            Some(beside) => Some(beside.take_changes()),
            None => None,
        }
    }

    /// Counts a failure, and keeps what the system told.
    fn failed(&mut self, fault: io::Error)
        ensures later { self.old.faults ≤ self.new.faults }
        ensures rose { Rose self.old.faults self.new.faults }
        ensures connection { self.new.connection ≡ self.old.connection }
    {
        self.fault = Some(fault);
        self.faults = self.faults.saturating_add(1);
    }
}

/// What goes on beside a connection, which begins where it is first asked for.
fn beside_of<'a>(rt: &HostRuntime, beside: &'a mut Option<Beside>) -> io::Result<&'a mut Beside> {
    if beside.is_none() {
        *beside = Some(Beside::new(rt)?);
    }
    beside.as_mut().ok_or(not_connected())
}

/// What a call tells where no connection is there.
fn not_connected() -> io::Error {
    io::Error::from(ErrorKind::NotConnected)
}

/// A call of a connection failed: the address that it was made to didn't answer.
fn note_failure(
    rt: &HostRuntime,
    beside: &mut Option<Beside>,
    connection: &mut Connection,
    error: &io::Error,
) {
    let was_late = connection.is_late;
    connection.has_failed = true;
    connection.is_late = error.kind() == ErrorKind::TimedOut;
    match (&connection.whose, beside) {
        // (what becomes of one that is tried and late is decided beside)
        (Whose::Tried(_), _) if connection.is_late => {}
        (Whose::Ours(address) | Whose::Tried(address), Some(beside)) if !was_late => {
            beside.failed(rt, address, connection.begun);
        }
        _ => {}
    }
}

impl Wire for TcpWire {
    ghost is_open = { λ w. IsSome w.connection };

    ghost tells = { λ w. None };

    ghost faults = { λ w. w.faults };

    fn listen(&mut self, address: &Name) -> Result<(), OutsideError> {
        let told = match beside_of(&self.rt, &mut self.beside) {
            Ok(beside) => beside.listen(&self.rt, address.text()),
            Err(error) => Err(error),
        };
        match told {
            Ok(()) => Ok(()),
            Err(error) => {
                self.failed(error);
                Err(OutsideError::Failed)
            }
        }
    }

    fn accept(&mut self) -> Result<(), OutsideError> {
        let made = match beside_of(&self.rt, &mut self.beside) {
            Ok(beside) => beside.accept(&self.rt),
            Err(error) => Err(error),
        };
        match made {
            Ok(connection) => {
                self.connection = Some(connection);
                Ok(())
            }
            Err(error) => {
                self.failed(error);
                Err(OutsideError::Failed)
            }
        }
    }

    fn dial(&mut self, address: &Name) -> Result<(), OutsideError> {
        let made = match beside_of(&self.rt, &mut self.beside) {
            Ok(beside) => beside.dial(&self.rt, address),
            Err(error) => Err(error),
        };
        match made {
            Ok(connection) => {
                self.connection = Some(connection);
                Ok(())
            }
            Err(error) => {
                self.failed(error);
                Err(OutsideError::Failed)
            }
        }
    }

    fn read(&mut self, into: &mut [u8]) -> Result<usize, Failed> {
        let told = match (&mut self.connection, &mut self.beside) {
            (Some(connection), Some(beside)) => connection.read(&self.rt, beside, into),
            _ => Err(not_connected()),
        };
        match told {
            Ok(count) => Ok(count),
            Err(error) => {
                if let Some(connection) = &mut self.connection {
                    note_failure(&self.rt, &mut self.beside, connection, &error);
                }
                self.failed(error);
                Err(Failed)
            }
        }
    }

    fn write(&mut self, piece: &[u8]) -> Result<usize, OutsideError> {
        let told = match (&mut self.connection, &mut self.beside) {
            (Some(connection), Some(beside)) => connection.write(&self.rt, beside, piece),
            _ => Err(not_connected()),
        };
        match told {
            Ok(count) => Ok(count),
            Err(error) => {
                if let Some(connection) = &mut self.connection {
                    note_failure(&self.rt, &mut self.beside, connection, &error);
                }
                self.failed(error);
                Err(OutsideError::Failed)
            }
        }
    }

    fn hang_up(&mut self) {
        if let (Some(connection), Some(beside)) = (self.connection.take(), &mut self.beside) {
            beside.end(&self.rt, connection);
        }
    }
}
