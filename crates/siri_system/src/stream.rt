//! A connection of the system whose calls don't wait.

ghost use Rattle.std.specs.Io.{ReadsAtMost, WritesAtMost};

use mio::net::TcpStream;
use mio::{Interest, Registry, Token};
use std::io;
use std::io::{ErrorKind, Read, Write};
use std::net::Shutdown;

/// A connection of the system whose calls answer `WouldBlock` where they would wait, and the token under which it is
/// told that it would no longer.
#[derive(Drop)]
pub(crate) struct Stream {
    tcp: TcpStream,
    token: Token,
    watched: Option<Interest>,
}

/// Whether a call would have waited.
pub(crate) fn would_wait(error: &io::Error) -> bool {
    error.kind() == ErrorKind::WouldBlock
}

impl Stream {
    /// A connection that is told of nowhere yet.
    pub(crate) fn new(tcp: TcpStream, token: Token) -> Stream {
        Stream {
            tcp,
            token,
            watched: None,
        }
    }

    /// Whether it is told under this token.
    pub(crate) fn is_at(&self, token: Token) -> bool {
        self.token == token
    }

    /// From now on it is told when it can be read or written, as is asked.
    pub(crate) fn watch(&mut self, registry: &Registry, interest: Interest) -> io::Result<()> {
        if self.watched == Some(interest) {
            return Ok(());
        }
        match self.watched {
            None => registry.register(&mut self.tcp, self.token, interest)?,
            Some(_) => registry.reregister(&mut self.tcp, self.token, interest)?,
        }
        self.watched = Some(interest);
        Ok(())
    }

    /// Whether a connection that is being made is there, or what the system told of its failure.
    pub(crate) fn is_made(&self) -> io::Result<bool> {
        if let Some(error) = self.tcp.take_error()? {
            return Err(error);
        }
        match self.tcp.peer_addr() {
            Ok(_) => Ok(true),
            Err(error) if error.kind() == ErrorKind::NotConnected => Ok(false),
            Err(error) => Err(error),
        }
    }

    /// Gives the next bytes that came. 0 into a buffer that isn't empty is the end.
    pub(crate) fn read(&mut self, into: &mut [u8]) -> io::Result<usize>
        ensures bound { ReadsAtMost result into.new }
    {
        self.tcp.read(into)
    }

    /// Sends a front of the piece.
    pub(crate) fn write(&mut self, piece: &[u8]) -> io::Result<usize>
        ensures bound { WritesAtMost result piece.now }
    {
        self.tcp.write(piece)
    }

    /// Ends this side.
    pub(crate) fn end(&self) -> io::Result<()> {
        self.tcp.shutdown(Shutdown::Write)
    }
}
