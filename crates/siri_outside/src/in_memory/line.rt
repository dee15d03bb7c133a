//! What the wires in memory share: one connection at a time, whichever list it comes from.

ghost use Rattle.std.specs.Prelude.{◌≡◌, ◌<◌, ◌≤◌, [], IfOk, IsSome, OnErr, OnOk, length, option_map, slice_get};
ghost use Rattle.std.specs.Io.{ReadsAtMost, WritesAtMost};
ghost use Rattle.siri_outside.specs.Causes.{CountsFailures, HasCause, HasOutsideCause, Rose};
ghost use Rattle.siri_outside.specs.Wires.{Listens, Reads, Writes, hung_up, texts, unfailing, with_connection};
ghost use Rattle.siri_outside.specs.InMemoryLines.{AcceptsNext, DialsNext, connection_of, named, with_failures};

use super::failures::Failures;
use super::sink::FailingSink;
use super::source::FailingSource;
use crate::{Failed, OutsideError, Sink, Source};
use siri_base::{Copies, Name, OutOfMemory};
use std::alloc::Global;
use std::marker::Model;

/// A connection of a wire in memory: the bytes that come by it, and its failures of reading and of writing, each by how
/// many bytes pass before it, counted from the failure before it.
#[derive(Clone, Copy)]
pub struct FailingConnection<'a> {
    pub input: &'a [u8],
    pub read_fails: &'a [usize],
    pub write_fails: &'a [usize],
}

impl<'a> FailingConnection<'a> {
    /// A connection that brings these bytes and never fails.
    pub fn of(input: &'a [u8]) -> Self
        ensures { connection_of result ≡ unfailing input.now }
    {
        FailingConnection {
            input,
            read_fails: &[],
            write_fails: &[],
        }
    }
}

/// The failures of a wire's calls, each by how many calls of that name come before it, counted from the failure before
/// it.
#[derive(Clone, Copy)]
pub struct FailingCalls<'a> {
    pub listen: &'a [usize],
    pub accept: &'a [usize],
    pub dial: &'a [usize],
}

/// A connection that was accepted or dialled.
#[derive(Drop)]
struct Taken<'a> {
    /// What comes by it; `None` where it was hung up.
    source: Option<FailingSource<'a>>,
    /// What went by it.
    sink: FailingSink<'a>,
}

/// A wire without connections of its own: each is handed to the call that takes it.
pub(crate) struct Line<'a> {
    last: Option<Taken<'a>>,
    /// The connections before the last, which are over: one that wasn't hung up was replaced.
    before: Vec<Taken<'a>>,
    /// The addresses that were listened at and dialled, in order.
    addresses: Vec<Name>,
    listen_fails: Failures<'a>,
    accept_fails: Failures<'a>,
    dial_fails: Failures<'a>,
    faults: u64,
    alloc: Global,
}

impl Drop for Line<'_> {
    fn drop(self) {
        let Line {
            last: _,
            before: _,
            addresses: _,
            listen_fails: _,
            accept_fails: _,
            dial_fails: _,
            faults: _,
            alloc: _,
        } = self;
    }
}

impl<'a> Model for Line<'a> {
    ghost use Rattle.siri_outside.specs.InMemoryLines.{LineState, line_wire};

    ghost Value = { LineState };

    ghost view = { λ line. record { wire = line_wire line.last line.before.items line.addresses.items line.listen_fails line.accept_fails line.dial_fails; faults = line.faults } };
}

impl<'a> Line<'a> {
    /// A line over which nothing came yet, with these failures. It takes no memory.
    pub(crate) fn new(alloc: Global, calls: FailingCalls<'a>) -> Self
        ensures { result ≡ record { wire = with_failures calls.entry [] []; faults = 0 } }
    {
        Line {
            last: None,
            before: Vec::new(alloc),
            addresses: Vec::new(alloc),
            listen_fails: Failures::new(calls.listen),
            accept_fails: Failures::new(calls.accept),
            dial_fails: Failures::new(calls.dial),
            faults: 0,
            alloc,
        }
    }

    /// The addresses that were listened at and dialled, in order.
    pub(crate) fn addresses(&self) -> &[Name]
        ensures { result.now ≡ self.now.wire.named }
    {
        &self.addresses
    }

    /// What was written to a connection, or `None` exactly where no such one came.
    pub(crate) fn written(&self, place: usize) -> Option<&[u8]>
        ensures { option_map (λ text. text.now) result ≡ slice_get (texts self.now.wire) place }
    {
        if let Some(taken) = self.before.get(place) {
            return Some(taken.sink.bytes());
        }
        match &self.last {
            Some(last) if place == self.before.len() => Some(last.sink.bytes()),
            _ => None,
        }
    }

    /// Listens at an address.
    pub(crate) fn listen(&mut self, address: &Name) -> Result<(), OutsideError>
        ensures told { Listens address.now self.old.wire self.new.wire result }
        ensures cause { HasOutsideCause self.old.faults self.new.faults result }
        ensures counted { CountsFailures self.old.faults self.new.faults result }
    {
        self.name(address)?;
        if self.listen_fails.call() {
            return Err(self.fail());
        }
        Ok(())
    }

    /// Takes this connection, where there is one.
    pub(crate) fn accept(&mut self, next: Option<FailingConnection<'a>>) -> Result<(), OutsideError>
        ensures open { OnOk result (IsSome self.new.wire.present) }
        ensures told { AcceptsNext (option_map connection_of next.entry) self.old.wire self.new.wire result }
        ensures cause { HasOutsideCause self.old.faults self.new.faults result }
        ensures counted { CountsFailures self.old.faults self.new.faults result }
    {
        let connection = match next {
            Some(connection) if !self.accept_fails.is_due() => connection,
            _ => {
                self.accept_fails.count();
                return Err(self.fail());
            }
        };
        self.open(connection)?;
        self.accept_fails.count();
        Ok(())
    }

    /// Names an address, and takes this connection, where there is one.
    pub(crate) fn dial(
        &mut self,
        address: &Name,
        next: Option<FailingConnection<'a>>,
    ) -> Result<(), OutsideError>
        ensures open { OnOk result (IsSome self.new.wire.present) }
        ensures told { DialsNext (option_map connection_of next.entry) address.now self.old.wire self.new.wire result }
        ensures cause { HasOutsideCause self.old.faults self.new.faults result }
        ensures counted { CountsFailures self.old.faults self.new.faults result }
    {
        self.name(address)?;
        let connection = match next {
            Some(connection) if !self.dial_fails.is_due() => connection,
            _ => {
                self.dial_fails.count();
                return Err(self.fail());
            }
        };
        if self.open(connection).is_err() {
            self.addresses.pop();
            return Err(OutsideError::OutOfMemory);
        }
        self.dial_fails.count();
        Ok(())
    }

    /// Gives the next bytes of the connection that is there.
    pub(crate) fn read(&mut self, into: &mut [u8]) -> Result<usize, Failed>
        requires { IsSome self.old.wire.present }
        ensures open { IsSome self.new.wire.present }
        ensures bound { ReadsAtMost result into.new }
        ensures told { Reads self.old.wire self.new.wire result into.new }
        ensures cause { HasCause self.old.faults self.new.faults result }
        ensures counted { OnOk result (self.new.faults ≡ self.old.faults) }
    {
        let Some(Taken { source, sink }) = self.last.take() else {
            return Err(Failed);
        };
        let Some(mut source) = source else {
            return Err(Failed);
        };
        let read = source.read(into);
        self.last = Some(Taken {
            source: Some(source),
            sink,
        });
        if read.is_err() {
            self.faults = self.faults.saturating_add(1);
        }
        read
    }

    /// Appends a front of the piece to the connection that is there.
    pub(crate) fn write(&mut self, piece: &[u8]) -> Result<usize, OutsideError>
        requires { IsSome self.old.wire.present }
        ensures open { IsSome self.new.wire.present }
        ensures bound { WritesAtMost result piece.now }
        ensures some { IfOk result (λ count. 0 < length piece.now → 0 < count) }
        ensures told { Writes self.old.wire self.new.wire result piece.now }
        ensures cause { HasOutsideCause self.old.faults self.new.faults result }
        ensures counted { CountsFailures self.old.faults self.new.faults result }
    {
        let Some(Taken { source, mut sink }) = self.last.take() else {
            return Err(OutsideError::Failed);
        };
        let written = sink.write(piece);
        self.last = Some(Taken { source, sink });
        if written == Err(OutsideError::Failed) {
            self.faults = self.faults.saturating_add(1);
        }
        written
    }

    /// Ends the connection, where one is there.
    pub(crate) fn hang_up(&mut self)
        ensures { self.new ≡ record self.old { wire = hung_up self.old.wire } }
    {
        if let Some(last) = &mut self.last {
            last.source = None;
        }
    }

    /// Keeps the address that a call named. After want of memory the line is as before.
    fn name(&mut self, address: &Name) -> Result<(), OutOfMemory>
        ensures ok { OnOk result (self.new ≡ record self.old { wire = named address.now self.old.wire }) }
        ensures err { OnErr result (self.new ≡ self.old) }
    {
        let address = address.copy()?;
        Ok(self.addresses.push(address)?)
    }

    /// The connection is there, in the place of the one before it. After want of memory the line is as before.
    fn open(&mut self, connection: FailingConnection<'a>) -> Result<(), OutOfMemory>
        ensures ok { OnOk result (self.new ≡ record self.old { wire = with_connection (connection_of connection.entry) self.old.wire }) }
        ensures err { OnErr result (self.new ≡ self.old) }
    {
        if let Some(last) = self.last.take() {
            if let Err(refused) = self.before.push(last) {
                self.last = Some(refused.value);
                return Err(OutOfMemory);
            }
        }
        self.last = Some(Taken {
            source: Some(FailingSource::new(connection.input, connection.read_fails)),
            sink: FailingSink::new(self.alloc, connection.write_fails),
        });
        Ok(())
    }

    /// The call fails.
    fn fail(&mut self) -> OutsideError
        ensures value { result ≡ OutsideError.Failed }
        ensures same { self.new ≡ record self.old { faults = self.new.faults } }
        ensures rose { Rose self.old.faults self.new.faults }
        ensures later { self.old.faults ≤ self.new.faults }
    {
        self.faults = self.faults.saturating_add(1);
        OutsideError::Failed
    }
}
