//! Wires in memory.

ghost use Rattle.std.specs.Prelude.{◌≡◌, IsSome, Some, [], map, option_map, slice_get};
ghost use Rattle.siri_outside.specs.Wires.{new_wire, texts};
ghost use Rattle.siri_outside.specs.InMemoryLines.{connection_of, with_failures};
ghost use Rattle.siri_outside.specs.InMemoryWires.{failing, in_memory};

use super::line::{FailingCalls, FailingConnection, Line};
use crate::{Failed, OutsideError, Wire};
use siri_base::Name;
use std::alloc::Global;

/// A wire with connections to come and to be dialled, each a text to be read. It fails where none is left.
pub struct InMemoryWire<'a> {
    to_accept: &'a [&'a [u8]],
    to_dial: &'a [&'a [u8]],
    line: Line<'a>,
}

impl Drop for InMemoryWire<'_> {
    fn drop(self) {
        let InMemoryWire {
            to_accept: _,
            to_dial: _,
            line: _,
        } = self;
    }
}

impl<'a> InMemoryWire<'a> {
    /// A wire with these connections to accept and these to dial. It takes no memory.
    pub fn new(alloc: Global, to_accept: &'a [&'a [u8]], to_dial: &'a [&'a [u8]]) -> Self
        ensures tells { ⟦<InMemoryWire<'a> as Wire>⟧.tells result ≡ Some (new_wire to_accept.now to_dial.now) }
        ensures faults { ⟦<InMemoryWire<'a> as Wire>⟧.faults result ≡ 0 }
    {
        let calls = FailingCalls {
            listen: &[],
            accept: &[],
            dial: &[],
        };
        InMemoryWire {
            to_accept,
            to_dial,
            line: Line::new(alloc, calls),
        }
    }

    /// The addresses that were listened at and dialled, in order, whether the call failed or not.
    pub fn addresses(&self) -> &[Name]
        ensures { option_map (λ wire. wire.named) (⟦<InMemoryWire<'a> as Wire>⟧.tells self.now) ≡ Some result.now }
    {
        self.line.addresses()
    }

    /// What was written to a connection, or `None` exactly where no such one came. They count from 0, in the order in
    /// which they came.
    pub fn written(&self, place: usize) -> Option<&[u8]>
        ensures { option_map (λ wire. slice_get (texts wire) place) (⟦<InMemoryWire<'a> as Wire>⟧.tells self.now) ≡ Some (option_map (λ text. text.now) result) }
    {
        self.line.written(place)
    }
}

impl<'a> Wire for InMemoryWire<'a> {
    ghost is_open = { λ w. IsSome w.line.wire.present };

    ghost tells = { λ w. Some (in_memory w) };

    ghost faults = { λ w. w.line.faults };

    fn listen(&mut self, address: &Name) -> Result<(), OutsideError> {
        self.line.listen(address)
    }

    fn accept(&mut self) -> Result<(), OutsideError> {
        let to_accept = self.to_accept;
        let Some(next) = to_accept.first() else {
            return self.line.accept(None);
        };
        self.line.accept(Some(FailingConnection::of(next)))?;
        self.to_accept = &to_accept[1..];
        Ok(())
    }

    fn dial(&mut self, address: &Name) -> Result<(), OutsideError> {
        let to_dial = self.to_dial;
        let Some(next) = to_dial.first() else {
            return self.line.dial(address, None);
        };
        self.line.dial(address, Some(FailingConnection::of(next)))?;
        self.to_dial = &to_dial[1..];
        Ok(())
    }

    fn read(&mut self, into: &mut [u8]) -> Result<usize, Failed> {
        self.line.read(into)
    }

    fn write(&mut self, piece: &[u8]) -> Result<usize, OutsideError> {
        self.line.write(piece)
    }

    fn hang_up(&mut self) {
        self.line.hang_up();
    }
}

/// A wire with connections to come and to be dialled, and with failures that are named beforehand. It fails at those,
/// and where no connection is left.
pub struct FailingWire<'a> {
    to_accept: &'a [FailingConnection<'a>],
    to_dial: &'a [FailingConnection<'a>],
    line: Line<'a>,
}

impl Drop for FailingWire<'_> {
    fn drop(self) {
        let FailingWire {
            to_accept: _,
            to_dial: _,
            line: _,
        } = self;
    }
}

impl<'a> FailingWire<'a> {
    /// A wire with these connections to accept and these to dial, each with its failures, and with these failures of
    /// its calls. A call that fails so takes no connection. It takes no memory.
    pub fn new(
        alloc: Global,
        to_accept: &'a [FailingConnection<'a>],
        to_dial: &'a [FailingConnection<'a>],
        calls: FailingCalls<'a>,
    ) -> Self
        ensures tells { ⟦<FailingWire<'a> as Wire>⟧.tells result ≡ Some (with_failures calls.entry (map connection_of to_accept.now) (map connection_of to_dial.now)) }
        ensures faults { ⟦<FailingWire<'a> as Wire>⟧.faults result ≡ 0 }
    {
        FailingWire {
            to_accept,
            to_dial,
            line: Line::new(alloc, calls),
        }
    }

    /// The addresses that were listened at and dialled, in order, whether the call failed or not.
    pub fn addresses(&self) -> &[Name]
        ensures { option_map (λ wire. wire.named) (⟦<FailingWire<'a> as Wire>⟧.tells self.now) ≡ Some result.now }
    {
        self.line.addresses()
    }

    /// What was written to a connection, or `None` exactly where no such one came. They count from 0, in the order in
    /// which they came.
    pub fn written(&self, place: usize) -> Option<&[u8]>
        ensures { option_map (λ wire. slice_get (texts wire) place) (⟦<FailingWire<'a> as Wire>⟧.tells self.now) ≡ Some (option_map (λ text. text.now) result) }
    {
        self.line.written(place)
    }
}

impl<'a> Wire for FailingWire<'a> {
    ghost is_open = { λ w. IsSome w.line.wire.present };

    ghost tells = { λ w. Some (failing w) };

    ghost faults = { λ w. w.line.faults };

    fn listen(&mut self, address: &Name) -> Result<(), OutsideError> {
        self.line.listen(address)
    }

    fn accept(&mut self) -> Result<(), OutsideError> {
        let to_accept = self.to_accept;
        let Some(next) = to_accept.first() else {
            return self.line.accept(None);
        };
        self.line.accept(Some(*next))?;
        self.to_accept = &to_accept[1..];
        Ok(())
    }

    fn dial(&mut self, address: &Name) -> Result<(), OutsideError> {
        let to_dial = self.to_dial;
        let Some(next) = to_dial.first() else {
            return self.line.dial(address, None);
        };
        self.line.dial(address, Some(*next))?;
        self.to_dial = &to_dial[1..];
        Ok(())
    }

    fn read(&mut self, into: &mut [u8]) -> Result<usize, Failed> {
        self.line.read(into)
    }

    fn write(&mut self, piece: &[u8]) -> Result<usize, OutsideError> {
        self.line.write(piece)
    }

    fn hang_up(&mut self) {
        self.line.hang_up();
    }
}
