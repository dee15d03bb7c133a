//! Sinks in memory.

ghost use Rattle.std.specs.Prelude.{◌≡◌, Some, []};

use super::failures::Failures;
use crate::{OutsideError, Sink};
use std::alloc::Global;

/// A sink that never fails.
pub struct InMemorySink {
    bytes: Vec<u8>,
}

impl Drop for InMemorySink {
    fn drop(self) {
        let InMemorySink { bytes: _ } = self;
    }
}

impl InMemorySink {
    /// A sink that holds nothing. It takes no memory.
    pub fn new(alloc: Global) -> Self
        ensures held { ⟦<InMemorySink as Sink>⟧.held result ≡ Some [] }
        ensures fails { ⟦<InMemorySink as Sink>⟧.fails result ≡ Some [] }
        ensures faults { ⟦<InMemorySink as Sink>⟧.faults result ≡ 0 }
    {
        InMemorySink {
            bytes: Vec::new(alloc),
        }
    }

    /// The bytes that it holds.
    pub fn bytes(&self) -> &[u8]
        ensures { ⟦<InMemorySink as Sink>⟧.held self.now ≡ Some result.now }
    {
        &self.bytes
    }
}

impl Sink for InMemorySink {
    ghost held = { λ s. Some s.bytes.items };

    ghost fails = { λ s. Some [] };

    ghost faults = { λ s. 0 };

    fn write(&mut self, piece: &[u8]) -> Result<usize, OutsideError> {
        self.bytes.extend_from_slice(piece)?;
        Ok(piece.len())
    }
}

/// A sink that fails at places that are named beforehand. A write goes no further than the next of them, and the first
/// write that begins there, of some bytes, fails.
pub struct FailingSink<'a> {
    bytes: Vec<u8>,
    failures: Failures<'a>,
    faults: u64,
}

impl Drop for FailingSink<'_> {
    fn drop(self) {
        let FailingSink {
            bytes: _,
            failures: _,
            faults: _,
        } = self;
    }
}

impl<'a> FailingSink<'a> {
    /// A sink that holds nothing, with these failures, each by how many bytes come before it, counted from the failure
    /// before it. It takes no memory.
    pub fn new(alloc: Global, failures: &'a [usize]) -> Self
        ensures held { ⟦<FailingSink<'a> as Sink>⟧.held result ≡ Some [] }
        ensures fails { ⟦<FailingSink<'a> as Sink>⟧.fails result ≡ Some failures.now }
        ensures faults { ⟦<FailingSink<'a> as Sink>⟧.faults result ≡ 0 }
    {
        FailingSink {
            bytes: Vec::new(alloc),
            failures: Failures::new(failures),
            faults: 0,
        }
    }

    /// The bytes that it holds.
    pub fn bytes(&self) -> &[u8]
        ensures { ⟦<FailingSink<'a> as Sink>⟧.held self.now ≡ Some result.now }
    {
        &self.bytes
    }
}

impl<'a> Sink for FailingSink<'a> {
    ghost held = { λ s. Some s.bytes.items };

    ghost fails = { λ s. Some s.failures };

    ghost faults = { λ s. s.faults };

    fn write(&mut self, piece: &[u8]) -> Result<usize, OutsideError> {
        if self.failures.comes(piece.len()) {
            self.faults = self.faults.saturating_add(1);
            return Err(OutsideError::Failed);
        }
        let count = self.failures.room(piece.len());
        self.bytes.extend_from_slice(&piece[..count])?;
        self.failures.pass(count);
        Ok(count)
    }
}
