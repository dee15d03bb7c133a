//! Sources in memory.

ghost use Rattle.std.specs.Prelude.{◌≡◌, Some, []};

use super::failures::Failures;
use crate::{Failed, Source};

/// A source that never fails.
#[derive(Drop)]
pub struct InMemorySource<'a> {
    bytes: &'a [u8],
}

impl<'a> InMemorySource<'a> {
    /// A source of these bytes.
    pub fn new(bytes: &'a [u8]) -> Self
        ensures left { ⟦<InMemorySource<'a> as Source>⟧.left result ≡ Some bytes.now }
        ensures fails { ⟦<InMemorySource<'a> as Source>⟧.fails result ≡ Some [] }
        ensures faults { ⟦<InMemorySource<'a> as Source>⟧.faults result ≡ 0 }
    {
        InMemorySource { bytes }
    }
}

impl<'a> Source for InMemorySource<'a> {
    ghost left = { λ s. Some s.bytes.now };

    ghost fails = { λ s. Some [] };

    ghost faults = { λ s. 0 };

    fn read(&mut self, into: &mut [u8]) -> Result<usize, Failed> {
        let count = into.len().min(self.bytes.len());
        let (now, later) = self.bytes.split_at(count);
        into[..count].copy_from_slice(now);
        self.bytes = later;
        Ok(count)
    }
}

/// A source that fails at places that are named beforehand. A read goes no further than the next of them, and the first
/// read that begins there, into some bytes, fails.
#[derive(Drop)]
pub struct FailingSource<'a> {
    bytes: &'a [u8],
    failures: Failures<'a>,
    faults: u64,
}

impl<'a> FailingSource<'a> {
    /// A source of these bytes with these failures, each by how many bytes come before it, counted from the failure
    /// before it: `[3, 0, 2]` fails twice after three bytes, and once more after two others.
    pub fn new(bytes: &'a [u8], failures: &'a [usize]) -> Self
        ensures left { ⟦<FailingSource<'a> as Source>⟧.left result ≡ Some bytes.now }
        ensures fails { ⟦<FailingSource<'a> as Source>⟧.fails result ≡ Some failures.now }
        ensures faults { ⟦<FailingSource<'a> as Source>⟧.faults result ≡ 0 }
    {
        FailingSource {
            bytes,
            failures: Failures::new(failures),
            faults: 0,
        }
    }
}

impl<'a> Source for FailingSource<'a> {
    ghost left = { λ s. Some s.bytes.now };

    ghost fails = { λ s. Some s.failures };

    ghost faults = { λ s. s.faults };

    fn read(&mut self, into: &mut [u8]) -> Result<usize, Failed> {
        if self.failures.comes(into.len()) {
            self.faults = self.faults.saturating_add(1);
            return Err(Failed);
        }
        let count = self.failures.room(into.len().min(self.bytes.len()));
        self.failures.pass(count);
        let (now, later) = self.bytes.split_at(count);
        into[..count].copy_from_slice(now);
        self.bytes = later;
        Ok(count)
    }
}
