//! A connection that waits, and its bytes.

ghost use Rattle.std.specs.Prelude.{◌≡◌, ◌+◌, ◌^◌, ◌<◌, ◌++◌, [], drop, length, nat_eq, OnErr, OnOk};
ghost use Rattle.siri_doors.specs.Gathered.{with_piece};

use siri_base::OutOfMemory;
use std::alloc::Global;
use std::marker::Model;

/// A connection that waits or is decided: its slot, and the bytes that came by it so far.
pub(crate) struct Gathered {
    slot: usize,
    bytes: Vec<u8>,
}

impl Drop for Gathered {
    fn drop(self) {
        let Gathered { slot: _, bytes: _ } = self;
    }
}

impl Model for Gathered {
    ghost use Rattle.siri_doors.specs.Gathered.{Asking};

    ghost Value = { Asking };

    ghost view = { λ g. record { slot = g.slot; bytes = g.bytes.items } };
}

impl Gathered {
    /// Nothing came yet. It takes no memory.
    pub(crate) fn new(alloc: Global, slot: usize) -> Self
        ensures { result ≡ record { slot = slot; bytes = [] } }
    {
        Gathered {
            slot,
            bytes: Vec::new(alloc),
        }
    }

    /// Its slot.
    pub(crate) fn slot(&self) -> usize
        ensures { result ≡ self.now.slot }
    {
        self.slot
    }

    /// Whether it is in this slot.
    pub(crate) fn is_in(&self, slot: usize) -> bool
        ensures { result ≡ nat_eq self.now.slot slot }
    {
        self.slot == slot
    }

    /// What came by it.
    pub(crate) fn bytes(&self) -> &[u8]
        ensures { result.now ≡ self.now.bytes }
    {
        &self.bytes
    }

    /// What came behind so many bytes.
    pub(crate) fn rest(&self, given: usize) -> &[u8]
        ensures rest { result.now ≡ drop given self.now.bytes }
        ensures reach { given + length result.now < 2 ^ 64 }
    {
        if given > self.bytes.len() {
            return &[];
        }
        &self.bytes[given..]
    }

    /// More came. After want of memory it is as before.
    pub(crate) fn append(&mut self, piece: &[u8]) -> Result<(), OutOfMemory>
        ensures ok { OnOk result (self.new ≡ with_piece piece.now self.old) }
        ensures err { OnErr result (self.new ≡ self.old) }
    {
        Ok(self.bytes.extend_from_slice(piece)?)
    }
}
