//! Room that is taken before it is needed.

ghost use Rattle.std.specs.Prelude.{◌≡◌, [], vec_capacity, IfOk};

use crate::entries::Entry;
use siri_base::OutOfMemory;
use std::alloc::Global;
use std::marker::Model;

/// Room for so many entries. Contracts see the number.
pub struct Room {
    entries: Vec<Entry>,
}

impl Drop for Room {
    fn drop(self) {
        let Room { entries: _ } = self;
    }
}

impl Model for Room {
    ghost use Rattle.std.specs.Prelude.{◌≡◌, ℕ, [], vec_capacity};

    ghost Value = { ℕ };

    ghost view = { λ r. vec_capacity r.entries };

    ghost invariant = { λ r. r.entries.items ≡ [] };
}

impl Room {
    /// Room for this number of entries.
    pub fn new(alloc: Global, number: usize) -> Result<Room, OutOfMemory>
        ensures { IfOk result (λ room. room ≡ number) }
    {
        Ok(Room {
            entries: Vec::with_capacity(alloc, number)?,
        })
    }

    /// No entries yet, with room for that number.
    pub(crate) fn into_entries(self) -> Vec<Entry>
        ensures items { result.items ≡ [] }
        ensures room { vec_capacity result ≡ self }
    {
        let Room { entries } = self;
        entries
    }
}
