//! The connections that wait for their turn.

ghost use Rattle.std.specs.Prelude.{◌≡◌, ◌+◌, [], IfOk, IfSome, IfNone, OnErr, length, nat_le, nat_lt, false, MatchOption};
ghost use Rattle.siri_doors.specs.Decisions.{bytes_in, comes, decides, held, opens, step, waits_in, where_it_waits};
ghost use Rattle.siri_doors.specs.Waiting.{Becomes, IsPlaceOf};

use crate::gathered::Gathered;
use crate::outcome::Outcome;
use crate::{Event, Patience};
use siri_base::OutOfMemory;
use std::alloc::Global;
use std::marker::Model;

/// How many connections wait at most.
const MOST_WAITING: usize = 256;

/// How many bytes wait at most, of all connections.
const MOST_BYTES: usize = 67_108_864;

/// The connections that wait for their turn, in the order in which they came.
pub(crate) struct Waiting {
    list: Vec<Gathered>,
}

impl Drop for Waiting {
    fn drop(self) {
        let Waiting { list: _ } = self;
    }
}

impl Model for Waiting {
    ghost use Rattle.std.specs.Prelude.{List};
    ghost use Rattle.siri_doors.specs.Gathered.{Asking};

    ghost Value = { List Asking };

    ghost view = { λ w. w.list.items };
}

impl Waiting {
    /// Nobody waits. It takes no memory.
    pub(crate) fn new(alloc: Global) -> Self
        ensures { result ≡ [] }
    {
        Waiting {
            list: Vec::new(alloc),
        }
    }

    /// What an event does. After want of memory all wait as before.
    pub(crate) fn happens<P: Patience>(
        &mut self,
        patience: &P,
        event: &Event,
    ) -> Result<Outcome, OutOfMemory>
        ensures ok { IfOk result (λ outcome. Becomes (step (P.whole patience.now) self.old event.now) self.new outcome) }
        ensures err { OnErr result (self.new ≡ self.old) }
    {
        match event {
            Event::Opened(slot) => self.open(*slot),
            Event::Came(slot, piece) => self.come(patience, *slot, piece.slice()),
            Event::Ended(slot) | Event::Late(slot) => Ok(self.end(*slot)),
        }
    }

    /// A connection opened.
    fn open(&mut self, slot: usize) -> Result<Outcome, OutOfMemory>
        ensures ok { IfOk result (λ outcome. Becomes (opens slot self.old) self.new outcome) }
        ensures err { OnErr result (self.new ≡ self.old) }
    {
        if self.list.len() >= MOST_WAITING {
            return Ok(Outcome::Refuses(slot));
        }
        let alloc = *self.list.allocator();
        self.list.push(Gathered::new(alloc, slot))?;
        Ok(Outcome::Waits)
    }

    /// The place of the first connection in a slot, or `None` exactly where none waits in it.
    fn place_of(&self, slot: usize) -> Option<usize>
        ensures { MatchOption result (waits_in slot self.now ≡ false) (IsPlaceOf slot self.now) }
    {
        for (place, gathered) in self.list.iter().enumerate() {
            if gathered.is_in(slot) {
                return Some(place);
            }
        }
        None
    }

    /// Whether so many more bytes may wait.
    fn has_room(&self, more: usize) -> bool
        ensures { result ≡ nat_le (held self.now + more) 67108864 }
    {
        let Some(mut left) = MOST_BYTES.checked_sub(more) else {
            return false;
        };
        for gathered in &self.list {
            let Some(rest) = left.checked_sub(gathered.bytes().len()) else {
                return false;
            };
            left = rest;
        }
        true
    }

    /// Bytes came by the connection in a slot.
    fn come<P: Patience>(
        &mut self,
        patience: &P,
        slot: usize,
        piece: &[u8],
    ) -> Result<Outcome, OutOfMemory>
        ensures ok { IfOk result (λ outcome. Becomes (where_it_waits slot self.old (comes (P.whole patience.now) slot piece.now self.old)) self.new outcome) }
        ensures err { OnErr result (self.new ≡ self.old) }
    {
        let Some(place) = self.place_of(slot) else {
            return Ok(Outcome::Waits);
        };
        if !self.has_room(piece.len()) {
            drop(self.list.remove(place));
            return Ok(Outcome::Refuses(slot));
        }
        let gathered = &mut self.list[place];
        gathered.append(piece)?;
        if patience.is_whole(gathered.bytes()) {
            return Ok(Outcome::Decides(self.list.remove(place)));
        }
        Ok(Outcome::Waits)
    }

    /// The connection in a slot ended, or its time is over.
    fn end(&mut self, slot: usize) -> Outcome
        ensures { Becomes (where_it_waits slot self.old (decides slot (bytes_in slot self.old) self.old)) self.new result }
    {
        match self.place_of(slot) {
            Some(place) => Outcome::Decides(self.list.remove(place)),
            None => Outcome::Waits,
        }
    }
}
