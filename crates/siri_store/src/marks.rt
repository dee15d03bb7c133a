//! Which keys were marked since a number: a producer marks a key when an entry names it and when its item dies, and each
//! subscription keeps the number of its last look.
//!
//! ```text
//!     a key     -> mark  ---> one mark more, under the number that is kept; it takes no memory, where room was taken before
//!     a number  -> since ---> the keys that were marked under it or a later one, in order, each once
//! ```
//!
//! Stands on `siri_base` and `siri_records`. It knows no store and no subscription.
ghost use Rattle.std.specs.Prelude.{◌≡◌, ℕ, ◌+◌, ◌≤◌, ◌<◌, ◌^◌, ◌∷◌, ◌++◌, [], drop, map, filter, length, ltb, IfOk, OnOk};
ghost use Rattle.std.specs.VecDeque.{deque_capacity};
ghost use Rattle.siri_records.specs.KeyLists.{in_order};
ghost use Rattle.siri_store.specs.Marked.{keys_since, is_since, last_of_each, IsFew, IsLast, Rises, SameFrom, MarksTouch, unmarked};

use siri_base::{Copies, OutOfMemory};
use siri_records::SharedKey;
use std::alloc::Global;
use std::collections::{BTreeSet, VecDeque};
use std::marker::Model;

/// Marks in the order in which they were set, each under a number, and the number under which keys are marked now.
/// Contracts see the marks, that number, and for how many marks more there is room.
pub struct Marks {
    log: VecDeque<(u64, SharedKey)>,
    number: u64,
}

impl Drop for Marks {
    fn drop(self) {
        let Marks { log: _, number: _ } = self;
    }
}

impl Model for Marks {
    ghost use Rattle.std.specs.Prelude.{◌-◌, length};
    ghost use Rattle.std.specs.VecDeque.{deque_capacity};
    ghost use Rattle.siri_store.specs.Marked.{Marked, Rises};

    ghost Value = { Marked };

    ghost view = { λ m. record { log = m.log.items; number = m.number; room = deque_capacity m.log - length m.log.items } };

    ghost invariant = { λ m. Rises m.number m.log.items };
}

impl Marks {
    /// No key is marked, and there is room for none. It takes no memory.
    pub fn new(alloc: Global) -> Marks
        ensures { result ≡ unmarked }
    {
        Marks {
            log: VecDeque::from_vec(Vec::new(alloc)),
            number: 0,
        }
    }

    /// The number under which keys are marked now.
    pub fn number(&self) -> u64
        ensures { result ≡ self.now.number }
    {
        self.number
    }

    /// From now on keys are marked under the next number, under which none is yet. It takes no memory.
    pub fn turn(&mut self)
        requires { self.old.number + 1 < 2 ^ 64 }
        ensures turned { self.new ≡ record self.old { number = self.old.number + 1 } }
        ensures fresh { keys_since self.new.log self.new.number ≡ [] }
    {
        self.number += 1;
    }

    /// Takes the memory of so many marks more. Where there are more marks than that, it takes none before of each key
    /// the last mark stays alone, so then there are no more marks than keys that are marked. The same keys are marked
    /// from each number on, also after want of memory.
    pub fn reserve(&mut self, more: usize) -> Result<(), OutOfMemory>
        ensures ok { OnOk result (more ≤ self.new.room) }
        ensures risen { self.old.room ≤ self.new.room }
        ensures same { SameFrom 0 self.old self.new }
        ensures few { OnOk result (IsFew more self.old self.new) }
        ensures no_more { length self.new.log ≤ length self.old.log }
        ensures number { self.new.number ≡ self.old.number }
    {
        let held = self.log.len();
        if self.log.capacity() - held >= more {
            return Ok(());
        }
        if held <= more {
            self.log.reserve(more.saturating_add(held))?;
            return Ok(());
        }
        let last = self.last(more)?;
        self.put(last);
        Ok(())
    }

    /// Marks a key, for which there is room. It takes no memory.
    pub fn mark(&mut self, key: SharedKey)
        requires { 1 ≤ self.old.room }
        ensures mark { self.new ≡ record self.old { log = self.old.log ++ (self.old.number, key) ∷ []; room = self.new.room } }
        ensures room { self.old.room ≤ self.new.room + 1 }
    {
        self.log.push_back_reserved((self.number, key));
    }

    /// The keys that were marked under a number or a later one, in order, each once.
    pub fn since(&self, alloc: Global, number: u64) -> Result<BTreeSet<SharedKey>, OutOfMemory>
        ensures { IfOk result (λ keys. keys.keys ≡ keys_since self.now.log number) }
    {
        let first = first_since(&self.log, self.number, number);
        keys_from(alloc, &self.log, first)
    }

    /// How many marks there are.
    pub fn len(&self) -> usize
        ensures { result ≡ length self.now.log }
    {
        self.log.len()
    }

    /// How many marks were set under a number or a later one.
    pub fn len_since(&self, number: u64) -> usize
        ensures { result ≡ length (filter (is_since number) self.now.log) }
    {
        let first = first_since(&self.log, self.number, number);
        self.log.len() - first
    }

    /// Of each key the last mark, with room for so many more: the same keys are marked from each number on, each by one
    /// mark.
    pub fn last(&self, more: usize) -> Result<Marks, OutOfMemory>
        ensures { IfOk result (IsLast self.now more) }
    {
        let mut log = last_marks(*self.log.allocator(), &self.log)?;
        log.reserve(more.saturating_add(log.len()))?;
        Ok(Marks {
            log,
            number: self.number,
        })
    }

    /// These marks are its own from now on, in the place of those that it has; none of them is under a later number than
    /// keys are marked under now. It takes no memory.
    pub fn put(&mut self, marks: Marks)
        requires { marks.number ≤ self.old.number }
        ensures { self.new ≡ record self.old { log = marks.log; room = marks.room } }
    {
        let Marks { log, number: _ } = marks;
        self.log = log;
    }

    /// Marks before a number go, since they are asked for no more. It takes no memory.
    pub fn forget(&mut self, number: u64)
        ensures log { self.new.log ≡ filter (is_since number) self.old.log }
        ensures same { SameFrom number self.old self.new }
        ensures fresh { (n : ℕ) → keys_since self.old.log n ≡ [] → keys_since self.new.log n ≡ [] }
        ensures number { self.new.number ≡ self.old.number }
        ensures room { self.old.room ≤ self.new.room }
    {
        for _ in 0..first_since(&self.log, self.number, number) {
            self.log.pop_front();
        }
    }
}

/// Of each key the last mark, in their order.
fn last_marks(
    alloc: Global,
    log: &VecDeque<(u64, SharedKey)>,
) -> Result<VecDeque<(u64, SharedKey)>, OutOfMemory>
    ensures { IfOk result (λ last. last.items ≡ last_of_each log.now.items) }
{
    let mut seen = BTreeSet::new(alloc);
    let mut last = VecDeque::new(alloc);
    let mut place = log.len();
    while place > 0 {
        place -= 1;
        let mark = &log[place];
        let key = copy_key(mark)?;
        if seen.insert(copy_key(mark)?)? {
            last.push_front((mark.0, key))?;
        }
    }
    Ok(last)
}

fn copy_key(mark: &(u64, SharedKey)) -> Result<SharedKey, OutOfMemory>
    ensures { IfOk result (λ key. key ≡ mark.now.1) }
{
    mark.1.copy()
}

/// The keys of the marks from a place on, in order, each once.
fn keys_from(
    alloc: Global,
    log: &VecDeque<(u64, SharedKey)>,
    first: usize,
) -> Result<BTreeSet<SharedKey>, OutOfMemory>
    requires { first ≤ length log.now.items }
    ensures { IfOk result (λ keys. keys.keys ≡ in_order (map (λ mark. mark.1) (drop first log.now.items))) }
{
    let mut keys = BTreeSet::new(alloc);
    let mut place = first;
    while place < log.len() {
        let key = copy_key(&log[place])?;
        keys.insert(key)?;
        place += 1;
    }
    Ok(keys)
}

/// The place of the first mark under a number or a later one.
fn first_since(log: &VecDeque<(u64, SharedKey)>, top: u64, number: u64) -> usize
    requires { Rises top log.now.items }
    ensures marks { drop result log.now.items ≡ filter (is_since number) log.now.items }
    ensures within { result ≤ length log.now.items }
{
    log.partition_point(
        |mark: &(u64, SharedKey)| -> bool
            ensures { result ≡ ltb mark.now.0 number }
        { mark.0 < number },
    )
}

/// A law: a mark touches its key from each number on that isn't after the mark's, and no other key; under a new number
/// there are no marks yet.
pub fn marks_touch_their_keys()
    ensures { MarksTouch }
{}
