//! The walk over the items that have an edge in a range.

ghost use Rattle.std.specs.Iterator.{at_most};
ghost use Rattle.std.specs.Prelude.{◌≡◌, ◌+◌, ◌<◌, ◌≤◌, [], ◌∷◌, length, not, pos, option_map, MatchOption, IfOk, OnOk};
ghost use Rattle.siri_records.specs.Edges.{has_edge};
ghost use Rattle.siri_records.specs.Keyed.{entries_view};
ghost use Rattle.siri_store.specs.Asked.{asked_stamps, is_asked};
ghost use Rattle.siri_store.specs.CrossWalk.{crosses, led, led_by};
ghost use Rattle.siri_store.specs.Held.{counted};

use crate::candidates::may_be_shown;
use crate::counter::Counter;
use crate::stamps::Stamp;
use siri_base::{Copies, OutOfMemory};
use siri_records::{Item, KeyedItems, SharedKey, edges_of};
use siri_topic::Topic;
use std::alloc::Global;
use std::collections::btree_set::Range;
use std::rc::Rc;

/// Lends the held items of a service that have an edge in a range of moments, each once, in order of the least such
/// edge and then of key. Each item that it lends is a step.
#[derive(Drop)]
pub struct Crossing<'a> {
    // The store's counter and items, the stamps that are still to be looked at, and where the range begins.
    counter: &'a mut Counter,
    entries: &'a KeyedItems,
    stamps: Range<'a, Stamp>,
    from: i64,
}

impl<'a> Crossing<'a> {
    /// The walk over held items by the stamps of their edges in a range that begins at a moment. It counts by the
    /// counter that it is lent.
    pub(crate) fn over(
        entries: &'a KeyedItems,
        counter: &'a mut Counter,
        stamps: Range<'a, Stamp>,
        from: i64,
    ) -> Crossing<'a>
        ensures counter { result.counter.now ≡ counter.old }
        ensures same_counter { result.counter.ghost_name ≡ counter.entry.ghost_name }
        ensures entries { result.entries.now ≡ entries.now }
        ensures from { result.from ≡ from }
        ensures stamps { result.stamps ≡ stamps.entry }
    {
        Crossing {
            counter,
            entries,
            stamps,
            from,
        }
    }
}

impl<'a> Iterator for Crossing<'a> {
    type Item = &'a Rc<Item>;

    ghost next_gives = { crosses };

    ghost remaining = { λ s. at_most (length s.stamps) };

    fn next(&mut self) -> Option<&'a Rc<Item>> {
        let entry = next_crossed(self.entries, self.counter, &mut self.stamps, self.from)?;
        Some(entry.1)
    }
}

/// The walk itself: the key and the item of the first stamp that leads, counted as a step, and behind it the stamps
/// that are left.
pub(crate) fn next_crossed<'a>(
    entries: &'a KeyedItems,
    counter: &mut Counter,
    stamps: &mut Range<'a, Stamp>,
    from: i64,
) -> Option<(&'a SharedKey, &'a Rc<Item>)>
    ensures lent { MatchOption result ((led from entries.now stamps.old ≡ []) × (led from entries.now stamps.new ≡ [])) (λ entry. led from entries.now stamps.old ≡ (entry.0.now, entry.1.now.value) ∷ led from entries.now stamps.new) }
    ensures counter { MatchOption result (counter.new ≡ counter.old) (λ _. counter.new ≡ counted counter.old 1) }
    ensures onward { MatchOption result (length stamps.new ≤ length stamps.old) (λ _. length stamps.new < length stamps.old) }
{
    loop {
        let stamp = stamps.next()?;
        if let Some(entry) = led(entries, from, stamp) {
            counter.count();
            return Some(entry);
        }
    }
}

/// In one call all entries that may be shown to a topic by their keys and whose items have an edge in a range of
/// moments, by the stamps there. (A walk that holds stamps gives the one who lets it go no word of its counter, so the
/// counter is lent to this one itself.)
pub(crate) fn crossed_entries<'a>(
    alloc: Global,
    items: &'a KeyedItems,
    counter: &mut Counter,
    topic: &Topic,
    stamps: Range<'a, Stamp>,
    from: i64,
) -> Result<Vec<(SharedKey, Rc<Item>)>, OutOfMemory>
    ensures ok { IfOk result (λ found. entries_view found.items ≡ led from items.now (asked_stamps topic.now stamps.entry)) }
    ensures steps { OnOk result (counter.new ≡ counted counter.old (length (led from items.now (asked_stamps topic.now stamps.entry)))) }
    ensures risen { counter.old ≤ counter.new }
    ensures at_most { counter.new ≤ counter.old + length (led from items.now (asked_stamps topic.now stamps.entry)) }
{
    let mut stamps = stamps;
    let mut found = Vec::new(alloc);
    while let Some(entry) = next_asked_crossed(items, counter, topic, &mut stamps, from) {
        let item = entry.1.clone()?;
        let key = entry.0.copy()?;
        found.push((key, item))?;
    }
    Ok(found)
}

/// The key and the item of the first stamp that leads to what may be shown to a topic by its key, counted as a step,
/// and behind it the stamps that are left.
fn next_asked_crossed<'a>(
    entries: &'a KeyedItems,
    counter: &mut Counter,
    topic: &Topic,
    stamps: &mut Range<'a, Stamp>,
    from: i64,
) -> Option<(&'a SharedKey, &'a Rc<Item>)>
    ensures lent { MatchOption result ((led from entries.now (asked_stamps topic.now stamps.old) ≡ []) × (led from entries.now (asked_stamps topic.now stamps.new) ≡ [])) (λ entry. led from entries.now (asked_stamps topic.now stamps.old) ≡ (entry.0.now, entry.1.now.value) ∷ led from entries.now (asked_stamps topic.now stamps.new)) }
    ensures counter { MatchOption result (counter.new ≡ counter.old) (λ _. counter.new ≡ counted counter.old 1) }
    ensures onward { MatchOption result (length stamps.new ≤ length stamps.old) (λ _. length stamps.new < length stamps.old) }
{
    loop {
        let stamp = next_asked(topic, stamps)?;
        if let Some(entry) = led(entries, from, stamp) {
            counter.count();
            return Some(entry);
        }
    }
}

/// The first stamp whose item may be shown to a topic by its key, and behind it the stamps that are left.
pub(crate) fn next_asked<'a>(topic: &Topic, stamps: &mut Range<'a, Stamp>) -> Option<&'a Stamp>
    ensures next { MatchOption result ((asked_stamps topic.now stamps.old ≡ []) × (asked_stamps topic.now stamps.new ≡ [])) (λ stamp. asked_stamps topic.now stamps.old ≡ stamp.now ∷ asked_stamps topic.now stamps.new) }
    ensures onward { MatchOption result (length stamps.new ≤ length stamps.old) (λ _. length stamps.new < length stamps.old) }
{
    loop {
        let stamp = stamps.next()?;
        if is_asked(topic, stamp) {
            return Some(stamp);
        }
    }
}

/// Whether the item of a stamp may be shown to a topic by its key.
fn is_asked(topic: &Topic, stamp: &Stamp) -> bool
    ensures { result ≡ is_asked topic.now stamp.now }
{
    match &stamp.2 {
        Some(key) => may_be_shown(topic, key.key()),
        None => false,
    }
}

/// The key and the item of a stamp, where the item has no edge in the range before that stamp.
pub(crate) fn led<'a>(
    entries: &'a KeyedItems,
    from: i64,
    stamp: &'a Stamp,
) -> Option<(&'a SharedKey, &'a Rc<Item>)>
    ensures { option_map (λ entry. (entry.0.now, entry.1.now.value)) result ≡ led_by from entries.now stamp.now }
{
    let key = stamp.2.as_ref()?;
    let item = entries.get(key.key())?;
    if leads(from, stamp.1, item) {
        Some((key, item))
    } else {
        None
    }
}

/// Whether an item has no edge in the range before one.
fn leads(from: i64, edge: u64, item: &Item) -> bool
    ensures { result ≡ not (has_edge from (pos edge) item.now) }
{
    for one in edges_of(item) {
        if from <= one.ms() && (one.ms() as u64) < edge {
            return false;
        }
    }
    true
}
