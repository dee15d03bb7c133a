//! The walk over the visits that are shown to a topic, by entry and then key.

ghost use Rattle.std.specs.Iterator.{at_most};
ghost use Rattle.std.specs.Prelude.{◌≡◌, ◌+◌, ◌<◌, ◌≤◌, [], ◌∷◌, drop, length, take, true, option_map, MatchOption, IfOk, OnOk};
ghost use Rattle.siri_records.specs.Keyed.{entries_view};
ghost use Rattle.siri_store.specs.Asked.{asked_stamps};
ghost use Rattle.siri_store.specs.CrossWalk.{led, led_by};
ghost use Rattle.siri_store.specs.First.{looked_until};
ghost use Rattle.siri_store.specs.FirstWalk.{firsts};
ghost use Rattle.siri_store.specs.Held.{counted};
ghost use Rattle.siri_store.specs.Visits.{all_lead, shown_if};
ghost use Rattle.siri_store.specs.Walk.{shown_at, shown_entries};

use crate::counter::Counter;
use crate::crossing::{led, next_asked, next_crossed};
use crate::stamps::Stamp;
use siri_base::{Copies, Moment, OutOfMemory};
use siri_records::{Item, KeyedItems, SharedKey};
use siri_topic::{Topic, shown};
use std::alloc::Global;
use std::collections::btree_set::Range;
use std::rc::Rc;

/// Lends the held visits that are shown to a topic, by entry and then key, each the shared item itself. It looks at the
/// visits whose entry is in the topic's window, in that order, and at none after the one that it lends until it is
/// asked for the next. Each that it looks at is a step.
#[derive(Drop)]
pub struct First<'a> {
    // The store's counter, items and moment; the stamps that are still to be looked at, and where the window begins.
    counter: &'a mut Counter,
    entries: &'a KeyedItems,
    topic: &'a Topic,
    moment: Moment,
    stamps: Range<'a, Stamp>,
    from: i64,
}

impl<'a> First<'a> {
    /// The walk over held visits by their stamps, of those that are shown to a topic at a moment. It counts by the
    /// counter that it is lent.
    pub(crate) fn over(
        entries: &'a KeyedItems,
        counter: &'a mut Counter,
        topic: &'a Topic,
        moment: Moment,
        stamps: Range<'a, Stamp>,
        from: i64,
    ) -> First<'a>
        ensures counter { result.counter.now ≡ counter.old }
        ensures same_counter { result.counter.ghost_name ≡ counter.entry.ghost_name }
        ensures topic { result.topic.now ≡ topic.now }
        ensures moment { result.moment ≡ moment }
        ensures entries { result.entries.now ≡ entries.now }
        ensures from { result.from ≡ from }
        ensures stamps { result.stamps ≡ stamps.entry }
    {
        First {
            counter,
            entries,
            topic,
            moment,
            stamps,
            from,
        }
    }
}

impl<'a> Iterator for First<'a> {
    type Item = &'a Rc<Item>;

    ghost next_gives = { firsts };

    ghost remaining = { λ s. at_most (length s.stamps) };

    fn next(&mut self) -> Option<&'a Rc<Item>> {
        let entry = next_first(
            self.entries,
            self.counter,
            self.topic,
            self.moment,
            &mut self.stamps,
            self.from,
        )?;
        Some(entry.1)
    }
}

/// The walk itself: the key and the item of the first stamp whose item is shown, and behind it the stamps that are
/// left. Each visit that is looked at is a step.
fn next_first<'a>(
    entries: &'a KeyedItems,
    counter: &mut Counter,
    topic: &Topic,
    moment: Moment,
    stamps: &mut Range<'a, Stamp>,
    from: i64,
) -> Option<(&'a SharedKey, &'a Rc<Item>)>
    ensures lent { MatchOption result ((shown_entries topic.now moment (led from entries.now stamps.old) ≡ []) × (shown_entries topic.now moment (led from entries.now stamps.new) ≡ [])) (λ entry. shown_entries topic.now moment (led from entries.now stamps.old) ≡ (entry.0.now, entry.1.now.value) ∷ shown_entries topic.now moment (led from entries.now stamps.new)) }
    ensures looked { led from entries.now stamps.new ≡ drop (looked_until (shown_at topic.now moment) 1 (led from entries.now stamps.old)) (led from entries.now stamps.old) }
    ensures counter { counter.new ≡ counted counter.old (looked_until (shown_at topic.now moment) 1 (led from entries.now stamps.old)) }
    ensures onward { MatchOption result (length stamps.new ≤ length stamps.old) (λ _. length stamps.new < length stamps.old) }
{
    loop {
        let entry = next_crossed(entries, counter, stamps, from)?;
        if shown(topic, entry.1, moment) {
            return Some(entry);
        }
    }
}

/// The same over stamps of items of which those that may be shown to the topic by their keys all lead: each of these is
/// a step. A visit of another stop is none, and takes no search.
fn next_visit<'a>(
    entries: &'a KeyedItems,
    counter: &mut Counter,
    topic: &Topic,
    moment: Moment,
    stamps: &mut Range<'a, Stamp>,
    from: i64,
) -> Option<(&'a SharedKey, &'a Rc<Item>)>
    requires leads { all_lead from entries.now (asked_stamps topic.now stamps.old) ≡ true }
    ensures leads { all_lead from entries.now (asked_stamps topic.now stamps.new) ≡ true }
    ensures lent { MatchOption result ((shown_entries topic.now moment (led from entries.now (asked_stamps topic.now stamps.old)) ≡ []) × (shown_entries topic.now moment (led from entries.now (asked_stamps topic.now stamps.new)) ≡ [])) (λ entry. shown_entries topic.now moment (led from entries.now (asked_stamps topic.now stamps.old)) ≡ (entry.0.now, entry.1.now.value) ∷ shown_entries topic.now moment (led from entries.now (asked_stamps topic.now stamps.new))) }
    ensures looked { led from entries.now (asked_stamps topic.now stamps.new) ≡ drop (looked_until (shown_at topic.now moment) 1 (led from entries.now (asked_stamps topic.now stamps.old))) (led from entries.now (asked_stamps topic.now stamps.old)) }
    ensures counter { counter.new ≡ counted counter.old (looked_until (shown_at topic.now moment) 1 (led from entries.now (asked_stamps topic.now stamps.old))) }
{
    loop {
        let stamp = next_asked(topic, stamps)?;
        counter.count();
        if let Some(entry) = led_if_shown(entries, topic, moment, from, stamp) {
            return Some(entry);
        }
    }
}

/// The key and the item of a stamp, where it leads to one that is shown to a topic at a moment.
fn led_if_shown<'a>(
    entries: &'a KeyedItems,
    topic: &Topic,
    moment: Moment,
    from: i64,
    stamp: &'a Stamp,
) -> Option<(&'a SharedKey, &'a Rc<Item>)>
    ensures { option_map (λ entry. (entry.0.now, entry.1.now.value)) result ≡ shown_if topic.now moment (led_by from entries.now stamp.now) }
{
    let entry = led(entries, from, stamp)?;
    if shown(topic, entry.1, moment) {
        Some(entry)
    } else {
        None
    }
}

/// The first so many of them in one call, with their keys, by the stamps of visits. (A walk that holds stamps gives the
/// one who lets it go no word of its counter, so the counter is lent to this one itself.)
pub(crate) fn first_shown<'a>(
    alloc: Global,
    items: &'a KeyedItems,
    counter: &mut Counter,
    topic: &Topic,
    moment: Moment,
    stamps: Range<'a, Stamp>,
    from: i64,
    most: u64,
) -> Result<Vec<(SharedKey, Rc<Item>)>, OutOfMemory>
    requires leads { all_lead from items.now (asked_stamps topic.now stamps) ≡ true }
    ensures ok { IfOk result (λ found. entries_view found.items ≡ take most (shown_entries topic.now moment (led from items.now (asked_stamps topic.now stamps.entry)))) }
    ensures steps { OnOk result (counter.new ≡ counted counter.old (looked_until (shown_at topic.now moment) most (led from items.now (asked_stamps topic.now stamps.entry)))) }
    ensures risen { counter.old ≤ counter.new }
    ensures at_most { counter.new ≤ counter.old + looked_until (shown_at topic.now moment) most (led from items.now (asked_stamps topic.now stamps.entry)) }
{
    let mut stamps = stamps;
    let mut found = Vec::new(alloc);
    let mut left = most;
    loop {
        if left == 0 {
            return Ok(found);
        }
        let Some(entry) = next_visit(items, counter, topic, moment, &mut stamps, from) else {
            return Ok(found);
        };
        found.push(shared(entry.0, entry.1)?)?;
        left -= 1;
    }
}

/// A key and an item, both shared.
fn shared(key: &SharedKey, item: &Rc<Item>) -> Result<(SharedKey, Rc<Item>), OutOfMemory>
    ensures { IfOk result (λ copy. (copy.0 ≡ key.now) × (copy.1.value ≡ item.now.value)) }
{
    let item = item.clone()?;
    Ok((key.copy()?, item))
}
