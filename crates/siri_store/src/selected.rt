//! The walk over the items that are shown to a topic.

ghost use Rattle.std.specs.Iterator.{at_most};
ghost use Rattle.std.specs.Prelude.{◌≡◌, ◌≤◌, ◌-◌, min, [], ◌∷◌, length, slice_range, option_map, MatchOption, IfNone};
ghost use Rattle.siri_records.specs.Keyed.{InOrder};
ghost use Rattle.siri_store.specs.Candidates.{UnderOwnKeys, candidates};
ghost use Rattle.siri_store.specs.Walk.{Steps, steps, entries_to_lend, shown_entries};

use crate::candidates::candidates;
use crate::counter::Counter;
use siri_base::Moment;
use siri_records::{Item, KeyedItems, SharedKey};
use siri_topic::{Topic, shown};
use std::rc::Rc;

/// Lends the held items that are shown to a topic, in order of key, each the shared item itself. Each held item that it
/// looks at is a step: at least one for each that it lends, and at most as many in all as may be shown to the topic by
/// their keys.
#[derive(Drop)]
pub struct Selected<'a> {
    // The store's counter, items and moment; and the places of the items that are still to be looked at.
    counter: &'a mut Counter,
    topic: &'a Topic,
    moment: Moment,
    entries: &'a KeyedItems,
    place: usize,
    end: usize,
}

impl<'a> Selected<'a> {
    /// The walk over held items, of those that are shown to a topic at a moment. It counts by the counter that it is lent.
    pub(crate) fn over(
        entries: &'a KeyedItems,
        counter: &'a mut Counter,
        topic: &'a Topic,
        moment: Moment,
    ) -> Selected<'a>
        requires { UnderOwnKeys entries.now }
        ensures counter { result.counter.now ≡ counter.old }
        ensures same_counter { result.counter.ghost_name ≡ counter.entry.ghost_name }
        ensures topic { result.topic.now ≡ topic.now }
        ensures moment { result.moment ≡ moment }
        ensures entries { result.entries.now ≡ entries.now }
        ensures lends { entries_to_lend result ≡ shown_entries topic.now moment entries.now }
        ensures places { slice_range entries.now result.place result.end ≡ candidates topic.now entries.now }
        ensures within { (result.place ≤ result.end) × (result.end ≤ length entries.now) }
        ensures ordered { InOrder entries.now }
    {
        let places = candidates(entries, topic);
        Selected {
            counter,
            topic,
            moment,
            entries,
            place: places.start,
            end: places.end,
        }
    }

    /// The next item with its key: it looks at no entry behind that one.
    pub(crate) fn next_entry(&mut self) -> Option<(&'a SharedKey, &'a Rc<Item>)>
        ensures steps { Steps self.old (option_map (λ entry. entry.1) result) self.new }
        ensures lent { MatchOption result (entries_to_lend self.old ≡ []) (λ entry. entries_to_lend self.old ≡ (entry.0.now, entry.1.now.value) ∷ entries_to_lend self.new) }
        ensures over { IfNone result (min self.old.end (length self.old.entries.now) ≤ self.new.place) }
    {
        let entries = self.entries;
        while self.place < self.end {
            let entry = entries.entry(self.place)?;
            self.place += 1;
            self.counter.count(); // also where it isn't shown
            if shown(self.topic, &entry.1, self.moment) {
                return Some((&entry.0, &entry.1));
            }
        }
        None
    }
}

impl<'a> Iterator for Selected<'a> {
    type Item = &'a Rc<Item>;

    ghost next_gives = { steps };

    ghost remaining = { λ s. at_most (s.end - s.place) };

    fn next(&mut self) -> Option<&'a Rc<Item>> {
        let entry = self.next_entry()?;
        Some(entry.1)
    }
}
