//! The held items with the counter of steps: no other module gets an item uncounted.

ghost use Rattle.std.specs.Prelude.{◌≡◌, ◌+◌, ◌≤◌, [], length, take, slice_range, option_map, is_some, false, IfOk, IfSome, IfNone, OnOk, OnErr, ⊤};
ghost use mathlib.Core.Option.{none};
ghost use Rattle.std.specs.Borrow.{sem, follows, follows_so};
ghost use Rattle.siri_records.specs.Ends.{is_closed};
ghost use Rattle.siri_records.specs.Keyed.{InOrder, item_of, with_item, without_key, unshared, entries_view};
ghost use Rattle.siri_records.specs.Keys.{key_of};
ghost use Rattle.siri_store.specs.Candidates.{candidates};
ghost use Rattle.siri_store.specs.Crossing.{crossed_entries, crossed_of};
ghost use Rattle.siri_store.specs.CrossWalk.{to_cross};
ghost use Rattle.siri_store.specs.Ended.{EndsFirst, NoneClosed, NoneHasEnded};
ghost use Rattle.siri_store.specs.Held.{counted};
ghost use Rattle.siri_topic.specs.Services.{service_asked};
ghost use Rattle.siri_store.specs.First.{first_entries, first_of, looked_until, visits_for};
ghost use Rattle.siri_store.specs.FirstWalk.{to_lend_first, to_look_at};
ghost use Rattle.siri_store.specs.Walk.{shown_at, shown_entries, shown_of, to_lend};
ghost use Rattle.siri_store.specs.contracts.counted.CountedItems.{the_row};
ghost use Rattle.siri_store.specs.contracts.counter.Counter.{the_row as counter_row};

use crate::counter::Counter;
use crate::crossing::crossed_entries;
use crate::first::first_shown;
use crate::indexed::IndexedItems;
use crate::{Crossing, First, Selected, walk};
use siri_base::{Moment, OutOfMemory};
use siri_records::{Item, Key, KeyedItems, Service, SharedKey};
use siri_topic::{Topic, window};
use std::alloc::Global;
use std::marker::Model;
use std::rc::Rc;

/// Current items in order of key, each under its own key and none closed, and the counter of steps. A call that lends
/// an item counts it. Contracts see the keys with the items themselves, and the counter.
pub(crate) struct CountedItems {
    items: IndexedItems,
    counter: Counter,
}

impl Drop for CountedItems {
    fn drop(self) {
        let CountedItems {
            items: _,
            counter: _,
        } = self;
    }
}

impl Model for CountedItems {
    ghost use Rattle.siri_store.specs.Candidates.{UnderOwnKeys};
    ghost use Rattle.siri_store.specs.Counted.{CountedEntries};
    ghost use Rattle.siri_store.specs.Ended.{NoneClosed};

    ghost Value = { CountedEntries };

    ghost view = { λ s. record { entries = s.items; reads = s.counter } };

    ghost invariant = { λ s. record { own : UnderOwnKeys s.items; none_closed : NoneClosed s.items } };
}

impl CountedItems {
    /// No items, and no step was counted yet. It takes no memory.
    pub(crate) fn new(alloc: Global) -> CountedItems
        ensures { result ≡ record { entries = []; reads = 0 } }
    {
        CountedItems {
            items: IndexedItems::new(alloc),
            counter: Counter::new(),
        }
    }

    /// The steps that were counted.
    pub(crate) fn reads(&self) -> u64
        ensures { result ≡ self.now.reads }
    {
        self.counter.steps()
    }

    /// How many keys are held.
    pub(crate) fn len(&self) -> usize
        ensures number { result ≡ length self.now.entries }
        ensures ordered { InOrder self.now.entries }
    {
        self.items.entries().len()
    }

    /// Whether a key is held.
    pub(crate) fn has(&self, key: &Key) -> bool
        ensures { result ≡ is_some (item_of self.now.entries key.now) }
    {
        self.items.entries().has(key)
    }

    /// Where the memory for more of them comes from.
    pub(crate) fn allocator(&self) -> Global {
        self.items.entries().allocator()
    }

    /// An item becomes the one of its key. After want of memory all is as before.
    pub(crate) fn put(&mut self, key: SharedKey, item: Rc<Item>) -> Result<(), OutOfMemory>
        requires own { key ≡ key_of item.value }
        requires unclosed { is_closed item.value ≡ false }
        ensures ok { OnOk result (self.new ≡ record self.old { entries = with_item self.old.entries (key, item.value) }) }
        ensures err { OnErr result (self.new ≡ self.old) }
    {
        self.items.put(key, item)?;
        Ok(())
    }

    /// Removes a key: true exactly where it was held. It takes no memory.
    pub(crate) fn remove(&mut self, key: &Key) -> bool
        ensures rest { self.new ≡ record self.old { entries = without_key self.old.entries key.now } }
        ensures held { result ≡ is_some (item_of self.old.entries key.now) }
    {
        self.items.remove(key)
    }

    /// Removes the key whose item ends first, where that end is before a moment, and gives it: `None` exactly where no
    /// item has ended. It takes no memory.
    pub(crate) fn remove_first_ended(&mut self, now: Moment) -> Option<SharedKey>
        ensures first { IfSome result (λ key. EndsFirst now self.old.entries key) }
        ensures rest { IfSome result (λ key. self.new.entries ≡ without_key self.old.entries key) }
        ensures none { IfNone result (NoneHasEnded now self.old.entries) }
        ensures same { IfNone result (self.new.entries ≡ self.old.entries) }
        ensures reads { self.new.reads ≡ self.old.reads }
        ensures ordered { InOrder self.old.entries }
        ensures none_closed { NoneClosed self.old.entries }
    {
        self.items.remove_first_ended(now)
    }

    /// The item of a key. It takes one step.
    pub(crate) fn look(&mut self, key: &Key) -> Option<&Rc<Item>>
        ensures* step { sem 𝓛 (follows_so the_row the_row self.entry.ghost_name none (λ _ _. ⊤) (λ new. new ≡ record self.old { reads = counted self.old.reads 1 })) }
        ensures item { option_map (λ item. item.now.value) result ≡ item_of self.old.entries key.now }
    {
        self.counter.count();
        self.items.entries().get(key)
    }

    /// Lends, in order of key, the items that are shown to a topic at a moment.
    pub(crate) fn select<'a>(&'a mut self, topic: &'a Topic, moment: Moment) -> Selected<'a>
        ensures* keeps { sem 𝓛 (follows the_row counter_row self.entry.ghost_name result.counter.ghost_name (λ steps. record self.old { reads = steps })) }
        ensures counter { result.counter.now ≡ self.old.reads }
        ensures topic { result.topic.now ≡ topic.now }
        ensures moment { result.moment ≡ moment }
        ensures entries { result.entries.now ≡ self.old.entries }
        ensures lends { to_lend result ≡ shown_of topic.now moment self.old.entries }
        ensures places { slice_range self.old.entries result.place result.end ≡ candidates topic.now self.old.entries }
        ensures within { (result.place ≤ result.end) × (result.end ≤ length self.old.entries) }
    {
        Selected::over(self.items.entries(), &mut self.counter, topic, moment)
    }

    /// All of them, shared with those that are held. After want of memory nothing but the counter has changed.
    pub(crate) fn shown(
        &mut self,
        alloc: Global,
        topic: &Topic,
        moment: Moment,
    ) -> Result<Vec<Rc<Item>>, OutOfMemory>
        ensures ok { IfOk result (λ items. unshared items.items ≡ shown_of topic.now moment self.old.entries) }
        ensures steps { OnOk result (self.new.reads ≡ counted self.old.reads (length (candidates topic.now self.old.entries))) }
        ensures rest { self.new ≡ record self.old { reads = self.new.reads } }
        ensures risen { self.old.reads ≤ self.new.reads }
        ensures at_most { self.new.reads ≤ self.old.reads + length self.old.entries }
        ensures asked { self.new.reads ≤ self.old.reads + length (candidates topic.now self.old.entries) }
        ensures ordered { InOrder self.old.entries }
    {
        let mut walk = Selected::over(self.items.entries(), &mut self.counter, topic, moment);
        walk::shown_items(alloc, &mut walk)
    }

    /// The same items with their keys.
    pub(crate) fn shown_entries(
        &mut self,
        alloc: Global,
        topic: &Topic,
        moment: Moment,
    ) -> Result<KeyedItems, OutOfMemory>
        ensures ok { IfOk result (λ items. items ≡ shown_entries topic.now moment self.old.entries) }
        ensures steps { OnOk result (self.new.reads ≡ counted self.old.reads (length (candidates topic.now self.old.entries))) }
        ensures rest { self.new ≡ record self.old { reads = self.new.reads } }
        ensures risen { self.old.reads ≤ self.new.reads }
        ensures at_most { self.new.reads ≤ self.old.reads + length self.old.entries }
        ensures asked { self.new.reads ≤ self.old.reads + length (candidates topic.now self.old.entries) }
        ensures ordered { InOrder self.old.entries }
    {
        let mut walk = Selected::over(self.items.entries(), &mut self.counter, topic, moment);
        walk::shown_entries(alloc, &mut walk)
    }

    /// Lends the items of a service that have an edge at or after one number of milliseconds since 1970 and before
    /// another, each once, in order of the least such edge and then of key.
    pub(crate) fn crossing<'a>(&'a mut self, service: Service, from: i64, to: i64) -> Crossing<'a>
        ensures* keeps { sem 𝓛 (follows the_row counter_row self.entry.ghost_name result.counter.ghost_name (λ steps. record self.old { reads = steps })) }
        ensures counter { result.counter.now ≡ self.old.reads }
        ensures entries { result.entries.now ≡ self.old.entries }
        ensures from { result.from ≡ from }
        ensures lends { to_cross result ≡ crossed_of service from to self.old.entries }
    {
        let items = &self.items;
        let stamps = items.edges(service, from, to);
        Crossing::over(items.entries(), &mut self.counter, stamps, from)
    }

    /// Those that have an edge there of the items that may be shown to a topic by their keys, with their keys, shared
    /// with those that are held. After want of memory nothing but the counter has changed.
    pub(crate) fn crossed(
        &mut self,
        alloc: Global,
        topic: &Topic,
        from: i64,
        to: i64,
    ) -> Result<Vec<(SharedKey, Rc<Item>)>, OutOfMemory>
        ensures ok { IfOk result (λ found. entries_view found.items ≡ crossed_entries (service_asked topic.now) from to (candidates topic.now self.old.entries)) }
        ensures steps { OnOk result (self.new.reads ≡ counted self.old.reads (length (crossed_entries (service_asked topic.now) from to (candidates topic.now self.old.entries)))) }
        ensures at_most { self.new.reads ≤ self.old.reads + length (crossed_entries (service_asked topic.now) from to (candidates topic.now self.old.entries)) }
        ensures risen { self.old.reads ≤ self.new.reads }
        ensures rest { self.new ≡ record self.old { reads = self.new.reads } }
    {
        let items = &self.items;
        let stamps = items.edges_asked(topic, from, to);
        crossed_entries(
            alloc,
            items.entries(),
            &mut self.counter,
            topic,
            stamps,
            from,
        )
    }

    /// Lends, by entry and then key, the visits that are shown to a topic at a moment.
    pub(crate) fn first<'a>(&'a mut self, topic: &'a Topic, moment: Moment) -> First<'a>
        ensures* keeps { sem 𝓛 (follows the_row counter_row self.entry.ghost_name result.counter.ghost_name (λ steps. record self.old { reads = steps })) }
        ensures counter { result.counter.now ≡ self.old.reads }
        ensures topic { result.topic.now ≡ topic.now }
        ensures moment { result.moment ≡ moment }
        ensures entries { result.entries.now ≡ self.old.entries }
        ensures lends { to_lend_first result ≡ first_of topic.now moment self.old.entries }
        ensures looks { to_look_at result ≡ visits_for topic.now moment self.old.entries }
    {
        let window = window(topic, moment);
        let items = &self.items;
        let stamps = items.visits(topic, moment, &window);
        First::over(
            items.entries(),
            &mut self.counter,
            topic,
            moment,
            stamps,
            window.from,
        )
    }

    /// The first so many of them with their keys, shared with those that are held. After want of memory nothing but the
    /// counter has changed.
    pub(crate) fn first_shown(
        &mut self,
        alloc: Global,
        topic: &Topic,
        moment: Moment,
        most: u64,
    ) -> Result<Vec<(SharedKey, Rc<Item>)>, OutOfMemory>
        ensures ok { IfOk result (λ found. entries_view found.items ≡ take most (first_entries topic.now moment self.old.entries)) }
        ensures steps { OnOk result (self.new.reads ≡ counted self.old.reads (looked_until (shown_at topic.now moment) most (visits_for topic.now moment (candidates topic.now self.old.entries)))) }
        ensures at_most { self.new.reads ≤ self.old.reads + looked_until (shown_at topic.now moment) most (visits_for topic.now moment (candidates topic.now self.old.entries)) }
        ensures risen { self.old.reads ≤ self.new.reads }
        ensures rest { self.new ≡ record self.old { reads = self.new.reads } }
    {
        let window = window(topic, moment);
        let items = &self.items;
        let stamps = items.visits_asked(topic, moment, &window);
        first_shown(
            alloc,
            items.entries(),
            &mut self.counter,
            topic,
            moment,
            stamps,
            window.from,
            most,
        )
    }
}
