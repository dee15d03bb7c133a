//! The store of current items.

ghost use Rattle.std.specs.Prelude.{◌≡◌, ◌↔◌, ◌+◌, ◌≤◌, max, [], length, take, slice_range, option_map, true, false, None, IfOk, OnOk, OnErr, IsErrOf, ⊤};
ghost use mathlib.Core.Option.{none};
ghost use Rattle.std.specs.Borrow.{sem, follows, follows_so};
ghost use Rattle.siri_records.specs.Keys.{key_of};
ghost use Rattle.siri_records.specs.Keyed.{InOrder, item_of, unshared, entries_view};
ghost use Rattle.siri_store.specs.Calls.{NoneDead, is_held, without, refuses, observed, IsNextToLeave, after_expiry};
ghost use Rattle.siri_store.specs.Candidates.{candidates};
ghost use Rattle.siri_store.specs.Held.{counted};
ghost use Rattle.siri_topic.specs.Services.{service_asked};
ghost use Rattle.siri_store.specs.Crossing.{crossed_entries, crossed_of};
ghost use Rattle.siri_store.specs.CrossWalk.{to_cross};
ghost use Rattle.siri_store.specs.First.{first_entries, first_of, looked_until, visits_for};
ghost use Rattle.siri_store.specs.FirstWalk.{to_lend_first, to_look_at};
ghost use Rattle.siri_store.specs.Walk.{shown_at, shown_entries, shown_of, to_lend};
ghost use Rattle.siri_store.specs.contracts.counter.Counter.{the_row as counter_row};
ghost use Rattle.siri_store.specs.contracts.store.Store.{the_row};

use crate::counted::CountedItems;
use crate::{Crossing, First, Selected};
use siri_base::{Moment, OutOfMemory};
use siri_records::{Item, Key, KeyedItems, Service, SharedKey, dead};
use siri_topic::Topic;
use std::alloc::Global;
use std::marker::Model;
use std::rc::Rc;
use thiserror::Error;

/// The most keys that a store holds.
pub const MOST_LIVE: usize = 20_000;

/// Why an item wasn't observed.
#[derive(Clone, Copy, Debug, PartialEq, Eq, Error)]
pub enum ObserveError {
    /// The item isn't dead, its key isn't held, and 20,000 keys are held.
    #[error("the store holds as many items as it can")]
    StoreFull,
    /// There was no memory.
    #[error("out of memory")]
    OutOfMemory,
}

impl From<OutOfMemory> for ObserveError {
    ghost use Rattle.std.specs.Prelude.{◌≡◌};
    ghost use Rattle.siri_store.specs.declared.store.ObserveError.TheVariants as observing;

    ghost from_gives = { λ _ e. e ≡ observing.OutOfMemory };

    fn from(_: OutOfMemory) -> ObserveError {
        ObserveError::OutOfMemory
    }
}

/// Current items in order of key, each under its own key, a moment, and a counter of steps. Contracts see the keys with
/// the items themselves, the moment and the counter.
pub struct Store {
    items: CountedItems,
    moment: Moment,
}

impl Drop for Store {
    fn drop(self) {
        let Store {
            items: _,
            moment: _,
        } = self;
    }
}

impl Model for Store {
    ghost use Rattle.siri_store.specs.Held.{Held};

    ghost Value = { Held };

    ghost view = { λ s. record { entries = s.items.entries; moment = s.moment; reads = s.items.reads } };
}

impl Store {
    /// The store that holds nothing, at a moment.
    pub fn new(alloc: Global, now: Moment) -> Result<Store, OutOfMemory>
        ensures value { IfOk result (λ store. store ≡ record { entries = []; moment = now; reads = 0 }) }
        ensures alive { IfOk result (λ store. NoneDead store) }
    {
        Ok(Store {
            items: CountedItems::new(alloc),
            moment: now,
        })
    }

    /// The store's moment becomes the later one.
    pub fn advance(&mut self, now: Moment)
        ensures { self.new ≡ record self.old { moment = max self.old.moment now } }
    {
        self.moment = self.moment.max(now);
    }

    /// Lets the dead item go that leaves first, by end and then by key, and gives its key: `None` exactly where none is
    /// dead. A closed item that has no end counts as ended at moment 0. It takes no memory.
    pub fn expire_one(&mut self) -> Option<SharedKey>
        ensures key { IsNextToLeave self.old result }
        ensures rest { self.new ≡ after_expiry self.old result }
        ensures none { (result ≡ None) ↔ NoneDead self.old }
    {
        self.items.remove_first_ended(self.moment)
    }

    /// The item becomes the one of its key; a dead item removes its key instead. After `StoreFull` and after want of
    /// memory the store is as it was. No held item may be dead: let dead items go before.
    pub fn observe(&mut self, item: Rc<Item>) -> Result<(), ObserveError>
        requires { NoneDead self.old }
        ensures ok { OnOk result (self.new ≡ observed self.old item.value) }
        ensures err { OnErr result (self.new ≡ self.old) }
        ensures taken { OnOk result (refuses self.old item.value ≡ false) }
        ensures full { IsErrOf result ObserveError.StoreFull → refuses self.old item.value ≡ true }
        ensures alive { NoneDead self.new }
    {
        let key = match SharedKey::of(self.items.allocator(), &item) {
            Ok(key) => key,
            Err(_) => {
                drop(item);
                return Err(ObserveError::OutOfMemory);
            }
        };
        self.observe_under(key, item)
    }

    /// As `observe`, with the item's own key, which its caller has made: so `StoreFull` is told exactly where the item is
    /// refused, before memory is asked for.
    pub fn observe_under(&mut self, key: SharedKey, item: Rc<Item>) -> Result<(), ObserveError>
        requires alive { NoneDead self.old }
        requires own { key ≡ key_of item.value }
        ensures ok { OnOk result (self.new ≡ observed self.old item.value) }
        ensures err { OnErr result (self.new ≡ self.old) }
        ensures taken { OnOk result (refuses self.old item.value ≡ false) }
        ensures full { IsErrOf result ObserveError.StoreFull ↔ (refuses self.old item.value ≡ true) }
        ensures alive { NoneDead self.new }
    {
        if dead(&item, self.moment) {
            let _ = self.items.remove(key.key());
            drop(key);
            drop(item);
            return Ok(());
        }
        if self.items.len() >= MOST_LIVE && !self.items.has(key.key()) {
            drop(key);
            drop(item);
            return Err(ObserveError::StoreFull);
        }
        self.items.put(key, item)?;
        Ok(())
    }

    /// Removes a key: true exactly where it was held. It takes no memory.
    pub fn withdraw(&mut self, key: &Key) -> bool
        ensures rest { self.new ≡ without self.old key.now }
        ensures held { result ≡ is_held self.old key.now }
        ensures alive { NoneDead self.old → NoneDead self.new }
    {
        self.items.remove(key)
    }

    /// The steps that were counted, 0 in a new store. A step is one held item that a call or a walk looks at.
    pub fn reads(&self) -> u64
        ensures { result ≡ self.now.reads }
    {
        self.items.reads()
    }

    /// The item of a key. It takes one step.
    pub fn look(&mut self, key: &Key) -> Option<&Rc<Item>>
        ensures* step { sem 𝓛 (follows_so the_row the_row self.entry.ghost_name none (λ _ _. ⊤) (λ new. new ≡ record self.old { reads = counted self.old.reads 1 })) }
        ensures item { option_map (λ item. item.now.value) result ≡ item_of self.old.entries key.now }
    {
        self.items.look(key)
    }

    /// Lends, in order of key, the held items that are shown to a topic at the store's moment. The walk looks only at
    /// held items that may be shown to the topic by their keys, and each that it looks at is a step. The store holds
    /// still as long as the walk is alive.
    pub fn select<'a>(&'a mut self, topic: &'a Topic) -> Selected<'a>
        ensures* keeps { sem 𝓛 (follows the_row counter_row self.entry.ghost_name result.counter.ghost_name (λ steps. record self.old { reads = steps })) }
        ensures counter { result.counter.now ≡ self.old.reads }
        ensures topic { result.topic.now ≡ topic.now }
        ensures moment { result.moment ≡ self.old.moment }
        ensures entries { result.entries.now ≡ self.old.entries }
        ensures lends { to_lend result ≡ shown_of topic.now self.old.moment self.old.entries }
        ensures places { slice_range self.old.entries result.place result.end ≡ candidates topic.now self.old.entries }
        ensures within { (result.place ≤ result.end) × (result.end ≤ length self.old.entries) }
    {
        let moment = self.moment;
        self.items.select(topic, moment)
    }

    /// All held items that are shown to a topic at the store's moment, in order of key, shared with the store. Each
    /// held item that may be shown to the topic by its key is a step. After want of memory nothing but the counter has
    /// changed.
    pub fn shown(&mut self, alloc: Global, topic: &Topic) -> Result<Vec<Rc<Item>>, OutOfMemory>
        ensures ok { IfOk result (λ items. unshared items.items ≡ shown_of topic.now self.old.moment self.old.entries) }
        ensures steps { OnOk result (self.new.reads ≡ counted self.old.reads (length (candidates topic.now self.old.entries))) }
        ensures rest { self.new ≡ record self.old { reads = self.new.reads } }
        ensures risen { self.old.reads ≤ self.new.reads }
        ensures at_most { self.new.reads ≤ self.old.reads + length self.old.entries }
        ensures asked { self.new.reads ≤ self.old.reads + length (candidates topic.now self.old.entries) }
        ensures ordered { InOrder self.old.entries }
    {
        let moment = self.moment;
        self.items.shown(alloc, topic, moment)
    }

    /// The same items with their keys.
    pub fn shown_entries(&mut self, alloc: Global, topic: &Topic) -> Result<KeyedItems, OutOfMemory>
        ensures ok { IfOk result (λ items. items ≡ shown_entries topic.now self.old.moment self.old.entries) }
        ensures steps { OnOk result (self.new.reads ≡ counted self.old.reads (length (candidates topic.now self.old.entries))) }
        ensures rest { self.new ≡ record self.old { reads = self.new.reads } }
        ensures risen { self.old.reads ≤ self.new.reads }
        ensures at_most { self.new.reads ≤ self.old.reads + length self.old.entries }
        ensures asked { self.new.reads ≤ self.old.reads + length (candidates topic.now self.old.entries) }
        ensures ordered { InOrder self.old.entries }
    {
        let moment = self.moment;
        self.items.shown_entries(alloc, topic, moment)
    }

    /// Lends the held items of a service that have an edge at or after one number of milliseconds since 1970 and before
    /// another, each once, in order of the least such edge and then of key. Each that it lends is a step. The store
    /// holds still as long as the walk is alive.
    pub fn crossing<'a>(&'a mut self, service: Service, from: i64, to: i64) -> Crossing<'a>
        ensures* keeps { sem 𝓛 (follows the_row counter_row self.entry.ghost_name result.counter.ghost_name (λ steps. record self.old { reads = steps })) }
        ensures counter { result.counter.now ≡ self.old.reads }
        ensures entries { result.entries.now ≡ self.old.entries }
        ensures from { result.from ≡ from }
        ensures lends { to_cross result ≡ crossed_of service from to self.old.entries }
    {
        self.items.crossing(service, from, to)
    }

    /// In one call, with their keys, shared with the store, the held items that may be shown to a topic by their keys
    /// and that have an edge at or after one number of milliseconds since 1970 and before another, each once, in order
    /// of the least such edge and then of key. Each of them is a step. After want of memory nothing but the counter has
    /// changed.
    pub fn crossed(
        &mut self,
        alloc: Global,
        topic: &Topic,
        from: i64,
        to: i64,
    ) -> Result<Vec<(SharedKey, Rc<Item>)>, OutOfMemory>
        ensures ok { IfOk result (λ found. entries_view found.items ≡ crossed_entries (service_asked topic.now) from to (candidates topic.now self.old.entries)) }
        ensures steps { OnOk result (self.new.reads ≡ counted self.old.reads (length (crossed_entries (service_asked topic.now) from to (candidates topic.now self.old.entries)))) }
        ensures at_most { self.new.reads ≤ self.old.reads + length (crossed_entries (service_asked topic.now) from to (candidates topic.now self.old.entries)) }
        ensures risen { self.old.reads ≤ self.new.reads }
        ensures rest { self.new ≡ record self.old { reads = self.new.reads } }
    {
        self.items.crossed(alloc, topic, from, to)
    }

    /// Lends, by entry and then key, the held visits that are shown to a topic at the store's moment; none to a topic of
    /// another service. The walk looks at the visits whose entry is in the topic's window, in that order, each once, and
    /// at none after the one that it lends until it is asked for the next. Each that it looks at is a step. The store
    /// holds still as long as the walk is alive.
    pub fn first<'a>(&'a mut self, topic: &'a Topic) -> First<'a>
        ensures* keeps { sem 𝓛 (follows the_row counter_row self.entry.ghost_name result.counter.ghost_name (λ steps. record self.old { reads = steps })) }
        ensures counter { result.counter.now ≡ self.old.reads }
        ensures topic { result.topic.now ≡ topic.now }
        ensures moment { result.moment ≡ self.old.moment }
        ensures entries { result.entries.now ≡ self.old.entries }
        ensures lends { to_lend_first result ≡ first_of topic.now self.old.moment self.old.entries }
        ensures looks { to_look_at result ≡ visits_for topic.now self.old.moment self.old.entries }
    {
        let moment = self.moment;
        self.items.first(topic, moment)
    }

    /// The first so many of them in one call, with their keys, shared with the store. It looks at visits of the topic's
    /// stop alone: each that is looked at until so many were shown, or none is left, is a step. After want of memory
    /// nothing but the counter has changed.
    pub fn first_shown(
        &mut self,
        alloc: Global,
        topic: &Topic,
        most: u64,
    ) -> Result<Vec<(SharedKey, Rc<Item>)>, OutOfMemory>
        ensures ok { IfOk result (λ found. entries_view found.items ≡ take most (first_entries topic.now self.old.moment self.old.entries)) }
        ensures steps { OnOk result (self.new.reads ≡ counted self.old.reads (looked_until (shown_at topic.now self.old.moment) most (visits_for topic.now self.old.moment (candidates topic.now self.old.entries)))) }
        ensures at_most { self.new.reads ≤ self.old.reads + looked_until (shown_at topic.now self.old.moment) most (visits_for topic.now self.old.moment (candidates topic.now self.old.entries)) }
        ensures risen { self.old.reads ≤ self.new.reads }
        ensures rest { self.new ≡ record self.old { reads = self.new.reads } }
    {
        let moment = self.moment;
        self.items.first_shown(alloc, topic, moment, most)
    }

    /// How many keys are held. Items are held in order of key, each key once.
    pub fn held(&self) -> usize
        ensures number { result ≡ length self.now.entries }
        ensures ordered { InOrder self.now.entries }
    {
        self.items.len()
    }

    /// The store's moment.
    pub fn now(&self) -> Moment
        ensures { result ≡ self.now.moment }
    {
        self.moment
    }
}
