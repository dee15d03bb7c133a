//! The current items in order of key, with the order of their ends and those of their edges.

ghost use Rattle.std.specs.Prelude.{◌≡◌, [], is_some, option_map, true, IfOk, IfSome, IfNone, OnOk, OnErr};
ghost use Rattle.std.specs.Map.{lookup, remove_entry};
ghost use Rattle.std.specs.BTreeMap.{insert_entry, is_at};
ghost use Rattle.siri_records.specs.Keyed.{InOrder, item_of};
ghost use Rattle.siri_records.specs.Order.{key_cmp};
ghost use Rattle.siri_store.specs.Crossing.{crossed_entries};
ghost use Rattle.siri_store.specs.CrossWalk.{led};
ghost use Rattle.siri_store.specs.Ended.{EndsFirst, NoneHasEnded};
ghost use Rattle.std.specs.List.{All};
ghost use Rattle.siri_store.specs.Asked.{asked_stamps};
ghost use Rattle.siri_store.specs.Between.{is_between, is_inside};
ghost use Rattle.siri_store.specs.Stamped.{order_asked};
ghost use Rattle.siri_store.specs.Candidates.{UnderOwnKeys, candidates};
ghost use Rattle.siri_store.specs.First.{first_entries, visits_for};
ghost use Rattle.siri_store.specs.Visits.{all_lead};
ghost use Rattle.siri_store.specs.Walk.{shown_entries};
ghost use Rattle.siri_topic.specs.Services.{service_asked};
ghost use Rattle.siri_topic.specs.Shown.{window_of};

use crate::order_numbers::{by_edge, order_asked};
use crate::stamps::{Stamp, Stamps};
use siri_base::{Copies, Moment, OutOfMemory};
use siri_records::{Item, Key, KeyedItems, Service, SharedKey};
use siri_topic::{Topic, Window};
use std::alloc::Global;
use std::collections::btree_set::Range;
use std::marker::Model;
use std::rc::Rc;

/// Shared items by their keys, in order of key, each key once, and stamps of their ends and of their edges. Contracts
/// see the keys with the items themselves.
pub(crate) struct IndexedItems {
    entries: KeyedItems,
    stamps: Stamps,
}

impl Drop for IndexedItems {
    fn drop(self) {
        let IndexedItems {
            entries: _,
            stamps: _,
        } = self;
    }
}

impl Model for IndexedItems {
    ghost use Rattle.siri_records.specs.Keyed.{Items, InOrder};
    ghost use Rattle.siri_store.specs.Stamped.{Tied};

    ghost Value = { Items };

    ghost view = { λ s. s.entries };

    ghost invariant = { λ s. record { ordered : InOrder s.entries; tied : Tied s.entries s.stamps } };
}

impl IndexedItems {
    /// Those that hold nothing. It takes no memory.
    pub(crate) fn new(alloc: Global) -> IndexedItems
        ensures { result ≡ [] }
    {
        IndexedItems {
            entries: KeyedItems::new(alloc),
            stamps: Stamps::new(alloc),
        }
    }

    /// The items in order of key.
    pub(crate) fn entries(&self) -> &KeyedItems
        ensures { result.now ≡ self.now }
    {
        &self.entries
    }

    /// The stamps of a service's items by their edges, at or after one number of milliseconds since 1970 and before
    /// another.
    pub(crate) fn edges(&self, service: Service, from: i64, to: i64) -> Range<'_, Stamp>
        ensures crossed { led from self.now result ≡ crossed_entries service from to self.now }
    {
        self.stamps.between(by_edge(service), from, to)
    }

    /// The stamps of the visits whose entry is in the window of a topic of Stop Monitoring, by entry and then key; none
    /// for a topic of another service. The window is that of the topic at a moment.
    pub(crate) fn visits(&self, topic: &Topic, moment: Moment, window: &Window) -> Range<'_, Stamp>
        requires { window.now ≡ window_of topic.now moment }
        ensures visits { led window.now.from self.now result ≡ visits_for topic.now moment self.now }
        ensures leads { all_lead window.now.from self.now result ≡ true }
        ensures shown { shown_entries topic.now moment (led window.now.from self.now result) ≡ first_entries topic.now moment self.now }
    {
        match topic {
            Topic::Stop(_) => self.stamps.inside(by_edge(Service::Stop), *window),
            _ => self.stamps.between(by_edge(Service::Stop), 0, 0),
        }
    }

    /// The stamps of the items that may be shown to a topic by their keys, by their edges at or after one number of
    /// milliseconds since 1970 and before another. They are all of the order of the topic's stop or single line; others
    /// that share it may be among them, which their keys tell.
    pub(crate) fn edges_asked(&self, topic: &Topic, from: i64, to: i64) -> Range<'_, Stamp>
        requires { UnderOwnKeys self.now }
        ensures crossed { led from self.now (asked_stamps topic.now result) ≡ crossed_entries (service_asked topic.now) from to (candidates topic.now self.now) }
        ensures walked { All (λ stamp. is_between (order_asked topic.now) from to stamp ≡ true) result }
    {
        self.stamps.between(order_asked(topic), from, to)
    }

    /// Of a topic of Stop Monitoring the stamps of its stop's visits whose entry is in its window, by entry and then
    /// key; none for a topic of another service. They are all of the order of that stop; others that share it may be
    /// among them, which their keys tell. The window is that of the topic at a moment.
    pub(crate) fn visits_asked(
        &self,
        topic: &Topic,
        moment: Moment,
        window: &Window,
    ) -> Range<'_, Stamp>
        requires window { window.now ≡ window_of topic.now moment }
        requires own { UnderOwnKeys self.now }
        ensures visits { led window.now.from self.now (asked_stamps topic.now result) ≡ visits_for topic.now moment (candidates topic.now self.now) }
        ensures walked { All (λ stamp. is_inside (order_asked topic.now) window.now stamp ≡ true) result }
        ensures leads { all_lead window.now.from self.now (asked_stamps topic.now result) ≡ true }
        ensures shown { shown_entries topic.now moment (led window.now.from self.now (asked_stamps topic.now result)) ≡ first_entries topic.now moment self.now }
    {
        match topic {
            Topic::Stop(_) => self.stamps.inside(order_asked(topic), *window),
            _ => self.stamps.between(by_edge(Service::Stop), 0, 0),
        }
    }

    /// An item becomes the one of a key. After want of memory all is as before.
    pub(crate) fn put(&mut self, key: SharedKey, item: Rc<Item>) -> Result<(), OutOfMemory>
        ensures ok { OnOk result (self.new ≡ insert_entry key_cmp self.old key item.value) }
        ensures err { OnErr result (self.new ≡ self.old) }
    {
        let (own, old) = self.shared(&key)?;
        let new = item.clone()?;
        if self.stamps.add(&new, &own).is_err() {
            self.stamps.take_out(Some(&new), inner(&old), own);
            return Err(OutOfMemory);
        }
        if self.entries.put(key, item).is_err() {
            self.stamps.take_out(Some(&new), inner(&old), own);
            return Err(OutOfMemory);
        }
        self.stamps.take_out(inner(&old), Some(&new), own);
        Ok(())
    }

    /// The key as it is held, and the item that is held of it, both shared; or else the key itself.
    fn shared(&self, key: &SharedKey) -> Result<(SharedKey, Option<Rc<Item>>), OutOfMemory>
        ensures { IfOk result (λ held. (held.0 ≡ key.now) × (option_map (λ item. item.value) held.1 ≡ item_of self.now key.now)) }
    {
        match self.entries.find(key.key()) {
            Some(entry) => {
                let item = entry.1.clone()?;
                Ok((entry.0.copy()?, Some(item)))
            }
            None => Ok((key.copy()?, None)),
        }
    }

    /// Removes a key: true exactly where it was held. It takes no memory.
    pub(crate) fn remove(&mut self, key: &Key) -> bool
        ensures rest { self.new ≡ remove_entry (is_at (key_cmp key.now)) self.old }
        ensures held { result ≡ is_some (lookup (is_at (key_cmp key.now)) self.old) }
    {
        match self.entries.take(key) {
            Some((own, item)) => {
                self.stamps.take_out(Some(&item), None, own);
                true
            }
            None => false,
        }
    }

    /// Removes the key whose item ends first, where that end is before a moment, and gives it: `None` exactly where no
    /// item has ended. It takes no memory.
    pub(crate) fn remove_first_ended(&mut self, now: Moment) -> Option<SharedKey>
        ensures first { IfSome result (λ key. EndsFirst now self.old key) }
        ensures rest { IfSome result (λ key. self.new ≡ remove_entry (is_at (key_cmp key)) self.old) }
        ensures none { IfNone result (NoneHasEnded now self.old) }
        ensures same { IfNone result (self.new ≡ self.old) }
        ensures ordered { InOrder self.old }
    {
        let key = self.stamps.first_ended(now)?;
        let (own, item) = self.entries.take(key.key())?;
        Some(self.stamps.take_out(Some(&item), None, own))
    }
}

/// The item that is shared, where there is one.
fn inner(item: &Option<Rc<Item>>) -> Option<&Item>
    ensures { option_map (λ item. item.now) result ≡ option_map (λ item. item.value) item.now }
{
    match item {
        Some(item) => Some(item),
        None => None,
    }
}
