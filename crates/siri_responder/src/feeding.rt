//! What a delivery that is fed does to the store.

ghost use Rattle.std.specs.Prelude.{◌≡◌, OnOk, OnErr, [], ◌∷◌, map, flat_map};
ghost use Rattle.std.specs.Map.{keys_of};
ghost use Rattle.siri_records.specs.Keyed.{InOrder, dead_of, living};
ghost use Rattle.siri_model.specs.History.{Observed, Withdrawn, entries_in, entries_of};
ghost use Rattle.siri_store.specs.Calls.{NoneDead};
ghost use Rattle.siri_responder.specs.Feeding.{AreMarked, HasRoom, ReachesSome, TakesEntries};

use siri_base::{Copies, List, OutOfMemory};
use siri_messages::{FunctionalDelivery, ServiceDelivery};
use siri_records::{Key, SharedItem, SharedKey};
use siri_store::{Marks, ObserveError, Store};
use std::alloc::Global;

/// What is told of a feed. A number that would pass the greatest of its type stands there.
#[derive(Clone, Copy, Debug, PartialEq, Eq)]
pub struct Fed {
    /// How many of its items were taken.
    pub observed: u64,
    /// How many removals it had, of keys that were held or not.
    pub withdrawn: u64,
    /// How many of its items were refused, since as many keys were live as may be.
    pub full: u64,
}

/// The store of a responder, with the marks of the keys that entries named, and what is told of the feed that it is
/// given. After want of memory the entries before the refused one stand. There is room for the mark of each held key.
pub(crate) struct Feeding {
    pub(crate) store: Store,
    pub(crate) marks: Marks,
    pub(crate) fed: Fed,
}

impl Drop for Feeding {
    fn drop(self) {
        let Feeding {
            store: _,
            marks: _,
            fed: _,
        } = self;
    }
}

impl Feeding {
    /// Nothing was fed yet.
    pub(crate) fn new(store: Store, marks: Marks) -> Feeding
        ensures store { result.store ≡ store }
        ensures marks { result.marks ≡ marks }
        ensures fed { result.fed ≡ record { observed = 0; withdrawn = 0; full = 0 } }
    {
        Feeding {
            store,
            marks,
            fed: Fed {
                observed: 0,
                withdrawn: 0,
                full: 0,
            },
        }
    }

    /// A new feed begins, of which nothing is told yet.
    pub(crate) fn begin(&mut self)
        ensures { self.new ≡ record self.old { fed = record { observed = 0; withdrawn = 0; full = 0 } } }
    {
        self.fed = Fed {
            observed: 0,
            withdrawn: 0,
            full: 0,
        };
    }

    /// Items that are dead leave, and their keys are marked. It takes no memory.
    pub(crate) fn expire(&mut self)
        requires ordered { InOrder self.old.store.entries }
        requires room { HasRoom self.old }
        ensures store { self.new.store ≡ record self.old.store { entries = living self.old.store.moment self.old.store.entries } }
        ensures marked { AreMarked self.old.marks self.new.marks (keys_of (dead_of self.old.store.moment self.old.store.entries)) }
        ensures alive { NoneDead self.new.store }
        ensures room { HasRoom self.new }
    {
        while let Some(left) = self.store.expire_one() {
            self.marks.mark(left);
        }
    }

    /// The entries of a delivery, in the order Stop Monitoring, Estimated Timetable, Vehicle Monitoring, Situation
    /// Exchange. Its items are kept and none is copied.
    pub(crate) fn feed(
        &mut self,
        alloc: Global,
        delivery: ServiceDelivery,
    ) -> Result<(), OutOfMemory>
        requires alive { NoneDead self.old.store }
        requires room { HasRoom self.old }
        ensures ok { OnOk result (TakesEntries self.old self.new (entries_of delivery)) }
        ensures err { OnErr result (ReachesSome self.old self.new (entries_of delivery)) }
        ensures alive { NoneDead self.new.store }
        ensures room { HasRoom self.new }
    {
        let ServiceDelivery {
            stop_monitoring_delivery,
            estimated_timetable_delivery,
            vehicle_monitoring_delivery,
            situation_exchange_delivery,
            ..
        } = delivery;
        self.feed_all(alloc, stop_monitoring_delivery)?;
        self.feed_all(alloc, estimated_timetable_delivery)?;
        self.feed_all(alloc, vehicle_monitoring_delivery)?;
        self.feed_all(alloc, situation_exchange_delivery)?;
        Ok(())
    }

    /// The entries of one service, delivery by delivery.
    fn feed_all(
        &mut self,
        alloc: Global,
        deliveries: List<FunctionalDelivery>,
    ) -> Result<(), OutOfMemory>
        requires alive { NoneDead self.old.store }
        requires room { HasRoom self.old }
        ensures ok { OnOk result (TakesEntries self.old self.new (flat_map entries_in deliveries)) }
        ensures err { OnErr result (ReachesSome self.old self.new (flat_map entries_in deliveries)) }
        ensures alive { NoneDead self.new.store }
        ensures room { HasRoom self.new }
    {
        for delivery in deliveries.into_vec() {
            self.feed_one(alloc, delivery)?;
        }
        Ok(())
    }

    /// Items before removals.
    fn feed_one(&mut self, alloc: Global, delivery: FunctionalDelivery) -> Result<(), OutOfMemory>
        requires alive { NoneDead self.old.store }
        requires room { HasRoom self.old }
        ensures ok { OnOk result (TakesEntries self.old self.new (entries_in delivery)) }
        ensures err { OnErr result (ReachesSome self.old self.new (entries_in delivery)) }
        ensures alive { NoneDead self.new.store }
        ensures room { HasRoom self.new }
    {
        let (items, removals) = delivery.into_entries();
        self.observe_all(alloc, items)?;
        self.withdraw_all(alloc, removals.slice())
    }

    /// The items are observed in order; after want of memory the first few of them are.
    fn observe_all(&mut self, alloc: Global, items: List<SharedItem>) -> Result<(), OutOfMemory>
        requires alive { NoneDead self.old.store }
        requires room { HasRoom self.old }
        ensures ok { OnOk result (TakesEntries self.old self.new (map Observed items)) }
        ensures err { OnErr result (ReachesSome self.old self.new (map Observed items)) }
        ensures alive { NoneDead self.new.store }
        ensures room { HasRoom self.new }
    {
        for item in items.into_vec() {
            self.observe(alloc, item)?;
        }
        Ok(())
    }

    /// An item that isn't dead, and whose key isn't live, is refused where as many keys are live as may be. Its key is
    /// marked, also where it is refused; after want of memory it isn't.
    pub(crate) fn observe(&mut self, alloc: Global, item: SharedItem) -> Result<(), OutOfMemory>
        requires alive { NoneDead self.old.store }
        requires room { HasRoom self.old }
        ensures ok { OnOk result (TakesEntries self.old self.new (Observed item ∷ [])) }
        ensures err { OnErr result (TakesEntries self.old self.new []) }
        ensures alive { NoneDead self.new.store }
        ensures room { HasRoom self.new }
    {
        let item = item.into_inner();
        let key = SharedKey::of(alloc, &item)?;
        let own = key.copy()?;
        self.marks.reserve(self.store.held() + 2)?;
        match self.store.observe_under(own, item) {
            Ok(()) => {
                self.fed.observed = self.fed.observed.saturating_add(1);
                self.marks.mark(key);
                Ok(())
            }
            Err(ObserveError::StoreFull) => {
                self.fed.full = self.fed.full.saturating_add(1);
                self.marks.mark(key);
                Ok(())
            }
            Err(ObserveError::OutOfMemory) => Err(OutOfMemory),
        }
    }

    /// The keys are withdrawn in order; after want of memory the first few of them are.
    pub(crate) fn withdraw_all(
        &mut self,
        alloc: Global,
        removals: &[Key],
    ) -> Result<(), OutOfMemory>
        requires alive { NoneDead self.old.store }
        requires room { HasRoom self.old }
        ensures ok { OnOk result (TakesEntries self.old self.new (map Withdrawn removals.now)) }
        ensures err { OnErr result (ReachesSome self.old self.new (map Withdrawn removals.now)) }
        ensures alive { NoneDead self.new.store }
        ensures room { HasRoom self.new }
    {
        for key in removals {
            self.withdraw(alloc, key)?;
        }
        Ok(())
    }

    /// The key has no item afterwards, whether it had one or not, and is marked; after want of memory all is as it was.
    fn withdraw(&mut self, alloc: Global, key: &Key) -> Result<(), OutOfMemory>
        requires alive { NoneDead self.old.store }
        requires room { HasRoom self.old }
        ensures ok { OnOk result (TakesEntries self.old self.new (Withdrawn key.now ∷ [])) }
        ensures err { OnErr result (TakesEntries self.old self.new []) }
        ensures alive { NoneDead self.new.store }
        ensures room { HasRoom self.new }
    {
        let shared = SharedKey::new(alloc, key.copy()?)?;
        self.marks.reserve(self.store.held() + 1)?;
        let _ = self.store.withdraw(key);
        self.marks.mark(shared);
        self.fed.withdrawn = self.fed.withdrawn.saturating_add(1);
        Ok(())
    }
}
