//! Keys in order of moments: by when their items end, and by the edges at which these may come into a window or leave
//! it, all of a service and those of each stop and each line.

ghost use Rattle.std.specs.Prelude.{◌≡◌, ◌+◌, ◌<◌, ◌^◌, ℕ, pos, nat_lt, int_lt, [], ◌∷◌, ◌&&◌, ◌||◌, not, Some, IsSome, option_map, IfSome, IfNone, OnOk, OnErr};
ghost use Rattle.std.specs.List.Sorted.{IsStrictlySortedBy};
ghost use Rattle.siri_store.specs.Stamped.{Stamp, stamp_cmp, has_stamp, has, moments_of, moments_held, is_one_at, is_one_named, is_one_of, own_end_of, end_cmp, earlier, IsFirstIn, IsFirstEnd, NoneEnded, AllKeyed};
ghost use Rattle.std.specs.Ordering.{is_gt};
ghost use Rattle.siri_records.specs.Edges.{listed};
ghost use Rattle.siri_store.specs.Between.{between, inside, since};

use crate::order_numbers::{BY_END, by_edge, is_by_name, order_of_name};
use siri_base::{Copies, Moment, OutOfMemory};
use siri_records::{Item, Moments, Service, SharedKey, edges_of, ends_of};
use siri_topic::Window;
use std::alloc::Global;
use std::cmp::Ordering;
use std::collections::BTreeSet;
use std::collections::btree_set::Range;
use std::marker::Model;

/// The number of an order, a moment and a key. The bounds of a range have no key, which comes before all keys.
pub(crate) type Stamp = (u64, u64, Option<SharedKey>);

/// Stamps by order, then by moment and then by key, each once.
pub(crate) struct Stamps {
    set: BTreeSet<Stamp>,
}

impl Drop for Stamps {
    fn drop(self) {
        let Stamps { set: _ } = self;
    }
}

impl Model for Stamps {
    ghost use Rattle.std.specs.Prelude.{List};
    ghost use Rattle.siri_store.specs.Stamped.{Stamp};

    ghost Value = { List Stamp };

    ghost view = { λ s. s.set.keys };
}

impl Stamps {
    /// No stamps. It takes no memory.
    pub(crate) fn new(alloc: Global) -> Stamps
        ensures { result ≡ [] }
    {
        Stamps {
            set: BTreeSet::new(alloc),
        }
    }

    /// The stamps of an item more. After want of memory there may be some of them more.
    pub(crate) fn add(&mut self, item: &Item, key: &SharedKey) -> Result<(), OutOfMemory>
        ensures ok { OnOk result ((stamp : Stamp) → has_stamp self.new stamp ≡ (is_one_of key.now (Some item.now) stamp || has_stamp self.old stamp)) }
        ensures some { (stamp : Stamp) → has_stamp self.new stamp ≡ (has_stamp self.old stamp || (is_one_of key.now (Some item.now) stamp && has_stamp self.new stamp)) }
    {
        self.put_all(BY_END, own_ends_of(item), key)?;
        self.put_all(by_edge(item.service()), edges_of(item), key)?;
        self.put_named(order_of_name(item), edges_of(item), key)
    }

    /// Without the stamps of an item, but for those of one that stays under its key. It takes no memory.
    pub(crate) fn take_out(
        &mut self,
        item: Option<&Item>,
        kept: Option<&Item>,
        key: SharedKey,
    ) -> SharedKey
        ensures rest { (stamp : Stamp) → has_stamp self.new stamp ≡ (has_stamp self.old stamp && not (is_one_of key (option_map (λ item. item.now) item.entry) stamp && not (is_one_of key (option_map (λ item. item.now) kept.entry) stamp))) }
        ensures key { result ≡ key }
    {
        match item {
            None => key,
            Some(item) => {
                let key = self.remove_all(BY_END, own_ends_of(item), kept, key);
                let key = self.remove_all(by_edge(item.service()), edges_of(item), kept, key);
                self.remove_named(order_of_name(item), edges_of(item), kept, key)
            }
        }
    }

    /// As `put_all`, in an order that there may not be.
    fn put_named(
        &mut self,
        order: Option<u64>,
        moments: Moments,
        key: &SharedKey,
    ) -> Result<(), OutOfMemory>
        ensures ok { OnOk result ((stamp : Stamp) → has_stamp self.new stamp ≡ (is_one_named order key.now moments.entry stamp || has_stamp self.old stamp)) }
        ensures some { (stamp : Stamp) → has_stamp self.new stamp ≡ (has_stamp self.old stamp || (is_one_named order key.now moments.entry stamp && has_stamp self.new stamp)) }
    {
        match order {
            Some(order) => self.put_all(order, moments, key),
            None => Ok(()),
        }
    }

    /// A stamp more for each moment. After want of memory there may be some of them more.
    fn put_all(&mut self, order: u64, moments: Moments, key: &SharedKey) -> Result<(), OutOfMemory>
        ensures ok { OnOk result ((stamp : Stamp) → has_stamp self.new stamp ≡ (is_one_at order key.now moments.entry stamp || has_stamp self.old stamp)) }
        ensures some { (stamp : Stamp) → has_stamp self.new stamp ≡ (has_stamp self.old stamp || (is_one_at order key.now moments.entry stamp && has_stamp self.new stamp)) }
    {
        for moment in moments {
            self.put(order, moment, key)?;
        }
        Ok(())
    }

    /// One stamp more. After want of memory all is as before.
    fn put(&mut self, order: u64, moment: Moment, key: &SharedKey) -> Result<(), OutOfMemory>
        ensures ok { OnOk result ((stamp : Stamp) → has_stamp self.new stamp ≡ (is_one_at order key.now (moment ∷ []) stamp || has_stamp self.old stamp)) }
        ensures err { OnErr result (self.new ≡ self.old) }
    {
        self.set.insert(stamp(order, moment, key.copy()?))?;
        Ok(())
    }

    /// As `remove_all`, in an order that there may not be.
    fn remove_named(
        &mut self,
        order: Option<u64>,
        moments: Moments,
        kept: Option<&Item>,
        key: SharedKey,
    ) -> SharedKey
        ensures rest { (stamp : Stamp) → has_stamp self.new stamp ≡ (has_stamp self.old stamp && not (is_one_named order key moments.entry stamp && not (is_one_of key (option_map (λ item. item.now) kept.entry) stamp))) }
        ensures key { result ≡ key }
    {
        match order {
            Some(order) => self.remove_all(order, moments, kept, key),
            None => key,
        }
    }

    /// Without the stamps at these moments, but for those of an item that stays. It takes no memory.
    fn remove_all(
        &mut self,
        order: u64,
        moments: Moments,
        kept: Option<&Item>,
        key: SharedKey,
    ) -> SharedKey
        ensures rest { (stamp : Stamp) → has_stamp self.new stamp ≡ (has_stamp self.old stamp && not (is_one_at order key moments.entry stamp && not (is_one_of key (option_map (λ item. item.now) kept.entry) stamp))) }
        ensures key { result ≡ key }
    {
        let mut key = key;
        for moment in moments {
            if !is_kept(kept, order, moment) {
                key = self.remove(order, moment, key);
            }
        }
        key
    }

    /// Without a stamp. A set is asked by a stamp that one has, so the key is lent to it and given back: it takes no
    /// memory.
    fn remove(&mut self, order: u64, moment: Moment, key: SharedKey) -> SharedKey
        ensures rest { (stamp : Stamp) → has_stamp self.new stamp ≡ (has_stamp self.old stamp && not (is_one_at order key (moment ∷ []) stamp)) }
        ensures key { result ≡ key }
    {
        let stamp = stamp(order, moment, key);
        let _ = self.set.remove(&stamp);
        key_in(stamp)
    }

    /// The stamps of an order, at or after one number of milliseconds since 1970 and before another.
    pub(crate) fn between(&self, order: u64, from: i64, to: i64) -> Range<'_, Stamp>
        ensures stamps { result ≡ between order from to self.now }
        ensures ordered { IsStrictlySortedBy stamp_cmp self.now }
    {
        let low = bound(from);
        let high = bound(to).max(low);
        self.set.range((order, low, None)..(order, high, None))
    }

    /// The stamps of an order, at or after a number of milliseconds since 1970.
    pub(crate) fn since(&self, order: u64, from: i64) -> Range<'_, Stamp>
        requires { order + 1 < 2 ^ 64 }
        ensures stamps { result ≡ since order from self.now }
        ensures ordered { IsStrictlySortedBy stamp_cmp self.now }
    {
        self.set
            .range((order, bound(from), None)..(order + 1, 0, None))
    }

    /// The stamps of an order in a window.
    pub(crate) fn inside(&self, order: u64, window: Window) -> Range<'_, Stamp>
        requires { order + 1 < 2 ^ 64 }
        ensures stamps { result ≡ inside order window self.now }
        ensures ordered { IsStrictlySortedBy stamp_cmp self.now }
    {
        match window.to {
            Some(to) => self.between(order, window.from, to),
            None => self.since(order, window.from),
        }
    }

    /// The key of the first stamp of ends, where that is of a moment before another. Those are the stamps by ends and, of
    /// visits, those by edges.
    pub(crate) fn first_ended(&self, now: Moment) -> Option<&SharedKey>
        requires { AllKeyed self.now }
        ensures first { IfSome result (λ key. IsFirstEnd now self.now key.now) }
        ensures none { IfNone result (NoneEnded now self.now) }
    {
        let end = self.first_of(BY_END);
        let visit = self.first_of(by_edge(Service::Stop));
        let first = earlier(end, visit)?;
        if is_before(first, now) {
            first.2.as_ref()
        } else {
            None
        }
    }

    /// The first stamp of an order.
    fn first_of(&self, order: u64) -> Option<&Stamp>
        requires { order + 1 < 2 ^ 64 }
        ensures { IsFirstIn order self.now (option_map (λ first. first.now) result) }
    {
        let mut stamps = self.since(order, 0);
        let first = stamps.next()?;
        Some(first)
    }
}

/// Of two stamps the earlier by moment and then by key; the one, where there is no other.
fn earlier<'a>(one: Option<&'a Stamp>, other: Option<&'a Stamp>) -> Option<&'a Stamp>
    ensures { option_map (λ stamp. stamp.now) result ≡ earlier (option_map (λ stamp. stamp.now) one.entry) (option_map (λ stamp. stamp.now) other.entry) }
{
    match (one, other) {
        (Some(one), Some(other)) => {
            if is_later(one, other) {
                Some(other)
            } else {
                Some(one)
            }
        }
        (None, other) => other,
        (one, None) => one,
    }
}

/// Whether a stamp is later than another by moment and then by key.
fn is_later(one: &Stamp, other: &Stamp) -> bool
    ensures { result ≡ is_gt (end_cmp one.now other.now) }
{
    one.1.cmp(&other.1).then_with(|| one.2.cmp(&other.2)) == Ordering::Greater
}

/// The first moment that isn't before a number of milliseconds since 1970.
fn bound(ms: i64) -> u64
    ensures { (moment : ℕ) → nat_lt moment result ≡ int_lt (pos moment) ms }
{
    if ms < 0 { 0 } else { ms as u64 }
}

/// The stamp of a key at a moment of an order.
fn stamp(order: u64, moment: Moment, key: SharedKey) -> Stamp
    ensures { result ≡ (order, moment, Some key) }
{
    (order, moment.ms() as u64, Some(key))
}

/// Whether a stamp is at a moment before another.
fn is_before(stamp: &Stamp, now: Moment) -> bool
    ensures { result ≡ nat_lt stamp.now.1 now }
{
    stamp.1 < now.ms() as u64
}

/// The key of a stamp that has one.
fn key_in(stamp: Stamp) -> SharedKey
    requires { IsSome stamp.2 }
    ensures { Some result ≡ stamp.2 }
{
    stamp.2.unwrap()
}

/// Whether an item that stays has a moment in an order.
fn is_kept(kept: Option<&Item>, order: u64, moment: Moment) -> bool
    ensures { result ≡ has moment (moments_held order (option_map (λ item. item.now) kept.entry)) }
{
    match kept {
        Some(item) => has(moments(item, order), moment),
        None => false,
    }
}

/// Whether a moment is one of these.
fn has(moments: Moments, moment: Moment) -> bool
    ensures { result ≡ has moment moments.entry }
{
    for one in moments {
        if moment.ms() == one.ms() {
            return true;
        }
    }
    false
}

/// The moments of an item in an order: its end in the one, its edges in the one of its service and in that of its stop
/// or line.
fn moments(item: &Item, order: u64) -> Moments<'_>
    ensures { result ≡ moments_of order item.now }
{
    if order == BY_END {
        own_ends_of(item)
    } else if order == by_edge(item.service()) || is_by_name(item, order) {
        edges_of(item)
    } else {
        Moments::none()
    }
}

/// The end of an item that isn't its edge: a visit has none.
fn own_ends_of(item: &Item) -> Moments<'_>
    ensures { result ≡ listed (own_end_of item.now) }
{
    match item {
        Item::Visit(_) => Moments::none(),
        _ => ends_of(item),
    }
}
