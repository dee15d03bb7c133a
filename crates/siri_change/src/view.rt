//! Views of current items.

ghost use Rattle.std.specs.Prelude.{◌≡◌, [], ◌∷◌, ◌++◌, length, option_map, slice_get, ◌+◌, ◌<◌, ◌≤◌, ◌^◌, IsNone, IsSome, IsOk, IfOk, OnSome, OnOk, OnErr};
ghost use Rattle.std.specs.List.Sorted.{IsStrictlySortedBy};
ghost use Rattle.std.specs.Map.{keys_of};
ghost use Rattle.siri_records.specs.Order.{key_cmp};
ghost use Rattle.siri_records.specs.Keyed.{InOrder, item_of, deref_entry, after_change, apply};
ghost use Rattle.siri_change.specs.Parts.{base_view, led_to};

use crate::Change;
use siri_base::{Copies, List, OutOfMemory};
use siri_records::{Item, Key, KeyedItems, Room, SharedKey};
use std::alloc::Global;
use std::marker::Model;
use std::rc::Rc;

/// Shared items by their shared keys. Contracts see the keys with the items themselves, in order of key, each key once.
pub struct View {
    items: KeyedItems,
}

impl Drop for View {
    fn drop(self) {
        let View { items: _ } = self;
    }
}

impl Model for View {
    ghost use Rattle.siri_records.specs.Keyed.{Items};

    ghost Value = { Items };

    ghost view = { λ v. v.items };
}

impl View {
    /// The view that holds nothing. It takes no memory.
    pub fn new(alloc: Global) -> View
        ensures { result ≡ [] }
    {
        View {
            items: KeyedItems::new(alloc),
        }
    }

    /// The view of items with their keys, which it keeps. It takes no memory.
    pub fn of(items: KeyedItems) -> View
        ensures { result ≡ items }
    {
        View { items }
    }

    /// How many keys it holds.
    pub fn len(&self) -> usize
        ensures number { result ≡ length self.now }
        ensures ordered { InOrder self.now }
    {
        self.items.len()
    }

    /// The item of a key.
    pub fn get(&self, key: &Key) -> Option<&Rc<Item>>
        ensures { option_map (λ item. item.now.value) result ≡ item_of self.now key.now }
    {
        self.items.get(key)
    }

    /// The item at a place in order of key, counted from 0, or `None` exactly where the place isn't below the length.
    pub fn at(&self, place: usize) -> Option<&Rc<Item>>
        ensures { option_map (λ item. item.now.value) result ≡ option_map (λ entry. entry.1) (slice_get self.now place) }
    {
        match self.entry(place) {
            Some(entry) => Some(&entry.1),
            None => None,
        }
    }

    /// The key and the item at a place in order of key, counted from 0, or `None` exactly where the place isn't below
    /// the length.
    pub fn entry(&self, place: usize) -> Option<&(SharedKey, Rc<Item>)>
        ensures entry { option_map deref_entry result ≡ slice_get self.now place }
        ensures small { OnSome result (place + 1 < 2 ^ 64) }
        ensures ordered { InOrder self.now }
    {
        self.items.entry(place)
    }

    /// Makes a change: an item becomes the one of its key, and a removal removes the key, where it is held. After want
    /// of memory the view is as before; a removal, and an item of a held key, take none.
    pub fn put_change(&mut self, change: Change) -> Result<(), OutOfMemory>
        ensures ok { OnOk result (self.new ≡ after_change self.old change) }
        ensures err { OnErr result (self.new ≡ self.old) }
        ensures removal { IsNone change.1 → IsOk result }
        ensures held { IsSome (item_of self.old change.0) → IsOk result }
    {
        self.items.change(change)
    }

    /// Makes changes, one after the other, as of all parts of a round. The memory for all of them is taken before the
    /// first: after want of memory the view is as before.
    pub fn put_changes(&mut self, list: List<Change>) -> Result<(), OutOfMemory>
        ensures ok { OnOk result (self.new ≡ apply self.old list) }
        ensures err { OnErr result (self.new ≡ self.old) }
    {
        self.items.change_all(list)
    }

    /// Room for this number of changes of a round, which are made later: with incremental updates on the view, else on
    /// the empty one. It is for some more items, so that few rounds move what is held.
    pub fn room_for(&self, incremental: bool, number: usize) -> Result<Room, OutOfMemory>
        ensures { IfOk result (λ room. length (base_view self.now incremental) + number ≤ room) }
    {
        let held = if incremental { self.len() } else { 0 };
        let Some(least) = held.checked_add(number) else {
            return Err(OutOfMemory);
        };
        let room = Room::new(self.allocator(), least.saturating_add(held / 4))?;
        Ok(room)
    }

    /// Makes the changes of a round, for which room was taken before: with incremental updates on the view, else on the
    /// empty one. It takes no memory.
    pub fn make(&mut self, incremental: bool, list: List<Change>, room: Room)
        requires { length (base_view self.old incremental) + length list ≤ room }
        ensures { self.new ≡ led_to self.old incremental list }
    {
        if !incremental {
            self.items = KeyedItems::new(self.allocator());
        }
        self.items.change_within(list, room);
    }

    /// Puts an item at the end: its key is above those that are held. After want of memory the view is as before.
    pub fn push_last(&mut self, key: SharedKey, item: Rc<Item>) -> Result<(), OutOfMemory>
        requires { IsStrictlySortedBy key_cmp (keys_of self.old ++ key ∷ []) }
        ensures ok { OnOk result (self.new ≡ self.old ++ (key, item.value) ∷ []) }
        ensures err { OnErr result (self.new ≡ self.old) }
    {
        self.items.push_last(key, item)
    }

    /// The allocator of its entries, for a view that is made from it.
    pub(crate) fn allocator(&self) -> Global {
        self.items.allocator()
    }
}

impl Copies for View {
    fn copy(&self) -> Result<Self, OutOfMemory> {
        Ok(View {
            items: self.items.copy()?,
        })
    }
}
