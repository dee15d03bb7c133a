//! Shared items by their keys.

ghost use Rattle.std.specs.Prelude.{◌≡◌, ◌<◌, ◌≤◌, ◌+◌, ◌^◌, [], ◌∷◌, ◌++◌, length, option_map, is_some, slice_get, IsNone, IsSome, IfSome, IsOk, OnSome, OnOk, OnErr};
ghost use Rattle.std.specs.List.Sorted.{IsStrictlySortedBy};
ghost use Rattle.std.specs.Map.{keys_of, lookup, remove_entry};
ghost use Rattle.std.specs.BTreeMap.{insert_entry, is_at};
ghost use Rattle.siri_records.specs.Order.{key_cmp};
ghost use Rattle.siri_records.specs.Keyed.{InOrder, PlacedAt, deref_entry, after_change, apply};

use crate::entries::{copy_entry, find, make, make_within, put, remove, take, widen};
use crate::{Change, Item, Key, Room, SharedKey};
use siri_base::{Copies, List, OutOfMemory};
use std::alloc::Global;
use std::marker::Model;
use std::rc::Rc;

/// Shared items by their keys, in order of key, each key once. Contracts see the keys with the items themselves.
///
/// A key is found by halves. An item of a key that isn't held moves those behind it up, and a removal moves them down:
/// each is two pointers, to its key and to its item, which others may hold too. A copy of all is two counts an entry.
pub struct KeyedItems {
    entries: Vec<(SharedKey, Rc<Item>)>,
}

impl Drop for KeyedItems {
    fn drop(self) {
        let KeyedItems { entries: _ } = self;
    }
}

impl Model for KeyedItems {
    ghost use Rattle.siri_records.specs.Keyed.{Items, InOrder, entries_view};

    ghost Value = { Items };

    ghost view = { λ s. entries_view s.entries.items };

    ghost invariant = { λ s. InOrder s.entries.items };
}

impl KeyedItems {
    /// Those that hold nothing. It takes no memory.
    pub fn new(alloc: Global) -> KeyedItems
        ensures { result ≡ [] }
    {
        KeyedItems {
            entries: Vec::new(alloc),
        }
    }

    /// How many keys are held.
    pub fn len(&self) -> usize
        ensures number { result ≡ length self.now }
        ensures ordered { InOrder self.now }
    {
        self.entries.len()
    }

    /// The key and the item at a place in order of key, counted from 0, or `None` exactly where the place isn't below
    /// the length.
    pub fn entry(&self, place: usize) -> Option<&(SharedKey, Rc<Item>)>
        ensures entry { option_map deref_entry result ≡ slice_get self.now place }
        ensures onward { PlacedAt self.now place (option_map deref_entry result) }
        ensures small { OnSome result (place + 1 < 2 ^ 64) }
        ensures ordered { InOrder self.now }
    {
        match self.entries.get(place) {
            Some(entry) => Some(entry),
            None => None,
        }
    }

    /// The item of a key, or `None` exactly where the key isn't held.
    pub fn get(&self, key: &Key) -> Option<&Rc<Item>>
        ensures { option_map (λ item. item.now.value) result ≡ lookup (is_at (key_cmp key.now)) self.now }
    {
        match find(&self.entries, key) {
            Ok(at) => Some(&self.entries[at].1),
            Err(_) => None,
        }
    }

    /// The entry of a key, or `None` exactly where the key isn't held.
    pub fn find(&self, key: &Key) -> Option<&(SharedKey, Rc<Item>)>
        ensures { option_map deref_entry result ≡ option_map (λ item. (key.now, item)) (lookup (is_at (key_cmp key.now)) self.now) }
    {
        match find(&self.entries, key) {
            Ok(at) => Some(&self.entries[at]),
            Err(_) => None,
        }
    }

    /// Whether a key is held.
    pub fn has(&self, key: &Key) -> bool
        ensures { result ≡ is_some (lookup (is_at (key_cmp key.now)) self.now) }
    {
        self.get(key).is_some()
    }

    /// An item becomes the one of a key. After want of memory all is as before; an item of a held key takes none.
    pub fn put(&mut self, key: SharedKey, item: Rc<Item>) -> Result<(), OutOfMemory>
        ensures ok { OnOk result (self.new ≡ insert_entry key_cmp self.old key item.value) }
        ensures err { OnErr result (self.new ≡ self.old) }
        ensures held { IsSome (lookup (is_at (key_cmp key)) self.old) → IsOk result }
        ensures ordered { InOrder self.new }
    {
        put(&mut self.entries, key, item)
    }

    /// Puts an item at the end: its key is above those that are held. After want of memory all is as before.
    pub fn push_last(&mut self, key: SharedKey, item: Rc<Item>) -> Result<(), OutOfMemory>
        requires { IsStrictlySortedBy key_cmp (keys_of self.old ++ key ∷ []) }
        ensures ok { OnOk result (self.new ≡ self.old ++ (key, item.value) ∷ []) }
        ensures err { OnErr result (self.new ≡ self.old) }
    {
        self.entries.push((key, item))?;
        Ok(())
    }

    /// Removes a key: true exactly where it was held. It takes no memory.
    pub fn remove(&mut self, key: &Key) -> bool
        ensures rest { self.new ≡ remove_entry (is_at (key_cmp key.now)) self.old }
        ensures held { result ≡ is_some (lookup (is_at (key_cmp key.now)) self.old) }
    {
        remove(&mut self.entries, key)
    }

    /// Takes out the entry of a key, where it is held. It takes no memory.
    pub fn take(&mut self, key: &Key) -> Option<(SharedKey, Rc<Item>)>
        ensures rest { self.new ≡ remove_entry (is_at (key_cmp key.now)) self.old }
        ensures item { option_map (λ entry. entry.1.value) result ≡ lookup (is_at (key_cmp key.now)) self.old }
        ensures key { IfSome result (λ entry. entry.0 ≡ key.now) }
        ensures ordered { InOrder self.new }
    {
        take(&mut self.entries, key)
    }

    /// Makes a change: an item becomes the one of its key, and a removal removes the key, where it is held. After want
    /// of memory all is as before; a removal, and an item of a held key, take none.
    pub fn change(&mut self, change: Change) -> Result<(), OutOfMemory>
        ensures ok { OnOk result (self.new ≡ after_change self.old change) }
        ensures err { OnErr result (self.new ≡ self.old) }
        ensures removal { IsNone change.1 → IsOk result }
        ensures held { IsSome (lookup (is_at (key_cmp change.0)) self.old) → IsOk result }
    {
        make(&mut self.entries, change)
    }

    /// Makes changes, one after the other. Room for all of them is taken first: after want of memory all is as before.
    pub fn change_all(&mut self, list: List<Change>) -> Result<(), OutOfMemory>
        ensures ok { OnOk result (self.new ≡ apply self.old list) }
        ensures err { OnErr result (self.new ≡ self.old) }
    {
        let ready = list.into_vec();
        self.entries.reserve(ready.len())?;
        for change in ready {
            make(&mut self.entries, change)?;
        }
        Ok(())
    }

    /// Makes changes, one after the other, for which room was taken before. It takes no memory.
    pub fn change_within(&mut self, list: List<Change>, room: Room)
        requires { length self.old + length list ≤ room }
        ensures { self.new ≡ apply self.old list }
    {
        let ready = list.into_vec();
        widen(&mut self.entries, ready.len(), room.into_entries());
        for change in ready {
            make_within(&mut self.entries, change);
        }
    }

    /// Where the memory for more of them comes from.
    pub fn allocator(&self) -> Global {
        *self.entries.allocator()
    }
}

impl Copies for KeyedItems {
    fn copy(&self) -> Result<Self, OutOfMemory> {
        let mut entries = Vec::new(self.allocator());
        entries.reserve(self.entries.len())?;
        for entry in &self.entries {
            entries.push(copy_entry(entry)?)?;
        }
        Ok(KeyedItems { entries })
    }
}
