//! Shared items in a vector, in order of key.

ghost use Rattle.std.specs.Prelude.{◌≡◌, ◌<◌, ◌≤◌, ◌+◌, [], vec_len, length, is_some, option_map, IsNone, IsSome, IfSome, IsOk, OnOk, OnErr, IfOk, Err};
ghost use Rattle.std.specs.Bool.{OnTrue};
ghost use Rattle.std.specs.Vec.{vec_capacity};
ghost use Rattle.std.specs.Map.{remove_entry};
ghost use Rattle.std.specs.BTreeMap.{insert_entry, is_at};
ghost use Rattle.siri_records.specs.Order.{key_cmp};
ghost use Rattle.siri_records.specs.Keyed.{InOrder, item_of, after_change, entries_view};
ghost use Rattle.siri_records.specs.Places.{Finds, set_value_at};

use crate::{Change, Item, Key, SharedKey};
use siri_base::{Copies, OutOfMemory};
use std::cmp::Ordering;
use std::rc::Rc;

/// A key and its item, both of which others may hold too: an entry is two pointers.
pub(crate) type Entry = (SharedKey, Rc<Item>);

/// Where the key stands, or where it would. A key above all that are held is told by one comparison, so that those in
/// order cost no search.
pub(crate) fn find(entries: &Vec<Entry>, key: &Key) -> Result<usize, usize>
    requires { InOrder entries.now.items }
    ensures { Finds (key_cmp key.now) entries.now.items result }
{
    if is_above_all(entries, key) {
        return Err(entries.len());
    }
    search(entries, key)
}

/// Whether there are entries, and the key is above the last of them.
fn is_above_all(entries: &Vec<Entry>, key: &Key) -> bool
    requires { InOrder entries.now.items }
    ensures { OnTrue result (Finds (key_cmp key.now) entries.now.items (Err (length entries.now.items))) }
{
    match entries.last() {
        Some(last) => compare(last.0.key(), key).is_lt(),
        None => false,
    }
}

/// Where the key stands, or where it would, by halves.
fn search(entries: &Vec<Entry>, key: &Key) -> Result<usize, usize>
    requires { InOrder entries.now.items }
    ensures { Finds (key_cmp key.now) entries.now.items result }
{
    entries.binary_search_by(
        |entry: &Entry| -> Ordering
            ensures { result ≡ key_cmp entry.now.0 key.entry.now }
        { compare(entry.0.key(), key) },
    )
}

/// Keys by service, then by their names in turn, an absent name first.
fn compare(a: &Key, b: &Key) -> Ordering
    ensures { result ≡ key_cmp a.now b.now }
{
    a.cmp(b)
}

/// The change is made. It takes no memory where there is room for one more entry.
pub(crate) fn make(entries: &mut Vec<Entry>, change: Change) -> Result<(), OutOfMemory>
    requires { InOrder entries.old.items }
    ensures ok { OnOk result (entries_view entries.new.items ≡ after_change (entries_view entries.old.items) change) }
    ensures err { OnErr result (entries.new.items ≡ entries.old.items) }
    ensures ordered { InOrder entries.new.items }
    ensures removal { IsNone change.1 → IsOk result }
    ensures held { IsSome (item_of (entries_view entries.old.items) change.0) → IsOk result }
    ensures room { vec_len entries.old < vec_capacity entries.old → IsOk result }
    ensures len { vec_len entries.new ≤ vec_len entries.old + 1 }
    ensures capacity { vec_capacity entries.old ≤ vec_capacity entries.new }
{
    let Change { key, item } = change;
    match item {
        Some(item) => put(entries, key, item),
        None => {
            let _ = remove(entries, key.key());
            drop(key);
            Ok(())
        }
    }
}

/// The change is made, for which there is room. It takes no memory.
pub(crate) fn make_within(entries: &mut Vec<Entry>, change: Change)
    requires ordered { InOrder entries.old.items }
    requires room { vec_len entries.old < vec_capacity entries.old }
    ensures change { entries_view entries.new.items ≡ after_change (entries_view entries.old.items) change }
    ensures ordered { InOrder entries.new.items }
    ensures len { vec_len entries.new ≤ vec_len entries.old + 1 }
    ensures capacity { vec_capacity entries.old ≤ vec_capacity entries.new }
{
    let _ = make(entries, change);
}

/// Where there isn't room for so many more, the entries move to where it was taken for all of them. It takes no memory.
pub(crate) fn widen(entries: &mut Vec<Entry>, more: usize, mut room: Vec<Entry>)
    requires empty { room.items ≡ [] }
    requires room { vec_len entries.old + more ≤ vec_capacity room }
    ensures items { entries.new.items ≡ entries.old.items }
    ensures room { vec_len entries.new + more ≤ vec_capacity entries.new }
{
    if entries.capacity() - entries.len() < more {
        let _ = room.append(entries);
        *entries = room;
    }
}

/// The item becomes the one of the key. Room for a key that isn't held is taken before anything changes.
pub(crate) fn put(
    entries: &mut Vec<Entry>,
    key: SharedKey,
    item: Rc<Item>,
) -> Result<(), OutOfMemory>
    requires { InOrder entries.old.items }
    ensures ok { OnOk result (entries_view entries.new.items ≡ insert_entry key_cmp (entries_view entries.old.items) key item.value) }
    ensures err { OnErr result (entries.new.items ≡ entries.old.items) }
    ensures ordered { InOrder entries.new.items }
    ensures held { IsSome (item_of (entries_view entries.old.items) key) → IsOk result }
    ensures room { vec_len entries.old < vec_capacity entries.old → IsOk result }
    ensures len { vec_len entries.new ≤ vec_len entries.old + 1 }
    ensures capacity { vec_capacity entries.old ≤ vec_capacity entries.new }
{
    match find(entries, key.key()) {
        Ok(at) => {
            drop(key);
            replace(entries, at, item);
            Ok(())
        }
        Err(at) => {
            entries.insert(at, (key, item))?;
            Ok(())
        }
    }
}

/// Whether the key was held. It isn't afterwards.
pub(crate) fn remove(entries: &mut Vec<Entry>, key: &Key) -> bool
    requires { InOrder entries.old.items }
    ensures rest { entries_view entries.new.items ≡ remove_entry (is_at (key_cmp key.now)) (entries_view entries.old.items) }
    ensures held { result ≡ is_some (item_of (entries_view entries.old.items) key.now) }
    ensures ordered { InOrder entries.new.items }
    ensures len { vec_len entries.new ≤ vec_len entries.old }
    ensures capacity { vec_capacity entries.old ≤ vec_capacity entries.new }
{
    take(entries, key).is_some()
}

/// The entry of a key, which isn't held afterwards.
pub(crate) fn take(entries: &mut Vec<Entry>, key: &Key) -> Option<Entry>
    requires { InOrder entries.old.items }
    ensures rest { entries_view entries.new.items ≡ remove_entry (is_at (key_cmp key.now)) (entries_view entries.old.items) }
    ensures item { option_map (λ entry. entry.1.value) result ≡ item_of (entries_view entries.old.items) key.now }
    ensures key { IfSome result (λ entry. entry.0 ≡ key.now) }
    ensures ordered { InOrder entries.new.items }
    ensures len { vec_len entries.new ≤ vec_len entries.old }
    ensures capacity { vec_capacity entries.old ≤ vec_capacity entries.new }
{
    match find(entries, key) {
        Ok(at) => Some(entries.remove(at)),
        Err(_) => None,
    }
}

/// The item at a place becomes this one; its key stays. It takes no memory.
fn replace(entries: &mut Vec<Entry>, at: usize, item: Rc<Item>)
    requires { at < vec_len entries.old }
    ensures items { entries.new.items ≡ set_value_at entries.old.items at item }
    ensures len { vec_len entries.new ≡ vec_len entries.old }
    ensures capacity { vec_capacity entries.new ≡ vec_capacity entries.old }
{
    entries[at].1 = item;
}

/// The same item under the same key, both shared.
pub(crate) fn copy_entry(entry: &Entry) -> Result<Entry, OutOfMemory>
    ensures { IfOk result (λ copy. (copy.0 ≡ entry.now.0) × (copy.1.value ≡ entry.now.1.value)) }
{
    let item = entry.1.clone()?;
    Ok((entry.0.copy()?, item))
}
