//! What a look at a subscription reads of the store.

ghost use Rattle.std.specs.Prelude.{◌≡◌, ◌+◌, ◌≤◌, length, option_map, IfOk, OnOk};
ghost use Rattle.siri_records.specs.Keyed.{InOrder, entries_view, item_of};
ghost use Rattle.siri_model.specs.Followed.{items_passed};
ghost use Rattle.siri_model.specs.Looks.{crossed_items, found_of};
ghost use Rattle.siri_store.specs.Candidates.{candidates};
ghost use Rattle.siri_store.specs.Crossing.{crossed_entries};
ghost use Rattle.siri_topic.specs.Services.{service_asked};
ghost use Rattle.siri_responder.specs.Looking.{far_entries, near_entries, with_items};

use siri_base::{List, Moment, OutOfMemory};
use siri_records::{Change, Item, Key, KeyedItems, SharedKey};
use siri_store::Store;
use siri_topic::{Topic, Window, window};
use std::alloc::Global;
use std::collections::{BTreeMap, BTreeSet};
use std::rc::Rc;

/// The item that is held of a key, or none. It takes one step.
pub(crate) fn held_item(store: &mut Store, key: &Key) -> Result<Option<Rc<Item>>, OutOfMemory>
    ensures ok { IfOk result (λ item. option_map (λ item. item.value) item ≡ item_of store.old.entries key.now) }
    ensures rest { store.new ≡ record store.old { reads = store.new.reads } }
    ensures risen { store.old.reads ≤ store.new.reads }
    ensures reads { store.new.reads ≤ store.old.reads + 1 }
{
    match store.look(key) {
        Some(item) => Ok(Some(item.clone()?)),
        None => Ok(None),
    }
}

/// Of each of these keys, in order, the item that is held of it, or none. It takes at most a step a key.
pub(crate) fn found(
    alloc: Global,
    store: &mut Store,
    keys: BTreeSet<SharedKey>,
) -> Result<List<Change>, OutOfMemory>
    ensures ok { IfOk result (λ found. found ≡ found_of store.old.entries keys.keys) }
    ensures rest { store.new ≡ record store.old { reads = store.new.reads } }
    ensures risen { store.old.reads ≤ store.new.reads }
    ensures reads { store.new.reads ≤ store.old.reads + length keys.keys }
{
    let mut found = List::new(alloc);
    for key in keys {
        let item = held_item(store, key.key())?;
        found.push(Change { key, item })?;
    }
    Ok(found)
}

/// The held items that may be shown to a topic by their keys and that the ends of its window crossed between a moment and
/// the store's, in order of key. It takes at most a step for each of them of which the near end passed an edge, and for
/// each of which the far end did.
pub(crate) fn crossed(
    alloc: Global,
    store: &mut Store,
    topic: &Topic,
    before: Moment,
) -> Result<KeyedItems, OutOfMemory>
    requires ordered { InOrder store.old.entries }
    ensures ok { IfOk result (λ items. items ≡ candidates topic.now (crossed_items topic.now before store.old.moment store.old.entries)) }
    ensures rest { store.new ≡ record store.old { reads = store.new.reads } }
    ensures risen { store.old.reads ≤ store.new.reads }
    ensures reads { store.new.reads ≤ store.old.reads + items_passed topic.now (candidates topic.now store.old.entries) before store.old.moment }
{
    let earlier = window(topic, before);
    let later = window(topic, store.now());
    let mut found = BTreeMap::new(alloc);
    put_near(alloc, store, topic, &earlier, &later, &mut found)?;
    put_far(alloc, store, topic, &earlier, &later, &mut found)?;
    in_order(alloc, found)
}

/// Puts those under their keys of which the near end passed an edge, for a situation topic: a visit and a journey are
/// dead where it passed them.
fn put_near(
    alloc: Global,
    store: &mut Store,
    topic: &Topic,
    earlier: &Window,
    later: &Window,
    found: &mut BTreeMap<SharedKey, Rc<Item>>,
) -> Result<(), OutOfMemory>
    ensures ok { OnOk result (entries_view found.new.entries ≡ with_items (entries_view found.old.entries) (near_entries topic.now earlier.now later.now (candidates topic.now store.old.entries))) }
    ensures rest { store.new ≡ record store.old { reads = store.new.reads } }
    ensures risen { store.old.reads ≤ store.new.reads }
    ensures reads { store.new.reads ≤ store.old.reads + length (near_entries topic.now earlier.now later.now (candidates topic.now store.old.entries)) }
{
    match topic {
        Topic::Situation(_) => { put_crossed(alloc, store, topic, earlier.from, later.from, found) }
        _ => Ok(()),
    }
}

/// Puts those under their keys of which the far end passed an edge, where there is a far end.
fn put_far(
    alloc: Global,
    store: &mut Store,
    topic: &Topic,
    earlier: &Window,
    later: &Window,
    found: &mut BTreeMap<SharedKey, Rc<Item>>,
) -> Result<(), OutOfMemory>
    ensures ok { OnOk result (entries_view found.new.entries ≡ with_items (entries_view found.old.entries) (far_entries topic.now earlier.now later.now (candidates topic.now store.old.entries))) }
    ensures rest { store.new ≡ record store.old { reads = store.new.reads } }
    ensures risen { store.old.reads ≤ store.new.reads }
    ensures reads { store.new.reads ≤ store.old.reads + length (far_entries topic.now earlier.now later.now (candidates topic.now store.old.entries)) }
{
    match (earlier.to, later.to) {
        (Some(from), Some(to)) => put_crossed(alloc, store, topic, from, to, found),
        _ => Ok(()),
    }
}

/// Puts those items under their keys that may be shown to a topic by these and that have an edge at or after one moment,
/// and before another: none where the other isn't later, as at each look until the clock moves.
fn put_crossed(
    alloc: Global,
    store: &mut Store,
    topic: &Topic,
    from: i64,
    to: i64,
    found: &mut BTreeMap<SharedKey, Rc<Item>>,
) -> Result<(), OutOfMemory>
    ensures ok { OnOk result (entries_view found.new.entries ≡ with_items (entries_view found.old.entries) (crossed_entries (service_asked topic.now) from to (candidates topic.now store.old.entries))) }
    ensures rest { store.new ≡ record store.old { reads = store.new.reads } }
    ensures risen { store.old.reads ≤ store.new.reads }
    ensures reads { store.new.reads ≤ store.old.reads + length (crossed_entries (service_asked topic.now) from to (candidates topic.now store.old.entries)) }
{
    if from >= to {
        return Ok(());
    }
    let entries = store.crossed(alloc, topic, from, to)?;
    put_all(entries, found)
}

/// Puts items under their keys.
pub(crate) fn put_all(
    entries: Vec<(SharedKey, Rc<Item>)>,
    found: &mut BTreeMap<SharedKey, Rc<Item>>,
) -> Result<(), OutOfMemory>
    ensures { OnOk result (entries_view found.new.entries ≡ with_items (entries_view found.old.entries) (entries_view entries.items)) }
{
    for (key, item) in entries {
        let _ = found.insert(key, item)?;
    }
    Ok(())
}

/// The items in order of their keys.
pub(crate) fn in_order(
    alloc: Global,
    found: BTreeMap<SharedKey, Rc<Item>>,
) -> Result<KeyedItems, OutOfMemory>
    ensures { IfOk result (λ items. items ≡ entries_view found.entries) }
{
    let mut items = KeyedItems::new(alloc);
    for (key, item) in found {
        items.push_last(key, item)?;
    }
    Ok(items)
}
