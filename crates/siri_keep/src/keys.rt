//! Keys: those that a feed names, and those of items that are dead.

ghost use Rattle.std.specs.Prelude.{◌≡◌, ◌++◌, map, flat_map, IfOk, OnOk};
ghost use Rattle.std.specs.Map.{keys_of};
ghost use Rattle.siri_records.specs.Keyed.{dead_of};
ghost use Rattle.siri_records.specs.Keys.{key_of};
ghost use Rattle.siri_model.specs.History.{entries_in, entries_of};
ghost use Rattle.siri_model.specs.Last.{entry_key};

use siri_base::{Copies, List, Moment, OutOfMemory};
use siri_messages::{FunctionalDelivery, ServiceDelivery};
use siri_records::{Key, KeyedItems, SharedItem, SharedKey, dead};
use std::alloc::Global;

/// Puts the keys of items at the end of others.
fn append_items(
    alloc: Global,
    into: &mut Vec<SharedKey>,
    items: &[SharedItem],
) -> Result<(), OutOfMemory>
    ensures { OnOk result (into.new.items ≡ into.old.items ++ map key_of items.now) }
{
    for item in items {
        into.push(SharedKey::of(alloc, item.item())?)?;
    }
    Ok(())
}

/// Puts keys at the end of others.
fn append_keys(alloc: Global, into: &mut Vec<SharedKey>, keys: &[Key]) -> Result<(), OutOfMemory>
    ensures { OnOk result (into.new.items ≡ into.old.items ++ keys.now) }
{
    for key in keys {
        into.push(SharedKey::new(alloc, key.copy()?)?)?;
    }
    Ok(())
}

/// Puts the keys that deliveries of one service name at the end of others, delivery by delivery.
fn append_named(
    alloc: Global,
    into: &mut Vec<SharedKey>,
    deliveries: &[FunctionalDelivery],
) -> Result<(), OutOfMemory>
    ensures { OnOk result (into.new.items ≡ into.old.items ++ map entry_key (flat_map entries_in deliveries.now)) }
{
    for delivery in deliveries {
        let items = delivery.items.slice();
        append_items(alloc, into, items)?;
        let removals = delivery.removals.slice();
        append_keys(alloc, into, removals)?;
    }
    Ok(())
}

/// The keys that the entries of a delivery name, in the order of the entries.
pub(crate) fn named_keys(
    alloc: Global,
    delivery: &ServiceDelivery,
) -> Result<List<SharedKey>, OutOfMemory>
    ensures { IfOk result (λ keys. keys ≡ map entry_key (entries_of delivery.now)) }
{
    let mut keys = Vec::new(alloc);
    append_named(alloc, &mut keys, delivery.stop_monitoring_delivery.slice())?;
    append_named(
        alloc,
        &mut keys,
        delivery.estimated_timetable_delivery.slice(),
    )?;
    append_named(
        alloc,
        &mut keys,
        delivery.vehicle_monitoring_delivery.slice(),
    )?;
    append_named(
        alloc,
        &mut keys,
        delivery.situation_exchange_delivery.slice(),
    )?;
    Ok(List::of(keys))
}

/// The keys of those items that are dead at a moment, in order of key.
pub(crate) fn dead_keys(
    alloc: Global,
    items: &KeyedItems,
    moment: Moment,
) -> Result<List<SharedKey>, OutOfMemory>
    ensures { IfOk result (λ keys. keys ≡ keys_of (dead_of moment items.now)) }
{
    let mut keys = Vec::new(alloc);
    for place in 0..items.len() {
        let Some((key, item)) = items.entry(place) else {
            break;
        };
        if dead(item, moment) {
            keys.push(key.copy()?)?;
        }
    }
    Ok(List::of(keys))
}
