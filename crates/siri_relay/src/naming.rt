//! The changes that a round made, by the keys that it names.

ghost use Rattle.std.specs.Prelude.{◌≡◌, ◌++◌, ◌⊎◌, [], length, map, option_map, IsNone, IfOk, IfSome, OnOk};
ghost use Rattle.siri_records.specs.Keys.{key_of as key_of_item};
ghost use Rattle.siri_records.specs.Keyed.{InOrder, item_of};
ghost use Rattle.siri_change.specs.Changes.{changes};
ghost use Rattle.siri_messages.specs.Rounds.{functional_deliveries};
ghost use Rattle.siri_view.specs.Hearing.{only};
ghost use Rattle.siri_relay.specs.Named.{IsRound, changes_to, is_whole, items_at, named_by, named_if};

use siri_base::{Copies, List, OutOfMemory};
use siri_change::{Change, View, changes};
use siri_messages::{FunctionalDelivery, Message, ServiceDelivery};
use siri_records::{Key, SharedItem, SharedKey};
use std::alloc::Global;

/// The keys that a round names, where they are known.
#[derive(Drop)]
pub(crate) struct NamedKeys {
    pub(crate) keys: Option<List<SharedKey>>,
}

/// The keys that a message names, where it delivers all of a later round than the first in one part: those of its items,
/// and those that it removes.
pub(crate) fn named_by(alloc: Global, message: &Message) -> Result<NamedKeys, OutOfMemory>
    ensures { IfOk result (λ named. named.keys ≡ named_by message.now) }
{
    let keys = match message {
        Message::ServiceDelivery(delivery) => named_if(alloc, delivery)?,
        _ => None,
    };
    Ok(NamedKeys { keys })
}

/// The keys that a delivery names, where it is such a one.
fn named_if(
    alloc: Global,
    delivery: &ServiceDelivery,
) -> Result<Option<List<SharedKey>>, OutOfMemory>
    ensures { IfOk result (λ named. named ≡ named_if delivery.now.more_data (only (functional_deliveries delivery.now))) }
{
    match only_delivery(delivery) {
        Some(only) if is_whole(delivery.more_data, only) => Ok(Some(named_in(alloc, only)?)),
        _ => Ok(None),
    }
}

/// The functional delivery, where there is only one of all four services.
fn only_delivery(delivery: &ServiceDelivery) -> Option<&FunctionalDelivery>
    ensures { option_map (λ only. only.now) result ≡ only (functional_deliveries delivery.now) }
{
    match (
        delivery.stop_monitoring_delivery.slice(),
        delivery.estimated_timetable_delivery.slice(),
        delivery.vehicle_monitoring_delivery.slice(),
        delivery.situation_exchange_delivery.slice(),
    ) {
        ([only], [], [], []) => Some(only),
        ([], [only], [], []) => Some(only),
        ([], [], [only], []) => Some(only),
        ([], [], [], [only]) => Some(only),
        _ => None,
    }
}

/// Whether a delivery is all of a later round than the first: its first part, after which no other follows.
fn is_whole(more: bool, delivery: &FunctionalDelivery) -> bool
    ensures { result ≡ is_whole more delivery.now }
{
    !more && delivery.part == Some(1) && delivery.round != Some(1)
}

/// The keys that a functional delivery names.
fn named_in(alloc: Global, delivery: &FunctionalDelivery) -> Result<List<SharedKey>, OutOfMemory>
    ensures { IfOk result (λ named. named ≡ map key_of_item delivery.now.items ++ delivery.now.removals) }
{
    let mut named = List::new(alloc);
    push_item_keys(alloc, delivery.items.slice(), &mut named)?;
    push_keys(alloc, delivery.removals.slice(), &mut named)?;
    Ok(named)
}

/// Puts the keys of items at the end.
fn push_item_keys(
    alloc: Global,
    items: &[SharedItem],
    into: &mut List<SharedKey>,
) -> Result<(), OutOfMemory>
    ensures { OnOk result (into.new ≡ into.old ++ map key_of_item items.now) }
{
    for item in items {
        into.push(SharedKey::of(alloc, item.item())?)?;
    }
    Ok(())
}

/// Puts keys at the end.
fn push_keys(alloc: Global, keys: &[Key], into: &mut List<SharedKey>) -> Result<(), OutOfMemory>
    ensures { OnOk result (into.new ≡ into.old ++ keys.now) }
{
    for key in keys {
        into.push(SharedKey::new(alloc, key.copy()?)?)?;
    }
    Ok(())
}

/// The changes from one view to another, which a round led to that names these keys: they are looked up, and no others.
/// Nothing where the first is empty, or where the second has no other keys, so that a round may have begun it anew.
pub(crate) fn changes_at(
    alloc: Global,
    before: &View,
    after: &View,
    keys: &List<SharedKey>,
) -> Result<Option<List<Change>>, OutOfMemory>
    requires { IsRound keys.now before.now after.now }
    ensures list { IfOk result (λ found. IfSome found (λ list. list ≡ changes before.now after.now)) }
    ensures none { IfOk result (λ found. IsNone found → (before.now ≡ []) ⊎ (length (items_at keys.now after.now) ≡ length after.now)) }
    ensures order { IfOk result (λ found. IfSome found (λ _. InOrder before.now × InOrder after.now)) }
{
    if before.len() == 0 {
        return Ok(None);
    }
    let new = items_at(alloc, after, keys)?;
    if new.len() == after.len() {
        return Ok(None);
    }
    let old = items_at(alloc, before, keys)?;
    Ok(Some(changes(&old, &new)?))
}

/// The items that a view has of these keys.
fn items_at(alloc: Global, view: &View, keys: &List<SharedKey>) -> Result<View, OutOfMemory>
    ensures { IfOk result (λ items. items ≡ items_at keys.now view.now) }
{
    let mut items = View::new(alloc);
    items.put_changes(changes_to(alloc, view, keys)?)?;
    Ok(items)
}

/// The changes that make what a view has of these keys.
fn changes_to(
    alloc: Global,
    view: &View,
    keys: &List<SharedKey>,
) -> Result<List<Change>, OutOfMemory>
    ensures { IfOk result (λ list. list ≡ changes_to keys.now view.now) }
{
    let mut list = List::new(alloc);
    for key in keys.slice() {
        list.push(change_to(view, key)?)?;
    }
    Ok(list)
}

/// The change that makes what a view has of a key.
fn change_to(view: &View, key: &SharedKey) -> Result<Change, OutOfMemory>
    ensures { IfOk result (λ change. change ≡ (key.now, item_of view.now key.now)) }
{
    let item = match view.get(key.key()) {
        Some(item) => Some(item.clone()?),
        None => None,
    };
    Ok(Change {
        key: key.copy()?,
        item,
    })
}
