//! The rows of items.

ghost use Rattle.std.specs.Prelude.{◌≡◌, ◌∷◌, [], IfOk};
ghost use Rattle.siri_messages.specs.declared.message.Message.TheVariants as message;
ghost use Rattle.siri_wire.specs.Canonical.{canonical};
ghost use Rattle.siri_row_texts.specs.ItemRows.{functional_of, item_delivery, item_text, key_text, removal_delivery};

use siri_base::{Copies, List, OutOfMemory};
use siri_messages::{FunctionalDelivery, Message, ServiceDelivery};
use siri_records::{Item, Key, SharedItem};
use siri_wire::encode;
use std::alloc::Global;

/// One delivery of one service, with an item and nothing else.
fn with_item(alloc: Global, item: SharedItem) -> Result<List<FunctionalDelivery>, OutOfMemory>
    ensures { IfOk result (λ list. list ≡ functional_of (item ∷ []) []) }
{
    let mut functional = FunctionalDelivery::blank(alloc);
    functional.items.push(item)?;
    let mut list = List::new(alloc);
    list.push(functional)?;
    Ok(list)
}

/// One delivery of one service, with the removal of a key and nothing else.
fn with_removal(alloc: Global, key: Key) -> Result<List<FunctionalDelivery>, OutOfMemory>
    ensures { IfOk result (λ list. list ≡ functional_of [] (key ∷ [])) }
{
    let mut functional = FunctionalDelivery::blank(alloc);
    functional.removals.push(key)?;
    let mut list = List::new(alloc);
    list.push(functional)?;
    Ok(list)
}

/// The delivery whose only entry is an item.
fn item_delivery(alloc: Global, item: &SharedItem) -> Result<ServiceDelivery, OutOfMemory>
    ensures { IfOk result (λ delivery. delivery ≡ item_delivery item.now) }
{
    let entry = with_item(alloc, item.copy()?)?;
    let mut delivery = ServiceDelivery::blank(alloc);
    match item.item() {
        Item::Visit(_) => delivery.stop_monitoring_delivery = entry,
        Item::Journey(_) => delivery.estimated_timetable_delivery = entry,
        Item::Vehicle(_) => delivery.vehicle_monitoring_delivery = entry,
        Item::Situation(_) => delivery.situation_exchange_delivery = entry,
    }
    Ok(delivery)
}

/// The delivery whose only entry is the removal of what has a key.
fn removal_delivery(alloc: Global, key: &Key) -> Result<ServiceDelivery, OutOfMemory>
    ensures { IfOk result (λ delivery. delivery ≡ removal_delivery key.now) }
{
    let entry = with_removal(alloc, key.copy()?)?;
    let mut delivery = ServiceDelivery::blank(alloc);
    match key {
        Key::Visit { .. } => delivery.stop_monitoring_delivery = entry,
        Key::Journey { .. } => delivery.estimated_timetable_delivery = entry,
        Key::Vehicle { .. } => delivery.vehicle_monitoring_delivery = entry,
        Key::Situation { .. } => delivery.situation_exchange_delivery = entry,
    }
    Ok(delivery)
}

/// The text of a message.
fn text_of(alloc: Global, delivery: ServiceDelivery) -> Result<List<u8>, OutOfMemory>
    ensures { IfOk result (λ text. text ≡ canonical (message.ServiceDelivery delivery)) }
{
    let message = Message::ServiceDelivery(delivery);
    let text = encode(alloc, &message);
    drop(message);
    Ok(List::of(text?))
}

/// The text of an item's row: the canonical delivery whose only entry is the item.
pub fn item_text(alloc: Global, item: &SharedItem) -> Result<List<u8>, OutOfMemory>
    ensures { IfOk result (λ text. text ≡ item_text item.now) }
{
    text_of(alloc, item_delivery(alloc, item)?)
}

/// The key of an item's row: the canonical delivery whose only entry is the removal of what has this key.
pub fn key_text(alloc: Global, key: &Key) -> Result<List<u8>, OutOfMemory>
    ensures { IfOk result (λ text. text ≡ key_text key.now) }
{
    text_of(alloc, removal_delivery(alloc, key)?)
}
