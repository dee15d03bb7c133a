//! Rows read back.

ghost use Rattle.std.specs.Prelude.{◌≡◌, IfOk, option_map};
ghost use Rattle.std.specs.Option.{option_and_then};
ghost use Rattle.siri_row_texts.specs.Reading.{asks_with, delivered, first_asked, first_item, if_holds, if_written, is_asked, is_renewal, is_request, item_in, item_of_row, renewal_of_row, renews, request_of_row};

use crate::{item_text, key_text, renewal_text, request_text};
use siri_base::{Copies, OutOfMemory, Span};
use siri_messages::{FunctionalDelivery, Message, ServiceDelivery, SubscriptionRequest};
use siri_records::{SharedItem, key_of};
use siri_topic::Subscription;
use siri_wire::{DecodeError, decode};
use std::alloc::Global;

/// The item with which a service's deliveries begin.
fn first_item(list: &[FunctionalDelivery]) -> Option<&SharedItem>
    ensures { option_map (λ item. item.now) result ≡ first_item list.now }
{
    match list.first() {
        Some(functional) => functional.items.slice().first(),
        None => None,
    }
}

/// The item with which a delivery begins, service by service.
#[tactic(auto, using(crate::proofs::Firsts::first_item_of_four))]
fn delivered(delivery: &ServiceDelivery) -> Option<&SharedItem>
    ensures { option_map (λ item. item.now) result ≡ delivered delivery.now }
{
    let stops = first_item(delivery.stop_monitoring_delivery.slice());
    let timetables = first_item(delivery.estimated_timetable_delivery.slice());
    let vehicles = first_item(delivery.vehicle_monitoring_delivery.slice());
    let situations = first_item(delivery.situation_exchange_delivery.slice());
    stops.or(timetables).or(vehicles).or(situations)
}

/// An item, shared, where this is its row.
fn if_written(
    alloc: Global,
    item: &SharedItem,
    key: &[u8],
    text: &[u8],
) -> Result<Option<SharedItem>, OutOfMemory>
    ensures { IfOk result (λ found. found ≡ if_written key.now text.now item.now) }
{
    let written = item_text(alloc, item)?;
    let named = key_text(alloc, &key_of(item.item())?)?;
    if written.slice() == text && named.slice() == key {
        return Ok(Some(item.copy()?));
    }
    Ok(None)
}

/// The item with which a message begins, shared, where this is its row.
fn item_in(
    alloc: Global,
    message: &Message,
    key: &[u8],
    text: &[u8],
) -> Result<Option<SharedItem>, OutOfMemory>
    ensures { IfOk result (λ found. found ≡ option_and_then (if_written key.now text.now) (item_in message.now)) }
{
    let Message::ServiceDelivery(delivery) = message else {
        return Ok(None);
    };
    match delivered(delivery) {
        Some(item) => if_written(alloc, item, key, text),
        None => Ok(None),
    }
}

/// The item whose row this is: `None` exactly where the text is no document, or isn't what [`item_text`] would write of
/// the item in it, or the key isn't what [`key_text`] would write of its key.
#[tactic(auto, unfolding(crate::specs::Reading::item_of_row))]
pub fn item_of_row(
    alloc: Global,
    key: &[u8],
    text: &[u8],
) -> Result<Option<SharedItem>, OutOfMemory>
    ensures { IfOk result (λ item. item ≡ item_of_row key.now text.now) }
{
    match decode(alloc, text) {
        Ok(message) => {
            let item = item_in(alloc, &message, key, text);
            drop(message);
            item
        }
        Err(DecodeError::Refused(_)) => Ok(None),
        Err(DecodeError::OutOfMemory) => Err(OutOfMemory),
    }
}

/// The subscription with which a request begins.
#[tactic(auto, using(crate::proofs::Firsts::first_subscription_of_four))]
fn first_asked(request: &SubscriptionRequest) -> Option<&Subscription>
    ensures { option_map (λ wanted. wanted.now) result ≡ first_asked request.now }
{
    let stops = request.stop_monitoring_subscription_request.slice().first();
    let timetables = request
        .estimated_timetable_subscription_request
        .slice()
        .first();
    let vehicles = request
        .vehicle_monitoring_subscription_request
        .slice()
        .first();
    let situations = request
        .situation_exchange_subscription_request
        .slice()
        .first();
    stops.or(timetables).or(vehicles).or(situations)
}

/// Whether a text would be written of a subscription of a request, under the request's number.
fn asks_with(
    alloc: Global,
    request: &SubscriptionRequest,
    wanted: &Subscription,
    text: &[u8],
) -> Result<bool, OutOfMemory>
    ensures { IfOk result (λ asks. asks ≡ asks_with request.now text.now wanted.now) }
{
    let beat = request.heartbeat_interval.unwrap_or(Span::zero());
    let written = request_text(
        alloc,
        wanted,
        request.message_identifier,
        request.consumer_address.as_ref(),
        beat,
    )?;
    Ok(written.slice() == text)
}

/// Whether a text would be written of the subscription with which a request begins.
fn is_asked(alloc: Global, request: &SubscriptionRequest, text: &[u8]) -> Result<bool, OutOfMemory>
    ensures { IfOk result (λ asked. asked ≡ is_asked text.now request.now (first_asked request.now)) }
{
    match first_asked(request) {
        Some(wanted) => asks_with(alloc, request, wanted, text),
        None => Ok(false),
    }
}

/// Whether a message is a request whose row this is.
fn is_request(alloc: Global, message: &Message, text: &[u8]) -> Result<bool, OutOfMemory>
    ensures { IfOk result (λ is. is ≡ is_request text.now message.now) }
{
    match message {
        Message::SubscriptionRequest(request) => is_asked(alloc, request, text),
        _ => Ok(false),
    }
}

/// A message, where it is a request whose row this is.
fn if_request(alloc: Global, message: Message, text: &[u8]) -> Result<Option<Message>, OutOfMemory>
    ensures { IfOk result (λ found. found ≡ if_holds (is_request text.now) message) }
{
    if is_request(alloc, &message, text)? {
        Ok(Some(message))
    } else {
        Ok(None)
    }
}

/// The SubscriptionRequest whose row this is, with its one subscription: `None` exactly where the text is no document, or
/// isn't what [`request_text`] would write of the first subscription in it.
#[tactic(auto, unfolding(crate::specs::Reading::request_of_row))]
pub fn request_of_row(alloc: Global, text: &[u8]) -> Result<Option<Message>, OutOfMemory>
    ensures { IfOk result (λ request. request ≡ request_of_row text.now) }
{
    match decode(alloc, text) {
        Ok(message) => if_request(alloc, message, text),
        Err(DecodeError::Refused(_)) => Ok(None),
        Err(DecodeError::OutOfMemory) => Err(OutOfMemory),
    }
}

/// Whether a text would be written of a subscription and of a request's number, above its base.
fn renews(
    alloc: Global,
    wanted: &Subscription,
    base: u64,
    text: &[u8],
    number: u64,
) -> Result<bool, OutOfMemory>
    ensures { IfOk result (λ is. is ≡ renews wanted.now base text.now number) }
{
    if number <= base {
        return Ok(false);
    }
    match renewal_text(alloc, wanted, number, base)? {
        Some(written) => Ok(written.slice() == text),
        None => Ok(false),
    }
}

/// Whether a message is a request whose row this is, for a subscription and its base.
fn is_renewal(
    alloc: Global,
    wanted: &Subscription,
    base: u64,
    message: &Message,
    text: &[u8],
) -> Result<bool, OutOfMemory>
    ensures { IfOk result (λ is. is ≡ is_renewal wanted.now base text.now message.now) }
{
    match message {
        Message::DataSupplyRequest(request) => renews(
            alloc,
            wanted,
            base,
            text,
            request.extensions.number,
        ),
        _ => Ok(false),
    }
}

/// A message, where it is a request whose row this is, for a subscription and its base.
fn if_renewal(
    alloc: Global,
    wanted: &Subscription,
    base: u64,
    message: Message,
    text: &[u8],
) -> Result<Option<Message>, OutOfMemory>
    ensures { IfOk result (λ found. found ≡ if_holds (is_renewal wanted.now base text.now) message) }
{
    if is_renewal(alloc, wanted, base, &message, text)? {
        Ok(Some(message))
    } else {
        Ok(None)
    }
}

/// The DataSupplyRequest whose row this is, for a subscription and its base: `None` exactly where the text is no
/// document, or isn't what [`renewal_text`] would write of them and of the number in it, or that number isn't above the
/// base.
#[tactic(auto, unfolding(crate::specs::Reading::renewal_of_row))]
pub fn renewal_of_row(
    alloc: Global,
    wanted: &Subscription,
    base: u64,
    text: &[u8],
) -> Result<Option<Message>, OutOfMemory>
    ensures { IfOk result (λ request. request ≡ renewal_of_row wanted.now base text.now) }
{
    match decode(alloc, text) {
        Ok(message) => if_renewal(alloc, wanted, base, message, text),
        Err(DecodeError::Refused(_)) => Ok(None),
        Err(DecodeError::OutOfMemory) => Err(OutOfMemory),
    }
}
