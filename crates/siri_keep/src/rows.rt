//! The rows of a message's items and subscriptions, before they are put: whether one is too long.

ghost use Rattle.std.specs.Prelude.{◌≡◌, is_none, IfOk, IfSome};
ghost use Rattle.std.specs.List.{list_any};
ghost use Rattle.siri_messages.specs.Asked.{asked_with};
ghost use Rattle.siri_messages.specs.declared.message.Message.TheVariants as message;
ghost use Rattle.siri_row_texts.specs.ItemRows.{item_text};
ghost use Rattle.siri_row_texts.specs.SubscriptionRows.{request_text};
ghost use Rattle.siri_keep.specs.Puts.{changes_rows, has_long_row, is_long};

use siri_base::{Copies, List, OutOfMemory, Span};
use siri_messages::{FunctionalDelivery, Message, ServiceDelivery, SubscriptionRequest};
use siri_records::SharedItem;
use siri_row_texts::{item_text, request_text};
use siri_topic::Subscription;
use std::alloc::Global;

/// Whether a message changes rows: a feed, and what is asked about subscriptions but for a part.
pub(crate) fn changes_rows(message: &Message) -> bool
    ensures { result ≡ changes_rows message.now }
{
    match message {
        Message::ServiceDelivery(delivery) => !delivery.has_round(),
        Message::SubscriptionRequest(_) | Message::TerminateSubscriptionRequest(_) => true,
        Message::DataSupplyRequest(request) => request.all_data,
        _ => false,
    }
}

/// The most bytes that the text of a row may have, as any document.
const LONGEST_ROW: usize = 8_388_608;

/// Whether a text has more bytes than a document may have.
fn is_long(text: List<u8>) -> bool
    ensures { result ≡ is_long text }
{
    text.len() > LONGEST_ROW
}

/// Whether one of some items has a row that is too long.
fn has_long_item(alloc: Global, items: &[SharedItem]) -> Result<bool, OutOfMemory>
    ensures { IfOk result (λ long. long ≡ list_any (λ i. is_long (item_text i)) items.now) }
{
    for item in items {
        if is_long(item_text(alloc, item)?) {
            return Ok(true);
        }
    }
    Ok(false)
}

/// The same of the deliveries of one service.
fn has_long_delivery(alloc: Global, deliveries: &[FunctionalDelivery]) -> Result<bool, OutOfMemory>
    ensures { IfOk result (λ long. long ≡ list_any (λ f. list_any (λ i. is_long (item_text i)) f.items) deliveries.now) }
{
    for delivery in deliveries {
        if has_long_item(alloc, delivery.items.slice())? {
            return Ok(true);
        }
    }
    Ok(false)
}

/// The same of all that a message delivers, in a round or not.
fn delivers_long(alloc: Global, delivery: &ServiceDelivery) -> Result<bool, OutOfMemory>
    ensures { IfOk result (λ long. long ≡ has_long_row (message.ServiceDelivery delivery.now)) }
{
    Ok(
        has_long_delivery(alloc, delivery.stop_monitoring_delivery.slice())?
            || has_long_delivery(alloc, delivery.estimated_timetable_delivery.slice())?
            || has_long_delivery(alloc, delivery.vehicle_monitoring_delivery.slice())?
            || has_long_delivery(alloc, delivery.situation_exchange_delivery.slice())?,
    )
}

/// Whether one of some subscriptions of a request has a row that is too long.
fn has_long_subscription(
    alloc: Global,
    request: &SubscriptionRequest,
    list: &[Subscription],
) -> Result<bool, OutOfMemory>
    ensures { IfOk result (λ long. long ≡ list_any (λ s. is_long (request_text (asked_with request.now s) request.now.message_identifier)) list.now) }
{
    let beat = request.heartbeat_interval.unwrap_or(Span::zero());
    let address = request.consumer_address.as_ref();
    for wanted in list {
        let text = request_text(alloc, wanted, request.message_identifier, address, beat)?;
        if is_long(text) {
            return Ok(true);
        }
    }
    Ok(false)
}

/// The same of all that a request asks for.
fn asks_long(alloc: Global, request: &SubscriptionRequest) -> Result<bool, OutOfMemory>
    ensures { IfOk result (λ long. long ≡ has_long_row (message.SubscriptionRequest request.now)) }
{
    Ok(
        has_long_subscription(
            alloc,
            request,
            request.stop_monitoring_subscription_request.slice(),
        )? || has_long_subscription(
            alloc,
            request,
            request.estimated_timetable_subscription_request.slice(),
        )? || has_long_subscription(
            alloc,
            request,
            request.vehicle_monitoring_subscription_request.slice(),
        )? || has_long_subscription(
            alloc,
            request,
            request.situation_exchange_subscription_request.slice(),
        )?,
    )
}

/// Whether a row of one of a message's items or subscriptions would have more than 8,388,608 bytes.
pub(crate) fn has_long_row(alloc: Global, message: &Message) -> Result<bool, OutOfMemory>
    ensures { IfOk result (λ long. long ≡ has_long_row message.now) }
{
    match message {
        Message::ServiceDelivery(delivery) => delivers_long(alloc, delivery),
        Message::SubscriptionRequest(request) => asks_long(alloc, request),
        _ => Ok(false),
    }
}

/// A copy of a message, or none exactly where it has a row that is too long.
pub(crate) fn short_copy(alloc: Global, message: &Message) -> Result<Option<Message>, OutOfMemory>
    ensures short { IfOk result (λ copy. is_none copy ≡ has_long_row message.now) }
    ensures copy { IfOk result (λ copy. IfSome copy (λ m. m ≡ message.now)) }
{
    if has_long_row(alloc, message)? {
        return Ok(None);
    }
    Ok(Some(message.copy()?))
}
