//! The rows of subscriptions.

ghost use Rattle.std.specs.Prelude.{◌≡◌, IfOk, option_map};
ghost use Rattle.siri_wire.specs.Canonical.{canonical};
ghost use Rattle.siri_row_texts.specs.SubscriptionRows.{interval_of, renewal_of, renewal_text, request_of, request_text};

use siri_base::{Copies, List, Name, OutOfMemory, Span};
use siri_messages::{DataSupplyRequest, Mark, Message, SubscriptionRequest};
use siri_topic::{Subscription, Topic};
use siri_wire::encode;
use std::alloc::Global;

/// The HeartbeatInterval that asks for a heartbeat so often.
fn interval_of(beat: Span) -> Option<Span>
    ensures { result ≡ interval_of beat }
{
    if beat.ms() == 0 { None } else { Some(beat) }
}

/// A copy of an address, where there is one.
fn copy_of(address: Option<&Name>) -> Result<Option<Name>, OutOfMemory>
    ensures { IfOk result (λ copy. copy ≡ option_map (λ name. name.now) address.entry) }
{
    match address {
        Some(address) => Ok(Some(address.copy()?)),
        None => Ok(None),
    }
}

/// The request of one subscription under a number.
fn request_of(
    alloc: Global,
    wanted: &Subscription,
    base: u64,
    address: Option<&Name>,
    beat: Span,
) -> Result<SubscriptionRequest, OutOfMemory>
    ensures { IfOk result (λ request. request ≡ request_of (record { subscription = wanted.now; address = option_map (λ name. name.now) address.entry; beat = beat }) base) }
{
    let mut only = List::new(alloc);
    only.push(wanted.copy()?)?;
    let mut request = SubscriptionRequest {
        request_timestamp: None,
        requestor_ref: None,
        message_identifier: base,
        consumer_address: copy_of(address)?,
        heartbeat_interval: interval_of(beat),
        stop_monitoring_subscription_request: List::new(alloc),
        estimated_timetable_subscription_request: List::new(alloc),
        vehicle_monitoring_subscription_request: List::new(alloc),
        situation_exchange_subscription_request: List::new(alloc),
    };
    match wanted.topic {
        Topic::Stop(_) => request.stop_monitoring_subscription_request = only,
        Topic::Timetable(_) => request.estimated_timetable_subscription_request = only,
        Topic::Vehicle(_) => request.vehicle_monitoring_subscription_request = only,
        Topic::Situation(_) => request.situation_exchange_subscription_request = only,
    }
    Ok(request)
}

/// The text of a message.
fn text_of(alloc: Global, message: Message) -> Result<List<u8>, OutOfMemory>
    ensures { IfOk result (λ text. text ≡ canonical message) }
{
    let text = encode(alloc, &message);
    drop(message);
    Ok(List::of(text?))
}

/// The text of a subscription's row: the canonical request of this one alone under its base, the number of the
/// SubscriptionRequest that it goes back to, without its moment and its requestor.
pub fn request_text(
    alloc: Global,
    wanted: &Subscription,
    base: u64,
    address: Option<&Name>,
    beat: Span,
) -> Result<List<u8>, OutOfMemory>
    ensures { IfOk result (λ text. text ≡ request_text (record { subscription = wanted.now; address = option_map (λ name. name.now) address.entry; beat = beat }) base) }
{
    let request = request_of(alloc, wanted, base, address, beat)?;
    text_of(alloc, Message::SubscriptionRequest(request))
}

/// The request for all of a subscription under a number, which names its base.
fn renewal_of(
    wanted: &Subscription,
    number: u64,
    base: u64,
) -> Result<DataSupplyRequest, OutOfMemory>
    ensures { IfOk result (λ request. request ≡ renewal_of wanted.now number base) }
{
    Ok(DataSupplyRequest {
        request_timestamp: None,
        consumer_ref: wanted.subscriber.copy()?,
        all_data: true,
        extensions: Mark {
            number,
            start: 0,
            round: base,
            part: 0,
            subscription: wanted.identifier.copy()?,
        },
    })
}

/// The text of the row that keeps a subscription's number: the canonical request for all of it under that number,
/// without its moment. `None` exactly where the number is the base.
pub fn renewal_text(
    alloc: Global,
    wanted: &Subscription,
    number: u64,
    base: u64,
) -> Result<Option<List<u8>>, OutOfMemory>
    ensures { IfOk result (λ text. text ≡ renewal_text wanted.now number base) }
{
    if number == base {
        return Ok(None);
    }
    let request = renewal_of(wanted, number, base)?;
    Ok(Some(text_of(alloc, Message::DataSupplyRequest(request))?))
}
