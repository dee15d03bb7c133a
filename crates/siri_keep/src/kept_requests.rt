//! The requests of kept subscriptions, and what rows say by them.

ghost use Rattle.std.specs.Prelude.{◌≡◌, IfOk, option_map, Some};
ghost use Rattle.std.specs.Char.{is_ascii_digit};
ghost use Rattle.std.specs.List.{list_all, list_any};
ghost use Rattle.siri_messages.specs.declared.message.Message.TheVariants as message;
ghost use Rattle.siri_row_texts.specs.Reading.{first_asked};
ghost use Rattle.siri_keeping.specs.Keeping.{is_place};
ghost use Rattle.siri_keeping.specs.Opening.{are_same, renewal_of_request, subscription_in};
ghost use Rattle.siri_keep.specs.RowByRow.{asks_again, renewal_at, request_at};

use crate::opening::KeptRequest;
use siri_base::OutOfMemory;
use siri_messages::{Message, SubscriptionRequest};
use siri_row_texts::renewal_of_row;
use siri_topic::Subscription;
use std::alloc::Global;

/// Whether a text has digits alone.
fn has_digits(text: &[u8]) -> bool
    ensures { result ≡ list_all is_ascii_digit text.now }
{
    text.iter().all(|byte| byte.is_ascii_digit())
}

/// Whether a key is a place: 20 digits.
pub(crate) fn is_place(key: &[u8]) -> bool
    ensures { result ≡ is_place key.now }
{
    key.len() == 20 && has_digits(key)
}

/// The subscription with which a request begins.
#[tactic(auto, using(crate::proofs::FirstAsked::first_of_asked))]
fn first_asked(request: &SubscriptionRequest) -> Option<&Subscription>
    ensures { option_map (λ wanted. wanted.now) result ≡ first_asked request.now }
{
    let stops = request.stop_monitoring_subscription_request.slice().first();
    let timetables = request
        .estimated_timetable_subscription_request
        .slice()
        .first();
    let vehicles = request
        .vehicle_monitoring_subscription_request
        .slice()
        .first();
    let situations = request
        .situation_exchange_subscription_request
        .slice()
        .first();
    stops.or(timetables).or(vehicles).or(situations)
}

/// The subscription with which a message begins.
fn subscription_in(message: &Message) -> Option<&Subscription>
    ensures { option_map (λ wanted. wanted.now) result ≡ subscription_in message.now }
{
    match message {
        Message::SubscriptionRequest(request) => first_asked(request),
        _ => None,
    }
}

/// Whether a message begins with the subscription of this one's subscriber and identifier.
fn asks_for(message: &Message, wanted: &Subscription) -> bool
    ensures { result ≡ are_same (subscription_in message.now) (Some wanted.now) }
{
    match subscription_in(message) {
        Some(other) => {
            other.subscriber == wanted.subscriber && other.identifier == wanted.identifier
        }
        None => false,
    }
}

/// Whether one of some requests is of a subscription.
fn are_of(requests: &[KeptRequest], wanted: &Subscription) -> bool
    ensures { result ≡ list_any (λ kept. are_same (subscription_in kept.request) (Some wanted.now)) requests.now }
{
    for kept in requests {
        if asks_for(&kept.request, wanted) {
            return true;
        }
    }
    false
}

/// Whether one of some requests is of the same subscription as another.
pub(crate) fn asks_again(requests: &[KeptRequest], message: &Message) -> bool
    ensures { result ≡ asks_again requests.now message.now }
{
    match subscription_in(message) {
        Some(wanted) => are_of(requests, wanted),
        None => false,
    }
}

/// The request at a place.
fn request_at<'a>(requests: &'a [KeptRequest], place: &[u8]) -> Option<&'a Message>
    ensures { option_map (λ request. request.now) result ≡ request_at requests.now place.now }
{
    for kept in requests {
        if kept.place.slice() == place {
            return Some(&kept.request);
        }
    }
    None
}

/// What a text says of the number of a request's subscription.
fn renewal_of_request(
    alloc: Global,
    request: &SubscriptionRequest,
    text: &[u8],
) -> Result<Option<Message>, OutOfMemory>
    ensures { IfOk result (λ renewal. renewal ≡ renewal_of_request text.now (message.SubscriptionRequest request.now)) }
{
    match first_asked(request) {
        Some(wanted) => renewal_of_row(alloc, wanted, request.message_identifier, text),
        None => Ok(None),
    }
}

/// What a row of table 3 says, by the request under its key.
pub(crate) fn renewal_at(
    alloc: Global,
    requests: &[KeptRequest],
    key: &[u8],
    text: &[u8],
) -> Result<Option<Message>, OutOfMemory>
    ensures { IfOk result (λ renewal. renewal ≡ renewal_at requests.now key.now text.now) }
{
    match request_at(requests, key) {
        Some(Message::SubscriptionRequest(request)) => renewal_of_request(alloc, request, text),
        _ => Ok(None),
    }
}
