//! Requests for subscriptions.

ghost use Rattle.std.specs.Prelude.{◌≡◌, map, IfOk};
ghost use Rattle.std.specs.List.{list_any};
ghost use Rattle.siri_view.specs.Sending.{first_of_each, interval, is_identified, is_topic_of, of_service, own, subscription_request};

use siri_base::{Copies, List, Moment, Name, OutOfMemory, Span};
use siri_messages::{Message, SubscriptionRequest};
use siri_records::Service;
use siri_topic::{Subscription, Topic};
use std::alloc::Global;

/// Of each identifier the first subscription, with this subscriber.
pub(crate) fn first_of_each(
    alloc: Global,
    name: &Name,
    wanted: &[Subscription],
) -> Result<List<Subscription>, OutOfMemory>
    ensures { IfOk result (λ firsts. firsts ≡ first_of_each (map (own name.now) wanted.now)) }
{
    let mut firsts = List::new(alloc);
    for subscription in wanted {
        if !has(firsts.slice(), &subscription.identifier) {
            firsts.push(own(name, subscription)?)?;
        }
    }
    Ok(firsts)
}

/// Whether one of the subscriptions has this identifier.
pub(crate) fn has(subscriptions: &[Subscription], identifier: &Name) -> bool
    ensures { result ≡ list_any (is_identified identifier.now) subscriptions.now }
{
    subscriptions
        .iter()
        .any(|subscription| subscription.identifier == *identifier)
}

/// A copy of a subscription with this subscriber.
fn own(name: &Name, subscription: &Subscription) -> Result<Subscription, OutOfMemory>
    ensures { IfOk result (λ copy. copy ≡ own name.now subscription.now) }
{
    Ok(Subscription {
        subscriber: name.copy()?,
        identifier: subscription.identifier.copy()?,
        termination: subscription.termination,
        topic: subscription.topic.copy()?,
        slack: subscription.slack,
        incremental: subscription.incremental,
        fetched: subscription.fetched,
    })
}

/// The subscriptions to topics of one service.
fn of_service(
    alloc: Global,
    service: Service,
    wanted: &[Subscription],
) -> Result<List<Subscription>, OutOfMemory>
    ensures { IfOk result (λ these. these ≡ of_service service wanted.now) }
{
    let mut these = List::new(alloc);
    for subscription in wanted {
        if is_topic_of(service, &subscription.topic) {
            these.push(subscription.copy()?)?;
        }
    }
    Ok(these)
}

/// Whether a subscription to a topic stands in a request's list for that service.
fn is_topic_of(service: Service, topic: &Topic) -> bool
    ensures { result ≡ is_topic_of service topic.now }
{
    match (service, topic) {
        (Service::Stop, Topic::Stop(_)) => true,
        (Service::Timetable, Topic::Timetable(_)) => true,
        (Service::Vehicle, Topic::Vehicle(_)) => true,
        (Service::Situation, Topic::Situation(_)) => true,
        _ => false,
    }
}

/// A request for some subscriptions under a number.
pub(crate) fn subscription_request(
    alloc: Global,
    name: &Name,
    address: &Option<Name>,
    now: Moment,
    number: u64,
    wanted: &[Subscription],
    beat: Span,
) -> Result<Message, OutOfMemory>
    ensures { IfOk result (λ made. made ≡ subscription_request name.now address.now now number wanted.now beat) }
{
    Ok(Message::SubscriptionRequest(SubscriptionRequest {
        request_timestamp: Some(now),
        requestor_ref: Some(name.copy()?),
        message_identifier: number,
        consumer_address: address.copy()?,
        heartbeat_interval: interval(beat),
        stop_monitoring_subscription_request: of_service(alloc, Service::Stop, wanted)?,
        estimated_timetable_subscription_request: of_service(alloc, Service::Timetable, wanted)?,
        vehicle_monitoring_subscription_request: of_service(alloc, Service::Vehicle, wanted)?,
        situation_exchange_subscription_request: of_service(alloc, Service::Situation, wanted)?,
    }))
}

/// The interval of heartbeats, where it isn't zero.
fn interval(beat: Span) -> Option<Span>
    ensures { result ≡ interval beat }
{
    if beat.ms() == 0 { None } else { Some(beat) }
}
