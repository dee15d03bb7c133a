//! A part of a round: its delivery, its notification, and the answer where it isn't supplied.

ghost use Rattle.std.specs.Prelude.{◌≡◌, ◌++◌, IfOk, OnOk, option_map};
ghost use Rattle.siri_change.specs.Parts.{carried};
ghost use Rattle.siri_subs.specs.rounds.Wanted.{part_sent};
ghost use Rattle.siri_subscriptions.specs.replies.Parts.{all_data_response, in_estimated_timetable, in_situation_exchange, in_stop_monitoring, in_vehicle_monitoring, part_delivery, part_functional, part_notification, refused_supply};
ghost use Rattle.siri_subscriptions.specs.replies.Refusals.{refusal_text};

use crate::replies::{Refusal, number_text};
use siri_base::{Copies, List, Moment, Name, OutOfMemory, Text};
use siri_change::Change;
use siri_messages::{DataReadyNotification, FunctionalDelivery, Mark, ServiceDelivery};
use siri_records::{Key, SharedItem};
use siri_subs::{Part, SupplyError};
use siri_topic::{Subscription, Topic};
use std::alloc::Global;

/// The delivery of a part of a subscription's round, of its number, in a start of the producer (ServiceDelivery with
/// one functional delivery). Items and removed keys are copied.
#[tactic(auto, unfolding(crate::specs::replies::Parts::part_delivery))]
pub fn part_delivery(
    alloc: Global,
    producer: &Name,
    wanted: &Subscription,
    number: u64,
    start: u64,
    part: &Part<'_>,
) -> Result<ServiceDelivery, OutOfMemory>
    ensures { IfOk result (λ delivery. delivery ≡ part_delivery producer.now wanted.now number start (part_sent part.now)) }
{
    let producer = producer.copy()?;
    let request = number_text(alloc, number)?;
    let functional = part_functional(alloc, wanted, start, part)?;
    let mut delivery = ServiceDelivery {
        response_timestamp: Some(part.moment),
        producer_ref: Some(producer),
        response_message_identifier: None,
        request_message_ref: Some(request),
        status: true,
        error_condition: None,
        more_data: part.more,
        stop_monitoring_delivery: List::new(alloc),
        estimated_timetable_delivery: List::new(alloc),
        vehicle_monitoring_delivery: List::new(alloc),
        situation_exchange_delivery: List::new(alloc),
    };
    put_functional(&mut delivery, &wanted.topic, functional)?;
    Ok(delivery)
}

/// Puts a functional delivery at the end of the list of its topic's service.
fn put_functional(
    delivery: &mut ServiceDelivery,
    topic: &Topic,
    functional: FunctionalDelivery,
) -> Result<(), OutOfMemory>
    ensures { OnOk result (delivery.new ≡ record delivery.old {
      stop_monitoring_delivery = delivery.old.stop_monitoring_delivery ++ in_stop_monitoring topic.now functional;
      estimated_timetable_delivery = delivery.old.estimated_timetable_delivery ++ in_estimated_timetable topic.now functional;
      vehicle_monitoring_delivery = delivery.old.vehicle_monitoring_delivery ++ in_vehicle_monitoring topic.now functional;
      situation_exchange_delivery = delivery.old.situation_exchange_delivery ++ in_situation_exchange topic.now functional;
    }) }
{
    match topic {
        Topic::Stop(_) => delivery.stop_monitoring_delivery.push(functional)?,
        Topic::Timetable(_) => delivery.estimated_timetable_delivery.push(functional)?,
        Topic::Vehicle(_) => delivery.vehicle_monitoring_delivery.push(functional)?,
        Topic::Situation(_) => delivery.situation_exchange_delivery.push(functional)?,
    }
    Ok(())
}

/// The functional delivery of a part.
#[tactic(auto, unfolding(crate::specs::replies::Parts::part_functional))]
fn part_functional(
    alloc: Global,
    wanted: &Subscription,
    start: u64,
    part: &Part<'_>,
) -> Result<FunctionalDelivery, OutOfMemory>
    ensures { IfOk result (λ delivery. delivery ≡ part_functional wanted.now start (part_sent part.now)) }
{
    Ok(FunctionalDelivery {
        response_timestamp: Some(part.moment),
        subscriber_ref: Some(wanted.subscriber.copy()?),
        subscription_ref: Some(wanted.identifier.copy()?),
        status: true,
        error_condition: None,
        start: Some(start),
        round: Some(part.place.round),
        part: Some(part.place.part),
        items: items_in(alloc, part.changes)?,
        removals: removals_in(alloc, part.changes)?,
    })
}

/// The items of changes, in the order of the changes, shared with them.
pub fn items_in(alloc: Global, changes: &[Change]) -> Result<List<SharedItem>, OutOfMemory>
    ensures { IfOk result (λ items. items ≡ (carried changes.now).items) }
{
    let mut items = List::new(alloc);
    for change in changes {
        if let Some(item) = &change.item {
            let one = item.clone()?;
            items.push(SharedItem::of(one))?;
        }
    }
    Ok(items)
}

/// Copies of the keys that changes remove, in the order of the changes.
pub fn removals_in(alloc: Global, changes: &[Change]) -> Result<List<Key>, OutOfMemory>
    ensures { IfOk result (λ removals. removals ≡ (carried changes.now).removals) }
{
    let mut removals = List::new(alloc);
    for change in changes {
        if change.item.is_none() {
            removals.push(change.key.key().copy()?)?;
        }
    }
    Ok(removals)
}

/// The notification of a part of a subscription's round, of its number, in a start of the producer
/// (DataReadyNotification).
#[tactic(auto, unfolding(crate::specs::replies::Parts::part_notification))]
pub fn part_notification(
    producer: &Name,
    wanted: &Subscription,
    number: u64,
    start: u64,
    part: &Part<'_>,
) -> Result<DataReadyNotification, OutOfMemory>
    ensures { IfOk result (λ notification. notification ≡ part_notification producer.now wanted.now number start (part_sent part.now)) }
{
    Ok(DataReadyNotification {
        request_timestamp: Some(part.moment),
        producer_ref: Some(producer.copy()?),
        extensions: Mark {
            number,
            start,
            round: part.place.round,
            part: part.place.part,
            subscription: wanted.identifier.copy()?,
        },
    })
}

/// The answer at a moment to a request for a part that isn't supplied (ServiceDelivery with Status false).
#[tactic(auto, unfolding(crate::specs::replies::Parts::refused_supply))]
pub fn refused_supply(
    alloc: Global,
    producer: &Name,
    now: Moment,
    why: SupplyError,
) -> Result<ServiceDelivery, OutOfMemory>
    ensures { IfOk result (λ delivery. delivery ≡ refused_supply producer.now now why) }
{
    Ok(ServiceDelivery {
        response_timestamp: Some(now),
        producer_ref: Some(producer.copy()?),
        response_message_identifier: None,
        request_message_ref: None,
        status: false,
        error_condition: Some(Refusal::of_supply(why).text(alloc)?),
        more_data: false,
        stop_monitoring_delivery: List::new(alloc),
        estimated_timetable_delivery: List::new(alloc),
        vehicle_monitoring_delivery: List::new(alloc),
        situation_exchange_delivery: List::new(alloc),
    })
}

/// The answer at a moment to a request for all of a subscription under a number (ServiceDelivery without functional
/// deliveries): MoreData, since the parts are delivered by themselves; where it is refused, Status false.
#[tactic(auto, unfolding(crate::specs::replies::Parts::all_data_response))]
pub fn all_data_response(
    alloc: Global,
    producer: &Name,
    now: Moment,
    number: u64,
    why: Option<Refusal>,
) -> Result<ServiceDelivery, OutOfMemory>
    ensures { IfOk result (λ delivery. delivery ≡ all_data_response producer.now now number why) }
{
    Ok(ServiceDelivery {
        response_timestamp: Some(now),
        producer_ref: Some(producer.copy()?),
        response_message_identifier: None,
        request_message_ref: Some(number_text(alloc, number)?),
        status: why.is_none(),
        error_condition: refusal_text(alloc, why)?,
        more_data: why.is_none(),
        stop_monitoring_delivery: List::new(alloc),
        estimated_timetable_delivery: List::new(alloc),
        vehicle_monitoring_delivery: List::new(alloc),
        situation_exchange_delivery: List::new(alloc),
    })
}

/// The ErrorText of a refusal, where there is one.
fn refusal_text(alloc: Global, why: Option<Refusal>) -> Result<Option<Text>, OutOfMemory>
    ensures { IfOk result (λ text. text ≡ option_map refusal_text why) }
{
    match why {
        Some(why) => {
            let text = why.text(alloc)?;
            Ok(Some(text))
        }
        None => Ok(None),
    }
}
