//! What is fed, asked for and subscribed to: visits of one stop, of which each has a departure in the first third of an
//! hour. A run ends two thirds into an hour, so no departure is near an edge of what is shown then.

ghost use Rattle.std.specs.Prelude.{◌≤◌};

use crate::stopped::Stopped;
use siri_base::{List, Moment, Name, Span, Text};
use siri_messages::{FunctionalDelivery, ServiceDelivery, ServiceRequest};
use siri_records::{Item, Key, SharedItem, StopCall, Visit, VisitJourney};
use siri_topic::{StopTopic, Subscription, Topic};
use std::alloc::Global;

/// 2024-05-01T08:00:00Z, in milliseconds since 1970: every chain begins there.
pub(crate) const FIRST_MOMENT: u64 = 1_714_550_400_000;

/// The last moment that there is.
const LAST_MOMENT: u64 = 253_402_300_799_999;

/// 2034-05-01T08:00:00Z, when every subscription ends.
const TERMINATION: u64 = 2_030_083_200_000;

/// An hour in milliseconds.
pub(crate) const HOUR: u64 = 3_600_000;

/// A day in milliseconds.
const DAY: u64 = 86_400_000;

/// What an end asks of the one before it.
#[derive(Clone, Copy, Debug)]
pub(crate) struct Link {
    /// ChangeBeforeUpdates, in milliseconds.
    pub(crate) slack: u64,
    /// PreviewInterval in milliseconds, if there is one.
    pub(crate) preview: Option<u64>,
    /// IncrementalUpdates.
    pub(crate) incremental: bool,
    /// Whether parts are fetched.
    pub(crate) fetched: bool,
}

/// What is known of a visit, by its number.
#[derive(Clone, Copy, Debug)]
pub(crate) struct Known {
    pub(crate) number: u64,
    /// The hour of its departure, counted from the first moment.
    pub(crate) hour: u64,
    /// The second of that hour.
    pub(crate) second: u64,
    /// Its delay in milliseconds, if it is known.
    pub(crate) delay: Option<u64>,
    pub(crate) platform: u64,
}

/// The moment so many milliseconds after 1970 began, at most the last one.
pub(crate) fn moment(ms: u64) -> Moment {
    match Moment::new(ms.min(LAST_MOMENT) as i64) {
        Some(moment) => moment,
        None => unreachable!(),
    }
}

/// The span of so many milliseconds, at most a day.
pub(crate) fn span(ms: u64) -> Span {
    match Span::new(ms.min(DAY) as i64) {
        Some(span) => span,
        None => unreachable!(),
    }
}

/// The name that ends with a number.
pub(crate) fn numbered(alloc: Global, before: &str, number: u64) -> Result<Name, Stopped> {
    let text = format!(in alloc; "{before}{number}")?;
    Ok(Name::new(alloc, text.as_str())?)
}

/// What the stop is called.
fn stop(alloc: Global) -> Result<Name, Stopped> {
    Ok(Name::new(alloc, "S1")?)
}

/// The identifier of every subscription.
pub(crate) fn identifier(alloc: Global) -> Result<Name, Stopped> {
    Ok(Name::new(alloc, "S")?)
}

/// A visit.
pub(crate) fn visit(alloc: Global, known: &Known) -> Result<SharedItem, Stopped> {
    let item_identifier = numbered(alloc, "v", known.number)?;
    let monitoring_ref = stop(alloc)?;
    let monitored_vehicle_journey = journey(alloc, known)?;
    let visit = Visit {
        recorded_at_time: None,
        item_identifier,
        monitoring_ref,
        monitored_vehicle_journey,
    };
    Ok(SharedItem::new(alloc, Item::Visit(visit))?)
}

/// Its journey.
fn journey(alloc: Global, known: &Known) -> Result<VisitJourney, Stopped> {
    let line_ref = Name::new(alloc, "L1")?;
    let platform = format!(in alloc; "{}", known.platform)?;
    let platform = Text::new(alloc, platform.as_str())?;
    let mut journey = VisitJourney::blank(call(known, platform));
    journey.line_ref = Some(line_ref);
    journey.delay = known.delay.map(span);
    Ok(journey)
}

/// Its call, with the arrival half a minute before the departure.
fn call(known: &Known, platform: Text) -> StopCall {
    let hour = FIRST_MOMENT.saturating_add(known.hour.saturating_mul(HOUR));
    let departure = hour.saturating_add(known.second.saturating_mul(1000));
    let mut call = StopCall::blank();
    call.expected_arrival_time = Some(moment(departure.saturating_sub(30_000)));
    call.expected_departure_time = Some(moment(departure));
    call.departure_platform_name = Some(platform);
    call
}

/// The key of a visit.
pub(crate) fn key(alloc: Global, number: u64) -> Result<Key, Stopped> {
    let monitoring = stop(alloc)?;
    let item = numbered(alloc, "v", number)?;
    Ok(Key::Visit { monitoring, item })
}

/// A delivery of these.
pub(crate) fn delivery(
    alloc: Global,
    items: List<SharedItem>,
    removals: List<Key>,
) -> Result<ServiceDelivery, Stopped> {
    let mut functional = FunctionalDelivery::blank(alloc);
    functional.items = items;
    functional.removals = removals;
    let mut delivery = ServiceDelivery::blank(alloc);
    delivery.stop_monitoring_delivery.push(functional)?;
    Ok(delivery)
}

/// The visits of the stop.
fn topic(alloc: Global, preview: Option<u64>) -> Result<Topic, Stopped> {
    Ok(Topic::Stop(StopTopic {
        monitoring_ref: stop(alloc)?,
        line_ref: None,
        direction_ref: None,
        operator_ref: None,
        destination_ref: None,
        preview_interval: preview.map(span),
        start_time: None,
        maximum_stop_visits: None,
    }))
}

/// A request for what a link shows.
pub(crate) fn request(alloc: Global, link: Link) -> Result<ServiceRequest, Stopped> {
    let mut topics = List::new(alloc);
    topics.push(topic(alloc, link.preview)?)?;
    Ok(ServiceRequest {
        request_timestamp: None,
        requestor_ref: None,
        message_identifier: None,
        stop_monitoring_request: topics,
        estimated_timetable_request: List::new(alloc),
        vehicle_monitoring_request: List::new(alloc),
        situation_exchange_request: List::new(alloc),
    })
}

/// The subscription of a link.
pub(crate) fn subscription(
    alloc: Global,
    subscriber: Name,
    link: Link,
) -> Result<Subscription, Stopped> {
    let identifier = identifier(alloc)?;
    let topic = topic(alloc, link.preview)?;
    Ok(Subscription {
        subscriber,
        identifier,
        termination: moment(TERMINATION),
        topic,
        slack: span(link.slack),
        incremental: link.incremental,
        fetched: link.fetched,
    })
}
