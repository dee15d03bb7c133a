//! The events of a load. An event is boxed as soon as it is made, since it is dear to let go in a proof; and the
//! functions that make a large value can't fail.

ghost use Rattle.std.specs.Prelude.{◌≡◌, ◌≤◌, ◌++◌, length, pos, IfOk};
ghost use Rattle.std.specs.Fmt.{decimal};
ghost use Rattle.siri_load.specs.Events.{call, cancelled, cancelling, consumer as the_consumer, delivery, delivery_of, feeding, first_moment, functional, identifier as identifier_of, later, stop, subscribing, subscription, viewing, visit};

use siri_base::{List, Moment, Name, OutOfMemory, Span, TextError};
use siri_messages::{FunctionalDelivery, ServiceDelivery};
use siri_records::{Item, Key, SharedItem, StopCall, Visit, VisitJourney};
use siri_topic::{StopTopic, Subscription, Topic};
use siri_world_model::Event;
use std::alloc::Global;

/// 2024-05-01T00:00:00Z, in milliseconds since 1970.
const FIRST_MOMENT: u64 = 1_714_521_600_000;

/// 2024-05-31T00:00:00Z
const LAST_MOMENT: u64 = 1_717_113_600_000;

/// A minute in milliseconds: the ChangeBeforeUpdates of odd subscriptions.
const MINUTE: u64 = 60_000;

/// An hour in milliseconds: the PreviewInterval of every subscription.
const HOUR: u64 = 3_600_000;

// ---- values

/// The moment so many milliseconds after 1970 began, up to the year 9999.
fn moment(ms: u64) -> Moment
    requires { ms ≤ 253402300799999 }
    ensures { result ≡ ms }
{
    match Moment::new(ms as i64) {
        Some(moment) => moment,
        None => unreachable!(),
    }
}

/// A span of so many milliseconds, an hour at most.
fn span(ms: u64) -> Span
    requires { ms ≤ 3600000 }
    ensures { result ≡ pos ms }
{
    match Span::new(ms as i64) {
        Some(span) => span,
        None => unreachable!(),
    }
}

/// The name that a text of 1 to 255 bytes is.
fn name(alloc: Global, text: &str) -> Result<Name, OutOfMemory>
    requires some { 1 ≤ length text.now }
    requires short { length text.now ≤ 255 }
    ensures { IfOk result (λ name. name ≡ text.now) }
{
    match Name::new(alloc, text) {
        Ok(name) => Ok(name),
        Err(TextError::OutOfMemory) => Err(OutOfMemory),
        Err(TextError::Empty | TextError::TooLong) => unreachable!(),
    }
}

/// A name that ends with a number.
#[tactic(auto, using(crate::proofs::Numbers::decimal_some, crate::proofs::Numbers::decimal_few))]
fn numbered(alloc: Global, before: &str, number: u64) -> Result<Name, OutOfMemory>
    requires { length before.now ≤ 200 }
    ensures { IfOk result (λ name. name ≡ before.now ++ decimal number) }
{
    let mut text = String::from_str(alloc, before)?;
    let digits = number.to_string(alloc)?;
    text.push_str(digits.as_str())?;
    name(alloc, text.as_str())
}

/// The one consumer.
pub(crate) fn consumer(alloc: Global) -> Result<Name, OutOfMemory>
    ensures { IfOk result (λ name. name ≡ the_consumer) }
{
    name(alloc, "load")
}

/// The MonitoringRef of a number: `s` and the number.
fn stop(alloc: Global, number: u64) -> Result<Name, OutOfMemory>
    ensures { IfOk result (λ name. name ≡ stop number) }
{
    numbered(alloc, "s", number)
}

/// The ItemIdentifier of a number: `i` and the number.
fn identifier(alloc: Global, number: u64) -> Result<Name, OutOfMemory>
    ensures { IfOk result (λ name. name ≡ identifier_of number) }
{
    numbered(alloc, "i", number)
}

/// The moment of the start.
pub(crate) fn first_moment() -> Moment
    ensures { result ≡ first_moment }
{
    moment(FIRST_MOMENT)
}

/// So many seconds later.
pub(crate) fn later(from: Moment, seconds: u64) -> Moment
    requires moment { from ≤ 200000000000000 }
    requires seconds { seconds ≤ 7200 }
    ensures { result ≡ later from seconds }
{
    moment(from.ms() as u64 + 1000 * seconds)
}

// ---- the start, the clock and deliveries

/// The producer starts.
pub(crate) fn starting(alloc: Global) -> Result<Box<Event>, OutOfMemory>
    ensures { IfOk result (λ event. event.value ≡ Event.Start first_moment) }
{
    Ok(Box::new(alloc, Event::Start(first_moment()))?)
}

/// The clock comes to a moment.
pub(crate) fn clocking(alloc: Global, moment: Moment) -> Result<Box<Event>, OutOfMemory>
    ensures { IfOk result (λ event. event.value ≡ Event.Clock moment) }
{
    Ok(Box::new(alloc, Event::Clock(moment))?)
}

/// The packet of a number is delivered.
pub(crate) fn delivering(alloc: Global, number: u64) -> Result<Box<Event>, OutOfMemory>
    ensures { IfOk result (λ event. event.value ≡ Event.Deliver number) }
{
    Ok(Box::new(alloc, Event::Deliver(number))?)
}

// ---- what is subscribed to

/// The consumer asks for its subscription of a number.
pub(crate) fn subscribing(alloc: Global, number: u64) -> Result<Box<Event>, OutOfMemory>
    ensures { IfOk result (λ event. event.value ≡ subscribing number) }
{
    let subscriber = consumer(alloc)?;
    let identifier = numbered(alloc, "", number)?;
    let monitoring_ref = stop(alloc, number)?;
    let consumer = consumer(alloc)?;
    let wanted = subscription(subscriber, identifier, monitoring_ref, number);
    Ok(Box::new(alloc, subscribe(consumer, wanted))?)
}

/// The consumer asks for a subscription, without heartbeats.
fn subscribe(consumer: Name, wanted: Subscription) -> Event
    ensures { result ≡ Event.Subscribe consumer wanted (pos 0) }
{
    Event::Subscribe {
        consumer,
        wanted,
        beat: span(0),
    }
}

/// ChangeBeforeUpdates is a minute for odd numbers and zero for even ones, and number 4 is fetched.
#[tactic(auto, unfolding(crate::specs::Events::subscription))]
fn subscription(
    subscriber: Name,
    identifier: Name,
    monitoring_ref: Name,
    number: u64,
) -> Subscription
    requires subscriber { subscriber ≡ the_consumer }
    requires identifier { identifier ≡ decimal number }
    requires stop { monitoring_ref ≡ stop number }
    ensures { result ≡ subscription number }
{
    Subscription {
        subscriber,
        identifier,
        termination: moment(LAST_MOMENT),
        topic: Topic::Stop(StopTopic {
            monitoring_ref,
            line_ref: None,
            direction_ref: None,
            operator_ref: None,
            destination_ref: None,
            preview_interval: Some(span(HOUR)),
            start_time: None,
            maximum_stop_visits: None,
        }),
        slack: span(if number % 2 == 0 { 0 } else { MINUTE }),
        incremental: true,
        fetched: number == 4,
    }
}

// ---- what is fed

/// A feed of one visit.
pub(crate) fn feeding(
    alloc: Global,
    at: u64,
    known_by: u64,
    departure: Moment,
) -> Result<Box<Event>, OutOfMemory>
    ensures { IfOk result (λ event. event.value ≡ feeding at known_by departure) }
{
    let mut items = List::new(alloc);
    let visit = visit(alloc, at, known_by, departure)?;
    items.push(SharedItem::new(alloc, visit)?)?;
    feed(alloc, items, List::new(alloc))
}

/// A feed of one cancellation.
pub(crate) fn cancelling(alloc: Global, at: u64, known_by: u64) -> Result<Box<Event>, OutOfMemory>
    ensures { IfOk result (λ event. event.value ≡ cancelling at known_by) }
{
    let mut removals = List::new(alloc);
    removals.push(cancelled(alloc, at, known_by)?)?;
    feed(alloc, List::new(alloc), removals)
}

/// A feed of visits and cancellations in one StopMonitoringDelivery.
fn feed(
    alloc: Global,
    items: List<SharedItem>,
    removals: List<Key>,
) -> Result<Box<Event>, OutOfMemory>
    ensures { IfOk result (λ event. event.value ≡ Event.Feed (delivery items removals)) }
{
    let mut stops = List::new(alloc);
    stops.push(functional(alloc, items, removals))?;
    Ok(Box::new(alloc, Event::Feed(delivery(alloc, stops)))?)
}

/// A visit of the line L1.
#[tactic(auto, unfolding(crate::specs::Events::visit))]
fn visit(alloc: Global, at: u64, known_by: u64, departure: Moment) -> Result<Item, OutOfMemory>
    ensures { IfOk result (λ item. item ≡ visit at known_by departure) }
{
    let item_identifier = identifier(alloc, known_by)?;
    let monitoring_ref = stop(alloc, at)?;
    let line_ref = name(alloc, "L1")?;
    let mut monitored_vehicle_journey = VisitJourney::blank(call(departure));
    monitored_vehicle_journey.line_ref = Some(line_ref);
    Ok(Item::Visit(Visit {
        recorded_at_time: None,
        item_identifier,
        monitoring_ref,
        monitored_vehicle_journey,
    }))
}

/// A call with an ExpectedDepartureTime alone.
#[tactic(auto, unfolding(crate::specs::Events::call))]
fn call(departure: Moment) -> StopCall
    ensures { result ≡ call departure }
{
    let mut call = StopCall::blank();
    call.expected_departure_time = Some(departure);
    call
}

/// What a cancellation names.
fn cancelled(alloc: Global, at: u64, known_by: u64) -> Result<Key, OutOfMemory>
    ensures { IfOk result (λ key. key ≡ cancelled at known_by) }
{
    Ok(Key::Visit {
        monitoring: stop(alloc, at)?,
        item: identifier(alloc, known_by)?,
    })
}

/// Items and cancellations of Stop Monitoring.
#[tactic(auto, unfolding(crate::specs::Events::functional))]
fn functional(alloc: Global, items: List<SharedItem>, removals: List<Key>) -> FunctionalDelivery
    ensures { result ≡ functional items removals }
{
    let mut delivery = FunctionalDelivery::blank(alloc);
    delivery.items = items;
    delivery.removals = removals;
    delivery
}

/// A delivery of them alone.
fn delivery(alloc: Global, stops: List<FunctionalDelivery>) -> ServiceDelivery
    ensures { result ≡ delivery_of stops }
{
    let mut delivery = ServiceDelivery::blank(alloc);
    delivery.stop_monitoring_delivery = stops;
    delivery
}

// ---- what is told of at the end

/// What the consumer shows of its subscription of a number.
pub(crate) fn viewing(alloc: Global, number: u64) -> Result<Box<Event>, OutOfMemory>
    ensures { IfOk result (λ event. event.value ≡ viewing number) }
{
    let consumer = consumer(alloc)?;
    let identifier = numbered(alloc, "", number)?;
    Ok(Box::new(
        alloc,
        Event::View {
            consumer,
            identifier,
        },
    )?)
}
