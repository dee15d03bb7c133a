//! When items begin, end and are over.

ghost use Rattle.std.specs.Prelude.{◌≡◌, map, fold};
ghost use Rattle.siri_records.specs.Ends as ends;

use crate::{Item, Period, StopCall};
use siri_base::Moment;

/// The moment of a call: the first that is there of its actual, expected and aimed departure times, then of its
/// actual, expected and aimed arrival times.
#[tactic(auto, unfolding(crate::specs::Ends::call_moment))]
pub fn moment_of(call: &StopCall) -> Option<Moment>
    ensures { result ≡ ends.call_moment call.now }
{
    call.actual_departure_time
        .or(call.expected_departure_time)
        .or(call.aimed_departure_time)
        .or(call.actual_arrival_time)
        .or(call.expected_arrival_time)
        .or(call.aimed_arrival_time)
}

/// The entry of an item: of a visit its call moment, of a journey the least moment of its calls, of a situation the
/// least start of its periods. A vehicle has none.
pub fn entry_of(item: &Item) -> Option<Moment>
    ensures { result ≡ ends.entry_of item.now }
{
    match item {
        Item::Visit(visit) => moment_of(&visit.monitored_vehicle_journey.monitored_call),
        Item::Journey(journey) => {
            let recorded = first_call(None, journey.recorded_calls.slice());
            first_call(recorded, journey.estimated_calls.slice())
        }
        Item::Vehicle(_) => None,
        Item::Situation(situation) => first_start(situation.validity_period.slice()),
    }
}

/// The end of an item: of a visit its call moment, of a journey the greatest moment of its calls, of a vehicle the
/// time until which it is valid, of a situation the greatest end of its periods, none where one of them is open.
pub fn end_of(item: &Item) -> Option<Moment>
    ensures { result ≡ ends.end_of item.now }
{
    match item {
        Item::Visit(visit) => moment_of(&visit.monitored_vehicle_journey.monitored_call),
        Item::Journey(journey) => {
            let recorded = last_call(None, journey.recorded_calls.slice());
            last_call(recorded, journey.estimated_calls.slice())
        }
        Item::Vehicle(vehicle) => vehicle.valid_until_time,
        Item::Situation(situation) => last_end(situation.validity_period.slice()),
    }
}

/// Whether an item is closed: a situation whose progress is `closed`.
pub fn closed(item: &Item) -> bool
    ensures { result ≡ ends.is_closed item.now }
{
    match item {
        Item::Situation(situation) => match &situation.progress {
            Some(progress) => progress.text() == "closed",
            None => false,
        },
        _ => false,
    }
}

/// Whether an item is dead at a moment: it is closed, or its end is before that moment.
pub fn dead(item: &Item, now: Moment) -> bool
    ensures { result ≡ ends.is_dead item.now now }
{
    closed(item)
        || match end_of(item) {
            Some(end) => end.ms() < now.ms(),
            None => false,
        }
}

/// The least moment of these calls and of those before them.
fn first_call(before: Option<Moment>, calls: &[StopCall]) -> Option<Moment>
    ensures { result ≡ fold ends.earlier before (map ends.call_moment calls.now) }
{
    let mut first = before;
    for call in calls {
        first = earlier(first, moment_of(call));
    }
    first
}

/// The greatest moment of these calls and of those before them.
fn last_call(before: Option<Moment>, calls: &[StopCall]) -> Option<Moment>
    ensures { result ≡ fold ends.later before (map ends.call_moment calls.now) }
{
    let mut last = before;
    for call in calls {
        last = later(last, moment_of(call));
    }
    last
}

/// The least start.
fn first_start(periods: &[Period]) -> Option<Moment>
    ensures { result ≡ ends.least (map (λ p. Some p.start_time) periods.now) }
{
    let mut first = None;
    for period in periods {
        first = earlier(first, Some(period.start_time));
    }
    first
}

/// The greatest end, none where a period is open.
fn last_end(periods: &[Period]) -> Option<Moment>
    ensures { result ≡ ends.last_end periods.now }
{
    let mut last = None;
    for period in periods {
        last = later(last, Some(period.end_time?));
    }
    last
}

/// The earlier of two moments, where an absent one gives way.
fn earlier(a: Option<Moment>, b: Option<Moment>) -> Option<Moment>
    ensures { result ≡ ends.earlier a b }
{
    match (a, b) {
        (Some(a), Some(b)) => Some(if b.ms() < a.ms() { b } else { a }),
        (a, b) => a.or(b),
    }
}

/// The later of two moments, where an absent one gives way.
fn later(a: Option<Moment>, b: Option<Moment>) -> Option<Moment>
    ensures { result ≡ ends.later a b }
{
    match (a, b) {
        (Some(a), Some(b)) => Some(a.max(b)),
        (a, b) => a.or(b),
    }
}
