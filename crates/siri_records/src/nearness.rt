//! When two items are as good as equal.

ghost use Rattle.std.specs.Prelude.{◌≡◌, ℤ, true};
ghost use Rattle.std.specs.Cmp.Lexicographic.{pointwise};
ghost use Rattle.std.specs.Option.{option_eq};
ghost use Rattle.siri_records.specs.Near.{are_close_moments, is_close, is_near, is_near_call, is_near_journey, is_near_situation, is_near_vehicle, is_near_vehicle_journey, is_near_visit, is_near_visit_journey, same_period, steady};

use crate::{
    Item, Journey, Period, Situation, StopCall, Vehicle, VehicleJourney, Visit, VisitJourney,
};
use siri_base::{Moment, Span};

/// Whether two items are near with a slack: they are equal in every field but RecordedAtTime, and but for
/// ExpectedArrivalTime, ExpectedDepartureTime and Delay, each of which may differ by less than the slack where both
/// have it. Calls are compared list by list and place by place. Situations are near where they are equal in every
/// field (how this profile reads ChangeBeforeUpdates, EN 15531-3).
pub fn near(a: &Item, b: &Item, slack: Span) -> bool
    ensures { result ≡ is_near slack a.now b.now }
{
    match (a, b) {
        (Item::Visit(a), Item::Visit(b)) => near_visits(a, b, slack),
        (Item::Journey(a), Item::Journey(b)) => near_journeys(a, b, slack),
        (Item::Vehicle(a), Item::Vehicle(b)) => near_vehicles(a, b, slack),
        (Item::Situation(a), Item::Situation(b)) => near_situations(a, b),
        _ => false,
    }
}

/// Their names are equal and their journeys near; RecordedAtTime isn't looked at.
#[tactic(auto, unfolding(crate::specs::Near::is_near_visit))]
fn near_visits(a: &Visit, b: &Visit, slack: Span) -> bool
    ensures { result ≡ is_near_visit slack a.now b.now }
{
    a.item_identifier == b.item_identifier
        && a.monitoring_ref == b.monitoring_ref
        && near_visit_journeys(
            &a.monitored_vehicle_journey,
            &b.monitored_vehicle_journey,
            slack,
        )
}

/// All fields are equal but Delay and MonitoredCall, which are near.
#[tactic(auto, unfolding(crate::specs::Near::is_near_visit_journey))]
fn near_visit_journeys(a: &VisitJourney, b: &VisitJourney, slack: Span) -> bool
    ensures { result ≡ is_near_visit_journey slack a.now b.now }
{
    a.line_ref == b.line_ref
        && a.direction_ref == b.direction_ref
        && a.data_frame_ref == b.data_frame_ref
        && a.dated_vehicle_journey_ref == b.dated_vehicle_journey_ref
        && a.published_line_name == b.published_line_name
        && a.operator_ref == b.operator_ref
        && a.destination_ref == b.destination_ref
        && a.destination_name == b.destination_name
        && a.vehicle_ref == b.vehicle_ref
        && a.monitored == b.monitored
        && a.occupancy == b.occupancy
        && near_delays(a.delay, b.delay, slack)
        && a.vehicle_location == b.vehicle_location
        && near_calls(&a.monitored_call, &b.monitored_call, slack)
}

/// All fields are equal but RecordedAtTime, Delay and the calls, which are near list by list.
#[tactic(auto, unfolding(crate::specs::Near::is_near_journey))]
fn near_journeys(a: &Journey, b: &Journey, slack: Span) -> bool
    ensures { result ≡ is_near_journey slack a.now b.now }
{
    a.line_ref == b.line_ref
        && a.direction_ref == b.direction_ref
        && a.data_frame_ref == b.data_frame_ref
        && a.dated_vehicle_journey_ref == b.dated_vehicle_journey_ref
        && a.cancellation == b.cancellation
        && a.published_line_name == b.published_line_name
        && a.operator_ref == b.operator_ref
        && a.destination_ref == b.destination_ref
        && a.destination_name == b.destination_name
        && a.vehicle_ref == b.vehicle_ref
        && a.monitored == b.monitored
        && a.occupancy == b.occupancy
        && near_delays(a.delay, b.delay, slack)
        && near_call_lists(a.recorded_calls.slice(), b.recorded_calls.slice(), slack)
        && near_call_lists(a.estimated_calls.slice(), b.estimated_calls.slice(), slack)
}

/// ItemIdentifier and ValidUntilTime are equal, and the journeys near; RecordedAtTime isn't looked at.
#[tactic(auto, unfolding(crate::specs::Near::is_near_vehicle))]
fn near_vehicles(a: &Vehicle, b: &Vehicle, slack: Span) -> bool
    ensures { result ≡ is_near_vehicle slack a.now b.now }
{
    a.item_identifier == b.item_identifier
        && a.valid_until_time == b.valid_until_time
        && near_vehicle_journeys(
            &a.monitored_vehicle_journey,
            &b.monitored_vehicle_journey,
            slack,
        )
}

/// All fields are equal but Delay and MonitoredCall, which are near or both absent.
#[tactic(auto, unfolding(crate::specs::Near::is_near_vehicle_journey))]
fn near_vehicle_journeys(a: &VehicleJourney, b: &VehicleJourney, slack: Span) -> bool
    ensures { result ≡ is_near_vehicle_journey slack a.now b.now }
{
    a.line_ref == b.line_ref
        && a.direction_ref == b.direction_ref
        && a.data_frame_ref == b.data_frame_ref
        && a.dated_vehicle_journey_ref == b.dated_vehicle_journey_ref
        && a.published_line_name == b.published_line_name
        && a.operator_ref == b.operator_ref
        && a.destination_ref == b.destination_ref
        && a.destination_name == b.destination_name
        && a.vehicle_ref == b.vehicle_ref
        && a.monitored == b.monitored
        && a.occupancy == b.occupancy
        && near_delays(a.delay, b.delay, slack)
        && a.vehicle_location == b.vehicle_location
        && near_optional_calls(&a.monitored_call, &b.monitored_call, slack)
}

/// All fields are equal: ChangeBeforeUpdates isn't for situations.
#[tactic(auto, unfolding(crate::specs::Near::is_near_situation))]
fn near_situations(a: &Situation, b: &Situation) -> bool
    ensures { result ≡ is_near_situation a.now b.now }
{
    a.creation_time == b.creation_time
        && a.participant_ref == b.participant_ref
        && a.situation_number == b.situation_number
        && a.version == b.version
        && a.versioned_at_time == b.versioned_at_time
        && a.progress == b.progress
        && same_periods(a.validity_period.slice(), b.validity_period.slice())
        && a.severity == b.severity
        && a.summary == b.summary
        && a.description == b.description
        && a.affected_operators.slice() == b.affected_operators.slice()
        && a.affected_lines.slice() == b.affected_lines.slice()
        && a.affected_stop_points.slice() == b.affected_stop_points.slice()
}

/// All fields are equal but ExpectedArrivalTime and ExpectedDepartureTime, which are near.
#[tactic(auto, unfolding(crate::specs::Near::is_near_call))]
fn near_calls(a: &StopCall, b: &StopCall, slack: Span) -> bool
    ensures { result ≡ is_near_call slack a.now b.now }
{
    a.stop_point_ref == b.stop_point_ref
        && a.order == b.order
        && a.stop_point_name == b.stop_point_name
        && a.vehicle_at_stop == b.vehicle_at_stop
        && a.aimed_arrival_time == b.aimed_arrival_time
        && near_moments(a.expected_arrival_time, b.expected_arrival_time, slack)
        && a.actual_arrival_time == b.actual_arrival_time
        && a.arrival_status == b.arrival_status
        && a.arrival_platform_name == b.arrival_platform_name
        && a.aimed_departure_time == b.aimed_departure_time
        && near_moments(a.expected_departure_time, b.expected_departure_time, slack)
        && a.actual_departure_time == b.actual_departure_time
        && a.departure_status == b.departure_status
        && a.departure_platform_name == b.departure_platform_name
}

/// The same periods in the same order.
fn same_periods(a: &[Period], b: &[Period]) -> bool
    ensures { result ≡ pointwise same_period a.now b.now }
{
    a == b
}

/// Call by call, in lists of one length.
fn near_call_lists(a: &[StopCall], b: &[StopCall], slack: Span) -> bool
    ensures { result ≡ pointwise (is_near_call slack) a.now b.now }
{
    if a.len() != b.len() {
        return false;
    }
    for (call, other) in a.iter().zip(b) {
        if !near_calls(call, other, slack) {
            return false;
        }
    }
    true
}

/// Both calls are absent, or both are there and near.
fn near_optional_calls(a: &Option<StopCall>, b: &Option<StopCall>, slack: Span) -> bool
    ensures { result ≡ option_eq (is_near_call slack) a.now b.now }
{
    match (a, b) {
        (None, None) => true,
        (Some(a), Some(b)) => near_calls(a, b, slack),
        _ => false,
    }
}

/// Both moments are absent, or both are there and equal or less than the slack apart.
fn near_moments(a: Option<Moment>, b: Option<Moment>, slack: Span) -> bool
    ensures { result ≡ option_eq (are_close_moments slack) a b }
{
    match (a, b) {
        (None, None) => true,
        (Some(a), Some(b)) => close(a.ms(), b.ms(), slack),
        _ => false,
    }
}

/// Both delays are absent, or both are there and equal or less than the slack apart.
fn near_delays(a: Option<Span>, b: Option<Span>, slack: Span) -> bool
    ensures { result ≡ option_eq (is_close slack) a b }
{
    match (a, b) {
        (None, None) => true,
        (Some(a), Some(b)) => close(a.ms(), b.ms(), slack),
        _ => false,
    }
}

/// Whether two numbers of milliseconds are equal, or less than the slack apart.
fn close(a: i64, b: i64, slack: Span) -> bool
    ensures { result ≡ is_close slack a b }
{
    a == b || i128::from(a.abs_diff(b)) < i128::from(slack.ms())
}

/// A law, which does nothing when it is called: every item is near itself, with whatever slack, and items that are near
/// are equal in every field but RecordedAtTime, ExpectedArrivalTime, ExpectedDepartureTime and Delay.
pub fn near_items_agree()
    ensures itself { (slack : ℤ) (a : Item) → is_near slack a a ≡ true }
    ensures agree { (slack : ℤ) (a b : Item) → is_near slack a b ≡ true → steady a ≡ steady b }
{}
