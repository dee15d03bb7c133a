//! Which items agree with a topic by their names.

ghost use Rattle.std.specs.Prelude.{◌≡◌};
ghost use Rattle.std.specs.List.{list_any};
ghost use Rattle.siri_topic.specs.Agreement.{agrees, has_journey, has_situation, has_vehicle, has_visit, is_among, is_given, is_given_name, is_on, is_on_a_line, same_name};

use crate::{LineDirection, SituationTopic, StopTopic, TimetableTopic, Topic, VehicleTopic};
use siri_base::Name;
use siri_records::{Item, Journey, Situation, Vehicle, Visit};

/// Whether an item agrees with a topic: it is of the topic's service and has each name that the topic gives. A name
/// that the item lacks never agrees with a name given. It takes no memory.
pub fn matches(topic: &Topic, item: &Item) -> bool
    ensures { result ≡ agrees topic.now item.now }
{
    match (topic, item) {
        (Topic::Stop(topic), Item::Visit(visit)) => has_visit(topic, visit),
        (Topic::Timetable(topic), Item::Journey(journey)) => has_journey(topic, journey),
        (Topic::Vehicle(topic), Item::Vehicle(vehicle)) => has_vehicle(topic, vehicle),
        (Topic::Situation(topic), Item::Situation(situation)) => has_situation(topic, situation),
        _ => false,
    }
}

/// MonitoringRef is the topic's; its line, direction, operator and destination are, where the topic gives them.
#[tactic(auto, unfolding(crate::specs::Agreement::has_visit))]
fn has_visit(topic: &StopTopic, visit: &Visit) -> bool
    ensures { result ≡ has_visit topic.now visit.now }
{
    let journey = &visit.monitored_vehicle_journey;
    visit.monitoring_ref == topic.monitoring_ref
        && is_given(&topic.line_ref, &journey.line_ref)
        && is_given(&topic.direction_ref, &journey.direction_ref)
        && is_given(&topic.operator_ref, &journey.operator_ref)
        && is_given(&topic.destination_ref, &journey.destination_ref)
}

/// OperatorRef is the topic's where that gives one, and so is the line, with its direction, where it has Lines.
#[tactic(auto, unfolding(crate::specs::Agreement::has_journey))]
fn has_journey(topic: &TimetableTopic, journey: &Journey) -> bool
    ensures { result ≡ has_journey topic.now journey.now }
{
    is_given(&topic.operator_ref, &journey.operator_ref)
        && is_on_a_line(topic.lines.slice(), journey)
}

/// VehicleRef, LineRef and DirectionRef are the topic's, each where the topic gives one.
#[tactic(auto, unfolding(crate::specs::Agreement::has_vehicle))]
fn has_vehicle(topic: &VehicleTopic, vehicle: &Vehicle) -> bool
    ensures { result ≡ has_vehicle topic.now vehicle.now }
{
    let journey = &vehicle.monitored_vehicle_journey;
    is_given_name(&topic.vehicle_ref, &journey.vehicle_ref)
        && is_given(&topic.line_ref, &journey.line_ref)
        && is_given(&topic.direction_ref, &journey.direction_ref)
}

/// It affects the topic's line, stop point and operator, each where the topic gives one.
#[tactic(auto, unfolding(crate::specs::Agreement::has_situation))]
fn has_situation(topic: &SituationTopic, situation: &Situation) -> bool
    ensures { result ≡ has_situation topic.now situation.now }
{
    is_among(&topic.line_ref, situation.affected_lines.slice())
        && is_among(
            &topic.stop_point_ref,
            situation.affected_stop_points.slice(),
        )
        && is_among(&topic.operator_ref, situation.affected_operators.slice())
}

/// No line is asked for, or one of them is the journey's.
fn is_on_a_line(lines: &[LineDirection], journey: &Journey) -> bool
    ensures { result ≡ is_on_a_line lines.now journey.now }
{
    lines.is_empty() || is_on_one(lines, journey)
}

/// One of these lines is the journey's; where there are none, it isn't.
fn is_on_one(lines: &[LineDirection], journey: &Journey) -> bool
    ensures { result ≡ list_any (λ line. is_on line journey.now) lines.now }
{
    lines.iter().any(|line| is_on(line, journey))
}

/// LineRef is the journey's, and so is DirectionRef, where it is given.
fn is_on(line: &LineDirection, journey: &Journey) -> bool
    ensures { result ≡ is_on line.now journey.now }
{
    journey.line_ref == line.line_ref && is_given(&line.direction_ref, &journey.direction_ref)
}

/// No name is given, or it is the item's.
fn is_given(given: &Option<Name>, own: &Option<Name>) -> bool
    ensures { result ≡ is_given given.now own.now }
{
    match (given, own) {
        (None, _) => true,
        (Some(given), Some(own)) => own == given,
        (Some(_), None) => false,
    }
}

/// The same of an item that always has the name.
fn is_given_name(given: &Option<Name>, own: &Name) -> bool
    ensures { result ≡ is_given_name given.now own.now }
{
    match given {
        None => true,
        Some(given) => own == given,
    }
}

/// No name is given, or it is one of these.
fn is_among(given: &Option<Name>, names: &[Name]) -> bool
    ensures { result ≡ is_among given.now names.now }
{
    match given {
        None => true,
        Some(given) => is_one_of(given, names),
    }
}

/// One of these names is the given one, byte by byte.
fn is_one_of(given: &Name, names: &[Name]) -> bool
    ensures { result ≡ list_any (λ name. same_name name given.now) names.now }
{
    names.iter().any(|name| name == given)
}
