//! Reading journeys.

ghost use Rattle.std.specs.Prelude.{◌≡◌, IsTrue};
ghost use Rattle.siri_json.specs.Shown.{shown};
ghost use Rattle.siri_tables.specs.Refusals.{Gives, is_key};
ghost use Rattle.siri_tables.specs.Rules.{list, list_inside, table};
ghost use Rattle.siri_items.specs.Calls.{stop_call};
ghost use Rattle.siri_items.specs.Journeys.{read_journey_rows, has_time, journey};

use crate::names;
use crate::read_call::{StopCallTable, required_journey_ref};
use crate::read_parts::{progress, service_info};
use siri_base::{List, Reason};
use siri_json::Tree;
use siri_records::{Journey, StopCall, moment_of};
use siri_tables::refusal::{TableError, refuse};
use siri_tables::rows::{list_inside, required_row, row};
use siri_tables::rules::{FlagRule, MomentRule, NameRule, Table};
use std::alloc::Global;

/// The most entries of RecordedCall and of EstimatedCall in a journey; with more it is `TooMany`.
const MOST_CALLS: usize = 1000;

/// The calls at `key` of the object at `outer`, none where that is absent; `TooMany` at `key` above 1,000.
fn calls_inside(
    alloc: Global,
    tree: &Tree<'_>,
    outer: &str,
    key: &str,
) -> Result<List<StopCall>, TableError>
    requires outer { IsTrue (is_key outer.now) }
    requires key { IsTrue (is_key key.now) }
    ensures { Gives result (list_inside outer.now (list (table stop_call) 1000 key.now) (shown tree.now)) }
{
    list_inside::<StopCallTable>(alloc, tree, outer, key, MOST_CALLS)
}

/// An EstimatedVehicleJourney by its rows alone: LineRef and its name are required, a time of a call isn't.
#[tactic(auto, unfolding(crate::specs::Journeys::read_journey_rows))]
fn read_journey_rows(alloc: Global, tree: &Tree<'_>) -> Result<Journey, TableError>
    ensures { Gives result (read_journey_rows (shown tree.now)) }
{
    let recorded_at_time = row::<MomentRule>(alloc, tree, names::RECORDED_AT_TIME)?;
    let line_ref = required_row::<NameRule>(alloc, tree, names::LINE_REF)?;
    let direction_ref = row::<NameRule>(alloc, tree, names::DIRECTION_REF)?;
    let journey_ref = required_journey_ref(alloc, tree)?;
    let cancellation = row::<FlagRule>(alloc, tree, names::CANCELLATION)?;
    let service_info = service_info(alloc, tree)?;
    let vehicle_ref = row::<NameRule>(alloc, tree, names::VEHICLE_REF)?;
    let progress = progress(alloc, tree)?;
    Ok(Journey {
        recorded_at_time,
        line_ref,
        direction_ref,
        data_frame_ref: journey_ref.data_frame_ref,
        dated_vehicle_journey_ref: journey_ref.dated_vehicle_journey_ref,
        cancellation,
        published_line_name: service_info.published_line_name,
        operator_ref: service_info.operator_ref,
        destination_ref: service_info.destination_ref,
        destination_name: service_info.destination_name,
        vehicle_ref,
        monitored: progress.monitored,
        occupancy: progress.occupancy,
        delay: progress.delay,
        recorded_calls: calls_inside(alloc, tree, names::RECORDED_CALLS, names::RECORDED_CALL)?,
        estimated_calls: calls_inside(alloc, tree, names::ESTIMATED_CALLS, names::ESTIMATED_CALL)?,
    })
}

/// Whether a call has an actual, expected or aimed time, of its departure or its arrival.
fn has_time(calls: &[StopCall]) -> bool
    ensures { result ≡ has_time calls.now }
{
    calls.iter().any(|call| moment_of(call).is_some())
}

/// A journey with its calls, of which one has a time: otherwise `NoMoment` (EN 15531-3, EstimatedVehicleJourney).
pub struct JourneyTable;

impl Table for JourneyTable {
    type Out = Journey;

    ghost rows = { journey };

    #[tactic(auto, unfolding(crate::specs::Journeys::journey))]
    fn read_rows(alloc: Global, tree: &Tree<'_>) -> Result<Journey, TableError> {
        let journey = read_journey_rows(alloc, tree)?;
        if has_time(journey.recorded_calls.slice()) || has_time(journey.estimated_calls.slice()) {
            Ok(journey)
        } else {
            refuse(alloc, Reason::NoMoment)
        }
    }
}
