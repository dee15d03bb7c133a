//! Reading visits.

ghost use Rattle.siri_json.specs.Shown.{shown};
ghost use Rattle.siri_tables.specs.Refusals.{Gives};
ghost use Rattle.siri_items.specs.Visits.{timed_call, visit_journey, visit};

use crate::names;
use crate::read_call::{LocationRule, StopCallTable, journey_ref};
use crate::read_parts::{progress, service_info};
use siri_base::Reason;
use siri_json::Tree;
use siri_records::{StopCall, Visit, VisitJourney, moment_of};
use siri_tables::refusal::{TableError, refuse_at};
use siri_tables::rows::{required_row, row};
use siri_tables::rules::{MomentRule, NameRule, Table};
use std::alloc::Global;

/// The call at the monitored stop, which has to be there and to have a time: otherwise `NoMoment` at it.
#[tactic(auto, unfolding(crate::specs::Visits::timed_call))]
fn timed_call(alloc: Global, tree: &Tree<'_>) -> Result<StopCall, TableError>
    ensures { Gives result (timed_call (shown tree.now)) }
{
    let call = required_row::<StopCallTable>(alloc, tree, names::MONITORED_CALL)?;
    match moment_of(&call) {
        Some(_) => Ok(call),
        None => refuse_at(alloc, names::MONITORED_CALL, Reason::NoMoment),
    }
}

/// The MonitoredVehicleJourney of a visit: its MonitoredCall is required, and has to have a time.
struct VisitJourneyTable;

impl Table for VisitJourneyTable {
    type Out = VisitJourney;

    ghost rows = { visit_journey };

    #[tactic(auto, unfolding(crate::specs::Visits::visit_journey))]
    fn read_rows(alloc: Global, tree: &Tree<'_>) -> Result<VisitJourney, TableError> {
        let line_ref = row::<NameRule>(alloc, tree, names::LINE_REF)?;
        let direction_ref = row::<NameRule>(alloc, tree, names::DIRECTION_REF)?;
        let journey_ref = journey_ref(alloc, tree)?;
        let service_info = service_info(alloc, tree)?;
        let vehicle_ref = row::<NameRule>(alloc, tree, names::VEHICLE_REF)?;
        let progress = progress(alloc, tree)?;
        Ok(VisitJourney {
            line_ref,
            direction_ref,
            data_frame_ref: journey_ref.data_frame_ref,
            dated_vehicle_journey_ref: journey_ref.dated_vehicle_journey_ref,
            published_line_name: service_info.published_line_name,
            operator_ref: service_info.operator_ref,
            destination_ref: service_info.destination_ref,
            destination_name: service_info.destination_name,
            vehicle_ref,
            monitored: progress.monitored,
            occupancy: progress.occupancy,
            delay: progress.delay,
            vehicle_location: row::<LocationRule>(alloc, tree, names::VEHICLE_LOCATION)?,
            monitored_call: timed_call(alloc, tree)?,
        })
    }
}

/// A visit of a vehicle at a stop (EN 15531-3, MonitoredStopVisit).
pub struct VisitTable;

impl Table for VisitTable {
    type Out = Visit;

    ghost rows = { visit };

    #[tactic(auto, unfolding(crate::specs::Visits::visit))]
    fn read_rows(alloc: Global, tree: &Tree<'_>) -> Result<Visit, TableError> {
        Ok(Visit {
            recorded_at_time: row::<MomentRule>(alloc, tree, names::RECORDED_AT_TIME)?,
            item_identifier: required_row::<NameRule>(alloc, tree, names::ITEM_IDENTIFIER)?,
            monitoring_ref: required_row::<NameRule>(alloc, tree, names::MONITORING_REF)?,
            monitored_vehicle_journey: required_row::<VisitJourneyTable>(
                alloc,
                tree,
                names::MONITORED_VEHICLE_JOURNEY,
            )?,
        })
    }
}
