//! Reading cancellations, and removed journeys and situations.

ghost use Rattle.siri_deliveries.specs.Removals.{visit_cancellation, vehicle_cancellation, removed_journey, removed_situation};

use crate::names;
use siri_items::names as item_names;
use siri_json::Tree;
use siri_records::Key;
use siri_tables::TableError;
use siri_tables::rows::{required_row, row};
use siri_tables::rules::{NameRule, Table};
use std::alloc::Global;

/// The key of a visit that is no more (EN 15531-3, MonitoredStopVisitCancellation).
pub(crate) struct VisitCancellationTable;

impl Table for VisitCancellationTable {
    type Out = Key;

    ghost rows = { visit_cancellation };

    #[tactic(auto, unfolding(crate::specs::Removals::visit_cancellation))]
    fn read_rows(alloc: Global, tree: &Tree<'_>) -> Result<Key, TableError> {
        Ok(Key::Visit {
            item: required_row::<NameRule>(alloc, tree, names::ITEM_REF)?,
            monitoring: required_row::<NameRule>(alloc, tree, item_names::MONITORING_REF)?,
        })
    }
}

/// The key of a vehicle whose activity is no more (EN 15531-3, VehicleActivityCancellation).
pub(crate) struct VehicleCancellationTable;

impl Table for VehicleCancellationTable {
    type Out = Key;

    ghost rows = { vehicle_cancellation };

    #[tactic(auto, unfolding(crate::specs::Removals::vehicle_cancellation))]
    fn read_rows(alloc: Global, tree: &Tree<'_>) -> Result<Key, TableError> {
        Ok(Key::Vehicle {
            vehicle: required_row::<NameRule>(alloc, tree, names::ITEM_REF)?,
        })
    }
}

/// The key of a journey that is shown no more (this profile's own, among the Extensions of a timetable's delivery).
pub(crate) struct RemovedJourneyTable;

impl Table for RemovedJourneyTable {
    type Out = Key;

    ghost rows = { removed_journey };

    #[tactic(auto, unfolding(crate::specs::Removals::removed_journey))]
    fn read_rows(alloc: Global, tree: &Tree<'_>) -> Result<Key, TableError> {
        Ok(Key::Journey {
            line: required_row::<NameRule>(alloc, tree, item_names::LINE_REF)?,
            direction: row::<NameRule>(alloc, tree, item_names::DIRECTION_REF)?,
            frame: row::<NameRule>(alloc, tree, item_names::DATA_FRAME_REF)?,
            journey: required_row::<NameRule>(alloc, tree, item_names::DATED_VEHICLE_JOURNEY_REF)?,
        })
    }
}

/// The key of a situation that is shown no more (this profile's own, among the Extensions of a delivery of situations).
pub(crate) struct RemovedSituationTable;

impl Table for RemovedSituationTable {
    type Out = Key;

    ghost rows = { removed_situation };

    #[tactic(auto, unfolding(crate::specs::Removals::removed_situation))]
    fn read_rows(alloc: Global, tree: &Tree<'_>) -> Result<Key, TableError> {
        Ok(Key::Situation {
            participant: row::<NameRule>(alloc, tree, item_names::PARTICIPANT_REF)?,
            number: required_row::<NameRule>(alloc, tree, item_names::SITUATION_NUMBER)?,
        })
    }
}
