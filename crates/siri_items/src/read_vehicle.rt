//! Reading vehicle activities.

ghost use Rattle.siri_items.specs.Vehicles.{vehicle_journey, vehicle};

use crate::names;
use crate::read_call::{LocationRule, OptionalCallRule, journey_ref};
use crate::read_parts::{progress, service_info};
use siri_json::Tree;
use siri_records::{Vehicle, VehicleJourney};
use siri_tables::refusal::TableError;
use siri_tables::rows::{required_row, row};
use siri_tables::rules::{MomentRule, NameRule, Table};
use std::alloc::Global;

/// The MonitoredVehicleJourney of a vehicle activity: only its VehicleRef is required.
struct VehicleJourneyTable;

impl Table for VehicleJourneyTable {
    type Out = VehicleJourney;

    ghost rows = { vehicle_journey };

    #[tactic(auto, unfolding(crate::specs::Vehicles::vehicle_journey))]
    fn read_rows(alloc: Global, tree: &Tree<'_>) -> Result<VehicleJourney, TableError> {
        let line_ref = row::<NameRule>(alloc, tree, names::LINE_REF)?;
        let direction_ref = row::<NameRule>(alloc, tree, names::DIRECTION_REF)?;
        let journey_ref = journey_ref(alloc, tree)?;
        let service_info = service_info(alloc, tree)?;
        let vehicle_ref = required_row::<NameRule>(alloc, tree, names::VEHICLE_REF)?;
        let progress = progress(alloc, tree)?;
        Ok(VehicleJourney {
            line_ref,
            direction_ref,
            data_frame_ref: journey_ref.data_frame_ref,
            dated_vehicle_journey_ref: journey_ref.dated_vehicle_journey_ref,
            published_line_name: service_info.published_line_name,
            operator_ref: service_info.operator_ref,
            destination_ref: service_info.destination_ref,
            destination_name: service_info.destination_name,
            vehicle_ref,
            monitored: progress.monitored,
            occupancy: progress.occupancy,
            delay: progress.delay,
            vehicle_location: row::<LocationRule>(alloc, tree, names::VEHICLE_LOCATION)?,
            monitored_call: row::<OptionalCallRule>(alloc, tree, names::MONITORED_CALL)?,
        })
    }
}

/// What a vehicle does (EN 15531-3, VehicleActivity).
pub struct VehicleTable;

impl Table for VehicleTable {
    type Out = Vehicle;

    ghost rows = { vehicle };

    #[tactic(auto, unfolding(crate::specs::Vehicles::vehicle))]
    fn read_rows(alloc: Global, tree: &Tree<'_>) -> Result<Vehicle, TableError> {
        Ok(Vehicle {
            recorded_at_time: row::<MomentRule>(alloc, tree, names::RECORDED_AT_TIME)?,
            item_identifier: row::<NameRule>(alloc, tree, names::ITEM_IDENTIFIER)?,
            valid_until_time: row::<MomentRule>(alloc, tree, names::VALID_UNTIL_TIME)?,
            monitored_vehicle_journey: required_row::<VehicleJourneyTable>(
                alloc,
                tree,
                names::MONITORED_VEHICLE_JOURNEY,
            )?,
        })
    }
}
