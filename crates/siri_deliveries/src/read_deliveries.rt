//! Reading deliveries of items.

ghost use Rattle.siri_deliveries.specs.Deliveries.{visit_item, vehicle_item, situation_item, stop_monitoring_delivery, estimated_timetable_delivery, vehicle_monitoring_delivery, situation_exchange_delivery, service_delivery};

use crate::names;
use crate::read_error::error_condition;
use crate::read_frames::journeys_of_frames;
use crate::read_parts::{
    JourneyExtensionsTable, MOST_ENTRIES, RoundPosition, RoundPositionTable,
    SituationExtensionsTable, extensions_or_empty, read_heading,
};
use crate::read_removals::{VehicleCancellationTable, VisitCancellationTable};
use siri_items::{SituationTable, VehicleTable, VisitTable};
use siri_json::Tree;
use siri_messages::{FunctionalDelivery, ServiceDelivery};
use siri_records::{Item, SharedItem};
use siri_tables::TableError;
use siri_tables::rows::{list, list_inside, row};
use siri_tables::rules::{FlagRule, MomentRule, NameRule, Table};
use std::alloc::Global;

/// The most deliveries of each service in a ServiceDelivery; with more their list is `TooMany`.
pub(crate) const MOST_DELIVERIES: usize = 100;

/// A MonitoredStopVisit as an item.
pub(crate) struct VisitItemTable;

impl Table for VisitItemTable {
    type Out = SharedItem;

    ghost rows = { visit_item };

    #[tactic(auto, unfolding(crate::specs::Deliveries::visit_item))]
    fn read_rows(alloc: Global, tree: &Tree<'_>) -> Result<SharedItem, TableError> {
        let visit = VisitTable::read_rows(alloc, tree)?;
        Ok(SharedItem::new(alloc, Item::Visit(visit))?)
    }
}

/// A VehicleActivity as an item.
pub(crate) struct VehicleItemTable;

impl Table for VehicleItemTable {
    type Out = SharedItem;

    ghost rows = { vehicle_item };

    #[tactic(auto, unfolding(crate::specs::Deliveries::vehicle_item))]
    fn read_rows(alloc: Global, tree: &Tree<'_>) -> Result<SharedItem, TableError> {
        let vehicle = VehicleTable::read_rows(alloc, tree)?;
        Ok(SharedItem::new(alloc, Item::Vehicle(vehicle))?)
    }
}

/// A PtSituationElement as an item.
pub(crate) struct SituationItemTable;

impl Table for SituationItemTable {
    type Out = SharedItem;

    ghost rows = { situation_item };

    #[tactic(auto, unfolding(crate::specs::Deliveries::situation_item))]
    fn read_rows(alloc: Global, tree: &Tree<'_>) -> Result<SharedItem, TableError> {
        let situation = SituationTable::read_rows(alloc, tree)?;
        Ok(SharedItem::new(alloc, Item::Situation(situation))?)
    }
}

/// Visits, and visits that are no more (EN 15531-3, StopMonitoringDelivery), at most 20,000 of each.
pub(crate) struct StopMonitoringDeliveryTable;

impl Table for StopMonitoringDeliveryTable {
    type Out = FunctionalDelivery;

    ghost rows = { stop_monitoring_delivery };

    #[tactic(auto, unfolding(crate::specs::Deliveries::stop_monitoring_delivery))]
    fn read_rows(alloc: Global, tree: &Tree<'_>) -> Result<FunctionalDelivery, TableError> {
        let heading = read_heading(alloc, tree)?;
        let extensions = row::<RoundPositionTable>(alloc, tree, names::EXTENSIONS)?;
        let items = list::<VisitItemTable>(alloc, tree, names::MONITORED_STOP_VISIT, MOST_ENTRIES)?;
        let removals = list::<VisitCancellationTable>(
            alloc,
            tree,
            names::MONITORED_STOP_VISIT_CANCELLATION,
            MOST_ENTRIES,
        )?;
        let round_position = extensions.unwrap_or(RoundPosition::no_round());
        Ok(heading.delivery(round_position, items, removals))
    }
}

/// Journeys in frames, and journeys that are shown no more (EN 15531-3, EstimatedTimetableDelivery), at most 20,000 of
/// each.
pub(crate) struct EstimatedTimetableDeliveryTable;

impl Table for EstimatedTimetableDeliveryTable {
    type Out = FunctionalDelivery;

    ghost rows = { estimated_timetable_delivery };

    #[tactic(auto, unfolding(crate::specs::Deliveries::estimated_timetable_delivery))]
    fn read_rows(alloc: Global, tree: &Tree<'_>) -> Result<FunctionalDelivery, TableError> {
        let heading = read_heading(alloc, tree)?;
        let extensions = row::<JourneyExtensionsTable>(alloc, tree, names::EXTENSIONS)?;
        let items = journeys_of_frames(alloc, tree)?;
        let delivery_extensions = extensions_or_empty(alloc, extensions);
        Ok(heading.delivery(
            delivery_extensions.round_position,
            items,
            delivery_extensions.removals,
        ))
    }
}

/// Vehicle activities, and those that are no more (EN 15531-3, VehicleMonitoringDelivery), at most 20,000 of each.
pub(crate) struct VehicleMonitoringDeliveryTable;

impl Table for VehicleMonitoringDeliveryTable {
    type Out = FunctionalDelivery;

    ghost rows = { vehicle_monitoring_delivery };

    #[tactic(auto, unfolding(crate::specs::Deliveries::vehicle_monitoring_delivery))]
    fn read_rows(alloc: Global, tree: &Tree<'_>) -> Result<FunctionalDelivery, TableError> {
        let heading = read_heading(alloc, tree)?;
        let extensions = row::<RoundPositionTable>(alloc, tree, names::EXTENSIONS)?;
        let items = list::<VehicleItemTable>(alloc, tree, names::VEHICLE_ACTIVITY, MOST_ENTRIES)?;
        let removals = list::<VehicleCancellationTable>(
            alloc,
            tree,
            names::VEHICLE_ACTIVITY_CANCELLATION,
            MOST_ENTRIES,
        )?;
        let round_position = extensions.unwrap_or(RoundPosition::no_round());
        Ok(heading.delivery(round_position, items, removals))
    }
}

/// Situations, and situations that are shown no more (CEN/TS 15531-5, SituationExchangeDelivery), at most 20,000 of
/// each.
pub(crate) struct SituationExchangeDeliveryTable;

impl Table for SituationExchangeDeliveryTable {
    type Out = FunctionalDelivery;

    ghost rows = { situation_exchange_delivery };

    #[tactic(auto, unfolding(crate::specs::Deliveries::situation_exchange_delivery))]
    fn read_rows(alloc: Global, tree: &Tree<'_>) -> Result<FunctionalDelivery, TableError> {
        let heading = read_heading(alloc, tree)?;
        let extensions = row::<SituationExtensionsTable>(alloc, tree, names::EXTENSIONS)?;
        let items = list_inside::<SituationItemTable>(
            alloc,
            tree,
            names::SITUATIONS,
            names::PT_SITUATION_ELEMENT,
            MOST_ENTRIES,
        )?;
        let delivery_extensions = extensions_or_empty(alloc, extensions);
        Ok(heading.delivery(
            delivery_extensions.round_position,
            items,
            delivery_extensions.removals,
        ))
    }
}

/// What is delivered of the four services (EN 15531-2, ServiceDelivery), at most 100 deliveries of each. Status is true
/// and MoreData false where they are absent.
pub struct ServiceDeliveryTable;

impl Table for ServiceDeliveryTable {
    type Out = ServiceDelivery;

    ghost rows = { service_delivery };

    #[tactic(auto, unfolding(crate::specs::Deliveries::service_delivery))]
    fn read_rows(alloc: Global, tree: &Tree<'_>) -> Result<ServiceDelivery, TableError> {
        Ok(ServiceDelivery {
            response_timestamp: row::<MomentRule>(alloc, tree, names::RESPONSE_TIMESTAMP)?,
            producer_ref: row::<NameRule>(alloc, tree, names::PRODUCER_REF)?,
            response_message_identifier: row::<NameRule>(
                alloc,
                tree,
                names::RESPONSE_MESSAGE_IDENTIFIER,
            )?,
            request_message_ref: row::<NameRule>(alloc, tree, names::REQUEST_MESSAGE_REF)?,
            status: row::<FlagRule>(alloc, tree, names::STATUS)?.unwrap_or(true),
            error_condition: error_condition(alloc, tree)?,
            more_data: row::<FlagRule>(alloc, tree, names::MORE_DATA)?.unwrap_or(false),
            stop_monitoring_delivery: list::<StopMonitoringDeliveryTable>(
                alloc,
                tree,
                names::STOP_MONITORING_DELIVERY,
                MOST_DELIVERIES,
            )?,
            estimated_timetable_delivery: list::<EstimatedTimetableDeliveryTable>(
                alloc,
                tree,
                names::ESTIMATED_TIMETABLE_DELIVERY,
                MOST_DELIVERIES,
            )?,
            vehicle_monitoring_delivery: list::<VehicleMonitoringDeliveryTable>(
                alloc,
                tree,
                names::VEHICLE_MONITORING_DELIVERY,
                MOST_DELIVERIES,
            )?,
            situation_exchange_delivery: list::<SituationExchangeDeliveryTable>(
                alloc,
                tree,
                names::SITUATION_EXCHANGE_DELIVERY,
                MOST_DELIVERIES,
            )?,
        })
    }
}
