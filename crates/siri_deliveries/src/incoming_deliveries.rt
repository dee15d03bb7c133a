//! The tables of deliveries, read as their tokens come.

ghost use Rattle.std.specs.Prelude.{◌≡◌, IfOk};
ghost use Rattle.siri_json.specs.Shown.{shown};
ghost use Rattle.siri_deliveries.specs.AsItComes.{Comes, ListComes, entries};
ghost use Rattle.siri_deliveries.specs.Deliveries.{visit_item, vehicle_item, situation_item};
ghost use Rattle.siri_deliveries.specs.Frames.{frame};
ghost use Rattle.siri_deliveries.specs.Incoming.{DeliveriesCome, no_deliveries, situations_in};
ghost use Rattle.siri_deliveries.specs.Limits.{most_entries};
ghost use Rattle.siri_items.specs.Journeys.{journey};

use crate::incoming::{Apart, Incoming, NotRead, by_tree, list_next, parts_next};
use crate::names;
use crate::read_deliveries::{
    EstimatedTimetableDeliveryTable, MOST_DELIVERIES, ServiceDeliveryTable,
    SituationExchangeDeliveryTable, SituationItemTable, StopMonitoringDeliveryTable,
    VehicleItemTable, VehicleMonitoringDeliveryTable, VisitItemTable,
};
use crate::read_frames::{FrameTable, concat_frames, journeys_of_frame};
use crate::read_parts::MOST_ENTRIES;
use json::{Reader, Token};
use siri_base::List;
use siri_items::JourneyTable;
use siri_items::names::RECORDED_AT_TIME;
use siri_json::Tree;
use siri_messages::{FunctionalDelivery, ServiceDelivery};
use siri_records::{Journey, SharedItem};
use siri_tables::rows::row;
use siri_tables::rules::{MomentRule, Table};
use std::alloc::Global;

/// The deliveries of the four services.
#[derive(Drop)]
pub(crate) struct Deliveries {
    pub stop_monitoring: List<FunctionalDelivery>,
    pub estimated_timetable: List<FunctionalDelivery>,
    pub vehicle_monitoring: List<FunctionalDelivery>,
    pub situation_exchange: List<FunctionalDelivery>,
}

/// The visits of a delivery.
struct Visits;

impl Apart for Visits {
    type Out = SharedItem;

    ghost read = { entries visit_item most_entries };

    fn next(
        alloc: Global,
        reader: &mut Reader<'_>,
        depth: usize,
    ) -> Result<List<SharedItem>, NotRead> {
        list_next::<VisitItemTable>(alloc, reader, depth, MOST_ENTRIES)
    }
}

/// The vehicle activities of a delivery.
struct VehicleActivities;

impl Apart for VehicleActivities {
    type Out = SharedItem;

    ghost read = { entries vehicle_item most_entries };

    fn next(
        alloc: Global,
        reader: &mut Reader<'_>,
        depth: usize,
    ) -> Result<List<SharedItem>, NotRead> {
        list_next::<VehicleItemTable>(alloc, reader, depth, MOST_ENTRIES)
    }
}

/// The journeys of a frame.
struct Journeys;

impl Apart for Journeys {
    type Out = Journey;

    ghost read = { entries journey most_entries };

    fn next(
        alloc: Global,
        reader: &mut Reader<'_>,
        depth: usize,
    ) -> Result<List<Journey>, NotRead> {
        list_next::<JourneyTable>(alloc, reader, depth, MOST_ENTRIES)
    }
}

/// The frames of a delivery, each as the items of its journeys.
struct Frames;

impl Apart for Frames {
    type Out = List<SharedItem>;

    ghost read = { entries frame most_entries };

    fn next(
        alloc: Global,
        reader: &mut Reader<'_>,
        depth: usize,
    ) -> Result<List<List<SharedItem>>, NotRead> {
        list_next::<FrameTable>(alloc, reader, depth, MOST_ENTRIES)
    }
}

/// The situations in the Situations of a delivery.
struct SituationElements;

impl Apart for SituationElements {
    type Out = SharedItem;

    ghost read = { entries situation_item most_entries };

    fn next(
        alloc: Global,
        reader: &mut Reader<'_>,
        depth: usize,
    ) -> Result<List<SharedItem>, NotRead> {
        list_next::<SituationItemTable>(alloc, reader, depth, MOST_ENTRIES)
    }
}

/// Situations, in which they stand; what else stands there isn't looked at.
struct Situations;

impl Apart for Situations {
    type Out = SharedItem;

    ghost read = { situations_in };

    fn next(
        alloc: Global,
        reader: &mut Reader<'_>,
        depth: usize,
    ) -> Result<List<SharedItem>, NotRead> {
        let (_, items) = parts_next::<SituationElements>(
            alloc,
            reader,
            depth,
            names::PT_SITUATION_ELEMENT,
        )?;
        Ok(items)
    }
}

impl Incoming for VisitItemTable {
    fn read_next(
        alloc: Global,
        reader: &mut Reader<'_>,
        depth: usize,
    ) -> Result<SharedItem, NotRead> {
        by_tree::<VisitItemTable>(alloc, reader, depth)
    }
}

impl Incoming for VehicleItemTable {
    fn read_next(
        alloc: Global,
        reader: &mut Reader<'_>,
        depth: usize,
    ) -> Result<SharedItem, NotRead> {
        by_tree::<VehicleItemTable>(alloc, reader, depth)
    }
}

impl Incoming for SituationItemTable {
    fn read_next(
        alloc: Global,
        reader: &mut Reader<'_>,
        depth: usize,
    ) -> Result<SharedItem, NotRead> {
        by_tree::<SituationItemTable>(alloc, reader, depth)
    }
}

impl Incoming for JourneyTable {
    fn read_next(alloc: Global, reader: &mut Reader<'_>, depth: usize) -> Result<Journey, NotRead> {
        by_tree::<JourneyTable>(alloc, reader, depth)
    }
}

impl Incoming for FrameTable {
    /// Its journeys one by one, all else by a tree.
    fn read_next(
        alloc: Global,
        reader: &mut Reader<'_>,
        depth: usize,
    ) -> Result<List<SharedItem>, NotRead> {
        let (others, journeys) = parts_next::<Journeys>(
            alloc,
            reader,
            depth,
            names::ESTIMATED_VEHICLE_JOURNEY,
        )?;
        let recorded_at_time = row::<MomentRule>(alloc, &others, RECORDED_AT_TIME)?;
        Ok(journeys_of_frame(alloc, &recorded_at_time, journeys)?)
    }
}

impl Incoming for StopMonitoringDeliveryTable {
    /// Its visits one by one, all else by a tree.
    fn read_next(
        alloc: Global,
        reader: &mut Reader<'_>,
        depth: usize,
    ) -> Result<FunctionalDelivery, NotRead> {
        let (others, items) = parts_next::<Visits>(
            alloc,
            reader,
            depth,
            names::MONITORED_STOP_VISIT,
        )?;
        let mut delivery = StopMonitoringDeliveryTable::read_rows(alloc, &others)?;
        delivery.items = items;
        Ok(delivery)
    }
}

impl Incoming for EstimatedTimetableDeliveryTable {
    /// Its frames one by one, and their journeys, all else by a tree.
    fn read_next(
        alloc: Global,
        reader: &mut Reader<'_>,
        depth: usize,
    ) -> Result<FunctionalDelivery, NotRead> {
        let (others, frames) = parts_next::<Frames>(
            alloc,
            reader,
            depth,
            names::ESTIMATED_JOURNEY_VERSION_FRAME,
        )?;
        let mut delivery = EstimatedTimetableDeliveryTable::read_rows(alloc, &others)?;
        let items = concat_frames(alloc, frames)?;
        if items.len() > MOST_ENTRIES {
            return Err(NotRead::Otherwise);
        }
        delivery.items = items;
        Ok(delivery)
    }
}

impl Incoming for VehicleMonitoringDeliveryTable {
    /// Its vehicle activities one by one, all else by a tree.
    fn read_next(
        alloc: Global,
        reader: &mut Reader<'_>,
        depth: usize,
    ) -> Result<FunctionalDelivery, NotRead> {
        let (others, items) = parts_next::<VehicleActivities>(
            alloc,
            reader,
            depth,
            names::VEHICLE_ACTIVITY,
        )?;
        let mut delivery = VehicleMonitoringDeliveryTable::read_rows(alloc, &others)?;
        delivery.items = items;
        Ok(delivery)
    }
}

impl Incoming for SituationExchangeDeliveryTable {
    /// Its situations one by one, all else by a tree.
    fn read_next(
        alloc: Global,
        reader: &mut Reader<'_>,
        depth: usize,
    ) -> Result<FunctionalDelivery, NotRead> {
        let (others, items) = parts_next::<Situations>(alloc, reader, depth, names::SITUATIONS)?;
        let mut delivery = SituationExchangeDeliveryTable::read_rows(alloc, &others)?;
        delivery.items = items;
        Ok(delivery)
    }
}

impl Deliveries {
    /// None of any service.
    fn none(alloc: Global) -> Deliveries
        ensures { result ≡ no_deliveries }
    {
        Deliveries {
            stop_monitoring: List::new(alloc),
            estimated_timetable: List::new(alloc),
            vehicle_monitoring: List::new(alloc),
            situation_exchange: List::new(alloc),
        }
    }
}

/// The deliveries of one service, at most 100, of the list that stands next.
fn few_next<T: Incoming>(
    alloc: Global,
    reader: &mut Reader<'_>,
    depth: usize,
) -> Result<List<T::Out>, NotRead>
    ensures { IfOk result (λ list. ListComes (entries T.rows 100) depth reader.old reader.new list) }
{
    list_next::<T>(alloc, reader, depth, MOST_DELIVERIES)
}

/// The object that stands next in two parts: a tree of its members but the deliveries, and the deliveries, each of the
/// last member of its name.
fn deliveries_next<'a>(
    alloc: Global,
    reader: &mut Reader<'a>,
    depth: usize,
) -> Result<(Tree<'a>, Deliveries), NotRead>
    ensures { IfOk result (λ parts. DeliveriesCome depth reader.old reader.new (shown parts.0) parts.1) }
{
    if depth == 0 {
        return Err(NotRead::Otherwise);
    }
    let Some(Token::BeginObject) = reader.next() else {
        return Err(NotRead::Otherwise);
    };
    let depth = depth - 1;
    let mut others = Vec::new(alloc);
    let mut found = Deliveries::none(alloc);
    while let Some(name) = reader.next_key()? {
        if name == names::STOP_MONITORING_DELIVERY {
            found.stop_monitoring = few_next::<StopMonitoringDeliveryTable>(alloc, reader, depth)?;
        } else if name == names::ESTIMATED_TIMETABLE_DELIVERY {
            found.estimated_timetable = few_next::<EstimatedTimetableDeliveryTable>(
                alloc, reader, depth,
            )?;
        } else if name == names::VEHICLE_MONITORING_DELIVERY {
            found.vehicle_monitoring = few_next::<VehicleMonitoringDeliveryTable>(
                alloc, reader, depth,
            )?;
        } else if name == names::SITUATION_EXCHANGE_DELIVERY {
            found.situation_exchange = few_next::<SituationExchangeDeliveryTable>(
                alloc, reader, depth,
            )?;
        } else {
            others.push((name, Tree::read(alloc, reader, depth)?))?;
        }
    }
    Ok((Tree::Object(others), found))
}

impl Incoming for ServiceDeliveryTable {
    /// Its deliveries one by one, all else by a tree.
    fn read_next(
        alloc: Global,
        reader: &mut Reader<'_>,
        depth: usize,
    ) -> Result<ServiceDelivery, NotRead> {
        let (others, deliveries) = deliveries_next(alloc, reader, depth)?;
        let mut delivery = ServiceDeliveryTable::read_rows(alloc, &others)?;
        let Deliveries {
            stop_monitoring,
            estimated_timetable,
            vehicle_monitoring,
            situation_exchange,
        } = deliveries;
        delivery.stop_monitoring_delivery = stop_monitoring;
        delivery.estimated_timetable_delivery = estimated_timetable;
        delivery.vehicle_monitoring_delivery = vehicle_monitoring;
        delivery.situation_exchange_delivery = situation_exchange;
        Ok(delivery)
    }
}
