//! Reading topics.

ghost use Rattle.siri_json.specs.Shown.{shown};
ghost use Rattle.siri_tables.specs.Refusals.{Gives};
ghost use Rattle.siri_deliveries.specs.Topics.{read_stop_topic_rows, stop_topic, line_direction, timetable_topic, vehicle_topic, situation_topic};

use crate::names;
use siri_items::names as item_names;
use siri_json::Tree;
use siri_tables::TableError;
use siri_tables::rows::{list_inside, required_row, row};
use siri_tables::rules::{MomentRule, NameRule, NonNegativeSpanRule, NumberRule, Table};
use siri_topic::{LineDirection, SituationTopic, StopTopic, TimetableTopic, Topic, VehicleTopic};
use std::alloc::Global;

/// The most entries of LineDirection in the Lines of a timetable topic; with more it is `TooMany`.
const MOST_LINES: usize = 100;

/// The rows of a StopMonitoringRequest, with MaximumStopVisits; only MonitoringRef is required.
#[tactic(auto, unfolding(crate::specs::Topics::read_stop_topic_rows))]
fn read_stop_topic_rows(alloc: Global, tree: &Tree<'_>) -> Result<StopTopic, TableError>
    ensures { Gives result (read_stop_topic_rows (shown tree.now)) }
{
    Ok(StopTopic {
        monitoring_ref: required_row::<NameRule>(alloc, tree, item_names::MONITORING_REF)?,
        line_ref: row::<NameRule>(alloc, tree, item_names::LINE_REF)?,
        direction_ref: row::<NameRule>(alloc, tree, item_names::DIRECTION_REF)?,
        operator_ref: row::<NameRule>(alloc, tree, item_names::OPERATOR_REF)?,
        destination_ref: row::<NameRule>(alloc, tree, item_names::DESTINATION_REF)?,
        preview_interval: row::<NonNegativeSpanRule>(alloc, tree, names::PREVIEW_INTERVAL)?,
        start_time: row::<MomentRule>(alloc, tree, item_names::START_TIME)?,
        maximum_stop_visits: row::<NumberRule>(alloc, tree, names::MAXIMUM_STOP_VISITS)?,
    })
}

/// The visits at a monitoring point (EN 15531-3, StopMonitoringRequest).
pub struct StopTopicTable;

impl Table for StopTopicTable {
    type Out = Topic;

    ghost rows = { stop_topic };

    #[tactic(auto, unfolding(crate::specs::Topics::stop_topic))]
    fn read_rows(alloc: Global, tree: &Tree<'_>) -> Result<Topic, TableError> {
        Ok(Topic::Stop(read_stop_topic_rows(alloc, tree)?))
    }
}

/// A line, and a direction of it (EN 15531-3, LineDirection).
struct LineDirectionTable;

impl Table for LineDirectionTable {
    type Out = LineDirection;

    ghost rows = { line_direction };

    #[tactic(auto, unfolding(crate::specs::Topics::line_direction))]
    fn read_rows(alloc: Global, tree: &Tree<'_>) -> Result<LineDirection, TableError> {
        Ok(LineDirection {
            line_ref: required_row::<NameRule>(alloc, tree, item_names::LINE_REF)?,
            direction_ref: row::<NameRule>(alloc, tree, item_names::DIRECTION_REF)?,
        })
    }
}

/// The journeys of an operator, on some lines, of which there are at most 100 (EN 15531-3, EstimatedTimetableRequest).
pub struct TimetableTopicTable;

impl Table for TimetableTopicTable {
    type Out = Topic;

    ghost rows = { timetable_topic };

    #[tactic(auto, unfolding(crate::specs::Topics::timetable_topic))]
    fn read_rows(alloc: Global, tree: &Tree<'_>) -> Result<Topic, TableError> {
        Ok(Topic::Timetable(TimetableTopic {
            preview_interval: row::<NonNegativeSpanRule>(alloc, tree, names::PREVIEW_INTERVAL)?,
            operator_ref: row::<NameRule>(alloc, tree, item_names::OPERATOR_REF)?,
            lines: list_inside::<LineDirectionTable>(
                alloc,
                tree,
                names::LINES,
                names::LINE_DIRECTION,
                MOST_LINES,
            )?,
        }))
    }
}

/// The vehicles of a line and a direction (EN 15531-3, VehicleMonitoringRequest).
pub struct VehicleTopicTable;

impl Table for VehicleTopicTable {
    type Out = Topic;

    ghost rows = { vehicle_topic };

    #[tactic(auto, unfolding(crate::specs::Topics::vehicle_topic))]
    fn read_rows(alloc: Global, tree: &Tree<'_>) -> Result<Topic, TableError> {
        Ok(Topic::Vehicle(VehicleTopic {
            vehicle_ref: row::<NameRule>(alloc, tree, item_names::VEHICLE_REF)?,
            line_ref: row::<NameRule>(alloc, tree, item_names::LINE_REF)?,
            direction_ref: row::<NameRule>(alloc, tree, item_names::DIRECTION_REF)?,
        }))
    }
}

/// The situations that affect a line, a stop and an operator (CEN/TS 15531-5, SituationExchangeRequest).
pub struct SituationTopicTable;

impl Table for SituationTopicTable {
    type Out = Topic;

    ghost rows = { situation_topic };

    #[tactic(auto, unfolding(crate::specs::Topics::situation_topic))]
    fn read_rows(alloc: Global, tree: &Tree<'_>) -> Result<Topic, TableError> {
        Ok(Topic::Situation(SituationTopic {
            line_ref: row::<NameRule>(alloc, tree, item_names::LINE_REF)?,
            stop_point_ref: row::<NameRule>(alloc, tree, item_names::STOP_POINT_REF)?,
            operator_ref: row::<NameRule>(alloc, tree, item_names::OPERATOR_REF)?,
            preview_interval: row::<NonNegativeSpanRule>(alloc, tree, names::PREVIEW_INTERVAL)?,
            start_time: row::<MomentRule>(alloc, tree, item_names::START_TIME)?,
        }))
    }
}
