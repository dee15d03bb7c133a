//! Writing topics.

ghost use Rattle.std.specs.Prelude.{◌≡◌, ◌++◌, OnOk};
ghost use Rattle.siri_json.specs.Tokens.{tokens_of};
ghost use Rattle.siri_tables.specs.Appended.{row_tokens};
ghost use Rattle.siri_deliveries.specs.declared.names.TheConstants.{LINES};
ghost use Rattle.siri_deliveries.specs.Topics.{written_stop_topic, written_line_direction, written_lines, written_timetable_topic, written_vehicle_topic, written_situation_topic, written_topic, topic_writing};

use crate::names;
use siri_base::{List, OutOfMemory};
use siri_items::names as item_names;
use siri_json::Output;
use siri_tables::rules::{MomentRule, NameRule, NumberRule, SpanRule};
use siri_tables::writing::{Written, list_inside, optional, required};
use siri_topic::{LineDirection, SituationTopic, StopTopic, TimetableTopic, Topic, VehicleTopic};

/// Writes the topic of a StopMonitoringRequest, of which only MonitoringRef is always there.
#[tactic(auto, using(crate::proofs::InOrder::stop_topic_in_order))]
fn write_stop_topic(out: &mut Output, topic: &StopTopic) -> Result<(), OutOfMemory>
    ensures { OnOk result (out.new ≡ out.old ++ tokens_of (written_stop_topic topic.now)) }
{
    out.begin_object()?;
    optional::<NameRule>(out, item_names::DESTINATION_REF, &topic.destination_ref)?;
    optional::<NameRule>(out, item_names::DIRECTION_REF, &topic.direction_ref)?;
    optional::<NameRule>(out, item_names::LINE_REF, &topic.line_ref)?;
    optional::<NumberRule>(out, names::MAXIMUM_STOP_VISITS, &topic.maximum_stop_visits)?;
    required::<NameRule>(out, item_names::MONITORING_REF, &topic.monitoring_ref)?;
    optional::<NameRule>(out, item_names::OPERATOR_REF, &topic.operator_ref)?;
    optional::<SpanRule>(out, names::PREVIEW_INTERVAL, &topic.preview_interval)?;
    optional::<MomentRule>(out, item_names::START_TIME, &topic.start_time)?;
    out.end_object()
}

/// A LineDirection: LineRef, and DirectionRef where only one direction is asked for.
struct LineDirectionWriting;

impl Written for LineDirectionWriting {
    type Of = LineDirection;

    ghost writing = { written_line_direction };

    #[tactic(auto, using(crate::proofs::InOrder::line_direction_in_order), unfolding(crate::specs::Topics::written_line_direction))]
    fn write(out: &mut Output, line: &LineDirection) -> Result<(), OutOfMemory> {
        out.begin_object()?;
        optional::<NameRule>(out, item_names::DIRECTION_REF, &line.direction_ref)?;
        required::<NameRule>(out, item_names::LINE_REF, &line.line_ref)?;
        out.end_object()
    }
}

/// Writes the row Lines, each as a LineDirection; it is left out where every line is asked for.
#[tactic(auto, unfolding(crate::specs::Topics::written_lines))]
fn lines_row(out: &mut Output, lines: &List<LineDirection>) -> Result<(), OutOfMemory>
    ensures { OnOk result (out.new ≡ out.old ++ row_tokens LINES.now (written_lines lines.now)) }
{
    list_inside::<LineDirectionWriting>(out, names::LINES, names::LINE_DIRECTION, lines)
}

/// Writes the topic of an EstimatedTimetableRequest, `{}` where it asks for every journey.
#[tactic(auto, using(crate::proofs::InOrder::timetable_topic_in_order))]
fn write_timetable_topic(out: &mut Output, topic: &TimetableTopic) -> Result<(), OutOfMemory>
    ensures { OnOk result (out.new ≡ out.old ++ tokens_of (written_timetable_topic topic.now)) }
{
    out.begin_object()?;
    lines_row(out, &topic.lines)?;
    optional::<NameRule>(out, item_names::OPERATOR_REF, &topic.operator_ref)?;
    optional::<SpanRule>(out, names::PREVIEW_INTERVAL, &topic.preview_interval)?;
    out.end_object()
}

/// Writes the topic of a VehicleMonitoringRequest, `{}` where it asks for every vehicle.
#[tactic(auto, using(crate::proofs::InOrder::vehicle_topic_in_order))]
fn write_vehicle_topic(out: &mut Output, topic: &VehicleTopic) -> Result<(), OutOfMemory>
    ensures { OnOk result (out.new ≡ out.old ++ tokens_of (written_vehicle_topic topic.now)) }
{
    out.begin_object()?;
    optional::<NameRule>(out, item_names::DIRECTION_REF, &topic.direction_ref)?;
    optional::<NameRule>(out, item_names::LINE_REF, &topic.line_ref)?;
    optional::<NameRule>(out, item_names::VEHICLE_REF, &topic.vehicle_ref)?;
    out.end_object()
}

/// Writes the topic of a SituationExchangeRequest, each of its rows where it is there.
#[tactic(auto, using(crate::proofs::InOrder::situation_topic_in_order))]
fn write_situation_topic(out: &mut Output, topic: &SituationTopic) -> Result<(), OutOfMemory>
    ensures { OnOk result (out.new ≡ out.old ++ tokens_of (written_situation_topic topic.now)) }
{
    out.begin_object()?;
    optional::<NameRule>(out, item_names::LINE_REF, &topic.line_ref)?;
    optional::<NameRule>(out, item_names::OPERATOR_REF, &topic.operator_ref)?;
    optional::<SpanRule>(out, names::PREVIEW_INTERVAL, &topic.preview_interval)?;
    optional::<MomentRule>(out, item_names::START_TIME, &topic.start_time)?;
    optional::<NameRule>(out, item_names::STOP_POINT_REF, &topic.stop_point_ref)?;
    out.end_object()
}

/// Writes the rows of a topic's own service, in whatever service's list it stands.
#[tactic(auto, unfolding(crate::specs::Topics::written_topic))]
fn write_topic(out: &mut Output, topic: &Topic) -> Result<(), OutOfMemory>
    ensures { OnOk result (out.new ≡ out.old ++ tokens_of (written_topic topic.now)) }
{
    match topic {
        Topic::Stop(topic) => write_stop_topic(out, topic),
        Topic::Timetable(topic) => write_timetable_topic(out, topic),
        Topic::Vehicle(topic) => write_vehicle_topic(out, topic),
        Topic::Situation(topic) => write_situation_topic(out, topic),
    }
}

/// A topic, by the table of its service.
pub struct TopicWriting;

impl Written for TopicWriting {
    type Of = Topic;

    ghost writing = { topic_writing };

    fn write(out: &mut Output, topic: &Topic) -> Result<(), OutOfMemory> {
        write_topic(out, topic)
    }
}
