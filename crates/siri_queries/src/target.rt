//! The target of a request.

ghost use Rattle.std.specs.Prelude.{◌≡◌, ◌++◌, None, Some, IfOk, OnOk, IsErrOf, option_map, option_and_then, string_bytes, flat_map};
ghost use Rattle.siri_tables.specs.Tables.{all_written};
ghost use Rattle.siri_tables.specs.Writing.{written_text, written_span, written_moment, written_number};
ghost use Rattle.siri_deliveries.specs.Topics.{stop_topic_table, line_direction_table, vehicle_topic_table, situation_topic_table};
ghost use Rattle.siri_queries.specs.Targets.{only, query_topic, unless_several_lines, rows_of, timetable_rows, topic_target, target_of, form_of, with_pair, with_pairs};

use crate::errors::QueryError;
use crate::paths::path_of;
use form_urlencoded::Serializer;
use itoa::Buffer;
use siri_base::{Moment, Name, OutOfMemory, Span, Text, TextError};
use siri_deliveries::names;
use siri_items::names as item_names;
use siri_messages::ServiceRequest;
use siri_time::{write_moment, write_span, written_moment_is_ascii, written_span_is_ascii};
use siri_topic::{LineDirection, SituationTopic, StopTopic, TimetableTopic, Topic, VehicleTopic};
use std::alloc::{AllocError, Global};

/// The pairs of a query as they grow.
type Form = Serializer<Global>;

/// Appends the pair of a name, where there is one.
fn name_pair(form: &mut Form, name: &str, value: &Option<Name>) -> Result<(), AllocError>
    ensures form { OnOk result (form.new.form ≡ with_pair form.old.form (name.now, option_and_then written_text value.now)) }
    ensures prefix { form.new.prefix ≡ form.old.prefix }
{
    match value {
        Some(value) => form.append_pair(name, value.text()),
        None => Ok(()),
    }
}

/// Appends the pair of a span, where there is one.
fn span_pair(form: &mut Form, name: &str, value: Option<Span>) -> Result<(), AllocError>
    ensures form { OnOk result (form.new.form ≡ with_pair form.old.form (name.now, option_and_then written_span value)) }
    ensures prefix { form.new.prefix ≡ form.old.prefix }
{
    let Some(span) = value else {
        return Ok(());
    };
    let mut buffer = [0u8; 32];
    let length = write_span(span, &mut buffer);
    written_span_is_ascii(span);
    match std::str::from_utf8(&buffer[..length]) {
        Ok(text) => form.append_pair(name, text),
        Err(_) => unreachable!(),
    }
}

/// Appends the pair of a moment, where there is one.
fn moment_pair(form: &mut Form, name: &str, value: Option<Moment>) -> Result<(), AllocError>
    ensures form { OnOk result (form.new.form ≡ with_pair form.old.form (name.now, option_and_then written_moment value)) }
    ensures prefix { form.new.prefix ≡ form.old.prefix }
{
    let Some(moment) = value else {
        return Ok(());
    };
    let mut buffer = [0u8; 24];
    let length = write_moment(moment, &mut buffer);
    written_moment_is_ascii(moment);
    match std::str::from_utf8(&buffer[..length]) {
        Ok(text) => form.append_pair(name, text),
        Err(_) => unreachable!(),
    }
}

/// Appends the pair of a number, where there is one.
fn number_pair(form: &mut Form, name: &str, value: Option<u64>) -> Result<(), AllocError>
    ensures form { OnOk result (form.new.form ≡ with_pair form.old.form (name.now, option_and_then written_number value)) }
    ensures prefix { form.new.prefix ≡ form.old.prefix }
{
    match value {
        Some(number) => form.append_pair(name, Buffer::new().format(number)),
        None => Ok(()),
    }
}

/// Appends the pairs of a stop's topic.
fn stop_pairs(form: &mut Form, topic: &StopTopic) -> Result<(), AllocError>
    ensures form { OnOk result (form.new.form ≡ with_pairs form.old.form (all_written stop_topic_table topic.now)) }
    ensures prefix { form.new.prefix ≡ form.old.prefix }
{
    form.append_pair(item_names::MONITORING_REF, topic.monitoring_ref.text())?;
    name_pair(form, item_names::LINE_REF, &topic.line_ref)?;
    name_pair(form, item_names::DIRECTION_REF, &topic.direction_ref)?;
    name_pair(form, item_names::OPERATOR_REF, &topic.operator_ref)?;
    name_pair(form, item_names::DESTINATION_REF, &topic.destination_ref)?;
    span_pair(form, names::PREVIEW_INTERVAL, topic.preview_interval)?;
    moment_pair(form, item_names::START_TIME, topic.start_time)?;
    number_pair(form, names::MAXIMUM_STOP_VISITS, topic.maximum_stop_visits)
}

/// Appends the pairs of a line and its direction.
fn line_pairs(form: &mut Form, line: &LineDirection) -> Result<(), AllocError>
    ensures form { OnOk result (form.new.form ≡ with_pairs form.old.form (all_written line_direction_table line.now)) }
    ensures prefix { form.new.prefix ≡ form.old.prefix }
{
    form.append_pair(item_names::LINE_REF, line.line_ref.text())?;
    name_pair(form, item_names::DIRECTION_REF, &line.direction_ref)
}

/// Appends the pairs of lines and their directions.
fn lines_pairs(form: &mut Form, lines: &[LineDirection]) -> Result<(), AllocError>
    ensures form { OnOk result (form.new.form ≡ with_pairs form.old.form (flat_map (all_written line_direction_table) lines.now)) }
    ensures prefix { form.new.prefix ≡ form.old.prefix }
{
    for line in lines {
        line_pairs(form, line)?;
    }
    Ok(())
}

/// Appends the pairs of a timetable's topic, those of its lines behind its own.
fn timetable_pairs(form: &mut Form, topic: &TimetableTopic) -> Result<(), AllocError>
    ensures form { OnOk result (form.new.form ≡ with_pairs form.old.form (timetable_rows topic.now)) }
    ensures prefix { form.new.prefix ≡ form.old.prefix }
{
    span_pair(form, names::PREVIEW_INTERVAL, topic.preview_interval)?;
    name_pair(form, item_names::OPERATOR_REF, &topic.operator_ref)?;
    lines_pairs(form, topic.lines.slice())
}

/// Appends the pairs of a topic on vehicles.
fn vehicle_pairs(form: &mut Form, topic: &VehicleTopic) -> Result<(), AllocError>
    ensures form { OnOk result (form.new.form ≡ with_pairs form.old.form (all_written vehicle_topic_table topic.now)) }
    ensures prefix { form.new.prefix ≡ form.old.prefix }
{
    name_pair(form, item_names::VEHICLE_REF, &topic.vehicle_ref)?;
    name_pair(form, item_names::LINE_REF, &topic.line_ref)?;
    name_pair(form, item_names::DIRECTION_REF, &topic.direction_ref)
}

/// Appends the pairs of a topic on situations.
fn situation_pairs(form: &mut Form, topic: &SituationTopic) -> Result<(), AllocError>
    ensures form { OnOk result (form.new.form ≡ with_pairs form.old.form (all_written situation_topic_table topic.now)) }
    ensures prefix { form.new.prefix ≡ form.old.prefix }
{
    name_pair(form, item_names::LINE_REF, &topic.line_ref)?;
    name_pair(form, item_names::STOP_POINT_REF, &topic.stop_point_ref)?;
    name_pair(form, item_names::OPERATOR_REF, &topic.operator_ref)?;
    span_pair(form, names::PREVIEW_INTERVAL, topic.preview_interval)?;
    moment_pair(form, item_names::START_TIME, topic.start_time)
}

/// Appends the pairs of a topic.
fn topic_pairs(form: &mut Form, topic: &Topic) -> Result<(), AllocError>
    ensures form { OnOk result (form.new.form ≡ with_pairs form.old.form (rows_of topic.now)) }
    ensures prefix { form.new.prefix ≡ form.old.prefix }
{
    match topic {
        Topic::Stop(topic) => stop_pairs(form, topic),
        Topic::Timetable(topic) => timetable_pairs(form, topic),
        Topic::Vehicle(topic) => vehicle_pairs(form, topic),
        Topic::Situation(topic) => situation_pairs(form, topic),
    }
}

/// The pairs of a topic, as a form writes them.
#[tactic(auto, using(crate::proofs::Forms::rows_pairs))]
fn form_of(alloc: Global, topic: &Topic) -> Result<String, AllocError>
    ensures { IfOk result (λ form. string_bytes form ≡ form_of topic.now) }
{
    let mut form = Serializer::new(String::new(alloc));
    topic_pairs(&mut form, topic)?;
    Ok(form.finish())
}

/// The target of a topic, however long.
fn topic_target(alloc: Global, topic: &Topic) -> Result<String, AllocError>
    ensures { IfOk result (λ target. string_bytes target ≡ topic_target topic.now) }
{
    let form = form_of(alloc, topic)?;
    let mut target = String::from_str(alloc, path_of(topic.service()))?;
    if !form.is_empty() {
        target.push('?')?;
        target.push_str(&form)?;
    }
    Ok(target)
}

/// The topic, unless it has several lines.
fn unless_several_lines(topic: &Topic) -> Option<&Topic>
    ensures { option_map (λ topic. topic.now) result ≡ unless_several_lines topic.now }
{
    match topic {
        Topic::Timetable(timetable) if timetable.lines.len() > 1 => None,
        _ => Some(topic),
    }
}

/// The one topic of four lists: `None` exactly where they have none or several.
#[tactic(auto, using(crate::proofs::Topics::only_found, crate::proofs::Topics::not_only))]
fn only<'a>(
    stops: &'a [Topic],
    timetables: &'a [Topic],
    vehicles: &'a [Topic],
    situations: &'a [Topic],
) -> Option<&'a Topic>
    ensures { option_map (λ topic. topic.now) result
        ≡ only (stops.now ++ (timetables.now ++ (vehicles.now ++ situations.now))) }
{
    let count = stops
        .len()
        .saturating_add(timetables.len())
        .saturating_add(vehicles.len())
        .saturating_add(situations.len());
    if count != 1 {
        return None;
    }
    stops
        .first()
        .or(timetables.first())
        .or(vehicles.first())
        .or(situations.first())
}

/// The one topic of a request that one query can ask: `None` exactly where it has none or several, or that has several
/// lines.
fn query_topic(request: &ServiceRequest) -> Option<&Topic>
    ensures { option_map (λ topic. topic.now) result ≡ query_topic request.now }
{
    let topic = only(
        request.stop_monitoring_request.slice(),
        request.estimated_timetable_request.slice(),
        request.vehicle_monitoring_request.slice(),
        request.situation_exchange_request.slice(),
    )?;
    unless_several_lines(topic)
}

/// The target of a request for one topic: the path of the topic's service and behind `?` a pair for each row that is
/// there, in order of the service's table (EN 15531-3, CEN/TS 15531-5), LineRef and DirectionRef in place of Lines;
/// without a pair it is the path alone. RequestTimestamp, RequestorRef and MessageIdentifier are left out. A topic that
/// stands in another service's list is asked of its own. `NotQuery` where the request has no topic or several, or one
/// of several lines, whatever the memory, and where the target would have more than 16,384 bytes; only there. Never
/// `NoPath`.
pub fn write_query(alloc: Global, request: &ServiceRequest) -> Result<Text, QueryError>
    ensures target { IfOk result (λ target. target_of request.now ≡ Some target) }
    ensures not_query { IsErrOf result QueryError.NotQuery → target_of request.now ≡ None }
    ensures not_one { query_topic request.now ≡ None → IsErrOf result QueryError.NotQuery }
    ensures other { IsErrOf result QueryError.NoPath → ⊥ }
{
    let Some(topic) = query_topic(request) else {
        return Err(QueryError::NotQuery);
    };
    let target = topic_target(alloc, topic)?;
    match Text::new(alloc, &target) {
        Ok(target) => Ok(target),
        Err(TextError::Empty | TextError::TooLong) => Err(QueryError::NotQuery),
        Err(TextError::OutOfMemory) => Err(QueryError::OutOfMemory),
    }
}
