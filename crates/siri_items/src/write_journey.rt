//! Writing journeys.

ghost use Rattle.std.specs.Prelude.{◌≡◌, ◌++◌, OnOk};
ghost use Rattle.siri_json.specs.Tokens.{tokens_of};
ghost use Rattle.siri_items.specs.Written.{written_timed_journey};

use crate::names;
use crate::write_call::{calls_row, dated_row, framed_row};
use siri_base::{Moment, OutOfMemory};
use siri_json::Output;
use siri_records::Journey;
use siri_tables::rules::{FlagRule, MomentRule, NameRule, SpanRule, TextRule};
use siri_tables::writing::{optional, required};

/// Writes a journey, with a RecordedAtTime where one is handed in: in a delivery its frame carries the journey's.
#[tactic(auto, using(crate::proofs::InOrder::journey_in_order))]
pub fn write_timed_journey(
    out: &mut Output,
    journey: &Journey,
    recorded_at_time: &Option<Moment>,
) -> Result<(), OutOfMemory>
    ensures { OnOk result (out.new ≡ out.old ++ tokens_of (written_timed_journey recorded_at_time.now journey.now)) }
{
    out.begin_object()?;
    optional::<FlagRule>(out, names::CANCELLATION, &journey.cancellation)?;
    dated_row(
        out,
        &journey.data_frame_ref,
        &journey.dated_vehicle_journey_ref,
    )?;
    optional::<SpanRule>(out, names::DELAY, &journey.delay)?;
    optional::<TextRule>(out, names::DESTINATION_NAME, &journey.destination_name)?;
    optional::<NameRule>(out, names::DESTINATION_REF, &journey.destination_ref)?;
    optional::<NameRule>(out, names::DIRECTION_REF, &journey.direction_ref)?;
    calls_row(
        out,
        names::ESTIMATED_CALLS,
        names::ESTIMATED_CALL,
        &journey.estimated_calls,
    )?;
    framed_row(
        out,
        &journey.data_frame_ref,
        &journey.dated_vehicle_journey_ref,
    )?;
    required::<NameRule>(out, names::LINE_REF, &journey.line_ref)?;
    optional::<FlagRule>(out, names::MONITORED, &journey.monitored)?;
    optional::<TextRule>(out, names::OCCUPANCY, &journey.occupancy)?;
    optional::<NameRule>(out, names::OPERATOR_REF, &journey.operator_ref)?;
    optional::<TextRule>(
        out,
        names::PUBLISHED_LINE_NAME,
        &journey.published_line_name,
    )?;
    optional::<MomentRule>(out, names::RECORDED_AT_TIME, recorded_at_time)?;
    calls_row(
        out,
        names::RECORDED_CALLS,
        names::RECORDED_CALL,
        &journey.recorded_calls,
    )?;
    optional::<NameRule>(out, names::VEHICLE_REF, &journey.vehicle_ref)?;
    out.end_object()
}
