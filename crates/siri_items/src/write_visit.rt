//! Writing visits.

ghost use Rattle.std.specs.Prelude.{◌≡◌, ◌++◌, Some, OnOk};
ghost use Rattle.siri_json.specs.Tokens.{tokens_of};
ghost use Rattle.siri_items.specs.Written.{written_visit_journey, written_visit};

use crate::names;
use crate::read_call::StopCallTable;
use crate::write_call::{location_row, optional_dated_row, optional_framed_row};
use siri_base::OutOfMemory;
use siri_json::Output;
use siri_records::{Visit, VisitJourney};
use siri_tables::rules::{FlagRule, MomentRule, NameRule, SpanRule, TextRule};
use siri_tables::writing::{Written, optional, required};

/// Writes the MonitoredVehicleJourney of a visit, always with its MonitoredCall.
#[tactic(auto, using(crate::proofs::InOrder::visit_journey_in_order))]
fn write_visit_journey(out: &mut Output, journey: &VisitJourney) -> Result<(), OutOfMemory>
    ensures { OnOk result (out.new ≡ out.old ++ tokens_of (written_visit_journey journey.now)) }
{
    out.begin_object()?;
    optional_dated_row(
        out,
        &journey.data_frame_ref,
        &journey.dated_vehicle_journey_ref,
    )?;
    optional::<SpanRule>(out, names::DELAY, &journey.delay)?;
    optional::<TextRule>(out, names::DESTINATION_NAME, &journey.destination_name)?;
    optional::<NameRule>(out, names::DESTINATION_REF, &journey.destination_ref)?;
    optional::<NameRule>(out, names::DIRECTION_REF, &journey.direction_ref)?;
    optional_framed_row(
        out,
        &journey.data_frame_ref,
        &journey.dated_vehicle_journey_ref,
    )?;
    optional::<NameRule>(out, names::LINE_REF, &journey.line_ref)?;
    optional::<FlagRule>(out, names::MONITORED, &journey.monitored)?;
    required::<StopCallTable>(out, names::MONITORED_CALL, &journey.monitored_call)?;
    optional::<TextRule>(out, names::OCCUPANCY, &journey.occupancy)?;
    optional::<NameRule>(out, names::OPERATOR_REF, &journey.operator_ref)?;
    optional::<TextRule>(
        out,
        names::PUBLISHED_LINE_NAME,
        &journey.published_line_name,
    )?;
    location_row(out, &journey.vehicle_location)?;
    optional::<NameRule>(out, names::VEHICLE_REF, &journey.vehicle_ref)?;
    out.end_object()
}

/// The MonitoredVehicleJourney of a visit, in the visit's row.
struct VisitJourneyWriting;

impl Written for VisitJourneyWriting {
    type Of = VisitJourney;

    ghost writing = { λ journey. Some (written_visit_journey journey) };

    fn write(out: &mut Output, journey: &VisitJourney) -> Result<(), OutOfMemory> {
        write_visit_journey(out, journey)
    }
}

/// Writes a visit.
#[tactic(auto, using(crate::proofs::InOrder::visit_in_order))]
pub(crate) fn write_visit(out: &mut Output, visit: &Visit) -> Result<(), OutOfMemory>
    ensures { OnOk result (out.new ≡ out.old ++ tokens_of (written_visit visit.now)) }
{
    out.begin_object()?;
    required::<NameRule>(out, names::ITEM_IDENTIFIER, &visit.item_identifier)?;
    required::<VisitJourneyWriting>(
        out,
        names::MONITORED_VEHICLE_JOURNEY,
        &visit.monitored_vehicle_journey,
    )?;
    required::<NameRule>(out, names::MONITORING_REF, &visit.monitoring_ref)?;
    optional::<MomentRule>(out, names::RECORDED_AT_TIME, &visit.recorded_at_time)?;
    out.end_object()
}
