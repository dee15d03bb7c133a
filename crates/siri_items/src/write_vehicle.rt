//! Writing vehicle activities.

ghost use Rattle.std.specs.Prelude.{◌≡◌, ◌++◌, Some, OnOk};
ghost use Rattle.siri_json.specs.Tokens.{tokens_of};
ghost use Rattle.siri_items.specs.Written.{written_vehicle_journey, written_vehicle};

use crate::names;
use crate::read_call::StopCallTable;
use crate::write_call::{location_row, optional_dated_row, optional_framed_row};
use siri_base::OutOfMemory;
use siri_json::Output;
use siri_records::{Vehicle, VehicleJourney};
use siri_tables::rules::{FlagRule, MomentRule, NameRule, SpanRule, TextRule};
use siri_tables::writing::{Written, optional, required};

/// Writes the MonitoredVehicleJourney of a vehicle activity, always with its VehicleRef.
#[tactic(auto, using(crate::proofs::InOrder::vehicle_journey_in_order))]
fn write_vehicle_journey(out: &mut Output, journey: &VehicleJourney) -> Result<(), OutOfMemory>
    ensures { OnOk result (out.new ≡ out.old ++ tokens_of (written_vehicle_journey journey.now)) }
{
    out.begin_object()?;
    optional_dated_row(
        out,
        &journey.data_frame_ref,
        &journey.dated_vehicle_journey_ref,
    )?;
    optional::<SpanRule>(out, names::DELAY, &journey.delay)?;
    optional::<TextRule>(out, names::DESTINATION_NAME, &journey.destination_name)?;
    optional::<NameRule>(out, names::DESTINATION_REF, &journey.destination_ref)?;
    optional::<NameRule>(out, names::DIRECTION_REF, &journey.direction_ref)?;
    optional_framed_row(
        out,
        &journey.data_frame_ref,
        &journey.dated_vehicle_journey_ref,
    )?;
    optional::<NameRule>(out, names::LINE_REF, &journey.line_ref)?;
    optional::<FlagRule>(out, names::MONITORED, &journey.monitored)?;
    optional::<StopCallTable>(out, names::MONITORED_CALL, &journey.monitored_call)?;
    optional::<TextRule>(out, names::OCCUPANCY, &journey.occupancy)?;
    optional::<NameRule>(out, names::OPERATOR_REF, &journey.operator_ref)?;
    optional::<TextRule>(
        out,
        names::PUBLISHED_LINE_NAME,
        &journey.published_line_name,
    )?;
    location_row(out, &journey.vehicle_location)?;
    required::<NameRule>(out, names::VEHICLE_REF, &journey.vehicle_ref)?;
    out.end_object()
}

/// The MonitoredVehicleJourney of a vehicle activity, in the activity's row.
struct VehicleJourneyWriting;

impl Written for VehicleJourneyWriting {
    type Of = VehicleJourney;

    ghost writing = { λ journey. Some (written_vehicle_journey journey) };

    fn write(out: &mut Output, journey: &VehicleJourney) -> Result<(), OutOfMemory> {
        write_vehicle_journey(out, journey)
    }
}

/// Writes a vehicle activity.
#[tactic(auto, using(crate::proofs::InOrder::vehicle_in_order))]
pub(crate) fn write_vehicle(out: &mut Output, vehicle: &Vehicle) -> Result<(), OutOfMemory>
    ensures { OnOk result (out.new ≡ out.old ++ tokens_of (written_vehicle vehicle.now)) }
{
    out.begin_object()?;
    optional::<NameRule>(out, names::ITEM_IDENTIFIER, &vehicle.item_identifier)?;
    required::<VehicleJourneyWriting>(
        out,
        names::MONITORED_VEHICLE_JOURNEY,
        &vehicle.monitored_vehicle_journey,
    )?;
    optional::<MomentRule>(out, names::RECORDED_AT_TIME, &vehicle.recorded_at_time)?;
    optional::<MomentRule>(out, names::VALID_UNTIL_TIME, &vehicle.valid_until_time)?;
    out.end_object()
}
