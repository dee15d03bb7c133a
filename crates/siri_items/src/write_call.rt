//! Writing calls at stops, locations and how a journey is named.

ghost use Rattle.std.specs.Prelude.{◌≡◌, ◌++◌, Option, OnOk, option_and_then};
ghost use Rattle.siri_json.specs.Tokens.{tokens_of};
ghost use Rattle.siri_tables.specs.Appended.{row_tokens};
ghost use Rattle.siri_tables.specs.Writing.{row_object, written_text};
ghost use Rattle.siri_tables.proofs.Sorted.{any_written};
ghost use Rattle.siri_items.specs.declared.names.TheConstants.{FRAMED_VEHICLE_JOURNEY_REF, DATED_VEHICLE_JOURNEY_REF, VEHICLE_LOCATION};
ghost use Rattle.siri_items.specs.Written.{written_call, call_writing, rows_of_location, written_location, written_framed_ref, written_dated, written_calls};

use crate::names;
use crate::read_call::StopCallTable;
use siri_base::{List, Name, OutOfMemory};
use siri_json::Output;
use siri_records::{StopCall, VehicleLocation};
use siri_tables::rules::{DecimalRule, FlagRule, MomentRule, NameRule, NumberRule, TextRule};
use siri_tables::writing::{Written, list_inside, optional, required};

/// Writes the object of a call, `{}` where none of its rows is there.
#[tactic(auto, using(crate::proofs::InOrder::call_in_order))]
fn write_call(out: &mut Output, call: &StopCall) -> Result<(), OutOfMemory>
    ensures { OnOk result (out.new ≡ out.old ++ tokens_of (written_call call.now)) }
{
    out.begin_object()?;
    optional::<MomentRule>(out, names::ACTUAL_ARRIVAL_TIME, &call.actual_arrival_time)?;
    optional::<MomentRule>(
        out,
        names::ACTUAL_DEPARTURE_TIME,
        &call.actual_departure_time,
    )?;
    optional::<MomentRule>(out, names::AIMED_ARRIVAL_TIME, &call.aimed_arrival_time)?;
    optional::<MomentRule>(out, names::AIMED_DEPARTURE_TIME, &call.aimed_departure_time)?;
    optional::<TextRule>(
        out,
        names::ARRIVAL_PLATFORM_NAME,
        &call.arrival_platform_name,
    )?;
    optional::<TextRule>(out, names::ARRIVAL_STATUS, &call.arrival_status)?;
    optional::<TextRule>(
        out,
        names::DEPARTURE_PLATFORM_NAME,
        &call.departure_platform_name,
    )?;
    optional::<TextRule>(out, names::DEPARTURE_STATUS, &call.departure_status)?;
    optional::<MomentRule>(
        out,
        names::EXPECTED_ARRIVAL_TIME,
        &call.expected_arrival_time,
    )?;
    optional::<MomentRule>(
        out,
        names::EXPECTED_DEPARTURE_TIME,
        &call.expected_departure_time,
    )?;
    optional::<NumberRule>(out, names::ORDER, &call.order)?;
    optional::<TextRule>(out, names::STOP_POINT_NAME, &call.stop_point_name)?;
    optional::<NameRule>(out, names::STOP_POINT_REF, &call.stop_point_ref)?;
    optional::<FlagRule>(out, names::VEHICLE_AT_STOP, &call.vehicle_at_stop)?;
    out.end_object()
}

impl Written for StopCallTable {
    type Of = StopCall;

    ghost writing = { call_writing };

    fn write(out: &mut Output, call: &StopCall) -> Result<(), OutOfMemory> {
        write_call(out, call)
    }
}

/// Whether there is a Longitude or a Latitude: a location with neither isn't written.
fn has_rows(location: &VehicleLocation) -> bool
    ensures { result ≡ any_written (rows_of_location location.now) }
{
    location.longitude.is_some() || location.latitude.is_some()
}

/// Writes the object of a location: Latitude and Longitude in degrees, as strings, each where it is there.
#[tactic(auto, using(crate::proofs::InOrder::location_in_order))]
fn write_location(out: &mut Output, location: &VehicleLocation) -> Result<(), OutOfMemory>
    ensures { OnOk result (out.new ≡ out.old ++ tokens_of (row_object (rows_of_location location.now))) }
{
    out.begin_object()?;
    optional::<DecimalRule>(out, names::LATITUDE, &location.latitude)?;
    optional::<DecimalRule>(out, names::LONGITUDE, &location.longitude)?;
    out.end_object()
}

/// Writes the row of a location, which is left out where it has no rows.
#[tactic(auto, using(crate::proofs::InOrder::location_left_out, crate::proofs::InOrder::location_written))]
pub(crate) fn location_row(
    out: &mut Output,
    location: &Option<VehicleLocation>,
) -> Result<(), OutOfMemory>
    ensures { OnOk result (out.new ≡ out.old ++ row_tokens VEHICLE_LOCATION.now (option_and_then written_location location.now)) }
{
    let Some(location) = location else {
        return Ok(());
    };
    if !has_rows(location) {
        return Ok(());
    }
    out.key(names::VEHICLE_LOCATION)?;
    write_location(out, location)
}

/// Writes the row of how a journey is named where there is a data frame.
#[tactic(auto, using(crate::proofs::InOrder::framed_in_order), unfolding(crate::specs::Written::written_framed_ref))]
pub(crate) fn framed_row(
    out: &mut Output,
    frame: &Option<Name>,
    dated: &Name,
) -> Result<(), OutOfMemory>
    ensures { OnOk result (out.new ≡ out.old ++ row_tokens FRAMED_VEHICLE_JOURNEY_REF.now (written_framed_ref frame.now (written_text dated.now))) }
{
    let Some(frame) = frame else {
        return Ok(());
    };
    out.key(names::FRAMED_VEHICLE_JOURNEY_REF)?;
    out.begin_object()?;
    required::<NameRule>(out, names::DATA_FRAME_REF, frame)?;
    required::<NameRule>(out, names::DATED_VEHICLE_JOURNEY_REF, dated)?;
    out.end_object()
}

/// Writes the row of how a journey is named where there is no data frame.
#[tactic(auto, unfolding(crate::specs::Written::written_dated))]
pub(crate) fn dated_row(
    out: &mut Output,
    frame: &Option<Name>,
    dated: &Name,
) -> Result<(), OutOfMemory>
    ensures { OnOk result (out.new ≡ out.old ++ row_tokens DATED_VEHICLE_JOURNEY_REF.now (written_dated frame.now (written_text dated.now))) }
{
    match frame {
        Some(_) => Ok(()),
        None => required::<NameRule>(out, names::DATED_VEHICLE_JOURNEY_REF, dated),
    }
}

/// As [`framed_row`], of a journey that may have no name of its own.
#[tactic(auto, using(crate::proofs::InOrder::framed_in_order), unfolding(crate::specs::Written::written_framed_ref))]
pub(crate) fn optional_framed_row(
    out: &mut Output,
    frame: &Option<Name>,
    dated: &Option<Name>,
) -> Result<(), OutOfMemory>
    ensures { OnOk result (out.new ≡ out.old
        ++ row_tokens FRAMED_VEHICLE_JOURNEY_REF.now (written_framed_ref frame.now (option_and_then written_text dated.now))) }
{
    let Some(frame) = frame else {
        return Ok(());
    };
    out.key(names::FRAMED_VEHICLE_JOURNEY_REF)?;
    out.begin_object()?;
    required::<NameRule>(out, names::DATA_FRAME_REF, frame)?;
    optional::<NameRule>(out, names::DATED_VEHICLE_JOURNEY_REF, dated)?;
    out.end_object()
}

/// As [`dated_row`], of a journey that may have no name of its own.
#[tactic(auto, unfolding(crate::specs::Written::written_dated))]
pub(crate) fn optional_dated_row(
    out: &mut Output,
    frame: &Option<Name>,
    dated: &Option<Name>,
) -> Result<(), OutOfMemory>
    ensures { OnOk result (out.new ≡ out.old
        ++ row_tokens DATED_VEHICLE_JOURNEY_REF.now (written_dated frame.now (option_and_then written_text dated.now))) }
{
    match frame {
        Some(_) => Ok(()),
        None => optional::<NameRule>(out, names::DATED_VEHICLE_JOURNEY_REF, dated),
    }
}

/// Writes the row of calls inside an object of their own, which is left out where there are none.
#[tactic(auto, unfolding(crate::specs::Written::written_calls))]
pub(crate) fn calls_row(
    out: &mut Output,
    outer: &str,
    name: &str,
    calls: &List<StopCall>,
) -> Result<(), OutOfMemory>
    ensures { OnOk result (out.new ≡ out.old ++ row_tokens outer.now (written_calls name.now calls.now)) }
{
    list_inside::<StopCallTable>(out, outer, name, calls)
}
