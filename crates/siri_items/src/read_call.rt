//! Reading calls at stops, where a vehicle is, and how a journey is named.

ghost use Rattle.std.specs.Prelude.{◌≡◌, Option};
ghost use Rattle.siri_json.specs.Shown.{shown};
ghost use Rattle.siri_tables.specs.Refusals.{Gives};
ghost use Rattle.siri_tables.specs.Rules.{table_unless_blank};
ghost use Rattle.siri_items.specs.Calls.{arrival, departure, stop_call, call_is_blank, framed_ref, read_framed_ref_rows, framed_ref_of, plain_journey_ref, journey_ref, required_journey_ref, location, location_is_blank, optional_location, optional_call};

use crate::names;
use siri_base::{Moment, Name, Reason, Text};
use siri_json::{ObjectOf, Tree, object_of};
use siri_records::{StopCall, VehicleLocation};
use siri_tables::refusal::{TableError, refuse, refuse_at};
use siri_tables::rows::{required_row, row};
use siri_tables::rules::{
    DecimalRule, FlagRule, MomentRule, NameRule, NumberRule, Rule, Table, TextRule,
};
use std::alloc::Global;

/// A call at a stop (EN 15531-3, MonitoredCall; EN 15531-3, RecordedCall and EstimatedCall). No row is required: `{}`
/// is a call. Its names are refused as `BadName`, its times as `BadTime` or `NoOffset`, Order as `BadNumber`,
/// VehicleAtStop as `WrongKind`, each at its member; statuses, platforms and the stop's name are texts of at most
/// 16,384 bytes.
pub struct StopCallTable;

impl Table for StopCallTable {
    type Out = StopCall;

    ghost rows = { stop_call };

    #[tactic(auto, unfolding(crate::specs::Calls::stop_call))]
    fn read_rows(alloc: Global, tree: &Tree<'_>) -> Result<StopCall, TableError> {
        let stop_point_ref = row::<NameRule>(alloc, tree, names::STOP_POINT_REF)?;
        let order = row::<NumberRule>(alloc, tree, names::ORDER)?;
        let stop_point_name = row::<TextRule>(alloc, tree, names::STOP_POINT_NAME)?;
        let vehicle_at_stop = row::<FlagRule>(alloc, tree, names::VEHICLE_AT_STOP)?;
        let arrival = arrival(alloc, tree)?;
        let departure = departure(alloc, tree)?;
        Ok(StopCall {
            stop_point_ref,
            order,
            stop_point_name,
            vehicle_at_stop,
            aimed_arrival_time: arrival.aimed,
            expected_arrival_time: arrival.expected,
            actual_arrival_time: arrival.actual,
            arrival_status: arrival.status,
            arrival_platform_name: arrival.platform_name,
            aimed_departure_time: departure.aimed,
            expected_departure_time: departure.expected,
            actual_departure_time: departure.actual,
            departure_status: departure.status,
            departure_platform_name: departure.platform_name,
        })
    }
}

/// When a vehicle arrives at a stop or departs from it, and what is shown of that (EN 15531-3, the groups of a call's
/// arrival and departure).
#[derive(Drop)]
pub(crate) struct CallTimes {
    pub aimed: Option<Moment>,
    pub expected: Option<Moment>,
    pub actual: Option<Moment>,
    pub status: Option<Text>,
    pub platform_name: Option<Text>,
}

/// The times, the status and the platform of a call's arrival, each absent or refused at its own member.
#[tactic(auto, unfolding(crate::specs::Calls::arrival))]
fn arrival(alloc: Global, tree: &Tree<'_>) -> Result<CallTimes, TableError>
    ensures { Gives result (arrival (shown tree.now)) }
{
    Ok(CallTimes {
        aimed: row::<MomentRule>(alloc, tree, names::AIMED_ARRIVAL_TIME)?,
        expected: row::<MomentRule>(alloc, tree, names::EXPECTED_ARRIVAL_TIME)?,
        actual: row::<MomentRule>(alloc, tree, names::ACTUAL_ARRIVAL_TIME)?,
        status: row::<TextRule>(alloc, tree, names::ARRIVAL_STATUS)?,
        platform_name: row::<TextRule>(alloc, tree, names::ARRIVAL_PLATFORM_NAME)?,
    })
}

/// The times, the status and the platform of a call's departure, each absent or refused at its own member.
#[tactic(auto, unfolding(crate::specs::Calls::departure))]
fn departure(alloc: Global, tree: &Tree<'_>) -> Result<CallTimes, TableError>
    ensures { Gives result (departure (shown tree.now)) }
{
    Ok(CallTimes {
        aimed: row::<MomentRule>(alloc, tree, names::AIMED_DEPARTURE_TIME)?,
        expected: row::<MomentRule>(alloc, tree, names::EXPECTED_DEPARTURE_TIME)?,
        actual: row::<MomentRule>(alloc, tree, names::ACTUAL_DEPARTURE_TIME)?,
        status: row::<TextRule>(alloc, tree, names::DEPARTURE_STATUS)?,
        platform_name: row::<TextRule>(alloc, tree, names::DEPARTURE_PLATFORM_NAME)?,
    })
}

/// A call that isn't required: it counts as absent where all its rows are.
pub struct OptionalCallRule;

impl Rule for OptionalCallRule {
    type Out = StopCall;

    ghost rule = { optional_call };

    #[tactic(auto, unfolding(siri_tables::specs::Rules::table_unless_blank))]
    fn read(alloc: Global, value: &Tree<'_>) -> Result<Option<StopCall>, TableError> {
        match StopCallTable::read(alloc, value)? {
            Some(call) if call_is_blank(&call) => Ok(None),
            other => Ok(other),
        }
    }
}

/// Whether none of a call's 14 rows is there: such a MonitoredCall of a vehicle counts as absent.
#[tactic(auto, unfolding(crate::specs::Calls::call_is_blank))]
fn call_is_blank(call: &StopCall) -> bool
    ensures { result ≡ call_is_blank call.now }
{
    call.stop_point_ref.is_none()
        && call.order.is_none()
        && call.stop_point_name.is_none()
        && call.vehicle_at_stop.is_none()
        && call.aimed_arrival_time.is_none()
        && call.expected_arrival_time.is_none()
        && call.actual_arrival_time.is_none()
        && call.arrival_status.is_none()
        && call.arrival_platform_name.is_none()
        && call.aimed_departure_time.is_none()
        && call.expected_departure_time.is_none()
        && call.actual_departure_time.is_none()
        && call.departure_status.is_none()
        && call.departure_platform_name.is_none()
}

/// Where a vehicle is (EN 15531-3, VehicleLocation): Longitude and Latitude, each in 10^-7 degrees and at most 180
/// degrees, otherwise `BadDecimal` at it. It counts as absent where both rows are.
pub struct LocationRule;

/// The rows of a VehicleLocation, Longitude and Latitude in 10^-7 degrees; both may be absent.
struct LocationTable;

impl Table for LocationTable {
    type Out = VehicleLocation;

    ghost rows = { location };

    #[tactic(auto, unfolding(crate::specs::Calls::location))]
    fn read_rows(alloc: Global, tree: &Tree<'_>) -> Result<VehicleLocation, TableError> {
        Ok(VehicleLocation {
            longitude: row::<DecimalRule>(alloc, tree, names::LONGITUDE)?,
            latitude: row::<DecimalRule>(alloc, tree, names::LATITUDE)?,
        })
    }
}

impl Rule for LocationRule {
    type Out = VehicleLocation;

    ghost rule = { optional_location };

    #[tactic(auto, unfolding(siri_tables::specs::Rules::table_unless_blank, crate::specs::Calls::location_is_blank))]
    fn read(alloc: Global, value: &Tree<'_>) -> Result<Option<VehicleLocation>, TableError> {
        match LocationTable::read(alloc, value)? {
            Some(
                VehicleLocation {
                    longitude: None,
                    latitude: None,
                },
            ) => Ok(None),
            other => Ok(other),
        }
    }
}

/// How a journey is named: with its data frame, by itself, or not at all.
#[derive(Drop)]
pub(crate) struct JourneyRef {
    pub data_frame_ref: Option<Name>,
    pub dated_vehicle_journey_ref: Option<Name>,
}

/// How a journey is named that has to be named: with its data frame, or by itself.
#[derive(Drop)]
pub(crate) struct RequiredJourneyRef {
    pub data_frame_ref: Option<Name>,
    pub dated_vehicle_journey_ref: Name,
}

/// A FramedVehicleJourneyRef: it counts as absent where DataFrameRef and DatedVehicleJourneyRef both are.
struct FramedVehicleJourneyRefRule;

/// No name where both parts are absent; `Missing` at DatedVehicleJourneyRef where only the frame is there.
#[tactic(auto, unfolding(crate::specs::Calls::framed_ref_of))]
fn framed_ref_of(
    alloc: Global,
    frame: Option<Name>,
    dated: Option<Name>,
) -> Result<Option<RequiredJourneyRef>, TableError>
    ensures { Gives result (framed_ref_of frame dated) }
{
    match (frame, dated) {
        (None, None) => Ok(None),
        (Some(_), None) => refuse_at(alloc, names::DATED_VEHICLE_JOURNEY_REF, Reason::Missing),
        (data_frame_ref, Some(dated_vehicle_journey_ref)) => Ok(Some(RequiredJourneyRef {
            data_frame_ref,
            dated_vehicle_journey_ref,
        })),
    }
}

/// DataFrameRef and DatedVehicleJourneyRef of a FramedVehicleJourneyRef, each refused at its member.
#[tactic(auto, unfolding(crate::specs::Calls::read_framed_ref_rows))]
fn read_framed_ref_rows(
    alloc: Global,
    tree: &Tree<'_>,
) -> Result<Option<RequiredJourneyRef>, TableError>
    ensures { Gives result (read_framed_ref_rows (shown tree.now)) }
{
    let frame = row::<NameRule>(alloc, tree, names::DATA_FRAME_REF)?;
    let dated = row::<NameRule>(alloc, tree, names::DATED_VEHICLE_JOURNEY_REF)?;
    framed_ref_of(alloc, frame, dated)
}

impl Rule for FramedVehicleJourneyRefRule {
    type Out = RequiredJourneyRef;

    ghost rule = { framed_ref };

    #[tactic(auto, unfolding(crate::specs::Calls::framed_ref))]
    fn read(alloc: Global, value: &Tree<'_>) -> Result<Option<RequiredJourneyRef>, TableError> {
        match object_of(value) {
            ObjectOf::Is(tree) => read_framed_ref_rows(alloc, tree),
            ObjectOf::Absent => Ok(None),
            ObjectOf::Wrong => refuse(alloc, Reason::WrongKind),
        }
    }
}

/// How the object names its journey: by FramedVehicleJourneyRef where a row of it is there, otherwise by
/// DatedVehicleJourneyRef, where that is. `Missing` at the frame's DatedVehicleJourneyRef where only DataFrameRef is
/// there.
#[tactic(auto, unfolding(crate::specs::Calls::journey_ref, crate::specs::Calls::plain_journey_ref))]
pub(crate) fn journey_ref(alloc: Global, tree: &Tree<'_>) -> Result<JourneyRef, TableError>
    ensures { Gives result (journey_ref (shown tree.now)) }
{
    match row::<FramedVehicleJourneyRefRule>(alloc, tree, names::FRAMED_VEHICLE_JOURNEY_REF)? {
        Some(framed_ref) => Ok(JourneyRef {
            data_frame_ref: framed_ref.data_frame_ref,
            dated_vehicle_journey_ref: Some(framed_ref.dated_vehicle_journey_ref),
        }),
        None => Ok(JourneyRef {
            data_frame_ref: None,
            dated_vehicle_journey_ref: row::<NameRule>(
                alloc,
                tree,
                names::DATED_VEHICLE_JOURNEY_REF,
            )?,
        }),
    }
}

/// How the object names its journey, which it has to: otherwise `Missing` at DatedVehicleJourneyRef.
#[tactic(auto, unfolding(crate::specs::Calls::required_journey_ref, crate::specs::Calls::plain_required_journey_ref))]
pub(crate) fn required_journey_ref(
    alloc: Global,
    tree: &Tree<'_>,
) -> Result<RequiredJourneyRef, TableError>
    ensures { Gives result (required_journey_ref (shown tree.now)) }
{
    match row::<FramedVehicleJourneyRefRule>(alloc, tree, names::FRAMED_VEHICLE_JOURNEY_REF)? {
        Some(framed_ref) => Ok(framed_ref),
        None => Ok(RequiredJourneyRef {
            data_frame_ref: None,
            dated_vehicle_journey_ref: required_row::<NameRule>(
                alloc,
                tree,
                names::DATED_VEHICLE_JOURNEY_REF,
            )?,
        }),
    }
}
