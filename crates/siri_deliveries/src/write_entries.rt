//! Writing the entries of functional deliveries: items, the frames of journeys, and removals.

ghost use Rattle.std.specs.Prelude.{◌≡◌, [], ◌∷◌, ◌++◌, Option, OnOk};
ghost use Rattle.siri_json.specs.Tokens.{tokens_of};
ghost use Rattle.siri_tables.specs.Appended.{Appends, row_tokens};
ghost use Rattle.siri_tables.specs.Writing.{row_object, array_unless_empty};
ghost use Rattle.siri_items.specs.Written.{written_item};
ghost use Rattle.siri_deliveries.specs.declared.names.TheConstants.{ESTIMATED_VEHICLE_JOURNEY};
ghost use Rattle.siri_deliveries.specs.Deliveries.{item_writing};
ghost use Rattle.siri_deliveries.specs.Frames.{frame_time, written_frame};
ghost use Rattle.siri_deliveries.specs.Removals.{rows_of_removal, written_removal};

use crate::names;
use siri_base::{Moment, Name, OutOfMemory};
use siri_items::{names as item_names, write_item};
use siri_json::Output;
use siri_records::{Item, Key, SharedItem};
use siri_tables::rules::{MomentRule, NameRule};
use siri_tables::writing::{Written, optional, required};

/// An item in a list of items, by the table of its service.
pub(crate) struct ItemWriting;

impl Written for ItemWriting {
    type Of = SharedItem;

    ghost writing = { item_writing };

    fn write(out: &mut Output, item: &SharedItem) -> Result<(), OutOfMemory> {
        write_item(out, item.item())
    }
}

/// The RecordedAtTime that the frame of a journey carries; an item of another service has none.
fn frame_time(item: &Item) -> Option<Moment>
    ensures { result ≡ frame_time item.now }
{
    match item {
        Item::Journey(journey) => journey.recorded_at_time,
        _ => None,
    }
}

/// Writes the row EstimatedVehicleJourney of a frame: a list of one journey, without its RecordedAtTime.
#[tactic(auto, using(crate::proofs::InOrder::journey_row_is))]
fn journey_row(out: &mut Output, item: &Item) -> Result<(), OutOfMemory>
    ensures { OnOk result (out.new ≡ out.old ++ row_tokens ESTIMATED_VEHICLE_JOURNEY.now (array_unless_empty (written_item item.now ∷ []))) }
{
    out.key(names::ESTIMATED_VEHICLE_JOURNEY)?;
    out.begin_list()?;
    write_item(out, item)?;
    out.end_list()
}

/// Writes a journey in an EstimatedJourneyVersionFrame of its own, which carries the journey's RecordedAtTime.
#[tactic(auto, using(crate::proofs::InOrder::frame_in_order), unfolding(crate::specs::Frames::written_frame))]
pub(crate) fn write_journey_frame(out: &mut Output, item: &Item) -> Result<(), OutOfMemory>
    ensures { OnOk result (Appends (written_frame item.now) out.old out.new) }
{
    out.begin_object()?;
    journey_row(out, item)?;
    optional::<MomentRule>(out, item_names::RECORDED_AT_TIME, &frame_time(item))?;
    out.end_object()
}

/// A journey in such a frame.
pub(crate) struct FrameWriting;

impl Written for FrameWriting {
    type Of = SharedItem;

    ghost writing = { written_frame };

    fn write(out: &mut Output, item: &SharedItem) -> Result<(), OutOfMemory> {
        write_journey_frame(out, item.item())
    }
}

/// Writes the object of a visit that was removed: ItemRef and MonitoringRef.
#[tactic(auto, using(crate::proofs::InOrder::removed_visit_in_order))]
fn removed_visit(out: &mut Output, monitoring: &Name, item: &Name) -> Result<(), OutOfMemory>
    ensures { OnOk result (out.new ≡ out.old ++ tokens_of (row_object (rows_of_removal (Key.Visit monitoring.now item.now)))) }
{
    out.begin_object()?;
    required::<NameRule>(out, names::ITEM_REF, item)?;
    required::<NameRule>(out, item_names::MONITORING_REF, monitoring)?;
    out.end_object()
}

/// Writes the object of a journey that was removed: LineRef, how it is named, DirectionRef where there is one.
#[tactic(auto, using(crate::proofs::InOrder::removed_journey_in_order))]
fn removed_journey(
    out: &mut Output,
    line: &Name,
    direction: &Option<Name>,
    frame: &Option<Name>,
    journey: &Name,
) -> Result<(), OutOfMemory>
    ensures { OnOk result (out.new ≡ out.old ++ tokens_of (row_object (rows_of_removal (Key.Journey line.now direction.now frame.now journey.now)))) }
{
    out.begin_object()?;
    optional::<NameRule>(out, item_names::DATA_FRAME_REF, frame)?;
    required::<NameRule>(out, item_names::DATED_VEHICLE_JOURNEY_REF, journey)?;
    optional::<NameRule>(out, item_names::DIRECTION_REF, direction)?;
    required::<NameRule>(out, item_names::LINE_REF, line)?;
    out.end_object()
}

/// Writes the object of a vehicle that was removed: its VehicleRef, at ItemRef.
#[tactic(auto, using(crate::proofs::InOrder::removed_vehicle_in_order))]
fn removed_vehicle(out: &mut Output, vehicle: &Name) -> Result<(), OutOfMemory>
    ensures { OnOk result (out.new ≡ out.old ++ tokens_of (row_object (rows_of_removal (Key.Vehicle vehicle.now)))) }
{
    out.begin_object()?;
    required::<NameRule>(out, names::ITEM_REF, vehicle)?;
    out.end_object()
}

/// Writes the object of a situation that was removed: SituationNumber, ParticipantRef where there is one.
#[tactic(auto, using(crate::proofs::InOrder::removed_situation_in_order))]
fn removed_situation(
    out: &mut Output,
    participant: &Option<Name>,
    number: &Name,
) -> Result<(), OutOfMemory>
    ensures { OnOk result (out.new ≡ out.old ++ tokens_of (row_object (rows_of_removal (Key.Situation participant.now number.now)))) }
{
    out.begin_object()?;
    optional::<NameRule>(out, item_names::PARTICIPANT_REF, participant)?;
    required::<NameRule>(out, item_names::SITUATION_NUMBER, number)?;
    out.end_object()
}

/// What was removed, by the table of its service.
pub(crate) struct RemovalWriting;

impl Written for RemovalWriting {
    type Of = Key;

    ghost writing = { written_removal };

    #[tactic(auto, unfolding(crate::specs::Removals::written_removal))]
    fn write(out: &mut Output, key: &Key) -> Result<(), OutOfMemory> {
        match key {
            Key::Visit { monitoring, item } => removed_visit(out, monitoring, item),
            Key::Journey {
                line,
                direction,
                frame,
                journey,
            } => removed_journey(out, line, direction, frame, journey),
            Key::Vehicle { vehicle } => removed_vehicle(out, vehicle),
            Key::Situation {
                participant,
                number,
            } => removed_situation(out, participant, number),
        }
    }
}
