//! Reading the journeys of all frames as one list.

ghost use Rattle.std.specs.Prelude.{◌≡◌, map, IfOk};
ghost use Rattle.siri_json.specs.Shown.{shown};
ghost use Rattle.siri_tables.specs.Refusals.{Gives};
ghost use Rattle.siri_deliveries.specs.Frames.{journey_of_frame, journeys, frame, concat_frames, frames_of, journeys_of_frames};

use crate::names;
use crate::read_parts::MOST_ENTRIES;
use siri_base::{List, Moment, OutOfMemory, Reason};
use siri_items::{JourneyTable, names as item_names};
use siri_json::{Tree, member};
use siri_records::{Item, Journey, SharedItem};
use siri_tables::TableError;
use siri_tables::refusal::{below, refuse};
use siri_tables::rows::{list_of, row};
use siri_tables::rules::{MomentRule, Table};
use std::alloc::Global;

/// A frame's journeys (EN 15531-3, EstimatedJourneyVersionFrame), each with its own RecordedAtTime or the frame's.
pub(crate) struct FrameTable;

/// The item of a frame's journey: where it has no RecordedAtTime, it takes the frame's.
fn journey_of_frame(frame: &Option<Moment>, mut journey: Journey) -> Item
    ensures { result ≡ journey_of_frame frame.now journey }
{
    journey.recorded_at_time = journey.recorded_at_time.or(*frame);
    Item::Journey(journey)
}

/// The items of a frame's journeys, in order, each with its own RecordedAtTime or the frame's.
pub(crate) fn journeys_of_frame(
    alloc: Global,
    frame: &Option<Moment>,
    journeys: List<Journey>,
) -> Result<List<SharedItem>, OutOfMemory>
    ensures { IfOk result (λ items. items ≡ map (journey_of_frame frame.now) journeys) }
{
    let mut items = Vec::new(alloc);
    for journey in journeys.into_vec() {
        items.push(SharedItem::new(alloc, journey_of_frame(frame, journey))?)?;
    }
    Ok(List::of(items))
}

/// The journeys at EstimatedVehicleJourney of a frame, none where it is absent; no bound is tested here.
#[tactic(auto, unfolding(crate::specs::Frames::journeys))]
fn journeys(alloc: Global, tree: &Tree<'_>) -> Result<List<Journey>, TableError>
    ensures { Gives result (journeys (shown tree.now)) }
{
    match member(tree, names::ESTIMATED_VEHICLE_JOURNEY) {
        Some(value) => below(
            alloc,
            names::ESTIMATED_VEHICLE_JOURNEY,
            list_of::<JourneyTable>(alloc, value),
        ),
        None => Ok(List::new(alloc)),
    }
}

impl Table for FrameTable {
    type Out = List<SharedItem>;

    ghost rows = { frame };

    #[tactic(auto, unfolding(crate::specs::Frames::frame))]
    fn read_rows(alloc: Global, tree: &Tree<'_>) -> Result<List<SharedItem>, TableError> {
        let recorded_at_time = row::<MomentRule>(alloc, tree, item_names::RECORDED_AT_TIME)?;
        let journeys = journeys(alloc, tree)?;
        Ok(journeys_of_frame(alloc, &recorded_at_time, journeys)?)
    }
}

/// The items of all frames in one list, frame by frame.
pub(crate) fn concat_frames(
    alloc: Global,
    frames: List<List<SharedItem>>,
) -> Result<List<SharedItem>, OutOfMemory>
    ensures { IfOk result (λ items. items ≡ concat_frames frames) }
{
    let mut items = Vec::new(alloc);
    for frame in frames.into_vec() {
        items.append(&mut frame.into_vec())?;
    }
    Ok(List::of(items))
}

/// The journeys of all frames of a list, or `TooMany` above 20,000, after what the frames are refused for.
#[tactic(auto, unfolding(crate::specs::Frames::frames_of))]
fn frames_of(alloc: Global, value: &Tree<'_>) -> Result<List<SharedItem>, TableError>
    ensures { Gives result (frames_of (shown value.now)) }
{
    let frames = list_of::<FrameTable>(alloc, value)?;
    let items = concat_frames(alloc, frames)?;
    if items.len() > MOST_ENTRIES {
        return refuse(alloc, Reason::TooMany);
    }
    Ok(items)
}

/// The journeys of all frames of a delivery, at most 20,000: otherwise `TooMany` at EstimatedJourneyVersionFrame, after
/// what its entries are refused for.
#[tactic(auto, unfolding(crate::specs::Frames::journeys_of_frames))]
pub(crate) fn journeys_of_frames(
    alloc: Global,
    tree: &Tree<'_>,
) -> Result<List<SharedItem>, TableError>
    ensures { Gives result (journeys_of_frames (shown tree.now)) }
{
    match member(tree, names::ESTIMATED_JOURNEY_VERSION_FRAME) {
        Some(value) => below(
            alloc,
            names::ESTIMATED_JOURNEY_VERSION_FRAME,
            frames_of(alloc, value),
        ),
        None => Ok(List::new(alloc)),
    }
}
