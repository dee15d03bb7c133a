//! What items are known by.

ghost use Rattle.std.specs.Prelude.{◌≡◌, ◌↔◌, IfOk};
ghost use Rattle.std.specs.Cmp.{IsTotalOrder};
ghost use Rattle.std.specs.declared.cmp.Ordering.TheVariants.{Equal};
ghost use Rattle.siri_records.specs.Keys.{key_of};
ghost use Rattle.siri_records.specs.Order.{key_cmp};

use crate::Item;
use siri_base::{Copies, Name, OutOfMemory};

/// What an item is known by. Keys are ordered by variant, then by their fields in turn, an absent name first, names by
/// their bytes.
#[derive(Debug, PartialEq, Eq, PartialOrd, Ord)]
pub enum Key {
    Visit {
        monitoring: Name,
        item: Name,
    },
    Journey {
        line: Name,
        direction: Option<Name>,
        frame: Option<Name>,
        journey: Name,
    },
    Vehicle {
        vehicle: Name,
    },
    Situation {
        participant: Option<Name>,
        number: Name,
    },
}

impl Drop for Key {
    fn drop(self) {
        match self {
            Key::Visit {
                monitoring: _,
                item: _,
            } => {}
            Key::Journey {
                line: _,
                direction: _,
                frame: _,
                journey: _,
            } => {}
            Key::Vehicle { vehicle: _ } => {}
            Key::Situation {
                participant: _,
                number: _,
            } => {}
        }
    }
}

impl Copies for Key {
    fn copy(&self) -> Result<Self, OutOfMemory> {
        match self {
            Key::Visit { monitoring, item } => Ok(Key::Visit {
                monitoring: monitoring.copy()?,
                item: item.copy()?,
            }),
            Key::Journey {
                line,
                direction,
                frame,
                journey,
            } => Ok(Key::Journey {
                line: line.copy()?,
                direction: direction.copy()?,
                frame: frame.copy()?,
                journey: journey.copy()?,
            }),
            Key::Vehicle { vehicle } => Ok(Key::Vehicle {
                vehicle: vehicle.copy()?,
            }),
            Key::Situation {
                participant,
                number,
            } => Ok(Key::Situation {
                participant: participant.copy()?,
                number: number.copy()?,
            }),
        }
    }
}

/// The key of an item: of a visit its monitoring point and item identifier; of a journey its line, direction, data
/// frame and dated journey; of a vehicle its vehicle; of a situation its participant and number.
pub fn key_of(item: &Item) -> Result<Key, OutOfMemory>
    ensures { IfOk result (λ key. key ≡ key_of item.now) }
{
    match item {
        Item::Visit(visit) => Ok(Key::Visit {
            monitoring: visit.monitoring_ref.copy()?,
            item: visit.item_identifier.copy()?,
        }),
        Item::Journey(journey) => Ok(Key::Journey {
            line: journey.line_ref.copy()?,
            direction: journey.direction_ref.copy()?,
            frame: journey.data_frame_ref.copy()?,
            journey: journey.dated_vehicle_journey_ref.copy()?,
        }),
        Item::Vehicle(vehicle) => Ok(Key::Vehicle {
            vehicle: vehicle.monitored_vehicle_journey.vehicle_ref.copy()?,
        }),
        Item::Situation(situation) => Ok(Key::Situation {
            participant: situation.participant_ref.copy()?,
            number: situation.situation_number.copy()?,
        }),
    }
}

/// A law, which does nothing when it is called: `cmp` of keys is the order by kind and then by names in turn, which is
/// total, and by which two keys tie exactly where they are equal.
pub fn keys_are_in_order()
    ensures stated { (a b : Key) → ⟦<Key as Ord>⟧.cmp a b ≡ key_cmp a b }
    ensures total { IsTotalOrder key_cmp }
    ensures exact { (a b : Key) → (key_cmp a b ≡ Equal) ↔ (a ≡ b) }
{}
