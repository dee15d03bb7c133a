//! When two items are equal in every field.

ghost use Rattle.std.specs.Prelude.{◌≡◌, ◌↔◌, IsTrue, pos};
ghost use Rattle.siri_change.specs.Same.{recorded_at, is_same};

use siri_base::{Moment, Span};
use siri_records::{Item, near};

/// Whether two items are equal in every field. It takes no memory.
pub fn same(a: &Item, b: &Item) -> bool
    ensures test { result ≡ is_same a.now b.now }
    ensures exact { IsTrue result ↔ (a.now ≡ b.now) }
{
    recorded_at(a) == recorded_at(b) && near(a, b, no_slack())
}

/// The RecordedAtTime of an item, which nearness doesn't look at; a situation has none.
fn recorded_at(item: &Item) -> Option<Moment>
    ensures { result ≡ recorded_at item.now }
{
    match item {
        Item::Visit(visit) => visit.recorded_at_time,
        Item::Journey(journey) => journey.recorded_at_time,
        Item::Vehicle(vehicle) => vehicle.recorded_at_time,
        Item::Situation(_) => None,
    }
}

/// The slack zero, with which items that are near have equal expected times and delays.
fn no_slack() -> Span
    ensures { result ≡ pos 0 }
{
    match Span::new(0) {
        Some(none) => none,
        None => unreachable!(),
    }
}
