//! The moments at which items may come into a window or leave it.

ghost use Rattle.std.specs.Prelude.{◌≡◌, []};
ghost use Rattle.siri_records.specs.Edges.{listed, edges_of};
ghost use Rattle.siri_records.specs.Ends as ends_spec;

use crate::{Item, Period, end_of, entry_of};
use siri_base::Moment;
use std::marker::Model;

/// Moments of an item, one after the other. Contracts see those that are still to come.
pub struct Moments<'a> {
    // What comes before the edges of the periods.
    first: Option<Moment>,
    periods: &'a [Period],
}

impl<'a> Drop for Moments<'a> {
    fn drop(self) {
        let Moments {
            first: _,
            periods: _,
        } = self;
    }
}

impl<'a> Model for Moments<'a> {
    ghost use Rattle.std.specs.Prelude.{ℕ, List, ◌++◌, flat_map};
    ghost use Rattle.siri_records.specs.Edges.{listed, edges_in};

    ghost Value = { List ℕ };

    ghost view = { λ e. listed e.first ++ flat_map edges_in e.periods.now };
}

impl<'a> Iterator for Moments<'a> {
    type Item = Moment;

    ghost use Rattle.std.specs.Prelude.{◌≡◌, length, [], ◌∷◌, MatchOption};
    ghost use Rattle.std.specs.Iterator.{at_most};

    ghost next_gives = { λ s r t. MatchOption r ((s ≡ []) × (t ≡ [])) (λ edge. s ≡ edge ∷ t) };

    ghost remaining = { λ s. at_most (length s) };

    fn next(&mut self) -> Option<Moment> {
        if let Some(edge) = self.first {
            self.first = None;
            return Some(edge);
        }
        let (period, rest) = self.periods.split_first()?;
        self.periods = rest;
        self.first = period.end_time;
        Some(period.start_time)
    }
}

impl<'a> Moments<'a> {
    /// No moments.
    pub fn none() -> Moments<'a>
        ensures { result ≡ [] }
    {
        Moments {
            first: None,
            periods: &[],
        }
    }
}

/// The end of an item, where it has one.
pub fn ends_of(item: &Item) -> Moments<'_>
    ensures { result ≡ listed (ends_spec.end_of item.now) }
{
    Moments {
        first: end_of(item),
        periods: &[],
    }
}

/// The edges of an item: of a visit and a journey the entry, of a situation each StartTime and EndTime. A vehicle has
/// none.
pub fn edges_of(item: &Item) -> Moments<'_>
    ensures { result ≡ edges_of item.now }
{
    match item {
        Item::Situation(situation) => Moments {
            first: None,
            periods: situation.validity_period.slice(),
        },
        _ => Moments {
            first: entry_of(item),
            periods: &[],
        },
    }
}
