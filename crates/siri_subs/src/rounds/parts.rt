//! Parts of a round.

ghost use Rattle.std.specs.Prelude.{◌≡◌, ◌<◌, ◌+◌, ◌^◌, suc, not, nat_lt, ◌==◌, length};
ghost use Rattle.siri_change.specs.Parts.{part_after, parts_count};
ghost use Rattle.siri_subs.specs.rounds.Wanted.{part_lent};

use siri_base::{Moment, Place};
use siri_change::Change;

/// How many changes a part has at most.
const MOST_IN_A_PART: usize = 100;

/// A part of a round, lent.
#[derive(Drop)]
pub struct Part<'a> {
    /// Which part of which round it is.
    pub place: Place,
    /// When the round began.
    pub moment: Moment,
    /// Whether another part follows (MoreData).
    pub more: bool,
    /// At most 100 changes, in order of key.
    pub changes: &'a [Change],
}

/// The part at a place, counted from 0, of a round with a number, a moment and changes.
pub(crate) fn part_at(round: u64, moment: Moment, changes: &[Change], place: usize) -> Part<'_>
    requires { place < parts_count changes.now }
    ensures { part_lent result ≡ record { place = record { round = round; part = suc place }; moment = moment; more = nat_lt (suc place) (parts_count changes.now); carried = part_after changes.now place } }
{
    let (changes, later) = cut(changes, place);
    Part {
        place: Place {
            round,
            part: place as u64 + 1,
        },
        moment,
        more: !later.is_empty(),
        changes,
    }
}

/// The part at a place, counted from 0, and the changes after it.
pub(crate) fn cut(changes: &[Change], place: usize) -> (&[Change], &[Change])
    requires { place < parts_count changes.now }
    ensures part { result.0.now ≡ part_after changes.now place }
    ensures more { not (length result.1.now == 0) ≡ nat_lt (suc place) (parts_count changes.now) }
    ensures small { place + 2 < 2 ^ 64 }
{
    let (_, rest) = changes.split_at(MOST_IN_A_PART * place);
    if rest.len() <= MOST_IN_A_PART {
        (rest, &[])
    } else {
        rest.split_at(MOST_IN_A_PART)
    }
}
