//! What the mark of a part says, by the numbers that are kept of its subscription.

ghost use Rattle.std.specs.Prelude.{◌≡◌, ◌≤◌, suc};
ghost use Rattle.siri_life.specs.Link as life;
ghost use Rattle.siri_life.specs.Link.{outcome_by, outcome_at_start};
ghost use Rattle.siri_view.specs.Marks.{mark_by, said, of_greater_start};
ghost use Rattle.siri_life.specs.Life.{greatest_round};
ghost use Rattle.siri_life.specs.Meaning.{most_parts};

use siri_base::GREATEST_NUMBER;

/// The four numbers of a mark.
#[derive(Clone, Copy)]
pub(crate) struct Numbers {
    pub number: u64,
    pub start: u64,
    pub round: u64,
    pub part: u64,
}

/// What a mark says.
#[derive(Clone, Copy, PartialEq, Eq)]
pub(crate) enum Saying {
    UnknownSubscription,
    OldStart,
    Gap,
    Repeat,
    Overlong,
    Wanted,
}

/// The most parts of a round; a mark of the next one is `Overlong`.
const GREATEST_PART: u64 = 400;

/// What a mark says where a subscription is held under a number, with a start, so many whole rounds of it, and so many
/// parts of the next.
pub(crate) fn say(number: u64, start: u64, round: u64, parts: u64, mark: Numbers) -> Saying
    requires rounds { round ≤ greatest_round }
    requires parts { parts ≤ most_parts }
    ensures said { said result ≡ outcome_by number start round parts (mark_by mark) }
    ensures small { said result ≡ life.Wanted → mark.part ≤ most_parts }
{
    if mark.number != number {
        return Saying::UnknownSubscription;
    }
    if mark.start < start {
        return Saying::OldStart;
    }
    if start < mark.start {
        return say_of_a_greater_start(mark);
    }
    say_at_start(round, parts, mark)
}

/// Of a greater start than the kept one: only its first part is wanted.
fn say_of_a_greater_start(mark: Numbers) -> Saying
    ensures said { said result ≡ of_greater_start (mark_by mark) }
    ensures small { said result ≡ life.Wanted → mark.part ≤ most_parts }
{
    if mark.round == 1 && mark.part == 1 {
        Saying::Wanted
    } else {
        Saying::Gap
    }
}

/// Of the kept start.
fn say_at_start(round: u64, parts: u64, mark: Numbers) -> Saying
    requires rounds { round ≤ greatest_round }
    requires parts { parts ≤ most_parts }
    ensures said { said result ≡ outcome_at_start round parts (mark_by mark) }
    ensures small { said result ≡ life.Wanted → mark.part ≤ most_parts }
{
    let next_round = round + 1;
    let next_part = parts + 1;
    if mark.round < next_round || mark.round == next_round && mark.part < next_part {
        return Saying::Repeat;
    }
    if mark.round != next_round || mark.part != next_part {
        return Saying::Gap;
    }
    if mark.part == GREATEST_PART + 1 || mark.round == GREATEST_NUMBER + 1 {
        Saying::Overlong
    } else {
        Saying::Wanted
    }
}

/// The mark of the part after.
pub(crate) fn next(mark: Numbers) -> Numbers
    requires { mark.part ≤ most_parts }
    ensures { mark_by result ≡ record (mark_by mark) { part = suc mark.part } }
{
    Numbers {
        part: mark.part + 1,
        ..mark
    }
}
