//! Whether a round is due, and what it leads to.

ghost use Rattle.std.specs.Prelude.{◌≡◌, ◌+◌, ◌<◌, ◌≤◌, ◌==◌, ◌&&◌, ◌||◌, ℕ, not, nat_lt, length, true, IfOk, None};
ghost use Rattle.siri_life.specs.Life.{greatest_round};
ghost use Rattle.siri_messages.specs.Asked.{AskedFor};
ghost use Rattle.siri_change.specs.Changes as change;
ghost use Rattle.siri_change.specs.Parts as part;
ghost use Rattle.siri_subscriptions.specs.Openings.{with_opening, CanOpen};
ghost use Rattle.siri_subscriptions.specs.Rounds.{looked, sent_if_due};

use crate::again::view_is_in_order;
use siri_base::{List, Moment, OutOfMemory};
use siri_change::{Change, Room, View, addition, changes, differ, target};
use siri_subs::{GREATEST_ROUND, Rounds};
use siri_topic::Subscription;
use std::alloc::Global;

/// A round that is to open.
#[derive(Drop)]
pub struct Opening {
    /// Whether its changes are those of the acknowledged view, and not all of a view.
    pub incremental: bool,
    /// The changes by which it leads to a view.
    pub changes: List<Change>,
    /// Room for them, once all are acknowledged.
    pub room: Room,
}

/// What a look found.
#[derive(Drop)]
pub struct Finding {
    /// The round that is to open, where one is due.
    pub opening: Option<Opening>,
    /// Whether the acknowledged view meets what is shown.
    pub is_level: bool,
}

/// Looks at a subscription of which no round is outstanding, by what is shown to its topic: a round is due where none
/// was opened yet, or where the acknowledged view and what is shown differ by its slack; none is after the greatest
/// number. Nothing changes.
pub fn look(
    alloc: Global,
    wanted: &Subscription,
    rounds: &Rounds,
    direct: &View,
) -> Result<Finding, OutOfMemory>
    requires { rounds.now.outstanding ≡ None }
    // Where its messages go, how often a heartbeat is, and the moment of the look don't matter.
    ensures opening { IfOk result (λ finding. (asked : AskedFor) → asked.subscription ≡ wanted.now → (now : ℕ)
        → with_opening now finding.opening rounds.now ≡ looked asked direct.now now rounds.now) }
    ensures can_open { IfOk result (λ finding. CanOpen finding.opening rounds.now) }
    ensures level { IfOk result (λ finding. finding.is_level ≡ change.meets wanted.now.slack rounds.now.acknowledged direct.now) }
{
    let is_level = !differ(rounds.acknowledged(), direct, wanted.slack);
    let opening = if is_round_due(rounds.last(), is_level) {
        Some(round_to_open(alloc, wanted, rounds.acknowledged(), direct)?)
    } else {
        None
    };
    Ok(Finding { opening, is_level })
}

/// Whether a round is due after the last one, where the acknowledged view meets what is shown or not.
pub(crate) fn is_round_due(last: u64, is_level: bool) -> bool
    ensures due { result ≡ (nat_lt last greatest_round && (last == 0 || not is_level)) }
    ensures room { result ≡ true → last < greatest_round }
{
    last < GREATEST_ROUND && (last == 0 || !is_level)
}

/// The round that what is shown makes.
fn round_to_open(
    alloc: Global,
    wanted: &Subscription,
    acknowledged: &View,
    direct: &View,
) -> Result<Opening, OutOfMemory>
    ensures leads { IfOk result (λ opening. part.led_to acknowledged.now opening.incremental opening.changes ≡ change.target wanted.now.slack wanted.now.incremental acknowledged.now direct.now) }
    ensures changes { IfOk result (λ opening. opening.changes ≡ part.load acknowledged.now (change.target wanted.now.slack wanted.now.incremental acknowledged.now direct.now) wanted.now.incremental) }
    ensures fits { IfOk result (λ opening. length (part.base_view acknowledged.now opening.incremental) + length opening.changes ≤ opening.room) }
{
    view_is_in_order(acknowledged);
    view_is_in_order(direct);
    let target = target(acknowledged, direct, wanted.slack, wanted.incremental)?;
    let changes = load(alloc, wanted, acknowledged, &target)?;
    let opening = opening_of(wanted, acknowledged, changes)?;
    Ok(opening)
}

/// What a round to a view carries.
fn load(
    alloc: Global,
    wanted: &Subscription,
    acknowledged: &View,
    target: &View,
) -> Result<List<Change>, OutOfMemory>
    ensures { IfOk result (λ list. list ≡ part.load acknowledged.now target.now wanted.now.incremental) }
{
    let list = if wanted.incremental {
        changes(acknowledged, target)?
    } else {
        whole(alloc, target)?
    };
    Ok(list)
}

/// The round of changes, with room for them.
pub(crate) fn opening_of(
    wanted: &Subscription,
    acknowledged: &View,
    changes: List<Change>,
) -> Result<Opening, OutOfMemory>
    ensures incremental { IfOk result (λ opening. opening.incremental ≡ wanted.now.incremental) }
    ensures changes { IfOk result (λ opening. opening.changes ≡ changes) }
    ensures fits { IfOk result (λ opening. length (part.base_view acknowledged.now opening.incremental) + length opening.changes ≤ opening.room) }
{
    let incremental = wanted.incremental;
    let room = acknowledged.room_for(incremental, changes.len())?;
    Ok(Opening {
        incremental,
        changes,
        room,
    })
}

/// All of a view, as changes of the empty view.
pub(crate) fn whole(alloc: Global, view: &View) -> Result<List<Change>, OutOfMemory>
    ensures { IfOk result (λ list. list ≡ part.whole view.now) }
{
    let mut list = List::new(alloc);
    let mut place = 0;
    loop {
        match view.entry(place) {
            None => return Ok(list),
            Some(entry) => list.push(addition(entry)?)?,
        }
        place += 1;
    }
}

/// Opens the round that a look found, where it found one, at a moment; then the message that is due, if one is, counts
/// as sent. It takes no memory.
pub fn move_on(rounds: &mut Rounds, now: Moment, opening: Option<Opening>)
    requires { CanOpen opening rounds.old }
    ensures { rounds.new ≡ sent_if_due now (with_opening now opening rounds.old) }
{
    if let Some(opening) = opening {
        rounds.begin(now, opening.incremental, opening.changes, opening.room);
    }
    if rounds.due(now) {
        rounds.sent(now);
    }
}
