//! The rounds of a subscription.

ghost use Rattle.std.specs.Prelude.{◌≡◌, ◌≢◌, ◌↔◌, ◌<◌, ◌≤◌, suc, Ok, Err, [], length, true, false, ◌&&◌, is_some, option_map, not, nat_lt, ◌+◌, ◌^◌, Some, None, OnErr};
ghost use Rattle.siri_records.specs.Keyed.{Items};
ghost use Rattle.siri_change.specs.Parts.{base_view, led_to, parts_count};
ghost use Rattle.siri_life.specs.Life.{is_due, greatest_round};
ghost use Rattle.siri_life.specs.Slot.{begun, sent, is_message_due, with_acknowledgement, with_supply};
ghost use Rattle.siri_subs.specs.rounds.Kept.{IsWanting, outstanding_on};
ghost use Rattle.siri_subs.specs.rounds.Wanted.{round_on, rounds_carried, wanted_place, wanted_part, part_lent, part_sent, supply_answer};

use crate::rounds::parts::{Part, cut, part_at};
use crate::rounds::{SupplyError, Taken};
use siri_base::{GREATEST_NUMBER, List, Moment, Place};
use siri_change::{Change, Room, View};
use std::alloc::Global;
use std::marker::Model;

/// The greatest number of a round.
pub const GREATEST_ROUND: u64 = GREATEST_NUMBER;

/// How long a message of the wanted part isn't sent again, in milliseconds.
const RESEND_INTERVAL: i64 = 30_000;

/// What a producer keeps of a subscription: whether delivery is fetched, the acknowledged view, how many rounds were
/// opened, and the outstanding round with how many of its parts are acknowledged and when a message of the next was
/// last sent.
pub struct Rounds {
    fetched: bool,
    acknowledged: View,
    last: u64,
    outstanding: Option<OpenRound>,
}

impl Drop for Rounds {
    fn drop(self) {
        let Rounds {
            fetched: _,
            acknowledged: _,
            last: _,
            outstanding: _,
        } = self;
    }
}

/// The outstanding round: its changes, which are made once it is acknowledged whole, with the room that they want. With
/// incremental updates they are made on the acknowledged view, else on the empty one.
#[derive(Drop)]
pub(crate) struct OpenRound {
    moment: Moment,
    incremental: bool,
    changes: List<Change>,
    room: Room,
    acknowledged_parts: usize,
    last_sent: Option<Moment>,
}

impl Model for Rounds {
    ghost use Rattle.std.specs.Prelude.{option_map};
    ghost use Rattle.siri_subs.specs.rounds.Wanted.{RoundsOfChanges};
    ghost use Rattle.siri_subs.specs.rounds.Kept.{outstanding_on, IsOpen};

    ghost Value = { RoundsOfChanges };

    ghost view = { λ r. record { fetched = r.fetched; acknowledged = r.acknowledged; rounds_opened = r.last; outstanding = option_map (outstanding_on r.acknowledged) r.outstanding } };

    ghost invariant = { λ r. IsOpen r.acknowledged r.outstanding };
}

impl Rounds {
    /// The rounds of a subscription that is new: nothing is acknowledged, and none was opened. It takes no memory.
    pub fn new(alloc: Global, fetched: bool) -> Rounds
        ensures { result ≡ record { fetched = fetched; acknowledged = []; rounds_opened = 0; outstanding = None } }
    {
        Rounds {
            fetched,
            acknowledged: View::new(alloc),
            last: 0,
            outstanding: None,
        }
    }

    /// Whether delivery is fetched: a part is announced, and asked for.
    pub fn fetched(&self) -> bool
        ensures { result ≡ self.now.fetched }
    {
        self.fetched
    }

    /// The view that the consumer is known to hold: what the last round led to that was acknowledged whole, empty
    /// before the first.
    pub fn acknowledged(&self) -> &View
        ensures { result.now ≡ self.now.acknowledged }
    {
        &self.acknowledged
    }

    /// The number of the last round that was opened, 0 before the first.
    pub fn last(&self) -> u64
        ensures { result ≡ self.now.rounds_opened }
    {
        self.last
    }

    /// The place of the wanted part, `None` exactly where nothing is outstanding.
    pub fn outstanding(&self) -> Option<Place>
        ensures place { result ≡ wanted_place self.now }
        ensures known { is_some result ≡ is_some self.now.outstanding }
    {
        match &self.outstanding {
            Some(round) => Some(round.place(self.last)),
            None => None,
        }
    }

    /// Opens the next round at a moment, by a list of changes: with incremental updates they lead from the acknowledged
    /// view to another, else from the empty one. Its first part is wanted. Nothing is outstanding, the last round is below
    /// the greatest, and there is room for the changes, which are made after the last part. It takes no memory.
    pub fn begin(&mut self, now: Moment, incremental: bool, list: List<Change>, room: Room)
        requires level { self.old.outstanding ≡ None }
        requires room { self.old.rounds_opened < greatest_round }
        requires fits { length (base_view self.old.acknowledged incremental) + length list ≤ room }
        ensures { self.new ≡ begun self.old (round_on self.old.acknowledged now (led_to self.old.acknowledged incremental list) list) }
    {
        self.last += 1;
        self.keep(OpenRound {
            moment: now,
            incremental,
            changes: list,
            room,
            acknowledged_parts: 0,
            last_sent: None,
        });
    }

    /// Whether a message of the wanted part is due: none was sent yet, or the last one 30 seconds ago or more.
    pub fn due(&self, now: Moment) -> bool
        ensures { result ≡ is_message_due self.now now }
    {
        match &self.outstanding {
            Some(round) => is_due(round.last_sent, now),
            None => false,
        }
    }

    /// A message of the wanted part was sent: the part, or its notification. Where nothing is outstanding nothing
    /// changes.
    pub fn sent(&mut self, now: Moment)
        ensures { self.new ≡ sent self.old now }
    {
        if let Some(round) = &mut self.outstanding {
            round.last_sent = Some(now);
        }
    }

    /// The wanted part, lent: the very changes of the list that its round began with, in their order, each with its
    /// key. `None` exactly where nothing is outstanding.
    pub fn part(&self) -> Option<Part<'_>>
        ensures part { option_map part_lent result ≡ wanted_part self.now }
        ensures sent { option_map part_sent result ≡ wanted_part (rounds_carried self.now) }
        ensures known { is_some result ≡ is_some self.now.outstanding }
    {
        match &self.outstanding {
            Some(round) => {
                let changes = round.changes.slice();
                Some(part_at(self.last, round.moment, changes, round.acknowledged_parts))
            }
            None => None,
        }
    }

    /// The first part of the round that would begin at a moment with a list of changes, lent. Nothing is outstanding,
    /// and the last round is below the greatest.
    pub fn first_part<'a>(&self, now: Moment, list: &'a List<Change>) -> Part<'a>
        requires level { self.now.outstanding ≡ None }
        requires room { self.now.rounds_opened < greatest_round }
        ensures part { (wanted : Items) → Some (part_lent result) ≡ wanted_part (begun self.now (round_on self.now.acknowledged now wanted list.now)) }
        ensures sent { (wanted : Items) → Some (part_sent result) ≡ wanted_part (rounds_carried (begun self.now (round_on self.now.acknowledged now wanted list.now))) }
    {
        part_at(self.last + 1, now, list.slice(), 0)
    }

    /// The consumer asks for a part. Where it is the wanted one of a fetched round, a message of it was sent now;
    /// otherwise nothing changes: `NothingReady` exactly where no fetched round is outstanding, `WrongPart` with the
    /// wanted part exactly where one is and this isn't the wanted part. It takes no memory.
    pub fn supply(&mut self, place: Place, now: Moment) -> Result<(), SupplyError>
        ensures answer { result ≡ supply_answer self.old place }
        ensures rounds { self.new ≡ with_supply self.old place.round place.part now }

        // When each of these comes.
        ensures supplied { (result ≡ Ok tt) ↔ ((self.old.fetched ≡ true) × (wanted_place self.old ≡ Some place)) }
        ensures nothing_ready { (result ≡ Err SupplyError.NothingReady) ↔ ((self.old.fetched && is_some self.old.outstanding) ≡ false) }
        ensures wrong_part { (wanted : Place) → (result ≡ Err (SupplyError.WrongPart wanted))
            ↔ ((self.old.fetched ≡ true) × (wanted_place self.old ≡ Some wanted) × (place ≢ wanted)) }
        ensures refused { OnErr result (self.new ≡ self.old) }
    {
        match self.outstanding() {
            Some(wanted) if self.fetched => {
                if place != wanted {
                    return Err(SupplyError::WrongPart { wanted });
                }
                self.sent(now);
                Ok(())
            }
            _ => Err(SupplyError::NothingReady),
        }
    }

    /// The consumer has taken a part. Where it is the wanted one, the next is wanted: with fetched delivery a message
    /// of it counts as sent now, with direct delivery none was sent yet. After the last part, the view that the round
    /// leads to is the acknowledged one, and nothing is outstanding. `NotThis` exactly where it isn't the wanted part,
    /// and then nothing changes. It takes no memory.
    pub fn acknowledge(&mut self, place: Place, now: Moment) -> Taken
        ensures taken { (result ≡ Taken.Taken) ↔ (wanted_place self.old ≡ Some place) }
        ensures not_this { (result ≡ Taken.NotThis) ↔ (wanted_place self.old ≢ Some place) }
        ensures rounds { self.new ≡ with_acknowledgement self.old place.round place.part now }
    {
        let Some(mut round) = self.outstanding.take() else {
            return Taken::NotThis;
        };
        if place != round.place(self.last) {
            self.keep(round);
            return Taken::NotThis;
        }
        if round.is_last() {
            self.acknowledged
                .make(round.incremental, round.changes, round.room);
        } else {
            round.acknowledged_parts += 1;
            round.last_sent = self.fetched.then_some(now);
            self.keep(round);
        }
        Taken::Taken
    }

    /// This round is the outstanding one.
    fn keep(&mut self, round: OpenRound)
        requires { IsWanting self.old.acknowledged round }
        ensures { self.new ≡ record self.old { outstanding = Some (outstanding_on self.old.acknowledged round) } }
    {
        self.outstanding = Some(round);
    }
}

impl OpenRound {
    /// The place of the wanted part, in the round of this number.
    fn place(&self, round: u64) -> Place
        requires { self.now.acknowledged_parts + 1 < 2 ^ 64 }
        ensures { result ≡ record { round = round; part = suc self.now.acknowledged_parts } }
    {
        Place {
            round,
            part: self.acknowledged_parts as u64 + 1,
        }
    }

    /// The wanted part is the last one.
    fn is_last(&self) -> bool
        requires { self.now.acknowledged_parts < parts_count self.now.changes }
        ensures last { result ≡ not (nat_lt (suc self.now.acknowledged_parts) (parts_count self.now.changes)) }
        ensures small { self.now.acknowledged_parts + 2 < 2 ^ 64 }
    {
        let (_, later) = cut(self.changes.slice(), self.acknowledged_parts);
        later.is_empty()
    }
}

/// A message is due again.
fn is_due(last_sent: Option<Moment>, now: Moment) -> bool
    ensures { result ≡ is_due last_sent now }
{
    match last_sent {
        Some(moment) => now.ms() - moment.ms() >= RESEND_INTERVAL,
        None => true,
    }
}
