//! What is kept of one subscription that is held.

ghost use Rattle.std.specs.Prelude.{◌≡◌, ◌≤◌, ◌==◌, ◌||◌, not, [], ◌++◌, length, flat_map, true, false, cond, nat_lt, Some, None, IfOk, OnOk, OnErr};
ghost use Rattle.siri_records.specs.Keyed.{apply};
ghost use Rattle.siri_change.specs.Parts.{changes_in};
ghost use Rattle.siri_life.specs.Link as life;
ghost use Rattle.siri_life.specs.Link.{taken};
ghost use Rattle.siri_view.specs.Consuming.{held_by, wanted_place};
ghost use Rattle.siri_view.specs.Kept.{meaning};
ghost use Rattle.siri_view.specs.Marks.{mark_by, said};
ghost use Rattle.siri_life.specs.Meaning.{most_parts};

use crate::Held;
use crate::asked::AskedFor;
use crate::marks::{Numbers, Saying, say};
use crate::part::{Part, joined};
use siri_base::{List, OutOfMemory, Place};
use siri_change::{Change, View};
use std::alloc::Global;
use std::marker::Model;

/// What is kept of a subscription: the number of its last request, the base, which is that of its last
/// SubscriptionRequest, and what that asked for, the greatest start of its producer that a part came of, the last whole
/// round of it, the parts of the next one, and the view with the round that it is of.
pub(crate) struct Subscribed {
    number: u64,
    base: u64,
    asked: AskedFor,
    start: u64,
    round: u64,
    parts: List<Part>,
    view: View,
    origin: Held,
}

impl Drop for Subscribed {
    fn drop(self) {
        let Subscribed {
            number: _,
            base: _,
            asked: _,
            start: _,
            round: _,
            parts: _,
            view: _,
            origin: _,
        } = self;
    }
}

impl Model for Subscribed {
    ghost use Rattle.std.specs.Prelude.{◌≤◌, length};
    ghost use Rattle.siri_life.specs.Life.{greatest_round};
    ghost use Rattle.siri_life.specs.Meaning.{most_parts};
    ghost use Rattle.siri_view.specs.Kept.{HeldSubscription};

    ghost Value = { HeldSubscription };

    ghost view = { λ s. record {
      number = s.number;
      base = s.base;
      wanted = s.asked;
      start = s.start;
      round = s.round;
      parts = s.parts;
      view = s.view;
      origin = record { number = s.origin.number; start = s.origin.start; round = s.origin.round };
    } };

    ghost invariant = { λ s. record { rounds : s.round ≤ greatest_round; parts : length s.parts ≤ most_parts } };
}

/// What a view is of before a whole round came.
const NO_ROUND: Held = Held {
    number: 0,
    start: 0,
    round: 0,
};

impl Subscribed {
    /// A subscription that wasn't held is asked for under a number.
    pub(crate) fn new(alloc: Global, number: u64, asked: AskedFor) -> Subscribed
        ensures { result ≡ life.asked meaning number asked None }
    {
        Subscribed {
            number,
            base: number,
            asked,
            start: 0,
            round: 0,
            parts: List::new(alloc),
            view: View::new(alloc),
            origin: NO_ROUND,
        }
    }

    /// It is asked for again. Its view stays.
    pub(crate) fn ask(&mut self, alloc: Global, number: u64, asked: AskedFor)
        ensures { self.new ≡ life.asked meaning number asked (Some self.old) }
    {
        self.number = number;
        self.base = number;
        self.asked = asked;
        self.start = 0;
        self.round = 0;
        self.parts = List::new(alloc);
    }

    /// All of it is asked for again, under a number, by a consumer that restarted: what was asked for and the base stay,
    /// and nothing else. It takes no memory.
    pub(crate) fn restart(&mut self, alloc: Global, number: u64)
        ensures { self.new ≡ life.restarted meaning number self.old }
    {
        self.number = number;
        self.start = 0;
        self.round = 0;
        self.parts = List::new(alloc);
        self.view = View::new(alloc);
        self.origin = NO_ROUND;
    }

    /// The number of the request that asked for it last.
    pub(crate) fn number(&self) -> u64
        ensures { result ≡ self.now.number }
    {
        self.number
    }

    /// The number of the SubscriptionRequest that asked for it last.
    pub(crate) fn base(&self) -> u64
        ensures { result ≡ self.now.base }
    {
        self.base
    }

    /// What is shown of it: the target of the last whole round that came, whichever request that was of.
    pub(crate) fn view(&self) -> &View
        ensures { result.now ≡ self.now.view }
    {
        &self.view
    }

    /// The round whose target the view is, all 0 where none has come.
    pub(crate) fn held(&self) -> Held
        ensures { result ≡ held_by self.now }
    {
        self.origin
    }

    /// Whether its parts are fetched (DeliveryMethod), as it was asked for last.
    pub(crate) fn is_fetched(&self) -> bool
        ensures { result ≡ self.now.wanted.subscription.fetched }
    {
        self.asked.subscription.fetched
    }

    /// The part that is wanted next.
    pub(crate) fn wanted_place(&self) -> Place
        ensures { result ≡ wanted_place self.now }
    {
        Place {
            round: self.round + 1,
            part: self.parts.len() as u64 + 1,
        }
    }

    /// What the mark of a part says.
    pub(crate) fn say(&self, mark: Numbers) -> Saying
        ensures said { said result ≡ life.outcome meaning self.now (mark_by mark) }
        ensures small { said result ≡ life.Wanted → mark.part ≤ most_parts }
    {
        say(
            self.number,
            self.start,
            self.round,
            self.parts.len() as u64,
            mark,
        )
    }

    /// Takes a wanted part: it is buffered, or its round is applied. After want of memory all is as before.
    pub(crate) fn take(
        &mut self,
        alloc: Global,
        mark: Numbers,
        more: bool,
        part: Part,
    ) -> Result<(), OutOfMemory>
        requires wanted { life.outcome meaning self.old (mark_by mark) ≡ life.Wanted }
        ensures ok { OnOk result (self.new ≡ taken meaning self.old (mark_by mark) more part) }
        ensures err { OnErr result (self.new ≡ self.old) }
    {
        if more {
            self.buffer(alloc, mark, part)
        } else {
            self.apply(alloc, mark, part)
        }
    }

    /// A part is buffered, under a greater start as the first.
    fn buffer(&mut self, alloc: Global, mark: Numbers, part: Part) -> Result<(), OutOfMemory>
        requires wanted { life.outcome meaning self.old (mark_by mark) ≡ life.Wanted }
        ensures ok { OnOk result (self.new ≡ taken meaning self.old (mark_by mark) true part) }
        ensures err { OnErr result (self.new ≡ self.old) }
    {
        if self.start < mark.start {
            let mut parts = List::new(alloc);
            parts.push(part)?;
            self.parts = parts;
            self.start = mark.start;
            self.round = 0;
        } else {
            self.parts.push(part)?;
        }
        Ok(())
    }

    /// The last part of a round came: all its parts are applied.
    fn apply(&mut self, alloc: Global, mark: Numbers, last: Part) -> Result<(), OutOfMemory>
        requires wanted { life.outcome meaning self.old (mark_by mark) ≡ life.Wanted }
        ensures ok { OnOk result (self.new ≡ taken meaning self.old (mark_by mark) false last) }
        ensures err { OnErr result (self.new ≡ self.old) }
    {
        let changes = self.changes_of_round(alloc, mark.start, &last)?;
        let is_anew = self.is_anew(mark.round);
        put_round(alloc, &mut self.view, is_anew, changes)?;
        self.start = mark.start;
        self.round = mark.round;
        self.parts = List::new(alloc);
        self.origin = Held {
            number: self.number,
            start: mark.start,
            round: mark.round,
        };
        Ok(())
    }

    /// A round is applied to the empty view, and not to the one that is held.
    fn is_anew(&self, round: u64) -> bool
        ensures { result ≡ (round == 1 || not self.now.wanted.subscription.incremental) }
    {
        round == 1 || !self.asked.subscription.incremental
    }

    /// The changes of all parts of a round: those that are buffered, unless it is of a greater start, and the last.
    fn changes_of_round(
        &self,
        alloc: Global,
        start: u64,
        last: &Part,
    ) -> Result<List<Change>, OutOfMemory>
        ensures { IfOk result (λ changes. changes ≡ flat_map changes_in (cond (nat_lt self.now.start start) [] self.now.parts) ++ changes_in last.now) }
    {
        if self.start < start {
            joined(alloc, &[], last)
        } else {
            joined(alloc, self.parts.slice(), last)
        }
    }
}

/// The changes of a round are made, to the empty view or to the one that is held. After want of memory all is as
/// before.
fn put_round(
    alloc: Global,
    view: &mut View,
    is_anew: bool,
    changes: List<Change>,
) -> Result<(), OutOfMemory>
    ensures ok { OnOk result (view.new ≡ apply (cond is_anew [] view.old) changes) }
    ensures err { OnErr result (view.new ≡ view.old) }
{
    if is_anew {
        let mut anew = View::new(alloc);
        anew.put_changes(changes)?;
        *view = anew;
        Ok(())
    } else {
        view.put_changes(changes)
    }
}
