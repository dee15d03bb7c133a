//! Runs of which everything is drawn.

use crate::chain::Chain;
use crate::dice::Dice;
use crate::ends::Kind;
use crate::making::{FIRST_MOMENT, HOUR, Known, Link, delivery, key, visit};
use crate::stopped::Stopped;
use crate::verdict::judge;
use siri_base::List;
use std::alloc::Global;

/// How many events a run has.
const EVENTS: u32 = 240;

/// How often the clock moves on at the end, until nothing is sent: 20 times half a minute, in which nothing departs.
const LAST_TURNS: u32 = 20;

/// The time after which a part is sent again, in milliseconds.
const AGAIN: u64 = 31_000;

/// How much of everything happened.
pub(crate) struct Tally {
    pub(crate) sent: u64,
    pub(crate) lost: u64,
    pub(crate) repeated: u64,
    pub(crate) restarts: u64,
    pub(crate) items: u64,
    pub(crate) apart: u64,
    pub(crate) exact: u64,
}

impl Drop for Tally {
    fn drop(self) {
        let Tally {
            sent: _,
            lost: _,
            repeated: _,
            restarts: _,
            items: _,
            apart: _,
            exact: _,
        } = self;
    }
}

impl Tally {
    /// Nothing happened.
    pub(crate) fn new() -> Tally {
        Tally {
            sent: 0,
            lost: 0,
            repeated: 0,
            restarts: 0,
            items: 0,
            apart: 0,
            exact: 0,
        }
    }
}

/// Plays the run of a seed, and judges its end.
pub(crate) fn run(alloc: Global, seed: u64, tally: &mut Tally) -> Result<(), Stopped> {
    let mut dice = Dice::new(seed);
    let mut visits = known_visits(alloc, &mut dice)?;
    let mut chain = Chain::new(alloc)?;
    join_all(&mut chain, &mut dice)?;
    for _ in 0..EVENTS {
        happen(alloc, &mut chain, &mut dice, &mut visits, tally)?;
    }
    finish(alloc, &mut chain, &mut dice, &mut visits)?;
    tally.sent = tally.sent.saturating_add(chain.sent());
    if chain.slack() == 0 {
        tally.exact = tally.exact.saturating_add(1);
    }
    let found = judge(alloc, &mut chain)?;
    tally.items = tally.items.saturating_add(found.items);
    tally.apart = tally.apart.saturating_add(found.apart);
    Ok(())
}

/// The visits that there are: up to twelve, or in one run of eight enough for rounds of two parts.
fn known_visits(alloc: Global, dice: &mut Dice) -> Result<Vec<Known>, Stopped> {
    let count = if dice.once_in(8) {
        150
    } else {
        u64::from(dice.draw(12)) + 1
    };
    let mut visits = Vec::new(alloc);
    for number in 0..count {
        visits.push(Known {
            number,
            hour: u64::from(dice.draw(4)),
            second: u64::from(dice.draw(1200)),
            delay: None,
            platform: 1,
        })?;
    }
    Ok(visits)
}

/// Three relays and a display join. Of one run of four no link has a threshold; a link shows no more than the one before.
fn join_all(chain: &mut Chain, dice: &mut Dice) -> Result<(), Stopped> {
    let is_exact = dice.once_in(4);
    let mut hours = 3 + u64::from(dice.draw(3));
    let mut is_open = dice.once_in(2);
    for kind in [Kind::Relay, Kind::Relay, Kind::Relay, Kind::Display] {
        let slack = if is_exact {
            0
        } else {
            u64::from(dice.draw(5)) * 20_000
        };
        let link = Link {
            slack,
            preview: if is_open {
                None
            } else {
                Some(hours.saturating_mul(HOUR))
            },
            incremental: !dice.once_in(4),
            fetched: dice.once_in(3),
        };
        chain.join(kind, Some(link))?;
        if dice.once_in(3) {
            is_open = false;
        }
        if hours > 1 && dice.once_in(3) {
            hours -= 1;
        }
    }
    Ok(())
}

/// An event: time passes, an end reads its clock or starts anew, requests are repeated, the source is fed, or packets
/// are delivered or lost.
fn happen(
    alloc: Global,
    chain: &mut Chain,
    dice: &mut Dice,
    visits: &mut [Known],
    tally: &mut Tally,
) -> Result<(), Stopped> {
    match dice.draw(16) {
        0 => chain.pass(u64::from(dice.draw(900)) * 1000),
        1 | 2 => chain.clock(drawn_place(chain, dice))?,
        3 => happen_rarely(chain, dice, tally)?,
        4..=6 => feed(alloc, chain, dice, visits, 4)?,
        _ => {
            for _ in 0..4 {
                chain.deliver_one(dice, tally)?;
            }
        }
    }
    Ok(())
}

/// The place of one of the ends.
fn drawn_place(chain: &Chain, dice: &mut Dice) -> usize {
    dice.place(chain.len()).unwrap_or(0)
}

/// An end starts anew, the display comes back, requests are repeated, or all clocks are read.
fn happen_rarely(chain: &mut Chain, dice: &mut Dice, tally: &mut Tally) -> Result<(), Stopped> {
    let place = drawn_place(chain, dice);
    match dice.draw(6) {
        0 | 1 => {
            tally.restarts = tally.restarts.saturating_add(1);
            chain.restart(place)
        }
        2 => {
            tally.restarts = tally.restarts.saturating_add(1);
            chain.come_back()
        }
        3 | 4 => chain.repeat(place),
        _ => chain.clock_all(),
    }
}

/// The source is fed some of the visits, as they are now, and some go.
fn feed(
    alloc: Global,
    chain: &mut Chain,
    dice: &mut Dice,
    visits: &mut [Known],
    once_in: u32,
) -> Result<(), Stopped> {
    let this_hour = chain.now().saturating_sub(FIRST_MOMENT) / HOUR;
    let mut items = List::new(alloc);
    let mut removals = List::new(alloc);
    for known in visits.iter_mut() {
        match dice.draw(16) {
            0..=4 => {
                move_visit(known, dice, this_hour);
                items.push(visit(alloc, known)?)?;
            }
            5 => removals.push(key(alloc, known.number)?)?,
            _ => {}
        }
    }
    chain.feed(delivery(alloc, items, removals)?)
}

/// What is known of a visit changes: mostly its departure, by up to a minute, or to another hour where it is over.
fn move_visit(known: &mut Known, dice: &mut Dice, this_hour: u64) {
    if known.hour <= this_hour {
        known.hour = this_hour.saturating_add(u64::from(dice.draw(4)));
    }
    let later = known.second.saturating_add(u64::from(dice.draw(121)));
    known.second = later.saturating_sub(60).min(1199);
    match dice.draw(16) {
        0 => known.delay = None,
        1 => known.platform = known.platform % 3 + 1,
        2..=5 => known.delay = Some(u64::from(dice.draw(180)) * 1000),
        _ => {}
    }
}

/// The end: the source is fed once more, two thirds into an hour, and everything comes, until nothing is sent.
fn finish(
    alloc: Global,
    chain: &mut Chain,
    dice: &mut Dice,
    visits: &mut [Known],
) -> Result<(), Stopped> {
    feed(alloc, chain, dice, visits, 2)?;
    let since = chain.now().saturating_sub(FIRST_MOMENT) % HOUR;
    chain.pass(HOUR - since + HOUR / 3 * 2);
    chain.clock_all()?;
    chain.deliver_all()?;
    for place in 0..chain.len() {
        chain.repeat(place)?;
    }
    chain.deliver_all()?;
    for _ in 0..LAST_TURNS {
        chain.pass(AGAIN);
        chain.clock_all()?;
        if chain.is_quiet() {
            return Ok(());
        }
        chain.deliver_all()?;
    }
    Err(Stopped::NotQuiet)
}
