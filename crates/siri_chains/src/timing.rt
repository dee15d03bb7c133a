//! What the benchmark measures.

use crate::chain::Chain;
use crate::ends::{End, Kind, rounds};
use crate::making::{HOUR, Known, Link, delivery, visit};
use crate::stopped::Stopped;
use siri_base::List;
use std::alloc::Global;

/// What every end asks for: everything, with no threshold.
const ALL: Link = Link {
    slack: 0,
    preview: None,
    incremental: true,
    fetched: false,
};

/// A visit, which departs in a hundred hours or later.
fn known(number: u64, second: u64) -> Known {
    Known {
        number,
        hour: 100 + number % 8,
        second,
        delay: None,
        platform: 1,
    }
}

/// A source with so many visits.
fn fed_chain(alloc: Global, visits: u64) -> Result<Chain, Stopped> {
    let mut chain = Chain::new(alloc)?;
    let mut items = List::new(alloc);
    for number in 0..visits {
        items.push(visit(alloc, &known(number, number % 1200))?)?;
    }
    chain.feed(delivery(alloc, items, List::new(alloc))?)?;
    Ok(chain)
}

/// A source is fed so many visits: how many it holds.
pub(crate) fn fed(alloc: Global, visits: u64) -> Result<u64, Stopped> {
    let mut chain = fed_chain(alloc, visits)?;
    match chain.end(0) {
        Some(End::Source(source)) => Ok(source.held() as u64),
        _ => Err(Stopped::NotHeld),
    }
}

/// They come to a display over so many relays, and so many changes of a visit after them: the display's last round, which
/// is one more than the changes.
pub(crate) fn shown(alloc: Global, relays: u64, visits: u64, changes: u64) -> Result<u64, Stopped> {
    let mut chain = fed_chain(alloc, visits)?;
    for _ in 0..relays {
        chain.join(Kind::Relay, Some(ALL))?;
        chain.deliver_all()?;
    }
    chain.join(Kind::Display, Some(ALL))?;
    chain.deliver_all()?;
    for change in 0..changes {
        move_one(alloc, &mut chain, change, visits)?;
    }
    let last = chain.len().saturating_sub(1);
    match chain.end(last) {
        Some(End::Display(display)) => rounds(alloc, display),
        _ => Err(Stopped::NotHeld),
    }
}

/// So many moments of a source with so many visits and of a display that shows them, an hour from one to the next, so that
/// the visits depart on the way: how many the source holds then. No moment takes memory.
pub(crate) fn passed(alloc: Global, visits: u64, moments: u64) -> Result<u64, Stopped> {
    let mut chain = fed_chain(alloc, visits)?;
    chain.join(Kind::Display, Some(ALL))?;
    chain.deliver_all()?;
    let mut now = chain.now();
    for _ in 0..moments {
        now = now.saturating_add(HOUR);
        for place in 0..chain.len() {
            if let Some(end) = chain.end(place) {
                end.clock(now)?;
            }
        }
    }
    match chain.end(0) {
        Some(End::Source(source)) => Ok(source.held() as u64),
        _ => Err(Stopped::NotHeld),
    }
}

/// One of the visits is told by another second, which comes to the display.
fn move_one(alloc: Global, chain: &mut Chain, change: u64, visits: u64) -> Result<(), Stopped> {
    let number = change.wrapping_mul(7919) % visits.max(1);
    let mut items = List::new(alloc);
    items.push(visit(alloc, &known(number, 1200 + change % 1200))?)?;
    chain.feed(delivery(alloc, items, List::new(alloc))?)?;
    chain.deliver_all()
}
