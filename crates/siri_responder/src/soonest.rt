//! The first items by call moment.

ghost use Rattle.std.specs.Prelude.{◌≡◌, ◌+◌, ◌<◌, IfOk, length};
ghost use Rattle.std.specs.Map.{values_of};
ghost use Rattle.std.specs.Ordering.{is_le};
ghost use Rattle.siri_records.specs.Keyed.{InOrder, Items, unshared};
ghost use Rattle.siri_model.specs.Direct.{soonest};
ghost use Rattle.siri_responder.specs.Answering as answering;

use siri_base::{List, OutOfMemory};
use siri_records::{Item, SharedItem, entry_of};
use std::alloc::Global;
use std::cmp::Ordering;
use std::rc::Rc;

/// Of items in order of key the first so many by call moment and then key, still in order of key, shared. It sorts
/// once and goes over the items twice.
pub(crate) fn soonest(
    alloc: Global,
    items: &[Rc<Item>],
    most: u64,
) -> Result<List<SharedItem>, OutOfMemory>
    ensures { IfOk result (λ kept. (entries : Items) → InOrder entries → values_of entries ≡ unshared items.now → kept ≡ values_of (soonest most entries)) }
{
    if items.len() as u64 <= most {
        return shared(alloc, items);
    }
    if most == 0 {
        return Ok(List::new(alloc));
    }
    let last = last_rank(alloc, items, most as usize - 1)?;
    up_to(alloc, items, &last)
}

/// All of them, shared.
pub(crate) fn shared(alloc: Global, items: &[Rc<Item>]) -> Result<List<SharedItem>, OutOfMemory>
    ensures { IfOk result (λ shared. shared ≡ unshared items.now) }
{
    let mut shared = List::new(alloc);
    for item in items {
        let one = item.clone()?;
        shared.push(SharedItem::of(one))?;
    }
    Ok(shared)
}

/// The call moment of an item and its place. Places are in order of key.
fn rank(item: &Item, place: usize) -> (Option<u64>, usize)
    ensures { result ≡ answering.rank_of (place, item.now) }
{
    match entry_of(item) {
        Some(moment) => (Some(moment.ms() as u64), place),
        None => (None, place),
    }
}

/// The last of the first so many and one by rank.
fn last_rank(
    alloc: Global,
    items: &[Rc<Item>],
    before: usize,
) -> Result<(Option<u64>, usize), OutOfMemory>
    requires { before < length items.now }
    ensures { IfOk result (answering.IsLastOf (before + 1) (answering.ranks_of (unshared items.now))) }
{
    let mut ranks = ranks(alloc, items)?;
    ranks.sort_unstable();
    Ok(ranks[before])
}

/// The rank of each item, place by place: its call moment in milliseconds, and the place.
fn ranks(alloc: Global, items: &[Rc<Item>]) -> Result<Vec<(Option<u64>, usize)>, OutOfMemory>
    ensures { IfOk result (λ ranks. ranks.items ≡ answering.ranks_of (unshared items.now)) }
{
    let mut ranks = Vec::new(alloc);
    for place in 0..items.len() {
        ranks.push(rank(&items[place], place))?;
    }
    Ok(ranks)
}

/// The items up to a rank, shared.
fn up_to(
    alloc: Global,
    items: &[Rc<Item>],
    last: &(Option<u64>, usize),
) -> Result<List<SharedItem>, OutOfMemory>
    ensures { IfOk result (λ kept. kept ≡ answering.up_to last.now (unshared items.now)) }
{
    let mut kept = List::new(alloc);
    for place in 0..items.len() {
        let item = &items[place];
        if is_up_to(&rank(item, place), last) {
            let one = item.clone()?;
            kept.push(SharedItem::of(one))?;
        }
    }
    Ok(kept)
}

/// Whether a rank isn't behind the last that is kept; no call moment comes before any.
fn is_up_to(rank: &(Option<u64>, usize), last: &(Option<u64>, usize)) -> bool
    ensures { result ≡ is_le (answering.rank_cmp rank.now last.now) }
{
    rank.cmp(last) != Ordering::Greater
}
