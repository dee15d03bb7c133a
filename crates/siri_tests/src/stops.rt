//! A shelf that stops at each of its calls in turn, over a feed, and a producer that is opened over what was left.

use crate::documents::{
    EIGHT, FEED, QUESTION, WITH_VISIT, WITHOUT_VISIT, append_row, at, named, open_kept, put_rows,
    read,
};
use siri_base::{List, OutOfMemory};
use siri_keep::Kept;
use siri_messages::Message;
use siri_outside::{InMemoryShelf, Put, Shelf, StoredRow};
use siri_wire::encode;
use std::alloc::Global;
use std::test::Fail;

/// Feeds the visit to a producer that is opened over an empty shelf: whether that was answered.
fn is_fed<B: Shelf>(alloc: Global, shelf: &mut B) -> Result<bool, Fail>
    requires { B.Shelf.is_open shelf.old }
{
    let feed = read(alloc, FEED)?;
    let now = at(EIGHT)?;
    match open_kept(alloc, shelf, 1, now)? {
        Ok(mut kept) => Ok(kept.take(shelf, &feed).is_ok()),
        Err(_) => Ok(false),
    }
}

/// The same, as far as the shelf goes.
fn is_fed_from_the_start<B: Shelf>(alloc: Global, shelf: &mut B) -> Result<bool, Fail> {
    let file = named(alloc, "rows")?;
    match shelf.open(&file) {
        Ok(()) => is_fed(alloc, shelf),
        Err(_) => Ok(false),
    }
}

/// Puts of these rows.
fn puts_of(alloc: Global, rows: &[StoredRow]) -> Result<List<Put>, OutOfMemory> {
    let mut puts = List::new(alloc);
    for row in rows {
        append_row(
            alloc,
            &mut puts,
            row.table,
            row.key.slice(),
            row.text.slice(),
        )?;
    }
    Ok(puts)
}

/// Whether an answer has the visit.
fn has_visit(alloc: Global, reply: &Message) -> Result<bool, Fail> {
    let text = encode(alloc, reply)?;
    if text.as_slice() == WITH_VISIT.as_bytes() {
        return Ok(true);
    }
    if text.as_slice() == WITHOUT_VISIT.as_bytes() {
        return Ok(false);
    }
    let other: Option<bool> = None;
    Ok(other.ok_or("another answer")?)
}

/// Whether the visit is shown by a producer.
fn is_shown<B: Shelf>(alloc: Global, shelf: &mut B, kept: &mut Kept) -> Result<bool, Fail>
    requires { B.Shelf.is_open shelf.old }
{
    let question = read(alloc, QUESTION)?;
    let answer = kept.take(shelf, &question).ok().ok_or("not taken")?;
    let reply = answer.reply.as_ref().ok_or("no reply")?;
    has_visit(alloc, reply)
}

/// Whether it is shown by one that is opened over these rows.
fn is_shown_after(alloc: Global, rows: &[StoredRow]) -> Result<bool, Fail> {
    let puts = puts_of(alloc, rows)?;
    let now = at(EIGHT)?;
    let mut shelf = InMemoryShelf::new(alloc, &[], None);
    put_rows(alloc, &mut shelf, &puts)?;
    let mut kept = open_kept(alloc, &mut shelf, 2, now)?
        .ok()
        .ok_or("not opened")?;
    is_shown(alloc, &mut shelf, &mut kept)
}

/// Whether it is shown by one that is opened over the last rows which a stop may have left. Over those before them one
/// is opened too.
fn is_shown_at_last(alloc: Global, shelf: &InMemoryShelf<'_>) -> Result<bool, Fail> {
    let mut is_shown = false;
    for moment in 0..shelf.moments() {
        let rows = shelf.left_at(moment).ok_or("no moment")?;
        is_shown = is_shown_after(alloc, rows.slice())?;
    }
    Ok(is_shown)
}

#[test]
fn what_was_answered_outlasts_a_stop_at_any_call(rt: HostRuntime) -> Result<(), Fail> {
    for stop in 0..2000u64 {
        let mut shelf = InMemoryShelf::new(rt.alloc(), &[], Some(stop));
        let was_answered = is_fed_from_the_start(rt.alloc(), &mut shelf)?;
        assert_eq!(rt; is_shown_at_last(rt.alloc(), &shelf)?, was_answered);
        if was_answered {
            return Ok(());
        }
    }
    let end: Option<()> = None;
    Ok(end.ok_or("it never went on to the end")?)
}
