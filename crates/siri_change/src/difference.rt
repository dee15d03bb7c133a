//! How views differ, and what leads from one to another.

ghost use Rattle.std.specs.Prelude.{◌≡◌, ◌&&◌, not, IfOk, Some, None, option_map};
ghost use Rattle.std.specs.Ordering.{is_eq};
ghost use Rattle.siri_records.specs.Near.{is_near};
ghost use Rattle.siri_records.specs.Order.{key_cmp};
ghost use Rattle.siri_change.specs.Changes.{acknowledged_if_near, changes, meets, target};

use crate::{Change, View, same};
use siri_base::{Copies, List, OutOfMemory, Span};
use siri_records::{Item, SharedKey, near};
use std::cmp::Ordering;
use std::rc::Rc;

/// A key of a view and its item, both of which other views may hold too.
type Entry = (SharedKey, Rc<Item>);

/// Whether two views differ: they don't have the same keys, or the two items of some key aren't near with the slack. It
/// goes over both once and takes no memory.
pub fn differ(view: &View, wanted: &View, slack: Span) -> bool
    ensures { result ≡ not (meets slack view.now wanted.now) }
{
    let mut place = 0;
    loop {
        match (view.entry(place), wanted.entry(place)) {
            (Some(held), Some(entry)) => {
                if !near_entries(held, entry, slack) {
                    return true;
                }
            }
            (None, None) => return false,
            (Some(_), None) => return true,
            (None, Some(_)) => return true,
        }
        place += 1;
    }
}

/// Whether two entries have one key and near items.
fn near_entries(a: &Entry, b: &Entry, slack: Span) -> bool
    ensures { result ≡ (is_eq (key_cmp a.now.0 b.now.0) && is_near slack a.now.1.value b.now.1.value) }
{
    a.0.cmp(&b.0) == Ordering::Equal && near(&a.1, &b.1, slack)
}

/// The view that a round of a subscription leads to. Without incremental updates it is the direct response itself. With
/// them it has the keys of the direct response, each with its acknowledged item where there is one and it is near with
/// the slack, else with the direct one.
pub fn target(
    acknowledged: &View,
    direct: &View,
    slack: Span,
    incremental: bool,
) -> Result<View, OutOfMemory>
    ensures { IfOk result (λ goal. goal ≡ target slack incremental acknowledged.now direct.now) }
{
    if !incremental {
        return direct.copy();
    }
    let mut target = View::new(direct.allocator());
    let mut place = 0;
    loop {
        match direct.entry(place) {
            None => return Ok(target),
            Some(entry) => {
                let item = acknowledged_if_near(acknowledged.get(entry.0.key()), &entry.1, slack);
                target.push_last(entry.0.copy()?, item.clone()?)?;
            }
        }
        place += 1;
    }
}

/// The acknowledged item of a key where there is one and it is near, else the new one.
fn acknowledged_if_near<'a>(
    held: Option<&'a Rc<Item>>,
    new: &'a Rc<Item>,
    slack: Span,
) -> &'a Rc<Item>
    ensures { result.now.value ≡ acknowledged_if_near slack (option_map (λ item. item.now.value) held.entry) new.now.value }
{
    match held {
        Some(held) if near(held, new, slack) => held,
        _ => new,
    }
}

/// The changes that lead from one view to another: in order of key, each key on which they differ, with the item that
/// the second has of it, or with none. Items differ where they aren't equal in every field. It goes over both views
/// once.
pub fn changes(before: &View, after: &View) -> Result<List<Change>, OutOfMemory>
    ensures { IfOk result (λ list. list ≡ changes before.now after.now) }
{
    let mut list = List::new(after.allocator());
    let mut old_place = 0;
    let mut new_place = 0;
    loop {
        match (before.entry(old_place), after.entry(new_place)) {
            (None, None) => return Ok(list),
            (Some(old), None) => {
                list.push(removal(old)?)?;
                old_place += 1;
            }
            (None, Some(new)) => {
                list.push(addition(new)?)?;
                new_place += 1;
            }
            (Some(old), Some(new)) => match old.0.cmp(&new.0) {
                Ordering::Less => {
                    list.push(removal(old)?)?;
                    old_place += 1;
                }
                Ordering::Greater => {
                    list.push(addition(new)?)?;
                    new_place += 1;
                }
                Ordering::Equal => {
                    if !same(&old.1, &new.1) {
                        list.push(addition(new)?)?;
                    }
                    old_place += 1;
                    new_place += 1;
                }
            },
        }
    }
}

/// The change that removes the key of an entry.
fn removal(entry: &Entry) -> Result<Change, OutOfMemory>
    ensures { IfOk result (λ change. change ≡ (entry.now.0, None)) }
{
    Ok(Change {
        key: entry.0.copy()?,
        item: None,
    })
}

/// The change that makes an entry's item the one of its key.
pub fn addition(entry: &(SharedKey, Rc<Item>)) -> Result<Change, OutOfMemory>
    ensures { IfOk result (λ change. change ≡ (entry.now.0, Some entry.now.1.value)) }
{
    let item = entry.1.clone()?;
    Ok(Change {
        key: entry.0.copy()?,
        item: Some(item),
    })
}
