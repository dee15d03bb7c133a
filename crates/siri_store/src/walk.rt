//! Lists of what a walk over shown items has still to lend.

ghost use Rattle.std.specs.Prelude.{◌≡◌, ◌≤◌, min, length, IfOk, OnOk};
ghost use Rattle.siri_records.specs.Keyed.{InOrder, unshared};
ghost use Rattle.siri_store.specs.Walk.{Walked, entries_to_lend, to_lend};

use crate::Selected;
use siri_base::{Copies, OutOfMemory};
use siri_records::{Item, KeyedItems};
use std::alloc::Global;
use std::rc::Rc;

/// The items that are shown.
pub(crate) fn shown_items(
    alloc: Global,
    walk: &mut Selected<'_>,
) -> Result<Vec<Rc<Item>>, OutOfMemory>
    ensures ok { IfOk result (λ found. unshared found.items ≡ to_lend walk.old) }
    ensures over { OnOk result (min walk.old.end (length walk.old.entries.now) ≤ walk.new.place) }
    ensures walked { Walked walk.old walk.new }
{
    let mut found = Vec::new(alloc);
    while let Some(entry) = walk.next_entry() {
        let item = entry.1.clone()?;
        found.push(item)?;
    }
    Ok(found)
}

/// The same with their keys.
pub(crate) fn shown_entries(
    alloc: Global,
    walk: &mut Selected<'_>,
) -> Result<KeyedItems, OutOfMemory>
    requires { InOrder (entries_to_lend walk.old) }
    ensures ok { IfOk result (λ found. found ≡ entries_to_lend walk.old) }
    ensures over { OnOk result (min walk.old.end (length walk.old.entries.now) ≤ walk.new.place) }
    ensures walked { Walked walk.old walk.new }
{
    let mut found = KeyedItems::new(alloc);
    while let Some(entry) = walk.next_entry() {
        let item = entry.1.clone()?;
        let key = entry.0.copy()?;
        found.push_last(key, item)?;
    }
    Ok(found)
}
