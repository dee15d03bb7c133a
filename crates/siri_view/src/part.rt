//! A part of a round, as it is buffered.

ghost use Rattle.std.specs.Prelude.{◌≡◌, ◌++◌, flat_map, map, IfOk, OnOk, Some, None};
ghost use Rattle.siri_records.specs.Keys.{key_of as key_of_item};
ghost use Rattle.siri_records.specs.Keyed.{unshared};
ghost use Rattle.siri_change.specs.Parts.{changes_in};

use siri_base::{Copies, List, OutOfMemory, beside};
use siri_change::Change;
use siri_records::{Item, Key, SharedItem, SharedKey};
use std::alloc::Global;
use std::marker::Model;
use std::rc::Rc;

/// What a functional delivery carries. Its items and its removals' keys are shared from here on.
pub(crate) struct Part {
    items: Vec<Rc<Item>>,
    removals: List<SharedKey>,
}

impl Drop for Part {
    fn drop(self) {
        let Part {
            items: _,
            removals: _,
        } = self;
    }
}

impl Model for Part {
    ghost use Rattle.siri_records.specs.Keyed.{unshared};
    ghost use Rattle.siri_change.specs.Parts.{Carried};

    ghost Value = { Carried };

    ghost view = { λ p. record { items = unshared p.items.items; removals = p.removals } };
}

impl Part {
    /// The items and removals of a delivery, none of which is copied.
    pub(crate) fn of(
        alloc: Global,
        items: List<SharedItem>,
        removals: List<Key>,
    ) -> Result<Part, OutOfMemory>
        ensures { IfOk result (λ part. part ≡ record { items = items; removals = removals }) }
    {
        let (items, removals) = beside(kept(alloc, items), removals)?;
        Ok(Part {
            items,
            removals: kept_keys(alloc, removals)?,
        })
    }

    /// Puts the changes that it carries at the end: its items, each under its own key, and then its removals.
    pub(crate) fn push_changes(
        &self,
        alloc: Global,
        into: &mut List<Change>,
    ) -> Result<(), OutOfMemory>
        ensures { OnOk result (into.new ≡ into.old ++ changes_in self.now) }
    {
        push_items(alloc, &self.items, into)?;
        push_removals(self.removals.slice(), into)
    }
}

/// Shared items.
fn kept(alloc: Global, items: List<SharedItem>) -> Result<Vec<Rc<Item>>, OutOfMemory>
    ensures { IfOk result (λ kept. unshared kept.items ≡ items) }
{
    let mut kept = Vec::new(alloc);
    for item in items.into_vec() {
        kept.push(item.into_inner())?;
    }
    Ok(kept)
}

/// Keys, to be shared.
fn kept_keys(alloc: Global, keys: List<Key>) -> Result<List<SharedKey>, OutOfMemory>
    ensures { IfOk result (λ kept. kept ≡ keys) }
{
    let mut kept = List::new(alloc);
    for key in keys.into_vec() {
        kept.push(SharedKey::new(alloc, key)?)?;
    }
    Ok(kept)
}

/// Puts items at the end, each under its own key.
fn push_items(alloc: Global, items: &[Rc<Item>], into: &mut List<Change>) -> Result<(), OutOfMemory>
    ensures { OnOk result (into.new ≡ into.old ++ map (λ item. (key_of_item item, Some item)) (unshared items.now)) }
{
    for item in items {
        into.push(change_of(alloc, item)?)?;
    }
    Ok(())
}

/// An item as the one of its key.
fn change_of(alloc: Global, item: &Rc<Item>) -> Result<Change, OutOfMemory>
    ensures { IfOk result (λ change. change ≡ (key_of_item item.now.value, Some item.now.value)) }
{
    let shared = item.clone()?;
    Ok(Change {
        key: SharedKey::of(alloc, item)?,
        item: Some(shared),
    })
}

/// Puts the removals of keys at the end.
fn push_removals(keys: &[SharedKey], into: &mut List<Change>) -> Result<(), OutOfMemory>
    ensures { OnOk result (into.new ≡ into.old ++ map (λ key. (key, None)) keys.now) }
{
    for key in keys {
        into.push(Change {
            key: key.copy()?,
            item: None,
        })?;
    }
    Ok(())
}

/// The changes of a round's parts, and of its last one, joined in order.
pub(crate) fn joined(
    alloc: Global,
    parts: &[Part],
    last: &Part,
) -> Result<List<Change>, OutOfMemory>
    ensures { IfOk result (λ changes. changes ≡ flat_map changes_in parts.now ++ changes_in last.now) }
{
    let mut changes = List::new(alloc);
    for part in parts {
        part.push_changes(alloc, &mut changes)?;
    }
    last.push_changes(alloc, &mut changes)?;
    Ok(changes)
}
