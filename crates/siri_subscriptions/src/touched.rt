//! What a look finds of the keys that may have changed since the last one.

ghost use Rattle.std.specs.Prelude.{◌≡◌, ◌<◌, ◌≤◌, ◌+◌, ◌^◌, Some, None, fold, filter, length, option_map, slice_get, IfOk, OnOk};
ghost use Rattle.std.specs.Map.{keys_of};
ghost use Rattle.siri_records.specs.KeyLists.{KeysInOrder, is_among};
ghost use Rattle.siri_records.specs.Keyed.{InOrder};
ghost use Rattle.siri_records.specs.Order.{key_cmp};
ghost use Rattle.siri_store.specs.Candidates.{may_be_shown};
ghost use Rattle.siri_store.specs.Marked.{keys_since};
ghost use Rattle.siri_model.specs.Looks.{found_of};
ghost use Rattle.siri_subscriptions.specs.Again.{AreTouched, is_other, with_held};

use siri_base::{Copies, List, OutOfMemory};
use siri_change::addition;
use siri_records::{Change, KeyedItems, SharedKey};
use siri_responder::Responder;
use siri_store::asked;
use siri_topic::Topic;
use std::alloc::Global;
use std::cmp::Ordering;

/// The keys that were marked under a number or a later one, with the item that is held of each, or none: subscriptions
/// that looked last at the same settle share them.
#[derive(Drop)]
pub(crate) struct Touched {
    pub number: Option<u64>,
    pub found: List<Change>,
}

impl Touched {
    /// Nothing was found yet. It takes no memory.
    pub(crate) fn new(alloc: Global) -> Touched
        ensures number { result.number ≡ None }
    {
        Touched {
            number: None,
            found: List::new(alloc),
        }
    }

    /// Finds those of a number, unless they are at hand. Of the responder nothing but the counter of steps changes, and
    /// that rises by at most a step a key.
    pub(crate) fn find(&mut self, responder: &mut Responder, number: u64) -> Result<(), OutOfMemory>
        requires { AreTouched responder.old self.old }
        ensures kept { AreTouched responder.new self.new }
        ensures ok { OnOk result (self.new.found ≡ found_of responder.old.held (keys_since responder.old.marks.log number)) }
        ensures rest { responder.new ≡ record responder.old { reads = responder.new.reads } }
        ensures risen { responder.old.reads ≤ responder.new.reads }
        ensures reads { responder.new.reads ≤ responder.old.reads + length (keys_since responder.old.marks.log number) }
    {
        if self.number == Some(number) {
            return Ok(());
        }
        self.found = responder.marked(number)?;
        self.number = Some(number);
        Ok(())
    }

    /// Those of them whose items may be shown to a topic.
    pub(crate) fn asked(&self, topic: &Topic) -> &[Change]
        requires { InOrder self.now.found }
        ensures { result.now ≡ filter (λ change. may_be_shown topic.now change.0) self.now.found }
    {
        let places = asked(&self.found, topic);
        &self.found.slice()[places.start..places.end]
    }
}

/// What was found, in order of key, with items that are held, in order of key too.
pub(crate) fn merged(
    alloc: Global,
    found: &[Change],
    items: &KeyedItems,
) -> Result<List<Change>, OutOfMemory>
    ensures { IfOk result (λ list. list ≡ fold with_held found.now items.now) }
{
    let mut list = List::new(alloc);
    let mut place = 0;
    let mut next = 0;
    loop {
        match (at(found, place), items.entry(next)) {
            (None, None) => return Ok(list),
            (Some(one), None) => {
                list.push(one.copy()?)?;
                place += 1;
            }
            (None, Some(entry)) => {
                list.push(addition(entry)?)?;
                next += 1;
            }
            (Some(one), Some(entry)) => match one.key.cmp(&entry.0) {
                Ordering::Less => {
                    list.push(one.copy()?)?;
                    place += 1;
                }
                Ordering::Greater => {
                    list.push(addition(entry)?)?;
                    next += 1;
                }
                Ordering::Equal => {
                    list.push(addition(entry)?)?;
                    place += 1;
                    next += 1;
                }
            },
        }
    }
}

/// What was found at a place, counted from 0.
fn at(found: &[Change], place: usize) -> Option<&Change>
    ensures one { option_map (λ one. one.now) result ≡ slice_get found.now place }
    ensures small { length found.now < 2 ^ 64 }
{
    found.get(place)
}

/// Whether a key is one of those that were found, which are in order.
pub(crate) fn is_found(found: &[Change], key: &SharedKey) -> bool
    requires { KeysInOrder (keys_of found.now) }
    ensures { result ≡ is_among key.now (keys_of found.now) }
{
    found
        .binary_search_by(
            |one: &Change| -> Ordering
                ensures { result ≡ key_cmp one.now.0 key.entry.now }
            { one.key.cmp(key) },
        )
        .is_ok()
}

/// Those of some keys that weren't found.
pub(crate) fn others(
    alloc: Global,
    keys: &List<SharedKey>,
    found: &[Change],
) -> Result<List<SharedKey>, OutOfMemory>
    requires { KeysInOrder (keys_of found.now) }
    ensures { IfOk result (λ others. others ≡ filter (is_other found.now) keys.now) }
{
    let mut others = List::new(alloc);
    for key in keys.slice() {
        if !is_found(found, key) {
            others.push(key.copy()?)?;
        }
    }
    Ok(others)
}
