//! The direct response to a topic, with keys.

ghost use Rattle.std.specs.Prelude.{◌≡◌, ◌+◌, ◌≤◌, length, IfOk, Some};
ghost use Rattle.siri_model.specs.Direct.{direct_to, most_of};
ghost use Rattle.siri_store.specs.Candidates.{candidates};
ghost use Rattle.siri_responder.specs.Firsts.{AreWithin};

use crate::answers::most_of;
use crate::looks::{in_order, put_all};
use siri_base::OutOfMemory;
use siri_records::KeyedItems;
use siri_store::Store;
use siri_topic::Topic;
use std::alloc::Global;
use std::collections::BTreeMap;

/// The direct response to a topic, in order of key. Nothing but the counter changes.
pub(crate) fn direct_to(
    alloc: Global,
    store: &mut Store,
    topic: &Topic,
) -> Result<KeyedItems, OutOfMemory>
    ensures ok { IfOk result (λ items. items ≡ direct_to store.old.moment store.old.entries topic.now) }
    ensures rest { store.new ≡ record store.old { reads = store.new.reads } }
    ensures risen { store.old.reads ≤ store.new.reads }
    ensures reads { store.new.reads ≤ store.old.reads + length store.old.entries }
    ensures asked { store.new.reads ≤ store.old.reads + length (candidates topic.now store.old.entries) }
    ensures first { AreWithin store.old.moment (candidates topic.now store.old.entries) topic.now store.old.reads store.new.reads }
{
    match most_of(topic) {
        Some(most) => first_to(alloc, store, topic, most),
        None => store.shown_entries(alloc, topic),
    }
}

/// The first so many visits that are shown to a topic, in order of key: those of its stop are looked at by entry and then
/// key, until so many were shown.
fn first_to(
    alloc: Global,
    store: &mut Store,
    topic: &Topic,
    most: u64,
) -> Result<KeyedItems, OutOfMemory>
    requires { most_of topic.now ≡ Some most }
    ensures ok { IfOk result (λ items. items ≡ direct_to store.old.moment store.old.entries topic.now) }
    ensures rest { store.new ≡ record store.old { reads = store.new.reads } }
    ensures risen { store.old.reads ≤ store.new.reads }
    ensures reads { store.new.reads ≤ store.old.reads + length store.old.entries }
    ensures asked { store.new.reads ≤ store.old.reads + length (candidates topic.now store.old.entries) }
    ensures first { AreWithin store.old.moment (candidates topic.now store.old.entries) topic.now store.old.reads store.new.reads }
{
    let _ = store.held(); // the items are in order of key
    let first = store.first_shown(alloc, topic, most)?;
    let mut found = BTreeMap::new(alloc);
    put_all(first, &mut found)?;
    in_order(alloc, found)
}
