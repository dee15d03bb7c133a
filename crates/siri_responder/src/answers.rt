//! Answers to requests.

ghost use Rattle.std.specs.Prelude.{◌≡◌, ◌+◌, ◌*◌, ◌≤◌, IfOk, length, map};
ghost use Rattle.siri_model.specs.Direct as direct;

use crate::soonest::{shared, soonest};
use siri_base::{List, OutOfMemory};
use siri_messages::FunctionalDelivery;
use siri_records::SharedItem;
use siri_store::Store;
use siri_topic::Topic;
use std::alloc::Global;

/// One functional delivery for each topic, in their order. Nothing but the counter changes.
pub(crate) fn answer_all(
    alloc: Global,
    store: &mut Store,
    topics: &List<Topic>,
) -> Result<List<FunctionalDelivery>, OutOfMemory>
    ensures ok { IfOk result (λ answers. answers ≡ map (direct.answer store.old.moment store.old.entries) topics.now) }
    ensures rest { store.new ≡ record store.old { reads = store.new.reads } }
    ensures risen { store.old.reads ≤ store.new.reads }
    ensures reads { store.new.reads ≤ store.old.reads + length store.old.entries * length topics.now }
{
    let mut answers = List::new(alloc);
    for topic in topics.slice() {
        let delivery = answer(alloc, store, topic)?;
        answers.push(delivery)?;
    }
    Ok(answers)
}

/// The moment, Status and the items.
#[tactic(auto, unfolding(siri_model::specs::Direct::answer))]
fn answer(
    alloc: Global,
    store: &mut Store,
    topic: &Topic,
) -> Result<FunctionalDelivery, OutOfMemory>
    ensures ok { IfOk result (λ answer. answer ≡ direct.answer store.old.moment store.old.entries topic.now) }
    ensures rest { store.new ≡ record store.old { reads = store.new.reads } }
    ensures risen { store.old.reads ≤ store.new.reads }
    ensures reads { store.new.reads ≤ store.old.reads + length store.old.entries }
{
    let items = answering(alloc, store, topic)?;
    Ok(FunctionalDelivery {
        response_timestamp: Some(store.now()),
        subscriber_ref: None,
        subscription_ref: None,
        status: true,
        error_condition: None,
        start: None,
        round: None,
        part: None,
        items,
        removals: List::new(alloc),
    })
}

/// The items that answer a topic, in order of key, shared with the store.
fn answering(
    alloc: Global,
    store: &mut Store,
    topic: &Topic,
) -> Result<List<SharedItem>, OutOfMemory>
    ensures ok { IfOk result (λ items. items ≡ direct.answering store.old.moment store.old.entries topic.now) }
    ensures rest { store.new ≡ record store.old { reads = store.new.reads } }
    ensures risen { store.old.reads ≤ store.new.reads }
    ensures reads { store.new.reads ≤ store.old.reads + length store.old.entries }
{
    let shown = store.shown(alloc, topic)?;
    match most_of(topic) {
        Some(most) => soonest(alloc, &shown, most),
        None => shared(alloc, &shown),
    }
}

/// MaximumStopVisits, where the topic has it.
pub(crate) fn most_of(topic: &Topic) -> Option<u64>
    ensures { result ≡ direct.most_of topic.now }
{
    match topic {
        Topic::Stop(topic) => topic.maximum_stop_visits,
        _ => None,
    }
}
