//! A look at the whole direct response, and a later look at a subscription whose topic has MaximumStopVisits.

ghost use Rattle.std.specs.Prelude.{◌≡◌, ◌≤◌, ◌+◌, ◌==◌, ◌&&◌, nat_eq, length, if◌then◌else◌, true, [], None, Some, is_some, IfOk};
ghost use Rattle.std.specs.Map.{keys_of};
ghost use Rattle.siri_model.specs.Direct.{most_of};
ghost use Rattle.siri_model.specs.Followed.{asked_since, first_visits, keys_apart};
ghost use Rattle.siri_model.specs.Looks.{found_of};
ghost use Rattle.siri_store.specs.Candidates.{candidates};
ghost use Rattle.siri_responder.specs.Firsts.{AreWithin};
ghost use Rattle.siri_subs.specs.Lent.{entry_of};
ghost use Rattle.siri_subscriptions.specs.Again.{AreLive, crossed_since, touched_keys};
ghost use Rattle.siri_subscriptions.specs.Due.{apart_at, IsFound};
ghost use Rattle.siri_subscriptions.specs.Looked.{FollowsLook, look_of};

use crate::again::{keys_apart, view_is_in_order};
use crate::course::{Course, Looked};
use crate::due::Seen;
use crate::{Finding, look};
use siri_base::{Copies, List, OutOfMemory, Span};
use siri_change::{Change, View, changes, target};
use siri_records::{KeyedItems, SharedKey};
use siri_responder::Responder;
use siri_subs::Entry;
use siri_topic::Topic;
use std::alloc::Global;

/// Whether a topic has MaximumStopVisits.
pub(crate) fn has_limit(topic: &Topic) -> bool
    ensures { result ≡ is_some (most_of topic.now) }
{
    match topic {
        Topic::Stop(topic) => topic.maximum_stop_visits.is_some(),
        _ => false,
    }
}

/// Looks at such a subscription again, by the keys that were touched since the last look, with the item that is held of
/// each or none, and by the items of which an end of the topic's window passed an edge; of both those alone that may be
/// shown to the topic by their keys. Where there are neither, nothing is read. Else the direct response is looked at whole:
/// where one visit leaves it, another may come that wasn't touched.
pub(crate) fn look_limited(
    alloc: Global,
    responder: &mut Responder,
    entry: &Entry<'_, Course>,
    looked: &Looked,
    found: &[Change],
    crossed: &KeyedItems,
) -> Result<Seen, OutOfMemory>
    requires level { (entry_of entry.now).slot.rounds.outstanding ≡ None }
    requires limit { is_some (most_of entry.now.wanted.now.topic) ≡ true }
    requires follows { FollowsLook responder.old (entry_of entry.now) looked.now }
    requires live { AreLive responder.old }
    requires found { found.now ≡ found_of responder.old.held (touched_keys responder.old entry.now.wanted.now.topic looked.now) }
    requires crossed { crossed.now ≡ crossed_since responder.old entry.now.wanted.now.topic looked.now }
    ensures found { IfOk result (λ seen. IsFound responder.old.moment responder.old.held (entry_of entry.now) seen.finding) }
    ensures apart { IfOk result (λ seen. seen.apart ≡ apart_at responder.old.moment responder.old.held (entry_of entry.now)) }
    ensures rest { responder.new ≡ record responder.old { reads = responder.new.reads } }
    ensures risen { responder.old.reads ≤ responder.new.reads }
    ensures bound { responder.new.reads ≤ responder.old.reads + (if asked_since responder.old.moment responder.old.held entry.now.wanted.now.topic (look_of responder.old.marks looked.now) == 0 then 0 else first_visits responder.old.moment (candidates entry.now.wanted.now.topic responder.old.held) entry.now.wanted.now.topic (most_of entry.now.wanted.now.topic)) }
{
    if are_none(found, crossed) {
        return look_still(alloc, responder, entry, looked);
    }
    look_whole(alloc, responder, entry)
}

/// Whether no key was found, and no item crossed.
fn are_none(found: &[Change], crossed: &KeyedItems) -> bool
    ensures { result ≡ (nat_eq (length found.now) 0 && nat_eq (length crossed.now) 0) }
{
    found.len() == 0 && crossed.len() == 0
}

/// Looks where nothing may have changed that is held of a key whose item may be shown, and no such item was crossed: the
/// direct response is as it was.
fn look_still(
    alloc: Global,
    responder: &Responder,
    entry: &Entry<'_, Course>,
    looked: &Looked,
) -> Result<Seen, OutOfMemory>
    requires level { (entry_of entry.now).slot.rounds.outstanding ≡ None }
    requires follows { FollowsLook responder.now (entry_of entry.now) looked.now }
    requires live { AreLive responder.now }
    requires untouched { touched_keys responder.now entry.now.wanted.now.topic looked.now ≡ [] }
    requires uncrossed { crossed_since responder.now entry.now.wanted.now.topic looked.now ≡ [] }
    ensures found { IfOk result (λ seen. IsFound responder.now.moment responder.now.held (entry_of entry.now) seen.finding) }
    ensures apart { IfOk result (λ seen. seen.apart ≡ apart_at responder.now.moment responder.now.held (entry_of entry.now)) }
{
    view_is_in_order(entry.slot.rounds.acknowledged());
    let is_level = looked.apart.len() == 0;
    let apart = keys_apart(alloc, &List::new(alloc), &looked.apart)?;
    Ok(Seen {
        finding: Finding {
            opening: None,
            is_level,
        },
        apart: Some(apart),
    })
}

/// Looks at the whole direct response: at the first look at a subscription, where the last one counts no more, and where
/// something may have changed of a topic that has MaximumStopVisits.
pub(crate) fn look_whole(
    alloc: Global,
    responder: &mut Responder,
    entry: &Entry<'_, Course>,
) -> Result<Seen, OutOfMemory>
    requires level { (entry_of entry.now).slot.rounds.outstanding ≡ None }
    ensures found { IfOk result (λ seen. IsFound responder.old.moment responder.old.held (entry_of entry.now) seen.finding) }
    ensures apart { IfOk result (λ seen. seen.apart ≡ apart_at responder.old.moment responder.old.held (entry_of entry.now)) }
    ensures rest { responder.new ≡ record responder.old { reads = responder.new.reads } }
    ensures risen { responder.old.reads ≤ responder.new.reads }
    ensures asked { responder.new.reads ≤ responder.old.reads + length (candidates entry.now.wanted.now.topic responder.old.held) }
    ensures first { AreWithin responder.old.moment (candidates entry.now.wanted.now.topic responder.old.held) entry.now.wanted.now.topic responder.old.reads responder.new.reads }
{
    let rounds = &entry.slot.rounds;
    let items = responder.direct_to(&entry.wanted.topic)?;
    let direct = View::of(items);
    let finding = look(alloc, entry.wanted, rounds, &direct)?;
    let apart = apart_after(
        alloc,
        &finding,
        rounds.acknowledged(),
        &direct,
        entry.wanted.slack,
    )?;
    Ok(Seen {
        finding,
        apart: Some(apart),
    })
}

/// The keys that are kept apart after a look: none where a round opens, else those on which the view and the direct
/// response don't agree.
fn apart_after(
    alloc: Global,
    finding: &Finding,
    view: &View,
    direct: &View,
    slack: Span,
) -> Result<List<SharedKey>, OutOfMemory>
    ensures { IfOk result (λ keys. keys ≡ (if is_some finding.now.opening then [] else keys_apart slack view.now direct.now)) }
{
    if finding.opening.is_some() {
        return Ok(List::new(alloc));
    }
    unlike(alloc, view, direct, slack)
}

/// The keys on which a view and a direct response don't agree, in order.
fn unlike(
    alloc: Global,
    view: &View,
    direct: &View,
    slack: Span,
) -> Result<List<SharedKey>, OutOfMemory>
    ensures { IfOk result (λ keys. keys ≡ keys_apart slack view.now direct.now) }
{
    view_is_in_order(view);
    view_is_in_order(direct);
    let target = target(view, direct, slack, true)?;
    let changes = changes(view, &target)?;
    let keys = keys_in(alloc, &changes)?;
    Ok(keys)
}

/// The keys that change.
fn keys_in(alloc: Global, changes: &List<Change>) -> Result<List<SharedKey>, OutOfMemory>
    ensures { IfOk result (λ keys. keys ≡ keys_of changes.now) }
{
    let mut keys = List::new(alloc);
    for change in changes.slice() {
        keys.push(change.key.copy()?)?;
    }
    Ok(keys)
}
