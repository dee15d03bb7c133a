//! A look at a subscription that was looked at before.

ghost use Rattle.std.specs.Prelude.{◌≡◌, ◌≤◌, ◌+◌, ◌++◌, [], ◌∷◌, None, length, map, nat_eq, ◌&&◌, option_map, not, filter, if◌then◌else◌, IfOk, OnOk, Some};
ghost use Rattle.std.specs.Map.{keys_of};
ghost use Rattle.siri_records.specs.KeyLists.{KeysInOrder, in_order};
ghost use Rattle.siri_records.specs.Keyed.{InOrder, apply};
ghost use Rattle.siri_records.specs.Near.{is_near};
ghost use Rattle.std.specs.Option.{option_eq};
ghost use Rattle.siri_change.specs.Changes as change;
ghost use Rattle.siri_change.specs.Looks.{AgreeOutside};
ghost use Rattle.siri_change.specs.Parts as part;
ghost use Rattle.siri_subs.specs.Lent.{entry_of};
ghost use Rattle.siri_model.specs.Direct.{direct_to, most_of, shown};
ghost use Rattle.siri_model.specs.Followed.{bound_since, complete_set};
ghost use Rattle.siri_model.specs.Looks.{changes_found, found_of, shown_if};
ghost use Rattle.siri_subscriptions.specs.Again.{AreLive, AreTouched, change_found, is_other, keys_looked_at, shown_again, shown_of};
ghost use Rattle.siri_subscriptions.specs.Courses.{kept_row};
ghost use Rattle.siri_subscriptions.specs.Due.{apart_at, IsFound};
ghost use Rattle.siri_subscriptions.specs.Looked.{FollowsLook, look_of};

use crate::course::{Course, Looked};
use crate::due::Seen;
use crate::limited::{has_limit, look_limited};
use crate::looks::{is_round_due, opening_of, whole};
use crate::touched::{Touched, is_found, merged, others};
use crate::{Finding, Opening};
use siri_base::{Copies, List, Moment, OutOfMemory, Span};
use siri_change::{Change, View};
use siri_records::{Item, SharedKey, near};
use siri_responder::Responder;
use siri_subs::Entry;
use siri_topic::{Subscription, Topic, shown};
use std::alloc::Global;
use std::collections::BTreeSet;
use std::rc::Rc;

/// Looks at a subscription of which no round is outstanding, after an earlier look: of the stored items it reads those
/// whose keys were touched since then and those of which an end of the topic's window passed an edge; and where a round
/// opens that has all items, those of its target; and where the topic has MaximumStopVisits and some of these may be shown
/// to it by their keys, the visits up to the last that is shown. Of the responder nothing but the counter of steps changes.
pub(crate) fn look_again(
    alloc: Global,
    responder: &mut Responder,
    entry: &Entry<'_, Course>,
    looked: &Looked,
    touched: &mut Touched,
) -> Result<Seen, OutOfMemory>
    requires level { (entry_of entry.now).slot.rounds.outstanding ≡ None }
    requires follows { FollowsLook responder.old (entry_of entry.now) looked.now }
    requires touched { AreTouched responder.old touched.old }
    ensures found { IfOk result (λ seen. IsFound responder.old.moment responder.old.held (entry_of entry.now) seen.finding) }
    ensures apart { IfOk result (λ seen. seen.apart ≡ apart_at responder.old.moment responder.old.held (entry_of entry.now)) }
    ensures touched { AreTouched responder.new touched.new }
    ensures rest { responder.new ≡ record responder.old { reads = responder.new.reads } }
    ensures risen { responder.old.reads ≤ responder.new.reads }
    ensures bound { responder.new.reads ≤ responder.old.reads + bound_since responder.old.moment responder.old.held (kept_row (entry_of entry.now)) (Some (look_of responder.old.marks looked.now)) }
{
    held_are_live(responder);
    touched.find(responder, looked.number)?;
    let crossed = responder.crossed(&entry.wanted.topic, looked.moment)?;
    let found = touched.asked(&entry.wanted.topic);
    if has_limit(&entry.wanted.topic) {
        return look_limited(alloc, responder, entry, looked, found, &crossed);
    }
    if crossed.len() == 0 {
        return look_by(alloc, responder, entry, looked, found);
    }
    let found = merged(alloc, found, &crossed)?;
    look_by(alloc, responder, entry, looked, found.slice())
}

/// A law, which does nothing when it is called: the items that are held are in order of key, and none is dead.
fn held_are_live(responder: &Responder)
    ensures { AreLive responder.now }
{
    let _ = responder.held();
}

/// A law: a view is in order of key.
pub(crate) fn view_is_in_order(view: &View)
    ensures { InOrder view.now }
{
    let _ = view.len();
}

/// Looks by the keys that may have changed, of what may be shown, with the item that is held of each, or none.
fn look_by(
    alloc: Global,
    responder: &mut Responder,
    entry: &Entry<'_, Course>,
    looked: &Looked,
    found: &[Change],
) -> Result<Seen, OutOfMemory>
    requires level { (entry_of entry.now).slot.rounds.outstanding ≡ None }
    requires follows { FollowsLook responder.old (entry_of entry.now) looked.now }
    requires live { AreLive responder.old }
    requires found { found.now ≡ found_of responder.old.held (keys_looked_at responder.old entry.now.wanted.now.topic looked.now) }
    requires limitless { most_of entry.now.wanted.now.topic ≡ None }
    ensures found { IfOk result (λ seen. IsFound responder.old.moment responder.old.held (entry_of entry.now) seen.finding) }
    ensures apart { IfOk result (λ seen. seen.apart ≡ apart_at responder.old.moment responder.old.held (entry_of entry.now)) }
    ensures rest { responder.new ≡ record responder.old { reads = responder.new.reads } }
    ensures risen { responder.old.reads ≤ responder.new.reads }
    ensures bound { responder.new.reads ≤ responder.old.reads + complete_set (kept_row (entry_of entry.now)) (direct_to responder.old.moment responder.old.held entry.now.wanted.now.topic) }
{
    let rounds = &entry.slot.rounds;
    view_is_in_order(rounds.acknowledged());
    let changes = changes_found(
        alloc,
        entry.wanted,
        responder.now(),
        rounds.acknowledged(),
        found,
    )?;
    let left = others(alloc, &looked.apart, found)?;
    let is_level = are_none(&changes, &left);
    if !is_round_due(rounds.last(), is_level) {
        let apart = keys_apart(alloc, &changes, &left)?;
        return Ok(Seen {
            finding: Finding {
                opening: None,
                is_level,
            },
            apart: Some(apart),
        });
    }
    let opening = opening(
        alloc,
        responder,
        entry.wanted,
        rounds.acknowledged(),
        found,
        changes,
    )?;
    Ok(Seen {
        finding: Finding {
            opening: Some(opening),
            is_level,
        },
        apart: Some(List::new(alloc)),
    })
}

/// Whether there are neither changes nor keys.
fn are_none(changes: &List<Change>, keys: &List<SharedKey>) -> bool
    ensures { result ≡ (nat_eq (length changes.now) 0 && nat_eq (length keys.now) 0) }
{
    changes.len() == 0 && keys.len() == 0
}

/// The changes of the keys that were found: of those on which a view and what was found disagree.
fn changes_found(
    alloc: Global,
    wanted: &Subscription,
    now: Moment,
    view: &View,
    found: &[Change],
) -> Result<List<Change>, OutOfMemory>
    ensures { IfOk result (λ list. list ≡ changes_found wanted.now.slack view.now wanted.now.topic now found.now) }
{
    let mut list = List::new(alloc);
    for one in found {
        match change_found(wanted, now, view, one)? {
            Some(change) => list.push(change)?,
            None => {}
        }
    }
    Ok(list)
}

/// The change of a key that was found, where a view and what was found disagree on it.
fn change_found(
    wanted: &Subscription,
    now: Moment,
    view: &View,
    found: &Change,
) -> Result<Option<Change>, OutOfMemory>
    ensures { IfOk result (λ change. change ≡ change_found wanted.now.slack view.now wanted.now.topic now found.now) }
{
    let item = shown_if(&wanted.topic, now, found.item.as_ref());
    if agree(view.get(found.key.key()), item, wanted.slack) {
        return Ok(None);
    }
    Ok(Some(change_to(&found.key, item)?))
}

/// An item where it is shown to a topic.
fn shown_if<'a>(topic: &Topic, now: Moment, item: Option<&'a Rc<Item>>) -> Option<&'a Rc<Item>>
    ensures { option_map (λ item. item.now.value) result ≡ shown_if topic.now now (option_map (λ item. item.now.value) item.entry) }
{
    match item {
        Some(item) if shown(topic, item, now) => Some(item),
        _ => None,
    }
}

/// Whether two items are near with a slack, or there are none.
fn agree(a: Option<&Rc<Item>>, b: Option<&Rc<Item>>, slack: Span) -> bool
    ensures { result ≡ option_eq (is_near slack) (option_map (λ item. item.now.value) a.entry) (option_map (λ item. item.now.value) b.entry) }
{
    match (a, b) {
        (Some(a), Some(b)) => near(a, b, slack),
        (None, None) => true,
        _ => false,
    }
}

/// The change of a key to an item, or to none.
fn change_to(key: &SharedKey, item: Option<&Rc<Item>>) -> Result<Change, OutOfMemory>
    ensures { IfOk result (λ change. change ≡ (key.now, option_map (λ item. item.now.value) item.entry)) }
{
    let item = match item {
        Some(item) => Some(item.clone()?),
        None => None,
    };
    Ok(Change {
        key: key.copy()?,
        item,
    })
}

/// The keys that are kept apart where no round opens: those of the changes and those that are left, in order.
pub(crate) fn keys_apart(
    alloc: Global,
    changes: &List<Change>,
    left: &List<SharedKey>,
) -> Result<List<SharedKey>, OutOfMemory>
    ensures { IfOk result (λ keys. keys ≡ in_order (keys_of changes.now ++ left.now)) }
{
    let mut keys = BTreeSet::new(alloc);
    for change in changes.slice() {
        keys.insert(change.key.copy()?)?;
    }
    for key in left.slice() {
        keys.insert(key.copy()?)?;
    }
    listed(alloc, keys)
}

/// Keys in order, as a list.
fn listed(alloc: Global, keys: BTreeSet<SharedKey>) -> Result<List<SharedKey>, OutOfMemory>
    ensures { IfOk result (λ list. list ≡ keys.keys) }
{
    let mut list = List::new(alloc);
    for key in keys {
        list.push(key)?;
    }
    Ok(list)
}

/// The round that is to open, by what was found and the changes of it: with incremental updates these changes, else all
/// that is shown.
fn opening(
    alloc: Global,
    responder: &mut Responder,
    wanted: &Subscription,
    view: &View,
    found: &[Change],
    changes: List<Change>,
) -> Result<Opening, OutOfMemory>
    requires live { AreLive responder.old }
    requires found { found.now ≡ found_of responder.old.held (keys_of found.now) }
    requires keys { KeysInOrder (keys_of found.now) }
    requires ordered { InOrder view.now }
    requires outside { AgreeOutside wanted.now.slack view.now (shown responder.old.moment responder.old.held wanted.now.topic) (keys_of found.now) }
    requires changes { changes ≡ changes_found wanted.now.slack view.now wanted.now.topic responder.old.moment found.now }
    ensures leads { IfOk result (λ opening. part.led_to view.now opening.incremental opening.changes ≡ change.target wanted.now.slack wanted.now.incremental view.now (shown responder.old.moment responder.old.held wanted.now.topic)) }
    ensures changes { IfOk result (λ opening. opening.changes ≡ part.load view.now (change.target wanted.now.slack wanted.now.incremental view.now (shown responder.old.moment responder.old.held wanted.now.topic)) wanted.now.incremental) }
    ensures fits { IfOk result (λ opening. length (part.base_view view.now opening.incremental) + length opening.changes ≤ opening.room) }
    ensures rest { responder.new ≡ record responder.old { reads = responder.new.reads } }
    ensures risen { responder.old.reads ≤ responder.new.reads }
    ensures reads { responder.new.reads ≤ responder.old.reads + (if not wanted.now.incremental then length (shown responder.old.moment responder.old.held wanted.now.topic) else 0) }
{
    if !wanted.incremental {
        let target = all_shown(alloc, responder, wanted, view, found)?;
        let changes = whole(alloc, &target)?;
        let opening = opening_of(wanted, view, changes)?;
        return Ok(opening);
    }
    let opening = opening_of(wanted, view, changes)?;
    Ok(opening)
}

/// All that is shown: of a view's keys that weren't found the item is read, and of the others it was found.
fn all_shown(
    alloc: Global,
    responder: &mut Responder,
    wanted: &Subscription,
    view: &View,
    found: &[Change],
) -> Result<View, OutOfMemory>
    requires keys { KeysInOrder (keys_of found.now) }
    ensures shown { IfOk result (λ items. items ≡ shown_again responder.old wanted.now.topic view.now found.now) }
    ensures rest { responder.new ≡ record responder.old { reads = responder.new.reads } }
    ensures risen { responder.old.reads ≤ responder.new.reads }
    ensures reads { responder.new.reads ≤ responder.old.reads + length (filter (is_other found.now) (keys_of view.now)) }
{
    let mut items = shown_others(alloc, responder, wanted, view, found)?;
    for one in found {
        let item = shown_if(&wanted.topic, responder.now(), one.item.as_ref());
        items.put_change(change_to(&one.key, item)?)?;
    }
    Ok(items)
}

/// The items that are shown of a view's keys that weren't found.
fn shown_others(
    alloc: Global,
    responder: &mut Responder,
    wanted: &Subscription,
    view: &View,
    found: &[Change],
) -> Result<View, OutOfMemory>
    requires keys { KeysInOrder (keys_of found.now) }
    ensures shown { IfOk result (λ items. items ≡ apply [] (map (shown_of responder.old wanted.now.topic) (filter (is_other found.now) (keys_of view.now)))) }
    ensures rest { responder.new ≡ record responder.old { reads = responder.new.reads } }
    ensures risen { responder.old.reads ≤ responder.new.reads }
    ensures reads { responder.new.reads ≤ responder.old.reads + length (filter (is_other found.now) (keys_of view.now)) }
{
    let mut items = View::new(alloc);
    let mut place = 0;
    loop {
        match view.entry(place) {
            None => return Ok(items),
            Some(entry) => put_other(&mut items, responder, wanted, found, &entry.0)?,
        }
        place += 1;
    }
}

/// Puts the item that is shown of a key, unless the key was found.
fn put_other(
    items: &mut View,
    responder: &mut Responder,
    wanted: &Subscription,
    found: &[Change],
    key: &SharedKey,
) -> Result<(), OutOfMemory>
    requires keys { KeysInOrder (keys_of found.now) }
    ensures ok { OnOk result (items.new ≡ apply items.old (map (shown_of responder.old wanted.now.topic) (filter (is_other found.now) (key.now ∷ [])))) }
    ensures rest { responder.new ≡ record responder.old { reads = responder.new.reads } }
    ensures risen { responder.old.reads ≤ responder.new.reads }
    ensures reads { responder.new.reads ≤ responder.old.reads + length (filter (is_other found.now) (key.now ∷ [])) }
{
    if !is_found(found, key) {
        items.put_change(shown_of(responder, wanted, key)?)?;
    }
    Ok(())
}

/// The item that is held of a key, where it is shown, as the change of the key to it; or to none.
fn shown_of(
    responder: &mut Responder,
    wanted: &Subscription,
    key: &SharedKey,
) -> Result<Change, OutOfMemory>
    ensures ok { IfOk result (λ change. change ≡ shown_of responder.old wanted.now.topic key.now) }
    ensures rest { responder.new ≡ record responder.old { reads = responder.new.reads } }
    ensures risen { responder.old.reads ≤ responder.new.reads }
    ensures reads { responder.new.reads ≤ responder.old.reads + 1 }
{
    let item = responder.item(key.key())?;
    let shown = shown_if(&wanted.topic, responder.now(), item.as_ref());
    change_to(key, shown)
}
