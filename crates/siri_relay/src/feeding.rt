//! What a producer is fed of a view.

ghost use Rattle.std.specs.Prelude.{◌≡◌, ◌++◌, [], ◌∷◌, map, true, IfOk, OnOk, OnErr};
ghost use Rattle.std.specs.Option.{option_map_or};
ghost use Rattle.siri_records.specs.Keyed.{InOrder};
ghost use Rattle.siri_change.specs.Changes.{changes};
ghost use Rattle.siri_change.specs.Parts.{carried};
ghost use Rattle.siri_model.specs.History.{Feed, Observed, Withdrawn, entries_of};
ghost use Rattle.siri_relay.specs.Feeds.{feeds_of, has_room, items_fed, removals_fed};
ghost use Rattle.siri_relay.specs.Goes.{GoesBy, GoesSome};
ghost use Rattle.siri_relay.specs.Named.{IsRound};

use crate::naming::changes_at;
use siri_base::{Copies, List, OutOfMemory};
use siri_change::{Change, View, changes};
use siri_messages::{FunctionalDelivery, ServiceDelivery};
use siri_producer::{MOST_LIVE, Producer};
use siri_records::{Key, SharedItem, SharedKey};
use siri_subscriptions::{items_in, removals_in};
use std::alloc::Global;

/// The two feeds of a view.
#[derive(Drop)]
struct Feeds {
    removals: ServiceDelivery,
    items: ServiceDelivery,
}

/// Feeds a producer what is missing of a view, removals first, by what it was fed last, and tells whether the view has
/// room there. All memory that it takes itself is taken before the first feed; after want of memory in a feed, that one
/// was taken in part.
pub(crate) fn feed_view(
    alloc: Global,
    producer: &mut Producer,
    fed: &mut View,
    view: &View,
    is_level: bool,
) -> Result<bool, OutOfMemory>
    ensures ok { OnOk result (GoesBy producer.old producer.new (feeds_of is_level fed.old view.now)) }
    ensures room { IfOk result (λ room. room ≡ has_room view.now) }
    ensures fed { OnOk result (fed.new ≡ view.now) }
    ensures err { OnErr result (GoesSome producer.old producer.new (feeds_of is_level fed.old view.now)) }
    ensures unfed { OnErr result (fed.new ≡ fed.old) }
    ensures order { InOrder view.now }
    ensures reads { producer.new.responder.reads ≡ producer.old.responder.reads }
{
    let has_room = view.len() <= MOST_LIVE;
    let feeds = feeds_of(alloc, fed, view, is_level)?;
    let copy = view.copy()?;
    feed_both(producer, feeds)?;
    *fed = copy;
    Ok(has_room)
}

/// The same of a view to which a round led that names these keys, where the producer has all of what was fed last: what is
/// missing are the round's changes, and no other keys are looked at. Want of memory may come after both feeds.
pub(crate) fn feed_round(
    alloc: Global,
    producer: &mut Producer,
    fed: &mut View,
    view: &View,
    named: &List<SharedKey>,
) -> Result<bool, OutOfMemory>
    requires { IsRound named.now fed.old view.now }
    ensures ok { OnOk result (GoesBy producer.old producer.new (feeds_of true fed.old view.now)) }
    ensures room { IfOk result (λ room. room ≡ has_room view.now) }
    ensures fed { OnOk result (fed.new ≡ view.now) }
    ensures err { OnErr result (GoesSome producer.old producer.new (feeds_of true fed.old view.now)) }
    ensures unfed { OnErr result (fed.new ≡ fed.old) }
    ensures reads { producer.new.responder.reads ≡ producer.old.responder.reads }
{
    let found = changes_at(alloc, fed, view, named)?;
    let Some(list) = found else {
        return feed_view(alloc, producer, fed, view, true);
    };
    let feeds = feeds_by(alloc, &list)?;
    feed_both(producer, feeds)?;
    fed.put_changes(list)?;
    Ok(view.len() <= MOST_LIVE)
}

/// The same of a view that is held, and of the empty one where none is.
pub(crate) fn feed_if_held(
    alloc: Global,
    producer: &mut Producer,
    fed: &mut View,
    view: Option<&View>,
    is_level: bool,
) -> Result<bool, OutOfMemory>
    ensures ok { OnOk result (GoesBy producer.old producer.new (feeds_of is_level fed.old (option_map_or (λ view. view.now) view.entry []))) }
    ensures room { IfOk result (λ room. room ≡ has_room (option_map_or (λ view. view.now) view.entry [])) }
    ensures fed { OnOk result (fed.new ≡ option_map_or (λ view. view.now) view.entry []) }
    ensures err { OnErr result (GoesSome producer.old producer.new (feeds_of is_level fed.old (option_map_or (λ view. view.now) view.entry []))) }
    ensures unfed { OnErr result (fed.new ≡ fed.old) }
    ensures reads { producer.new.responder.reads ≡ producer.old.responder.reads }
{
    match view {
        Some(view) => feed_view(alloc, producer, fed, view, is_level),
        None => feed_view(alloc, producer, fed, &View::new(alloc), is_level),
    }
}

/// What is missing of a view, as two deliveries.
fn feeds_of(alloc: Global, fed: &View, view: &View, is_level: bool) -> Result<Feeds, OutOfMemory>
    ensures removals { IfOk result (λ feeds. entries_of feeds.removals ≡ removals_fed fed.now view.now) }
    ensures items { IfOk result (λ feeds. entries_of feeds.items ≡ items_fed is_level fed.now view.now) }
{
    let list = changes(fed, view)?;
    let removals = delivery(alloc, List::new(alloc), removals_in(alloc, list.slice())?)?;
    let items = if is_level {
        items_in(alloc, list.slice())?
    } else {
        items_in(alloc, changes(&View::new(alloc), view)?.slice())?
    };
    let items = delivery(alloc, items, List::new(alloc))?;
    Ok(Feeds { removals, items })
}

/// Feeds a producer the removals, and then the items. After want of memory one of the two was taken in part.
fn feed_both(producer: &mut Producer, feeds: Feeds) -> Result<(), OutOfMemory>
    ensures ok { OnOk result (GoesBy producer.old producer.new (Feed (entries_of feeds.removals) ∷ Feed (entries_of feeds.items) ∷ [])) }
    ensures err { OnErr result (GoesSome producer.old producer.new (Feed (entries_of feeds.removals) ∷ Feed (entries_of feeds.items) ∷ [])) }
    ensures reads { producer.new.responder.reads ≡ producer.old.responder.reads }
{
    let Feeds { removals, items } = feeds;
    producer.feed_owned(removals)?;
    producer.feed_owned(items)?;
    Ok(())
}

/// Changes as two deliveries.
fn feeds_by(alloc: Global, list: &List<Change>) -> Result<Feeds, OutOfMemory>
    ensures removals { IfOk result (λ feeds. entries_of feeds.removals ≡ map Withdrawn (carried list.now).removals) }
    ensures items { IfOk result (λ feeds. entries_of feeds.items ≡ map Observed (carried list.now).items) }
{
    let removals = removals_in(alloc, list.slice())?;
    let removals = delivery(alloc, List::new(alloc), removals)?;
    let items = items_in(alloc, list.slice())?;
    let items = delivery(alloc, items, List::new(alloc))?;
    Ok(Feeds { removals, items })
}

/// A delivery of no round with these entries.
fn delivery(
    alloc: Global,
    items: List<SharedItem>,
    removals: List<Key>,
) -> Result<ServiceDelivery, OutOfMemory>
    ensures { IfOk result (λ delivery. entries_of delivery ≡ map Observed items ++ map Withdrawn removals) }
{
    let mut functional = FunctionalDelivery::blank(alloc);
    functional.items = items;
    functional.removals = removals;
    let mut delivery = ServiceDelivery::blank(alloc);
    delivery.stop_monitoring_delivery.push(functional)?;
    Ok(delivery)
}
