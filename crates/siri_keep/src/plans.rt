//! What is written of a call: puts that make of the rows what they are to be, and what is known of the rows after them.

ghost use Rattle.std.specs.Prelude.{◌≡◌, ◌≤◌, ◌++◌, ◌∷◌, [], false, length, map, option_map, flat_map, zip, IfOk, OnOk};
ghost use Rattle.std.specs.Map.{keys_of};
ghost use Rattle.siri_wire.specs.laws.ProperMessages.{IsProper};
ghost use Rattle.siri_records.specs.Keyed.{dead_of, item_of};
ghost use Rattle.siri_model.specs.Held.{held_of};
ghost use Rattle.siri_messages.specs.Rounds.{has_round};
ghost use Rattle.siri_messages.specs.declared.message.Message.TheVariants as messages;
ghost use Rattle.siri_model.specs.History.{Clock, Take, entries_fed};
ghost use Rattle.siri_subs.specs.Table.{most_subscriptions};
ghost use Rattle.siri_producer.specs.Holding.{subscribed_of};
ghost use Rattle.siri_producer.specs.Known.{AnswerFor, SameButReads};
ghost use Rattle.siri_row_texts.specs.ItemRows.{item_text};
ghost use Rattle.siri_outside.specs.Rows.{Rows, with_puts};
ghost use Rattle.siri_keeping.specs.Keeping.{kept_at, moment_put, places_to, removed_at, subscription_puts};
ghost use Rattle.siri_keep.specs.Calls.{LeavesLive};
ghost use Rattle.siri_keep.specs.Looks.{LooksTaking, LooksUpTo};
ghost use Rattle.siri_keep.specs.Puts.{changes_rows, has_long_row};
ghost use Rattle.siri_keep.specs.Planning.{Plans, PutsKeys, ReadsMoment};

use crate::Kept;
use crate::keys::{dead_keys, named_keys};
use siri_base::{Copies, List, Moment, OutOfMemory, beside};
use siri_messages::{Message, ServiceDelivery};
use siri_outside::Put;
use siri_producer::{Answer, Producer, Subscribed};
use siri_records::{Change, Item, Key, SharedItem, SharedKey};
use siri_row_texts::{item_text, key_text, moment_row, place_text, renewal_text, request_text};
use std::alloc::Global;
use std::rc::Rc;

/// The most rows of items, those of dead ones among them.
pub(crate) const MOST_ROWS: usize = 100_000;

/// An answer, and what is to be written before it is given.
#[derive(Drop)]
pub(crate) struct Planned {
    pub(crate) answer: Answer,
    pub(crate) puts: List<Put>,
}

/// Puts that a row has a text, or is no more.
fn append_put(
    into: &mut List<Put>,
    table: u8,
    key: &List<u8>,
    text: Option<List<u8>>,
) -> Result<(), OutOfMemory>
    ensures { OnOk result (into.new ≡ into.old ++ record { table = table; key = key.now; text = text } ∷ []) }
{
    let key = key.copy()?;
    into.push(Put { table, key, text })
}

/// Puts that a subscription has no rows at some places any more.
fn append_removed(into: &mut List<Put>, places: &[List<u8>]) -> Result<(), OutOfMemory>
    ensures { OnOk result (into.new ≡ into.old ++ flat_map removed_at places.now) }
{
    for place in places {
        append_put(into, 2, place, None)?;
        append_put(into, 3, place, None)?;
    }
    Ok(())
}

/// Puts that a subscription has its rows at a place.
fn append_kept(
    alloc: Global,
    into: &mut List<Put>,
    place: &List<u8>,
    row: &Subscribed<'_>,
) -> Result<(), OutOfMemory>
    ensures { OnOk result (into.new ≡ into.old ++ kept_at (place.now, subscribed_of row.now)) }
{
    let request = request_text(alloc, row.wanted, row.base, row.address, row.beat)?;
    append_put(into, 2, place, Some(request))?;
    let renewal = renewal_text(alloc, row.wanted, row.number, row.base)?;
    append_put(into, 3, place, renewal)
}

/// Puts that the subscriptions of a producer have their rows at the places from 1 on, and gives these.
fn append_subscriptions(
    alloc: Global,
    into: &mut List<Put>,
    producer: &Producer,
) -> Result<List<List<u8>>, OutOfMemory>
    ensures puts { OnOk result (into.new ≡ into.old ++ flat_map kept_at (zip (places_to (length producer.now.table)) (map held_of producer.now.table))) }
    ensures places { IfOk result (λ places. places ≡ places_to (length producer.now.table)) }
    ensures few { length producer.now.table ≤ most_subscriptions }
{
    let mut places = List::new(alloc);
    for at in 0..producer.subscriptions() {
        let Some(row) = producer.subscription(at) else {
            break;
        };
        let place = place_text(alloc, at as u64 + 1)?;
        append_kept(alloc, into, &place, &row)?;
        places.push(place)?;
    }
    Ok(places)
}

/// The live item of a key, shared.
#[tactic(auto, using(crate::proofs::Looks::looks_one))]
fn live_item(producer: &mut Producer, key: &Key) -> Result<Option<Rc<Item>>, OutOfMemory>
    ensures item { IfOk result (λ item. option_map (λ i. i.value) item ≡ item_of producer.old.responder.held key.now) }
    ensures rest { SameButReads producer.old producer.new }
    ensures looks { LooksUpTo producer.old producer.new 1 }
{
    match producer.look(key) {
        Some(item) => Ok(Some(item.clone()?)),
        None => Ok(None),
    }
}

/// The text of an item's row.
fn text_of(alloc: Global, item: &Option<Rc<Item>>) -> Result<Option<List<u8>>, OutOfMemory>
    ensures { IfOk result (λ text. text ≡ option_map (λ i. item_text i.value) item.now) }
{
    match item {
        Some(item) => {
            let shared = SharedItem::of(item.clone()?);
            Ok(Some(item_text(alloc, &shared)?))
        }
        None => Ok(None),
    }
}

impl Kept {
    /// Puts the row of the producer's moment.
    pub(crate) fn put_moment(&self, puts: &mut List<Put>) -> Result<(), OutOfMemory>
        ensures puts { OnOk result (puts.new ≡ puts.old ++ moment_put self.now.producer.responder.moment self.now.producer.responder.start self.now.producer.responder.name ∷ []) }
        ensures read { OnOk result (ReadsMoment self.now.producer.responder.moment self.now.producer.responder.start self.now.producer.responder.name) }
    {
        let producer = &self.producer;
        let text = moment_row(
            self.alloc,
            producer.now(),
            producer.start(),
            producer.name(),
        )?;
        puts.push(Put {
            table: 0,
            key: List::new(self.alloc),
            text: Some(text),
        })
    }

    /// Puts all rows of subscriptions: those that are there are removed, and the producer's have theirs from place 1 on.
    pub(crate) fn put_subscriptions(&mut self, puts: &mut List<Put>) -> Result<(), OutOfMemory>
        ensures puts { OnOk result (puts.new ≡ puts.old ++ subscription_puts self.old.places (map held_of self.old.producer.table)) }
        ensures kept { OnOk result (self.new ≡ record self.old { places = places_to (length self.old.producer.table) }) }
        ensures few { OnOk result (length self.old.producer.table ≤ most_subscriptions) }
        ensures open { self.new.is_closed ≡ self.old.is_closed }
        ensures producer { self.new.producer ≡ self.old.producer }
    {
        append_removed(puts, self.places.slice())?;
        self.places = append_subscriptions(self.alloc, puts, &self.producer)?;
        Ok(())
    }

    /// Puts the row of a key's live item, or none, and keeps the item or nothing of it.
    fn put_key(&mut self, key: &SharedKey, puts: &mut List<Put>) -> Result<(), OutOfMemory>
        ensures ok { OnOk result (PutsKeys self.old.producer.responder.held self.old self.new puts.old puts.new (key.now ∷ [])) }
        ensures open { self.new.is_closed ≡ self.old.is_closed }
        ensures looks { LooksUpTo self.old.producer self.new.producer 1 }
    {
        let item = live_item(&mut self.producer, key.key())?;
        let text = text_of(self.alloc, &item)?;
        let place = key_text(self.alloc, key.key())?;
        puts.push(Put {
            table: 1,
            key: place,
            text,
        })?;
        let key = key.copy()?;
        self.mirror.change(Change { key, item })
    }

    /// The same of some keys, one after the other.
    fn put_keys(&mut self, keys: &[SharedKey], puts: &mut List<Put>) -> Result<(), OutOfMemory>
        ensures ok { OnOk result (PutsKeys self.old.producer.responder.held self.old self.new puts.old puts.new keys.now) }
        ensures open { self.new.is_closed ≡ self.old.is_closed }
        ensures looks { LooksUpTo self.old.producer self.new.producer (length keys.now) }
    {
        for key in keys {
            self.put_key(key, puts)?;
        }
        Ok(())
    }

    /// Puts that a key has no row any more, and keeps nothing of it.
    fn remove_key(&mut self, key: &SharedKey, puts: &mut List<Put>) -> Result<(), OutOfMemory>
        ensures ok { OnOk result (PutsKeys [] self.old self.new puts.old puts.new (key.now ∷ [])) }
        ensures open { self.new.is_closed ≡ self.old.is_closed }
        ensures producer { self.new.producer ≡ self.old.producer }
    {
        let place = key_text(self.alloc, key.key())?;
        puts.push(Put {
            table: 1,
            key: place,
            text: None,
        })?;
        let key = key.copy()?;
        self.mirror.change(Change { key, item: None })
    }

    /// The same of some keys, one after the other.
    fn remove_keys(&mut self, keys: &[SharedKey], puts: &mut List<Put>) -> Result<(), OutOfMemory>
        ensures ok { OnOk result (PutsKeys [] self.old self.new puts.old puts.new keys.now) }
        ensures open { self.new.is_closed ≡ self.old.is_closed }
        ensures producer { self.new.producer ≡ self.old.producer }
    {
        for key in keys {
            self.remove_key(key, puts)?;
        }
        Ok(())
    }

    /// Puts that dead items have no row any more, and keeps nothing of them. None of them is looked up.
    fn put_dead(&mut self, puts: &mut List<Put>) -> Result<(), OutOfMemory>
        ensures ok { OnOk result (PutsKeys [] self.old self.new puts.old puts.new (keys_of (dead_of self.old.producer.responder.moment self.old.mirror))) }
        ensures open { self.new.is_closed ≡ self.old.is_closed }
        ensures producer { self.new.producer ≡ self.old.producer }
    {
        let keys = dead_keys(self.alloc, &self.mirror, self.producer.now())?;
        self.remove_keys(keys.slice(), puts)
    }

    /// What a later moment changes: the row of the moment, and the subscriptions where fewer are held.
    pub(crate) fn plan_clock(&mut self, now: Moment) -> Result<List<Put>, OutOfMemory>
        ensures ok { IfOk result (Plans self.old self.new (Clock now ∷ [])) }
        ensures open { self.new.is_closed ≡ self.old.is_closed }
        ensures looks { self.new.producer.responder.reads ≡ self.old.producer.responder.reads }
    {
        let before = self.producer.subscriptions();
        self.producer.clock(now);
        let mut puts = List::new(self.alloc);
        self.put_moment(&mut puts)?;
        if self.producer.subscriptions() < before {
            self.put_subscriptions(&mut puts)?;
        }
        Ok(puts)
    }

    /// What is removed where the dead items leave.
    pub(crate) fn plan_clean(&mut self) -> Result<List<Put>, OutOfMemory>
        ensures ok { IfOk result (Plans self.old self.new []) }
        ensures cleaned { IfOk result (λ puts. (rows : Rows) → LeavesLive self.old rows (with_puts rows puts)) }
        ensures open { self.new.is_closed ≡ self.old.is_closed }
        ensures producer { self.new.producer ≡ self.old.producer }
    {
        let mut puts = List::new(self.alloc);
        self.put_dead(&mut puts)?;
        Ok(puts)
    }

    /// A feed: the rows of the keys that it names. Where table 1 would have too many rows, those of dead items leave.
    #[tactic(auto, using(crate::proofs::Looks::looks_message, crate::proofs::Looks::looks_fed))]
    fn plan_feed(&mut self, delivery: ServiceDelivery) -> Result<Planned, OutOfMemory>
        requires fed { has_round delivery ≡ false }
        requires proper { IsProper (messages.ServiceDelivery delivery) }
        requires short { has_long_row (messages.ServiceDelivery delivery) ≡ false }
        ensures ok { IfOk result (λ planned. Plans self.old self.new (Take (messages.ServiceDelivery delivery) ∷ []) planned.puts) }
        ensures answer { IfOk result (λ planned. AnswerFor self.old.producer (messages.ServiceDelivery delivery) planned.answer) }
        ensures open { self.new.is_closed ≡ self.old.is_closed }
        ensures looks { LooksTaking self.old.producer self.new.producer (messages.ServiceDelivery delivery) }
    {
        let keys = named_keys(self.alloc, &delivery);
        let (keys, delivery) = beside(keys, delivery)?;
        let answer = self
            .producer
            .take_owned(Message::ServiceDelivery(delivery))?;
        let mut puts = List::new(self.alloc);
        self.put_keys(keys.slice(), &mut puts)?;
        if self.mirror.len() > MOST_ROWS {
            self.put_dead(&mut puts)?;
        }
        Ok(Planned { answer, puts })
    }

    /// A message about subscriptions: all their rows.
    #[tactic(auto, using(crate::proofs::Looks::looks_message))]
    fn plan_subscriptions(&mut self, message: Message) -> Result<Planned, OutOfMemory>
        requires fed { entries_fed message ≡ [] }
        requires proper { IsProper message }
        requires short { has_long_row message ≡ false }
        ensures ok { IfOk result (λ planned. Plans self.old self.new (Take message ∷ []) planned.puts) }
        ensures answer { IfOk result (λ planned. AnswerFor self.old.producer message planned.answer) }
        ensures open { self.new.is_closed ≡ self.old.is_closed }
        ensures looks { LooksTaking self.old.producer self.new.producer message }
    {
        let answer = self.producer.take_owned(message)?;
        let mut puts = List::new(self.alloc);
        self.put_subscriptions(&mut puts)?;
        Ok(Planned { answer, puts })
    }

    /// Any other message, which changes no row.
    #[tactic(auto, using(crate::proofs::Looks::looks_message))]
    fn plan_nothing(&mut self, message: Message) -> Result<Planned, OutOfMemory>
        requires proper { IsProper message }
        requires rowless { changes_rows message ≡ false }
        ensures ok { IfOk result (λ planned. Plans self.old self.new (Take message ∷ []) planned.puts) }
        ensures answer { IfOk result (λ planned. AnswerFor self.old.producer message planned.answer) }
        ensures open { self.new.is_closed ≡ self.old.is_closed }
        ensures looks { LooksTaking self.old.producer self.new.producer message }
    {
        let answer = self.producer.take_owned(message)?;
        let puts = List::new(self.alloc);
        Ok(Planned { answer, puts })
    }

    /// What a message changes.
    pub(crate) fn plan_take(&mut self, message: Message) -> Result<Planned, OutOfMemory>
        requires proper { IsProper message }
        requires short { has_long_row message ≡ false }
        ensures ok { IfOk result (λ planned. Plans self.old self.new (Take message ∷ []) planned.puts) }
        ensures answer { IfOk result (λ planned. AnswerFor self.old.producer message planned.answer) }
        ensures open { self.new.is_closed ≡ self.old.is_closed }
        ensures looks { LooksTaking self.old.producer self.new.producer message }
    {
        match &message {
            Message::ServiceDelivery(delivery) if !delivery.has_round() => {
                let Some(delivery) = message.into_service_delivery() else {
                    unreachable!()
                };
                self.plan_feed(delivery)
            }
            Message::SubscriptionRequest(_) | Message::TerminateSubscriptionRequest(_) => {
                self.plan_subscriptions(message)
            }
            Message::DataSupplyRequest(request) if request.all_data => {
                self.plan_subscriptions(message)
            }
            _ => self.plan_nothing(message),
        }
    }
}
