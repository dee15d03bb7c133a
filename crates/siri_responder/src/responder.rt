//! The responder.

ghost use Rattle.std.specs.Prelude.{◌≡◌, ◌+◌, ◌*◌, ◌^◌, ◌<◌, ◌≤◌, [], ◌∷◌, length, map, filter, nat_lt, is_some, option_map, IfOk, IfSome, OnOk, OnErr, ⊤};
ghost use Rattle.std.specs.Map.{keys_of};
ghost use Rattle.siri_records.specs.Keyed.{InOrder, dead_of, item_of, most_live};
ghost use Rattle.siri_store.specs.Marked.{IsLast, SameFrom, is_since, keys_since, unmarked};
ghost use Rattle.siri_model.specs.Looks.{crossed_items, found_of};
ghost use Rattle.siri_model.specs.Followed.{items_passed};
ghost use Rattle.siri_responder.specs.Topics.{topics_in};
ghost use Rattle.siri_model.specs.Direct.{direct_to, response, shown};
ghost use Rattle.siri_responder.specs.Firsts.{AreWithin};
ghost use Rattle.siri_model.specs.History.{History, Start, Clock, Feed, IsKeyed, entries_of};
ghost use Rattle.siri_model.specs.Last.{entry_key};
ghost use Rattle.siri_responder.specs.Known.{StandsFor, GoesOn, Touches, TookSome, CountsFor, ResponseFor};
ghost use Rattle.siri_base.specs.Numbers.{greatest_number};
ghost use mathlib.Core.Option.{none};
ghost use Rattle.std.specs.Borrow.{sem, follows, follows_so};
ghost use Rattle.siri_store.specs.Candidates.{candidates};
ghost use Rattle.siri_store.specs.Held.{counted};
ghost use Rattle.siri_store.specs.Walk.{to_lend};
ghost use Rattle.siri_store.specs.contracts.counter.Counter.{the_row as counter_row};
ghost use Rattle.siri_responder.specs.contracts.responder.Responder.{the_row};

use crate::directs::direct_to;
use crate::feeding::{Fed, Feeding};
use crate::looks::{crossed, found, held_item};
use crate::response::response_to;
use siri_base::{List, Moment, Name, OutOfMemory};
use siri_messages::{ServiceDelivery, ServiceRequest};
use siri_records::{Change, Item, Key, KeyedItems};
use siri_store::{Marks, Selected, Store};
use siri_topic::Topic;
use std::alloc::Global;
use std::marker::Model;
use std::rc::Rc;

/// A producer without its subscriptions, with a name, the number of its start and the moment of it, which is its
/// ServiceStartedTime: it is fed, and answers requests. It has a moment, which is the greatest that it was given, and
/// holds the current items that aren't dead then.
pub struct Responder {
    alloc: Global,
    name: Name,
    start: u64,
    started: Moment,
    feeding: Feeding,
}

impl Drop for Responder {
    fn drop(self) {
        let Responder {
            alloc: _,
            name: _,
            start: _,
            started: _,
            feeding: _,
        } = self;
    }
}

impl Model for Responder {
    ghost use Rattle.siri_responder.specs.Known.{Known};
    ghost use Rattle.siri_responder.specs.Standing.{HasHistory};
    ghost use Rattle.siri_responder.specs.Feeding.{HasRoom};
    ghost use Rattle.siri_store.specs.Calls.{NoneDead};

    ghost Value = { Known };

    ghost view = { λ p. record { name = p.name; start = p.start; started = p.started; moment = p.feeding.store.moment; held = p.feeding.store.entries; reads = p.feeding.store.reads; marks = p.feeding.marks } };

    ghost invariant = { λ p. record { alive : NoneDead p.feeding.store; room : HasRoom p.feeding; stands : HasHistory p.start p.started p.feeding.store.moment p.feeding.store.entries } };
}

impl Responder {
    /// A responder at its start, of a number from 1 to 999,999,999,999,999,999. It holds nothing.
    pub fn new(alloc: Global, name: Name, start: u64, now: Moment) -> Result<Responder, OutOfMemory>
        requires from_one { 1 ≤ start }
        requires to_eighteen_digits { start ≤ greatest_number }
        ensures stands { IfOk result (λ responder. StandsFor responder (Start start now ∷ [])) }
        ensures name { IfOk result (λ responder. responder.name ≡ name) }
        ensures reads { IfOk result (λ responder. responder.reads ≡ 0) }
        ensures marks { IfOk result (λ responder. responder.marks ≡ unmarked) }
    {
        Ok(Responder {
            alloc,
            name,
            start,
            started: now,
            feeding: Feeding::new(Store::new(alloc, now)?, Marks::new(alloc)),
        })
    }

    /// Its moment becomes the later one, and dead items leave, each with its key marked. It takes no memory.
    pub fn clock(&mut self, now: Moment)
        ensures stands { GoesOn self.old self.new (Clock now) }
        ensures touched { Touches self.old self.new (keys_of (dead_of self.new.moment self.old.held)) }
        ensures name { self.new.name ≡ self.old.name }
        ensures reads { self.new.reads ≡ self.old.reads }
    {
        self.feeding.store.advance(now);
        self.feeding.expire();
    }

    /// Takes the items and removals of a delivery, in the order Stop Monitoring, Estimated Timetable, Vehicle
    /// Monitoring, Situation Exchange, delivery by delivery, items before removals, and tells how many. Its items are
    /// kept and none is copied. After want of memory the entries before the refused one stand.
    pub fn feed(&mut self, delivery: ServiceDelivery) -> Result<Fed, OutOfMemory>
        ensures ok { OnOk result (GoesOn self.old self.new (Feed (entries_of delivery))) }
        ensures touched { OnOk result (Touches self.old self.new (map entry_key (entries_of delivery))) }
        ensures counts { IfOk result (CountsFor self.old (entries_of delivery)) }
        ensures err { OnErr result (TookSome self.old self.new (entries_of delivery)) }
        ensures name { self.new.name ≡ self.old.name }
        ensures reads { self.new.reads ≡ self.old.reads }
    {
        self.feeding.begin();
        self.feeding.feed(self.alloc, delivery)?;
        Ok(self.feeding.fed)
    }

    /// The direct response to a request: one functional delivery for each of its topics, in the order Stop Monitoring,
    /// Estimated Timetable, Vehicle Monitoring, Situation Exchange and in each list's order. Nothing but the counter
    /// changes, and that rises by at most as many steps as items are held, for each topic.
    pub fn direct(&mut self, request: &ServiceRequest) -> Result<ServiceDelivery, OutOfMemory>
        ensures ok { IfOk result (ResponseFor self.old request.now) }
        ensures held { IfOk result (λ delivery. delivery ≡ response self.old.name self.old.moment self.old.held request.now) }
        ensures rest { self.new ≡ record self.old { reads = self.new.reads } }
        ensures risen { self.old.reads ≤ self.new.reads }
        ensures reads { self.new.reads ≤ self.old.reads + length self.old.held * topics_in request.now }
    {
        response_to(self.alloc, &mut self.feeding.store, &self.name, request)
    }

    /// Lends the items that are shown to a topic, in order of key, each the shared item itself. The walk looks at no more
    /// items than are held, and each that it looks at is a step of the counter. The responder holds still as long as the
    /// walk is alive, and after it nothing but the counter has changed.
    pub fn lend<'a>(&'a mut self, topic: &'a Topic) -> Selected<'a>
        ensures* keeps { sem 𝓛 (follows the_row counter_row self.entry.ghost_name result.counter.ghost_name (λ steps. record self.old { reads = steps })) }
        ensures counter { result.counter.now ≡ self.old.reads }
        ensures lends { to_lend result ≡ map (λ entry. entry.1) (shown self.old.moment self.old.held topic.now) }
        ensures within { (result.place ≤ result.end) × (result.end ≤ length self.old.held) }
    {
        self.feeding.store.select(topic)
    }

    /// The direct response to a topic, in order of key. Nothing but the counter changes, and that rises by at most as many
    /// steps as items are held that may be shown to the topic by their keys; where it has MaximumStopVisits, by no more than
    /// those visits of its stop whose entry is in its window and that come, by entry and then key, up to the last of the
    /// response.
    pub fn direct_to(&mut self, topic: &Topic) -> Result<KeyedItems, OutOfMemory>
        ensures ok { IfOk result (λ items. items ≡ direct_to self.old.moment self.old.held topic.now) }
        ensures rest { self.new ≡ record self.old { reads = self.new.reads } }
        ensures risen { self.old.reads ≤ self.new.reads }
        ensures reads { self.new.reads ≤ self.old.reads + length self.old.held }
        ensures asked { self.new.reads ≤ self.old.reads + length (candidates topic.now self.old.held) }
        ensures first { AreWithin self.old.moment (candidates topic.now self.old.held) topic.now self.old.reads self.new.reads }
    {
        direct_to(self.alloc, &mut self.feeding.store, topic)
    }

    /// Of each key that was marked under a number or a later one, in order, the item that is held of it, or none.
    /// Nothing but the counter changes, and that rises by at most a step a key.
    pub fn marked(&mut self, number: u64) -> Result<List<Change>, OutOfMemory>
        ensures ok { IfOk result (λ found. found ≡ found_of self.old.held (keys_since self.old.marks.log number)) }
        ensures rest { self.new ≡ record self.old { reads = self.new.reads } }
        ensures risen { self.old.reads ≤ self.new.reads }
        ensures reads { self.new.reads ≤ self.old.reads + length (keys_since self.old.marks.log number) }
    {
        let keys = self.feeding.marks.since(self.alloc, number)?;
        found(self.alloc, &mut self.feeding.store, keys)
    }

    /// The held items that may be shown to a topic by their keys and of which an end of its window passed an edge since a
    /// moment, such that they may be shown now and weren't then, or were and aren't; in order of key. Nothing but the
    /// counter changes, and that rises by at most a step for each item that may be shown to the topic by its key and of
    /// which the near end passed an edge, and for each of which the far end did.
    pub fn crossed(&mut self, topic: &Topic, before: Moment) -> Result<KeyedItems, OutOfMemory>
        ensures ok { IfOk result (λ items. items ≡ candidates topic.now (crossed_items topic.now before self.old.moment self.old.held)) }
        ensures rest { self.new ≡ record self.old { reads = self.new.reads } }
        ensures risen { self.old.reads ≤ self.new.reads }
        ensures reads { self.new.reads ≤ self.old.reads + items_passed topic.now (candidates topic.now self.old.held) before self.old.moment }
    {
        crossed(self.alloc, &mut self.feeding.store, topic, before)
    }

    /// The item that is held of a key, or none. Nothing but the counter changes, and that rises by at most one step.
    pub fn item(&mut self, key: &Key) -> Result<Option<Rc<Item>>, OutOfMemory>
        ensures ok { IfOk result (λ item. option_map (λ item. item.value) item ≡ item_of self.old.held key.now) }
        ensures rest { self.new ≡ record self.old { reads = self.new.reads } }
        ensures risen { self.old.reads ≤ self.new.reads }
        ensures reads { self.new.reads ≤ self.old.reads + 1 }
    {
        held_item(&mut self.feeding.store, key)
    }

    /// The item that is held of a key, lent, or none. It takes one step of the counter and no memory, and nothing else
    /// changes.
    pub fn look(&mut self, key: &Key) -> Option<&Rc<Item>>
        ensures* step { sem 𝓛 (follows_so the_row the_row self.entry.ghost_name none (λ _ _. ⊤) (λ new. new ≡ record self.old { reads = counted self.old.reads 1 })) }
        ensures item { option_map (λ item. item.now.value) result ≡ item_of self.old.held key.now }
    {
        self.feeding.store.look(key)
    }

    /// The number under which keys are marked now.
    pub fn number(&self) -> u64
        ensures { result ≡ self.now.marks.number }
    {
        self.feeding.marks.number()
    }

    /// From now on keys are marked under the next number. Marks before a number go, since they are asked for no more. It
    /// takes no memory.
    pub fn turn(&mut self, oldest: u64)
        requires { self.old.marks.number + 1 < 2 ^ 64 }
        ensures number { self.new.marks.number ≡ self.old.marks.number + 1 }
        ensures log { self.new.marks.log ≡ filter (is_since oldest) self.old.marks.log }
        ensures same { SameFrom oldest self.old.marks self.new.marks }
        ensures fresh { keys_since self.new.marks.log self.new.marks.number ≡ [] }
        ensures rest { self.new ≡ record self.old { marks = self.new.marks } }
    {
        self.feeding.marks.turn();
        self.feeding.marks.forget(oldest);
    }

    /// Where there are more marks than so many, of each key the last mark, with room for one of each item that is held.
    pub fn last_marks(&self, most: usize) -> Result<Option<Marks>, OutOfMemory>
        ensures some { IfOk result (λ last. is_some last ≡ nat_lt most (length self.now.marks.log)) }
        ensures last { IfOk result (λ last. IfSome last (IsLast self.now.marks (length self.now.held))) }
    {
        if self.feeding.marks.len() <= most {
            return Ok(None);
        }
        let last = self.feeding.marks.last(self.feeding.store.held())?;
        Ok(Some(last))
    }

    /// These marks are its own from now on, in the place of those that it has; of them those under a number or a later
    /// one, since others are asked for no more. It takes no memory.
    pub fn put_marks(&mut self, marks: Marks, number: u64)
        requires earlier { marks.number ≤ self.old.marks.number }
        requires room { length self.old.held ≤ marks.room }
        ensures log { self.new.marks.log ≡ filter (is_since number) marks.log }
        ensures number { self.new.marks.number ≡ self.old.marks.number }
        ensures rest { self.new ≡ record self.old { marks = self.new.marks } }
    {
        self.feeding.marks.put(marks);
        self.feeding.marks.forget(number);
    }

    /// Its name.
    pub fn name(&self) -> &Name
        ensures { result.now ≡ self.now.name }
    {
        &self.name
    }

    /// The number of its start.
    pub fn start(&self) -> u64
        ensures { result ≡ self.now.start }
    {
        self.start
    }

    /// Its ServiceStartedTime.
    pub fn started(&self) -> Moment
        ensures { result ≡ self.now.started }
    {
        self.started
    }

    /// Its moment, which is the greatest that it was given.
    pub fn now(&self) -> Moment
        ensures { result ≡ self.now.moment }
    {
        self.feeding.store.now()
    }

    /// How many items it holds, in order of key, each once and under its own key, at most 20,000. There is a history
    /// that the responder stands for.
    pub fn held(&self) -> usize
        ensures number { result ≡ length self.now.held }
        // What holds of every responder: a call that changes nothing lets its callers know.
        ensures stands { (h : History) × StandsFor self.now h }
        ensures in_order { InOrder self.now.held }
        ensures keyed { IsKeyed self.now.held }
        ensures few { length self.now.held ≤ most_live }
    {
        self.feeding.store.held()
    }

    /// The steps that its store counted: held items that were looked at. It is 0 at first and never falls.
    pub fn reads(&self) -> u64
        ensures { result ≡ self.now.reads }
    {
        self.feeding.store.reads()
    }
}
