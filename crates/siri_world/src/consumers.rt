//! The consumers of a world.

ghost use Rattle.std.specs.Prelude.{◌≡◌, ◌<◌, [], ◌∷◌, length, position, option_map, IfOk, OnOk};
ghost use Rattle.siri_life.specs.Named as named;
ghost use Rattle.siri_view.specs.Consuming.{Consuming, after_message, after_subscribe, after_terminate, request_for, seen_of, termination_of};
ghost use Rattle.siri_world_model.specs.Consumers.{all_clocked, consumer_of, consumer_or_new, is_named, new_consumer, with_consumer};
ghost use Rattle.siri_world_model.specs.Effects.{ask_refusal};
ghost use Rattle.siri_world.specs.Asking.{MakesRequest, Restarts, termination_refusal};
ghost use Rattle.siri_world.specs.Places.{IsAt, IsPlaceOf};

use indexmap::IndexMap;
use siri_base::{Copies, List, Moment, Name, OutOfMemory, Span};
use siri_messages::Message;
use siri_topic::Subscription;
use siri_view::{AskError, Consumer, Seen};
use std::alloc::Global;
use std::marker::Model;

/// The most consumers that are made.
pub(crate) const MOST_CONSUMERS: usize = 16;

/// Consumers by their names, in order of first use.
pub(crate) struct Consumers {
    map: IndexMap<String, Consumer>,
}

impl Drop for Consumers {
    fn drop(self) {
        let Consumers { map: _ } = self;
    }
}

impl Model for Consumers {
    ghost use Rattle.std.specs.Prelude.{List};
    ghost use Rattle.indexmap.specs.IndexMap.{values};
    ghost use Rattle.siri_view.specs.Consuming.{Consuming};
    ghost use Rattle.siri_world.specs.Named.{AreNamed};

    ghost Value = { List Consuming };

    ghost view = { λ c. values c.map };

    ghost invariant = { λ c. AreNamed c.map.entries };
}

impl Consumers {
    /// None was made. It takes no memory.
    pub(crate) fn new(alloc: Global) -> Consumers
        ensures { result ≡ [] }
    {
        Consumers {
            map: IndexMap::new(alloc),
        }
    }

    /// How many were made.
    pub(crate) fn len(&self) -> usize
        ensures { result ≡ length self.now }
    {
        self.map.len()
    }

    /// The consumer of a name.
    pub(crate) fn get(&self, name: &Name) -> Option<&Consumer>
        ensures { option_map (λ consumer. consumer.now) result ≡ consumer_of name.now self.now }
    {
        self.map.get(name.text())
    }

    /// Where the consumer of a name stands, counted from 0.
    pub(crate) fn place_of(&self, name: &Name) -> Option<usize>
        ensures { IsPlaceOf name.now self.now result }
    {
        self.position(name)
    }

    /// Where the consumer of a name stands in the map, whose order is that of their first use.
    fn position(&self, name: &Name) -> Option<usize>
        ensures { result ≡ position (is_named name.now) self.now }
    {
        self.map.get_index_of(name.text())
    }

    /// Where the consumer of a name stands, which is made where there is none.
    pub(crate) fn place_or_new(
        &mut self,
        alloc: Global,
        name: &Name,
        moment: Moment,
    ) -> Result<usize, OutOfMemory>
        ensures place { IfOk result (λ place. IsAt name.now self.new place (consumer_or_new moment name.now (consumer_of name.now self.old))) }
        ensures ok { OnOk result (self.new ≡ with_consumer (consumer_or_new moment name.now (consumer_of name.now self.old)) self.old) }
    {
        match self.place_of(name) {
            Some(place) => Ok(place),
            None => {
                let key = String::from_str(alloc, name.text())?;
                self.map.insert(key, new_consumer(alloc, name, moment)?)?;
                Ok(self.map.len() - 1)
            }
        }
    }

    /// The moments of all become the later. It takes no memory.
    pub(crate) fn clock(&mut self, now: Moment)
        ensures { self.new ≡ all_clocked now self.old }
    {
        for place in 0..self.map.len() {
            self.map[place].clock(now);
        }
    }

    /// The consumer at a place asks for a subscription. After want of memory all is as before.
    pub(crate) fn subscribe(
        &mut self,
        place: usize,
        wanted: &Subscription,
        beat: Span,
    ) -> Result<Message, AskError>
        requires { place < length self.old }
        ensures { (name : named.Name) (c : Consuming) → IsAt name self.old place c
            → MakesRequest (ask_refusal c wanted.now) (request_for c (wanted.now ∷ []) beat) (after_subscribe c (wanted.now ∷ []) beat) self.old result self.new }
    {
        let wanted = list_of(*self.map.allocator(), wanted)?;
        let consumer = &mut self.map[place];
        consumer.subscribe(&wanted, beat)
    }

    /// The consumer at a place ends what it holds. After want of memory all is as before.
    pub(crate) fn terminate(&mut self, place: usize, identifier: &Name) -> Result<Message, AskError>
        requires { place < length self.old }
        ensures { (name : named.Name) (c : Consuming) → IsAt name self.old place c
            → MakesRequest (termination_refusal c identifier.now) (termination_of c identifier.now) (after_terminate c identifier.now) self.old result self.new }
    {
        let consumer = &mut self.map[place];
        consumer.terminate(identifier)
    }

    /// The consumer at a place restarts. After want of memory all is as before.
    pub(crate) fn restart(&mut self, place: usize) -> Result<List<Message>, AskError>
        requires { place < length self.old }
        ensures { (name : named.Name) (c : Consuming) → IsAt name self.old place c → Restarts c self.old result self.new }
    {
        let consumer = &mut self.map[place];
        consumer.restart()
    }

    /// The consumer at a place takes a message.
    pub(crate) fn take(&mut self, place: usize, message: &Message) -> Result<Seen, OutOfMemory>
        requires { place < length self.old }
        ensures seen { IfOk result (λ seen. (name : named.Name) (c : Consuming) → IsAt name self.old place c → seen ≡ seen_of c message.now) }
        ensures ok { OnOk result ((name : named.Name) (c : Consuming) → IsAt name self.old place c → self.new ≡ with_consumer (after_message c message.now) self.old) }
    {
        let consumer = &mut self.map[place];
        consumer.take(message)
    }
}

/// A consumer at its first use.
fn new_consumer(alloc: Global, name: &Name, moment: Moment) -> Result<Consumer, OutOfMemory>
    ensures { IfOk result (λ consumer. consumer ≡ new_consumer name.now moment) }
{
    let mut consumer = Consumer::new(alloc, name.copy()?, None, 1)?;
    consumer.clock(moment);
    Ok(consumer)
}

/// The list of one subscription.
fn list_of(alloc: Global, wanted: &Subscription) -> Result<List<Subscription>, OutOfMemory>
    ensures { IfOk result (λ list. list ≡ wanted.now ∷ []) }
{
    let mut list = List::new(alloc);
    list.push(wanted.copy()?)?;
    Ok(list)
}
