//! The relay.

ghost use Rattle.std.specs.Option.{option_map_or};
ghost use Rattle.std.specs.Prelude.{◌≡◌, ◌↔◌, ◌<◌, ◌≤◌, ◌+◌, [], ◌∷◌, true, false, Some, None, IsSome, IsOk, IfOk, IfSome, OnOk, OnErr, IsErrOf};
ghost use Rattle.siri_base.specs.Numbers.{greatest_number};
ghost use Rattle.siri_model.specs.Followed.{followed_of, look_bounds};
ghost use Rattle.siri_model.specs.History.{History, Start, Settle, current, now_of};
ghost use Rattle.siri_producer.specs.Known.{StandsFor, Follows, SameButReads, SendsFor};
ghost use Rattle.siri_records.specs.Keyed.{living};
ghost use Rattle.siri_relay.specs.declared.answers.OpenError.TheVariants.{Already, Ask};
ghost use Rattle.siri_relay.specs.Feeds.{feeds_of, has_room, through};
ghost use Rattle.siri_relay.specs.Goes.{GoesBy, GoesSome};
ghost use Rattle.siri_relay.specs.Named.{IsRound};
ghost use Rattle.siri_relay.specs.Relaying.{catch_up_steps, clock_steps, new_consumer, view_in, view_of};
ghost use Rattle.siri_relay.specs.Standing.{HoldsView};
ghost use Rattle.siri_view.specs.Consuming.{after_subscribe, clocked, request_for};
ghost use Rattle.siri_view.specs.declared.outcome.AskError.TheVariants.{NotHeld, Spent, TooMany};

use crate::OpenError;
use crate::feeding::{feed_if_held, feed_round};
use crate::naming::NamedKeys;
use siri_base::{Copies, GREATEST_NUMBER, List, Moment, Name, OutOfMemory, Span};
use siri_change::View;
use siri_messages::Message;
use siri_producer::{Out, Producer};
use siri_records::SharedKey;
use siri_topic::Subscription;
use siri_view::{AskError, Consumer};
use std::alloc::Global;
use std::marker::Model;

/// A relay, with a name, under which it subscribes to its source and serves its own subscribers. It has a consumer of one
/// upstream subscription and a producer, which is fed what the consumer's view has.
pub struct Relay {
    pub(crate) alloc: Global,
    pub(crate) producer: Producer,
    pub(crate) consumer: Consumer,
    // The identifier of the upstream subscription, once it was asked for.
    pub(crate) upstream: Option<Name>,
    // The view that the producer was fed last.
    pub(crate) fed: View,
    pub(crate) is_level: bool,
}

impl Drop for Relay {
    fn drop(self) {
        let Relay {
            alloc: _,
            producer: _,
            consumer: _,
            upstream: _,
            fed: _,
            is_level: _,
        } = self;
    }
}

impl Model for Relay {
    ghost use Rattle.siri_relay.specs.Relaying.{KnownRelay};
    ghost use Rattle.siri_relay.specs.Standing.{IsRelay};

    ghost Value = { KnownRelay };

    ghost view = { λ r. record { producer = r.producer; consumer = r.consumer; upstream = r.upstream; fed = r.fed; level = r.is_level } };

    ghost invariant = { λ r. IsRelay (record { producer = r.producer; consumer = r.consumer; upstream = r.upstream; fed = r.fed; level = r.is_level }) };
}

impl Relay {
    /// A relay at its start, of a number from 1 to 999,999,999,999,999,999; the first request to its source has a number
    /// of that range, too. Its address is where the source's deliveries reach it. It holds nothing, and is level.
    pub fn new(
        alloc: Global,
        name: Name,
        address: Option<Name>,
        start: u64,
        first: u64,
        now: Moment,
    ) -> Result<Relay, OutOfMemory>
        requires start_from_one { 1 ≤ start }
        requires start_to_eighteen_digits { start ≤ greatest_number }
        requires first_from_one { 1 ≤ first }
        requires first_to_eighteen_digits { first ≤ greatest_number }
        ensures stands { IfOk result (λ relay. StandsFor relay.producer (Start start now ∷ [])) }
        ensures follows { IfOk result (λ relay. Follows relay.producer (Start start now ∷ [])) }
        ensures name { IfOk result (λ relay. relay.producer.responder.name ≡ name) }
        ensures consumer { IfOk result (λ relay. relay.consumer ≡ new_consumer name address first now) }
        ensures upstream { IfOk result (λ relay. relay.upstream ≡ None) }
        ensures fed { IfOk result (λ relay. relay.fed ≡ []) }
        ensures level { IfOk result (λ relay. relay.level ≡ true) }
    {
        let own = name.copy()?;
        let producer = Producer::new(alloc, name, start, now)?;
        let mut consumer = Consumer::new(alloc, own, address, first)?;
        consumer.clock(now);
        Ok(Relay {
            alloc,
            producer,
            consumer,
            upstream: None,
            fed: View::new(alloc),
            is_level: true,
        })
    }

    /// Subscribes to the source under the next number (SubscriptionRequest, EN 15531-2), with an interval of heartbeats
    /// in milliseconds; zero isn't written. A relay does so once.
    ///
    /// `Already` exactly where it did before, and otherwise `Spent` exactly where the number would pass
    /// 999,999,999,999,999,999. After a refusal or want of memory the relay is as before.
    pub fn open(&mut self, wanted: &Subscription, beat: Span) -> Result<Message, OpenError>
        ensures request { IfOk result (λ message. message ≡ request_for self.old.consumer (wanted.now ∷ []) beat) }
        ensures ok { OnOk result (self.new ≡ record self.old { consumer = after_subscribe self.old.consumer (wanted.now ∷ []) beat; upstream = Some wanted.now.identifier }) }
        // When each of these comes.
        ensures already { IsErrOf result Already ↔ IsSome self.old.upstream }
        ensures spent { IsErrOf result (Ask Spent) ↔ ((self.old.upstream ≡ None) × (greatest_number < self.old.consumer.next_number)) }
        ensures not_others { (IsErrOf result (Ask TooMany) → ⊥) × (IsErrOf result (Ask NotHeld) → ⊥) }
        ensures refused { OnErr result (self.new ≡ self.old) }
    {
        if self.upstream.is_some() {
            return Err(OpenError::Already);
        }
        if self.consumer.next_number() > GREATEST_NUMBER {
            return Err(OpenError::Ask(AskError::Spent));
        }
        let identifier = wanted.identifier.copy()?;
        let mut list = List::new(self.alloc);
        list.push(wanted.copy()?)?;
        let request = self.consumer.subscribe(&list, beat)?;
        self.upstream = Some(identifier);
        Ok(request)
    }

    /// Feeds what is missing, and then the moment of both ends becomes the later one; the producer's dead items leave,
    /// and subscriptions whose termination time has come. It takes memory only where the relay isn't level.
    ///
    /// After want of memory the producer was fed some of what is missing, and the relay isn't level.
    pub fn clock(&mut self, now: Moment) -> Result<(), OutOfMemory>
        ensures producer { OnOk result (GoesBy self.old.producer self.new.producer (clock_steps self.old now)) }
        ensures consumer { OnOk result (self.new.consumer ≡ clocked self.old.consumer now) }
        ensures level { OnOk result (self.new.level ≡ has_room (view_of self.new)) }
        ensures fed { OnOk result (self.new.fed ≡ view_of self.new) }
        ensures level_is_ok { self.old.level ≡ true → IsOk result }
        ensures behind { OnErr result (GoesSome self.old.producer self.new.producer (catch_up_steps self.old)) }
        ensures rest { OnErr result (self.new ≡ record self.old { producer = self.new.producer }) }
        ensures upstream { self.new.upstream ≡ self.old.upstream }
    {
        self.catch_up()?;
        self.producer.clock(now);
        self.consumer.clock(now);
        Ok(())
    }

    /// Feeds what is missing, where anything is.
    pub(crate) fn catch_up(&mut self) -> Result<(), OutOfMemory>
        ensures producer { OnOk result (GoesBy self.old.producer self.new.producer (catch_up_steps self.old)) }
        ensures ok { OnOk result (self.new ≡ record self.old { producer = self.new.producer; fed = view_of self.old; level = has_room (view_of self.old) }) }
        ensures level_is_ok { self.old.level ≡ true → IsOk result }
        ensures behind { OnErr result (GoesSome self.old.producer self.new.producer (catch_up_steps self.old)) }
        ensures rest { OnErr result (self.new ≡ record self.old { producer = self.new.producer }) }
        ensures reads { self.new.producer.responder.reads ≡ self.old.producer.responder.reads }
    {
        if self.is_level {
            return Ok(());
        }
        self.feed_view(false)
    }

    /// Feeds what is missing of the view, by what was fed last: all of which the producer holds, or maybe not.
    pub(crate) fn feed_view(&mut self, is_level: bool) -> Result<(), OutOfMemory>
        requires level { self.old.level ≡ false }
        requires held { is_level ≡ true → HoldsView self.old.producer self.old.fed }
        ensures producer { OnOk result (GoesBy self.old.producer self.new.producer (feeds_of is_level self.old.fed (view_of self.old))) }
        ensures ok { OnOk result (self.new ≡ record self.old { producer = self.new.producer; fed = view_of self.old; level = has_room (view_of self.old) }) }
        ensures behind { OnErr result (GoesSome self.old.producer self.new.producer (feeds_of is_level self.old.fed (view_of self.old))) }
        ensures rest { OnErr result (self.new ≡ record self.old { producer = self.new.producer }) }
        ensures reads { self.new.producer.responder.reads ≡ self.old.producer.responder.reads }
    {
        let alloc = self.alloc;
        let view = upstream_view(&self.consumer, &self.upstream);
        let room = feed_if_held(alloc, &mut self.producer, &mut self.fed, view, is_level)?;
        self.is_level = room;
        Ok(())
    }

    /// Feeds the changes of a round, which led to the view from what was fed last: by the keys that it names, where the
    /// producer holds all of that and they are known.
    pub(crate) fn feed_applied(
        &mut self,
        is_level: bool,
        named: &NamedKeys,
    ) -> Result<(), OutOfMemory>
        requires level { self.old.level ≡ false }
        requires held { is_level ≡ true → HoldsView self.old.producer self.old.fed }
        requires named { IfSome named.now.keys (λ keys. IsRound keys self.old.fed (view_of self.old)) }
        ensures producer { OnOk result (GoesBy self.old.producer self.new.producer (feeds_of is_level self.old.fed (view_of self.old))) }
        ensures ok { OnOk result (self.new ≡ record self.old { producer = self.new.producer; fed = view_of self.old; level = has_room (view_of self.old) }) }
        ensures behind { OnErr result (GoesSome self.old.producer self.new.producer (feeds_of is_level self.old.fed (view_of self.old))) }
        ensures rest { OnErr result (self.new ≡ record self.old { producer = self.new.producer }) }
        ensures reads { self.new.producer.responder.reads ≡ self.old.producer.responder.reads }
    {
        match &named.keys {
            Some(keys) if is_level => self.feed_round(keys),
            _ => self.feed_view(is_level),
        }
    }

    /// The same where the producer holds all of what was fed last, by the keys that the round names.
    fn feed_round(&mut self, named: &List<SharedKey>) -> Result<(), OutOfMemory>
        requires level { self.old.level ≡ false }
        requires held { HoldsView self.old.producer self.old.fed }
        requires named { IsRound named.now self.old.fed (view_of self.old) }
        ensures producer { OnOk result (GoesBy self.old.producer self.new.producer (feeds_of true self.old.fed (view_of self.old))) }
        ensures ok { OnOk result (self.new ≡ record self.old { producer = self.new.producer; fed = view_of self.old; level = has_room (view_of self.old) }) }
        ensures behind { OnErr result (GoesSome self.old.producer self.new.producer (feeds_of true self.old.fed (view_of self.old))) }
        ensures rest { OnErr result (self.new ≡ record self.old { producer = self.new.producer }) }
        ensures reads { self.new.producer.responder.reads ≡ self.old.producer.responder.reads }
    {
        let alloc = self.alloc;
        let Some(view) = upstream_view(&self.consumer, &self.upstream) else {
            return self.feed_view(true);
        };
        let room = feed_round(alloc, &mut self.producer, &mut self.fed, view, named)?;
        self.is_level = room;
        Ok(())
    }

    /// The end of an event: each subscription in the order of the producer's table looks whether a round is due and opens
    /// it, and what is due is sent: the message of its wanted part, and then a heartbeat. Nothing of what is missing is
    /// fed. After want of memory nothing but the producer's counter of steps changed.
    pub fn settle(&mut self) -> Result<List<Out>, OutOfMemory>
        ensures ok { OnOk result (GoesBy self.old.producer self.new.producer (Settle ∷ [])) }
        ensures sends { IfOk result (SendsFor self.old.producer) }
        ensures err { OnErr result (SameButReads self.old.producer self.new.producer) }
        ensures risen { self.old.producer.responder.reads ≤ self.new.producer.responder.reads }
        ensures bound { (h : History) → Follows self.old.producer h
            → self.new.producer.responder.reads ≤ self.old.producer.responder.reads + look_bounds (now_of h) (living (now_of h) (current h)) (followed_of h) }
        ensures rest { self.new ≡ record self.old { producer = self.new.producer } }
    {
        self.producer.settle()
    }

    /// Its producer.
    pub fn producer(&self) -> &Producer
        ensures { result.now ≡ self.now.producer }
    {
        &self.producer
    }

    /// Its consumer.
    pub fn consumer(&self) -> &Consumer
        ensures { result.now ≡ self.now.consumer }
    {
        &self.consumer
    }

    /// Whether the producer has all that it is to have of the view: then its live items are those of the view that aren't
    /// dead at its moment. A new relay is level; so is one after each `clock` and `take` that answers Ok while the view
    /// has at most 20,000 items.
    pub fn level(&self) -> bool
        ensures value { result ≡ self.now.level }
        ensures through { result ≡ true → (h : History) → StandsFor self.now.producer h
            → living (now_of h) (current h) ≡ through (view_of self.now) (now_of h) }
        ensures stands { (h : History) × StandsFor self.now.producer h }
    {
        self.is_level
    }
}

/// The view of a consumer's subscription, where one was asked for and is held.
fn upstream_view<'a>(consumer: &'a Consumer, upstream: &'a Option<Name>) -> Option<&'a View>
    ensures { option_map_or (λ view. view.now) result [] ≡ view_in upstream.now consumer.now }
{
    consumer.view(upstream.as_ref()?)
}
