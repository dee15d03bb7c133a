//! The producer.

ghost use Rattle.std.specs.Prelude.{◌≡◌, ◌+◌, ◌*◌, ◌≤◌, [], ◌∷◌, length, IfOk, OnOk, OnErr};
ghost use Rattle.siri_responder.specs.Topics.{topics_in};
ghost use Rattle.siri_model.specs.Followed.{followed_of, look_bounds};
ghost use Rattle.siri_model.specs.History.{History, Start, Clock, Feed, Take, Settle, current, entries_of, now_of};
ghost use Rattle.siri_model.specs.Lives.{quiet_number};
ghost use Rattle.siri_producer.specs.Forgets.{Forgets};
ghost use Rattle.siri_producer.specs.Quiet.{is_quiet};
ghost use Rattle.siri_producer.specs.Known.{StandsFor, Follows, GoesOn, TookSome, CountsFor, ResponseFor, AnswerFor, RefusedAt, SameButReads, SendsFor};
ghost use Rattle.siri_producer.specs.Reads.{ReadsFor};
ghost use Rattle.siri_records.specs.Keyed.{living, most_live};
ghost use Rattle.siri_base.specs.Numbers.{greatest_number};
ghost use Rattle.siri_subs.specs.Table.{most_subscriptions};

use crate::leaving::{MOST_MARKS, leave, oldest_look};
use crate::{Answer, Fed, Out};
use siri_base::{Copies, List, Moment, Name, OutOfMemory};
use siri_messages::{Message, ServiceDelivery, ServiceRequest};
use siri_responder::Responder;
use siri_subs::Table;
use siri_subscriptions::{Course, settle};
use std::alloc::Global;
use std::marker::Model;

/// A producer, with a name, the number of its start and the moment of it, which is its ServiceStartedTime. It has a
/// moment, which is the greatest that it was given, holds the current items that aren't dead then, and keeps at most
/// 200 subscriptions, each with its rounds.
pub struct Producer {
    pub(crate) alloc: Global,
    pub(crate) responder: Responder,
    pub(crate) table: Table<Course>,
    pub(crate) is_settled: bool,
}

impl Drop for Producer {
    fn drop(self) {
        let Producer {
            alloc: _,
            responder: _,
            table: _,
            is_settled: _,
        } = self;
    }
}

impl Model for Producer {
    ghost use Rattle.siri_subscriptions.specs.Courses.{kept_rows};
    ghost use Rattle.siri_producer.specs.Known.{Known};
    ghost use Rattle.siri_producer.specs.Standing.{IsProducer, looks_in, numbers_in};

    ghost Value = { Known };

    ghost view = { λ p. record { responder = p.responder; table = kept_rows p.table; looks = looks_in p.responder.marks p.table; numbers = numbers_in p.table; is_settled = p.is_settled } };

    ghost invariant = { λ p. IsProducer p.responder p.table p.is_settled };
}

impl Producer {
    /// A producer at its start, of a number from 1 to 999,999,999,999,999,999. It holds nothing, and no subscription.
    pub fn new(alloc: Global, name: Name, start: u64, now: Moment) -> Result<Producer, OutOfMemory>
        requires from_one { 1 ≤ start }
        requires to_eighteen_digits { start ≤ greatest_number }
        ensures stands { IfOk result (λ producer. StandsFor producer (Start start now ∷ [])) }
        ensures follows { IfOk result (λ producer. Follows producer (Start start now ∷ [])) }
        ensures name { IfOk result (λ producer. producer.responder.name ≡ name) }
        ensures reads { IfOk result (λ producer. producer.responder.reads ≡ 0) }
    {
        Ok(Producer {
            alloc,
            responder: Responder::new(alloc, name, start, now)?,
            table: Table::new(alloc)?,
            is_settled: false,
        })
    }

    /// Its moment becomes the later one; dead items leave, and subscriptions whose termination time has come. It takes
    /// no memory.
    pub fn clock(&mut self, now: Moment)
        ensures stands { GoesOn self.old self.new (Clock now) }
        ensures name { self.new.responder.name ≡ self.old.responder.name }
        ensures reads { self.new.responder.reads ≡ self.old.responder.reads }
    {
        self.is_settled = false;
        self.responder.clock(now);
        self.table.expire(self.responder.now());
    }

    /// Takes the items and removals of a delivery, in the order Stop Monitoring, Estimated Timetable, Vehicle
    /// Monitoring, Situation Exchange, delivery by delivery, items before removals, and tells how many. The delivery is
    /// copied first, so that its items can be kept. After want of memory the entries before the refused one stand, and none
    /// of them where it was wanting for the copy.
    pub fn feed(&mut self, delivery: &ServiceDelivery) -> Result<Fed, OutOfMemory>
        ensures ok { OnOk result (GoesOn self.old self.new (Feed (entries_of delivery.now))) }
        ensures counts { IfOk result (CountsFor self.old (entries_of delivery.now)) }
        ensures err { OnErr result (TookSome self.old self.new (entries_of delivery.now)) }
        ensures name { self.new.responder.name ≡ self.old.responder.name }
        ensures reads { self.new.responder.reads ≡ self.old.responder.reads }
    {
        self.is_settled = false;
        let delivery = delivery.copy()?;
        self.responder.feed(delivery)
    }

    /// As `feed`, of a delivery that is handed over: its items are kept and none is copied.
    pub fn feed_owned(&mut self, delivery: ServiceDelivery) -> Result<Fed, OutOfMemory>
        ensures ok { OnOk result (GoesOn self.old self.new (Feed (entries_of delivery))) }
        ensures counts { IfOk result (CountsFor self.old (entries_of delivery)) }
        ensures err { OnErr result (TookSome self.old self.new (entries_of delivery)) }
        ensures name { self.new.responder.name ≡ self.old.responder.name }
        ensures reads { self.new.responder.reads ≡ self.old.responder.reads }
    {
        self.is_settled = false;
        self.responder.feed(delivery)
    }

    /// The direct response to a request: one functional delivery for each of its topics, in the order Stop Monitoring,
    /// Estimated Timetable, Vehicle Monitoring, Situation Exchange and in each list's order. Nothing but the counter
    /// changes, and that rises by at most as many steps as items are held, for each topic.
    pub fn direct(&mut self, request: &ServiceRequest) -> Result<ServiceDelivery, OutOfMemory>
        ensures ok { IfOk result (ResponseFor self.old request.now) }
        ensures rest { SameButReads self.old self.new }
        ensures risen { self.old.responder.reads ≤ self.new.responder.reads }
        ensures reads { self.new.responder.reads ≤ self.old.responder.reads + length self.old.responder.held * topics_in request.now }
    {
        self.responder.direct(request)
    }

    /// Takes a message, and answers what became of it, with the reply. A ServiceDelivery of no round is a feed; after
    /// want of memory its entries before the refused one stand, none of them where it was wanting for the copy, and all of
    /// them where only the reply found none. After want of memory for any other message nothing but the counter of steps
    /// changed. The counter rises for a ServiceRequest alone, as `direct` says: by at most as many steps as items are held,
    /// for each topic.
    ///
    /// A feed is copied first, so that its items can be kept; `take_owned` takes one that is handed over.
    pub fn take(&mut self, message: &Message) -> Result<Answer, OutOfMemory>
        ensures ok { OnOk result (GoesOn self.old self.new (Take message.now)) }
        ensures answer { IfOk result (AnswerFor self.old message.now) }
        ensures err { OnErr result (RefusedAt self.old self.new message.now) }
        ensures name { self.new.responder.name ≡ self.old.responder.name }
        ensures risen { self.old.responder.reads ≤ self.new.responder.reads }
        ensures reads { ReadsFor self.old self.new message.now }
    {
        match message {
            Message::ServiceRequest(request) => self.take_service_request(request),
            Message::SubscriptionRequest(request) => self.take_subscriptions(request),
            Message::TerminateSubscriptionRequest(request) => self.take_terminations(request),
            Message::DataSupplyRequest(request) => self.take_supply_request(request),
            Message::DataReceivedAcknowledgement(message) => Ok(self.take_acknowledgement(message)),
            Message::CheckStatusRequest(request) => self.take_status_request(request),
            Message::ServiceDelivery(delivery) => self.take_lent_delivery(delivery),
            _ => Ok(self.ignore()),
        }
    }

    /// As `take`, of a message that is handed over: the items of a feed are kept and none is copied.
    pub fn take_owned(&mut self, message: Message) -> Result<Answer, OutOfMemory>
        ensures ok { OnOk result (GoesOn self.old self.new (Take message)) }
        ensures answer { IfOk result (AnswerFor self.old message) }
        ensures err { OnErr result (RefusedAt self.old self.new message) }
        ensures name { self.new.responder.name ≡ self.old.responder.name }
        ensures risen { self.old.responder.reads ≤ self.new.responder.reads }
        ensures reads { ReadsFor self.old self.new message }
    {
        if let Message::ServiceDelivery(_) = &message {
            let Some(delivery) = message.into_service_delivery() else {
                unreachable!()
            };
            return self.take_delivery(delivery);
        }
        let answer = self.take(&message);
        drop(message);
        answer
    }

    /// The end of an event: each subscription in the order of the table looks whether a round is due and opens it, and
    /// what is due is sent: the message of its wanted part, and then a heartbeat. All memory is taken before anything
    /// changes, so after want of memory nothing but the counter of steps did. That rises, also then, by at most the sum
    /// of what each subscription may look at: nothing while a round is outstanding, all held items at its first look,
    /// and then the keys that were touched since its last look, the items of which an end of its window passed an edge
    /// since then, and the target of a complete set. It keeps no mark of a key that was touched before the oldest of the
    /// last looks, and at most 40,000: where there are more, of each key the last, and a look since which 20,000 keys or
    /// more were touched is let go, so that the next one goes over what is held, which is no more. After the greatest
    /// number of settles, 2^64 - 1, it always answers `OutOfMemory`.
    pub fn settle(&mut self) -> Result<List<Out>, OutOfMemory>
        ensures ok { OnOk result (GoesOn self.old self.new Settle) }
        ensures sends { IfOk result (SendsFor self.old) }
        ensures forgets { OnOk result (Forgets self.old self.new) }
        ensures err { OnErr result (SameButReads self.old self.new) }
        ensures name { self.new.responder.name ≡ self.old.responder.name }
        ensures risen { self.old.responder.reads ≤ self.new.responder.reads }
        ensures bound { (h : History) → Follows self.old h
            → self.new.responder.reads ≤ self.old.responder.reads + look_bounds (now_of h) (living (now_of h) (current h)) (followed_of h) }
    {
        let number = self.responder.number();
        if number == u64::MAX {
            return Err(OutOfMemory);
        }
        let last = self.responder.last_marks(MOST_MARKS)?;
        let outs = settle(self.alloc, &mut self.responder, &mut self.table)?;
        self.responder.turn(oldest_look(&self.table, number + 1));
        leave(&mut self.responder, &mut self.table, last);
        self.is_settled = true;
        Ok(outs)
    }

    /// The number of a subscription, where it is quiet, right after a settle: nothing of it is outstanding, a round was
    /// acknowledged, and the acknowledged view is what is shown, but for predicted times and delays within its slack.
    /// It takes no memory.
    pub fn quiet(&self, subscriber: &Name, identifier: &Name) -> Option<u64>
        ensures { (h : History) → StandsFor self.now h → result ≡ quiet_number h subscriber.now identifier.now }
    {
        if !self.is_settled {
            return None;
        }
        let place = self.table.place_of(subscriber, identifier)?;
        match self.table.at(place) {
            Some(row) if is_quiet(row.slot) => Some(row.number),
            _ => None,
        }
    }

    /// Its name.
    pub fn name(&self) -> &Name
        ensures { result.now ≡ self.now.responder.name }
    {
        self.responder.name()
    }

    /// The number of its start.
    pub fn start(&self) -> u64
        ensures { result ≡ self.now.responder.start }
    {
        self.responder.start()
    }

    /// Its ServiceStartedTime.
    pub fn started(&self) -> Moment
        ensures { result ≡ self.now.responder.started }
    {
        self.responder.started()
    }

    /// Its moment, which is the greatest that it was given.
    pub fn now(&self) -> Moment
        ensures { result ≡ self.now.responder.moment }
    {
        self.responder.now()
    }

    /// How many items it holds, at most 20,000. There is a history that the producer follows, and so stands for.
    pub fn held(&self) -> usize
        ensures number { result ≡ length self.now.responder.held }
        ensures stands { (h : History) × StandsFor self.now h }
        ensures follows { (h : History) × Follows self.now h }
        ensures few { length self.now.responder.held ≤ most_live }
    {
        self.responder.held()
    }

    /// How many subscriptions it holds, at most 200.
    pub fn subscriptions(&self) -> usize
        ensures number { result ≡ length self.now.table }
        ensures few { length self.now.table ≤ most_subscriptions }
    {
        self.table.len()
    }

    /// The steps that its store counted: held items that were looked at. It is 0 at first and never falls.
    pub fn reads(&self) -> u64
        ensures { result ≡ self.now.responder.reads }
    {
        self.responder.reads()
    }
}

/// Whether a subscription is quiet, by what its last look found.
fn is_quiet(course: &Course) -> bool
    ensures { result ≡ is_quiet course.now }
{
    course.rounds.outstanding().is_none() && course.rounds.last() > 0 && course.is_level
}
