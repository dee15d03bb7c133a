//! The consumer.

ghost use Rattle.std.specs.Prelude.{◌≡◌, ◌≢◌, ◌↔◌, ◌<◌, ◌≤◌, ◌+◌, [], length, suc, fold, Some, None, is_none, option_map, slice_get, Ok, IfOk, OnOk, OnErr, IsErrOf};
ghost use Rattle.std.specs.List.Sorted.{IsStrictlySortedBy};
ghost use Rattle.std.specs.Map.{keys_of};
ghost use Rattle.siri_view.specs.Consuming.{with_request, requests_for, count_after, after_restart, after_subscribe, after_terminate, request_for, restart_requests, termination_of, clocked, held_by, most_held};
ghost use Rattle.siri_view.specs.Kept.{kept_of, name_cmp};
ghost use Rattle.siri_view.specs.Sending.{check_request};
ghost use Rattle.siri_base.specs.Numbers.{greatest_number};

use crate::asked::requests_for;
use crate::asking::{first_of_each, subscription_request};
use crate::holdings::Holdings;
use crate::messages::{check_request, termination_request};
use crate::{AskError, Held};
use siri_base::{GREATEST_NUMBER, List, Moment, Name, OutOfMemory, Span, beside};
use siri_change::View;
use siri_messages::Message;
use siri_topic::Subscription;
use std::alloc::Global;
use std::marker::Model;

/// The most subscriptions that a consumer holds.
pub const MOST_HELD: usize = 200;

/// A consumer, with a name and the address at which deliveries reach it. It has a moment, which is the greatest that it
/// was given, numbers its requests, and keeps what it holds of each subscription. Contracts see a record of these, the
/// subscriptions by their identifiers in order of the bytes.
pub struct Consumer {
    pub(crate) name: Name,
    pub(crate) address: Option<Name>,
    pub(crate) next_number: u64,
    pub(crate) moment: Moment,
    pub(crate) held: Holdings,
}

impl Drop for Consumer {
    fn drop(self) {
        let Consumer {
            name: _,
            address: _,
            next_number: _,
            moment: _,
            held: _,
        } = self;
    }
}

impl Model for Consumer {
    ghost use Rattle.std.specs.Prelude.{◌≤◌};
    ghost use Rattle.siri_view.specs.Consuming.{Consuming};

    ghost Value = { Consuming };

    ghost view = { λ c. record { name = c.name; address = c.address; next_number = c.next_number; moment = c.moment; held = c.held } };

    ghost invariant = { λ c. c.next_number ≤ 1000000000000000000 };
}

impl Consumer {
    /// A consumer that holds nothing. Its first request has a number from 1 to 999,999,999,999,999,999; its moment is
    /// the first of 1970.
    pub fn new(
        alloc: Global,
        name: Name,
        address: Option<Name>,
        first: u64,
    ) -> Result<Consumer, OutOfMemory>
        requires from_one { 1 ≤ first }
        requires to_eighteen_digits { first ≤ greatest_number }
        ensures { IfOk result (λ consumer. consumer ≡ record { name = name; address = address; next_number = first; moment = 0; held = [] }) }
    {
        Ok(Consumer {
            name,
            address,
            next_number: first,
            moment: Moment::first(),
            held: Holdings::new(alloc),
        })
    }

    /// Its moment becomes the later one. It takes no memory.
    pub fn clock(&mut self, now: Moment)
        ensures { self.new ≡ clocked self.old now }
    {
        self.moment = self.moment.max(now);
    }

    /// Asks for subscriptions under the next number (SubscriptionRequest, EN 15531-2), as their subscriber, with an
    /// interval of heartbeats in milliseconds (HeartbeatInterval; zero isn't written). A later element of the same
    /// identifier is left out. Each is then held under that number, with no start and no round; a view that is held
    /// stays.
    ///
    /// `Spent` exactly where the number would pass 999,999,999,999,999,999, and otherwise `TooMany` exactly where more than
    /// 200 would be held: both are told before memory is asked for. After a refusal or want of memory the consumer is as
    /// before.
    pub fn subscribe(
        &mut self,
        wanted: &List<Subscription>,
        beat: Span,
    ) -> Result<Message, AskError>
        requires { wanted.now ≢ [] }
        ensures request { IfOk result (λ message. message ≡ request_for self.old wanted.now beat) }
        ensures ok { OnOk result (self.new ≡ after_subscribe self.old wanted.now beat) }
        // When each of these comes: want of memory stands for neither.
        ensures spent { IsErrOf result AskError.Spent ↔ (greatest_number < self.old.next_number) }
        ensures too_many { IsErrOf result AskError.TooMany ↔ ((self.old.next_number ≤ greatest_number) × (most_held < count_after self.old wanted.now)) }
        ensures at_most { OnOk result (count_after self.old wanted.now ≤ most_held) }
        ensures not_not_held { IsErrOf result AskError.NotHeld → ⊥ }
        ensures refused { OnErr result (self.new ≡ self.old) }
    {
        if self.next_number > GREATEST_NUMBER {
            return Err(AskError::Spent);
        }
        let held = self.held.len();
        if held > MOST_HELD || self.held.count_new(wanted.slice()) > MOST_HELD - held {
            return Err(AskError::TooMany);
        }
        let alloc = self.held.allocator();
        let asked = first_of_each(alloc, &self.name, wanted.slice())?;
        let request = subscription_request(
            alloc,
            &self.name,
            &self.address,
            self.moment,
            self.next_number,
            asked.slice(),
            beat,
        )?;
        let ((), request) = beside(self.hold(asked, beat), request)?;
        Ok(request)
    }

    /// Subscriptions are held under the next number, which is used.
    fn hold(&mut self, asked: List<Subscription>, beat: Span) -> Result<(), OutOfMemory>
        requires { self.old.next_number ≤ greatest_number }
        ensures ok { OnOk result (self.new ≡ record self.old { next_number = suc self.old.next_number; held = fold (with_request self.old.next_number) self.old.held (requests_for self.old.address beat asked) }) }
        ensures err { OnErr result (self.new ≡ self.old) }
    {
        let requests = requests_for(self.held.allocator(), &self.address, beat, asked)?;
        self.held.ask(self.next_number, requests)?;
        self.next_number += 1;
        Ok(())
    }

    /// Ends a subscription that is held, under the next number (TerminateSubscriptionRequest, EN 15531-2). It is no
    /// longer held.
    ///
    /// `NotHeld` exactly where it isn't held, and otherwise `Spent` exactly where the number would pass
    /// 999,999,999,999,999,999. After a refusal or want of memory the consumer is as before.
    pub fn terminate(&mut self, identifier: &Name) -> Result<Message, AskError>
        ensures request { IfOk result (λ message. message ≡ termination_of self.old identifier.now) }
        ensures ok { OnOk result (self.new ≡ after_terminate self.old identifier.now) }
        // When each of these comes.
        ensures not_held { IsErrOf result AskError.NotHeld ↔ (kept_of identifier.now self.old.held ≡ None) }
        ensures spent { IsErrOf result AskError.Spent ↔ ((kept_of identifier.now self.old.held ≢ None) × (greatest_number < self.old.next_number)) }
        ensures not_too_many { IsErrOf result AskError.TooMany → ⊥ }
        ensures refused { OnErr result (self.new ≡ self.old) }
    {
        if self.held.get(identifier).is_none() {
            return Err(AskError::NotHeld);
        }
        if self.next_number > GREATEST_NUMBER {
            return Err(AskError::Spent);
        }
        let number = self.next_number;
        let request = termination_request(
            self.held.allocator(),
            &self.name,
            self.moment,
            number,
            identifier,
        )?;
        self.held.remove(identifier);
        self.next_number = number + 1;
        Ok(request)
    }

    /// It restarts. What a consumer keeps across that is its name, address, moment and next number, and of each
    /// subscription that is held its identifier, what was asked for and the base, the number of its last
    /// SubscriptionRequest; the views, starts, rounds and buffered parts are lost. All of each is asked for again
    /// (DataSupplyRequest with AllData, EN 15531-2), in order of the bytes of the identifiers, each under the next number.
    ///
    /// `Spent` exactly where the last number that is needed would pass 999,999,999,999,999,999. After it or want of memory
    /// the consumer is as before.
    pub fn restart(&mut self) -> Result<List<Message>, AskError>
        ensures requests { IfOk result (λ requests. requests ≡ restart_requests self.old) }
        ensures ok { OnOk result (self.new ≡ after_restart self.old) }
        // When each of these comes. The last number that is needed is one less than the sum.
        ensures spent { IsErrOf result AskError.Spent ↔ (greatest_number + 1 < self.old.next_number + length self.old.held) }
        ensures not_others { (IsErrOf result AskError.TooMany → ⊥) × (IsErrOf result AskError.NotHeld → ⊥) }
        ensures refused { OnErr result (self.new ≡ self.old) }
    {
        let count = self.held.len() as u64;
        if count > GREATEST_NUMBER + 1 - self.next_number {
            return Err(AskError::Spent);
        }
        let first = self.next_number;
        let requests = self.held.all_data_requests(&self.name, self.moment, first)?;
        self.held.restart(first);
        self.next_number = first + count;
        Ok(requests)
    }

    /// Asks whether the producer is there (CheckStatusRequest, EN 15531-2).
    pub fn check(&self) -> Result<Message, OutOfMemory>
        ensures { IfOk result (λ message. message ≡ check_request self.now.name self.now.moment) }
    {
        check_request(&self.name, self.moment)
    }

    /// The view of a subscription, or `None` exactly where it isn't held.
    pub fn view(&self, identifier: &Name) -> Option<&View>
        ensures { option_map (λ view. view.now) result ≡ option_map (λ h. h.view) (kept_of identifier.now self.now.held) }
    {
        Some(self.held.get(identifier)?.view())
    }

    /// The round whose target a subscription's view is, or `None` exactly where the subscription isn't held.
    pub fn held(&self, identifier: &Name) -> Option<Held>
        ensures { result ≡ option_map held_by (kept_of identifier.now self.now.held) }
    {
        Some(self.held.get(identifier)?.held())
    }

    /// The number under which a subscription is held, or `None` exactly where it isn't held.
    pub fn current(&self, identifier: &Name) -> Option<u64>
        ensures { result ≡ option_map (λ h. h.number) (kept_of identifier.now self.now.held) }
    {
        Some(self.held.get(identifier)?.number())
    }

    /// Its name.
    pub fn name(&self) -> &Name
        ensures { result.now ≡ self.now.name }
    {
        &self.name
    }

    /// The number of its next request, up to one more than 999,999,999,999,999,999: then the numbers are used up.
    pub fn next_number(&self) -> u64
        ensures value { result ≡ self.now.next_number }
        ensures bound { result ≤ 1000000000000000000 }
    {
        self.next_number
    }

    /// How many subscriptions are held.
    pub fn len(&self) -> usize
        ensures number { result ≡ length self.now.held }
        ensures ordered { IsStrictlySortedBy name_cmp (keys_of self.now.held) }
    {
        self.held.len()
    }

    /// The identifier at a place, in order of the bytes of the identifiers that are held, counted from 0, or `None`
    /// exactly where the place isn't below their number.
    pub fn identifier(&self, place: usize) -> Option<&Name>
        ensures { option_map (λ name. name.now) result ≡ option_map (λ entry. entry.0) (slice_get self.now.held place) }
    {
        self.held.identifier(place)
    }
}
