//! An entry of the table.

ghost use Rattle.std.specs.Prelude.{◌≡◌};
ghost use Rattle.siri_subs.specs.Table.{is_of, is_renumbered_by, is_terminated, renumber_answer_of};
ghost use Rattle.siri_subs.specs.Lent.{entry_of};

use crate::{Accepted, RenumberError};
use siri_base::{Moment, Name, Span};
use siri_topic::Subscription;

/// What is held of a subscription: a row of the table. Contracts see a table as the list of these.
#[derive(Drop)]
pub struct Row<E> {
    /// The subscription as its subscriber asked for it last.
    pub wanted: Subscription,
    /// The number of its last request: of that one, or of an AllData request that came after it.
    pub number: u64,
    /// The number of the SubscriptionRequest that it was accepted by.
    pub base: u64,
    /// Where its deliveries are sent, if its request says so (ConsumerAddress).
    pub address: Option<Name>,
    /// How often a heartbeat is sent, in milliseconds (HeartbeatInterval); zero is never.
    pub beat: Span,
    /// What the table's owner keeps of it.
    pub slot: E,
}

/// What is held of a subscription, lent.
#[derive(Drop)]
pub struct Entry<'a, E> {
    /// The subscription as its subscriber asked for it last.
    pub wanted: &'a Subscription,
    /// The number of its last request: of that one, or of an AllData request that came after it.
    pub number: u64,
    /// The number of the SubscriptionRequest that it was accepted by.
    pub base: u64,
    /// Where its deliveries are sent, if its request says so (ConsumerAddress).
    pub address: Option<&'a Name>,
    /// How often a heartbeat is sent, in milliseconds (HeartbeatInterval); zero is never.
    pub beat: Span,
    /// What the table's owner keeps of it.
    pub slot: &'a E,
}

impl<E> Row<E> {
    /// Whether it is held of this SubscriberRef and SubscriptionIdentifier.
    pub(crate) fn is_of(&self, subscriber: &Name, identifier: &Name) -> bool
        ensures { result ≡ is_of subscriber.now identifier.now self.now }
    {
        self.wanted.subscriber == *subscriber && self.wanted.identifier == *identifier
    }

    /// Whether its InitialTerminationTime has come at this moment, be it this very one.
    pub(crate) fn is_terminated(&self, now: Moment) -> bool
        ensures { result ≡ is_terminated now self.now }
    {
        self.wanted.termination.ms() <= now.ms()
    }

    /// Whether it goes back to the SubscriptionRequest of number `base`, and is held under a smaller number than this one.
    pub(crate) fn is_renumbered_by(&self, number: u64, base: u64) -> bool
        ensures { result ≡ is_renumbered_by number base self.now }
    {
        self.base == base && self.number < number
    }

    /// What an AllData request under a number, for the acceptance of this base, is answered where this is its
    /// subscription's.
    pub(crate) fn renumber_answer(&self, number: u64, base: u64) -> Result<Accepted, RenumberError>
        ensures { result ≡ renumber_answer_of number base self.now }
    {
        if self.base != base {
            return Err(RenumberError::UnknownSubscription);
        }
        if self.number == number {
            return Ok(Accepted::Again);
        }
        if self.number > number {
            return Err(RenumberError::Superseded { held: self.number });
        }
        Ok(Accepted::Renewed)
    }

    /// The row as an entry, which takes no memory.
    pub(crate) fn lent(&self) -> Entry<'_, E>
        ensures { entry_of result ≡ self.now }
    {
        Entry {
            wanted: &self.wanted,
            number: self.number,
            base: self.base,
            address: self.address.as_ref(),
            beat: self.beat,
            slot: &self.slot,
        }
    }
}
