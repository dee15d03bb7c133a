//! The table of subscriptions.

ghost use Rattle.std.specs.Prelude.{◌≡◌, ◌≢◌, ◌↔◌, ◌<◌, ◌≤◌, ℕ, OnErr, Ok, Err, [], length, slice_get, option_map, find, is_ok, IfOk, true, Some, None};
ghost use Rattle.std.specs.Option.{option_copied_mut};
ghost use Rattle.std.specs.Borrow.{sem};
ghost use Rattle.siri_subs.specs.Lent.{entry_of};
ghost use Rattle.siri_subs.specs.Numbered.{with_numbered};
ghost use Rattle.siri_subs.specs.Table.{EachOnce, accepted, answer, ended, expired, is_above, is_ended_by, is_of, number_of, number_of_acceptance};
ghost use Rattle.siri_subs.specs.Table.{place_of, put, renumber_answer, renumbered, most_subscriptions};

use crate::{AcceptError, Accepted, EndError, Entry, RenumberError, Row};
use siri_base::{Moment, Name, OutOfMemory, Span};
use siri_topic::Subscription;
use std::alloc::Global;
use std::marker::Model;
use std::mem::replace;

/// The most subscriptions that a table holds.
pub const MOST_SUBSCRIPTIONS: usize = 200;

/// The subscriptions that are held, in order of first acceptance, each with its number, address, heartbeat interval and
/// a slot. Contracts see the list of the entries.
pub struct Table<E> {
    entries: Vec<Row<E>>,
}

impl<E: Drop> Drop for Table<E> {
    fn drop(self) {
        let Table { entries: _ } = self;
    }
}

impl<E> Model for Table<E> {
    ghost use Rattle.std.specs.Prelude.{List, vec_capacity};
    ghost use Rattle.siri_subs.specs.declared.entry.Row.{Row as Kept};
    ghost use Rattle.siri_subs.specs.Table.{IsKept};

    ghost Value = { List (Kept E) };

    ghost view = { λ t. t.entries.items };

    ghost invariant = { λ t. IsKept t.entries.items (vec_capacity t.entries) };
}

impl<E> Table<E> {
    ghost use Rattle.siri_subs.specs.Loans.{lends_slot, lends_slot_if};

    /// The table that holds nothing. It takes the memory of 200 entries, so that no other call takes any.
    pub fn new(alloc: Global) -> Result<Table<E>, OutOfMemory>
        ensures { IfOk result (λ table. table ≡ []) }
    {
        Ok(Table {
            entries: Vec::with_capacity(alloc, MOST_SUBSCRIPTIONS)?,
        })
    }

    /// Takes a request for a subscription under a number (SubscriptionRequest, EN 15531-2).
    ///
    /// Where the subscription is held under this very number it is `Again` and nothing changes. Otherwise it is refused
    /// by the first of these that fits, and nothing changes: `PastTermination` where it isn't to end after now,
    /// `Superseded` where it is held under a greater number, `TableFull` where it isn't held and 200 others are.
    /// Otherwise it is `Renewed` or `New`. It takes no memory.
    pub fn accept(
        &mut self,
        number: u64,
        address: Option<Name>,
        beat: Span,
        wanted: Subscription,
        slot: E,
        now: Moment,
    ) -> Result<Accepted, AcceptError>
    where
        E: Drop,
        ensures answer { result ≡ answer now (record { wanted = wanted; number = number; base = number; address = address; beat = beat; slot = slot }) self.old }
        ensures table { self.new ≡ accepted now (record { wanted = wanted; number = number; base = number; address = address; beat = beat; slot = slot }) self.old }

        // When each of these comes.
        ensures again { (result ≡ Ok Accepted.Again) ↔ (number_of wanted.subscriber wanted.identifier self.old ≡ Some number) }
        ensures past_termination { (result ≡ Err AcceptError.PastTermination)
            ↔ ((wanted.termination ≤ now) × (number_of wanted.subscriber wanted.identifier self.old ≢ Some number)) }
        ensures superseded { (held : ℕ) → (result ≡ Err (AcceptError.Superseded held))
            ↔ ((number_of wanted.subscriber wanted.identifier self.old ≡ Some held) × (number < held) × (now < wanted.termination)) }
        ensures table_full { (result ≡ Err AcceptError.TableFull)
            ↔ ((number_of wanted.subscriber wanted.identifier self.old ≡ None) × (length self.old ≡ most_subscriptions) × (now < wanted.termination)) }
        ensures refused { OnErr result (self.new ≡ self.old) }
        ensures once { EachOnce self.new }
    {
        let entry = Row {
            wanted,
            number,
            base: number,
            address,
            beat,
            slot,
        };
        let answer = self.answer(&entry, now);
        match answer {
            Ok(Accepted::New) | Ok(Accepted::Renewed) => self.put(entry),
            Ok(Accepted::Again) | Err(_) => drop(entry),
        }
        answer
    }

    /// Takes a request for all of a subscription under a number of its own (DataSupplyRequest with AllData, EN 15531-2). It
    /// means the acceptance by the SubscriptionRequest of number `base`.
    ///
    /// Where that acceptance is held under this very number it is `Again` and nothing changes. Otherwise it is refused by
    /// the first of these that fits, and nothing changes: `UnknownSubscription` where it isn't held, `Superseded` where it
    /// is held under a greater number. Otherwise it is `Renewed`: its number and its slot are replaced, and all else stays.
    /// It takes no memory.
    pub fn renumber(
        &mut self,
        number: u64,
        base: u64,
        subscriber: &Name,
        identifier: &Name,
        slot: E,
    ) -> Result<Accepted, RenumberError>
    where
        E: Drop,
        ensures answer { result ≡ renumber_answer number base (find (is_of subscriber.now identifier.now) self.old) }
        ensures table { self.new ≡ renumbered number base subscriber.now identifier.now slot self.old }

        // When each of these comes.
        ensures renewed { (result ≡ Ok Accepted.Renewed) ↔ (is_above number (number_of_acceptance base subscriber.now identifier.now self.old) ≡ true) }
        ensures again { (result ≡ Ok Accepted.Again) ↔ (number_of_acceptance base subscriber.now identifier.now self.old ≡ Some number) }
        ensures unknown { (result ≡ Err RenumberError.UnknownSubscription) ↔ (number_of_acceptance base subscriber.now identifier.now self.old ≡ None) }
        ensures superseded { (held : ℕ) → (result ≡ Err (RenumberError.Superseded held))
            ↔ ((number_of_acceptance base subscriber.now identifier.now self.old ≡ Some held) × (number < held)) }
        ensures refused { OnErr result (self.new ≡ self.old) }
        ensures once { EachOnce self.new }
    {
        let Some(place) = self.place_of(subscriber, identifier) else {
            return Err(RenumberError::UnknownSubscription);
        };
        let entry = &self.entries[place];
        let answer = entry.renumber_answer(number, base);
        let renews = entry.is_renumbered_by(number, base);
        if renews {
            self.write_at(place, number, slot);
        }
        answer
    }

    /// Ends a subscription that is held under a smaller number (TerminateSubscriptionRequest, EN 15531-2):
    /// `UnknownSubscription` exactly where it isn't, and then nothing changes. It takes no memory.
    pub fn end(&mut self, number: u64, subscriber: &Name, identifier: &Name) -> Result<(), EndError>
    where
        E: Drop,
        ensures known { is_ok result ≡ is_ended_by number subscriber.now identifier.now self.old }
        ensures table { self.new ≡ ended number subscriber.now identifier.now self.old }
        ensures refused { OnErr result (self.new ≡ self.old) }
        ensures once { EachOnce self.new }
    {
        match self.place_of(subscriber, identifier) {
            Some(place) if self.entries[place].number < number => {
                drop(self.entries.remove(place));
                Ok(())
            }
            _ => Err(EndError::UnknownSubscription),
        }
    }

    /// Lets each subscription go that is terminated: its termination time is at or before now. It takes no memory.
    pub fn expire(&mut self, now: Moment)
    where
        E: Drop,
        ensures table { self.new ≡ expired now self.old }
        ensures once { EachOnce self.new }
    {
        self.entries.retain(|entry| !entry.is_terminated(now));
    }

    /// How many subscriptions are held, at most 200.
    pub fn len(&self) -> usize
        ensures value { result ≡ length self.now }
        ensures bound { result ≤ most_subscriptions }
        ensures once { EachOnce self.now }
    {
        self.entries.len()
    }

    /// The entry at a place, counted from 0: `None` exactly where the place isn't below the length.
    pub fn at(&self, place: usize) -> Option<Entry<'_, E>>
        ensures { option_map entry_of result ≡ slice_get self.now place }
    {
        match self.entries.get(place) {
            Some(entry) => Some(entry.lent()),
            None => None,
        }
    }

    /// The slot at a place, counted from 0, to write there: `None` exactly where the place isn't below the length. Once
    /// the loan is over, the table has what was written as the slot of this place, and all else is as it was.
    pub fn at_mut(&mut self, place: usize) -> Option<&mut E>
        ensures* writes_back { sem 𝓛 (lends_slot_if E.row self.entry place result) }
        ensures value { option_copied_mut result ≡ option_map (λ h. h.slot) (slice_get self.old place) }
    {
        if place < self.entries.len() {
            Some(self.slot_mut(place))
        } else {
            None
        }
    }

    /// The place of a subscription, counted from 0: `None` exactly where it isn't held.
    pub fn place_of(&self, subscriber: &Name, identifier: &Name) -> Option<usize>
        ensures place { result ≡ place_of subscriber.now identifier.now self.now }
        ensures once { EachOnce self.now }
    {
        self.entries
            .iter()
            .position(|entry| entry.is_of(subscriber, identifier))
    }

    /// The slot at a place.
    fn slot_mut(&mut self, place: usize) -> &mut E
        requires { place < length self.old }
        ensures* writes_back { sem 𝓛 (lends_slot E.row self.entry place result) }
        ensures value { option_map (λ h. h.slot) (slice_get self.old place) ≡ Some result.now }
    {
        &mut self.entries[place].slot
    }

    /// Replaces the number and the slot of the entry at a place.
    fn write_at(&mut self, place: usize, number: u64, slot: E)
    where
        E: Drop,
        requires { place < length self.old }
        ensures table { self.new ≡ with_numbered self.old place number slot }
        ensures once { EachOnce self.new }
    {
        let entry = &mut self.entries[place];
        entry.number = number;
        entry.slot = slot;
    }

    /// What the request for an entry's subscription is answered.
    fn answer(&self, entry: &Row<E>, now: Moment) -> Result<Accepted, AcceptError>
        ensures value { result ≡ answer now entry.now self.now }
        ensures bound { length self.now ≤ most_subscriptions }
        ensures once { EachOnce self.now }
    {
        let is_terminated = entry.is_terminated(now);
        match self.number_of(&entry.wanted.subscriber, &entry.wanted.identifier) {
            Some(held) if held == entry.number => Ok(Accepted::Again),
            _ if is_terminated => Err(AcceptError::PastTermination),
            Some(held) if held > entry.number => Err(AcceptError::Superseded { held }),
            Some(_) => Ok(Accepted::Renewed),
            None if self.entries.len() >= MOST_SUBSCRIPTIONS => Err(AcceptError::TableFull),
            None => Ok(Accepted::New),
        }
    }

    /// The number under which a subscription is held.
    fn number_of(&self, subscriber: &Name, identifier: &Name) -> Option<u64>
        ensures { result ≡ number_of subscriber.now identifier.now self.now }
    {
        self.entries
            .iter()
            .find(|entry| entry.is_of(subscriber, identifier))
            .map(|entry| entry.number)
    }

    /// Puts an entry in the place of its subscription's, or at the end where it isn't held and there is room.
    fn put(&mut self, entry: Row<E>)
    where
        E: Drop,
        requires { number_of entry.wanted.subscriber entry.wanted.identifier self.old ≡ None → length self.old < most_subscriptions }
        ensures table { self.new ≡ put entry self.old }
        ensures once { EachOnce self.new }
    {
        match self.place_of(&entry.wanted.subscriber, &entry.wanted.identifier) {
            Some(place) => drop(replace(&mut self.entries[place], entry)),
            None => self.entries.push_reserved(entry),
        }
    }
}
