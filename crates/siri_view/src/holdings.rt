//! What is kept of each subscription that is held, in order of identifier.

ghost use Rattle.std.specs.Prelude.{◌≡◌, ◌<◌, ◌≤◌, ◌+◌, ◌^◌, [], length, map, fold, Some, None, option_map, slice_get, IfSome, IfOk, OnOk, OnErr, IsOk, Ok, vec_len};
ghost use Rattle.std.specs.Vec.{vec_capacity};
ghost use Rattle.std.specs.List.{filter};
ghost use Rattle.std.specs.List.Sorted.{IsStrictlySortedBy};
ghost use Rattle.std.specs.Map.{keys_of};
ghost use Rattle.siri_life.specs.Network.{restarted_from};
ghost use Rattle.siri_records.specs.Places.{Finds};
ghost use Rattle.siri_view.specs.Consuming.{all_data_from, with_request, is_new};
ghost use Rattle.siri_view.specs.Kept.{meaning, name_cmp, kept_of, with_kept, without_kept};
ghost use Rattle.siri_view.specs.Marks.{mark_by};
ghost use Rattle.siri_life.specs.Named.{Name};
ghost use Rattle.siri_view.specs.Sending.{first_of_each, own};
ghost use Rattle.siri_view.specs.Places.{Wants, with_taken, taken_at, asked_at, restarted_at};

use crate::asked::AskedFor;
use crate::asking::has;
use crate::marks::Numbers;
use crate::messages::all_data_request;
use crate::part::Part;
use crate::subscribed::Subscribed;
use siri_base::{List, Moment, Name, OutOfMemory};
use siri_messages::Message;
use siri_topic::Subscription;
use std::alloc::Global;
use std::cmp::Ordering;
use std::marker::Model;

/// A SubscriptionIdentifier, and what is kept of its subscription.
type Entry = (Name, Subscribed);

/// The subscriptions that are held by their identifiers, in order of the bytes of these, each once.
pub(crate) struct Holdings {
    entries: Vec<Entry>,
}

impl Drop for Holdings {
    fn drop(self) {
        let Holdings { entries: _ } = self;
    }
}

impl Model for Holdings {
    ghost use Rattle.std.specs.List.Sorted.{IsStrictlySortedBy};
    ghost use Rattle.std.specs.Map.{keys_of};
    ghost use Rattle.siri_view.specs.Kept.{Holdings as Entries, name_cmp};

    ghost Value = { Entries };

    ghost view = { λ h. h.entries.items };

    ghost invariant = { λ h. IsStrictlySortedBy name_cmp (keys_of h.entries.items) };
}

impl Holdings {
    /// None is held. It takes no memory.
    pub(crate) fn new(alloc: Global) -> Holdings
        ensures { result ≡ [] }
    {
        Holdings {
            entries: Vec::new(alloc),
        }
    }

    /// The allocator of the entries, for what is made beside them.
    pub(crate) fn allocator(&self) -> Global {
        *self.entries.allocator()
    }

    /// How many subscriptions are held.
    pub(crate) fn len(&self) -> usize
        ensures number { result ≡ length self.now }
        ensures ordered { IsStrictlySortedBy name_cmp (keys_of self.now) }
    {
        self.entries.len()
    }

    /// The identifier at a place in order.
    pub(crate) fn identifier(&self, place: usize) -> Option<&Name>
        ensures { option_map (λ name. name.now) result ≡ option_map (λ entry. entry.0) (slice_get self.now place) }
    {
        match self.entries.get(place) {
            Some(entry) => Some(&entry.0),
            None => None,
        }
    }

    /// What is kept under an identifier.
    pub(crate) fn get(&self, identifier: &Name) -> Option<&Subscribed>
        ensures kept { option_map (λ kept. kept.now) result ≡ kept_of identifier.now self.now }
        ensures same { IfSome result (λ kept. with_kept identifier.now kept.now self.now ≡ self.now) }
    {
        match find(&self.entries, identifier) {
            Ok(at) => Some(&self.entries[at].1),
            Err(_) => None,
        }
    }

    /// A part of a subscription that wants it is taken. After want of memory all is as before.
    pub(crate) fn take(
        &mut self,
        identifier: &Name,
        mark: Numbers,
        more: bool,
        part: Part,
    ) -> Result<(), OutOfMemory>
        requires wanted { Wants (mark_by mark) (kept_of identifier.now self.old) }
        ensures ok { OnOk result (self.new ≡ with_taken identifier.now (mark_by mark) more part (kept_of identifier.now self.old) self.old) }
        ensures err { OnErr result (self.new ≡ self.old) }
    {
        let alloc = self.allocator();
        match find(&self.entries, identifier) {
            Ok(at) => take_at(&mut self.entries, at, alloc, mark, more, part),
            Err(_) => {
                drop(part);
                Ok(())
            }
        }
    }

    /// Subscriptions are asked for under a number, one after the other. The memory for all of them is taken before the
    /// first: after want of memory all is as before.
    pub(crate) fn ask(
        &mut self,
        number: u64,
        requests: Vec<(Name, AskedFor)>,
    ) -> Result<(), OutOfMemory>
        ensures ok { OnOk result (self.new ≡ fold (with_request number) self.old requests.items) }
        ensures err { OnErr result (self.new ≡ self.old) }
    {
        let alloc = self.allocator();
        self.entries.reserve(requests.len())?;
        for (identifier, asked) in requests {
            ask_for(alloc, &mut self.entries, identifier, number, asked)?;
        }
        Ok(())
    }

    /// How many of these subscriptions aren't held, of each identifier the first, whoever is their subscriber. It takes no
    /// memory.
    pub(crate) fn count_new(&self, wanted: &[Subscription]) -> usize
        ensures { (name : Name) → result ≡ length (filter (is_new self.now) (first_of_each (map (own name) wanted.now))) }
    {
        let mut count = 0;
        for (place, subscription) in wanted.iter().enumerate() {
            let identifier = &subscription.identifier;
            if !has(&wanted[..place], identifier) && self.get(identifier).is_none() {
                count += 1;
            }
        }
        count
    }

    /// A request for all of each subscription that is held, in order, the first under this number and each next under the
    /// one after it.
    pub(crate) fn all_data_requests(
        &self,
        name: &Name,
        now: Moment,
        first: u64,
    ) -> Result<List<Message>, OutOfMemory>
        requires { first + length self.now < 2 ^ 64 }
        ensures { IfOk result (λ requests. requests ≡ all_data_from name.now now first self.now) }
    {
        request_all(self.allocator(), &self.entries, name, now, first)
    }

    /// All of each subscription that is held is asked for again, in order, the first under this number and each next under
    /// the one after it, by a consumer that restarted: what was asked for and the bases stay. It takes no memory.
    pub(crate) fn restart(&mut self, first: u64)
        requires { first + length self.old < 2 ^ 64 }
        ensures { self.new ≡ restarted_from meaning first self.old }
    {
        let alloc = self.allocator();
        restart_all(alloc, &mut self.entries, first);
    }

    /// What is kept under an identifier goes.
    pub(crate) fn remove(&mut self, identifier: &Name)
        ensures { self.new ≡ without_kept identifier.now self.old }
    {
        match find(&self.entries, identifier) {
            Ok(at) => drop(self.entries.remove(at)),
            Err(_) => {}
        }
    }
}

/// Where an identifier stands, or where it would.
fn find(entries: &Vec<Entry>, identifier: &Name) -> Result<usize, usize>
    requires { IsStrictlySortedBy name_cmp (keys_of entries.now.items) }
    ensures { Finds (name_cmp identifier.now) entries.now.items result }
{
    entries.binary_search_by(
        |entry: &Entry| -> Ordering
            ensures { result ≡ name_cmp entry.now.0 identifier.entry.now }
        { entry.0.cmp(identifier) },
    )
}

/// A subscription is asked for under a number. It takes no memory where there is room for one more entry.
fn ask_for(
    alloc: Global,
    entries: &mut Vec<Entry>,
    identifier: Name,
    number: u64,
    asked: AskedFor,
) -> Result<(), OutOfMemory>
    requires ordered { IsStrictlySortedBy name_cmp (keys_of entries.old.items) }
    ensures ok { OnOk result (entries.new.items ≡ with_request number entries.old.items (identifier, asked)) }
    ensures ordered { IsStrictlySortedBy name_cmp (keys_of entries.new.items) }
    ensures room { vec_len entries.old < vec_capacity entries.old → IsOk result }
    ensures len { vec_len entries.new ≤ vec_len entries.old + 1 }
    ensures capacity { vec_capacity entries.old ≤ vec_capacity entries.new }
{
    match find(entries, &identifier) {
        Ok(at) => {
            drop(identifier);
            ask_at(alloc, entries, at, number, asked);
        }
        Err(at) => {
            let kept = Subscribed::new(alloc, number, asked);
            entries.insert(at, (identifier, kept))?;
        }
    }
    Ok(())
}

/// The subscription at a place is asked for again.
fn ask_at(alloc: Global, entries: &mut Vec<Entry>, at: usize, number: u64, asked: AskedFor)
    requires { at < vec_len entries.old }
    ensures items { entries.new.items ≡ asked_at number asked entries.old.items at }
    ensures keys { keys_of entries.new.items ≡ keys_of entries.old.items }
    ensures len { vec_len entries.new ≡ vec_len entries.old }
    ensures capacity { vec_capacity entries.new ≡ vec_capacity entries.old }
{
    let entry = &mut entries[at];
    entry.1.ask(alloc, number, asked);
}

/// A part of the subscription at a place is taken.
fn take_at(
    entries: &mut Vec<Entry>,
    at: usize,
    alloc: Global,
    mark: Numbers,
    more: bool,
    part: Part,
) -> Result<(), OutOfMemory>
    requires place { at < vec_len entries.old }
    requires wanted { Wants (mark_by mark) (option_map (λ entry. entry.1) (slice_get entries.old.items at)) }
    ensures ok { OnOk result (entries.new.items ≡ taken_at (mark_by mark) more part entries.old.items at) }
    ensures err { OnErr result (entries.new.items ≡ entries.old.items) }
    ensures keys { keys_of entries.new.items ≡ keys_of entries.old.items }
{
    let entry = &mut entries[at];
    entry.1.take(alloc, mark, more, part)
}

/// A request for all of each of these, the first under a number and each next under the one after it.
fn request_all(
    alloc: Global,
    entries: &[Entry],
    name: &Name,
    now: Moment,
    first: u64,
) -> Result<List<Message>, OutOfMemory>
    requires { first + length entries.now < 2 ^ 64 }
    ensures { IfOk result (λ requests. requests ≡ all_data_from name.now now first entries.now) }
{
    let mut requests = List::new(alloc);
    let mut number = first;
    for entry in entries {
        let request = all_data_request(name, now, &entry.0, number, entry.1.base())?;
        requests.push(request)?;
        number += 1;
    }
    Ok(requests)
}

/// All of each of these is asked for again, the first under a number and each next under the one after it.
fn restart_all(alloc: Global, entries: &mut Vec<Entry>, first: u64)
    requires { first + vec_len entries.old < 2 ^ 64 }
    ensures items { entries.new.items ≡ restarted_from meaning first entries.old.items }
    ensures keys { keys_of entries.new.items ≡ keys_of entries.old.items }
{
    let mut number = first;
    for place in 0..entries.len() {
        restart_at(alloc, entries, place, number);
        number += 1;
    }
}

/// All of the subscription at a place is asked for again, under a number.
fn restart_at(alloc: Global, entries: &mut Vec<Entry>, at: usize, number: u64)
    requires { at < vec_len entries.old }
    ensures items { entries.new.items ≡ restarted_at number entries.old.items at }
    ensures keys { keys_of entries.new.items ≡ keys_of entries.old.items }
    ensures len { vec_len entries.new ≡ vec_len entries.old }
{
    let entry = &mut entries[at];
    entry.1.restart(alloc, number);
}
