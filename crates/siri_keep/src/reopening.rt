//! A producer of what a shelf keeps.

ghost use Rattle.std.specs.Prelude.{◌≡◌, ◌≤◌, [], ◌∷◌, map, Ok, IfErr, IfOk, IsErrOf, OnOk};
ghost use Rattle.siri_base.specs.Numbers.{greatest_number};
ghost use Rattle.siri_outside.specs.Shelves.{OnShelf};
ghost use Rattle.siri_model.specs.History.{Start, Take};
ghost use Rattle.siri_outside.specs.Rows.{Rows};
ghost use Rattle.siri_keep.specs.declared.errors.KeepError.TheVariants as error;
ghost use Rattle.siri_keep.specs.Calls.{AddsReopened, CountsKept, HasKeepCause, IsBegun, RefusesToOpen, Reopens, StaysUnless};
ghost use Rattle.siri_keep.specs.Planning.{Begins, GoesOnBy, Opens, OpensRead, PlansOpening};
ghost use Rattle.siri_keep.specs.Walking.{SaysAll};

use crate::opening::{KeptItems, KeptRequest, WhatIsRead, read_all};
use crate::writing::write_all;
use crate::{KeepError, Kept};
use siri_base::{Copies, List, Moment, Name, OutOfMemory};
use siri_messages::Message;
use siri_outside::{Put, Shelf};
use siri_producer::Producer;
use siri_records::KeyedItems;
use std::alloc::Global;

/// A producer over a shelf, and what is to be written of it.
#[derive(Drop)]
pub(crate) struct ReopenedProducer {
    pub(crate) kept: Kept,
    pub(crate) puts: List<Put>,
}

/// Takes the requests that subscriptions began with again. What is answered was answered before.
fn take_requests(producer: &mut Producer, requests: &[KeptRequest]) -> Result<(), OutOfMemory>
    ensures ok { OnOk result (GoesOnBy producer.old producer.new (map (λ r. Take r.request) requests.now)) }
    ensures name { producer.new.responder.name ≡ producer.old.responder.name }
{
    for kept in requests {
        drop(producer.take(&kept.request)?);
    }
    Ok(())
}

/// The same of the requests that gave subscriptions other numbers.
fn take_renewals(producer: &mut Producer, renewals: &[Message]) -> Result<(), OutOfMemory>
    ensures ok { OnOk result (GoesOnBy producer.old producer.new (map Take renewals.now)) }
    ensures name { producer.new.responder.name ≡ producer.old.responder.name }
{
    for renewal in renewals {
        drop(producer.take(renewal)?);
    }
    Ok(())
}

/// The keys of the rows of requests.
fn places_of(alloc: Global, requests: &[KeptRequest]) -> Result<List<List<u8>>, OutOfMemory>
    ensures { IfOk result (λ places. places ≡ map (λ r. r.place) requests.now) }
{
    let mut places = List::new(alloc);
    for kept in requests {
        places.push(kept.place.copy()?)?;
    }
    Ok(places)
}

/// A producer over rows of these items, where requests of subscriptions have rows at these keys: the row of its moment is
/// written, and all rows of its subscriptions in place of those.
fn plan_rows(
    alloc: Global,
    producer: Producer,
    mirror: KeyedItems,
    places: List<List<u8>>,
) -> Result<ReopenedProducer, OutOfMemory>
    ensures { IfOk result (Begins producer mirror places) }
{
    let mut kept = Kept {
        alloc,
        producer,
        mirror,
        places,
        is_closed: false,
    };
    let mut puts = List::new(alloc);
    kept.put_moment(&mut puts)?;
    kept.put_subscriptions(&mut puts)?;
    Ok(ReopenedProducer { kept, puts })
}

/// A new producer, where there are no rows.
fn plan_new(
    alloc: Global,
    name: Name,
    start: u64,
    now: Moment,
) -> Result<ReopenedProducer, OutOfMemory>
    requires from_one { 1 ≤ start }
    requires to_eighteen_digits { start ≤ greatest_number }
    ensures opens { IfOk result (Opens name (Start start now ∷ []) []) }
    ensures begun { IfOk result (λ opened. IsBegun name opened.kept) }
{
    let producer = Producer::new(alloc, name, start, now)?;
    plan_rows(alloc, producer, KeyedItems::new(alloc), List::new(alloc))
}

/// The producer of what rows say: it has the kept moment, is fed the items that aren't dead then, and takes the requests.
fn reopen(
    alloc: Global,
    name: Name,
    start: u64,
    now: Moment,
    read: WhatIsRead,
) -> Result<ReopenedProducer, OutOfMemory>
    requires from_one { 1 ≤ start }
    requires to_eighteen_digits { start ≤ greatest_number }
    ensures opens { IfOk result (OpensRead name start now read) }
    ensures begun { IfOk result (λ opened. IsBegun name opened.kept) }
{
    let WhatIsRead {
        began,
        items,
        requests,
        renewals,
    } = read;
    let KeptItems { all, live } = items;
    let mut producer = Producer::new(alloc, name, start, now)?;
    producer.clock(began.moment);
    let _ = producer.feed_owned(live)?;
    take_requests(&mut producer, requests.slice())?;
    take_renewals(&mut producer, renewals.slice())?;
    let places = places_of(alloc, requests.slice())?;
    plan_rows(alloc, producer, all, places)
}

/// The producer of what rows say, where they are of its name and of an earlier start.
fn plan_read(
    alloc: Global,
    name: Name,
    start: u64,
    now: Moment,
    read: WhatIsRead,
) -> Result<ReopenedProducer, KeepError>
    requires from_one { 1 ≤ start }
    requires to_eighteen_digits { start ≤ greatest_number }
    ensures ok { IfOk result (λ opened. (rows : Rows) → SaysAll rows (Ok (Some read)) → PlansOpening name start now rows opened) }
    ensures refused { IfErr result (λ error. (rows : Rows) → SaysAll rows (Ok (Some read)) → RefusesToOpen name start error rows) }
    ensures begun { IfOk result (λ opened. IsBegun name opened.kept) }
    ensures faultless { ¬ IsErrOf result error.ShelfFault }
{
    if read.began.name != name {
        return Err(KeepError::OtherName);
    }
    if start <= read.began.start {
        return Err(KeepError::OldStart {
            kept: read.began.start,
        });
    }
    Ok(reopen(alloc, name, start, now, read)?)
}

/// The producer of what was read, and what is to be written of it.
fn plan_open(
    alloc: Global,
    name: Name,
    start: u64,
    now: Moment,
    read: Option<WhatIsRead>,
) -> Result<ReopenedProducer, KeepError>
    requires from_one { 1 ≤ start }
    requires to_eighteen_digits { start ≤ greatest_number }
    ensures ok { IfOk result (λ opened. (rows : Rows) → SaysAll rows (Ok read) → PlansOpening name start now rows opened) }
    ensures refused { IfErr result (λ error. (rows : Rows) → SaysAll rows (Ok read) → RefusesToOpen name start error rows) }
    ensures begun { IfOk result (λ opened. IsBegun name opened.kept) }
    ensures faultless { ¬ IsErrOf result error.ShelfFault }
{
    match read {
        Some(read) => plan_read(alloc, name, start, now, read),
        None => Ok(plan_new(alloc, name, start, now)?),
    }
}

impl Kept {
    /// A producer of what a shelf keeps, under its name and at a new start. A shelf with no row keeps nothing, and the
    /// producer is a new one. Else it is one that was given the kept moment, was fed the kept items that aren't dead
    /// then, and took the kept requests. One write puts the row of its moment and, where the shelf had rows, all rows of
    /// the subscriptions that it holds, in place of those that were there. Rows of items stay, also of those that are
    /// dead by now.
    ///
    /// `BadRow` exactly where that row is the first, by table and key, that isn't of its form or is one too many: of
    /// table 1 the 100,001st, or the 20,001st whose item isn't dead at the kept moment, of table 2 the 201st. Where
    /// there are rows and none of the moment, that is the bad one. Then `OtherName` exactly where the kept name is
    /// another, then `OldStart` exactly where the number of the start isn't above the kept one. `ShelfFault` exactly
    /// where the shelf failed: then nothing more is read or written. `OutOfMemory` may come in the place of each. Where it is refused as `BadRow`,
    /// `OtherName` or `OldStart` nothing is written.
    #[tactic(auto, using(crate::proofs::OpenCalls::stays_read, crate::proofs::OpenCalls::stays_unwritten, crate::proofs::OpenCalls::stays_written))]
    pub fn open<B: Shelf>(
        alloc: Global,
        shelf: &mut B,
        name: Name,
        start: u64,
        now: Moment,
    ) -> Result<Kept, KeepError>
        requires there { B.is_open shelf.old }
        requires from_one { 1 ≤ start }
        requires to_eighteen_digits { start ≤ greatest_number }
        ensures open { B.is_open shelf.new }
        ensures ok { IfOk result (λ kept. OnShelf B.tells shelf.old shelf.new (λ old new. Reopens name start now kept old.rows new.rows)) }
        ensures refused { IfErr result (λ error. OnShelf B.tells shelf.old shelf.new (λ old new. RefusesToOpen name start error old.rows)) }
        ensures trail { OnShelf B.tells shelf.old shelf.new (AddsReopened name start now) }
        ensures begun { IfOk result (IsBegun name) }
        ensures cause { HasKeepCause (B.faults shelf.old) (B.faults shelf.new) result }
        ensures counted { CountsKept (B.faults shelf.old) (B.faults shelf.new) result }
        ensures stays { OnShelf B.tells shelf.old shelf.new (StaysUnless result) }
    {
        let read = read_all(alloc, shelf)?;
        let ReopenedProducer { kept, puts } = plan_open(alloc, name, start, now, read)?;
        write_all(shelf, &puts)?;
        Ok(kept)
    }
}
