//! What a shelf keeps, read when it is opened: row by row, table by table.

ghost use Rattle.std.specs.Prelude.{◌≡◌, ◌+◌, [], None, IfOk};
ghost use Rattle.siri_outside.specs.Shelves.{key_after, OnShelf};
ghost use Rattle.siri_keep.specs.declared.errors.KeepError.TheVariants as error;
ghost use Rattle.siri_keep.specs.Calls.{CountsKept, HasKeepCause};
ghost use Rattle.siri_keep.specs.Walking.{SaysAll};
ghost use Rattle.siri_keep.specs.RowByRow.{Begins, GivesNext, IsFirstBad, NeverBad, Outcome, Reached, ReachedAfter, SeesMore, Unchanged, first_began};

use crate::KeepError;
use crate::rows_read::RowsRead;
use siri_base::{Copies, List, OutOfMemory};
use siri_messages::{Message, ServiceDelivery};
use siri_outside::{OutsideError, Row, Shelf};
use siri_records::KeyedItems;
use siri_row_texts::{Began, began_of_row};
use std::alloc::Global;

/// What the rows of table 1 say: all items, and a delivery of those that aren't dead at the kept moment, service by
/// service.
#[derive(Drop)]
pub(crate) struct KeptItems {
    pub(crate) all: KeyedItems,
    pub(crate) live: ServiceDelivery,
}

/// A subscription's request, and the key of its row.
#[derive(Drop)]
pub(crate) struct KeptRequest {
    pub(crate) place: List<u8>,
    pub(crate) request: Message,
}

/// What rows say.
#[derive(Drop)]
pub(crate) struct WhatIsRead {
    pub(crate) began: Began,
    pub(crate) items: KeptItems,
    pub(crate) requests: List<KeptRequest>,
    pub(crate) renewals: List<Message>,
}

/// The row of a table with the least key above one, or with the least key of all where none is given.
fn next<B: Shelf>(shelf: &mut B, table: u8, after: Option<&[u8]>) -> Result<Option<Row>, KeepError>
    requires { B.is_open shelf.old }
    ensures open { B.is_open shelf.new }
    ensures told { Unchanged (B.tells shelf.old) (B.tells shelf.new) (λ rows. Outcome (GivesNext table (key_after after.entry) rows) NeverBad result) }
    ensures cause { HasKeepCause (B.faults shelf.old) (B.faults shelf.new) result }
    ensures counted { CountsKept (B.faults shelf.old) (B.faults shelf.new) result }
{
    match shelf.next(table, after) {
        Ok(row) => Ok(row),
        Err(OutsideError::Failed) => Err(KeepError::ShelfFault),
        Err(OutsideError::OutOfMemory) => Err(KeepError::OutOfMemory),
    }
}

/// Whether a table from 1 on has a row.
fn has_more<B: Shelf>(shelf: &mut B) -> Result<bool, KeepError>
    requires { B.is_open shelf.old }
    ensures open { B.is_open shelf.new }
    ensures told { Unchanged (B.tells shelf.old) (B.tells shelf.new) (λ rows. Outcome (SeesMore rows) NeverBad result) }
    ensures cause { HasKeepCause (B.faults shelf.old) (B.faults shelf.new) result }
    ensures counted { CountsKept (B.faults shelf.old) (B.faults shelf.new) result }
{
    for table in 1..=u8::MAX {
        if next(shelf, table, None)?.is_some() {
            return Ok(true);
        }
    }
    Ok(false)
}

/// The place of the row of the moment, which is missing.
fn missing(alloc: Global) -> KeepError
    ensures { result ≡ error.BadRow 0 [] }
{
    KeepError::BadRow {
        table: 0,
        key: List::new(alloc),
    }
}

/// What the first row of table 0 says, where it has the empty key.
fn first_began(alloc: Global, row: &Row) -> Result<Option<Began>, OutOfMemory>
    ensures { IfOk result (λ began. began ≡ first_began row.now) }
{
    if row.key.len() == 0 {
        began_of_row(alloc, row.text.slice())
    } else {
        Ok(None)
    }
}

/// Reads the row of the moment, which is the first of all; `None` where no table has a row.
fn read_first<B: Shelf>(alloc: Global, shelf: &mut B) -> Result<Option<RowsRead>, KeepError>
    requires { B.is_open shelf.old }
    ensures open { B.is_open shelf.new }
    ensures told { Unchanged (B.tells shelf.old) (B.tells shelf.new) (λ rows. Outcome (Begins rows) (IsFirstBad rows) result) }
    ensures cause { HasKeepCause (B.faults shelf.old) (B.faults shelf.new) result }
    ensures counted { CountsKept (B.faults shelf.old) (B.faults shelf.new) result }
{
    let Some(row) = next(shelf, 0, None)? else {
        if has_more(shelf)? {
            return Err(missing(alloc));
        }
        return Ok(None);
    };
    let Some(began) = first_began(alloc, &row)? else {
        return Err(missing(alloc));
    };
    Ok(Some(RowsRead::new(alloc, began)))
}

/// A key, as a call takes it.
fn slice_of(key: &Option<List<u8>>) -> Option<&[u8]>
    ensures { key_after result ≡ key.now }
{
    match key {
        Some(key) => Some(key.slice()),
        None => None,
    }
}

/// Reads the row of a table with the least key above one, where one is given, and gives its key; `None` where there is no
/// such row.
fn read_next<B: Shelf>(
    shelf: &mut B,
    table: u8,
    after: &Option<List<u8>>,
    read: &mut RowsRead,
) -> Result<Option<List<u8>>, KeepError>
    requires { B.is_open shelf.old }
    ensures open { B.is_open shelf.new }
    ensures told { Unchanged (B.tells shelf.old) (B.tells shelf.new) (λ rows. Reached table after.now rows read.old → Outcome (ReachedAfter table rows read.new) (IsFirstBad rows) result) }
    ensures cause { HasKeepCause (B.faults shelf.old) (B.faults shelf.new) result }
    ensures counted { CountsKept (B.faults shelf.old) (B.faults shelf.new) result }
{
    let Some(row) = next(shelf, table, slice_of(after))? else {
        return Ok(None);
    };
    read.take(table, &row)?;
    Ok(Some(row.key.copy()?))
}

/// Reads the rows of a table with keys above one, where one is given: all of them, or those before the first bad one. More
/// rows than a `u64` counts have no memory.
fn read_table<B: Shelf>(
    shelf: &mut B,
    table: u8,
    first: Option<List<u8>>,
    read: &mut RowsRead,
) -> Result<(), KeepError>
    requires { B.is_open shelf.old }
    ensures open { B.is_open shelf.new }
    ensures told { Unchanged (B.tells shelf.old) (B.tells shelf.new) (λ rows. Reached table first rows read.old → Outcome (λ done. Reached (table + 1) None rows read.new) (IsFirstBad rows) result) }
    ensures cause { HasKeepCause (B.faults shelf.old) (B.faults shelf.new) result }
    ensures counted { CountsKept (B.faults shelf.old) (B.faults shelf.new) result }
{
    let mut after = first;
    for _ in 0..u64::MAX {
        let Some(key) = read_next(shelf, table, &after, read)? else {
            return Ok(());
        };
        after = Some(key);
    }
    Err(KeepError::OutOfMemory)
}

/// Reads all tables from 1 on.
fn read_tables<B: Shelf>(shelf: &mut B, read: &mut RowsRead) -> Result<(), KeepError>
    requires { B.is_open shelf.old }
    ensures open { B.is_open shelf.new }
    ensures told { Unchanged (B.tells shelf.old) (B.tells shelf.new) (λ rows. Reached 1 None rows read.old → Outcome (λ done. Reached 256 None rows read.new) (IsFirstBad rows) result) }
    ensures cause { HasKeepCause (B.faults shelf.old) (B.faults shelf.new) result }
    ensures counted { CountsKept (B.faults shelf.old) (B.faults shelf.new) result }
{
    for table in 1..=u8::MAX {
        read_table(shelf, table, None, read)?;
    }
    Ok(())
}

/// All that rows say, or `None` where there is no row; or the place of the first row, by table and key, that isn't of its
/// form, as `BadRow`. `ShelfFault` only where the shelf's count of faults rose. The shelf stays as it was.
pub(crate) fn read_all<B: Shelf>(
    alloc: Global,
    shelf: &mut B,
) -> Result<Option<WhatIsRead>, KeepError>
    requires { B.is_open shelf.old }
    ensures open { B.is_open shelf.new }
    ensures told { OnShelf B.tells shelf.old shelf.new (λ old new. (new ≡ old) × SaysAll old.rows result) }
    ensures cause { HasKeepCause (B.faults shelf.old) (B.faults shelf.new) result }
    ensures counted { CountsKept (B.faults shelf.old) (B.faults shelf.new) result }
{
    let Some(mut read) = read_first(alloc, shelf)? else {
        return Ok(None);
    };
    read_table(shelf, 0, Some(List::new(alloc)), &mut read)?;
    read_tables(shelf, &mut read)?;
    Ok(Some(read.into_whole()?))
}
