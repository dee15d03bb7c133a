//! What puts make of rows that are in order of table and key.

ghost use Rattle.std.specs.Prelude.{◌≡◌, ◌++◌, IfOk, OnOk};
ghost use Rattle.std.specs.List.{filter};
ghost use Rattle.siri_outside.specs.Rows.{HasByteTables, is_before, is_behind, one_if, place_cmp, place_of, placed, with_put, with_puts};

use crate::{Put, StoredRow};
use siri_base::{Copies, List, OutOfMemory};
use std::alloc::Global;
use std::cmp::Ordering;

/// Whether a row is before the place of a put, at it, or behind it.
fn side(row: &StoredRow, put: &Put) -> Ordering
    ensures { result ≡ place_cmp (place_of row.now) (put.now.table, put.now.key) }
{
    match row.table.cmp(&put.table) {
        Ordering::Equal => row.key.slice().cmp(put.key.slice()),
        other => other,
    }
}

/// Puts a copy of a row at the end of others, where it belongs there.
fn append_if(into: &mut Vec<StoredRow>, row: &StoredRow, belongs: bool) -> Result<(), OutOfMemory>
    ensures { OnOk result (into.new.items ≡ into.old.items ++ one_if belongs row.now) }
{
    if belongs {
        into.push(row.copy()?)?;
    }
    Ok(())
}

/// Puts copies of the rows before the place of a put at the end of others.
#[tactic(auto, using(crate::proofs::Parts::first_of_those))]
fn append_before(
    into: &mut Vec<StoredRow>,
    rows: &[StoredRow],
    put: &Put,
) -> Result<(), OutOfMemory>
    ensures { OnOk result (into.new.items ≡ into.old.items ++ filter (is_before put.now) rows.now) }
{
    for row in rows {
        append_if(into, row, matches!(side(row, put), Ordering::Less))?;
    }
    Ok(())
}

/// The same of the rows behind it.
#[tactic(auto, using(crate::proofs::Parts::first_of_those))]
fn append_behind(
    into: &mut Vec<StoredRow>,
    rows: &[StoredRow],
    put: &Put,
) -> Result<(), OutOfMemory>
    ensures { OnOk result (into.new.items ≡ into.old.items ++ filter (is_behind put.now) rows.now) }
{
    for row in rows {
        append_if(into, row, matches!(side(row, put), Ordering::Greater))?;
    }
    Ok(())
}

/// Puts the row that a put makes, where it makes one, at the end of others.
fn append_put(into: &mut Vec<StoredRow>, put: &Put) -> Result<(), OutOfMemory>
    ensures row { OnOk result (into.new.items ≡ into.old.items ++ placed put.now) }
    ensures table { OnOk result (HasByteTables (placed put.now)) }
{
    let table = put.table;
    if let Some(text) = &put.text {
        into.push(StoredRow {
            table,
            key: put.key.copy()?,
            text: text.copy()?,
        })?;
    }
    Ok(())
}

/// The rows after a put.
#[tactic(auto, using(crate::proofs::Parts::three_parts, crate::proofs::Order::tables_put))]
fn after_put(alloc: Global, rows: &[StoredRow], put: &Put) -> Result<List<StoredRow>, OutOfMemory>
    ensures rows { IfOk result (λ after. after ≡ with_put rows.now put.now) }
    ensures tables { HasByteTables rows.now → IfOk result HasByteTables }
{
    let mut after = Vec::new(alloc);
    append_before(&mut after, rows, put)?;
    append_put(&mut after, put)?;
    append_behind(&mut after, rows, put)?;
    Ok(List::of(after))
}

/// The rows after puts, one after the other.
pub(crate) fn after_puts(
    alloc: Global,
    rows: List<StoredRow>,
    list: &[Put],
) -> Result<List<StoredRow>, OutOfMemory>
    ensures rows { IfOk result (λ after. after ≡ with_puts rows list.now) }
    ensures tables { HasByteTables rows → IfOk result HasByteTables }
{
    let mut after = rows;
    for put in list {
        after = after_put(alloc, after.slice(), put)?;
    }
    Ok(after)
}
