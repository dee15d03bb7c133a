//! Which row of a table comes next.

ghost use Rattle.std.specs.Prelude.{◌≡◌, IfOk};
ghost use Rattle.siri_outside.specs.Rows.{is_above, is_next, next_row};
ghost use Rattle.siri_outside.specs.Shelves.{key_after};

use crate::{Row, StoredRow};
use siri_base::{Copies, OutOfMemory};
use std::cmp::Ordering;

/// Whether a key is above one, where one is given.
fn is_above(key: &[u8], after: Option<&[u8]>) -> bool
    ensures { result ≡ is_above (key_after after.entry) key.now }
{
    match after {
        Some(after) => matches!(key.cmp(after), Ordering::Greater),
        None => true,
    }
}

/// Whether a row is of a table, with a key above one, where one is given.
fn is_next(row: &StoredRow, table: u8, after: Option<&[u8]>) -> bool
    ensures { result ≡ is_next table (key_after after.entry) row.now }
{
    row.table == table && is_above(row.key.slice(), after)
}

/// A copy of the first row of a table with a key above one, where one is given. Of rows in order it is the one with the
/// least such key.
pub(crate) fn next_row(
    rows: &[StoredRow],
    table: u8,
    after: Option<&[u8]>,
) -> Result<Option<Row>, OutOfMemory>
    ensures { IfOk result (λ row. row ≡ next_row table (key_after after.entry) rows.now) }
{
    for row in rows {
        if is_next(row, table, after) {
            return Ok(Some(Row {
                key: row.key.copy()?,
                text: row.text.copy()?,
            }));
        }
    }
    Ok(None)
}
