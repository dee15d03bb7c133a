//! The table of the rows in a database, over any store of one.

use crate::writing::write;
use siri_base::List;
use siri_outside::{Put, Row};
use sqlite::types::ValueRef;
use sqlite::{Alter, Connection, Error, params};

/// The statement that makes the table of the rows, where there is none.
const TABLE: &str =
    "CREATE TABLE IF NOT EXISTS shelf (part INTEGER NOT NULL, place BLOB NOT NULL, content BLOB NOT NULL, PRIMARY KEY (part, place)) STRICT";

/// The query for the first row of a table, by its key.
const FIRST: &str = "SELECT place, content FROM shelf WHERE part = ?1 ORDER BY place LIMIT 1";

/// The query for the first row of a table whose key is above one.
const FIRST_ABOVE: &str =
    "SELECT place, content FROM shelf WHERE part = ?1 AND place > ?2 ORDER BY place LIMIT 1";

/// Runs a statement that is no query.
pub(crate) fn run<S: Alter>(
    database: &mut Connection<S>,
    statement: &str,
    values: &[ValueRef<'_>],
) -> Result<(), Error> {
    database.execute(statement, values)?;
    Ok(())
}

/// The first row of the answer to a query.
fn first_row<S: Alter>(
    database: &mut Connection<S>,
    query: &str,
    values: &[ValueRef<'_>],
) -> Result<sqlite::Row, Error> {
    database.query_row(query, values)
}

/// The first row of a table, above a key where one is given.
fn found<S: Alter>(
    database: &mut Connection<S>,
    table: u8,
    after: Option<&[u8]>,
) -> Result<sqlite::Row, Error> {
    match after {
        Some(key) => first_row(database, FIRST_ABOVE, params![u32::from(table), key]),
        None => first_row(database, FIRST, params![u32::from(table)]),
    }
}

/// The bytes of a column.
fn bytes(row: &sqlite::Row, column: usize) -> Result<List<u8>, Error> {
    Ok(List::of(row.get::<Vec<u8>>(column)?))
}

/// The key and the text of a row that was found.
fn row_of(row: &sqlite::Row) -> Result<Row, Error> {
    Ok(Row {
        key: bytes(row, 0)?,
        text: bytes(row, 1)?,
    })
}

/// The row of a table with the least key above the one that is given, or with the least of all.
fn next<S: Alter>(
    database: &mut Connection<S>,
    table: u8,
    after: Option<&[u8]>,
) -> Result<Option<Row>, Error> {
    match found(database, table, after) {
        Ok(row) => {
            let told = row_of(&row);
            drop(row);
            Ok(Some(told?))
        }
        Err(Error::QueryReturnedNoRows) => Ok(None),
        Err(error) => Err(error),
    }
}

/// What is asked of a database.
pub(crate) enum DatabaseCall<'a> {
    /// To have the table, which is made where there is none.
    Table,
    /// The row of a table with the least key above the one that is given, or with the least of all.
    Next { table: u8, after: Option<&'a [u8]> },
    /// To make all puts in one transaction, or none where one of them or the commit is refused.
    Write(&'a [Put]),
}

/// Does what is asked of a database, and gives the row that was asked for, where there is one.
pub(crate) fn ask<S: Alter>(
    database: &mut Connection<S>,
    asked: DatabaseCall<'_>,
) -> Result<Option<Row>, Error> {
    match asked {
        DatabaseCall::Table => run(database, TABLE, &[])?,
        DatabaseCall::Next { table, after } => return next(database, table, after),
        DatabaseCall::Write(list) => write(database, list)?,
    }
    Ok(None)
}
