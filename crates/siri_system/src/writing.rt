//! Puts made in a database: all or none.

use crate::database::run;
use siri_outside::Put;
use sqlite::{Alter, Connection, Error, params};

/// The statement that puts a text at a table and a key, whether there is one or not.
const INSERT: &str = "INSERT OR REPLACE INTO shelf (part, place, content) VALUES (?1, ?2, ?3)";

/// The statement that removes the row of a table and a key, where there is one.
const DELETE: &str = "DELETE FROM shelf WHERE part = ?1 AND place = ?2";

/// Makes a put.
fn make<S: Alter>(database: &mut Connection<S>, put: &Put) -> Result<(), Error> {
    let table = u32::from(put.table);
    let key = put.key.slice();
    match &put.text {
        Some(text) => run(database, INSERT, params![table, key, text.slice()]),
        None => run(database, DELETE, params![table, key]),
    }
}

/// Makes puts, one after the other, up to the first that is refused.
fn make_all<S: Alter>(database: &mut Connection<S>, list: &[Put]) -> Result<(), Error> {
    for put in list {
        make(database, put)?;
    }
    Ok(())
}

/// Makes all puts and commits them.
fn commit_all<S: Alter>(database: &mut Connection<S>, list: &[Put]) -> Result<(), Error> {
    make_all(database, list)?;
    run(database, "COMMIT", &[])
}

/// Makes all puts in one transaction, or none where one of them or the commit is refused.
pub(crate) fn write<S: Alter>(database: &mut Connection<S>, list: &[Put]) -> Result<(), Error> {
    run(database, "BEGIN", &[])?;
    let written = commit_all(database, list);
    if written.is_err() {
        // A refusal may have ended the transaction already.
        let _ = run(database, "ROLLBACK", &[]);
    }
    written
}
