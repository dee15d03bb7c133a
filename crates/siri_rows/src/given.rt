//! What a row is run over.

use crate::members::{Members, has_only, number_of, numbers_in};
use anyhow::{Context, Result, anyhow, bail};
use siri_base::{List, Moment};
use siri_outside::{FailingConnection, Put};
use siri_time::read_moment;
use std::alloc::Global;
use toml::{Table, Value};

/// A connection: what comes by it, and where reads of it and writes to it fail.
#[derive(Drop)]
pub(crate) struct Connection {
    input: Vec<u8>,
    read: Vec<usize>,
    write: Vec<usize>,
}

impl Connection {
    /// As a wire takes it.
    pub(crate) fn wired(&self) -> FailingConnection<'_> {
        FailingConnection {
            input: &self.input,
            read_fails: &self.read,
            write_fails: &self.write,
        }
    }
}

/// Which calls fail.
#[derive(Drop)]
pub(crate) struct Fails {
    pub(crate) listen: Vec<usize>,
    pub(crate) accept: Vec<usize>,
    pub(crate) dial: Vec<usize>,
    pub(crate) clock: Vec<usize>,
    pub(crate) keeper: Vec<usize>,
    pub(crate) read: Vec<usize>,
    pub(crate) write: Vec<usize>,
    pub(crate) shelf: Vec<u64>,
}

/// What a row is run over.
#[derive(Drop)]
pub(crate) struct Given {
    pub(crate) input: Vec<u8>,
    pub(crate) moments: Vec<Moment>,
    pub(crate) kept: u64,
    pub(crate) come: Vec<Connection>,
    pub(crate) dialled: Vec<Connection>,
    pub(crate) shelf: List<Put>,
    pub(crate) fails: Fails,
}

impl Given {
    /// What the row says.
    pub(crate) fn of(alloc: Global, row: &Members<'_>) -> Result<Self> {
        Ok(Given {
            input: row.text(alloc, "input")?,
            moments: moments_of(alloc, row)?,
            kept: row.number("kept")?,
            come: connections_of(alloc, row, "come")?,
            dialled: connections_of(alloc, row, "dialled")?,
            shelf: puts_of(alloc, row)?,
            fails: fails_of(alloc, row)?,
        })
    }
}

/// The words of a command, as they are typed.
pub(crate) fn words_of(alloc: Global, command: &str) -> Result<Vec<String>> {
    let mut words = command.split_ascii_whitespace();
    if words.next() != Some("siri") {
        bail!("a command begins with siri");
    }
    let mut all = Vec::new(alloc);
    for word in words {
        all.push(String::from_str(alloc, word)?)?;
    }
    Ok(all)
}

/// The moments to come.
fn moments_of(alloc: Global, row: &Members<'_>) -> Result<Vec<Moment>> {
    let mut all = Vec::new(alloc);
    for text in row.texts(alloc, "moments")? {
        match read_moment(&text) {
            Ok(moment) => all.push(moment)?,
            Err(_) => bail!("no moment"),
        }
    }
    Ok(all)
}

/// The connections of a list.
fn connections_of(alloc: Global, row: &Members<'_>, name: &str) -> Result<Vec<Connection>> {
    let mut all = Vec::new(alloc);
    for entry in row.list(name)? {
        all.push(connection_of(alloc, row, entry)?)?;
    }
    Ok(all)
}

/// A connection, by what it brings, or with its failures.
fn connection_of(alloc: Global, row: &Members<'_>, entry: &Value) -> Result<Connection> {
    let Some(table) = entry.as_table() else {
        return Ok(Connection {
            input: row.text_of(alloc, entry)?,
            read: Vec::new(alloc),
            write: Vec::new(alloc),
        });
    };
    has_only(table, &["input", "read", "write"])?;
    Ok(Connection {
        input: row.text_in(alloc, table, "input")?,
        read: places_in(alloc, table, "read")?,
        write: places_in(alloc, table, "write")?,
    })
}

/// The places of a list.
fn places_in(alloc: Global, table: &Table, name: &str) -> Result<Vec<usize>> {
    let mut all = Vec::new(alloc);
    for number in numbers_in(alloc, table, name)? {
        all.push(usize::try_from(number)?)?;
    }
    Ok(all)
}

/// What puts the rows of the shelf.
fn puts_of(alloc: Global, row: &Members<'_>) -> Result<List<Put>> {
    let mut puts = List::new(alloc);
    for entry in row.list("shelf")? {
        let entry = entry.as_table().context("a row of the shelf is no table")?;
        has_only(entry, &["table", "key", "text"])?;
        puts.push(Put {
            table: table_of(entry)?,
            key: List::of(row.text_in(alloc, entry, "key")?),
            text: Some(List::of(row.text_in(alloc, entry, "text")?)),
        })?;
    }
    Ok(puts)
}

/// The number of the table of a row of the shelf.
pub(crate) fn table_of(entry: &Table) -> Result<u8> {
    let number = number_of(
        entry
            .get("table")
            .context("a row of the shelf without a table")?,
    )?;
    Ok(u8::try_from(number)?)
}

/// The calls that fail. The first two calls of a shelf put its rows, and are none of the run's.
fn fails_of(alloc: Global, row: &Members<'_>) -> Result<Fails> {
    let none = Table::new(alloc);
    let fails = match row.get("fails") {
        Some(fails) => fails.as_table().context("fails is no table")?,
        None => &none,
    };
    has_only(fails, &CALLS)?;
    let mut shelf = numbers_in(alloc, fails, "shelf")?;
    for number in &mut shelf {
        *number = number.saturating_add(2);
    }
    Ok(Fails {
        listen: places_in(alloc, fails, "listen")?,
        accept: places_in(alloc, fails, "accept")?,
        dial: places_in(alloc, fails, "dial")?,
        clock: places_in(alloc, fails, "clock")?,
        keeper: places_in(alloc, fails, "keeper")?,
        read: places_in(alloc, fails, "read")?,
        write: places_in(alloc, fails, "write")?,
        shelf,
    })
}

/// The names of the calls that may fail.
const CALLS: [&str; 8] = [
    "listen", "accept", "dial", "clock", "keeper", "read", "write", "shelf",
];
