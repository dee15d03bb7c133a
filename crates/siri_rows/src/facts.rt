//! What is wanted of a row, and what came of it, as facts that are compared one by one.

use crate::given::table_of;
use crate::members::{Members, has_only};
use anyhow::{Context, Result};
use siri_outside::StoredRow;
use std::alloc::Global;

/// A fact: what it is about, and what it says.
#[derive(Drop)]
pub(crate) struct Fact {
    pub(crate) label: &'static str,
    pub(crate) says: Vec<u8>,
}

/// Facts, in an order that doesn't turn on what they say.
#[derive(Drop)]
pub(crate) struct Facts {
    pub(crate) all: Vec<Fact>,
}

impl Facts {
    /// None yet.
    pub(crate) fn new(alloc: Global) -> Self {
        Facts {
            all: Vec::new(alloc),
        }
    }

    /// Puts a fact at the end.
    pub(crate) fn put(&mut self, label: &'static str, says: Vec<u8>) -> Result<()> {
        self.all.push(Fact { label, says })?;
        Ok(())
    }
}

/// What is wanted of a row, whose output is in the member of this name.
pub(crate) fn wanted_of(alloc: Global, row: &Members<'_>, output: &str) -> Result<Facts> {
    let mut facts = Facts::new(alloc);
    let status = row.number("status")?.to_string(alloc)?;
    facts.put("status", status.into_bytes())?;
    facts.put("told", row.text(alloc, "told")?)?;
    facts.put("output", row.text(alloc, output)?)?;
    facts.put("named", lines_of(alloc, &row.texts(alloc, "named")?)?)?;
    if row.get("unread").is_some() {
        facts.put("unread", row.text(alloc, "unread")?)?;
    }
    if row.get("shelf_after").is_some() {
        facts.put("shelf after", shelf_wanted(alloc, row)?)?;
    }
    for sent in row.texts(alloc, "sent")? {
        facts.put("sent", sent)?;
    }
    Ok(facts)
}

/// Texts, each with a line's end.
fn lines_of(alloc: Global, texts: &[Vec<u8>]) -> Result<Vec<u8>> {
    let mut lines = Vec::new(alloc);
    for text in texts {
        lines.extend_from_slice(text)?;
        lines.push(b'\n')?;
    }
    Ok(lines)
}

/// Puts a row of a shelf at the end, as lines.
fn append_row(
    alloc: Global,
    lines: &mut Vec<u8>,
    table: u8,
    key: &[u8],
    text: &[u8],
) -> Result<()> {
    lines.extend_from_slice(table.to_string(alloc)?.as_bytes())?;
    lines.push(b' ')?;
    lines.extend_from_slice(key)?;
    lines.extend_from_slice(b"\n    ")?;
    lines.extend_from_slice(text)?;
    lines.push(b'\n')?;
    Ok(())
}

/// The rows that the shelf is to hold.
fn shelf_wanted(alloc: Global, row: &Members<'_>) -> Result<Vec<u8>> {
    let mut lines = Vec::new(alloc);
    for entry in row.list("shelf_after")? {
        let entry = entry.as_table().context("a row of the shelf is no table")?;
        has_only(entry, &["table", "key", "text"])?;
        let key = row.text_in(alloc, entry, "key")?;
        let text = row.text_in(alloc, entry, "text")?;
        append_row(alloc, &mut lines, table_of(entry)?, &key, &text)?;
    }
    Ok(lines)
}

/// The rows that a shelf holds.
pub(crate) fn shelf_held(alloc: Global, rows: &[StoredRow]) -> Result<Vec<u8>> {
    let mut lines = Vec::new(alloc);
    for row in rows {
        append_row(
            alloc,
            &mut lines,
            row.table,
            row.key.slice(),
            row.text.slice(),
        )?;
    }
    Ok(lines)
}
