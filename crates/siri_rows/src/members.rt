//! The members of a row: its own, and those that it has of others.

use crate::texts::Texts;
use anyhow::{Context, Result, anyhow, bail};
use std::alloc::Global;
use toml::{Table, Value};

/// All members that a row may have.
const KNOWN: [&str; 19] = [
    "name",
    "like",
    "command",
    "input",
    "moments",
    "kept",
    "come",
    "dialled",
    "shelf",
    "fails",
    "sent",
    "named",
    "output",
    "check",
    "convert",
    "status",
    "told",
    "unread",
    "shelf_after",
];

/// How many tables a row may have members of.
const MOST_TABLES: usize = 32;

/// A row, with the tables of which it has what it doesn't say itself, in the order in which they are asked.
#[derive(Drop)]
pub(crate) struct Members<'a> {
    tables: Vec<&'a Table>,
    texts: Texts<'a>,
}

impl<'a> Members<'a> {
    /// A row of a file, with what all files share.
    pub(crate) fn of(
        alloc: Global,
        row: &'a Table,
        file: &'a Table,
        shared: &'a Table,
    ) -> Result<Self> {
        Ok(Members {
            tables: tables_of(alloc, row, file, shared)?,
            texts: Texts::new(file, shared),
        })
    }

    /// A member.
    pub(crate) fn get(&self, name: &str) -> Option<&'a Value> {
        for table in &self.tables {
            if let Some(value) = table.get(name) {
                return Some(value);
            }
        }
        None
    }

    /// The entries of a member that is a list.
    pub(crate) fn list(&self, name: &str) -> Result<&'a [Value]> {
        match self.get(name) {
            Some(Value::Array(entries)) => Ok(entries.as_slice()),
            Some(_) => Err(anyhow!("{name} is no list")),
            None => Ok(&[]),
        }
    }

    /// A member that is a number.
    pub(crate) fn number(&self, name: &str) -> Result<u64> {
        match self.get(name) {
            Some(value) => number_of(value),
            None => Ok(0),
        }
    }

    /// A member that is a text.
    pub(crate) fn text(&self, alloc: Global, name: &str) -> Result<Vec<u8>> {
        match self.get(name) {
            Some(value) => self.texts.bytes(alloc, value),
            None => Ok(Vec::new(alloc)),
        }
    }

    /// A member that is a list of texts.
    pub(crate) fn texts(&self, alloc: Global, name: &str) -> Result<Vec<Vec<u8>>> {
        let mut all = Vec::new(alloc);
        for entry in self.list(name)? {
            all.push(self.texts.bytes(alloc, entry)?)?;
        }
        Ok(all)
    }

    /// A text of an entry, or an empty one where the entry has none of this name.
    pub(crate) fn text_in(&self, alloc: Global, entry: &Table, name: &str) -> Result<Vec<u8>> {
        match entry.get(name) {
            Some(value) => self.texts.bytes(alloc, value),
            None => Ok(Vec::new(alloc)),
        }
    }

    /// A text that stands in the row's place of it.
    pub(crate) fn text_of(&self, alloc: Global, value: &Value) -> Result<Vec<u8>> {
        self.texts.bytes(alloc, value)
    }
}

/// The number that a value is.
pub(crate) fn number_of(value: &Value) -> Result<u64> {
    let number = value.as_integer().context("no number")?;
    Ok(u64::try_from(number)?)
}

/// The numbers of a list of an entry, none where there is no list of this name.
pub(crate) fn numbers_in(alloc: Global, entry: &Table, name: &str) -> Result<Vec<u64>> {
    let mut all = Vec::new(alloc);
    if let Some(list) = entry.get(name) {
        for value in list.as_array().context("no list of numbers")? {
            all.push(number_of(value)?)?;
        }
    }
    Ok(all)
}

/// Whether an entry has these members and no other one.
pub(crate) fn has_only(entry: &Table, known: &[&str]) -> Result<()> {
    for name in entry.keys() {
        if !known.iter().any(|it| *it == name.as_str()) {
            bail!("no such member: {name}");
        }
    }
    Ok(())
}

/// A row, those that it is like, those that these are like, and so on, and at last what all rows of its file have.
fn tables_of<'a>(
    alloc: Global,
    row: &'a Table,
    file: &'a Table,
    shared: &'a Table,
) -> Result<Vec<&'a Table>> {
    let mut tables = Vec::new(alloc);
    tables.push(row)?;
    for place in 0..MOST_TABLES {
        let Some(table) = tables.get(place).copied() else {
            break;
        };
        has_only(table, &KNOWN)?;
        append_likes(&mut tables, table, file, shared)?;
    }
    if let Some(all) = file.get("all") {
        let all = all.as_table().context("all is no table")?;
        has_only(all, &KNOWN)?;
        tables.push(all)?;
    }
    Ok(tables)
}

/// Puts the tables at the end that a table is like.
fn append_likes<'a>(
    tables: &mut Vec<&'a Table>,
    table: &'a Table,
    file: &'a Table,
    shared: &'a Table,
) -> Result<()> {
    let Some(names) = table.get("like") else {
        return Ok(());
    };
    for name in names.as_array().context("like is no list")? {
        let name = name.as_str().context("like is no list of names")?;
        match liked(file, name).or(liked(shared, name)) {
            Some(like) => tables.push(like)?,
            None => bail!("nothing to be like: {name}"),
        }
    }
    Ok(())
}

/// The table of a name that rows may be like.
fn liked<'a>(file: &'a Table, name: &str) -> Option<&'a Table> {
    file.get("like")?.as_table()?.get(name)?.as_table()
}
