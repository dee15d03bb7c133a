//! Rows of tables, and what is to become of them.

use siri_base::{Copies, List, OutOfMemory};

/// A row, without its table.
#[derive(Debug)]
pub struct Row {
    /// Its key, which no other row of its table has.
    pub key: List<u8>,
    /// Its text.
    pub text: List<u8>,
}

impl Drop for Row {
    fn drop(self) {
        let Row { key: _, text: _ } = self;
    }
}

/// A row of a table.
#[derive(Debug)]
pub struct StoredRow {
    /// Its table.
    pub table: u8,
    /// Its key, which no other row of its table has.
    pub key: List<u8>,
    /// Its text.
    pub text: List<u8>,
}

impl Drop for StoredRow {
    fn drop(self) {
        let StoredRow {
            table: _,
            key: _,
            text: _,
        } = self;
    }
}

impl Copies for StoredRow {
    fn copy(&self) -> Result<Self, OutOfMemory> {
        Ok(StoredRow {
            table: self.table,
            key: self.key.copy()?,
            text: self.text.copy()?,
        })
    }
}

/// What becomes of the row of a table and a key, whether there is one or not: it has this text, or is there no more.
#[derive(Debug)]
pub struct Put {
    /// The table.
    pub table: u8,
    /// The key.
    pub key: List<u8>,
    /// The text that the row has from then on; none where there is to be no row.
    pub text: Option<List<u8>>,
}

impl Drop for Put {
    fn drop(self) {
        let Put {
            table: _,
            key: _,
            text: _,
        } = self;
    }
}
