//! The database of a file.

use crate::database::{DatabaseCall, ask};
use siri_outside::Row;
use sqlite::{Connection, Error, FileFrom, FileStore, Wary};

/// A database in a file, with the table of the rows. Each write that ends is synced, and a stop leaves its log beside the
/// file for the next open. While it is there, the file is locked.
pub(crate) struct FileDatabase {
    database: Connection<FileStore<FileFrom<Wary>>>,
}

impl Drop for FileDatabase {
    fn drop(self) {
        let FileDatabase { database: _ } = self;
    }
}

/// The database of a file, which is made where there is none.
fn connect(rt: &HostRuntime, file: &str) -> Result<FileDatabase, Error> {
    match Connection::open_from(rt, file, true, Wary) {
        Ok(database) => Ok(FileDatabase { database }),
        Err((error, _)) => Err(error),
    }
}

impl FileDatabase {
    /// The database of a file with its table, both made where there are none. It is refused where another process, or
    /// another one of these, has the file open.
    pub(crate) fn open(rt: &HostRuntime, file: &str) -> Result<FileDatabase, Error> {
        let mut opened = connect(rt, file)?;
        opened.ask(DatabaseCall::Table)?;
        Ok(opened)
    }

    /// Does what is asked of the database, and gives the row that was asked for, where there is one.
    pub(crate) fn ask(&mut self, asked: DatabaseCall<'_>) -> Result<Option<Row>, Error> {
        ask(&mut self.database, asked)
    }
}
