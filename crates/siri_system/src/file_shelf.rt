//! A shelf in a file.

ghost use Rattle.std.specs.Prelude.{◌≡◌, IsErrOf, IsSome, None, OnErr, OnOk};
ghost use Rattle.siri_outside.specs.Causes.{HasOutsideCause};
ghost use Rattle.siri_outside.specs.declared.errors.OutsideError.TheVariants as outside;
ghost use Rattle.siri_outside.specs.Shelves.{CountsFault};
ghost use Rattle.siri_system.specs.Refusals.{fault_after, outcome_of};

use crate::database::DatabaseCall;
use crate::opened::FileDatabase;
use siri_base::{List, Name};
use siri_outside::{OutsideError, Put, Row, Shelf};
use sqlite::{Error, ErrorCode};

/// Rows in a file that `sqlite3` reads: a table `shelf` with the columns `part` (the table), `place` (the key) and
/// `content` (the text). While it is open no other process can open the file. Each refusal of the database but want of
/// memory counts as a fault, and the last is kept.
pub struct FileShelf {
    rt: HostRuntime,
    database: Option<FileDatabase>,
    fault: Option<Error>,
    faults: u64,
}

impl Drop for FileShelf {
    fn drop(self) {
        let FileShelf {
            rt: _,
            database: _,
            fault: _,
            faults: _,
        } = self;
    }
}

impl FileShelf {
    /// A shelf with no file open.
    pub fn new(rt: HostRuntime) -> FileShelf
        ensures faults { ⟦<FileShelf as Shelf>⟧.faults result ≡ 0 }
        ensures fault { result.fault ≡ None }
    {
        FileShelf {
            rt,
            database: None,
            fault: None,
            faults: 0,
        }
    }

    /// What the database told at the last failure.
    pub fn fault(&self) -> Option<Error>
        ensures { result ≡ self.now.fault }
    {
        self.fault
    }
}

/// What a call of the database comes to. A refusal for another cause than memory is a fault, which is counted and kept.
fn counted<T: Drop>(
    fault: &mut Option<Error>,
    faults: &mut u64,
    answer: Result<T, Error>,
) -> Result<T, OutsideError>
    ensures outcome { result ≡ outcome_of answer }
    ensures fault { fault.new ≡ fault_after fault.old answer }
    ensures cause { HasOutsideCause faults.old faults.new result }
    ensures counted { CountsFault faults.old faults.new result }
    ensures told { IsErrOf result outside.Failed → IsSome fault.new }
{
    match answer {
        Ok(value) => Ok(value),
        Err(Error::SqliteFailure(ErrorCode::OutOfMemory)) => Err(OutsideError::OutOfMemory),
        Err(error) => {
            *fault = Some(error);
            *faults = faults.saturating_add(1);
            Err(OutsideError::Failed)
        }
    }
}

impl Shelf for FileShelf {
    ghost is_open = { λ s. IsSome s.database };

    ghost tells = { λ s. None };

    ghost faults = { λ s. s.faults };

    /// Besides what the trait says: the database's words are kept where it fails.
    fn open(&mut self, file: &Name) -> Result<(), OutsideError>
        ensures open { OnOk result (IsSome self.new.database) }
        ensures closed { OnErr result (¬ IsSome self.new.database) }
        ensures cause { HasOutsideCause self.old.faults self.new.faults result }
        ensures counted { CountsFault self.old.faults self.new.faults result }
        ensures fault { IsErrOf result outside.Failed → IsSome self.new.fault }
    {
        self.database = None;
        let opened = FileDatabase::open(&self.rt, file.text());
        let database = counted(&mut self.fault, &mut self.faults, opened)?;
        self.database = Some(database);
        Ok(())
    }

    /// The same.
    fn next(&mut self, table: u8, after: Option<&[u8]>) -> Result<Option<Row>, OutsideError>
        requires { IsSome self.old.database }
        ensures open { IsSome self.new.database }
        ensures cause { HasOutsideCause self.old.faults self.new.faults result }
        ensures counted { CountsFault self.old.faults self.new.faults result }
        ensures fault { IsErrOf result outside.Failed → IsSome self.new.fault }
    {
        match &mut self.database {
            Some(database) => {
                let found = database.ask(DatabaseCall::Next { table, after });
                counted(&mut self.fault, &mut self.faults, found)
            }
            None => unreachable!(),
        }
    }

    /// The same.
    fn write(&mut self, list: &List<Put>) -> Result<(), OutsideError>
        requires { IsSome self.old.database }
        ensures open { IsSome self.new.database }
        ensures cause { HasOutsideCause self.old.faults self.new.faults result }
        ensures counted { CountsFault self.old.faults self.new.faults result }
        ensures fault { IsErrOf result outside.Failed → IsSome self.new.fault }
    {
        match &mut self.database {
            Some(database) => {
                let written = database.ask(DatabaseCall::Write(list.slice()));
                counted(&mut self.fault, &mut self.faults, written)?;
                Ok(())
            }
            None => unreachable!(),
        }
    }
}
