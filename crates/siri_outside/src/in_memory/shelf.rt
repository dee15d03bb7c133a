//! A shelf in memory.

ghost use Rattle.std.specs.Prelude.{◌≡◌, ◌≤◌, [], false, true, Some, length, option_map, slice_get, OnErr, OnOk};
ghost use Rattle.siri_outside.specs.Causes.{HasOutsideCause, Rose};
ghost use Rattle.siri_outside.specs.OutsideCalls.{WhereTold};
ghost use Rattle.siri_outside.specs.InMemoryShelves.{Called, FailsWhere, InMemory, is_failing, is_stopped};
ghost use Rattle.siri_outside.specs.declared.errors.OutsideError.TheVariants as outside;
ghost use Rattle.siri_outside.specs.Shelves.{CountsFault, GivesRow, Opens, Writes, after_fault, key_after};

use crate::following::next_row;
use crate::puts::after_puts;
use crate::trail::append_two;
use crate::{OutsideError, Put, Row, Shelf, StoredRow};
use siri_base::{Copies, List, Name};
use std::alloc::Global;
use std::marker::Model;

/// Rows in memory, with calls that are to fail, and a stop, named beforehand. It holds the same rows whatever file is
/// opened, and keeps all that a stop may have left, moment by moment, and the names of the files.
pub struct InMemoryShelf<'a> {
    alloc: Global,
    rows: List<StoredRow>,
    /// What a stop may have left since it was opened, moment by moment.
    trail: Vec<List<StoredRow>>,
    /// The names of the files that were to be opened.
    named: Vec<Name>,
    is_open: bool,
    /// The calls that fail, counted from 0.
    fails: &'a [u64],
    /// The call from which on all fail.
    stop: Option<u64>,
    calls: u64,
    faults: u64,
}

impl Drop for InMemoryShelf<'_> {
    fn drop(self) {
        let InMemoryShelf {
            alloc: _,
            rows: _,
            trail: _,
            named: _,
            is_open: _,
            fails: _,
            stop: _,
            calls: _,
            faults: _,
        } = self;
    }
}

impl<'a> Model for InMemoryShelf<'a> {
    ghost use Rattle.siri_outside.specs.Rows.{HasByteTables, InOrder};
    ghost use Rattle.siri_outside.specs.InMemoryShelves.{InMemory};

    ghost Value = { InMemory };

    ghost view = { λ s. record {
      state = record { rows = s.rows; trail = s.trail.items; named = s.named.items };
      is_open = s.is_open;
      fails = s.fails.now;
      stop = s.stop;
      calls = s.calls;
      faults = s.faults;
    } };

    ghost invariant = { λ s. InOrder s.rows × HasByteTables s.rows };
}

impl<'a> InMemoryShelf<'a> {
    /// A shelf that holds nothing, with no file open. Those of its calls fail that are named, counted from 0, and all
    /// from the stop on. It takes no memory.
    pub fn new(alloc: Global, fails: &'a [u64], stop: Option<u64>) -> Self
        ensures shelf { result ≡ record { state = record { rows = []; trail = []; named = [] }; is_open = false; fails = fails.now; stop = stop; calls = 0; faults = 0 } }
        ensures tells { ⟦<InMemoryShelf<'a> as Shelf>⟧.tells result ≡ Some (record { rows = []; trail = []; named = [] }) }
        ensures faults { ⟦<InMemoryShelf<'a> as Shelf>⟧.faults result ≡ 0 }
    {
        InMemoryShelf {
            alloc,
            rows: List::new(alloc),
            trail: Vec::new(alloc),
            named: Vec::new(alloc),
            is_open: false,
            fails,
            stop,
            calls: 0,
            faults: 0,
        }
    }

    /// The rows that a stop may have left at a moment since it was opened; the moments count from 0. `None` exactly
    /// where there was no such moment.
    pub fn left_at(&self, moment: usize) -> Option<&List<StoredRow>>
        ensures { option_map (λ rows. rows.now) result ≡ slice_get self.now.state.trail moment }
    {
        self.trail.get(moment)
    }

    /// How many moments there were since it was opened.
    pub fn moments(&self) -> usize
        ensures { result ≡ length self.now.state.trail }
    {
        self.trail.len()
    }

    /// The names of the files that were to be opened, in order, whether the call failed or not.
    pub fn files(&self) -> &[Name]
        ensures { result.now ≡ self.now.state.named }
    {
        &self.named
    }

    /// Whether the next call isn't before the stop.
    fn is_stopped(&self) -> bool
        ensures { result ≡ is_stopped self.now.stop self.now.calls }
    {
        match self.stop {
            Some(stop) => stop <= self.calls,
            None => false,
        }
    }

    /// Counts a call, and tells whether it fails.
    fn call(&mut self) -> bool
        ensures fails { result ≡ is_failing self.old }
        ensures called { Called self.old self.new }
        ensures rest { self.new ≡ record self.old { calls = self.new.calls } }
    {
        let fails = self.is_stopped() || self.fails.contains(&self.calls);
        self.calls = self.calls.saturating_add(1);
        fails
    }

    /// Counts a failure, and gives what the call that failed answers.
    fn fault(&mut self) -> OutsideError
        ensures counted { self.new ≡ record self.old { faults = after_fault self.old.faults } }
        ensures later { self.old.faults ≤ self.new.faults }
        ensures rose { Rose self.old.faults self.new.faults }
        ensures failed { result ≡ outside.Failed }
    {
        self.faults = self.faults.saturating_add(1);
        OutsideError::Failed
    }
}

impl<'a> Shelf for InMemoryShelf<'a> {
    ghost is_open = { λ s. s.is_open ≡ true };

    ghost tells = { λ s. Some s.state };

    ghost faults = { λ s. s.faults };

    /// Besides what the trait says: it fails exactly where it is to fail, unless memory is wanting first.
    fn open(&mut self, file: &Name) -> Result<(), OutsideError>
        ensures open { OnOk result (self.new.is_open ≡ true) }
        ensures closed { OnErr result (¬ (self.new.is_open ≡ true)) }
        ensures told { WhereTold (Some self.old.state) (Some self.new.state) (λ old new. Opens file.now old new result) }
        ensures cause { HasOutsideCause self.old.faults self.new.faults result }
        ensures counted { CountsFault self.old.faults self.new.faults result }
        ensures called { Called self.old self.new }
        ensures failing { FailsWhere self.old result }
    {
        self.is_open = false;
        let fails = self.call();
        let mut trail = Vec::new(self.alloc);
        trail.push(self.rows.copy()?)?;
        self.named.push(file.copy()?)?;
        if fails {
            return Err(self.fault());
        }
        self.trail = trail;
        self.is_open = true;
        Ok(())
    }

    /// The same.
    fn next(&mut self, table: u8, after: Option<&[u8]>) -> Result<Option<Row>, OutsideError>
        requires { self.old.is_open ≡ true }
        ensures open { self.new.is_open ≡ true }
        ensures told { WhereTold (Some self.old.state) (Some self.new.state) (λ old new. GivesRow table (key_after after.entry) old new result) }
        ensures cause { HasOutsideCause self.old.faults self.new.faults result }
        ensures counted { CountsFault self.old.faults self.new.faults result }
        ensures called { Called self.old self.new }
        ensures failing { FailsWhere self.old result }
    {
        if self.call() {
            return Err(self.fault());
        }
        Ok(next_row(self.rows.slice(), table, after)?)
    }

    /// The same.
    fn write(&mut self, list: &List<Put>) -> Result<(), OutsideError>
        requires { self.old.is_open ≡ true }
        ensures open { self.new.is_open ≡ true }
        ensures told { WhereTold (Some self.old.state) (Some self.new.state) (λ old new. Writes list.now old new result) }
        ensures cause { HasOutsideCause self.old.faults self.new.faults result }
        ensures counted { CountsFault self.old.faults self.new.faults result }
        ensures called { Called self.old self.new }
        ensures failing { FailsWhere self.old result }
    {
        let fails = self.call();
        let rows = after_puts(self.alloc, self.rows.copy()?, list.slice())?;
        let left = rows.copy()?;
        if fails {
            append_two(&mut self.trail, left, self.rows.copy()?)?;
            return Err(self.fault());
        }
        self.trail.push(left)?;
        self.rows = rows;
        Ok(())
    }
}
