//! Keepers of the start number in memory.

ghost use Rattle.std.specs.Prelude.{◌≡◌, Some, []};

use super::failures::Failures;
use crate::{Keeper, OutsideError};

/// The greatest number that is kept.
const GREATEST_START: u64 = 99_999_999_999;

/// A number that is kept in memory. It fails at 99,999,999,999.
#[derive(Drop)]
pub struct InMemoryKeeper {
    number: u64,
    faults: u64,
}

impl InMemoryKeeper {
    /// A keeper of this number.
    pub fn new(number: u64) -> Self
        ensures tells { ⟦<InMemoryKeeper as Keeper>⟧.tells result ≡ Some (record { kept = number; fails = [] }) }
        ensures faults { ⟦<InMemoryKeeper as Keeper>⟧.faults result ≡ 0 }
    {
        InMemoryKeeper { number, faults: 0 }
    }
}

impl Keeper for InMemoryKeeper {
    ghost tells = { λ k. Some (record { kept = k.number; fails = [] }) };

    ghost faults = { λ k. k.faults };

    fn raise(&mut self) -> Result<u64, OutsideError> {
        if self.number >= GREATEST_START {
            self.faults = self.faults.saturating_add(1);
            return Err(OutsideError::Failed);
        }
        self.number += 1;
        Ok(self.number)
    }
}

/// A number that is kept in memory, with failures that are named beforehand. It fails at those, and at 99,999,999,999.
#[derive(Drop)]
pub struct FailingKeeper<'a> {
    number: u64,
    failures: Failures<'a>,
    faults: u64,
}

impl<'a> FailingKeeper<'a> {
    /// A keeper of this number with these failures, each by how many calls come before it, counted from the failure
    /// before it. A call that fails so leaves the number as it is.
    pub fn new(number: u64, failures: &'a [usize]) -> Self
        ensures tells { ⟦<FailingKeeper<'a> as Keeper>⟧.tells result ≡ Some (record { kept = number; fails = failures.now }) }
        ensures faults { ⟦<FailingKeeper<'a> as Keeper>⟧.faults result ≡ 0 }
    {
        FailingKeeper {
            number,
            failures: Failures::new(failures),
            faults: 0,
        }
    }
}

impl<'a> Keeper for FailingKeeper<'a> {
    ghost tells = { λ k. Some (record { kept = k.number; fails = k.failures }) };

    ghost faults = { λ k. k.faults };

    fn raise(&mut self) -> Result<u64, OutsideError> {
        if self.failures.call() || self.number >= GREATEST_START {
            self.faults = self.faults.saturating_add(1);
            return Err(OutsideError::Failed);
        }
        self.number += 1;
        Ok(self.number)
    }
}
