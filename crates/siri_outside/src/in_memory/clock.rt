//! Clocks in memory.

ghost use Rattle.std.specs.Prelude.{◌≡◌, Some, []};

use super::failures::Failures;
use crate::{Clock, Failed};
use siri_base::Moment;

/// A clock with moments to come. It fails where none is left.
#[derive(Drop)]
pub struct InMemoryClock<'a> {
    moments: &'a [Moment],
    faults: u64,
}

impl<'a> InMemoryClock<'a> {
    /// A clock that gives these moments, one after the other.
    pub fn new(moments: &'a [Moment]) -> Self
        ensures tells { ⟦<InMemoryClock<'a> as Clock>⟧.tells result ≡ Some (record { coming = moments.now; fails = [] }) }
        ensures faults { ⟦<InMemoryClock<'a> as Clock>⟧.faults result ≡ 0 }
    {
        InMemoryClock { moments, faults: 0 }
    }
}

impl<'a> Clock for InMemoryClock<'a> {
    ghost tells = { λ c. Some (record { coming = c.moments.now; fails = [] }) };

    ghost faults = { λ c. c.faults };

    fn now(&mut self) -> Result<Moment, Failed> {
        match self.moments.split_first() {
            Some((moment, later)) => {
                self.moments = later;
                Ok(*moment)
            }
            None => {
                self.faults = self.faults.saturating_add(1);
                Err(Failed)
            }
        }
    }
}

/// A clock with moments to come and with failures that are named beforehand. It fails at those, and where no moment is
/// left.
#[derive(Drop)]
pub struct FailingClock<'a> {
    moments: &'a [Moment],
    failures: Failures<'a>,
    faults: u64,
}

impl<'a> FailingClock<'a> {
    /// A clock that gives these moments, one after the other, with these failures, each by how many calls come before
    /// it, counted from the failure before it: `[2, 0]` fails at the third call and at the fourth. A call that fails so
    /// takes no moment.
    pub fn new(moments: &'a [Moment], failures: &'a [usize]) -> Self
        ensures tells { ⟦<FailingClock<'a> as Clock>⟧.tells result ≡ Some (record { coming = moments.now; fails = failures.now }) }
        ensures faults { ⟦<FailingClock<'a> as Clock>⟧.faults result ≡ 0 }
    {
        FailingClock {
            moments,
            failures: Failures::new(failures),
            faults: 0,
        }
    }
}

impl<'a> Clock for FailingClock<'a> {
    ghost tells = { λ c. Some (record { coming = c.moments.now; fails = c.failures }) };

    ghost faults = { λ c. c.faults };

    fn now(&mut self) -> Result<Moment, Failed> {
        if !self.failures.call() {
            if let Some((moment, later)) = self.moments.split_first() {
                self.moments = later;
                return Ok(*moment);
            }
        }
        self.faults = self.faults.saturating_add(1);
        Err(Failed)
    }
}
