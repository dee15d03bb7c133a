//! The store's own counter of steps.

ghost use Rattle.std.specs.Prelude.{◌≡◌, ◌<◌, ◌^◌};
ghost use Rattle.siri_store.specs.Held.{counted};

use std::marker::Model;

/// How many held items were looked at. It never falls, and stays where it can rise no more. No other crate gets one:
/// only the store makes and raises it.
#[derive(Drop)]
pub(crate) struct Counter {
    steps: u64,
}

impl Model for Counter {
    ghost use Rattle.std.specs.Prelude.{ℕ};

    ghost Value = { ℕ };

    ghost view = { λ c. c.steps };
}

impl Counter {
    /// No step was counted yet.
    pub(crate) fn new() -> Counter
        ensures { result ≡ 0 }
    {
        Counter { steps: 0 }
    }

    /// The steps that were counted.
    pub(crate) fn steps(&self) -> u64
        ensures { result ≡ self.now }
    {
        self.steps
    }

    /// One more step.
    pub(crate) fn count(&mut self)
        ensures step { self.new ≡ counted self.old 1 }
        ensures fits { self.old < 2 ^ 64 }
    {
        self.steps = self.steps.saturating_add(1);
    }
}
