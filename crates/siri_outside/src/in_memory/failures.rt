//! Failures that are named beforehand.

ghost use Rattle.std.specs.Prelude.{◌≡◌, ℕ, ◌<◌, ◌≤◌, ◌↔◌, List, IsTrue, MatchBool};
ghost use Rattle.siri_outside.specs.Failures.{IsDue, after_call, Passes, Came};
ghost use Rattle.siri_outside.specs.InMemoryFailures.{Reaches};

use std::marker::Model;

/// The failures to come, each by what passes before it, counted from the failure before it: bytes, or calls.
#[derive(Drop)]
pub(crate) struct Failures<'a> {
    /// What still passes before the next.
    next: Option<usize>,
    later: &'a [usize],
}

impl<'a> Model for Failures<'a> {
    ghost use Rattle.std.specs.Prelude.{ℕ, List};
    ghost use Rattle.siri_outside.specs.InMemoryFailures.{failures_of};

    ghost Value = { List ℕ };

    ghost view = { λ f. failures_of f.next f.later.now };
}

impl<'a> Failures<'a> {
    /// These failures.
    pub(crate) fn new(failures: &'a [usize]) -> Self
        ensures { result ≡ failures.now }
    {
        match failures.split_first() {
            Some((next, later)) => Failures {
                next: Some(*next),
                later,
            },
            None => Failures {
                next: None,
                later: failures,
            },
        }
    }

    /// Whether the next call fails.
    pub(crate) fn is_due(&self) -> bool
        ensures { IsTrue result ↔ IsDue self.now }
    {
        self.next == Some(0)
    }

    /// Counts a call; the failure that was due is over then.
    pub(crate) fn count(&mut self)
        ensures { self.new ≡ after_call self.old }
    {
        match self.next {
            None => {}
            Some(0) => *self = Failures::new(self.later),
            Some(before) => self.next = Some(before - 1),
        }
    }

    /// Counts a call, and tells whether it fails.
    pub(crate) fn call(&mut self) -> bool
        ensures due { IsTrue result ↔ IsDue self.old }
        ensures counted { self.new ≡ after_call self.old }
    {
        let due = self.is_due();
        self.count();
        due
    }

    /// Whether a call over so many bytes fails; the failure that was due is over then.
    pub(crate) fn comes(&mut self, length: usize) -> bool
        ensures { MatchBool result (Came self.old self.new length) ((self.new ≡ self.old) × (IsDue self.old → length ≡ 0)) }
    {
        if self.next == Some(0) && length > 0 {
            *self = Failures::new(self.later);
            return true;
        }
        false
    }

    /// So many bytes, or fewer where a failure comes before them.
    pub(crate) fn room(&self, count: usize) -> usize
        ensures most { result ≤ count }
        ensures reaches { Reaches self.now result }
        ensures some { (IsDue self.now → ⊥) → 0 < count → 0 < result }
    {
        match self.next {
            Some(before) => count.min(before),
            None => count,
        }
    }

    /// So many bytes pass, no more than come before the next failure.
    pub(crate) fn pass(&mut self, count: usize)
        requires { Reaches self.old count }
        ensures { Passes self.old self.new count }
    {
        if let Some(before) = self.next {
            self.next = Some(before - count);
        }
    }
}
