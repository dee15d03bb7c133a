//! Moments at which the time of something is over.

use std::time::{Duration, Instant};

/// A moment at which the time of something is over.
#[derive(Clone, Copy, Drop)]
pub(crate) struct Limit {
    end: Instant,
}

/// The moment so much later; that one where the system's clock has none.
fn later(moment: Instant, by: Duration) -> Instant {
    moment.checked_add(by).unwrap_or(moment)
}

impl Limit {
    /// So much time from a moment on.
    pub(crate) fn after(now: Instant, time: Duration) -> Limit {
        Limit {
            end: later(now, time),
        }
    }

    /// How much is left, 0 where it is over.
    pub(crate) fn left(&self, now: Instant) -> Duration {
        self.end.duration_since(now)
    }

    /// Whether it is over.
    pub(crate) fn is_over(&self, now: Instant) -> bool {
        self.left(now).is_zero()
    }

    /// Gives so much more.
    pub(crate) fn lengthen(&mut self, by: Duration) {
        self.end = later(self.end, by);
    }
}

/// The shorter of two times, of which each may be none.
pub(crate) fn shorter(one: Option<Duration>, other: Option<Duration>) -> Option<Duration> {
    match (one, other) {
        (Some(one), Some(other)) => Some(one.min(other)),
        (None, time) | (time, None) => time,
    }
}
