//! Heartbeats: when the next HeartbeatNotification of a subscription is due (EN 15531-2).
//!
//! ```text
//!     an interval, a moment  -> new   ---> the beats of a subscription, counted from that moment
//!     a later moment         -> due   ---> whether a heartbeat is to be sent
//!     the moment of sending  -> sent  ---> the beats, counted from there
//! ```
//!
//! Stands on `siri_base`. It sends nothing and knows no clock: moments are handed in.

ghost use Rattle.std.specs.Prelude.{◌≡◌, ◌↔◌, IsTrue, pos, ◌+ℤ◌, ◌<ℤ◌, ◌≤ℤ◌};
ghost use Rattle.siri_subs.specs.Beats.{is_due};

use siri_base::{Moment, Span};
use std::marker::Model;

/// The heartbeats of a subscription: how often one is sent, and when the last was. Contracts see both.
#[derive(Clone, Copy, Debug, PartialEq, Eq)]
pub struct Beats {
    every: Span,
    last: Moment,
}

impl Model for Beats {
    ghost use Rattle.siri_subs.specs.Beats.{Beating};

    ghost Value = { Beating };

    ghost view = { λ b. record { every = b.every; last = b.last } };

    ghost inverse = { λ b. record { every = b.every; last = b.last } };
}

impl Beats {
    /// The heartbeats of a subscription that is accepted at a moment, with its HeartbeatInterval in milliseconds: zero
    /// or less is never.
    pub fn new(every: Span, now: Moment) -> Beats
        ensures { result ≡ record { every = every; last = now } }
    {
        Beats { every, last: now }
    }

    /// A heartbeat was sent at a moment; the next is counted from there.
    pub fn sent(&mut self, now: Moment)
        ensures { self.new ≡ record self.old { last = now } }
    {
        self.last = now;
    }

    /// Whether a heartbeat is due at a moment: exactly where the interval is above zero and that much has passed since
    /// the last one, or since the acceptance.
    pub fn due(&self, now: Moment) -> bool
        ensures value { result ≡ is_due self.now now }
        ensures exact { IsTrue result ↔ ((pos 0 <ℤ self.now.every) × ((pos self.now.last +ℤ self.now.every) ≤ℤ pos now)) }
    {
        self.every.ms() > 0 && self.last.ms() + self.every.ms() <= now.ms()
    }
}
