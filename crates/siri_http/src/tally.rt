//! Counts of what became of connections and messages.

ghost use Rattle.std.specs.Prelude.{◌≡◌};
ghost use Rattle.siri_http.specs.Tallies.{nothing_yet, with_served, with_refused, with_dropped, with_unsent};

/// What became of connections and messages. A count that would pass 2^64 - 1 stands there.
#[derive(Clone, Copy, Debug, PartialEq, Eq)]
pub struct Tally {
    /// Connections that were accepted, whatever became of them.
    pub served: u64,
    /// Requests that were refused for their head, their method or their body.
    pub refused: u64,
    /// Connections whose request was Short, or of which a read or a write failed.
    pub dropped: u64,
    /// Messages that didn't reach whom they were for, as far as this end knows.
    pub unsent: u64,
}

impl Tally {
    /// Nothing was counted yet.
    pub fn new() -> Tally
        ensures { result ≡ nothing_yet }
    {
        Tally {
            served: 0,
            refused: 0,
            dropped: 0,
            unsent: 0,
        }
    }

    /// One connection more was served.
    pub fn count_served(&mut self)
        ensures { self.new ≡ with_served self.old }
    {
        self.served = self.served.saturating_add(1);
    }

    /// One request more was refused.
    pub fn count_refused(&mut self)
        ensures { self.new ≡ with_refused self.old }
    {
        self.refused = self.refused.saturating_add(1);
    }

    /// One connection more was dropped.
    pub fn count_dropped(&mut self)
        ensures { self.new ≡ with_dropped self.old }
    {
        self.dropped = self.dropped.saturating_add(1);
    }

    /// So many messages more were not sent.
    pub fn count_unsent(&mut self, messages: u64)
        ensures { self.new ≡ with_unsent messages self.old }
    {
        self.unsent = self.unsent.saturating_add(messages);
    }
}
