//! Subscriptions to topics.

ghost use Rattle.std.specs.Prelude.{◌≡◌};

use crate::Topic;
use siri_base::{Copies, Moment, Name, OutOfMemory, Span};

/// A subscription to a topic (EN 15531-2). It is known by its subscriber and its identifier.
pub struct Subscription {
    pub subscriber: Name,
    /// Its SubscriptionIdentifier, which is its subscriber's own.
    pub identifier: Name,
    /// Its InitialTerminationTime: it is over at this moment.
    pub termination: Moment,
    pub topic: Topic,
    /// ChangeBeforeUpdates: a smaller change of a predicted time isn't sent.
    pub slack: Span,
    /// IncrementalUpdates: a round has the changes alone, and otherwise everything that is shown.
    pub incremental: bool,
    /// Whether the consumer is notified and fetches each round; otherwise the producer sends it (direct delivery).
    pub fetched: bool,
}

impl Drop for Subscription {
    fn drop(self) {
        let Subscription {
            subscriber: _,
            identifier: _,
            termination: _,
            topic: _,
            slack: _,
            incremental: _,
            fetched: _,
        } = self;
    }
}

impl Copies for Subscription {
    fn copy(&self) -> Result<Self, OutOfMemory> {
        Ok(Subscription {
            subscriber: self.subscriber.copy()?,
            identifier: self.identifier.copy()?,
            termination: self.termination,
            topic: self.topic.copy()?,
            slack: self.slack,
            incremental: self.incremental,
            fetched: self.fetched,
        })
    }
}
