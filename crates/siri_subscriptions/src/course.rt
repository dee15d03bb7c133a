//! What is kept of a subscription.

ghost use Rattle.std.specs.Prelude.{◌≡◌, false, None};
ghost use Rattle.siri_messages.specs.Asked.{AskedFor};
ghost use Rattle.siri_model.specs.Rows.{nothing_kept};
ghost use Rattle.siri_subscriptions.specs.Courses.{kept};

use siri_base::{List, Moment};
use siri_records::SharedKey;
use siri_subs::Rounds;
use siri_topic::Subscription;
use std::alloc::Global;

/// What a producer keeps of a subscription.
pub struct Course {
    /// Its rounds.
    pub rounds: Rounds,
    /// The moment of the last heartbeat, or of the acceptance.
    pub last_heartbeat: Moment,
    /// Whether the last look found that the acknowledged view meets what is shown.
    pub is_level: bool,
    /// The last look: none before the first, and where it counts no more, so that the next one is as the first.
    pub looked: Option<Looked>,
}

/// A look at a subscription.
#[derive(Drop)]
pub struct Looked {
    /// Its moment.
    pub moment: Moment,
    /// The number under which keys are marked after it.
    pub number: u64,
    /// The keys on which the view that its consumer is led to and what was shown don't agree: none, unless the numbers
    /// of rounds are used up.
    pub apart: List<SharedKey>,
}

impl Drop for Course {
    fn drop(self) {
        let Course {
            rounds: _,
            last_heartbeat: _,
            is_level: _,
            looked: _,
        } = self;
    }
}

impl Course {
    /// The course of a subscription that is accepted at a moment. It takes no memory.
    pub fn new(alloc: Global, wanted: &Subscription, now: Moment) -> Course
        ensures kept { (asked : AskedFor) → asked.subscription ≡ wanted.now → kept result ≡ nothing_kept now asked }
        ensures level { result.is_level ≡ false }
        ensures looked { result.looked ≡ None }
    {
        Course {
            rounds: Rounds::new(alloc, wanted.fetched),
            last_heartbeat: now,
            is_level: false,
            looked: None,
        }
    }
}
