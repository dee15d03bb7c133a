//! Who waits, and what is to be done first.

use crate::Event;
use crate::outcome::Outcome;
use crate::waiting::Waiting;

/// Who waits, and what is to be done first.
pub(crate) struct Queue {
    pub waiting: Waiting,
    /// What happened and isn't seen yet, for want of memory.
    pub unseen: Option<Event>,
    /// What was decided last, as long as it isn't done.
    pub outcome: Outcome,
}

impl Drop for Queue {
    fn drop(self) {
        let Queue {
            waiting: _,
            unseen: _,
            outcome: _,
        } = self;
    }
}
