//! What becomes of the connections by an event.

use crate::gathered::Gathered;

/// What an event decides.
#[derive(Drop)]
pub(crate) enum Outcome {
    /// Nothing: no connection has its turn, and none is refused.
    Waits,
    /// This connection has its turn.
    Decides(Gathered),
    /// The connection in this slot is refused.
    Refuses(usize),
}
