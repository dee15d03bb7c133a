//! What a receiver says of a packet.

use siri_producer::Note;
use siri_view::Outcome;

/// What the receiver of a packet says of it.
#[derive(Clone, Copy, Debug, PartialEq, Eq)]
pub enum Word {
    /// The producer's note.
    Producer(Note),
    /// What it was to a consumer.
    Consumer(Outcome),
}
