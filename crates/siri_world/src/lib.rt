//! The machine of a script's world: one producer, which starts anew now and then, up to sixteen consumers, and a
//! network between them that keeps every packet that was ever sent (EN 15531-2).
//!
//! ```text
//!     an event -> step --> lines, or why it doesn't happen
//!                  |
//!                  v
//!     the producer of the latest start, the consumers by their names, the packets by their numbers
//! ```
//!
//! A world stands for the events that it took. It keeps one producer, the one of the latest start, how often one
//! started, the greatest moment that was given, the consumers and the packets; of earlier starts and of rounds that
//! closed it keeps nothing. A packet stays in the network when it is delivered, and is never copied: its message is
//! shared with the line that tells of it.
//!
//! Stands on `siri_world_model`, which has the types of events and lines and the definitions of what an event does, on
//! `siri_producer` and on `siri_view`, and on the values that pass between them (`siri_base`, `siri_topic`,
//! `siri_messages`, `siri_change`). It reads and writes no text.
#![tactic(auto)]

mod consumers;
mod happened;
mod packets;
mod producing;
mod viewing;
mod world;

pub use siri_world_model::{Event, Line, StepError, Word};
pub use world::World;
