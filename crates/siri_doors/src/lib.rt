//! Connections that come side by side, in one order of turns: the wire that a run sees, over what happens by slot.
//!
//! ```text
//!     a connection opened in a slot, bytes came in it, it ended, its time is over
//!                                   |  Doors: the outside, by slot
//!                                   v
//!     Gather: gathers the bytes of each slot, and decides whose turn it is
//!                                   |  Wire: one connection after the other
//!                                   v
//!                                 a run
//! ```
//!
//! A connection is decided once its request is whole, which a function of its bytes says, once it ended, or once its
//! time is over, and has its turn in the order of that. At most 256 connections and 64 MiB wait; above that the door
//! refuses. What a run sees depends on the bytes by slot and on that order alone: this is a law.
//!
//! Stands on `siri_base` and `siri_outside`. It knows no socket, no time and no message.
#![tactic(auto)]

mod doors;
mod event;
mod gather;
mod gathered;
mod in_memory;
mod laws;
mod outcome;
mod patience;
mod queue;
mod turn;
mod waiting;

pub use doors::Doors;
pub use event::Event;
pub use gather::Gather;
pub use in_memory::InMemoryDoors;
pub use laws::{
    a_slot_is_decided_by_its_own_events, bytes_and_order_decide_the_wire,
    interleaving_decides_nothing_else,
};
pub use patience::Patience;
