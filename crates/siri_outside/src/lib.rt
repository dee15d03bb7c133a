//! The outside world as traits, each with forms in memory.
//!
//! ```text
//!     bytes        Source  Sink      a connection, a script, a report
//!     peers        Wire              who connects, who is dialled; a connection is a source and a sink
//!     time         Clock             the moment
//!     the start    Keeper            the number of a start, raised at each
//!     rows         Shelf             a finite map from a table and a key to a text, which outlasts a run
//! ```
//!
//! Each trait has a count of faults that never falls; a call fails only where that count rose. What an object holds or
//! has left is told by some objects only. Each trait has a form in memory, `InMemory..`, which fails only where nothing
//! is left, and a form with failures that are named beforehand, `Failing..`; the shelf in memory is both, and stops
//! where it is told to. `Source` and `Sink` have adapters over real streams.
//!
//! Stands on `siri_base` alone. It knows no message, and looks into no byte, key or text.
#![tactic(auto)]

mod adapters;
mod errors;
mod following;
mod in_memory;
mod outside;
mod puts;
mod rows;
mod shelf;
mod trail;
mod wire;

pub use adapters::{Input, Output};
pub use errors::{Failed, OutsideError};
pub use in_memory::{
    FailingCalls, FailingClock, FailingConnection, FailingKeeper, FailingSink, FailingSource,
    FailingWire, InMemoryClock, InMemoryKeeper, InMemoryShelf, InMemorySink, InMemorySource,
    InMemoryWire,
};
pub use outside::{Clock, Keeper, Sink, Source};
pub use rows::{Put, Row, StoredRow};
pub use shelf::{Shelf, ShelfError};
pub use wire::Wire;
