//! The outside in memory: each trait in a form that fails by no name, and in a form with failures that are named
//! beforehand.

mod clock;
mod failures;
mod keeper;
mod line;
mod shelf;
mod sink;
mod source;
mod wire;

pub use clock::{FailingClock, InMemoryClock};
pub use keeper::{FailingKeeper, InMemoryKeeper};
pub use line::{FailingCalls, FailingConnection};
pub use shelf::InMemoryShelf;
pub use sink::{FailingSink, InMemorySink};
pub use source::{FailingSource, InMemorySource};
pub use wire::{FailingWire, InMemoryWire};
