//! What happens to the connections that come.

use siri_base::{Copies, List, OutOfMemory};

/// What happened to a connection that others opened, by its slot: the number that the outside gives it while it is
/// there.
pub enum Event {
    /// It opened.
    Opened(usize),
    /// These bytes came.
    Came(usize, List<u8>),
    /// It ended or failed.
    Ended(usize),
    /// Its time is over.
    Late(usize),
}

impl Drop for Event {
    fn drop(self) {
        match self {
            Event::Opened(_) | Event::Came(_, _) | Event::Ended(_) | Event::Late(_) => {}
        }
    }
}

impl Copies for Event {
    fn copy(&self) -> Result<Self, OutOfMemory> {
        match self {
            Event::Opened(slot) => Ok(Event::Opened(*slot)),
            Event::Came(slot, piece) => Ok(Event::Came(*slot, piece.copy()?)),
            Event::Ended(slot) => Ok(Event::Ended(*slot)),
            Event::Late(slot) => Ok(Event::Late(*slot)),
        }
    }
}
