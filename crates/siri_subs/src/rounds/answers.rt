//! What is answered to a consumer.

use siri_base::Place;

/// Why a part wasn't supplied. Nothing changed.
#[derive(Clone, Copy, Debug, PartialEq, Eq)]
pub enum SupplyError {
    /// No round is outstanding, or delivery isn't fetched.
    NothingReady,
    /// The part isn't the wanted one.
    WrongPart {
        /// The part that is wanted.
        wanted: Place,
    },
}

/// Whether an acknowledgement counts.
#[derive(Clone, Copy, Debug, PartialEq, Eq)]
pub enum Taken {
    /// It is of the wanted part.
    Taken,
    /// It is of another part, or none is wanted. Nothing changed.
    NotThis,
}
