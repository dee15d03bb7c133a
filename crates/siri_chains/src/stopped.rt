//! Why a chain is followed no further.

use siri_base::{OutOfMemory, TextError};
use siri_relay::OpenError;
use siri_view::AskError;
use std::alloc::{AllocError, AllocFailed};

/// Why a chain is followed no further, or what is wrong at its end.
#[derive(Clone, Copy, Debug, PartialEq, Eq)]
pub(crate) enum Stopped {
    /// There was no memory.
    OutOfMemory,
    /// A name is none, or nobody asks any more: no run comes to that.
    NotMade,
    /// Something is still sent.
    NotQuiet,
    /// A relay isn't level.
    NotLevel,
    /// The display holds no view.
    NotHeld,
    /// The display hasn't the keys of the direct response.
    OtherKeys,
    /// An item of the display isn't near that of the direct response.
    NotNear,
}

impl Stopped {
    /// What is told of it.
    pub(crate) fn text(self) -> &'static str {
        match self {
            Stopped::OutOfMemory => "out of memory",
            Stopped::NotMade => "a name is none, or nobody asks any more",
            Stopped::NotQuiet => "something is still sent",
            Stopped::NotLevel => "a relay isn't level",
            Stopped::NotHeld => "the display holds no view",
            Stopped::OtherKeys => "the display hasn't the keys of the direct response",
            Stopped::NotNear => "an item of the display isn't near that of the direct response",
        }
    }
}

impl From<OutOfMemory> for Stopped {
    fn from(_: OutOfMemory) -> Self {
        Stopped::OutOfMemory
    }
}

impl From<AllocError> for Stopped {
    fn from(_: AllocError) -> Self {
        Stopped::OutOfMemory
    }
}

impl<T: Drop> From<AllocFailed<T>> for Stopped {
    fn from(_: AllocFailed<T>) -> Self {
        Stopped::OutOfMemory
    }
}

impl From<TextError> for Stopped {
    fn from(error: TextError) -> Self {
        match error {
            TextError::OutOfMemory => Stopped::OutOfMemory,
            TextError::Empty | TextError::TooLong => Stopped::NotMade,
        }
    }
}

impl From<AskError> for Stopped {
    fn from(error: AskError) -> Self {
        match error {
            AskError::OutOfMemory => Stopped::OutOfMemory,
            AskError::Spent | AskError::TooMany | AskError::NotHeld => Stopped::NotMade,
        }
    }
}

impl From<OpenError> for Stopped {
    fn from(error: OpenError) -> Self {
        match error {
            OpenError::Already => Stopped::NotMade,
            OpenError::Ask(error) => Stopped::from(error),
        }
    }
}
