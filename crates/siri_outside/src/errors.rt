//! What calls of the outside answer where they don't succeed.

ghost use Rattle.std.specs.Prelude.{◌≡◌};
ghost use Rattle.siri_outside.specs.declared.errors.OutsideError.TheVariants.{OutOfMemory};

use siri_base::OutOfMemory;
use std::alloc::{AllocError, AllocFailed};
use thiserror::Error;

/// The outside failed: its count of faults rose.
#[derive(Clone, Copy, Debug, PartialEq, Eq, Error)]
#[error("the outside failed")]
pub struct Failed;

/// What a call of the outside that takes memory answers where it doesn't succeed.
#[derive(Clone, Copy, Debug, PartialEq, Eq, Error)]
pub enum OutsideError {
    /// The outside failed: its count of faults rose.
    #[error("the outside failed")]
    Failed,
    /// There was no memory.
    #[error("out of memory")]
    OutOfMemory,
}

impl From<OutOfMemory> for OutsideError {
    ghost from_gives = { λ _ e. e ≡ OutOfMemory };

    fn from(_: OutOfMemory) -> Self {
        OutsideError::OutOfMemory
    }
}

impl From<AllocError> for OutsideError {
    ghost from_gives = { λ _ e. e ≡ OutOfMemory };

    fn from(_: AllocError) -> Self {
        OutsideError::OutOfMemory
    }
}

impl<T: Drop> From<AllocFailed<T>> for OutsideError {
    ghost from_gives = { λ _ e. e ≡ OutOfMemory };

    fn from(_: AllocFailed<T>) -> Self {
        OutsideError::OutOfMemory
    }
}
