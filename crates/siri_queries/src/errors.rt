//! Why a target stands for no document, and a request has no target.

ghost use Rattle.std.specs.Prelude.{◌≡◌};
ghost use Rattle.siri_queries.specs.declared.errors.QueryError.TheVariants.{OutOfMemory};

use std::alloc::AllocError;
use thiserror::Error;

/// Why a target stands for no document, or a request has no target.
#[derive(Clone, Copy, Debug, PartialEq, Eq, Error)]
pub enum QueryError {
    /// The path of the target is none of the four.
    #[error("the path is none of those of queries")]
    NoPath,
    /// The request asks nothing, or more than one query can: it has no functional request or several, or one of several
    /// lines, or its target would have more than 16,384 bytes.
    #[error("the request is none that one query can ask")]
    NotQuery,
    /// There was no memory.
    #[error("out of memory")]
    OutOfMemory,
}

impl From<siri_base::OutOfMemory> for QueryError {
    ghost from_gives = { λ _ e. e ≡ OutOfMemory };

    fn from(_: siri_base::OutOfMemory) -> Self {
        QueryError::OutOfMemory
    }
}

impl From<AllocError> for QueryError {
    ghost from_gives = { λ _ e. e ≡ OutOfMemory };

    fn from(_: AllocError) -> Self {
        QueryError::OutOfMemory
    }
}
