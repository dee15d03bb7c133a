//! Why a tree is refused, and where. The path is built as a refusal passes on its way out, so that it costs nothing
//! until something is refused.

ghost use Rattle.std.specs.Prelude.{◌≡◌, [], ◌∷◌, Result, Ok, Err, IsTrue};
ghost use Rattle.siri_json.specs.declared.path.Step.TheVariants.{Member, Place};
ghost use Rattle.siri_tables.specs.Refusals.{Refusal, Gives, refused, below, at_path, is_key};
ghost use Rattle.siri_tables.specs.declared.refusal.TableError.TheVariants.{OutOfMemory};

use siri_base::{Name, OutOfMemory, Reason, TextError};
use siri_json::{Path, Step};
use std::alloc::{AllocError, AllocFailed, Global};
use thiserror::Error;

/// Why nothing was read from a tree.
#[derive(Debug, Drop, Error)]
pub enum TableError {
    /// The tree is refused, at that path and for that reason: the first in the order of the tables, depth first.
    #[error("the tree is refused")]
    Refused { path: Path, reason: Reason },
    /// There was no memory.
    #[error("out of memory")]
    OutOfMemory,
}

impl From<OutOfMemory> for TableError {
    ghost from_gives = { λ _ e. e ≡ OutOfMemory };

    fn from(_: OutOfMemory) -> Self {
        TableError::OutOfMemory
    }
}

impl From<AllocError> for TableError {
    ghost from_gives = { λ _ e. e ≡ OutOfMemory };

    fn from(_: AllocError) -> Self {
        TableError::OutOfMemory
    }
}

impl<T: Drop> From<AllocFailed<T>> for TableError {
    ghost from_gives = { λ _ e. e ≡ OutOfMemory };

    fn from(_: AllocFailed<T>) -> Self {
        TableError::OutOfMemory
    }
}

/// A refusal where the reading began.
pub fn refuse<T>(alloc: Global, reason: Reason) -> Result<T, TableError>
    ensures { Gives result (refused reason) }
{
    Err(TableError::Refused {
        path: Path::new(alloc),
        reason,
    })
}

/// A refusal at a member.
pub fn refuse_at<T>(alloc: Global, key: &str, reason: Reason) -> Result<T, TableError>
    requires { IsTrue (is_key key.now) }
    ensures { Gives result (Err (record { path = Member key.now ∷ []; reason = reason })) }
{
    let mut path = Path::new(alloc);
    path.prepend(step_to(alloc, key)?)?;
    Err(TableError::Refused { path, reason })
}

/// The step of a path to a member, whose name has 1 to 255 bytes.
fn step_to(alloc: Global, key: &str) -> Result<Step, TableError>
    requires { IsTrue (is_key key.now) }
    ensures { Gives result (Ok (Member key.now)) }
{
    match Name::new(alloc, key) {
        Ok(name) => Ok(Step::Member(name)),
        Err(TextError::OutOfMemory) => Err(TableError::OutOfMemory),
        Err(TextError::Empty | TextError::TooLong) => unreachable!(),
    }
}

/// What was read of a member, as it is seen from the object.
pub fn below<T: Drop>(
    alloc: Global,
    key: &str,
    read: Result<T, TableError>,
) -> Result<T, TableError>
    requires { IsTrue (is_key key.now) }
    ensures { (r : Result T Refusal) → Gives read r → Gives result (below (Member key.now) r) }
{
    match read {
        Err(TableError::Refused { mut path, reason }) => {
            path.prepend(step_to(alloc, key)?)?;
            Err(TableError::Refused { path, reason })
        }
        other => other,
    }
}

/// What was read of an entry, as it is seen from the list.
pub fn below_place<T: Drop>(place: usize, read: Result<T, TableError>) -> Result<T, TableError>
    ensures { (r : Result T Refusal) → Gives read r → Gives result (below (Place place) r) }
{
    match read {
        Err(TableError::Refused { mut path, reason }) => {
            path.prepend(Step::Place(place))?;
            Err(TableError::Refused { path, reason })
        }
        other => other,
    }
}

/// What was read below a path, as it is seen from where the path begins.
pub fn from_path<T: Drop>(at: &Path, read: Result<T, TableError>) -> Result<T, TableError>
    ensures { (r : Result T Refusal) → Gives read r → Gives result (at_path at.now r) }
{
    match read {
        Err(TableError::Refused { path, reason }) => Err(TableError::Refused {
            path: at.join(path)?,
            reason,
        }),
        other => other,
    }
}
