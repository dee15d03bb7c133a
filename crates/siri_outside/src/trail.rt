//! Which rows a stop may leave, moment by moment.

ghost use Rattle.std.specs.Prelude.{◌≡◌, ◌++◌, ◌∷◌, [], OnErr, OnOk};

use crate::StoredRow;
use siri_base::{List, OutOfMemory};

/// Adds two moments. After want of memory all is as before.
pub(crate) fn append_two(
    trail: &mut Vec<List<StoredRow>>,
    first: List<StoredRow>,
    second: List<StoredRow>,
) -> Result<(), OutOfMemory>
    ensures ok { OnOk result (trail.new.items ≡ trail.old.items ++ first ∷ second ∷ []) }
    ensures err { OnErr result (trail.new.items ≡ trail.old.items) }
{
    trail.reserve(2)?;
    trail.push_reserved(first);
    trail.push_reserved(second);
    Ok(())
}
