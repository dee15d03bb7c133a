//! Whose turn it is.

ghost use Rattle.std.specs.Prelude.{◌≡◌, ◌+◌, ◌≤◌, ◌<◌, [], drop, length, take, min};

use crate::gathered::Gathered;

/// Whose turn it is.
pub(crate) enum Turn {
    /// Nobody's.
    Nobody,
    /// A connection that was gathered, of which so many bytes were given.
    Asked(Gathered, usize),
    /// A connection that was dialled, in this slot.
    Dialled(usize),
}

impl Drop for Turn {
    fn drop(self) {
        match self {
            Turn::Nobody | Turn::Asked(_, _) | Turn::Dialled(_) => {}
        }
    }
}

/// Gives what came of a connection behind the bytes that were given, and counts it.
pub(crate) fn give(asking: &Gathered, given: &mut usize, into: &mut [u8]) -> usize
    ensures count { result ≡ min (length into.new) (length (drop given.old asking.now.bytes)) }
    ensures bytes { take result into.new ≡ take result (drop given.old asking.now.bytes) }
    ensures given { given.new ≡ given.old + result }
{
    let rest = asking.rest(*given);
    let count = into.len().min(rest.len());
    into[..count].copy_from_slice(&rest[..count]);
    *given += count;
    count
}
