//! Reads bytes of the connection that is there.

ghost use Rattle.std.specs.Prelude.{◌≡◌, ◌≤◌, ◌<◌, ◌+◌, ℕ, List, length, take, drop, [], IfOk, IfErr};
ghost use Rattle.siri_http.specs.Connections.{OnConnection};
ghost use Rattle.siri_http.specs.HttpCauses.{HasReadCause};
ghost use Rattle.siri_http.specs.inner.Reading.{TakesInput, Stops, HasHead, HasNoHead};

use crate::HttpError;
use crate::scan::{HeadText, Scan};
use siri_outside::Wire;

/// The most bytes that a head may have.
pub(crate) const LONGEST_HEAD: usize = 16_384;

/// The bytes that came, up to a whole head text and beyond it.
#[derive(Clone, Copy)]
pub(crate) struct Found {
    /// How many bytes came.
    pub count: usize,
    /// The head text at their front.
    pub head: HeadText,
}

/// Reads into the room behind the bytes that came, and gives how many more came, at least one.
fn read_some<W: Wire>(wire: &mut W, buffer: &mut [u8], filled: usize) -> Result<usize, HttpError>
    requires there { W.is_open wire.old }
    requires room { filled < length buffer.old }
    ensures open { W.is_open wire.new }
    ensures kept { take filled buffer.new ≡ take filled buffer.old }
    ensures length { length buffer.new ≡ length buffer.old }
    ensures some { IfOk result (λ count. 0 < count) }
    ensures bound { IfOk result (λ count. filled + count ≤ length buffer.new) }
    ensures bytes { IfOk result (λ count. OnConnection (TakesInput (take count (drop filled buffer.new))) (W.tells wire.old) (W.tells wire.new)) }
    ensures end { IfErr result (λ e. OnConnection (Stops [] e) (W.tells wire.old) (W.tells wire.new)) }
    ensures cause { HasReadCause (W.faults wire.old) (W.faults wire.new) result }
{
    match wire.read(&mut buffer[filled..]) {
        Ok(0) => Err(HttpError::Short),
        Ok(count) => Ok(count),
        Err(_) => Err(HttpError::ReadFault),
    }
}

/// Reads until the buffer is full.
pub(crate) fn fill<W: Wire>(wire: &mut W, buffer: &mut [u8]) -> Result<(), HttpError>
    requires there { W.is_open wire.old }
    ensures open { W.is_open wire.new }
    ensures length { length buffer.new ≡ length buffer.old }
    ensures bytes { IfOk result (λ _. OnConnection (TakesInput buffer.new) (W.tells wire.old) (W.tells wire.new)) }
    ensures end { IfErr result (λ e. (bytes : List ℕ) × (length bytes < length buffer.old) × OnConnection (Stops bytes e) (W.tells wire.old) (W.tells wire.new)) }
    ensures cause { HasReadCause (W.faults wire.old) (W.faults wire.new) result }
{
    let mut filled = 0;
    while filled < buffer.len() {
        filled += read_some(wire, buffer, filled)?;
    }
    Ok(())
}

/// Reads until a whole head text came.
pub(crate) fn find_head<W: Wire>(wire: &mut W, buffer: &mut [u8]) -> Result<Found, HttpError>
    requires there { W.is_open wire.old }
    requires room { length buffer.old ≡ 16384 }
    ensures open { W.is_open wire.new }
    ensures length { length buffer.new ≡ length buffer.old }
    ensures bound { IfOk result (λ found. found.count ≤ length buffer.new) }
    ensures bytes { IfOk result (λ found. OnConnection (TakesInput (take found.count buffer.new)) (W.tells wire.old) (W.tells wire.new)) }
    ensures head { IfOk result (λ found. HasHead (take found.count buffer.new) found.head) }
    ensures end { IfErr result (λ e. OnConnection (HasNoHead e) (W.tells wire.old) (W.tells wire.new)) }
    ensures cause { HasReadCause (W.faults wire.old) (W.faults wire.new) result }
{
    let mut scan = Scan::new();
    while scan.len < LONGEST_HEAD {
        let filled = scan.len;
        let count = filled + read_some(wire, buffer, filled)?;
        if let Some(head) = scan.advance(&buffer[filled..count]) {
            return Ok(Found { count, head });
        }
    }
    Err(HttpError::HeadTooLong)
}
