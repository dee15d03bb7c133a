//! Reads a head text and a body of the connection that is there.

ghost use Rattle.std.specs.Prelude.{◌≡◌, ◌≤◌, ◌<◌, ◌+◌, ◌-◌, ℕ, List, length, take, drop, IfOk, IfErr};
ghost use Rattle.siri_http.specs.Connections.{OnConnection};
ghost use Rattle.siri_http.specs.HttpCauses.{HasReadCause};
ghost use Rattle.siri_http.specs.inner.Reading.{TakesInput, Stops, HasHead, HasNoHead, HasBody, LacksBody};

use crate::HttpError;
use crate::connection::{LONGEST_HEAD, fill, find_head};
use crate::scan::HeadText;
use siri_base::{OutOfMemory, append};
use siri_outside::Wire;
use std::alloc::Global;

/// The bytes that came, with the head text at their front.
#[derive(Drop)]
pub(crate) struct Front {
    pub bytes: Vec<u8>,
    pub head: HeadText,
}

/// Reads until a whole head text came.
#[tactic(auto, using(crate::proofs::Fronts::head_not_begun))]
pub(crate) fn read_head<W: Wire>(alloc: Global, wire: &mut W) -> Result<Front, HttpError>
    requires there { W.is_open wire.old }
    ensures open { W.is_open wire.new }
    ensures bytes { IfOk result (λ front. OnConnection (TakesInput front.bytes.items) (W.tells wire.old) (W.tells wire.new)) }
    ensures head { IfOk result (λ front. HasHead front.bytes.items front.head) }
    ensures end { IfErr result (λ e. OnConnection (HasNoHead e) (W.tells wire.old) (W.tells wire.new)) }
    ensures cause { HasReadCause (W.faults wire.old) (W.faults wire.new) result }
{
    let mut bytes = Vec::new(alloc);
    bytes.resize(LONGEST_HEAD, 0)?;
    let found = find_head(wire, &mut bytes)?;
    bytes.truncate(found.count);
    Ok(Front {
        bytes,
        head: found.head,
    })
}

/// Reads until the buffer is full, behind the bytes that it has.
fn fill_behind<W: Wire>(wire: &mut W, buffer: &mut [u8], filled: usize) -> Result<(), HttpError>
    requires there { W.is_open wire.old }
    requires room { filled ≤ length buffer.old }
    ensures open { W.is_open wire.new }
    ensures kept { take filled buffer.new ≡ take filled buffer.old }
    ensures length { length buffer.new ≡ length buffer.old }
    ensures bytes { IfOk result (λ _. OnConnection (TakesInput (drop filled buffer.new)) (W.tells wire.old) (W.tells wire.new)) }
    ensures end { IfErr result (λ e. (bytes : List ℕ) × (filled + length bytes < length buffer.old) × OnConnection (Stops bytes e) (W.tells wire.old) (W.tells wire.new)) }
    ensures cause { HasReadCause (W.faults wire.old) (W.faults wire.new) result }
{
    fill(wire, &mut buffer[filled..])
}

/// Room for a body of so many bytes, with what came of it at its front.
fn body_room(alloc: Global, came: &[u8], count: usize) -> Result<Vec<u8>, OutOfMemory>
    requires { length came.now ≤ count }
    ensures came { IfOk result (λ body. take (length came.now) body.items ≡ came.now) }
    ensures length { IfOk result (λ body. length body.items ≡ count) }
{
    let mut body = Vec::new(alloc);
    append(&mut body, came)?;
    body.resize(count, 0)?;
    Ok(body)
}

/// Reads a body of so many bytes, of which a front came with the head.
#[tactic(auto, using(crate::proofs::Fronts::body_no_memory, crate::proofs::Fronts::body_stops, crate::proofs::Fronts::body_came))]
pub(crate) fn read_body<W: Wire>(
    alloc: Global,
    wire: &mut W,
    came: &[u8],
    count: usize,
) -> Result<Vec<u8>, HttpError>
    requires there { W.is_open wire.old }
    ensures open { W.is_open wire.new }
    ensures body { IfOk result (λ body. OnConnection (HasBody came.now count body.items) (W.tells wire.old) (W.tells wire.new)) }
    ensures end { IfErr result (λ e. OnConnection (LacksBody (count - length came.now) e) (W.tells wire.old) (W.tells wire.new)) }
    ensures cause { HasReadCause (W.faults wire.old) (W.faults wire.new) result }
{
    let here = came.len().min(count);
    let mut body = body_room(alloc, &came[..here], count)?;
    fill_behind(wire, &mut body, here)?;
    Ok(body)
}
