//! Responses, as a client reads them.

ghost use Rattle.std.specs.Prelude.{◌≡◌, ◌≤◌, length, false, Some, IfErr};
ghost use Rattle.siri_http.specs.Connections.{OnConnection};
ghost use Rattle.siri_http.specs.HttpCauses.{HasReadCause};
ghost use Rattle.siri_http.specs.Messages.{IsResponse, ReadsMessage};
ghost use Rattle.siri_http.specs.Parts.{response_parts};
ghost use Rattle.siri_http.specs.inner.HeadParts.{response_head_parts};
ghost use Rattle.siri_http.specs.inner.Faults.{is_fault};
ghost use Rattle.siri_http.specs.inner.Reading.{SaysSo};
ghost use Rattle.siri_http.specs.inner.Scanning.{head_from, fresh};

use crate::HttpError;
use crate::fields::{MOST_FIELDS, body_length};
use crate::front::{read_body, read_head};
use httparse::{EMPTY_HEADER, Response, Status};
use siri_base::List;
use siri_outside::Wire;
use std::alloc::Global;

/// A response, as it was read.
#[derive(Debug, Drop)]
pub struct HttpResponse {
    /// The status, a number of three digits.
    pub status: u16,
    /// The body, of 8,388,608 bytes at most.
    pub body: List<u8>,
}

/// What the head of a response says.
#[derive(Clone, Copy)]
struct HeadOfResponse {
    status: u16,
    /// The length of the body.
    length: usize,
}

/// What a head text says, which has so many lines that aren't empty.
fn head_of_response(text: &[u8], full: usize) -> Result<HeadOfResponse, HttpError>
    requires bound { length text.now ≤ 16384 }
    requires head { head_from fresh text.now ≡ Some (record { len = length text.now; full = full }) }
    ensures says { SaysSo IsResponse text.now full (response_head_parts result) }
    ensures known { IfErr result (λ e. is_fault e ≡ false) }
{
    if full > MOST_FIELDS + 1 {
        return Err(HttpError::HeadTooLong);
    }
    let mut room = [EMPTY_HEADER; MOST_FIELDS];
    let mut head = Response::new(&mut room);
    let len = match head.parse(text) {
        Ok(Status::Complete(len)) => len,
        Ok(Status::Partial) => return Err(HttpError::BadHead),
        Err(_) => return Err(HttpError::BadHead),
    };
    if len < text.len() {
        return Err(HttpError::BadHead);
    }
    match head.code {
        Some(status) => Ok(HeadOfResponse {
            status,
            length: body_length(true, head.headers)?,
        }),
        None => Err(HttpError::BadHead),
    }
}

/// Reads a response of the connection that is there. Bytes after the body are no part of it, and none of them is
/// needed: what came whole is answered, whatever follows, and no read begins behind it. What of a body didn't come with
/// its head is read by its exact length, so bytes after the body are taken, and let go, only where they are among the
/// first 16,384, in which the head is looked for.
///
/// It is refused in the order that [`HttpError`] says. `Short`, `ReadFault` and `OutOfMemory` come when they happen.
pub fn read_response<W: Wire>(alloc: Global, wire: &mut W) -> Result<HttpResponse, HttpError>
    requires there { W.is_open wire.old }
    ensures open { W.is_open wire.new }
    ensures told { OnConnection (ReadsMessage IsResponse (response_parts result)) (W.tells wire.old) (W.tells wire.new) }
    ensures cause { HasReadCause (W.faults wire.old) (W.faults wire.new) result }
{
    let front = read_head(alloc, wire)?;
    let (text, came) = front.bytes.split_at(front.head.len);
    let answered = head_of_response(text, front.head.full)?;
    let body = read_body(alloc, wire, came, answered.length)?;
    Ok(HttpResponse {
        status: answered.status,
        body: List::of(body),
    })
}
