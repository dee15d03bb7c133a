//! Requests, as a server reads them.

ghost use Rattle.std.specs.Prelude.{◌≡◌, ◌≤◌, length, map, false, Some, IfOk, IfErr};
ghost use Rattle.httparse.specs.Borrowed.{header_parts};
ghost use Rattle.siri_http.specs.Bodies.{body_length};
ghost use Rattle.siri_http.specs.Connections.{OnConnection};
ghost use Rattle.siri_http.specs.HttpCauses.{HasReadCause};
ghost use Rattle.siri_http.specs.Messages.{IsRequest, ReadsMessage, UnlessMemory, is_post, told_with};
ghost use Rattle.siri_http.specs.Parts.{request_parts};
ghost use Rattle.siri_http.specs.inner.HeadParts.{request_head_parts};
ghost use Rattle.siri_http.specs.inner.Faults.{is_fault};
ghost use Rattle.siri_http.specs.inner.Reading.{SaysSo};
ghost use Rattle.siri_http.specs.inner.Scanning.{head_from, fresh};

use crate::HttpError;
use crate::fields::{MOST_FIELDS, body_length};
use crate::front::{read_body, read_head};
use httparse::{EMPTY_HEADER, Header, Request, Status};
use siri_base::{List, OutOfMemory, Text, TextError};
use siri_outside::Wire;
use std::alloc::Global;

/// A request, as it was read.
#[derive(Debug, Drop)]
pub struct HttpRequest {
    /// The method, such as `POST`, in the letters that came.
    pub method: Text,
    /// The target, such as `/`, as it came.
    pub target: Text,
    /// The body, of 8,388,608 bytes at most.
    pub body: List<u8>,
}

/// What the head of a request says.
#[derive(Drop)]
struct HeadOfRequest {
    method: Text,
    target: Text,
    /// The length of the body.
    length: usize,
}

/// A text that no bound refuses.
fn text_of(alloc: Global, text: &str) -> Result<Text, OutOfMemory>
    requires some { 1 ≤ length text.now }
    requires bound { length text.now ≤ 16384 }
    ensures { IfOk result (λ made. made ≡ text.now) }
{
    match Text::new(alloc, text) {
        Ok(text) => Ok(text),
        Err(TextError::OutOfMemory) => Err(OutOfMemory),
        Err(TextError::Empty | TextError::TooLong) => unreachable!(),
    }
}

/// What a head of these parts says.
fn said(
    alloc: Global,
    method: &str,
    target: &str,
    headers: &[Header<'_>],
) -> Result<HeadOfRequest, HttpError>
    requires some_method { 1 ≤ length method.now }
    requires method { length method.now ≤ 16384 }
    requires some_target { 1 ≤ length target.now }
    requires target { length target.now ≤ 16384 }
    ensures parts { UnlessMemory result (request_head_parts result ≡ told_with (method.now, target.now) (body_length (is_post method.now) (map header_parts headers.now))) }
    ensures known { IfErr result (λ e. is_fault e ≡ false) }
{
    let length = body_length(method == "POST", headers)?;
    Ok(HeadOfRequest {
        method: text_of(alloc, method)?,
        target: text_of(alloc, target)?,
        length,
    })
}

/// What a head text says, which has so many lines that aren't empty.
fn head_of_request(alloc: Global, text: &[u8], full: usize) -> Result<HeadOfRequest, HttpError>
    requires bound { length text.now ≤ 16384 }
    requires head { head_from fresh text.now ≡ Some (record { len = length text.now; full = full }) }
    ensures says { SaysSo IsRequest text.now full (request_head_parts result) }
    ensures known { IfErr result (λ e. is_fault e ≡ false) }
{
    if full > MOST_FIELDS + 1 {
        return Err(HttpError::HeadTooLong);
    }
    let mut room = [EMPTY_HEADER; MOST_FIELDS];
    let mut head = Request::new(&mut room);
    let len = match head.parse(text) {
        Ok(Status::Complete(len)) => len,
        Ok(Status::Partial) => return Err(HttpError::BadHead),
        Err(_) => return Err(HttpError::BadHead),
    };
    if len < text.len() {
        return Err(HttpError::BadHead);
    }
    match (head.method, head.path) {
        (Some(method), Some(target)) => said(alloc, method, target, head.headers),
        _ => Err(HttpError::BadHead),
    }
}

/// Reads a request of the connection that is there. Bytes after the body are no part of it, and none of them is needed:
/// what came whole is answered, whatever follows, and no read begins behind it. What of a body didn't come with its
/// head is read by its exact length, so bytes after the body are taken, and let go, only where they are among the first
/// 16,384, in which the head is looked for.
///
/// It is refused in the order that [`HttpError`] says. `Short`, `ReadFault` and `OutOfMemory` come when they happen.
pub fn read_request<W: Wire>(alloc: Global, wire: &mut W) -> Result<HttpRequest, HttpError>
    requires there { W.is_open wire.old }
    ensures open { W.is_open wire.new }
    ensures told { OnConnection (ReadsMessage IsRequest (request_parts result)) (W.tells wire.old) (W.tells wire.new) }
    ensures cause { HasReadCause (W.faults wire.old) (W.faults wire.new) result }
{
    let front = read_head(alloc, wire)?;
    let (text, came) = front.bytes.split_at(front.head.len);
    let asked = head_of_request(alloc, text, front.head.full)?;
    let body = read_body(alloc, wire, came, asked.length)?;
    Ok(HttpRequest {
        method: asked.method,
        target: asked.target,
        body: List::of(body),
    })
}
