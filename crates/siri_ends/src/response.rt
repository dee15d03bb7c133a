//! A response that is to be written.

ghost use Rattle.std.specs.Prelude.{◌≡◌, IfOk, true, option_map};
ghost use Rattle.siri_http.specs.Texts.{is_written};
ghost use Rattle.siri_http.specs.Requests.{status_of, name_of};
ghost use Rattle.siri_wire.specs.Documents.{refusal_text};
ghost use Rattle.siri_ends.specs.Responses.{refusing, reply_body, replying};

use siri_base::{List, OutOfMemory, append};
use siri_http::BadRequest;
use siri_messages::Message;
use siri_wire::{Refusal, encode};
use std::alloc::Global;

/// What a connection is answered.
#[derive(Drop)]
pub struct Response {
    /// The status, one of those that are written.
    pub status: u16,
    /// Whether the body is plain text: it tells a refusal. Otherwise it is a document, or empty.
    pub plain: bool,
    pub body: List<u8>,
}

/// A refusal, told as a line of plain text: a reason, and a line feed.
pub fn refusing(status: u16, mut reason: Vec<u8>) -> Result<Response, OutOfMemory>
    requires { is_written status ≡ true }
    ensures response { IfOk result (λ response. response ≡ refusing status reason.items) }
    ensures written { IfOk result (λ response. is_written response.status ≡ true) }
{
    append(&mut reason, b"\n")?;
    Ok(Response {
        status,
        plain: true,
        body: List::of(reason),
    })
}

/// The answer to a request that is refused for its head or its method.
pub(crate) fn refuse_request(alloc: Global, bad: BadRequest) -> Result<Response, OutOfMemory>
    ensures response { IfOk result (λ response. response ≡ refusing (status_of bad) (name_of bad)) }
    ensures written { IfOk result (λ response. is_written response.status ≡ true) }
{
    let mut reason = Vec::new(alloc);
    append(&mut reason, bad.name().as_bytes())?;
    refusing(bad.status(), reason)
}

/// The answer to a document that is refused.
pub(crate) fn refuse_document(refusal: &Refusal) -> Result<Response, OutOfMemory>
    ensures response { IfOk result (λ response. response ≡ refusing 400 (refusal_text (record { path = refusal.now.path; reason = refusal.now.reason }))) }
    ensures written { IfOk result (λ response. is_written response.status ≡ true) }
{
    refusing(400, refusal.text()?)
}

/// The body of a reply.
fn reply_body(alloc: Global, reply: Option<&Message>) -> Result<List<u8>, OutOfMemory>
    ensures { IfOk result (λ body. body ≡ reply_body (option_map (λ message. message.now) reply.entry)) }
{
    match reply {
        Some(message) => Ok(List::of(encode(alloc, message)?)),
        None => Ok(List::new(alloc)),
    }
}

/// The answer to a message with this reply, or without one: status 200 and its document, or an empty body.
pub fn replying(alloc: Global, reply: Option<&Message>) -> Result<Response, OutOfMemory>
    ensures response { IfOk result (λ response. response ≡ replying (option_map (λ message. message.now) reply.entry)) }
    ensures written { IfOk result (λ response. is_written response.status ≡ true) }
{
    Ok(Response {
        status: 200,
        plain: false,
        body: reply_body(alloc, reply)?,
    })
}
