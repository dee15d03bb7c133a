//! What a document comes to: a target that is asked, or a line that tells why none is.

ghost use Rattle.std.specs.Prelude.{◌≡◌, ◌++◌, IfOk};
ghost use Rattle.siri_wire.specs.Documents.{message_of};
ghost use Rattle.siri_get.specs.Plans.{line_told, message_plan, plan_of, query_plan};

use siri_base::{OutOfMemory, Text, append};
use siri_document::Answer;
use siri_messages::{Message, ServiceRequest};
use siri_queries::{QueryError, write_query};
use siri_wire::{DecodeError, decode};
use std::alloc::Global;

/// What a document comes to.
#[derive(Drop)]
pub(crate) enum Plan {
    /// This target is asked.
    Asks(Text),
    /// Nothing is asked, and this is told.
    Tells(Answer),
}

/// A line that tells why nothing else is told.
pub(crate) fn line_told(alloc: Global, line: &str) -> Result<Answer, OutOfMemory>
    ensures { IfOk result (λ answer. answer ≡ line_told line.now) }
{
    let mut text = Vec::new(alloc);
    append(&mut text, line.as_bytes())?;
    append(&mut text, b"\n")?;
    Ok(Answer::refusing(text))
}

/// What a request comes to.
fn query_plan(alloc: Global, request: &ServiceRequest) -> Result<Plan, OutOfMemory>
    ensures { IfOk result (λ plan. plan ≡ query_plan request.now) }
{
    match write_query(alloc, request) {
        Ok(target) => Ok(Plan::Asks(target)),
        Err(QueryError::NotQuery) => Ok(Plan::Tells(line_told(alloc, "NotQuery")?)),
        Err(QueryError::OutOfMemory) => Err(OutOfMemory),
        Err(QueryError::NoPath) => unreachable!(),
    }
}

/// What a message comes to.
fn message_plan(alloc: Global, message: &Message) -> Result<Plan, OutOfMemory>
    ensures { IfOk result (λ plan. plan ≡ message_plan message.now) }
{
    match message {
        Message::ServiceRequest(request) => query_plan(alloc, request),
        _ => Ok(Plan::Tells(line_told(alloc, "WrongMessage")?)),
    }
}

/// What a document comes to, whose bytes aren't kept: the target of its ServiceRequest, where one query can ask that.
pub(crate) fn plan_of(alloc: Global, document: Vec<u8>) -> Result<Plan, OutOfMemory>
    ensures { IfOk result (λ plan. plan ≡ plan_of (message_of document.items)) }
{
    match decode(alloc, &document) {
        Ok(message) => message_plan(alloc, &message),
        Err(DecodeError::Refused(refusal)) => Ok(Plan::Tells(Answer::refused(&refusal)?)),
        Err(DecodeError::OutOfMemory) => Err(OutOfMemory),
    }
}
