//! Asks a target, and reads what is answered.

ghost use Rattle.std.specs.Prelude.{◌≡◌, Some, None, IfOk};
ghost use Rattle.siri_outside.specs.OutsideCalls.{WhereTold};
ghost use Rattle.siri_wire.specs.Documents.{message_of};
ghost use Rattle.siri_http.specs.Parts.{response_parts};
ghost use Rattle.siri_http.specs.Texts.{get_text};
ghost use Rattle.siri_http.specs.ExchangeCauses.{HasFaultCause, outcome};
ghost use Rattle.siri_get.specs.Plans.{plan_of};
ghost use Rattle.siri_http.specs.Exchanges.{Hears, Talks};
ghost use Rattle.siri_get.specs.Exchanges.{ComesOfPlan, Gets, answered_told, refused_told_by, told_of};

use crate::plan::{Plan, line_told, plan_of};
use siri_base::{OutOfMemory, Text, append, append_number};
use siri_document::Answer;
use siri_http::{Address, HttpError, HttpResponse, read_response, write_get};
use siri_outside::{OutsideError, Wire};
use std::alloc::Global;

/// What is told of a response: its body, where its status is 200; else its status.
fn answered(alloc: Global, response: HttpResponse) -> Result<Answer, OutOfMemory>
    ensures { IfOk result (λ answer. answer ≡ answered_told response.status response.body) }
{
    if response.status == 200 {
        let mut text = response.body.into_vec();
        append(&mut text, b"\n")?;
        return Ok(Answer::of(text));
    }
    let mut text = Vec::new(alloc);
    append(&mut text, b"status ")?;
    append_number(alloc, &mut text, u64::from(response.status))?;
    append(&mut text, b"\n")?;
    Ok(Answer::refusing(text))
}

/// What is told where no response was read, for this reason: the reason's name, or nothing where the wire failed.
fn refused(alloc: Global, error: HttpError) -> Result<Option<Answer>, OutOfMemory>
    ensures { IfOk result (λ told. refused_told_by error ≡ Some told) }
{
    let name = match error {
        HttpError::BadHead => "BadHead",
        HttpError::HeadTooLong => "HeadTooLong",
        HttpError::NoLength => "NoLength",
        HttpError::TransferCoding => "TransferCoding",
        HttpError::BodyTooLong => "BodyTooLong",
        HttpError::Short => "Short",
        HttpError::ReadFault | HttpError::WriteFault => return Ok(None),
        HttpError::OutOfMemory => return Err(OutOfMemory),
    };
    Ok(Some(line_told(alloc, name)?))
}

/// What is told of what was read; nothing where the wire failed.
fn told_of(
    alloc: Global,
    read: Result<HttpResponse, HttpError>,
) -> Result<Option<Answer>, OutOfMemory>
    ensures { IfOk result (λ told. told_of (response_parts read) ≡ Some told) }
{
    match read {
        Ok(response) => Ok(Some(answered(alloc, response)?)),
        Err(error) => refused(alloc, error),
    }
}

/// Reads the response of the connection that is there, and hangs up. Nothing is told only where the wire's count of
/// faults rose.
fn hear<W: Wire>(alloc: Global, wire: &mut W) -> Result<Option<Answer>, OutOfMemory>
    requires there { W.is_open wire.old }
    ensures told { WhereTold (W.tells wire.old) (W.tells wire.new) (Hears told_of None (outcome result)) }
    ensures cause { HasFaultCause (W.faults wire.old) (W.faults wire.new) None (outcome result) }
{
    let told = told_of(alloc, read_response(alloc, wire))?;
    wire.hang_up();
    Ok(told)
}

/// Asks a target over the connection that is there, reads the response, and hangs up.
fn talk<W: Wire>(
    alloc: Global,
    wire: &mut W,
    producer: &Address,
    target: &Text,
) -> Result<Option<Answer>, OutOfMemory>
    requires there { W.is_open wire.old }
    ensures told { WhereTold (W.tells wire.old) (W.tells wire.new) (Talks told_of None (get_text producer.now.host target.now) (outcome result)) }
    ensures cause { HasFaultCause (W.faults wire.old) (W.faults wire.new) None (outcome result) }
{
    match write_get(alloc, wire, producer, target) {
        Ok(()) => hear(alloc, wire),
        Err(HttpError::WriteFault) => {
            wire.hang_up();
            Ok(None)
        }
        Err(HttpError::OutOfMemory) => Err(OutOfMemory),
        Err(_) => unreachable!(),
    }
}

/// Asks a target of a producer's host: dials once, writes a GET, reads the response and hangs up. Nothing is told only
/// where the wire's count of faults rose.
fn get_from<W: Wire>(
    alloc: Global,
    wire: &mut W,
    producer: &Address,
    target: &Text,
) -> Result<Option<Answer>, OutOfMemory>
    ensures told { WhereTold (W.tells wire.old) (W.tells wire.new) (Gets producer.now.host (get_text producer.now.host target.now) (outcome result)) }
    ensures cause { HasFaultCause (W.faults wire.old) (W.faults wire.new) None (outcome result) }
{
    match wire.dial(&producer.host) {
        Ok(()) => talk(alloc, wire, producer, target),
        Err(OutsideError::Failed) => Ok(None),
        Err(OutsideError::OutOfMemory) => Err(OutOfMemory),
    }
}

/// Asks what a document comes to, whose bytes aren't kept. Nothing is told only where the wire's count of faults rose.
#[tactic(auto, using(crate::proofs::Exchanges::nothing_asked))]
pub(crate) fn ask<W: Wire>(
    alloc: Global,
    producer: &Address,
    document: Vec<u8>,
    wire: &mut W,
) -> Result<Option<Answer>, OutOfMemory>
    ensures told { ComesOfPlan producer.now.host (plan_of (message_of document.items)) (W.tells wire.old) (W.tells wire.new) (outcome result) }
    ensures cause { HasFaultCause (W.faults wire.old) (W.faults wire.new) None (outcome result) }
{
    match plan_of(alloc, document)? {
        Plan::Asks(target) => get_from(alloc, wire, producer, &target),
        Plan::Tells(answer) => Ok(Some(answer)),
    }
}
