//! Answers an accepted connection, whichever end does it.

ghost use Rattle.std.specs.Prelude.{◌≡◌, ℕ, List, Option, true, false, IfErr, IfOk, IsErr, IsErrOf, OnOk, OnErr, Some};
ghost use Rattle.siri_outside.specs.Wires.{WireState};
ghost use Rattle.siri_http.specs.declared.errors.HttpError.TheVariants as http;
ghost use Rattle.siri_http.specs.HttpCauses.{EndsWrite};
ghost use Rattle.siri_http.specs.Texts.{is_written, response_text};
ghost use Rattle.siri_wire.specs.Documents.{message_of};
ghost use Rattle.siri_ends.specs.At.{surroundings};
ghost use Rattle.siri_ends.specs.Answering.{AnswersWith, HangsUp, StopsWriting, Writes};
ghost use Rattle.siri_ends.specs.Lending.{of_document};
ghost use Rattle.siri_ends.specs.Sinks.{WritesText};
ghost use Rattle.siri_ends.specs.Turns as turn;
ghost use Rattle.siri_ends.specs.Turns.{AreWritten, BringsDocument};

use crate::response::{Response, refuse_document, refuse_request};
use siri_base::OutOfMemory;
use siri_http::{Asked, HttpError, Tally, end_response, respond};
use siri_messages::Message;
use siri_outside::Wire;
use siri_wire::{DecodeError, decode};
use std::alloc::Global;

/// What a connection brings.
#[derive(Drop)]
pub enum Brought {
    /// A POST whose body is a document.
    Message(Message),
    /// A request that is refused, for its head, its method or its body: its answer.
    Refused(Response),
    /// No whole request.
    Nothing,
}

/// What the body of a POST brings.
fn brought_in(alloc: Global, document: &[u8]) -> Result<Brought, OutOfMemory>
    ensures { IfOk result (λ brought. BringsDocument (message_of document.now) brought) }
{
    match decode(alloc, document) {
        Ok(message) => Ok(Brought::Message(message)),
        Err(DecodeError::Refused(refusal)) => Ok(Brought::Refused(refuse_document(&refusal)?)),
        Err(DecodeError::OutOfMemory) => Err(OutOfMemory),
    }
}

/// What a connection brings that asks this: the message of a POST whose body is a document, the answer to a request that is
/// refused, or nothing, where the request didn't come whole.
#[tactic(auto, unfolding(crate::specs::Responses::responding, crate::specs::Responses::message_asked))]
pub fn brought_by(alloc: Global, asked: &Asked) -> Result<Brought, OutOfMemory>
    ensures { IfOk result (λ brought. turn.Brings asked.now brought) }
{
    match asked {
        Asked::Posted(body) => brought_in(alloc, body.slice()),
        Asked::Refused(bad) => Ok(Brought::Refused(refuse_request(alloc, *bad)?)),
        Asked::Short | Asked::Failed => Ok(Brought::Nothing),
    }
}

/// Writes a response and hangs up, and counts the connection.
fn write_answer<W: Wire>(
    alloc: Global,
    wire: &mut W,
    response: &Response,
    tally: &mut Tally,
) -> Result<(), OutOfMemory>
    requires there { W.is_open wire.old }
    requires written { is_written response.now.status ≡ true }
    ensures ok { OnOk result (Writes response.now (surroundings tally.old (W.tells wire.old) (W.faults wire.old)) (surroundings tally.new (W.tells wire.new) (W.faults wire.new))) }
    ensures err { OnErr result (StopsWriting (Some response.now) (W.tells wire.old) (W.tells wire.new)) }
{
    tally.count_served();
    if response.plain {
        tally.count_refused();
    }
    if !respond(
        alloc,
        wire,
        response.status,
        response.plain,
        response.body.slice(),
    )? {
        tally.count_dropped();
    }
    Ok(())
}

/// Ends an answer of which a text was written with this result, whole or as far as it went: hangs up, and counts the
/// connection. After want of memory it does neither.
pub(crate) fn end_answer<W: Wire>(
    wire: &mut W,
    written: Result<(), HttpError>,
    tally: &mut Tally,
) -> Result<(), OutOfMemory>
    requires { IfErr written EndsWrite }
    ensures ok { OnOk result ((body : List ℕ) (before : Option WireState) (earlier : ℕ) → WritesText (response_text 200 false body) written before (W.tells wire.old) earlier (W.faults wire.old) → Writes (of_document body) (surroundings tally.old before earlier) (surroundings tally.new (W.tells wire.new) (W.faults wire.new))) }
    ensures err { OnErr result ((body : List ℕ) (before : Option WireState) (earlier : ℕ) → WritesText (response_text 200 false body) written before (W.tells wire.old) earlier (W.faults wire.old) → StopsWriting (Some (of_document body)) before (W.tells wire.new)) }
    ensures memory { IsErrOf written http.OutOfMemory → IsErr result }
{
    let whole = end_response(wire, written)?;
    tally.count_served();
    if !whole {
        tally.count_dropped();
    }
    Ok(())
}

/// Hangs up, and counts the connection as dropped.
pub(crate) fn drop_connection<W: Wire>(wire: &mut W, tally: &mut Tally)
    ensures { HangsUp (surroundings tally.old (W.tells wire.old) (W.faults wire.old)) (surroundings tally.new (W.tells wire.new) (W.faults wire.new)) }
{
    wire.hang_up();
    tally.count_served();
    tally.count_dropped();
}

/// Writes the response, where there is one, hangs up, and counts the connection. After want of memory a front of it was
/// written.
pub fn finish<W: Wire>(
    alloc: Global,
    wire: &mut W,
    response: &Option<Response>,
    tally: &mut Tally,
) -> Result<(), OutOfMemory>
    requires there { W.is_open wire.old }
    requires written { AreWritten response.now }
    ensures ok { OnOk result (AnswersWith response.now (surroundings tally.old (W.tells wire.old) (W.faults wire.old)) (surroundings tally.new (W.tells wire.new) (W.faults wire.new))) }
    ensures err { OnErr result (StopsWriting response.now (W.tells wire.old) (W.tells wire.new)) }
{
    match response {
        Some(response) => write_answer(alloc, wire, response, tally),
        None => {
            drop_connection(wire, tally);
            Ok(())
        }
    }
}
