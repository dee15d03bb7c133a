//! The arguments of a script's words.

ghost use Rattle.std.specs.Prelude.{◌≡◌, option_map};
ghost use Rattle.std.specs.List.{list_all};
ghost use Rattle.siri_replay.specs.Arguments.{consumer_in, delivery_in, document_in, identifier_in, is_consumer, is_consumer_byte, is_consumer_word, moment_in, name_of, number_in, request_in, wanted_in};
ghost use Rattle.siri_document.specs.script.Reads.{Reads};

use siri_base::{Moment, Name, ScriptReason, TextError, number_of};
use siri_document::{LineError, bad_document, wanted_said};
use siri_messages::{Message, ServiceDelivery, ServiceRequest};
use siri_time::read_moment;
use siri_wire::{DecodeError, Wanted, decode};
use std::alloc::Global;

/// The name of a script's producer.
const PRODUCER: &[u8] = b"producer";

/// The moment that an argument is.
pub(crate) fn moment_in(argument: Option<&[u8]>) -> Result<Moment, LineError>
    ensures { Reads result (moment_in (option_map (λ text. text.now) argument.entry)) }
{
    let Some(text) = argument else {
        return Err(LineError::Refused(ScriptReason::BadArgument));
    };
    match read_moment(text) {
        Ok(moment) => Ok(moment),
        Err(_) => Err(LineError::Refused(ScriptReason::BadArgument)),
    }
}

/// The name that a text is.
fn name_of(alloc: Global, text: &[u8]) -> Result<Name, LineError>
    ensures { Reads result (name_of text.now) }
{
    let Ok(text) = std::str::from_utf8(text) else {
        return Err(LineError::Refused(ScriptReason::BadArgument));
    };
    match Name::new(alloc, text) {
        Ok(name) => Ok(name),
        Err(TextError::OutOfMemory) => Err(LineError::OutOfMemory),
        Err(_) => Err(LineError::Refused(ScriptReason::BadArgument)),
    }
}

/// Whether a byte is a letter, a digit, `_` or `-` of ASCII.
fn is_consumer_byte(byte: u8) -> bool
    ensures { result ≡ is_consumer_byte byte }
{
    byte.is_ascii_alphanumeric() || byte == b'_' || byte == b'-'
}

/// Whether a text has only letters, digits, `_` and `-` of ASCII; the empty text has.
fn is_all_consumer_bytes(text: &[u8]) -> bool
    ensures { result ≡ list_all is_consumer_byte text.now }
{
    text.iter().all(|byte| is_consumer_byte(*byte))
}

/// At most 64 letters, digits, `_` and `-`.
fn is_consumer_word(text: &[u8]) -> bool
    ensures { result ≡ is_consumer_word text.now }
{
    text.len() <= 64 && is_all_consumer_bytes(text)
}

/// Whether a text is of the form of a consumer's name, but for that it may be empty.
fn is_consumer(text: &[u8]) -> bool
    ensures { result ≡ is_consumer text.now }
{
    is_consumer_word(text) && text != PRODUCER
}

/// The name of a consumer that an argument is.
pub(crate) fn consumer_in(alloc: Global, argument: Option<&[u8]>) -> Result<Name, LineError>
    ensures { Reads result (consumer_in (option_map (λ text. text.now) argument.entry)) }
{
    match argument {
        Some(text) if is_consumer(text) => name_of(alloc, text),
        _ => Err(LineError::Refused(ScriptReason::BadArgument)),
    }
}

/// The identifier of a subscription that an argument is.
pub(crate) fn identifier_in(alloc: Global, argument: Option<&[u8]>) -> Result<Name, LineError>
    ensures { Reads result (identifier_in (option_map (λ text. text.now) argument.entry)) }
{
    match argument {
        Some(text) => name_of(alloc, text),
        None => Err(LineError::Refused(ScriptReason::BadArgument)),
    }
}

/// The number of a packet that an argument is.
pub(crate) fn number_in(argument: Option<&[u8]>) -> Result<u64, LineError>
    ensures { Reads result (number_in (option_map (λ text. text.now) argument.entry)) }
{
    let Some(text) = argument else {
        return Err(LineError::Refused(ScriptReason::BadArgument));
    };
    let Ok(text) = std::str::from_utf8(text) else {
        return Err(LineError::Refused(ScriptReason::BadArgument));
    };
    match number_of(text) {
        Some(number) => Ok(number),
        None => Err(LineError::Refused(ScriptReason::BadArgument)),
    }
}

/// The message of the document that an argument is.
fn document_in(alloc: Global, argument: Option<&[u8]>) -> Result<Message, LineError>
    ensures { Reads result (document_in (option_map (λ text. text.now) argument.entry)) }
{
    let Some(text) = argument else {
        return Err(LineError::Refused(ScriptReason::BadArgument));
    };
    match decode(alloc, text) {
        Ok(message) => Ok(message),
        Err(DecodeError::Refused(refusal)) => Err(LineError::Refused(bad_document(&refusal)?)),
        Err(DecodeError::OutOfMemory) => Err(LineError::OutOfMemory),
    }
}

/// The delivery to feed: one that belongs to no round.
pub(crate) fn delivery_in(
    alloc: Global,
    argument: Option<&[u8]>,
) -> Result<ServiceDelivery, LineError>
    ensures { Reads result (delivery_in (option_map (λ text. text.now) argument.entry)) }
{
    match document_in(alloc, argument)?.into_service_delivery() {
        Some(delivery) if !delivery.has_round() => Ok(delivery),
        _ => Err(LineError::Refused(ScriptReason::WrongMessage)),
    }
}

/// The request to ask.
pub(crate) fn request_in(
    alloc: Global,
    argument: Option<&[u8]>,
) -> Result<ServiceRequest, LineError>
    ensures { Reads result (request_in (option_map (λ text. text.now) argument.entry)) }
{
    document_in(alloc, argument)?
        .into_service_request()
        .ok_or(LineError::Refused(ScriptReason::WrongMessage))
}

/// The subscription that a consumer asks for by an argument.
pub(crate) fn wanted_in(
    alloc: Global,
    consumer: &Name,
    argument: Option<&[u8]>,
) -> Result<Wanted, LineError>
    ensures { Reads result (wanted_in consumer.now (option_map (λ text. text.now) argument.entry)) }
{
    match argument {
        Some(text) => wanted_said(alloc, consumer, text),
        None => Err(LineError::Refused(ScriptReason::BadArgument)),
    }
}
