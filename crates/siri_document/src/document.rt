//! Reads the one document of a command, and tells what is made of it.

ghost use Rattle.std.specs.Prelude.{◌≡◌, ◌≤◌, ◌<◌, ℕ, List, ◌++◌, length, take, IfOk, false};
ghost use Rattle.std.specs.Io.KnownBytes.{Consumes, IsAtEnd};
ghost use Rattle.siri_outside.specs.Causes.{Rose, HasOutsideCause};
ghost use Rattle.siri_outside.specs.MetFailures.{SinkMeets, SourceMeets, has_failed, is_read_fault, is_write_fault};
ghost use Rattle.siri_messages.specs.declared.message.Message.{Message as Msg};
ghost use Rattle.siri_wire.specs.Documents.{Decodes, message_of};
ghost use Rattle.siri_lines.specs.Ends.{ReadsAll};
ghost use Rattle.siri_document.specs.OneDocument.{Answers, EndsDocument, IsDocument, Tells, refused_told, told_by};
ghost use Rattle.siri_document.specs.script.Spaced.{line_feed};

use siri_base::{OutOfMemory, Status, append};
use siri_json::LONGEST_DOCUMENT;
use siri_lines::write_text;
use siri_messages::Message;
use siri_outside::{OutsideError, Sink, Source};
use siri_wire::{DecodeError, Refusal, decode};
use std::alloc::Global;
use std::marker::Model;

/// How much the source is asked for at once.
const PIECE: usize = 65_536;

/// How many bytes are read at most: one more than a document may have.
const MOST_READ: usize = LONGEST_DOCUMENT + 1;

/// What a command tells of the message of a document.
pub trait Telling {
    /// The text that is told of a message.
    ghost text: { Msg → List ℕ };

    /// That text and a line feed. The message isn't kept.
    fn line(alloc: Global, message: Message) -> Result<Vec<u8>, OutOfMemory>
        ensures { IfOk result (λ line. line.items ≡ text message ++ line_feed) };
}

/// What a command over one document tells, and whether the document, or what became of it, is refused by that.
#[derive(Drop)]
pub struct Answer {
    text: Vec<u8>,
    refused: bool,
}

impl Model for Answer {
    ghost use Rattle.siri_lines.specs.RunResult.{RunResult};
    ghost use Rattle.siri_document.specs.OneDocument.{status_where};

    ghost Value = { RunResult };

    ghost view = { λ a. record { text = a.text.items; status = status_where a.refused } };
}

impl Answer {
    /// The text tells what was asked for; the run ends with status 0.
    pub fn of(text: Vec<u8>) -> Answer
        ensures { result ≡ record { text = text.items; status = Status.Done } }
    {
        Answer {
            text,
            refused: false,
        }
    }

    /// The text tells why that can't be told; the run ends with status 1.
    pub fn refusing(text: Vec<u8>) -> Answer
        ensures { result ≡ record { text = text.items; status = Status.Refused } }
    {
        Answer {
            text,
            refused: true,
        }
    }

    /// `PATH: REASON` and a line feed: the text tells why the document is refused.
    pub fn refused(refusal: &Refusal) -> Result<Answer, OutOfMemory>
        ensures { IfOk result (λ answer. answer ≡ refused_told (record { path = refusal.now.path; reason = refusal.now.reason })) }
    {
        let mut text = refusal.text()?;
        append(&mut text, b"\n")?;
        Ok(Answer::refusing(text))
    }

    /// Writes the whole text, and ends the run: with its status, or where the sink fails or there is no memory for
    /// that, with `WriteFault` or `OutOfMemory`.
    pub fn write<K: Sink>(self, sink: &mut K) -> Status
        ensures text { Tells (K.held sink.old) self (K.held sink.new) result }
        ensures write { result ≡ Status.WriteFault → Rose (K.faults sink.old) (K.faults sink.new) }
        ensures read { is_read_fault result ≡ false }
        ensures meets { SinkMeets (is_write_fault result) (K.held sink.old) (K.held sink.new) (K.fails sink.old) (K.fails sink.new) }
        ensures ends { EndsDocument result }
    {
        match write_text(sink, &self.text) {
            Ok(()) if self.refused => Status::Refused,
            Ok(()) => Status::Done,
            Err(OutsideError::Failed) => Status::WriteFault,
            Err(OutsideError::OutOfMemory) => Status::OutOfMemory,
        }
    }
}

/// Reads one document, and writes what the command tells of its message, or the refusal. A source or a sink that fails
/// ends the run there.
#[tactic(auto, using(siri_lines::proofs::Meeting::sink_none))]
pub fn answer_document<T: Telling, S: Source, K: Sink>(
    alloc: Global,
    source: &mut S,
    sink: &mut K,
) -> Status
    ensures answers { Answers (told_by T.text) (S.left source.old) (S.left source.new) (K.held sink.old) (K.held sink.new) result }
    ensures all { ReadsAll (S.left source.new) result }
    ensures unread { result ≡ Status.ReadFault → sink.new ≡ sink.old }
    ensures read { result ≡ Status.ReadFault → Rose (S.faults source.old) (S.faults source.new) }
    ensures write { result ≡ Status.WriteFault → Rose (K.faults sink.old) (K.faults sink.new) }
    ensures source_meets { SourceMeets (is_read_fault result) (S.left source.old) (S.left source.new) (S.fails source.old) (S.fails source.new) }
    ensures sink_meets { SinkMeets (is_write_fault result) (K.held sink.old) (K.held sink.new) (K.fails sink.old) (K.fails sink.new) }
    ensures ends { EndsDocument result }
{
    match read_document(alloc, source) {
        Ok(document) => match answer_of::<T>(alloc, document) {
            Ok(answer) => answer.write(sink),
            Err(_) => Status::OutOfMemory,
        },
        Err(OutsideError::Failed) => Status::ReadFault,
        Err(OutsideError::OutOfMemory) => Status::OutOfMemory,
    }
}

/// What the command tells of a document, whose bytes aren't kept.
#[tactic(auto, unfolding(crate::specs::OneDocument::told_by))]
fn answer_of<T: Telling>(alloc: Global, document: Vec<u8>) -> Result<Answer, OutOfMemory>
    ensures { IfOk result (λ answer. answer ≡ told_by T.text document.items) }
{
    match read_message(alloc, document) {
        Ok(message) => Ok(Answer::of(T::line(alloc, message)?)),
        Err(DecodeError::Refused(refusal)) => Answer::refused(&refusal),
        Err(DecodeError::OutOfMemory) => Err(OutOfMemory),
    }
}

/// Reads the document to its end, or to its byte 8,388,609, where it is too long. `Failed` comes only where the source's
/// count of faults rose.
#[tactic(auto, using(siri_lines::proofs::Meeting::source_none, siri_lines::proofs::Meeting::source_more))]
pub fn read_document<S: Source>(alloc: Global, source: &mut S) -> Result<Vec<u8>, OutsideError>
    ensures document { IfOk result (λ document. IsDocument (S.left source.old) (S.left source.new) document.items) }
    ensures cause { HasOutsideCause (S.faults source.old) (S.faults source.new) result }
    ensures meets { SourceMeets (has_failed result) (S.left source.old) (S.left source.new) (S.fails source.old) (S.fails source.new) }
{
    let mut piece = room(alloc)?;
    let mut document = Vec::new(alloc);
    while document.len() < MOST_READ {
        piece.truncate(MOST_READ - document.len());
        let count = read_piece(source, &mut piece)?;
        if count == 0 {
            return Ok(document);
        }
        append(&mut document, &piece[..count])?;
    }
    Ok(document)
}

/// Room for what the source gives at once.
fn room(alloc: Global) -> Result<Vec<u8>, OutOfMemory>
    ensures { IfOk result (λ room. length room.items ≡ PIECE) }
{
    let mut room = Vec::new(alloc);
    room.resize(PIECE, 0)?;
    Ok(room)
}

/// Reads into a buffer, and gives how many bytes came: 0 at the end.
fn read_piece<S: Source>(source: &mut S, into: &mut [u8]) -> Result<usize, OutsideError>
    requires { 0 < length into.old }
    ensures length { length into.new ≡ length into.old }
    ensures bound { IfOk result (λ count. count ≤ length into.new) }
    ensures bytes { IfOk result (λ count. Consumes (S.left source.old) (S.left source.new) (take count into.new)) }
    ensures end { IfOk result (λ count. count ≡ 0 → IsAtEnd (S.left source.new)) }
    ensures cause { HasOutsideCause (S.faults source.old) (S.faults source.new) result }
    ensures meets { SourceMeets (has_failed result) (S.left source.old) (S.left source.new) (S.fails source.old) (S.fails source.new) }
{
    match source.read(into) {
        Ok(count) => Ok(count),
        Err(_) => Err(OutsideError::Failed),
    }
}

/// The message of a document, whose bytes aren't kept.
fn read_message(alloc: Global, document: Vec<u8>) -> Result<Message, DecodeError>
    ensures { Decodes result (message_of document.items) }
{
    decode(alloc, &document)
}
