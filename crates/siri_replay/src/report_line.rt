//! The lines of a report.

ghost use Rattle.std.specs.Prelude.{◌≡◌, ◌++◌, IfOk, OnOk, OnErr};
ghost use Rattle.std.specs.Io.KnownBytes.{Appends};
ghost use Rattle.siri_outside.specs.Causes.{HasOutsideCause};
ghost use Rattle.siri_outside.specs.MetFailures.{SinkMeets, has_failed};
ghost use Rattle.siri_lines.specs.Ends.{AppendsFront};
ghost use Rattle.siri_world_model.specs.Lines as line;
ghost use Rattle.siri_world_model.specs.Lines.{told_line, told_lines};
ghost use Rattle.siri_replay.specs.ReportLines.{ask_text, line_text, lines_text, packet_text, state_text, told_text, view_text};
ghost use Rattle.siri_document.specs.script.Spaced.{line_feed, spaced};

use crate::words_said::{append_fed, append_said};
use siri_base::{Name, OutOfMemory, append};
use siri_document::{append_count, append_word, item_line, view_line, write_whole};
use siri_lines::write_text;
use siri_outside::{OutsideError, Sink};
use siri_producer::Fed;
use siri_view::{AskError, Held};
use siri_wire::encode;
use siri_world::{Line, Word};
use std::alloc::Global;

/// Writes the texts of these lines, one after the other.
#[tactic(auto, using(siri_lines::proofs::Meeting::sink_none))]
pub(crate) fn write_lines<K: Sink>(
    alloc: Global,
    lines: &[Line],
    sink: &mut K,
) -> Result<(), OutsideError>
    ensures ok { OnOk result (Appends (K.held sink.old) (K.held sink.new) (lines_text (told_lines lines.now))) }
    ensures err { OnErr result (AppendsFront (K.held sink.old) (K.held sink.new) (lines_text (told_lines lines.now))) }
    ensures cause { HasOutsideCause (K.faults sink.old) (K.faults sink.new) result }
    ensures meets { SinkMeets (has_failed result) (K.held sink.old) (K.held sink.new) (K.fails sink.old) (K.fails sink.new) }
{
    for line in lines {
        write_line(alloc, line, sink)?;
    }
    Ok(())
}

/// Writes the text of a line. The document of an answer or a packet isn't copied.
#[tactic(auto, using(siri_lines::proofs::Meeting::sink_none), unfolding(crate::specs::ReportLines::line_text))]
fn write_line<K: Sink>(alloc: Global, line: &Line, sink: &mut K) -> Result<(), OutsideError>
    ensures ok { OnOk result (Appends (K.held sink.old) (K.held sink.new) (line_text (told_line line.now))) }
    ensures err { OnErr result (AppendsFront (K.held sink.old) (K.held sink.new) (line_text (told_line line.now))) }
    ensures cause { HasOutsideCause (K.faults sink.old) (K.faults sink.new) result }
    ensures meets { SinkMeets (has_failed result) (K.held sink.old) (K.held sink.new) (K.fails sink.old) (K.fails sink.new) }
{
    match line {
        Line::Started(number) => write_whole(started(alloc, *number)?, sink),
        Line::Fed(told) => write_whole(fed(alloc, told)?, sink),
        Line::Answer(message) => {
            let document = encode(alloc, message)?;
            write_document(b"answer", &document, sink)
        }
        Line::Packet {
            number,
            to,
            message,
        } => {
            let front = packet(alloc, *number, to)?;
            let document = encode(alloc, message)?;
            write_document(&front, &document, sink)
        }
        Line::Refused { consumer, error } => write_whole(refused(alloc, consumer, *error)?, sink),
        Line::Unknown {
            consumer,
            identifier,
        } => write_whole(unknown(alloc, consumer, identifier)?, sink),
        Line::Took { receiver, word } => write_whole(took(alloc, receiver, *word)?, sink),
        Line::NoPacket(number) => write_whole(no_packet(alloc, *number)?, sink),
        Line::View {
            consumer,
            identifier,
            held,
            items,
            quiet,
        } => write_whole(
            view(alloc, consumer, identifier, held, *items, *quiet)?,
            sink,
        ),
        Line::Item(item) => write_whole(item_line(alloc, item)?, sink),
    }
}

/// Writes a line that ends with a document, in parts.
fn write_document<K: Sink>(front: &[u8], document: &[u8], sink: &mut K) -> Result<(), OutsideError>
    ensures ok { OnOk result (Appends (K.held sink.old) (K.held sink.new) (spaced front.now document.now ++ line_feed)) }
    ensures err { OnErr result (AppendsFront (K.held sink.old) (K.held sink.new) (spaced front.now document.now ++ line_feed)) }
    ensures cause { HasOutsideCause (K.faults sink.old) (K.faults sink.new) result }
    ensures meets { SinkMeets (has_failed result) (K.held sink.old) (K.held sink.new) (K.fails sink.old) (K.fails sink.new) }
{
    write_text(sink, front)?;
    write_text(sink, b" ")?;
    write_text(sink, document)?;
    write_text(sink, b"\n")
}

/// `started S`
fn started(alloc: Global, number: u64) -> Result<Vec<u8>, OutOfMemory>
    ensures { IfOk result (λ text. text.items ≡ told_text (line.Started number)) }
{
    let mut text = Vec::new(alloc);
    append(&mut text, b"started")?;
    append_count(alloc, &mut text, number)?;
    Ok(text)
}

/// `fed OBSERVED WITHDRAWN FULL`
fn fed(alloc: Global, told: &Fed) -> Result<Vec<u8>, OutOfMemory>
    ensures { IfOk result (λ text. text.items ≡ told_text (line.Fed told.now)) }
{
    let mut text = Vec::new(alloc);
    append(&mut text, b"fed ")?;
    append_fed(alloc, &mut text, told)?;
    Ok(text)
}

/// `packet N to RECEIVER`
fn packet(alloc: Global, number: u64, to: &Name) -> Result<Vec<u8>, OutOfMemory>
    ensures { IfOk result (λ text. text.items ≡ packet_text number to.now) }
{
    let mut text = Vec::new(alloc);
    append(&mut text, b"packet")?;
    append_count(alloc, &mut text, number)?;
    append(&mut text, b" to")?;
    append_word(&mut text, to.text().as_bytes())?;
    Ok(text)
}

/// `refused CONSUMER WHY`
fn refused(alloc: Global, consumer: &Name, error: AskError) -> Result<Vec<u8>, OutOfMemory>
    ensures { IfOk result (λ text. text.items ≡ told_text (line.Refused consumer.now error)) }
{
    let mut text = Vec::new(alloc);
    append(&mut text, b"refused")?;
    append_word(&mut text, consumer.text().as_bytes())?;
    append_word(&mut text, ask_text(error).as_bytes())?;
    Ok(text)
}

/// Why a consumer doesn't ask.
fn ask_text(error: AskError) -> &'static str
    ensures { result.now ≡ ask_text error }
{
    match error {
        AskError::Spent => "Spent",
        AskError::TooMany => "TooMany",
        AskError::NotHeld => "NotHeld",
        AskError::OutOfMemory => "OutOfMemory",
    }
}

/// `unknown CONSUMER` or `unknown CONSUMER ID`
fn unknown(
    alloc: Global,
    consumer: &Name,
    identifier: &Option<Name>,
) -> Result<Vec<u8>, OutOfMemory>
    ensures { IfOk result (λ text. text.items ≡ told_text (line.Unknown consumer.now identifier.now)) }
{
    let mut text = Vec::new(alloc);
    append(&mut text, b"unknown")?;
    append_word(&mut text, consumer.text().as_bytes())?;
    if let Some(identifier) = identifier {
        append_word(&mut text, identifier.text().as_bytes())?;
    }
    Ok(text)
}

/// `took RECEIVER WORD`
fn took(alloc: Global, receiver: &Name, word: Word) -> Result<Vec<u8>, OutOfMemory>
    ensures { IfOk result (λ text. text.items ≡ told_text (line.Took receiver.now word)) }
{
    let mut text = Vec::new(alloc);
    append(&mut text, b"took")?;
    append_word(&mut text, receiver.text().as_bytes())?;
    append(&mut text, b" ")?;
    append_said(alloc, &mut text, word)?;
    Ok(text)
}

/// `no packet N`
fn no_packet(alloc: Global, number: u64) -> Result<Vec<u8>, OutOfMemory>
    ensures { IfOk result (λ text. text.items ≡ told_text (line.NoPacket number)) }
{
    let mut text = Vec::new(alloc);
    append(&mut text, b"no packet")?;
    append_count(alloc, &mut text, number)?;
    Ok(text)
}

/// `view CONSUMER ID number N start S round R items K STATE`
fn view(
    alloc: Global,
    consumer: &Name,
    identifier: &Name,
    held: &Held,
    items: u64,
    quiet: bool,
) -> Result<Vec<u8>, OutOfMemory>
    ensures { IfOk result (λ text. text.items ≡ view_text consumer.now identifier.now held.now items quiet) }
{
    let mut text = view_line(alloc, consumer, identifier, held, items)?;
    append_word(&mut text, state_text(quiet).as_bytes())?;
    Ok(text)
}

/// STATE of a view: `quiet` or `moving`.
fn state_text(quiet: bool) -> &'static str
    ensures { result.now ≡ state_text quiet }
{
    if quiet { "quiet" } else { "moving" }
}
