//! What a receiver says of a packet, as a report writes it.

ghost use Rattle.std.specs.Prelude.{◌≡◌, ◌++◌, OnOk};
ghost use Rattle.siri_replay.specs.ReportLines.{fed_text, note_text, outcome_text, place_text, word_text};

use siri_base::{OutOfMemory, Place, append, append_number};
use siri_document::append_count;
use siri_producer::{Fed, Note};
use siri_view::Outcome;
use siri_world::Word;
use std::alloc::Global;

/// `OBSERVED WITHDRAWN FULL`
pub(crate) fn append_fed(alloc: Global, into: &mut Vec<u8>, fed: &Fed) -> Result<(), OutOfMemory>
    ensures { OnOk result (into.new.items ≡ into.old.items ++ fed_text fed.now) }
{
    append_number(alloc, into, fed.observed)?;
    append_count(alloc, into, fed.withdrawn)?;
    append_count(alloc, into, fed.full)
}

/// `R P`
fn append_place(alloc: Global, into: &mut Vec<u8>, place: Place) -> Result<(), OutOfMemory>
    ensures { OnOk result (into.new.items ≡ into.old.items ++ place_text place) }
{
    append_number(alloc, into, place.round)?;
    append_count(alloc, into, place.part)
}

/// What a receiver says.
pub(crate) fn append_said(alloc: Global, into: &mut Vec<u8>, word: Word) -> Result<(), OutOfMemory>
    ensures { OnOk result (into.new.items ≡ into.old.items ++ word_text word) }
{
    match word {
        Word::Producer(note) => append_note(alloc, into, note),
        Word::Consumer(outcome) => append_outcome(alloc, into, outcome),
    }
}

/// What a producer says: its word, then the place that is wanted or the numbers of a feed.
fn append_note(alloc: Global, into: &mut Vec<u8>, note: Note) -> Result<(), OutOfMemory>
    ensures { OnOk result (into.new.items ≡ into.old.items ++ note_text note) }
{
    match note {
        Note::Asked => append(into, b"Asked"),
        Note::Subscribed => append(into, b"Subscribed"),
        Note::Ended => append(into, b"Ended"),
        Note::Renewed => append(into, b"Renewed"),
        Note::NotRenewed => append(into, b"NotRenewed"),
        Note::Supplied => append(into, b"Supplied"),
        Note::NothingReady => append(into, b"NothingReady"),
        Note::WrongPart { wanted } => {
            append(into, b"WrongPart ")?;
            append_place(alloc, into, wanted)
        }
        Note::Acknowledged => append(into, b"Acknowledged"),
        Note::NotThis => append(into, b"NotThis"),
        Note::Checked => append(into, b"Checked"),
        Note::Fed(fed) => {
            append(into, b"Fed ")?;
            append_fed(alloc, into, &fed)
        }
        Note::Ignored => append(into, b"Ignored"),
    }
}

/// What a consumer says: its word, then the place of a part or the round of a view.
fn append_outcome(alloc: Global, into: &mut Vec<u8>, outcome: Outcome) -> Result<(), OutOfMemory>
    ensures { OnOk result (into.new.items ≡ into.old.items ++ outcome_text outcome) }
{
    match outcome {
        Outcome::UnknownSubscription => append(into, b"UnknownSubscription"),
        Outcome::OldStart => append(into, b"OldStart"),
        Outcome::Gap { wanted } => {
            append(into, b"Gap ")?;
            append_place(alloc, into, wanted)
        }
        Outcome::Repeat => append(into, b"Repeat"),
        Outcome::Overlong => append(into, b"Overlong"),
        Outcome::Ready => append(into, b"Ready"),
        Outcome::Buffered { place } => {
            append(into, b"Buffered ")?;
            append_place(alloc, into, place)
        }
        Outcome::Applied { round } => {
            append(into, b"Applied")?;
            append_count(alloc, into, round)
        }
        Outcome::Noted => append(into, b"Noted"),
        Outcome::NotForMe => append(into, b"NotForMe"),
    }
}
