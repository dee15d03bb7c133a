//! The line that a run over the network ends with.

ghost use Rattle.std.specs.Prelude.{◌≡◌, ◌++◌, IfOk, OnErr, OnOk};
ghost use Rattle.siri_outside.specs.Causes.{HasOutsideCause};
ghost use Rattle.siri_outside.specs.MetFailures.{SinkMeets, has_failed};
ghost use Rattle.std.specs.Io.KnownBytes.{Appends};
ghost use Rattle.siri_lines.specs.Ends.{AppendsFront};
ghost use Rattle.siri_runs.specs.Summaries.{counted_text, summary_text};

use siri_base::{OutOfMemory, append, append_number};
use siri_http::Tally;
use siri_lines::write_text;
use siri_outside::{OutsideError, Sink};
use std::alloc::Global;

/// Writes `served N refused R dropped D unsent U` and a line feed.
#[tactic(auto, using(siri_lines::proofs::Meeting::sink_none))]
pub fn write_summary<K: Sink>(
    alloc: Global,
    tally: &Tally,
    sink: &mut K,
) -> Result<(), OutsideError>
    ensures ok { OnOk result (Appends (K.held sink.old) (K.held sink.new) (summary_text tally.now)) }
    ensures err { OnErr result (AppendsFront (K.held sink.old) (K.held sink.new) (summary_text tally.now)) }
    ensures cause { HasOutsideCause (K.faults sink.old) (K.faults sink.new) result }
    ensures meets { SinkMeets (has_failed result) (K.held sink.old) (K.held sink.new) (K.fails sink.old) (K.fails sink.new) }
{
    write_text(sink, &summary(alloc, tally)?)
}

fn summary(alloc: Global, tally: &Tally) -> Result<Vec<u8>, OutOfMemory>
    ensures { IfOk result (λ text. text.items ≡ summary_text tally.now) }
{
    let mut text = Vec::new(alloc);
    append_counted(alloc, &mut text, b"served ", tally.served)?;
    append_counted(alloc, &mut text, b" refused ", tally.refused)?;
    append_counted(alloc, &mut text, b" dropped ", tally.dropped)?;
    append_counted(alloc, &mut text, b" unsent ", tally.unsent)?;
    append(&mut text, b"\n")?;
    Ok(text)
}

/// A word and a count.
fn append_counted(
    alloc: Global,
    into: &mut Vec<u8>,
    word: &[u8],
    count: u64,
) -> Result<(), OutOfMemory>
    ensures { OnOk result (into.new.items ≡ into.old.items ++ counted_text word.now count) }
{
    append(into, word)?;
    append_number(alloc, into, count)
}
