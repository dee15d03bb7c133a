//! The line that tells how a run ended.

ghost use Rattle.std.specs.Prelude.{◌≡◌, IfOk, OnErr, OnOk};
ghost use Rattle.std.specs.Io.KnownBytes.{Appends};
ghost use Rattle.siri_outside.specs.Causes.{HasOutsideCause};
ghost use Rattle.siri_outside.specs.MetFailures.{SinkMeets, has_failed};
ghost use Rattle.siri_lines.specs.Ends.{AppendsFront};
ghost use Rattle.siri_lines.specs.StatusLines.{status_line};

use crate::write_text;
use siri_base::{OutOfMemory, Status};
use siri_outside::{OutsideError, Sink};
use std::alloc::Global;

/// Writes the line that tells how a run ended: its status's text and a line feed, and nothing where it has no text.
#[tactic(auto, using(crate::proofs::Meeting::sink_none))]
pub fn write_status<K: Sink>(
    alloc: Global,
    sink: &mut K,
    status: &Status,
) -> Result<(), OutsideError>
    ensures ok { OnOk result (Appends (K.held sink.old) (K.held sink.new) (status_line status.now)) }
    ensures err { OnErr result (AppendsFront (K.held sink.old) (K.held sink.new) (status_line status.now)) }
    ensures cause { HasOutsideCause (K.faults sink.old) (K.faults sink.new) result }
    ensures meets { SinkMeets (has_failed result) (K.held sink.old) (K.held sink.new) (K.fails sink.old) (K.fails sink.new) }
{
    write_text(sink, &status_line(alloc, status)?)
}

/// The text of a status and a line feed, or nothing where it has no text.
fn status_line(alloc: Global, status: &Status) -> Result<Vec<u8>, OutOfMemory>
    ensures { IfOk result (λ line. line.items ≡ status_line status.now) }
{
    let mut line = status.text(alloc)?.into_vec();
    if !line.is_empty() {
        line.push(b'\n')?;
    }
    Ok(line)
}
