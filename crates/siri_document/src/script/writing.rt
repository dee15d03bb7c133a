//! Writes lines.

ghost use Rattle.std.specs.Prelude.{◌++◌, OnOk, OnErr};
ghost use Rattle.std.specs.Io.KnownBytes.{Appends};
ghost use Rattle.siri_outside.specs.Causes.{HasOutsideCause};
ghost use Rattle.siri_outside.specs.MetFailures.{SinkMeets, has_failed};
ghost use Rattle.siri_lines.specs.Ends.{AppendsFront};
ghost use Rattle.siri_document.specs.script.Spaced.{line_feed};

use siri_base::append;
use siri_lines::write_text;
use siri_outside::{OutsideError, Sink};

/// Writes a text and a line feed.
#[tactic(auto, using(siri_lines::proofs::Meeting::sink_none))]
pub fn write_whole<K: Sink>(mut text: Vec<u8>, sink: &mut K) -> Result<(), OutsideError>
    ensures ok { OnOk result (Appends (K.held sink.old) (K.held sink.new) (text.items ++ line_feed)) }
    ensures err { OnErr result (AppendsFront (K.held sink.old) (K.held sink.new) (text.items ++ line_feed)) }
    ensures cause { HasOutsideCause (K.faults sink.old) (K.faults sink.new) result }
    ensures meets { SinkMeets (has_failed result) (K.held sink.old) (K.held sink.new) (K.fails sink.old) (K.fails sink.new) }
{
    append(&mut text, b"\n")?;
    write_text(sink, &text)
}
