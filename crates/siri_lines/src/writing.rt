//! Writes whole texts.

ghost use Rattle.std.specs.Prelude.{OnOk, OnErr};
ghost use Rattle.std.specs.Io.KnownBytes.{Appends};
ghost use Rattle.siri_outside.specs.Causes.{HasOutsideCause};
ghost use Rattle.siri_outside.specs.MetFailures.{SinkMeets, has_failed};
ghost use Rattle.siri_lines.specs.Ends.{AppendsFront};

use siri_outside::{OutsideError, Sink};

/// Writes the whole text, in as many calls as it takes. Nothing is written after a failure.
pub fn write_text<K: Sink>(sink: &mut K, text: &[u8]) -> Result<(), OutsideError>
    ensures ok { OnOk result (Appends (K.held sink.old) (K.held sink.new) text.now) }
    ensures err { OnErr result (AppendsFront (K.held sink.old) (K.held sink.new) text.now) }
    ensures cause { HasOutsideCause (K.faults sink.old) (K.faults sink.new) result }
    ensures meets { SinkMeets (has_failed result) (K.held sink.old) (K.held sink.new) (K.fails sink.old) (K.fails sink.new) }
{
    let mut rest = text;
    while !rest.is_empty() {
        let count = sink.write(rest)?;
        rest = rest.split_at(count).1;
    }
    Ok(())
}
