//! What takes lines.

ghost use Rattle.siri_lines.specs.RunResult.{Events};
ghost use Rattle.siri_outside.specs.MetFailures.{SinkMeets};
ghost use Rattle.siri_lines.specs.Brings.{Brings, StopCause, has_failed_to_write};

use crate::Stop;
use siri_outside::Sink;

/// What takes lines, one after the other.
pub trait LineTaker {
    /// What lines make, as far as it matters to the lines that follow.
    ghost World: { Type 0 };

    /// What a line does: by its number, which counts from 1, the world before it, and its bytes.
    ghost event: { Events World };

    /// The worlds that it stands for.
    ghost fits: { Self → World → Type 0 };

    /// Does what the line of this number says, without its end, and writes what it brings.
    fn take_line<K: Sink>(&mut self, number: u64, line: &[u8], sink: &mut K) -> Result<(), Stop>
        ensures brings { (w : World) → fits self.old w →
            Brings fits self.new (K.held sink.old) (K.held sink.new) result (event number w line.now) }
        ensures cause { StopCause (K.faults sink.old) (K.faults sink.new) result }
        ensures meets { SinkMeets (has_failed_to_write result) (K.held sink.old) (K.held sink.new) (K.fails sink.old) (K.fails sink.new) };
}
