//! The command `load`.

ghost use Rattle.std.specs.Prelude.{◌≡◌};
ghost use Rattle.siri_outside.specs.Causes.{Rose};
ghost use Rattle.siri_outside.specs.MetFailures.{SinkMeets, is_write_fault};
ghost use Rattle.siri_load.specs.Load.{load_text};
ghost use Rattle.siri_load.specs.Runs.{Writes, EndsLoad};

use crate::stop::Stop;
use crate::totals::summary;
use siri_base::Status;
use siri_lines::write_text;
use siri_outside::{OutsideError, Sink};
use std::alloc::Global;

/// Plays the load of two numbers, its seed and how many events there are, and writes `load SEED COUNT lines L packets P
/// lost X quiet Q items I`: the lines made, the packets sent and lost, and in the end the subscriptions that are quiet
/// and the items shown.
///
/// `Limit` exactly where a line of the script passes a limit, with the number of that line; nothing is written then.
/// `WriteFault` only where the sink failed, `OutOfMemory` wherever memory is asked for, otherwise `Done`.
#[tactic(auto, using(siri_lines::proofs::Meeting::sink_none))]
pub fn load<K: Sink>(alloc: Global, sink: &mut K, seed: u64, count: u64) -> Status
    ensures written { Writes (load_text seed count) (K.held sink.old) (K.held sink.new) result }
    ensures write { result ≡ Status.WriteFault → Rose (K.faults sink.old) (K.faults sink.new) }
    ensures meets { SinkMeets (is_write_fault result) (K.held sink.old) (K.held sink.new) (K.fails sink.old) (K.fails sink.new) }
    ensures ends { EndsLoad result }
{
    match summary(alloc, seed, count) {
        Ok(text) => write(sink, &text),
        Err(Stop::Limit(line)) => Status::Limit { line },
        Err(Stop::OutOfMemory) => Status::OutOfMemory,
    }
}

/// Writes the whole line.
fn write<K: Sink>(sink: &mut K, text: &[u8]) -> Status
    ensures written { Writes (record { text = text.now; status = Status.Done }) (K.held sink.old) (K.held sink.new) result }
    ensures write { result ≡ Status.WriteFault → Rose (K.faults sink.old) (K.faults sink.new) }
    ensures meets { SinkMeets (is_write_fault result) (K.held sink.old) (K.held sink.new) (K.fails sink.old) (K.fails sink.new) }
    ensures ends { EndsLoad result }
{
    match write_text(sink, text) {
        Ok(()) => Status::Done,
        Err(OutsideError::Failed) => Status::WriteFault,
        Err(OutsideError::OutOfMemory) => Status::OutOfMemory,
    }
}
