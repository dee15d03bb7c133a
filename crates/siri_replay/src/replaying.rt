//! The command `replay`.

ghost use Rattle.std.specs.Prelude.{◌≡◌, []};
ghost use Rattle.siri_outside.specs.Causes.{Rose};
ghost use Rattle.siri_outside.specs.MetFailures.{SinkMeets, SourceMeets, is_read_fault, is_write_fault};
ghost use Rattle.siri_lines.specs.Ends.{ReadsAll};
ghost use Rattle.siri_lines.specs.Pieces.{ReadsNoFurther};
ghost use Rattle.siri_lines.specs.Reports.{Reports};
ghost use Rattle.siri_lines.specs.Stops.{EndsReading};
ghost use Rattle.siri_replay.specs.Report.{report};
ghost use Rattle.siri_replay.specs.Views.{ReportsViews, brings};

use crate::script::Script;
use siri_base::Status;
use siri_lines::read_lines;
use siri_outside::{Sink, Source};
use std::alloc::Global;

/// The most lines that a script may have.
const MOST_LINES: u64 = 1_000_000;

/// Reads a script to its end, and writes its report as its events are complete.
///
/// `Script` at the first line that isn't of the grammar. `Limit` at the first that has more than 1,048,576 bytes, is
/// the 1,000,001st, sends packet 1,000,001 or makes a 17th consumer. `ReadFault` and `WriteFault` only where the source
/// or the sink failed, `OutOfMemory` wherever memory is asked for, otherwise `Done`. A source or a sink that fails ends
/// the run there, and nothing is read beyond the piece in which the end of a line lay that ended it.
#[tactic(auto, using(siri_lines::proofs::Meeting::sink_none, siri_lines::proofs::Meeting::source_none, siri_lines::proofs::Whole::ends_at_once))]
pub fn replay<S: Source, K: Sink>(alloc: Global, source: &mut S, sink: &mut K) -> Status
    ensures report { Reports report (S.left source.old) (S.left source.new) (K.held sink.old) (K.held sink.new) result }
    ensures views { ReportsViews (S.left source.old) (S.left source.new) (K.held sink.old) (K.held sink.new) result }
    ensures pieces { ReadsNoFurther brings [] (S.left source.old) (S.left source.new) }
    ensures all { ReadsAll (S.left source.new) result }
    ensures source_meets { SourceMeets (is_read_fault result) (S.left source.old) (S.left source.new) (S.fails source.old) (S.fails source.new) }
    ensures sink_meets { SinkMeets (is_write_fault result) (K.held sink.old) (K.held sink.new) (K.fails sink.old) (K.fails sink.new) }
    ensures read { result ≡ Status.ReadFault → Rose (S.faults source.old) (S.faults source.new) }
    ensures write { result ≡ Status.WriteFault → Rose (K.faults sink.old) (K.faults sink.new) }
    ensures ends { EndsReading result }
{
    match Script::new(alloc) {
        Ok(mut script) => read_lines(alloc, MOST_LINES, &mut script, source, sink),
        Err(_) => Status::OutOfMemory,
    }
}
