//! Reads all lines of a source.

ghost use Rattle.std.specs.Prelude.{◌≡◌, ◌≤◌, ◌<◌, length};
ghost use Rattle.siri_outside.specs.Causes.{Rose};
ghost use Rattle.siri_outside.specs.MetFailures.{SinkMeets, SourceMeets, is_read_fault, is_write_fault};
ghost use Rattle.siri_lines.specs.RunResult.{verdict};
ghost use Rattle.siri_lines.specs.Ends.{ReadsAll};
ghost use Rattle.siri_lines.specs.Pieces.{ReadsNoFurther};
ghost use Rattle.siri_lines.specs.Reports.{Reports, report_of};
ghost use Rattle.siri_lines.specs.Stands.{TakesAll};
ghost use Rattle.siri_lines.specs.Stops.{EndsReading};

use crate::LineTaker;
use crate::reader::Reader;
use siri_base::Status;
use siri_outside::{Sink, Source};
use std::alloc::Global;

/// How many bytes are asked of the source at once.
const PIECE: usize = 65_536;

/// Reads lines to the source's end, so many at most, up to 1,000,000, and has each taken. What a line brings is written
/// before the next is taken.
///
/// `Limit` exactly at the first line of more than 1,048,576 bytes, without its end, or of a greater number, where no
/// line before it ended the run. `ReadFault` only where the source failed. A source or a sink that fails ends the run
/// there: nothing is read or written after it, nor is anything read beyond the piece in which the end of a line lay
/// that ended the run.
pub fn read_lines<T: LineTaker, S: Source, K: Sink>(
    alloc: Global,
    most: u64,
    taker: &mut T,
    source: &mut S,
    sink: &mut K,
) -> Status
    requires { most ≤ 1000000 }
    ensures report { (w : T.World) → T.fits taker.old w →
        Reports (report_of (verdict most T.event) w) (S.left source.old) (S.left source.new) (K.held sink.old) (K.held sink.new) result }
    ensures stands { result ≡ Status.Done → (w : T.World) → T.fits taker.old w →
        TakesAll T.fits (verdict most T.event) w (S.left source.old) taker.new }
    ensures pieces { (w : T.World) → T.fits taker.old w →
        ReadsNoFurther (verdict most T.event) w (S.left source.old) (S.left source.new) }
    ensures all { ReadsAll (S.left source.new) result }
    ensures source_meets { SourceMeets (is_read_fault result) (S.left source.old) (S.left source.new) (S.fails source.old) (S.fails source.new) }
    ensures sink_meets { SinkMeets (is_write_fault result) (K.held sink.old) (K.held sink.new) (K.fails sink.old) (K.fails sink.new) }
    ensures read { result ≡ Status.ReadFault → Rose (S.faults source.old) (S.faults source.new) }
    ensures write { result ≡ Status.WriteFault → Rose (K.faults sink.old) (K.faults sink.new) }
    ensures ends { EndsReading result }
{
    match vec![in alloc; 0u8; PIECE] {
        Ok(mut buffer) => read_pieces(alloc, most, &mut buffer, taker, source, sink),
        Err(_) => Status::OutOfMemory,
    }
}

/// The same, with a buffer for what the source gives at once.
fn read_pieces<T: LineTaker, S: Source, K: Sink>(
    alloc: Global,
    most: u64,
    buffer: &mut [u8],
    taker: &mut T,
    source: &mut S,
    sink: &mut K,
) -> Status
    requires most { most ≤ 1000000 }
    requires space { 0 < length buffer.old }
    requires piece { length buffer.old ≤ 65536 }
    ensures report { (w : T.World) → T.fits taker.old w →
        Reports (report_of (verdict most T.event) w) (S.left source.old) (S.left source.new) (K.held sink.old) (K.held sink.new) result }
    ensures stands { result ≡ Status.Done → (w : T.World) → T.fits taker.old w →
        TakesAll T.fits (verdict most T.event) w (S.left source.old) taker.new }
    ensures pieces { (w : T.World) → T.fits taker.old w →
        ReadsNoFurther (verdict most T.event) w (S.left source.old) (S.left source.new) }
    ensures all { ReadsAll (S.left source.new) result }
    ensures source_meets { SourceMeets (is_read_fault result) (S.left source.old) (S.left source.new) (S.fails source.old) (S.fails source.new) }
    ensures sink_meets { SinkMeets (is_write_fault result) (K.held sink.old) (K.held sink.new) (K.fails sink.old) (K.fails sink.new) }
    ensures read { result ≡ Status.ReadFault → Rose (S.faults source.old) (S.faults source.new) }
    ensures write { result ≡ Status.WriteFault → Rose (K.faults sink.old) (K.faults sink.new) }
    ensures ends { EndsReading result }
{
    let mut reader = Reader::new(alloc, most);
    loop {
        match source.read(buffer) {
            Err(_) => return Status::ReadFault,
            Ok(0) => return reader.finish(taker, sink),
            Ok(count) => {
                if let Err(stop) = reader.take(taker, &buffer[..count], sink) {
                    return Status::from(stop);
                }
            }
        }
    }
}
