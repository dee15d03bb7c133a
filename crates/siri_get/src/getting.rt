//! The command `get`, from bytes to bytes.

ghost use Rattle.std.specs.Prelude.{◌≡◌};
ghost use Rattle.siri_outside.specs.Causes.{Rose};
ghost use Rattle.siri_outside.specs.MetFailures.{SinkMeets, SourceMeets, is_read_fault, is_write_fault};
ghost use Rattle.siri_lines.specs.Ends.{ReadsAll};
ghost use Rattle.siri_get.specs.Runs.{EndsGet, GetRun};

use crate::asking::ask;
use siri_base::{OutOfMemory, Status};
use siri_document::read_document;
use siri_http::Address;
use siri_outside::{OutsideError, Sink, Source, Wire};
use std::alloc::Global;

/// Reads one document, asks it of a producer's host as a query by GET, and writes the body of the response and a line
/// feed: `Done`. Where the document is refused, is no ServiceRequest or one that no query can ask, or the response is
/// refused or has another status than 200, it writes one line that says so: `Refused`. The producer's host is dialled
/// once where there is a query, and else not; the path of its address isn't asked.
///
/// `ReadFault` and `WriteFault` only where the source or the sink failed; `WireFault` only where the wire did: to dial,
/// to write the request or to read the response. `OutOfMemory` wherever memory is asked for. No other status comes.
#[tactic(auto, using(siri_lines::proofs::Meeting::sink_none))]
pub fn get<S: Source, K: Sink, W: Wire>(
    alloc: Global,
    producer: &Address,
    source: &mut S,
    sink: &mut K,
    wire: &mut W,
) -> Status
    ensures run { GetRun producer.now.host (S.left source.old) (S.left source.new) (W.tells wire.old) (W.tells wire.new) (K.held sink.old) (K.held sink.new) result }
    ensures all { ReadsAll (S.left source.new) result }
    ensures unread { result ≡ Status.ReadFault → (wire.new ≡ wire.old) × (sink.new ≡ sink.old) }
    ensures unheard { result ≡ Status.WireFault → sink.new ≡ sink.old }
    ensures read { result ≡ Status.ReadFault → Rose (S.faults source.old) (S.faults source.new) }
    ensures write { result ≡ Status.WriteFault → Rose (K.faults sink.old) (K.faults sink.new) }
    ensures wire_fault { result ≡ Status.WireFault → Rose (W.faults wire.old) (W.faults wire.new) }
    ensures source_meets { SourceMeets (is_read_fault result) (S.left source.old) (S.left source.new) (S.fails source.old) (S.fails source.new) }
    ensures sink_meets { SinkMeets (is_write_fault result) (K.held sink.old) (K.held sink.new) (K.fails sink.old) (K.fails sink.new) }
    ensures ends { EndsGet result }
{
    match read_document(alloc, source) {
        Ok(document) => match ask(alloc, producer, document, wire) {
            Ok(Some(answer)) => answer.write(sink),
            Ok(None) => Status::WireFault,
            Err(OutOfMemory) => Status::OutOfMemory,
        },
        Err(OutsideError::Failed) => Status::ReadFault,
        Err(OutsideError::OutOfMemory) => Status::OutOfMemory,
    }
}
