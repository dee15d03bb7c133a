//! Reads what a consumer is to ask for.

ghost use Rattle.std.specs.Prelude.{◌≤◌, length, IfOk, IfErr, IsErrOf};
ghost use Rattle.siri_outside.specs.Causes.{Rose};
ghost use Rattle.siri_outside.specs.MetFailures.{SourceMeets};
ghost use Rattle.siri_lines.specs.Ends.{ReadsAll};
ghost use Rattle.siri_lines.specs.Pieces.{ReadsNoFurther};
ghost use Rattle.siri_lines.specs.RunResult.{verdict};
ghost use Rattle.siri_runs.specs.consumers.Wanting.{event, nothing_wanted};
ghost use Rattle.siri_runs.specs.consumers.Reading.{EndsReading, StopsAt, Wants, has_failed_to_read};

use crate::consuming::wanted_lines::WantedLines;
use siri_base::{List, Name, Status};
use siri_lines::read_lines;
use siri_outside::{InMemorySink, Source};
use siri_wire::Wanted;
use std::alloc::Global;

/// Reads lines to the source's end, each the text of one wanted subscription, empty, or a comment that begins with `#`,
/// and gives what they want in the name of this subscriber, in their order. Otherwise the status that a run ends with.
/// There may be at most so many lines, no more than 1,000,000.
///
/// `Script` at the first line that isn't such a text, for the first reason that fits: `NotText`, `BadDocument`,
/// `WrongMessage`. `Limit` exactly at the first that has more than 1,048,576 bytes without its end, or is one too many.
/// `ReadFault` only where the source failed, after lines that are all good. `OutOfMemory` wherever memory is asked for.
pub fn read_wanted<S: Source>(
    alloc: Global,
    most: u64,
    source: &mut S,
    subscriber: &Name,
) -> Result<List<Wanted>, Status>
    requires { most ≤ 1000000 }
    ensures wanted { IfOk result (λ list. Wants most subscriber.now (S.left source.old) list) }
    ensures at_most { IfOk result (λ list. length list ≤ most) }
    ensures all { IfOk result (λ list. ReadsAll (S.left source.new) Status.Done) }
    ensures stops { IfErr result (λ status. StopsAt most subscriber.now (S.left source.old) (S.left source.new) status) }
    ensures pieces { ReadsNoFurther (verdict most event) (nothing_wanted subscriber.now) (S.left source.old) (S.left source.new) }
    ensures read { IsErrOf result Status.ReadFault → Rose (S.faults source.old) (S.faults source.new) }
    ensures meets { SourceMeets (has_failed_to_read result) (S.left source.old) (S.left source.new) (S.fails source.old) (S.fails source.new) }
    ensures ends { IfErr result EndsReading }
{
    let mut taken = WantedLines::new(alloc, subscriber);
    let mut sink = InMemorySink::new(alloc);
    match read_lines(alloc, most, &mut taken, source, &mut sink) {
        Status::Done => Ok(taken.into_wanted()),
        status => {
            drop(taken);
            Err(status)
        }
    }
}
