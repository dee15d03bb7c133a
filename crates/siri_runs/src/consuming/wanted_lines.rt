//! What takes the lines that want subscriptions.

ghost use Rattle.std.specs.Prelude.{◌≡◌, []};
ghost use Rattle.siri_document.specs.script.Reads.{Reads};
ghost use Rattle.siri_runs.specs.consumers.Wanting.{Asking, event, line_said};
ghost use Rattle.siri_runs.specs.consumers.inner.Standing.{Fits};

use siri_base::{List, Name, ScriptReason};
use siri_document::{LineError, is_skipped, is_text, wanted_said};
use siri_lines::{LineTaker, Stop};
use siri_outside::Sink;
use siri_wire::Wanted;
use std::alloc::Global;

/// The subscriptions that the lines taken so far want in the name of a subscriber.
#[derive(Drop)]
pub(crate) struct WantedLines<'a> {
    alloc: Global,
    subscriber: &'a Name,
    wanted: List<Wanted>,
}

impl<'a> WantedLines<'a> {
    /// No line was taken. It takes no memory.
    pub(crate) fn new(alloc: Global, subscriber: &'a Name) -> Self
        ensures { Fits result (record { subscriber = subscriber.entry.now; wanted = [] }) }
    {
        WantedLines {
            alloc,
            subscriber,
            wanted: List::new(alloc),
        }
    }

    /// What the lines want, in their order.
    pub(crate) fn into_wanted(self) -> List<Wanted>
        ensures { (asking : Asking) → Fits self.entry asking → result ≡ asking.wanted }
    {
        self.wanted
    }
}

impl LineTaker for WantedLines<'_> {
    ghost World = { Asking };

    ghost event = { event };

    ghost fits = { Fits };

    #[tactic(auto, using(siri_lines::proofs::Meeting::sink_none))]
    fn take_line<K: Sink>(&mut self, number: u64, line: &[u8], _: &mut K) -> Result<(), Stop> {
        match line_said(self.alloc, self.subscriber, line) {
            Ok(Some(wanted)) => Ok(self.wanted.push(wanted)?),
            Ok(None) => Ok(()),
            Err(error) => Err(error.stop(number)),
        }
    }
}

/// The subscription that a line wants, and nothing where it is skipped.
fn line_said(alloc: Global, subscriber: &Name, line: &[u8]) -> Result<Option<Wanted>, LineError>
    ensures { Reads result (line_said subscriber.now line.now) }
{
    if is_skipped(line) {
        return Ok(None);
    }
    if !is_text(line) {
        return Err(LineError::Refused(ScriptReason::NotText));
    }
    Ok(Some(wanted_said(alloc, subscriber, line)?))
}
