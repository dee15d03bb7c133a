//! What takes the lines of a script.

ghost use Rattle.std.specs.Prelude.{◌≡◌, [], ◌||◌, IfOk, Err};
ghost use Rattle.siri_lines.specs.Brings.{Brings, StopCause, has_failed_to_write};
ghost use Rattle.siri_outside.specs.MetFailures.{SinkMeets};
ghost use Rattle.siri_world_model.specs.Told.{is_start, told, world_after};
ghost use Rattle.siri_replay.specs.Report.{World as Happened, by_told, event};
ghost use Rattle.siri_replay.specs.inner.Standing.{Fits};

use crate::report_line::write_lines;
use crate::saying::line_said;
use siri_base::OutOfMemory;
use siri_lines::{LineTaker, Stop};
use siri_outside::Sink;
use siri_world::{Event, StepError, World};
use std::alloc::Global;

/// A script, as far as its lines were taken.
pub(crate) struct Script {
    alloc: Global,
    world: World,
    /// Whether a producer has started.
    started: bool,
}

impl Drop for Script {
    fn drop(self) {
        let Script {
            alloc: _,
            world: _,
            started: _,
        } = self;
    }
}

impl Script {
    /// A script of which no line was taken.
    pub(crate) fn new(alloc: Global) -> Result<Script, OutOfMemory>
        ensures { IfOk result (λ script. Fits script []) }
    {
        Ok(Script {
            alloc,
            world: World::new(alloc)?,
            started: false,
        })
    }

    /// The event of the line of this number happens, and its lines are written.
    #[tactic(auto, using(siri_lines::proofs::Meeting::sink_none, siri_lines::proofs::Meeting::stop_failed))]
    fn happen<K: Sink>(&mut self, number: u64, event: Event, sink: &mut K) -> Result<(), Stop>
        ensures brings { (events : Happened) → Fits self.old events →
            Brings Fits self.new (K.held sink.old) (K.held sink.new) result (by_told number events event (told (world_after events) event)) }
        ensures cause { StopCause (K.faults sink.old) (K.faults sink.new) result }
        ensures meets { SinkMeets (has_failed_to_write result) (K.held sink.old) (K.held sink.new) (K.fails sink.old) (K.fails sink.new) }
    {
        let starts = is_start(&event);
        match self.world.step(event) {
            Ok(lines) => {
                self.started = self.started || starts;
                write_lines(self.alloc, lines.slice(), sink)?;
                Ok(())
            }
            Err(StepError::OutOfMemory) => Err(Stop::OutOfMemory),
            Err(_) => Err(Stop::Limit { line: number }),
        }
    }
}

impl LineTaker for Script {
    ghost World = { Happened };

    ghost event = { event };

    ghost fits = { Fits };

    #[tactic(auto, using(siri_lines::proofs::Meeting::sink_none))]
    fn take_line<K: Sink>(&mut self, number: u64, line: &[u8], sink: &mut K) -> Result<(), Stop> {
        match line_said(self.alloc, self.started, line) {
            Ok(Some(event)) => self.happen(number, event, sink),
            Ok(None) => Ok(()),
            Err(error) => Err(error.stop(number)),
        }
    }
}

/// Whether a producer starts.
fn is_start(event: &Event) -> bool
    ensures { result ≡ is_start event.now }
{
    matches!(event, Event::Start(_))
}
