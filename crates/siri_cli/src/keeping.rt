//! The top call with a shelf.

ghost use Rattle.std.specs.Prelude.{◌≡◌, [], map, string_bytes, Some, None};
ghost use Rattle.siri_outside.specs.Causes.{Rose};
ghost use Rattle.siri_outside.specs.MetFailures.{SinkMeets, is_write_fault};
ghost use Rattle.siri_outside.specs.Shelves.{OnShelf};
ghost use Rattle.siri_runs.specs.Calls.{outside};
ghost use Rattle.siri_runs.specs.Enough.{HasEnough};
ghost use Rattle.siri_keep_run.specs.Left.{KeepAnswered, KeepTrail};
ghost use Rattle.siri_keep_run.specs.Opening.{CountsEnd};
ghost use Rattle.siri_keep_run.specs.Runs.{EndsKeeping, EndsWholeOrByShelf, KeepRun};
ghost use Rattle.siri_cli.specs.declared.keep.Keep.{Keep as Order};
ghost use Rattle.siri_cli.specs.Commands.{command_of};
ghost use Rattle.siri_cli.specs.Keeping.{IsKeep, keep_of};
ghost use Rattle.siri_cli.specs.RunDoes.{RunDoes};

use crate::keep::{Keep, read_keep};
use crate::running::run;
use siri_base::{OutOfMemory, Status};
use siri_keep_run::keep;
use siri_outside::{Clock, Keeper, Shelf, Sink, Source, Wire};
use std::alloc::Global;

/// Does what the words after the program's name say: `keep NAME LISTEN FILE COUNT` serves so many connections as a
/// producer whose observations and subscriptions are in the file FILE, and opens no other. Any other words do what
/// [`run`] does of them, and the shelf isn't used; no other words than these two kinds are a plain spelling of a command.
///
/// Beside the statuses of `run`: `ShelfFault` exactly where the shelf failed, which isn't called again then, and `BadShelf`
/// where the rows of the file aren't those of a producer of this name and an earlier start. Only `keep` uses the shelf; it
/// reads nothing of the source.
pub fn run_all<S: Source, K: Sink, W: Wire, C: Clock, E: Keeper, B: Shelf>(
    alloc: Global,
    words: &[String],
    source: &mut S,
    sink: &mut K,
    wire: &mut W,
    clock: &mut C,
    keeper: &mut E,
    shelf: &mut B,
) -> Status
    // What `keep` does.
    ensures keep { (k : Order) → keep_of (map string_bytes words.now) ≡ Some k
        → KeepRun k.name k.listen k.file k.count (B.tells shelf.old) (B.tells shelf.new)
        (outside W.Wire C.Clock E.Keeper wire.old clock.old keeper.old)
        (outside W.Wire C.Clock E.Keeper wire.new clock.new keeper.new)
        (K.held sink.old) (K.held sink.new) result }
    // What it leaves on the shelf, at every moment and at whatever status.
    ensures keep_trail { (k : Order) → keep_of (map string_bytes words.now) ≡ Some k
        → OnShelf B.tells shelf.old shelf.new (KeepTrail k.name k.listen k.file k.count
        (outside W.Wire C.Clock E.Keeper wire.old clock.old keeper.old)) }
    ensures keep_answered { (k : Order) → keep_of (map string_bytes words.now) ≡ Some k
        → OnShelf B.tells shelf.old shelf.new (KeepAnswered k.name k.listen k.file k.count result
        (outside W.Wire C.Clock E.Keeper wire.old clock.old keeper.old)
        (outside W.Wire C.Clock E.Keeper wire.new clock.new keeper.new)) }
    ensures keep_whole { (k : Order) → keep_of (map string_bytes words.now) ≡ Some k
        → HasEnough k.count (outside W.Wire C.Clock E.Keeper wire.old clock.old keeper.old)
        → K.fails sink.old ≡ Some [] → EndsWholeOrByShelf result }
    ensures keep_unwritten { IsKeep (keep_of (map string_bytes words.now)) → EndsKeeping result → sink.new ≡ sink.old }
    ensures unread { IsKeep (keep_of (map string_bytes words.now)) → source.new ≡ source.old }
    // What any other words do.
    ensures other { keep_of (map string_bytes words.now) ≡ None
        → RunDoes S.Source K.Sink W.Wire C.Clock E.Keeper (command_of (map string_bytes words.now)) source.old source.new
        sink.old sink.new wire.old wire.new clock.old clock.new keeper.old keeper.new result }
    ensures unused { keep_of (map string_bytes words.now) ≡ None → shelf.new ≡ shelf.old }
    // What each status comes of.
    ensures sink_meets { SinkMeets (is_write_fault result) (K.held sink.old) (K.held sink.new) (K.fails sink.old) (K.fails sink.new) }
    ensures write { result ≡ Status.WriteFault → Rose (K.faults sink.old) (K.faults sink.new) }
    ensures wire_fault { result ≡ Status.WireFault → Rose (W.faults wire.old) (W.faults wire.new) }
    ensures clock_fault { result ≡ Status.ClockFault → Rose (C.faults clock.old) (C.faults clock.new) }
    ensures keeper_fault { result ≡ Status.KeeperFault → Rose (E.faults keeper.old) (E.faults keeper.new) }
    ensures shelf_fault { result ≡ Status.ShelfFault → Rose (B.faults shelf.old) (B.faults shelf.new) }
    ensures shelf_counted { CountsEnd (B.faults shelf.old) (B.faults shelf.new) result }
{
    match read_keep(alloc, words) {
        Ok(Some(asked)) => {
            let Keep {
                name,
                listen,
                file,
                count,
            } = asked;
            keep(
                alloc, name, &listen, &file, count, sink, wire, clock, keeper, shelf,
            )
        }
        Ok(None) => run(alloc, words, source, sink, wire, clock, keeper),
        Err(OutOfMemory) => Status::OutOfMemory,
    }
}
