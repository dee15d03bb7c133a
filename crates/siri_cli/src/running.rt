//! The top call.

ghost use Rattle.std.specs.Prelude.{◌≡◌, ◌↔◌, ℕ, List, [], map, string_bytes, Some, None};
ghost use Rattle.siri_outside.specs.Causes.{Rose};
ghost use Rattle.siri_outside.specs.MetFailures.{SinkMeets, SourceMeets, is_read_fault, is_write_fault};
ghost use Rattle.siri_http.specs.Requests.{post_alone};
ghost use Rattle.siri_http.specs.declared.address.Address.{Address as Target};
ghost use Rattle.siri_ends.specs.lite.Asking.{post_or_query};
ghost use Rattle.siri_lines.specs.Ends.{ReadsAll};
ghost use Rattle.siri_lines.specs.Pieces.{ReadsNoFurther};
ghost use Rattle.siri_lines.specs.RunResult.{verdict};
ghost use Rattle.siri_document.specs.OneDocument.{Answers, EndsDocument, check_text, convert_text};
ghost use Rattle.siri_lines.specs.Reports.{Reports};
ghost use Rattle.siri_lines.specs.Stops.{EndsReading};
ghost use Rattle.siri_cli.specs.Run.{EndsEarly, IsGet, IsLoad, IsOnNetwork, ReadsInput, ReadsNothing, TakesDocument, TellsDocument, UsesNoWire, UsesNone};
ghost use Rattle.siri_get.specs.Runs.{EndsGet, GetRun};
ghost use Rattle.siri_load.specs.Load.{load_text};
ghost use Rattle.siri_load.specs.Runs.{EndsLoad, Writes};
ghost use Rattle.siri_runs.specs.Calls.{outside};
ghost use Rattle.siri_runs.specs.Enough.{EndsWhole, HasEnough};
ghost use Rattle.siri_replay.specs.Report.{report};
ghost use Rattle.siri_replay.specs.Views.{ReportsViews, brings};
ghost use Rattle.siri_runs.specs.producers.Runs.{ServeRun};
ghost use Rattle.siri_runs.specs.consumers.Reading.{TellsWanted};
ghost use Rattle.siri_runs.specs.consumers.Wanting.{event as wanted, nothing_wanted, most_wanted};
ghost use Rattle.siri_runs.specs.consumers.Runs.{ConsumeRun};
ghost use Rattle.siri_relay_run.specs.Runs.{RelayRun, TellsOne};
ghost use Rattle.siri_cli.specs.Commands.{command_of};

use crate::command::Command;
use siri_base::{OutOfMemory, Status};
use siri_document::{Check, Convert, answer_document};
use siri_ends::PostOrQuery;
use siri_get::get;
use siri_http::PostAlone;
use siri_load::load;
use siri_outside::{Clock, Keeper, Sink, Source, Wire};
use siri_relay_run::relay;
use siri_replay::replay;
use siri_runs::{consume, serve};
use std::alloc::Global;

/// Does what the words after the program's name say: `replay` reads a script and writes its report, `check` and
/// `convert` read one document and write what is told of it, `load` plays a large script that is made from a number,
/// `get` asks a document of a producer as a query by GET and writes what is answered, `serve` is a producer over the
/// network, `lite` is one that answers queries by GET, too, `consume` a consumer, and `relay` a consumer whose view a producer
/// serves on. A view that a report tells as
/// `quiet` lists the items of a direct response at that moment over all observations that were taken since the
/// producer's latest start, whatever packets were lost, repeated or late, and however often either end restarted.
///
/// `Usage` exactly where the words are no plain spelling of a command. `Refused` where the document of `check` or
/// `convert` is refused, and where `get` has no body to write of a response. `Script` and `Limit` where a line of a
/// script, or of what a consumer or a relay wants, is refused or passes a limit, each with the number of that line. `ReadFault`,
/// `WriteFault`, `WireFault`, `ClockFault` and `KeeperFault` only where the source, the sink, the wire, the clock or
/// the keeper failed, the wire to listen or to accept, and in `get` to dial, to write or to read; `OutOfMemory`
/// wherever memory is asked for, otherwise `Done`. Only `serve`, `lite`, `consume` and `relay` use the clock and
/// the keeper, and only they and `get` the wire.
#[tactic(auto, using(siri_lines::proofs::Meeting::sink_none, siri_lines::proofs::Meeting::source_none, siri_lines::proofs::Whole::ends_at_once))]
pub fn run<S: Source, K: Sink, W: Wire, C: Clock, E: Keeper>(
    alloc: Global,
    words: &[String],
    source: &mut S,
    sink: &mut K,
    wire: &mut W,
    clock: &mut C,
    keeper: &mut E,
) -> Status
    // What each command writes, and which status ends it.
    ensures replay { command_of (map string_bytes words.now) ≡ Some Command.Replay
        → Reports report (S.left source.old) (S.left source.new) (K.held sink.old) (K.held sink.new) result }
    ensures views { command_of (map string_bytes words.now) ≡ Some Command.Replay
        → ReportsViews (S.left source.old) (S.left source.new) (K.held sink.old) (K.held sink.new) result }
    ensures check { command_of (map string_bytes words.now) ≡ Some Command.Check
        → Answers check_text (S.left source.old) (S.left source.new) (K.held sink.old) (K.held sink.new) result }
    ensures convert { command_of (map string_bytes words.now) ≡ Some Command.Convert
        → Answers convert_text (S.left source.old) (S.left source.new) (K.held sink.old) (K.held sink.new) result }
    ensures load { (seed count : ℕ) → command_of (map string_bytes words.now) ≡ Some (Command.Load seed count)
        → Writes (load_text seed count) (K.held sink.old) (K.held sink.new) result }
    ensures get { (producer : Target) → command_of (map string_bytes words.now) ≡ Some (Command.Get producer)
        → GetRun producer.host (S.left source.old) (S.left source.new) (W.tells wire.old) (W.tells wire.new)
        (K.held sink.old) (K.held sink.new) result }
    ensures serve { (name listen : List ℕ) (count : ℕ) → command_of (map string_bytes words.now) ≡ Some (Command.Serve name listen count)
        → ServeRun post_alone name listen count
        (outside W.Wire C.Clock E.Keeper wire.old clock.old keeper.old)
        (outside W.Wire C.Clock E.Keeper wire.new clock.new keeper.new)
        (K.held sink.old) (K.held sink.new) result }
    ensures lite { (name listen : List ℕ) (count : ℕ) → command_of (map string_bytes words.now) ≡ Some (Command.Lite name listen count)
        → ServeRun post_or_query name listen count
        (outside W.Wire C.Clock E.Keeper wire.old clock.old keeper.old)
        (outside W.Wire C.Clock E.Keeper wire.new clock.new keeper.new)
        (K.held sink.old) (K.held sink.new) result }
    ensures consume { (name listen : List ℕ) (producer : Target) (count : ℕ) → command_of (map string_bytes words.now) ≡ Some (Command.Consume name listen producer count)
        → ConsumeRun name listen (producer.host, producer.path) count (S.left source.old) (S.left source.new)
        (outside W.Wire C.Clock E.Keeper wire.old clock.old keeper.old)
        (outside W.Wire C.Clock E.Keeper wire.new clock.new keeper.new)
        (K.held sink.old) (K.held sink.new) result }
    ensures relay { (name listen : List ℕ) (upstream : Target) (count : ℕ) → command_of (map string_bytes words.now) ≡ Some (Command.Relay name listen upstream count)
        → RelayRun name listen (upstream.host, upstream.path) count (S.left source.old) (S.left source.new)
        (outside W.Wire C.Clock E.Keeper wire.old clock.old keeper.old)
        (outside W.Wire C.Clock E.Keeper wire.new clock.new keeper.new)
        (K.held sink.old) (K.held sink.new) result }

    // A run over the network does its work whole where there is enough for so many connections and no failure is named
    // for the sink, nor for the source, whatever happens within a connection.
    ensures serve_whole { (name listen : List ℕ) (count : ℕ) → command_of (map string_bytes words.now) ≡ Some (Command.Serve name listen count)
        → HasEnough count (outside W.Wire C.Clock E.Keeper wire.old clock.old keeper.old)
        → K.fails sink.old ≡ Some [] → EndsWhole result }
    ensures lite_whole { (name listen : List ℕ) (count : ℕ) → command_of (map string_bytes words.now) ≡ Some (Command.Lite name listen count)
        → HasEnough count (outside W.Wire C.Clock E.Keeper wire.old clock.old keeper.old)
        → K.fails sink.old ≡ Some [] → EndsWhole result }
    ensures consume_whole { (name listen : List ℕ) (producer : Target) (count : ℕ) → command_of (map string_bytes words.now) ≡ Some (Command.Consume name listen producer count)
        → HasEnough count (outside W.Wire C.Clock E.Keeper wire.old clock.old keeper.old)
        → TellsWanted name (S.left source.old)
        → S.fails source.old ≡ Some [] → K.fails sink.old ≡ Some [] → EndsWhole result }
    ensures relay_whole { (name listen : List ℕ) (upstream : Target) (count : ℕ) → command_of (map string_bytes words.now) ≡ Some (Command.Relay name listen upstream count)
        → HasEnough count (outside W.Wire C.Clock E.Keeper wire.old clock.old keeper.old)
        → TellsOne name (S.left source.old)
        → S.fails source.old ≡ Some [] → K.fails sink.old ≡ Some [] → EndsWhole result }

    // A failure that is named of the source or of the sink, and met, ends the run there: nothing is read or written
    // after it. Nor is anything read of a script, or of what a consumer wants, beyond the piece in which the end of a
    // line lay that ended it.
    ensures source_meets { SourceMeets (is_read_fault result) (S.left source.old) (S.left source.new) (S.fails source.old) (S.fails source.new) }
    ensures sink_meets { SinkMeets (is_write_fault result) (K.held sink.old) (K.held sink.new) (K.fails sink.old) (K.fails sink.new) }
    ensures pieces { command_of (map string_bytes words.now) ≡ Some Command.Replay → ReadsNoFurther brings [] (S.left source.old) (S.left source.new) }
    ensures wanted_pieces { (name listen : List ℕ) (producer : Target) (count : ℕ) → command_of (map string_bytes words.now) ≡ Some (Command.Consume name listen producer count)
        → ReadsNoFurther (verdict most_wanted wanted) (nothing_wanted name) (S.left source.old) (S.left source.new) }
    ensures upstream_pieces { (name listen : List ℕ) (upstream : Target) (count : ℕ) → command_of (map string_bytes words.now) ≡ Some (Command.Relay name listen upstream count)
        → ReadsNoFurther (verdict 1 wanted) (nothing_wanted name) (S.left source.old) (S.left source.new) }

    // What was read, and where nothing was done.
    ensures all { ReadsInput (command_of (map string_bytes words.now)) → ReadsAll (S.left source.new) result }
    ensures input { ReadsNothing (command_of (map string_bytes words.now)) → source.new ≡ source.old }
    ensures usage { (result ≡ Status.Usage) ↔ (command_of (map string_bytes words.now) ≡ None) }
    ensures nothing { result ≡ Status.Usage → (source.new ≡ source.old) × (sink.new ≡ sink.old) }

    // What each status comes of.
    ensures read { result ≡ Status.ReadFault → Rose (S.faults source.old) (S.faults source.new) }
    ensures write { result ≡ Status.WriteFault → Rose (K.faults sink.old) (K.faults sink.new) }
    ensures wire_fault { result ≡ Status.WireFault → Rose (W.faults wire.old) (W.faults wire.new) }
    ensures clock_fault { result ≡ Status.ClockFault → Rose (C.faults clock.old) (C.faults clock.new) }
    ensures keeper_fault { result ≡ Status.KeeperFault → Rose (E.faults keeper.old) (E.faults keeper.new) }
    ensures refused { result ≡ Status.Refused → TakesDocument (command_of (map string_bytes words.now)) }
    ensures document { TellsDocument (command_of (map string_bytes words.now)) → EndsDocument result }
    ensures asked { IsGet (command_of (map string_bytes words.now)) → EndsGet result }
    ensures unread { TakesDocument (command_of (map string_bytes words.now)) → result ≡ Status.ReadFault → sink.new ≡ sink.old }
    ensures script { command_of (map string_bytes words.now) ≡ Some Command.Replay → EndsReading result }
    ensures made { IsLoad (command_of (map string_bytes words.now)) → EndsLoad result }
    ensures unwritten { IsOnNetwork (command_of (map string_bytes words.now)) → EndsEarly result → sink.new ≡ sink.old }

    // The rest of the outside.
    ensures unused { UsesNone (command_of (map string_bytes words.now)) → (clock.new ≡ clock.old) × (keeper.new ≡ keeper.old) }
    ensures uncalled { UsesNoWire (command_of (map string_bytes words.now)) → wire.new ≡ wire.old }
    ensures unasked { IsGet (command_of (map string_bytes words.now)) → result ≡ Status.ReadFault → wire.new ≡ wire.old }
{
    let command = match Command::read(alloc, words) {
        Ok(Some(command)) => command,
        Ok(None) => return Status::Usage,
        Err(OutOfMemory) => return Status::OutOfMemory,
    };
    match command {
        Command::Replay => replay(alloc, source, sink),
        Command::Check => answer_document::<Check, S, K>(alloc, source, sink),
        Command::Convert => answer_document::<Convert, S, K>(alloc, source, sink),
        Command::Load { seed, count } => load(alloc, sink, seed, count),
        Command::Get { producer } => get(alloc, &producer, source, sink, wire),
        Command::Serve {
            name,
            listen,
            count,
        } => serve::<PostAlone, K, W, C, E>(alloc, name, &listen, count, sink, wire, clock, keeper),
        Command::Lite {
            name,
            listen,
            count,
        } => serve::<PostOrQuery, K, W, C, E>(
            alloc, name, &listen, count, sink, wire, clock, keeper,
        ),
        Command::Consume {
            name,
            listen,
            producer,
            count,
        } => consume(
            alloc, name, &listen, &producer, count, source, sink, wire, clock, keeper,
        ),
        Command::Relay {
            name,
            listen,
            upstream,
            count,
        } => relay(
            alloc, name, &listen, &upstream, count, source, sink, wire, clock, keeper,
        ),
    }
}
