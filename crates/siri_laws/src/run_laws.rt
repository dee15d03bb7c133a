//! What a run of a command has to do with the runs of two ends: each that began has a log. Each law is the contract of a
//! function that does nothing when it is called.

ghost use Rattle.std.specs.Prelude.{◌≡◌, ℕ, List, Some};
ghost use Rattle.siri_outside.specs.Wires.{WireState};
ghost use Rattle.siri_base.specs.declared.status.Status.{Status};
ghost use Rattle.siri_http.specs.Requests.{Meaning};
ghost use Rattle.siri_laws.specs.two_ends.Joined.{Ran};
ghost use Rattle.siri_laws.specs.two_ends.Runs.{ConsumedAs, ServedAs};
ghost use Rattle.siri_lines.specs.Ends.{Bytes};
ghost use Rattle.siri_runs.specs.Calls.{Outside};
ghost use Rattle.siri_runs.specs.Run.{Completes, FailsInTurns};
ghost use Rattle.siri_runs.specs.consumers.Consumption.{Target};
ghost use Rattle.siri_runs.specs.consumers.Runs.{consume_procedure};
ghost use Rattle.siri_runs.specs.producers.Runs.{serve_procedure};

/// A run of `serve` or `lite` over a wire that tells what it holds has a log, where it came to its end, and where a turn ended
/// it, of those that it made.
pub fn producers_have_logs()
    ensures whole { (asks : Meaning) (name listen : List ℕ) (from : Outside) (wire : WireState) → from.wire.tells ≡ Some wire
        → (count : ℕ) (text : List ℕ) (to : Outside) → Completes (serve_procedure asks name listen) count text from to
        → (ran : Ran) × ServedAs asks name listen from ran }
    ensures cut { (asks : Meaning) (name listen : List ℕ) (from : Outside) (wire : WireState) → from.wire.tells ≡ Some wire
        → (count : ℕ) (end : Status) (to : Outside) → FailsInTurns (serve_procedure asks name listen) count end from to
        → (ran : Ran) × ServedAs asks name listen from ran }
{}

/// The same of `consume`.
pub fn consumers_have_logs()
    ensures whole { (name listen : List ℕ) (target : Target) (input left : Bytes) (from : Outside) (wire : WireState)
        → from.wire.tells ≡ Some wire → (count : ℕ) (text : List ℕ) (to : Outside)
        → Completes (consume_procedure name listen target input left) count text from to
        → (ran : Ran) × ConsumedAs name listen target input from ran }
    ensures cut { (name listen : List ℕ) (target : Target) (input left : Bytes) (from : Outside) (wire : WireState)
        → from.wire.tells ≡ Some wire → (count : ℕ) (end : Status) (to : Outside)
        → FailsInTurns (consume_procedure name listen target input left) count end from to
        → (ran : Ran) × ConsumedAs name listen target input from ran }
{}
