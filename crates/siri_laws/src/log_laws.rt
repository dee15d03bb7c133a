//! What holds of the logs of a running producer and of a running consumer. Each law is the contract of a function that does
//! nothing when it is called.
//!
//! ```text
//!     a run of `serve`, `lite` or `consume` --> its log: began, asked, given a moment, accepted or dialled a connection, took a
//!                                               message that it brought, settled, said a message to it
//!     the log --steps_of--> the producer's history            the log --after_done--> the consumer
//!     a message that was taken <-- its connection's bytes     a message that was said --> what was written to its connection
//! ```
//!
//! A log is told of the turns that a run made, whatever became of it after them.

ghost use Rattle.std.specs.Prelude.{◌≡◌, ℕ, List, Some};
ghost use Rattle.siri_outside.specs.Wires.{WireState};
ghost use Rattle.siri_http.specs.Requests.{Meaning, post_alone};
ghost use Rattle.siri_laws.specs.two_ends.Ends.{consumer_of, history_of, of_consume, of_serve};
ghost use Rattle.siri_laws.specs.two_ends.Truth.{IsTrue};
ghost use Rattle.siri_lines.specs.Ends.{Bytes};
ghost use Rattle.siri_runs.specs.Calls.{Outside};
ghost use Rattle.siri_runs.specs.Run.{MakesTurns};
ghost use Rattle.siri_runs.specs.Turns.{Running};
ghost use Rattle.siri_runs.specs.consumers.Consumption.{Consumption, Target};
ghost use Rattle.siri_runs.specs.consumers.Consumption as consumption;
ghost use Rattle.siri_runs.specs.consumers.Runs.{BeginsConsuming};
ghost use Rattle.siri_runs.specs.producers.Opening.{BeginsServing};
ghost use Rattle.siri_runs.specs.producers.Serving.{Serving};
ghost use Rattle.siri_runs.specs.producers.Serving as serving_run;
ghost use Rattle.siri_view.specs.Consuming.{Consuming};

/// After the turns that a run of `serve` or `lite` made, over a wire that tells what it holds, the producer's history is what
/// its log tells; each message that it took is what its connection brought; what was written to the connection of each
/// message that it said is that message, or a front of it; and what was written to any other is no message.
pub fn a_producer_is_as_its_log_tells()
    ensures history { (asks : Meaning) (name listen : List ℕ) (count : ℕ) (from : Outside) (first to : Running Serving) (wire : WireState)
        → from.wire.tells ≡ Some wire → (begins : BeginsServing listen from first)
        → (turns : MakesTurns (serving_run.turning asks name) count first to)
        → to.state.history ≡ history_of (of_serve asks name listen count from first to begins turns) }
    ensures log { (asks : Meaning) (name listen : List ℕ) (count : ℕ) (from : Outside) (first to : Running Serving) (wire : WireState)
        → from.wire.tells ≡ Some wire → (begins : BeginsServing listen from first)
        → (turns : MakesTurns (serving_run.turning asks name) count first to)
        → IsTrue asks (of_serve asks name listen count from first to begins turns) wire to.outside.wire.tells }
{}

/// The same of `consume`, whose consumer is what its log tells, whatever stood before it: it begins anew.
pub fn a_consumer_is_as_its_log_tells()
    ensures consumer { (name listen : List ℕ) (target : Target) (input : Bytes) (count : ℕ) (from : Outside) (first to : Running Consumption)
        (wire : WireState) → from.wire.tells ≡ Some wire → (begins : BeginsConsuming name listen target input from first)
        → (turns : MakesTurns (consumption.turning target) count first to) → (before : Consuming)
        → to.state.consumer ≡ consumer_of name listen before (of_consume name listen target input count from first to begins turns) }
    ensures log { (name listen : List ℕ) (target : Target) (input : Bytes) (count : ℕ) (from : Outside) (first to : Running Consumption)
        (wire : WireState) → from.wire.tells ≡ Some wire → (begins : BeginsConsuming name listen target input from first)
        → (turns : MakesTurns (consumption.turning target) count first to)
        → IsTrue post_alone (of_consume name listen target input count from first to begins turns) wire to.outside.wire.tells }
{}
