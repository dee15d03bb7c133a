//! Small histories of a producer, run by the definitions of `siri_model`: feeds, requests, acknowledgements and clocks,
//! and what the table has of one subscription after them.
//!
//! ```text
//!     a history --table_of--> the life of a subscription --> its number, rounds opened, quiet, what the outstanding round
//!                                                            carries: of each part its removals, and departures
//! ```
//!
//! Visits at one stop are known by a letter and have a departure; moments are seconds after the start. Departures are
//! told in milliseconds.
//!
//! Each function has histories for its clauses, and does nothing when it is called.
#![tactic(auto, unfolding(siri_records::specs::Ends::call_moment, siri_records::specs::Near::is_near_call, siri_records::specs::Near::is_near_visit_journey, siri_records::specs::Near::is_near_visit, siri_topic::specs::Agreement::has_visit, crate::specs::History::after_step, crate::specs::Lives::acts_in, crate::specs::Lives::served_after))]

ghost use Rattle.std.specs.Prelude.{◌≡◌, [], ◌∷◌, ◌++◌, true, false};
ghost use Rattle.siri_model.specs.History.{Start, Clock, Settle};
ghost use Rattle.siri_model.specs.laws.Histories.{line, subscription, request, termination, acknowledgement, fed, subscribed, level};

/// A predicted time that drifts within the slack of a minute isn't sent, until it differs by the whole minute from what
/// was acknowledged.
pub fn small_changes_wait()
    ensures outstanding { line (subscribed 60 true) ≡ 1 ∷ 1 ∷ 0 ∷ 0 ∷ 600000 ∷ [] }
    ensures acknowledged { line (level 60 true) ≡ 1 ∷ 1 ∷ 1 ∷ [] }
    ensures small { line (level 60 true ++ fed 97 620 ++ fed 97 640) ≡ 1 ∷ 1 ∷ 1 ∷ [] }
    ensures whole { line (level 60 true ++ fed 97 620 ++ fed 97 640 ++ fed 97 660) ≡ 1 ∷ 2 ∷ 0 ∷ 0 ∷ 660000 ∷ [] }
    ensures at_once { line (level 60 true ++ fed 97 660) ≡ 1 ∷ 2 ∷ 0 ∷ 0 ∷ 660000 ∷ [] }
{}

/// What changes while a round is outstanding is sent in the next one, right after the acknowledgement.
pub fn changes_wait_for_the_round()
    ensures waits { line (subscribed 60 true ++ fed 97 1200) ≡ 1 ∷ 1 ∷ 0 ∷ 0 ∷ 600000 ∷ [] }
    ensures follows { line (subscribed 60 true ++ fed 97 1200 ++ acknowledgement 1 1 1 ∷ Settle ∷ []) ≡ 1 ∷ 2 ∷ 0 ∷ 0 ∷ 1200000 ∷ [] }
{}

/// A visit that has departed before its round was acknowledged is removed by the next one.
pub fn departures_are_sent()
    ensures departed { line (subscribed 60 true ++ Clock 600001 ∷ Settle ∷ acknowledgement 1 1 1 ∷ Settle ∷ []) ≡ 1 ∷ 2 ∷ 0 ∷ 1 ∷ [] }
    ensures another { line (level 60 true ++ fed 98 700) ≡ 1 ∷ 2 ∷ 0 ∷ 0 ∷ 700000 ∷ [] }
{}

/// Without incremental updates a round carries all that is shown, and is due where something isn't near.
pub fn complete_sets()
    ensures near { line (level 60 false ++ fed 97 620) ≡ 1 ∷ 1 ∷ 1 ∷ [] }
    ensures whole { line (level 60 false ++ fed 97 620 ++ fed 98 700) ≡ 1 ∷ 2 ∷ 0 ∷ 0 ∷ 620000 ∷ 700000 ∷ [] }
{}

/// The first round is due whatever is shown; an acknowledgement of another round, start or number changes nothing, and
/// nothing is quiet but right after a settle.
pub fn acknowledgements_are_of_their_part()
    ensures empty { line (Start 1 0 ∷ request 1 (subscription 86400 0 true) ∷ Settle ∷ []) ≡ 1 ∷ 1 ∷ 0 ∷ 0 ∷ [] }
    ensures other_number { line (subscribed 60 true ++ acknowledgement 2 1 1 ∷ Settle ∷ []) ≡ 1 ∷ 1 ∷ 0 ∷ 0 ∷ 600000 ∷ [] }
    ensures other_start { line (subscribed 60 true ++ acknowledgement 1 2 1 ∷ Settle ∷ []) ≡ 1 ∷ 1 ∷ 0 ∷ 0 ∷ 600000 ∷ [] }
    ensures other_round { line (subscribed 60 true ++ acknowledgement 1 1 2 ∷ Settle ∷ []) ≡ 1 ∷ 1 ∷ 0 ∷ 0 ∷ 600000 ∷ [] }
    ensures not_settled { line (subscribed 60 true ++ acknowledgement 1 1 1 ∷ []) ≡ 1 ∷ 1 ∷ 0 ∷ [] }
{}

/// A subscription is accepted before its termination time, under a greater number than it is held under, and leaves at
/// that time, or by a termination under a greater number.
pub fn numbers_and_terminations()
    ensures past { line (Start 1 60000 ∷ request 1 (subscription 60 0 true) ∷ Settle ∷ []) ≡ [] }
    ensures held { line (Start 1 0 ∷ request 1 (subscription 60 0 true) ∷ Settle ∷ Clock 59999 ∷ Settle ∷ []) ≡ 1 ∷ 1 ∷ 0 ∷ 0 ∷ [] }
    ensures expired { line (Start 1 0 ∷ request 1 (subscription 60 0 true) ∷ Settle ∷ Clock 60000 ∷ Settle ∷ []) ≡ [] }
    ensures again { line (level 60 true ++ request 1 (subscription 86400 60 true) ∷ Settle ∷ []) ≡ 1 ∷ 1 ∷ 1 ∷ [] }
    ensures renewed { line (level 60 true ++ request 2 (subscription 86400 60 true) ∷ Settle ∷ []) ≡ 2 ∷ 1 ∷ 0 ∷ 0 ∷ 600000 ∷ [] }
    ensures superseded { line (level 60 true ++ request 2 (subscription 86400 60 true) ∷ Settle ∷ request 1 (subscription 86400 0 true) ∷ Settle ∷ []) ≡ 2 ∷ 1 ∷ 0 ∷ 0 ∷ 600000 ∷ [] }
    ensures not_ended { line (level 60 true ++ termination 1 ∷ Settle ∷ []) ≡ 1 ∷ 1 ∷ 1 ∷ [] }
    ensures ended { line (level 60 true ++ termination 2 ∷ Settle ∷ []) ≡ [] }
    ensures started { line (level 60 true ++ Start 2 0 ∷ []) ≡ [] }
{}
