//! Small schedules of subscriptions, run by the definitions: feeds, requests, deliveries of letters, clocks and starts,
//! and what a consumer holds after them.
//!
//! ```text
//!     a schedule --network_after--> a network --> number, start and round held, parts buffered, view, quiet, letters sent
//! ```
//!
//! The laws hold of a producer that never sends, too; it would not pass these. A view is a number here, of how many
//! entries were fed, and each round carries it in two parts. Letters count from 0: the request, its response, the first
//! part, and so on.
//!
//! Each function has schedules for its clauses, and does nothing when it is called.

ghost use Rattle.std.specs.Prelude.{◌≡◌, [], ◌∷◌, ◌++◌};
ghost use Rattle.siri_life.specs.Network.{Starts, Clocks, Feeds, Asks, Stops, Restarts, Requests, Delivers};
ghost use Rattle.siri_life.specs.laws.Schedules.{line, first_round, fetched_round, c1, s1};

/// Direct delivery: after the first round the consumer holds number 1, start 1, round 1, no part, one item, and the
/// producer is quiet, after six letters. A feed opens a round; the same part again is acknowledged again; a part that
/// isn't acknowledged is sent again at 30 seconds, and not a millisecond before.
pub fn direct_rounds()
    ensures quiet { line (first_round 0) ≡ 1 ∷ 1 ∷ 1 ∷ 0 ∷ 1 ∷ 1 ∷ 6 ∷ [] }
    ensures moving { line (first_round 0 ++ Feeds (8 ∷ []) ∷ []) ≡ 1 ∷ 1 ∷ 1 ∷ 0 ∷ 1 ∷ 0 ∷ 7 ∷ [] }
    ensures again { line (first_round 0 ++ Delivers 2 ∷ []) ≡ 1 ∷ 1 ∷ 1 ∷ 0 ∷ 1 ∷ 1 ∷ 7 ∷ [] }
    ensures sent_again { line (first_round 0 ++ Feeds (8 ∷ []) ∷ Clocks 30000 ∷ []) ≡ 1 ∷ 1 ∷ 1 ∷ 0 ∷ 1 ∷ 0 ∷ 8 ∷ [] }
    ensures not_sent_again { line (first_round 0 ++ Feeds (8 ∷ []) ∷ Clocks 29999 ∷ []) ≡ 1 ∷ 1 ∷ 1 ∷ 0 ∷ 1 ∷ 0 ∷ 7 ∷ [] }
{}

/// Fetched delivery in two parts: notification, ready acknowledgement, supply request, part, acknowledgement, supply
/// request, part, acknowledgement. A supply request that comes later finds nothing ready, and is told so.
pub fn fetched_rounds()
    ensures quiet { line fetched_round ≡ 1 ∷ 1 ∷ 1 ∷ 0 ∷ 1 ∷ 1 ∷ 10 ∷ [] }
    ensures late { line (fetched_round ++ Delivers 4 ∷ []) ≡ 1 ∷ 1 ∷ 1 ∷ 0 ∷ 1 ∷ 1 ∷ 11 ∷ [] }
{}

/// A heartbeat a minute, and a CheckStatusRequest with its answer.
pub fn heartbeats()
    ensures before { line (first_round 2 ++ Clocks 59999 ∷ []) ≡ 1 ∷ 1 ∷ 1 ∷ 0 ∷ 1 ∷ 1 ∷ 6 ∷ [] }
    ensures due { line (first_round 2 ++ Clocks 60000 ∷ []) ≡ 1 ∷ 1 ∷ 1 ∷ 0 ∷ 1 ∷ 1 ∷ 7 ∷ [] }
    ensures next { line (first_round 2 ++ Clocks 60000 ∷ Clocks 119999 ∷ Clocks 120000 ∷ []) ≡ 1 ∷ 1 ∷ 1 ∷ 0 ∷ 1 ∷ 1 ∷ 8 ∷ [] }
    ensures status { line (first_round 0 ++ Requests c1 ∷ Delivers 6 ∷ Delivers 7 ∷ []) ≡ 1 ∷ 1 ∷ 1 ∷ 0 ∷ 1 ∷ 1 ∷ 8 ∷ [] }
{}

/// After a start the same request begins a life, whose first round is taken over the older one; a part of the start
/// before is of an old start.
pub fn starts()
    ensures before { line (first_round 0 ++ Starts 5 ∷ []) ≡ 1 ∷ 1 ∷ 1 ∷ 0 ∷ 1 ∷ 0 ∷ 6 ∷ [] }
    ensures after { line (first_round 0 ++ Starts 5 ∷ Delivers 0 ∷ Delivers 7 ∷ Delivers 8 ∷ Delivers 9 ∷ Delivers 10 ∷ []) ≡ 1 ∷ 2 ∷ 1 ∷ 0 ∷ 0 ∷ 1 ∷ 11 ∷ [] }
{}

/// A request that is superseded begins nothing; a termination ends the life; an expired request begins no other.
pub fn numbers()
    ensures superseded { line (Asks c1 s1 0 ∷ Asks c1 s1 0 ∷ Delivers 1 ∷ Delivers 1 ∷ Delivers 0 ∷ []) ≡ 2 ∷ 0 ∷ 0 ∷ 0 ∷ 0 ∷ 0 ∷ 6 ∷ [] }
    ensures not_held { line (first_round 0 ++ Stops c1 s1 ∷ Delivers 6 ∷ []) ≡ [] }
    ensures expired { line (Asks c1 s1 60 ∷ Delivers 0 ∷ Clocks 60 ∷ Delivers 2 ∷ Delivers 3 ∷ []) ≡ 1 ∷ 1 ∷ 0 ∷ 1 ∷ 0 ∷ 0 ∷ 4 ∷ [] }
{}

/// A consumer that restarts loses its view, and asks for all under a new number: the producer begins a life of the same
/// subscription, which a repeated request doesn't begin again, and which the request that it goes back to doesn't supersede.
pub fn restarts()
    ensures before { line (first_round 0 ++ Restarts c1 s1 ∷ []) ≡ 2 ∷ 0 ∷ 0 ∷ 0 ∷ 0 ∷ 0 ∷ 7 ∷ [] }
    ensures after { line (first_round 0 ++ Restarts c1 s1 ∷ Delivers 6 ∷ Delivers 8 ∷ Delivers 9 ∷ Delivers 10 ∷ Delivers 11 ∷ []) ≡ 2 ∷ 1 ∷ 1 ∷ 0 ∷ 1 ∷ 1 ∷ 12 ∷ [] }
    ensures again { line (first_round 0 ++ Restarts c1 s1 ∷ Delivers 6 ∷ Delivers 8 ∷ Delivers 9 ∷ Delivers 10 ∷ Delivers 11 ∷ Delivers 6 ∷ Delivers 0 ∷ []) ≡ 2 ∷ 1 ∷ 1 ∷ 0 ∷ 1 ∷ 1 ∷ 14 ∷ [] }
    ensures old_part { line (first_round 0 ++ Restarts c1 s1 ∷ Delivers 2 ∷ Delivers 4 ∷ []) ≡ 2 ∷ 0 ∷ 0 ∷ 0 ∷ 0 ∷ 0 ∷ 7 ∷ [] }
{}

/// An acceptance that expired isn't renewed: another of the same identifier, under an older number, has another base.
pub fn expired_bases()
    ensures renewed { line (Asks c1 s1 0 ∷ Asks c1 s1 60 ∷ Delivers 1 ∷ Restarts c1 s1 ∷ Delivers 4 ∷ Delivers 6 ∷ []) ≡ 3 ∷ 1 ∷ 0 ∷ 1 ∷ 0 ∷ 0 ∷ 8 ∷ [] }
    ensures not_renewed { line (Asks c1 s1 0 ∷ Asks c1 s1 60 ∷ Delivers 1 ∷ Restarts c1 s1 ∷ Clocks 60 ∷ Delivers 0 ∷ Delivers 4 ∷ []) ≡ 3 ∷ 0 ∷ 0 ∷ 0 ∷ 0 ∷ 0 ∷ 8 ∷ [] }
{}
