//! Small runs of the two ends of a subscription, by the definitions: single steps of either end, and what the consumer holds
//! after them.
//!
//! ```text
//!     steps --acts_after--> a link --> number, start and round held, parts buffered, view, quiet, packets sent
//! ```
//!
//! The laws hold of ends that never meet, too; these would not pass that. Packets count from 0: the request, the first part,
//! its acknowledgement, and so on. Each function has runs for its clauses, and does nothing when it is called.

ghost use Rattle.std.specs.Prelude.{◌≡◌, false, [], ◌∷◌, ◌++◌};
ghost use Rattle.siri_laws.specs.two_ends.Acts.{Asks, Clocks, Ends, Feeds, Hears, Settles, Spends, Starts, Takes};
ghost use Rattle.siri_laws.specs.two_ends.SmallLinks.{line, first_round};

/// The two become quiet: number 1, start 1, round 1, no part, one entry shown, after five packets. A feed that isn't settled
/// sends nothing. They become quiet as well where the consumer takes a part once more after the producer took its
/// acknowledgement, and before it settled.
pub fn links_become_quiet()
    ensures quiet { line first_round ≡ 1 ∷ 1 ∷ 1 ∷ 0 ∷ 1 ∷ 1 ∷ 5 ∷ [] }
    ensures fed { line (first_round ++ Feeds (8 ∷ []) ∷ []) ≡ 1 ∷ 1 ∷ 1 ∷ 0 ∷ 1 ∷ 0 ∷ 5 ∷ [] }
    ensures settled { line (first_round ++ Feeds (8 ∷ []) ∷ Settles ∷ []) ≡ 1 ∷ 1 ∷ 1 ∷ 0 ∷ 1 ∷ 0 ∷ 6 ∷ [] }
    ensures between { line (Feeds (7 ∷ []) ∷ Asks 0 ∷ Hears 0 false ∷ Settles ∷ Takes 1 ∷ Hears 2 false ∷ Takes 1 ∷ Settles ∷ Takes 4 ∷ Hears 5 false ∷ Settles ∷ []) ≡ 1 ∷ 1 ∷ 1 ∷ 0 ∷ 1 ∷ 1 ∷ 6 ∷ [] }
{}

/// The last acknowledgement is lost: the consumer shows the round and the producer isn't quiet, until it sends the part once
/// more after 30 seconds, which is acknowledged again.
pub fn links_outlive_a_lost_acknowledgement()
    ensures lost { line (Feeds (7 ∷ []) ∷ Asks 0 ∷ Hears 0 false ∷ Settles ∷ Takes 1 ∷ Hears 2 false ∷ Settles ∷ Takes 3 ∷ []) ≡ 1 ∷ 1 ∷ 1 ∷ 0 ∷ 1 ∷ 0 ∷ 5 ∷ [] }
    ensures again { line (Feeds (7 ∷ []) ∷ Asks 0 ∷ Hears 0 false ∷ Settles ∷ Takes 1 ∷ Hears 2 false ∷ Settles ∷ Takes 3 ∷ Clocks 30000 ∷ Settles ∷ Takes 5 ∷ Hears 6 false ∷ Settles ∷ []) ≡ 1 ∷ 1 ∷ 1 ∷ 0 ∷ 1 ∷ 1 ∷ 7 ∷ [] }
{}

/// The consumer's process ends, and the next one leaves a number out, asks under its own, and is led from the empty view.
pub fn links_outlive_their_consumer()
    ensures ended { line (first_round ++ Ends ∷ []) ≡ [] }
    ensures back { line (first_round ++ Ends ∷ Spends ∷ Asks 0 ∷ Takes 3 ∷ []) ≡ 3 ∷ 0 ∷ 0 ∷ 0 ∷ 0 ∷ 0 ∷ 6 ∷ [] }
    ensures quiet { line (first_round ++ Ends ∷ Spends ∷ Asks 0 ∷ Hears 5 false ∷ Settles ∷ Takes 6 ∷ Hears 7 false ∷ Settles ∷ Takes 8 ∷ Hears 9 false ∷ Settles ∷ []) ≡ 3 ∷ 1 ∷ 1 ∷ 0 ∷ 1 ∷ 1 ∷ 10 ∷ [] }
{}

/// The producer starts again and leaves a number out: the same request begins a life of start 3, whose first round is taken
/// over the older one.
pub fn links_outlive_their_producer()
    ensures before { line (first_round ++ Starts 5 ∷ Starts 5 ∷ []) ≡ 1 ∷ 1 ∷ 1 ∷ 0 ∷ 1 ∷ 0 ∷ 5 ∷ [] }
    ensures after { line (first_round ++ Starts 5 ∷ Starts 5 ∷ Hears 0 false ∷ Settles ∷ Takes 5 ∷ Hears 6 false ∷ Settles ∷ Takes 7 ∷ Hears 8 false ∷ Settles ∷ []) ≡ 1 ∷ 3 ∷ 1 ∷ 0 ∷ 0 ∷ 1 ∷ 9 ∷ [] }
{}
