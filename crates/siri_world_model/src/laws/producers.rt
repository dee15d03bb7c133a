//! One subscription of a producer among others: each function has a law for its clause, and does nothing when it is
//! called.

ghost use Rattle.std.specs.Prelude.{ℕ, ◌∷◌, ◌++◌};
ghost use Rattle.siri_life.specs.Named.{Name};
ghost use Rattle.siri_model.specs.History.{History, Settle};
ghost use Rattle.siri_world_model.specs.laws.Apart.{HasNoStart, HasRoomFor, IsAlike, own_steps, steps_left};

/// Steps of a producer's history that name only other subscriptions, and bring no entries, change nothing of this one:
/// without them its life is the same, with each round and when it opened, and the same messages are sent of it, its
/// heartbeats among them, as long as a full table turns none of its own requests away with them or without.
pub fn other_subscriptions_change_nothing()
    ensures { (subscriber identifier : Name) (number moment : ℕ) (steps : History) → HasNoStart steps
        → HasRoomFor subscriber identifier number moment steps → HasRoomFor subscriber identifier number moment (own_steps subscriber identifier steps)
        → IsAlike subscriber identifier number moment steps (own_steps subscriber identifier steps) }
{}

/// A settle right after a settle may be left out anywhere in a history: it changes nothing of any subscription, and
/// sends nothing of it, neither a message nor a heartbeat.
pub fn a_second_settle_changes_nothing()
    ensures { (subscriber identifier : Name) (number moment : ℕ) (before after : History) → HasNoStart before → HasNoStart after
        → IsAlike subscriber identifier number moment (before ++ Settle ∷ Settle ∷ after) (before ++ Settle ∷ after) }
{}

/// Steps of a producer's history that name only other subscriptions, and bring no entries, change nothing of this one,
/// and neither does the settle right after such a step where one stands right before it: without them its life is the
/// same, with each round and when it opened, and the same messages are sent of it, its heartbeats among them, as long
/// as a full table turns none of its own requests away with them or without.
pub fn other_subscriptions_and_their_settles_change_nothing()
    ensures { (subscriber identifier : Name) (number moment : ℕ) (steps : History) → HasNoStart steps
        → HasRoomFor subscriber identifier number moment steps → HasRoomFor subscriber identifier number moment (steps_left subscriber identifier steps)
        → IsAlike subscriber identifier number moment steps (steps_left subscriber identifier steps) }
{}
