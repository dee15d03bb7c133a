//! What follows of the subscriptions of a history.

ghost use Rattle.std.specs.Prelude.{◌≡◌, ◌∷◌, ◌++◌, []};
ghost use Rattle.siri_subs.specs.Table.{EachOnce};
ghost use Rattle.siri_model.specs.History.{History, Step, state_of};
ghost use Rattle.siri_model.specs.Lives.{table_of};
ghost use Rattle.siri_model.specs.Rows.{rows_of, rows_after};

/// A law, which does nothing when it is called: what a producer keeps of its subscriptions after one more step follows
/// from what it kept, row by row, as a subscription table changes.
pub fn rows_follow_their_lives()
    ensures { (h : History) (step : Step) → rows_of (table_of (h ++ step ∷ [])) ≡ rows_after (state_of h) step (rows_of (table_of h)) }
{}

/// A law: no subscription is held twice.
pub fn subscriptions_are_held_once()
    ensures { (h : History) → EachOnce (rows_of (table_of h)) }
{}
