//! What holds of each subscription of a history after its first look.

ghost use Rattle.siri_model.specs.laws.Followed.{FactsHold};

/// A law, which does nothing when it is called: the two facts hold of each subscription of a history that was looked
/// at, by its live items.
pub fn facts_hold_of_all_subscriptions()
    ensures { FactsHold }
{}
