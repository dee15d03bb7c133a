//! What holds of the views in a report.

ghost use Rattle.std.specs.Prelude.{ℕ, List};
ghost use Rattle.siri_replay.specs.Views.{ViewsAreDirect};

/// A law, which does nothing when it is called: in the report of every script a view that is `quiet` lists the items of
/// a direct response to its subscription's topic, at that moment, over all observations that were taken since the
/// producer's latest start (EN 15531-2, request and response; subscriptions), whatever packets were lost, repeated or
/// reordered, and however often either end restarted. They are equal in every field but for predicted times and delays
/// within ChangeBeforeUpdates and the time of record: each item of a view is, as it stands, one that a packet to its
/// consumer has.
pub fn quiet_views_are_direct()
    ensures { (script : List ℕ) → ViewsAreDirect script }
{}
