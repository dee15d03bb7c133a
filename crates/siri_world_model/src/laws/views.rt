//! What consumers show: each function has a law for its clause, and does nothing when it is called.

ghost use Rattle.std.specs.Prelude.{List};
ghost use Rattle.siri_world_model.specs.declared.event.Event.{Event};
ghost use Rattle.siri_world_model.specs.Goals.{ShowsGoals};
ghost use Rattle.siri_world_model.specs.Told.{world_after};
ghost use Rattle.siri_world_model.specs.laws.Claims.{MeetsWhereQuiet};

/// After whatever happens, what each consumer shows of each subscription that it holds is the goal of the round that
/// its view belongs to, by the rounds of the producer's start that the round is of, or empty where it belongs to none.
pub fn views_are_goals()
    ensures { (events : List Event) → ShowsGoals (world_after events) }
{}

/// Where a subscription is quiet, what its consumer shows of it meets the direct response to it over all that the
/// producer was told since its latest start: the same keys, and each item near.
pub fn quiet_views_meet()
    ensures { (events : List Event) → MeetsWhereQuiet (world_after events) }
{}
