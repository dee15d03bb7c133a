//! What a world is: the function has a law for its clause, and does nothing when it is called.

ghost use Rattle.std.specs.Prelude.{List};
ghost use Rattle.siri_life.specs.Network.{network_after, opening};
ghost use Rattle.siri_model.specs.Meaning.{meaning};
ghost use Rattle.siri_world_model.specs.declared.event.Event.{Event};
ghost use Rattle.siri_world_model.specs.Told.{world_after};
ghost use Rattle.siri_world_model.specs.laws.Happenings.{happened};
ghost use Rattle.siri_world_model.specs.laws.Networks.{Fits};

/// After whatever happens a world, its packets read as letters, is the network after what happened in it.
pub fn worlds_are_networks()
    ensures { (events : List Event) → Fits (world_after events) (network_after meaning (happened events) (opening meaning 0 0)) }
{}
