//! What holds of the definitions: each function has a law for its clause, and does nothing when it is called.

ghost use Rattle.siri_deliveries.specs.Names.{MembersAreSpelled};

/// Each name of [`crate::names`] is the one that documents spell: by these constants the tables name their members, and
/// a document its message.
pub fn members_are_spelled()
    ensures { MembersAreSpelled }
{}
