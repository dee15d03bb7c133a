//! What holds of the definitions: each function has a law for its clause, and does nothing when it is called.

ghost use Rattle.siri_queries.specs.Paths.{PathsAreSpelled};

/// Each path of [`crate::paths`] is pinned as a text.
pub fn paths_are_spelled()
    ensures { PathsAreSpelled }
{}
