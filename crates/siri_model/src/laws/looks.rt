//! What follows of looks: of a subscription it is enough to look at the keys that were touched since its last look, and
//! at the items of which an end of its window passed an edge.

ghost use Rattle.siri_model.specs.Facts.{GoalStays, StepFollows, FeedFollows, ClockFollows, LookFollows, FactsSuffice, DirectStays};
ghost use Rattle.siri_model.specs.Looks.{SameShown, FoundTell};
ghost use Rattle.siri_model.specs.laws.Apart.{LooksTellApart, BoundsAdd, BoundsAreWithin};
ghost use Rattle.siri_model.specs.laws.Looks.{AreTheRows, GoOn};

/// A law, which does nothing when it is called: what is shown of a key is the same as at an earlier moment, where the
/// key has the same item as then and wasn't crossed.
pub fn unmarked_keys_stay_as_shown()
    ensures { SameShown }
{}

/// A law: the items that are held of some keys tell which changes a round carries of them.
pub fn what_is_found_tells()
    ensures { FoundTell }
{}

/// A law: the two facts of a subscription are kept by each step. An acknowledgement and a request for a part leave the
/// view that the consumer is led to, what changes what is held touches its keys, and a look begins anew.
pub fn steps_keep_the_facts()
    ensures goal { GoalStays }
    ensures step { StepFollows }
    ensures feed { FeedFollows }
    ensures clock { ClockFollows }
    ensures look { LookFollows }
{}

/// A law: by the two facts a look needs the keys alone that are kept apart, or that may be of an item that is shown to the
/// topic and were touched, or of whose item an end of the window passed an edge, unless the topic has MaximumStopVisits;
/// and where no such key was touched or crossed, the direct response is as it was, whatever the topic.
pub fn facts_tell_a_look()
    ensures keys { FactsSuffice }
    ensures stays { DirectStays }
{}

/// A law: what is known of the looks at a history's subscriptions stands beside the rows of its table, and goes on step
/// by step.
pub fn followed_rows_are_those_of_the_table()
    ensures rows { AreTheRows }
    ensures steps { GoOn }
{}

/// A law: the keys that a look is by tell which ones are kept apart after it: those of them that change, and those that
/// were kept apart and aren't looked at. The view meets what is shown where there are none.
pub fn looks_tell_which_keys_are_kept_apart()
    ensures { LooksTellApart }
{}

/// A law: how many stored items the looks at some rows may read is a sum, row by row.
pub fn bounds_of_looks_add_up()
    ensures add { BoundsAdd }
    ensures within { BoundsAreWithin }
{}
