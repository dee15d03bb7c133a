//! What follows of every history from the definitions of what is current.

ghost use Rattle.std.specs.Prelude.{◌≡◌, ◌≤◌, ◌∷◌, ◌++◌, [], length};
ghost use Rattle.siri_records.specs.declared.key.Key.{Key};
ghost use Rattle.siri_records.specs.Keyed.{living, InOrder, most_live};
ghost use Rattle.siri_model.specs.History.{Entry, Feed, History, IsKeyed, current, current_at, now_of};
ghost use Rattle.siri_model.specs.Last.{after_one, last_of, left_by_last, taken_in};

/// A law, which does nothing when it is called: the current items are in order of key, each key once.
pub fn current_items_are_in_order()
    ensures { (h : History) → InOrder (current h) }
{}

/// A law: each current item stands under its own key.
pub fn current_items_stand_under_their_keys()
    ensures { (h : History) → IsKeyed (current h) }
{}

/// A law: at most 20,000 keys are live.
pub fn few_keys_are_live()
    ensures { (h : History) → length (living (now_of h) (current h)) ≤ most_live }
{}

/// A law: after an entry that has a key, the current item of that key is the entry's where it is taken, and none where
/// it withdraws the key. A refused observation, and an entry of another key, leave it as it was.
pub fn an_entry_is_of_its_key_alone()
    ensures { (h : History) (entry : Entry) (key : Key) → current_at (h ++ Feed (entry ∷ []) ∷ []) key ≡ after_one (now_of h) (current h) key (current_at h key) entry }
{}

/// A law: the current item of a key is the last one that was observed and taken, unless the key was withdrawn after
/// that.
pub fn the_last_observation_is_current()
    ensures { (h : History) (key : Key) → current_at h key ≡ left_by_last (last_of key (taken_in h)) }
{}
