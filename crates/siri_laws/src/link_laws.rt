//! What holds of one subscription between a producer and a consumer that run as programs of their own: each step of either
//! end stands alone, in whatever order. Each law is the contract of a function that does nothing when it is called.

ghost use Rattle.std.specs.Prelude.{◌≡◌, ◌≢◌, ℕ, List, Some, slice_get};
ghost use Rattle.siri_life.specs.Life.{Mark, Packet};
ghost use Rattle.siri_life.specs.Link.{Gap, Link, LinkEvent, Overlong, first_link, link_after, outcome_of};
ghost use Rattle.siri_life.specs.Meaning.{IsLawful, Meaning};
ghost use Rattle.siri_life.specs.laws.Claims.{CarriesItsRound, HasMark, MeetsWhereQuiet, ViewIsGoal};
ghost use Rattle.siri_laws.specs.two_ends.Acts.{LinkAct, acts_after};

/// After any steps the consumer's view is the target of the round that it comes from, or empty where it comes from none;
/// and where the life in the producer's table is under the consumer's number and quiet, the view is the acknowledged one of
/// that life, and meets the direct response.
pub fn running_ends_meet_where_quiet<V, P, W, H, E>()
    ensures goal { (f : Meaning V P W H E) → IsLawful f → (t : ℕ) (acts : List (LinkAct W E))
        → ViewIsGoal f (acts_after f acts (first_link f t)) (acts_after f acts (first_link f t)).held }
    ensures quiet { (f : Meaning V P W H E) → IsLawful f → (t : ℕ) (acts : List (LinkAct W E))
        → MeetsWhereQuiet f (acts_after f acts (first_link f t)) (acts_after f acts (first_link f t)).held (acts_after f acts (first_link f t)).life }
{}

/// Each part and each notification that was ever sent under the consumer's number carries what its mark names, of the round
/// that it names; and no packet that was ever sent shows a gap, or a place past the greatest.
pub fn running_ends_show_no_gap<V, P, W, H, E>()
    ensures carries { (f : Meaning V P W H E) → IsLawful f → (t : ℕ) (acts : List (LinkAct W E)) (k : ℕ) (p : Packet P W)
        → slice_get (acts_after f acts (first_link f t)).packets k ≡ Some p
        → CarriesItsRound f (acts_after f acts (first_link f t)) (acts_after f acts (first_link f t)).held p }
    ensures no_gap { (f : Meaning V P W H E) → IsLawful f → (t : ℕ) (acts : List (LinkAct W E)) (k : ℕ) (p : Packet P W) (m : Mark)
        → slice_get (acts_after f acts (first_link f t)).packets k ≡ Some p → HasMark p m
        → (outcome_of f (acts_after f acts (first_link f t)).held m ≢ Gap) × (outcome_of f (acts_after f acts (first_link f t)).held m ≢ Overlong) }
{}

/// Whatever a schedule of whole events does, in which a settle follows at once on what a producer is given, single steps do.
pub fn schedules_are_steps<V, P, W, H, E>()
    ensures { (f : Meaning V P W H E) (es : List (LinkEvent W E)) (w : Link V P W H)
        → (acts : List (LinkAct W E)) × (acts_after f acts w ≡ link_after f es w) }
{}
