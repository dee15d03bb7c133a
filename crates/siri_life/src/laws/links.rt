//! What holds of one subscription alone: its life at the producer, what its consumer keeps of it, the packets about it.

ghost use Rattle.std.specs.Prelude.{◌≡◌, ◌≢◌, ℕ, Bool, List, Some, slice_get};
ghost use Rattle.siri_life.specs.Life.{Mark, Packet, Delivery};
ghost use Rattle.siri_life.specs.Link.{LinkEvent, Deliver, link_after, first_link, happens, outcome_of, Gap, Overlong, Wanted};
ghost use Rattle.siri_life.specs.Meaning.{Meaning, IsLawful};
ghost use Rattle.siri_life.specs.laws.Claims.{ChangesNoView, HasMark, CarriesItsRound, ViewIsGoal, MeetsWhereQuiet};

/// At every moment the consumer's view is the target of the round that it comes from, or empty where it comes from
/// none.
pub fn link_view_is_goal<V, P, W, H, E>()
    ensures { (f : Meaning V P W H E) → IsLawful f → (t : ℕ) (es : List (LinkEvent W E))
        → ViewIsGoal f (link_after f es (first_link f t)) (link_after f es (first_link f t)).held }
{}

/// Where the life in the producer's table is under the consumer's number and quiet, the consumer's view is the
/// acknowledged view of that life, and meets the direct response.
pub fn link_meets_where_quiet<V, P, W, H, E>()
    ensures { (f : Meaning V P W H E) → IsLawful f → (t : ℕ) (es : List (LinkEvent W E))
        → MeetsWhereQuiet f (link_after f es (first_link f t)) (link_after f es (first_link f t)).held (link_after f es (first_link f t)).life }
{}

/// Each ServiceDelivery that was ever sent under the consumer's number carries the part that its mark names of the
/// round that its mark names, with the moment at which that round opened and with MoreData where a part comes after it;
/// each DataReadyNotification tells of such a round, with its moment.
pub fn link_carries_its_rounds<V, P, W, H, E>()
    ensures { (f : Meaning V P W H E) → IsLawful f → (t : ℕ) (es : List (LinkEvent W E)) (k : ℕ) (p : Packet P W)
        → slice_get (link_after f es (first_link f t)).packets k ≡ Some p
        → CarriesItsRound f (link_after f es (first_link f t)) (link_after f es (first_link f t)).held p }
{}

/// A part that was buffered or applied changes no view at any later time: it is a repeat, of an old start, or of a
/// subscription that isn't held.
pub fn link_takes_parts_once<V, P, W, H, E>()
    ensures { (f : Meaning V P W H E) → IsLawful f → (t : ℕ) (before after : List (LinkEvent W E)) (k : ℕ) (full : Bool) (m : Mark) (moment : ℕ) (more : Bool) (x : P)
        → slice_get (link_after f before (first_link f t)).packets k ≡ Some (Delivery m moment more x)
        → outcome_of f (link_after f before (first_link f t)).held m ≡ Wanted
        → ChangesNoView (outcome_of f (link_after f after (happens f (link_after f before (first_link f t)) (Deliver k full))).held m) }
{}

/// No ServiceDelivery and no DataReadyNotification that was ever sent shows a gap, or is past the greatest round or
/// part.
pub fn link_shows_no_gap<V, P, W, H, E>()
    ensures { (f : Meaning V P W H E) → IsLawful f → (t : ℕ) (es : List (LinkEvent W E)) (k : ℕ) (p : Packet P W) (m : Mark)
        → slice_get (link_after f es (first_link f t)).packets k ≡ Some p → HasMark p m
        → (outcome_of f (link_after f es (first_link f t)).held m ≢ Gap) × (outcome_of f (link_after f es (first_link f t)).held m ≢ Overlong) }
{}
