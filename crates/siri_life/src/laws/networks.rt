//! What holds of every subscription of a network: one producer, its table, any consumers, one list of letters.

ghost use Rattle.std.specs.Prelude.{◌≡◌, ◌≢◌, ℕ, Bool, List, Some, slice_get};
ghost use Rattle.siri_life.specs.Life.{Mark, Packet, Delivery};
ghost use Rattle.siri_life.specs.Link.{Holding, outcome_of, Gap, Overlong, Wanted};
ghost use Rattle.siri_life.specs.Meaning.{Meaning, IsLawful};
ghost use Rattle.siri_life.specs.Named.{Name, Of, find, next_of};
ghost use Rattle.siri_life.specs.Network.{Network, Happening, Delivers, restarts_of_all, seen_by, step, network_after, opening};
ghost use Rattle.siri_life.specs.Serving.{About, Carries};
ghost use Rattle.siri_life.specs.laws.Claims.{ChangesNoView, HasMark, CarriesItsRound, ViewIsGoal, MeetsWhereQuiet};
ghost use Rattle.siri_life.specs.laws.Restarts.{AreApart, Holds, HasRestarted};

/// At every moment each consumer's view of each subscription is the target of the round that it comes from, or empty
/// where it comes from none.
pub fn views_are_goals<V, P, W, H, E>()
    ensures { (f : Meaning V P W H E) → IsLawful f → (t : ℕ) (es : List (Happening W E)) (c s : Name)
        → ViewIsGoal f (seen_by f c s (network_after f es (opening f 1 t))) ((network_after f es (opening f 1 t)).holdings c s) }
{}

/// Where the life in the latest start's table is under the consumer's number and quiet, the consumer's view is the
/// acknowledged view of that life, and meets the direct response.
pub fn views_meet_where_quiet<V, P, W, H, E>()
    ensures { (f : Meaning V P W H E) → IsLawful f → (t : ℕ) (es : List (Happening W E)) (c s : Name)
        → MeetsWhereQuiet f (seen_by f c s (network_after f es (opening f 1 t))) ((network_after f es (opening f 1 t)).holdings c s)
        (find c s (network_after f es (opening f 1 t)).serving.table) }
{}

/// Each ServiceDelivery that was ever sent of a subscription, under the number that its consumer holds, carries the
/// part that its mark names of the round that its mark names, with the moment at which that round opened and with
/// MoreData where a part comes after it; each DataReadyNotification tells of such a round, with its moment.
pub fn packets_carry_their_rounds<V, P, W, H, E>()
    ensures { (f : Meaning V P W H E) → IsLawful f → (t : ℕ) (es : List (Happening W E)) (k : ℕ) (x : Of (About P W)) (p : Packet P W)
        → slice_get (network_after f es (opening f 1 t)).letters k ≡ Some x → x.it ≡ Carries p
        → CarriesItsRound f (seen_by f x.subscriber x.identifier (network_after f es (opening f 1 t)))
        ((network_after f es (opening f 1 t)).holdings x.subscriber x.identifier) p }
{}

/// A part that was buffered or applied changes no view at any later time: it is a repeat, of an old start, or of a
/// subscription that isn't held.
pub fn parts_are_taken_once<V, P, W, H, E>()
    ensures { (f : Meaning V P W H E) → IsLawful f → (t : ℕ) (before after : List (Happening W E)) (k : ℕ) (c s : Name) (m : Mark) (moment : ℕ) (more : Bool) (x : P)
        → slice_get (network_after f before (opening f 1 t)).letters k ≡ Some (record { subscriber = c; identifier = s; it = Carries (Delivery m moment more x) })
        → outcome_of f ((network_after f before (opening f 1 t)).holdings c s) m ≡ Wanted
        → ChangesNoView (outcome_of f ((network_after f after (step f (network_after f before (opening f 1 t)) (Delivers k))).holdings c s) m) }
{}

/// No ServiceDelivery and no DataReadyNotification that was ever sent shows its consumer a gap, or is past the greatest
/// round or part.
pub fn no_gap_is_shown<V, P, W, H, E>()
    ensures { (f : Meaning V P W H E) → IsLawful f → (t : ℕ) (es : List (Happening W E)) (k : ℕ) (x : Of (About P W)) (p : Packet P W) (m : Mark)
        → slice_get (network_after f es (opening f 1 t)).letters k ≡ Some x → x.it ≡ Carries p → HasMark p m
        → (outcome_of f ((network_after f es (opening f 1 t)).holdings x.subscriber x.identifier) m ≢ Gap)
        × (outcome_of f ((network_after f es (opening f 1 t)).holdings x.subscriber x.identifier) m ≢ Overlong) }
{}

/// A consumer that restarts asks for all of each subscription that it holds, in the order that is told, under a number of its
/// own, and keeps no view of any; nothing else changes.
pub fn consumers_restart<V, P, W, H, E>()
    ensures { (f : Meaning V P W H E) (c : Name) (number : ℕ) (held : List (Name × Holding V P W)) (n : Network V P W H) → AreApart f held → Holds f n c held
        → next_of (n.numbers c) ≡ number → HasRestarted f c number held n (network_after f (restarts_of_all f c held) n) }
{}
