//! Laws of a producer that is opened over the rows of another.

ghost use Rattle.std.specs.Prelude.{◌≡◌, ◌++◌, ◌∷◌, [], ℕ, List, Ok};
ghost use Rattle.siri_topic.specs.declared.topics.Topic.{Topic};
ghost use Rattle.siri_model.specs.Direct.{direct_to};
ghost use Rattle.siri_model.specs.Held.{helds_of};
ghost use Rattle.siri_model.specs.History.{Clock, History, current, now_of, start_of};
ghost use Rattle.siri_model.specs.Lives.{table_of};
ghost use Rattle.siri_outside.specs.Rows.{InOrder, Rows};
ghost use Rattle.siri_keeping.specs.Keeps.{Keeps};
ghost use Rattle.siri_keeping.specs.Opening.{SaysKept, Said, WhatIsKept, reopened, said};

/// A law, which does nothing when it is called: no row is bad of rows in order that keep a history. They say its name, its
/// start and its moment.
pub fn what_is_kept_is_said()
    ensures { (name : List ℕ) (rows : Rows) (h : History) → InOrder rows → Keeps name rows h
        → (what : WhatIsKept) × (said rows ≡ Ok (SaysKept what)) × (what.began ≡ record { moment = now_of h; start = start_of h; name = name }) }
{}

/// A law: a producer that is opened over the rows that keep a history, at a moment, shows to each topic what the producer of
/// that history would show then.
pub fn a_reopened_producer_shows_the_same()
    ensures { (name : List ℕ) (rows : Rows) (h : History) (start now : ℕ) (what : Said) → InOrder rows → Keeps name rows h → said rows ≡ Ok what
        → (topic : Topic) → direct_to (now_of (reopened start now what)) (current (reopened start now what)) topic
        ≡ direct_to (now_of (h ++ Clock now ∷ [])) (current (h ++ Clock now ∷ [])) topic }
{}

/// A law: it holds the subscriptions that the other would hold then, with their numbers and bases and in their order.
pub fn a_reopened_producer_holds_the_same()
    ensures { (name : List ℕ) (rows : Rows) (h : History) (start now : ℕ) (what : Said) → InOrder rows → Keeps name rows h → said rows ≡ Ok what
        → helds_of (table_of (reopened start now what)) ≡ helds_of (table_of (h ++ Clock now ∷ [])) }
{}
