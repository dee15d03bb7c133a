//! Laws of the subscriptions that a producer holds.

ghost use Rattle.std.specs.Prelude.{◌≡◌, ◌++◌, ◌∷◌, [], true, ℕ};
ghost use Rattle.siri_model.specs.Held.{helds_of};
ghost use Rattle.siri_model.specs.History.{Clock, History, Step, now_of};
ghost use Rattle.siri_model.specs.Lives.{table_of};
ghost use Rattle.siri_keeping.specs.Subscribed.{leaves_held, unexpired};

/// A law, which does nothing when it is called: acknowledgements, requests for a part, feeds, deliveries and settles leave
/// what is held of each subscription beside its rounds, and so does each other step but a start, a clock, a
/// SubscriptionRequest, a TerminateSubscriptionRequest and an AllData request.
pub fn subscriptions_stay()
    ensures { (h : History) (step : Step) → leaves_held step ≡ true → helds_of (table_of (h ++ step ∷ [])) ≡ helds_of (table_of h) }
{}

/// A law: at a moment those leave whose InitialTerminationTime has come, and nothing else changes.
pub fn subscriptions_expire()
    ensures { (h : History) (moment : ℕ) → helds_of (table_of (h ++ Clock moment ∷ [])) ≡ unexpired (now_of (h ++ Clock moment ∷ [])) (helds_of (table_of h)) }
{}
