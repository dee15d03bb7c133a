//! What lives ask of views and parts, at items and histories.

ghost use Rattle.std.specs.Prelude.{◌≡◌, true};
ghost use Rattle.siri_change.specs.Views.{is_view};
ghost use Rattle.siri_life.specs.Meaning.{IsLawful};
ghost use Rattle.siri_model.specs.History.{History};
ghost use Rattle.siri_messages.specs.Asked.{AskedFor};
ghost use Rattle.siri_model.specs.Meaning.{direct_of, meaning};

/// A law, which does nothing when it is called: the direct response to any subscription after any history is a view, in
/// order of key, each item under its own key, and of at most 20,000 items.
pub fn direct_responses_are_views()
    ensures { (h : History) (wanted : AskedFor) → is_view (direct_of h wanted) ≡ true }
{}

/// A law: items, their changes in parts of a hundred, and histories have what lives ask of views and parts. The parts
/// of a round lead from the acknowledged view to the target, there is at least one and at most 400, and the empty view
/// and each target are views.
pub fn lives_of_items_are_lawful()
    ensures { IsLawful meaning }
{}
