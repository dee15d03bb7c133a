//! What holds of what is told of events.

ghost use Rattle.std.specs.Prelude.{◌≡◌, List, Ok};
ghost use Rattle.siri_messages.specs.declared.requests.ServiceRequest.{ServiceRequest};
ghost use Rattle.siri_life.specs.Named.{Name};
ghost use Rattle.siri_world_model.specs.declared.event.Event.{Event};
ghost use Rattle.siri_world_model.specs.declared.event.Event.TheVariants as event;
ghost use Rattle.siri_world_model.specs.Lines.{ToldLine};
ghost use Rattle.siri_world_model.specs.Told.{told, world_after};
ghost use Rattle.siri_world_model.specs.laws.Views.{AllHappen, AnswersDirect, TellsView};

/// Where a view is told after events that all happened, it is told that there is none, or the view, each of whose items
/// is, as it stands, one of those that were sent to the consumer; and where the view is quiet, its items meet the
/// direct response to the subscription's topic over all that was observed since the producer's latest start, at its
/// moment (EN 15531-2, request and response; subscriptions). They are equal in every field but for predicted times and
/// delays within ChangeBeforeUpdates and the time of record, which is that of the record sent.
pub fn quiet_views_are_direct()
    ensures { (events : List Event) → AllHappen events → (consumer identifier : Name) (lines : List ToldLine)
        → told (world_after events) (event.View consumer identifier) ≡ Ok lines → TellsView events consumer identifier lines }
{}

/// Where a request is told of after events that all happened, it is answered by a delivery that lists, for each of its
/// topics, the items of the direct response to it over all that was observed since the producer's latest start, at its
/// moment: all of them, or the first MaximumStopVisits (EN 15531-2, request and response; EN 15531-3).
pub fn requests_are_answered_directly()
    ensures { (events : List Event) → AllHappen events → (request : ServiceRequest) (lines : List ToldLine)
        → told (world_after events) (event.Ask request) ≡ Ok lines → AnswersDirect events request lines }
{}
