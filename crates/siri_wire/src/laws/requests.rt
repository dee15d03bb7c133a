//! What holds of the tables inside requests and their answers: each function has laws for its clauses, and does nothing
//! when it is called.

ghost use Rattle.std.specs.Prelude.{◌≡◌, ◌↔◌, ℕ, List, Option, Ok};
ghost use Rattle.serde_json.specs.Data.{Data};
ghost use Rattle.siri_records.specs.declared.item.Service.{Service};
ghost use Rattle.siri_records.specs.declared.item.Service.TheVariants as service;
ghost use Rattle.siri_topic.specs.declared.subscription.Subscription.{Subscription};
ghost use Rattle.siri_topic.specs.declared.topics.LineDirection.{LineDirection};
ghost use Rattle.siri_topic.specs.declared.topics.Topic.{Topic};
ghost use Rattle.siri_messages.specs.declared.subscriptions.ResponseStatus.{ResponseStatus};
ghost use Rattle.siri_messages.specs.declared.terminations.TerminationResponseStatus.{TerminationResponseStatus};
ghost use Rattle.siri_wire.specs.laws.SpellingRequests.{SpellsTopic, SpellsLineDirection, SpellsSubscription, SpellsResponseStatus, SpellsTerminationStatus};
ghost use Rattle.siri_wire.specs.Subscriptions.{subscription, response_status};
ghost use Rattle.siri_wire.specs.Terminations.{termination_status};
ghost use Rattle.siri_deliveries.specs.Topics.{stop_topic, line_direction, timetable_topic, vehicle_topic, situation_topic};

/// A topic of each service, and a line with its direction, is read from an object exactly where the object spells it.
pub fn topics_are_spelled()
    ensures of_stop { (d : Data) (t : Topic) → (stop_topic d ≡ Ok t) ↔ SpellsTopic service.Stop d t }
    ensures of_timetable { (d : Data) (t : Topic) → (timetable_topic d ≡ Ok t) ↔ SpellsTopic service.Timetable d t }
    ensures of_vehicle { (d : Data) (t : Topic) → (vehicle_topic d ≡ Ok t) ↔ SpellsTopic service.Vehicle d t }
    ensures of_situation { (d : Data) (t : Topic) → (situation_topic d ≡ Ok t) ↔ SpellsTopic service.Situation d t }
    ensures of_line { (d : Data) (l : LineDirection) → (line_direction d ≡ Ok l) ↔ SpellsLineDirection d l }
{}

/// The element of a subscription is read from an object exactly where the object spells it, in a message of a
/// requestor.
pub fn subscriptions_are_spelled()
    ensures { (s : Service) (requestor : Option (List ℕ)) (d : Data) (x : Subscription) → (subscription s requestor d ≡ Ok x) ↔ SpellsSubscription s requestor d x }
{}

/// What became of a subscription is read from an object exactly where the object spells it.
pub fn statuses_are_spelled()
    ensures of_begun { (d : Data) (r : ResponseStatus) → (response_status d ≡ Ok r) ↔ SpellsResponseStatus d r }
    ensures of_ended { (d : Data) (r : TerminationResponseStatus) → (termination_status d ≡ Ok r) ↔ SpellsTerminationStatus d r }
{}
