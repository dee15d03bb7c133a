//! Small runs of two ends that are joined, by the definitions: whatever messages are said, their connections fit and there is
//! an order, and a wrong order is none. Each function has runs for its clauses, and does nothing when it is called.

ghost use Rattle.std.specs.Prelude.{◌≡◌, ℕ, List, [], ◌∷◌, false, true};
ghost use Rattle.siri_messages.specs.declared.message.Message.{Message};
ghost use Rattle.siri_messages.specs.declared.message.Message.TheVariants as message;
ghost use Rattle.siri_messages.specs.declared.statuses.CheckStatusRequest.{CheckStatusRequest};
ghost use Rattle.siri_messages.specs.declared.supplies.DataSupplyRequest.{DataSupplyRequest};
ghost use Rattle.siri_messages.specs.declared.terminations.TerminateSubscriptionRequest.{TerminateSubscriptionRequest};
ghost use Rattle.siri_laws.specs.two_ends.Joined.{AreBehind, Fits, IsStrangeToProducer, Order};
ghost use Rattle.siri_laws.specs.two_ends.SmallRuns.{back, back_in_order, back_pairs, exchanged, in_order, lost, lost_in_order, one_pair, too_early, two_pairs};
ghost use Rattle.siri_life.specs.Named.{Name};
ghost use Rattle.siri_topic.specs.Agreement.{same_name};

/// The consumer says a message to its producer, which takes it and says an answer. It is no order where the consumer takes the
/// answer before it was said.
pub fn an_exchange_is_in_order()
    ensures fits { (host path : List ℕ) (m answer : Message) → Fits (exchanged host path m answer) one_pair }
    ensures order { (host path : List ℕ) (m answer : Message) → Order (exchanged host path m answer) one_pair (in_order host path m answer) }
    ensures too_early { (host path : List ℕ) (m answer : Message) → AreBehind one_pair [] (too_early host path m answer) → ⊥ }
{}

/// The producer then says a part, which the consumer takes and acknowledges, and only a front of the acknowledgement comes.
pub fn a_lost_acknowledgement_is_in_order()
    ensures fits { (host path : List ℕ) (m answer part acknowledgement : Message) (count : ℕ)
        → Fits (lost host path m answer part acknowledgement count) two_pairs }
    ensures order { (host path : List ℕ) (m answer part acknowledgement : Message) (count : ℕ)
        → Order (lost host path m answer part acknowledgement count) two_pairs (lost_in_order host path m answer part acknowledgement count) }
{}

/// The consumer's process ends, and its next run says another message.
pub fn a_consumer_that_comes_back_is_in_order()
    ensures fits { (host path : List ℕ) (m answer again second : Message) → Fits (back host path m answer again second) back_pairs }
    ensures order { (host path : List ℕ) (m answer again second : Message)
        → Order (back host path m answer again second) back_pairs (back_in_order host path m answer again second) }
{}

/// Anybody may ask a producer for its status and, in any name, for a part; but that others end a subscription in a consumer's
/// name is ruled out.
pub fn strangers_end_nothing()
    ensures status { (name : Name) (r : CheckStatusRequest) → IsStrangeToProducer name (message.CheckStatusRequest r) }
    ensures part { (name : Name) (r : DataSupplyRequest) → r.all_data ≡ false → IsStrangeToProducer name (message.DataSupplyRequest r) }
    ensures end { (name identifier : Name) (r : TerminateSubscriptionRequest) → r.subscription_ref ≡ identifier ∷ []
        → same_name r.subscriber_ref name ≡ true → IsStrangeToProducer name (message.TerminateSubscriptionRequest r) → ⊥ }
{}
