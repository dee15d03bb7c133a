//! What follows from the definitions of the consumer.

ghost use Rattle.std.specs.Prelude.{◌≡◌, ◌↔◌, ℕ};
ghost use Rattle.siri_life.specs.Life.{Mark};
ghost use Rattle.siri_life.specs.Link as life;
ghost use Rattle.siri_life.specs.Link.{outcome_by};
ghost use Rattle.siri_messages.specs.declared.message.Message.{Message};
ghost use Rattle.siri_view.specs.Changing.{IsOrdered, TakesNothing};
ghost use Rattle.siri_view.specs.Consuming.{Consuming, after_message, seen_of};
ghost use Rattle.siri_view.specs.Table.{Comes};

/// A law, which does nothing when it is called: what the mark of a part says, by the four numbers that are kept of its
/// subscription, comes exactly where the table of outcomes says.
pub fn outcomes_come_by_the_table()
    ensures { (number start round parts : ℕ) (m : Mark) (o : life.Outcome) → (outcome_by number start round parts m ≡ o) ↔ Comes number start round parts m o }
{}

/// A law, which does nothing when it is called: on every outcome but Buffered and Applied nothing changes. Whatever
/// else a message is to a consumer, after it the consumer has the same name, address, number and moment, and keeps the
/// same of each subscription: the start, the last whole round, the parts that came of the next, and the view with the
/// round that it is of.
pub fn other_outcomes_change_nothing()
    ensures { (consumer : Consuming) (message : Message) → IsOrdered consumer → TakesNothing (seen_of consumer message).outcome → after_message consumer message ≡ consumer }
{}
