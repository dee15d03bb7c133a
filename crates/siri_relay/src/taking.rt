//! What a relay does with a message.

ghost use Rattle.std.specs.Prelude.{◌≡◌, ◌≤◌, ◌⊎◌, ◌∷◌, [], true, false, IfOk, OnOk, OnErr};
ghost use Rattle.siri_model.specs.History.{Take};
ghost use Rattle.siri_producer.specs.Known.{AnswerFor};
ghost use Rattle.siri_producer.specs.Reads.{ReadsFor};
ghost use Rattle.siri_relay.specs.declared.answers.RelayAnswer.TheVariants.{Down, Up};
ghost use Rattle.siri_relay.specs.Feeds.{has_room};
ghost use Rattle.siri_relay.specs.Goes.{GoesBy, GoesSome};
ghost use Rattle.siri_relay.specs.Named.{named_by};
ghost use Rattle.siri_relay.specs.Reads.{ReadsToReply};
ghost use Rattle.siri_relay.specs.Relaying.{applied_steps, consumer_after, is_up, take_steps, view_after, view_of};
ghost use Rattle.siri_relay.specs.Taken.{AnswersFor};
ghost use Rattle.siri_view.specs.Consuming.{after_message, seen_of};

use crate::naming::{NamedKeys, named_by};
use crate::{Relay, RelayAnswer};
use siri_base::{Copies, OutOfMemory};
use siri_messages::Message;
use siri_producer::Answer;
use siri_view::{Outcome, Seen};

impl Relay {
    /// Feeds what is missing, and then takes a message: a delivery, a notification, the acknowledgement of one, a
    /// heartbeat or a response is for the consumer, and all else for the producer. Where a round was applied to the
    /// view, its changes are fed: first the removals, then the items.
    ///
    /// After want of memory the producer was fed some of what is missing or of the changes, and the message may have
    /// been taken by the consumer, whose replies are lost. The producer's counter of steps rises for a ServiceRequest alone,
    /// by at most as many steps as items are live, for each topic.
    ///
    /// A message that is lent is copied first, so that its items can be kept; `take_owned` takes one that is handed over.
    #[tactic(auto, using(crate::proofs::Counts::reads_none))]
    pub fn take(&mut self, message: &Message) -> Result<RelayAnswer, OutOfMemory>
        ensures producer { OnOk result (GoesBy self.old.producer self.new.producer (take_steps self.old message.now)) }
        ensures consumer { OnOk result (self.new.consumer ≡ consumer_after self.old.consumer message.now) }
        ensures answer { IfOk result (AnswersFor self.old message.now) }
        ensures level { OnOk result (self.new.level ≡ has_room (view_of self.new)) }
        ensures fed { OnOk result (self.new.fed ≡ view_of self.new) }
        ensures behind { OnErr result (GoesSome self.old.producer self.new.producer (take_steps self.old message.now)) }
        ensures same { OnErr result ((self.new.consumer ≡ self.old.consumer) ⊎ (self.new.consumer ≡ consumer_after self.old.consumer message.now)) }
        ensures upstream { self.new.upstream ≡ self.old.upstream }
        ensures reads { ReadsToReply self.old self.new message.now }
    {
        let message = message.copy()?;
        self.take_owned(message)
    }

    /// As `take`, of a message that is handed over: the items of a part are kept and none is copied.
    #[tactic(auto, using(crate::proofs::Counts::reads_none, crate::proofs::Counts::reads_down))]
    pub fn take_owned(&mut self, message: Message) -> Result<RelayAnswer, OutOfMemory>
        ensures producer { OnOk result (GoesBy self.old.producer self.new.producer (take_steps self.old message)) }
        ensures consumer { OnOk result (self.new.consumer ≡ consumer_after self.old.consumer message) }
        ensures answer { IfOk result (AnswersFor self.old message) }
        ensures level { OnOk result (self.new.level ≡ has_room (view_of self.new)) }
        ensures fed { OnOk result (self.new.fed ≡ view_of self.new) }
        ensures behind { OnErr result (GoesSome self.old.producer self.new.producer (take_steps self.old message)) }
        ensures same { OnErr result ((self.new.consumer ≡ self.old.consumer) ⊎ (self.new.consumer ≡ consumer_after self.old.consumer message)) }
        ensures upstream { self.new.upstream ≡ self.old.upstream }
        ensures reads { ReadsToReply self.old self.new message }
    {
        self.catch_up()?;
        if is_up(&message) {
            Ok(RelayAnswer::Up(self.take_up(message)?))
        } else {
            Ok(RelayAnswer::Down(self.take_down(message)?))
        }
    }

    /// The consumer takes a message, and the changes of a round that it applied are fed.
    fn take_up(&mut self, message: Message) -> Result<Seen, OutOfMemory>
        requires up { is_up message ≡ true }
        requires fed { self.old.fed ≡ view_of self.old }
        requires level { self.old.level ≡ has_room (view_of self.old) }
        ensures seen { IfOk result (λ seen. seen ≡ seen_of self.old.consumer message) }
        ensures producer { OnOk result (GoesBy self.old.producer self.new.producer (applied_steps (seen_of self.old.consumer message).outcome (view_of self.old) (view_after self.old message))) }
        ensures consumer { OnOk result (self.new.consumer ≡ after_message self.old.consumer message) }
        ensures level { OnOk result (self.new.level ≡ has_room (view_of self.new)) }
        ensures fed { OnOk result (self.new.fed ≡ view_of self.new) }
        ensures behind { OnErr result (GoesSome self.old.producer self.new.producer (applied_steps (seen_of self.old.consumer message).outcome (view_of self.old) (view_after self.old message))) }
        ensures same { OnErr result ((self.new.consumer ≡ self.old.consumer) ⊎ (self.new.consumer ≡ after_message self.old.consumer message)) }
        ensures upstream { self.new.upstream ≡ self.old.upstream }
        ensures reads { self.new.producer.responder.reads ≡ self.old.producer.responder.reads }
    {
        let named = named_by(self.alloc, &message)?;
        self.take_named(message, &named)
    }

    /// The same of a message that names these keys.
    fn take_named(&mut self, message: Message, named: &NamedKeys) -> Result<Seen, OutOfMemory>
        requires named { named.now.keys ≡ named_by message }
        requires fed { self.old.fed ≡ view_of self.old }
        requires level { self.old.level ≡ has_room (view_of self.old) }
        ensures seen { IfOk result (λ seen. seen ≡ seen_of self.old.consumer message) }
        ensures producer { OnOk result (GoesBy self.old.producer self.new.producer (applied_steps (seen_of self.old.consumer message).outcome (view_of self.old) (view_after self.old message))) }
        ensures consumer { OnOk result (self.new.consumer ≡ after_message self.old.consumer message) }
        ensures level { OnOk result (self.new.level ≡ has_room (view_of self.new)) }
        ensures fed { OnOk result (self.new.fed ≡ view_of self.new) }
        ensures behind { OnErr result (GoesSome self.old.producer self.new.producer (applied_steps (seen_of self.old.consumer message).outcome (view_of self.old) (view_after self.old message))) }
        ensures same { OnErr result ((self.new.consumer ≡ self.old.consumer) ⊎ (self.new.consumer ≡ after_message self.old.consumer message)) }
        ensures upstream { self.new.upstream ≡ self.old.upstream }
        ensures reads { self.new.producer.responder.reads ≡ self.old.producer.responder.reads }
    {
        let seen = self.consumer.take_owned(message)?;
        if let Outcome::Applied { round: _ } = seen.outcome {
            let was_level = self.is_level;
            self.is_level = false;
            match self.feed_applied(was_level, named) {
                Ok(()) => Ok(seen),
                Err(OutOfMemory) => {
                    drop(seen);
                    Err(OutOfMemory)
                }
            }
        } else {
            Ok(seen)
        }
    }

    /// The producer takes a message.
    fn take_down(&mut self, message: Message) -> Result<Answer, OutOfMemory>
        requires { is_up message ≡ false }
        ensures answer { IfOk result (AnswerFor self.old.producer message) }
        ensures ok { OnOk result (GoesBy self.old.producer self.new.producer (Take message ∷ [])) }
        ensures err { OnErr result (GoesBy self.old.producer self.new.producer []) }
        ensures rest { self.new ≡ record self.old { producer = self.new.producer } }
        ensures risen { self.old.producer.responder.reads ≤ self.new.producer.responder.reads }
        ensures reads { ReadsFor self.old.producer self.new.producer message }
    {
        self.producer.take_owned(message)
    }
}

/// Whether a message is for the consumer, by its kind.
fn is_up(message: &Message) -> bool
    ensures { result ≡ is_up message.now }
{
    match message {
        Message::ServiceDelivery(_)
        | Message::DataReadyNotification(_)
        | Message::DataReadyAcknowledgement(_)
        | Message::HeartbeatNotification(_)
        | Message::SubscriptionResponse(_)
        | Message::TerminateSubscriptionResponse(_)
        | Message::CheckStatusResponse(_) => true,
        Message::ServiceRequest(_)
        | Message::SubscriptionRequest(_)
        | Message::TerminateSubscriptionRequest(_)
        | Message::DataSupplyRequest(_)
        | Message::DataReceivedAcknowledgement(_)
        | Message::CheckStatusRequest(_) => false,
    }
}
