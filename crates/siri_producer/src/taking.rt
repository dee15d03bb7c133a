//! What a producer does with each message.

ghost use Rattle.std.specs.Prelude.{◌≡◌, ◌+◌, ◌*◌, ◌≤◌, length, true, false, IfOk};
ghost use Rattle.siri_responder.specs.Topics.{topics_in};
ghost use Rattle.siri_messages.specs.declared.message.Message.{Message};
ghost use Rattle.siri_messages.specs.declared.message.Message.TheVariants as message;
ghost use Rattle.siri_messages.specs.Rounds.{has_round};
ghost use Rattle.siri_producer.specs.Answers.{fed_reply, is_ignored, renew_note, supply_note};
ghost use Rattle.siri_model.specs.History.{Take};
ghost use Rattle.siri_producer.specs.Known.{AnswerFor, GoesOn, TakesMessage};

use crate::{Answer, Fed, Note, Producer};
use siri_base::{Copies, Name, OutOfMemory};
use siri_messages::{
    CheckStatusRequest, DataReceivedAcknowledgement, DataSupplyRequest, Message, ServiceDelivery,
    ServiceRequest, SubscriptionRequest, TerminateSubscriptionRequest,
};
use siri_subs::{Accepted, RenumberError, SupplyError, Taken};
use siri_subscriptions::{
    acknowledge, feed_acknowledgement, renew, status_response, subscribe, supply, terminate,
};

impl Producer {
    /// A ServiceRequest, which is answered by the direct response of its topics.
    pub(crate) fn take_service_request(
        &mut self,
        request: &ServiceRequest,
    ) -> Result<Answer, OutOfMemory>
        ensures takes { TakesMessage self.old self.new (message.ServiceRequest request.now) result }
        ensures risen { self.old.responder.reads ≤ self.new.responder.reads }
        ensures reads { self.new.responder.reads ≤ self.old.responder.reads + length self.old.responder.held * topics_in request.now }
    {
        let delivery = self.responder.direct(request)?;
        self.is_settled = false;
        Ok(Answer::replied(Note::Asked, Message::ServiceDelivery(delivery)))
    }

    /// A SubscriptionRequest, which is answered by a status for each of its subscriptions.
    pub(crate) fn take_subscriptions(
        &mut self,
        request: &SubscriptionRequest,
    ) -> Result<Answer, OutOfMemory>
        ensures takes { TakesMessage self.old self.new (message.SubscriptionRequest request.now) result }
        ensures reads { self.new.responder.reads ≡ self.old.responder.reads }
    {
        let response = subscribe(self.alloc, &mut self.table, self.responder.now(), request)?;
        self.is_settled = false;
        Ok(Answer::replied(Note::Subscribed, Message::SubscriptionResponse(response)))
    }

    /// A TerminateSubscriptionRequest, which is answered by a status for each subscription.
    pub(crate) fn take_terminations(
        &mut self,
        request: &TerminateSubscriptionRequest,
    ) -> Result<Answer, OutOfMemory>
        ensures takes { TakesMessage self.old self.new (message.TerminateSubscriptionRequest request.now) result }
        ensures reads { self.new.responder.reads ≡ self.old.responder.reads }
    {
        let response = terminate(self.alloc, &mut self.table, self.responder.now(), request)?;
        self.is_settled = false;
        Ok(Answer::replied(
            Note::Ended,
            Message::TerminateSubscriptionResponse(response),
        ))
    }

    /// A DataSupplyRequest, of a part or with AllData.
    pub(crate) fn take_supply_request(
        &mut self,
        request: &DataSupplyRequest,
    ) -> Result<Answer, OutOfMemory>
        ensures takes { TakesMessage self.old self.new (message.DataSupplyRequest request.now) result }
        ensures reads { self.new.responder.reads ≡ self.old.responder.reads }
    {
        if request.all_data {
            self.take_all_data_request(request)
        } else {
            self.take_part_request(request)
        }
    }

    /// A DataSupplyRequest of a part, which is answered by the part, or by why that isn't supplied.
    fn take_part_request(&mut self, request: &DataSupplyRequest) -> Result<Answer, OutOfMemory>
        requires { request.now.all_data ≡ false }
        ensures takes { TakesMessage self.old self.new (message.DataSupplyRequest request.now) result }
        ensures reads { self.new.responder.reads ≡ self.old.responder.reads }
    {
        let start = self.responder.start();
        let now = self.responder.now();
        let name = self.responder.name();
        let answer = supply(self.alloc, &mut self.table, name, start, now, request)?;
        self.is_settled = false;
        Ok(Answer::replied(
            supply_note(answer.outcome),
            Message::ServiceDelivery(answer.delivery),
        ))
    }

    /// A DataSupplyRequest with AllData, which renews the subscription that it names, or is told why it doesn't.
    fn take_all_data_request(&mut self, request: &DataSupplyRequest) -> Result<Answer, OutOfMemory>
        requires { request.now.all_data ≡ true }
        ensures takes { TakesMessage self.old self.new (message.DataSupplyRequest request.now) result }
        ensures reads { self.new.responder.reads ≡ self.old.responder.reads }
    {
        let now = self.responder.now();
        let name = self.responder.name();
        let answer = renew(self.alloc, &mut self.table, name, now, request)?;
        self.is_settled = false;
        Ok(Answer::replied(
            renew_note(answer.outcome),
            Message::ServiceDelivery(answer.delivery),
        ))
    }

    /// A DataReceivedAcknowledgement, which has no reply. It takes no memory.
    pub(crate) fn take_acknowledgement(
        &mut self,
        acknowledgement: &DataReceivedAcknowledgement,
    ) -> Answer
        ensures takes { TakesMessage self.old self.new (message.DataReceivedAcknowledgement acknowledgement.now) (Ok result) }
        ensures reads { self.new.responder.reads ≡ self.old.responder.reads }
    {
        let start = self.responder.start();
        let taken = acknowledge(
            &mut self.table,
            start,
            self.responder.now(),
            acknowledgement,
        );
        self.is_settled = false;
        match taken {
            Taken::Taken => Answer::noted(Note::Acknowledged),
            Taken::NotThis => Answer::noted(Note::NotThis),
        }
    }

    /// A CheckStatusRequest, which is answered by the moment at which the producer started.
    pub(crate) fn take_status_request(
        &mut self,
        request: &CheckStatusRequest,
    ) -> Result<Answer, OutOfMemory>
        ensures takes { TakesMessage self.old self.new (message.CheckStatusRequest request.now) result }
        ensures reads { self.new.responder.reads ≡ self.old.responder.reads }
    {
        let now = self.responder.now();
        let started = self.responder.started();
        let response = status_response(self.responder.name(), now, started, request)?;
        self.is_settled = false;
        Ok(Answer::replied(Note::Checked, Message::CheckStatusResponse(response)))
    }

    /// A ServiceDelivery that is lent. A feed is copied; where there is no memory for that, none of its entries is taken.
    pub(crate) fn take_lent_delivery(
        &mut self,
        delivery: &ServiceDelivery,
    ) -> Result<Answer, OutOfMemory>
        ensures takes { TakesMessage self.old self.new (message.ServiceDelivery delivery.now) result }
        ensures reads { self.new.responder.reads ≡ self.old.responder.reads }
    {
        if delivery.has_round() {
            return Ok(self.ignore());
        }
        match delivery.copy() {
            Ok(delivery) => self.take_feed(delivery),
            Err(OutOfMemory) => {
                self.is_settled = false;
                Err(OutOfMemory)
            }
        }
    }

    /// A ServiceDelivery, which is a feed where it is of no round.
    pub(crate) fn take_delivery(&mut self, delivery: ServiceDelivery) -> Result<Answer, OutOfMemory>
        ensures takes { TakesMessage self.old self.new (message.ServiceDelivery delivery) result }
        ensures reads { self.new.responder.reads ≡ self.old.responder.reads }
    {
        if delivery.has_round() {
            drop(delivery);
            return Ok(self.ignore());
        }
        self.take_feed(delivery)
    }

    /// A ServiceDelivery of no round, whose items are kept.
    fn take_feed(&mut self, mut delivery: ServiceDelivery) -> Result<Answer, OutOfMemory>
        requires { has_round delivery ≡ false }
        ensures takes { TakesMessage self.old self.new (message.ServiceDelivery delivery) result }
        ensures reads { self.new.responder.reads ≡ self.old.responder.reads }
    {
        let identifier = delivery.response_message_identifier.take();
        let fed = self.feed_owned(delivery)?;
        self.acknowledge_feed(identifier, fed)
    }

    /// The answer to a feed that was taken, by its ResponseMessageIdentifier.
    fn acknowledge_feed(&self, identifier: Option<Name>, fed: Fed) -> Result<Answer, OutOfMemory>
        ensures { IfOk result (λ answer. answer ≡ fed_reply self.now.responder.name self.now.responder.moment identifier fed) }
    {
        let now = self.responder.now();
        let name = self.responder.name();
        let reply = feed_acknowledgement(self.alloc, name, now, identifier, fed.full)?;
        Ok(Answer::replied(Note::Fed(fed), Message::DataReceivedAcknowledgement(reply)))
    }

    /// Any other message. Nothing changes, but that an event has begun.
    pub(crate) fn ignore(&mut self) -> Answer
        // It isn't handed the message, so what it does is right for each that is ignored.
        ensures stands { (m : Message) → is_ignored m ≡ true → GoesOn self.old self.new (Take m) }
        ensures answer { (m : Message) → is_ignored m ≡ true → AnswerFor self.old m result }
        ensures name { self.new.responder.name ≡ self.old.responder.name }
        ensures reads { self.new.responder.reads ≡ self.old.responder.reads }
    {
        self.is_settled = false;
        Answer::noted(Note::Ignored)
    }
}

/// What a request for a part is told.
fn supply_note(outcome: Result<(), SupplyError>) -> Note
    ensures { result ≡ supply_note outcome }
{
    match outcome {
        Ok(()) => Note::Supplied,
        Err(SupplyError::NothingReady) => Note::NothingReady,
        Err(SupplyError::WrongPart { wanted }) => Note::WrongPart { wanted },
    }
}

/// What a request for all of a subscription is told.
fn renew_note(outcome: Result<Accepted, RenumberError>) -> Note
    ensures { result ≡ renew_note outcome }
{
    match outcome {
        Ok(_) => Note::Renewed,
        Err(_) => Note::NotRenewed,
    }
}
