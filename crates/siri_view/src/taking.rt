//! What a consumer does with a message.

ghost use Rattle.std.specs.Prelude.{◌≡◌, ◌≤◌, [], ◌∷◌, IfOk, OnOk, OnErr};
ghost use Rattle.siri_life.specs.Life.{Acknowledge};
ghost use Rattle.siri_life.specs.Link.{then_supply};
ghost use Rattle.siri_view.specs.Changing.{TakesNothing};
ghost use Rattle.siri_view.specs.Consuming.{after_message, after_heard, seen_of, seen_by, seen_in_notification, replies_by, told_of, told_of_part};
ghost use Rattle.siri_view.specs.Hearing.{delivery_heard};
ghost use Rattle.siri_view.specs.Heard.{delivered_by, after_part, seen_in_part, IsWanted};
ghost use Rattle.siri_view.specs.Kept.{meaning, kept_of};
ghost use Rattle.siri_view.specs.Marks.{mark_by, said};
ghost use Rattle.siri_view.specs.Sending.{acknowledgement, ready_acknowledgement, supply_request};
ghost use Rattle.siri_life.specs.Meaning.{most_parts};

use crate::hearing::{Delivered, numbers_of, part_of};
use crate::marks::{Numbers, Saying, next};
use crate::messages::{acknowledgement, ready_acknowledgement, supply_request};
use crate::part::Part;
use crate::subscribed::Subscribed;
use crate::{Consumer, Outcome, Seen};
use siri_base::{Copies, List, Name, OutOfMemory, Place};
use siri_messages::{Message, ServiceDelivery};

impl Consumer {
    /// Takes a message, and gives what it was to the consumer and the replies to it. Only a part of a round that is
    /// wanted changes the consumer: it is buffered, or with it its round is applied to the view, all parts at once.
    /// After want of memory the consumer is as before.
    ///
    /// A ServiceDelivery is copied first, so that its items can be kept; `take_owned` takes one that is handed over.
    pub fn take(&mut self, message: &Message) -> Result<Seen, OutOfMemory>
        ensures consumer { OnOk result (self.new ≡ after_message self.old message.now) }
        ensures seen { IfOk result (λ seen. seen ≡ seen_of self.old message.now) }
        ensures same { IfOk result (λ seen. TakesNothing seen.outcome → self.new ≡ self.old) }
        ensures refused { OnErr result (self.new ≡ self.old) }
    {
        match message {
            Message::ServiceDelivery(delivery) => {
                let delivery = delivery.copy()?;
                self.take_delivery(delivery)
            }
            Message::DataReadyNotification(notification) => {
                let mark = &notification.extensions;
                self.take_notification(&mark.subscription, numbers_of(mark))
            }
            Message::SubscriptionResponse(_)
            | Message::TerminateSubscriptionResponse(_)
            | Message::CheckStatusResponse(_)
            | Message::HeartbeatNotification(_) => Ok(self.without_reply(Outcome::Noted)),
            _ => Ok(self.without_reply(Outcome::NotForMe)),
        }
    }

    /// As `take`, of a message that is handed over: the items of a part are kept and none is copied.
    pub fn take_owned(&mut self, message: Message) -> Result<Seen, OutOfMemory>
        ensures consumer { OnOk result (self.new ≡ after_message self.old message) }
        ensures seen { IfOk result (λ seen. seen ≡ seen_of self.old message) }
        ensures same { IfOk result (λ seen. TakesNothing seen.outcome → self.new ≡ self.old) }
        ensures refused { OnErr result (self.new ≡ self.old) }
    {
        if let Message::ServiceDelivery(_) = &message {
            let Some(delivery) = message.into_service_delivery() else {
                unreachable!()
            };
            return self.take_delivery(delivery);
        }
        let seen = self.take(&message);
        drop(message);
        seen
    }

    /// A ServiceDelivery, which may be a part of a round.
    fn take_delivery(&mut self, delivery: ServiceDelivery) -> Result<Seen, OutOfMemory>
        ensures consumer { OnOk result (self.new ≡ after_heard self.old (delivery_heard delivery)) }
        ensures seen { IfOk result (λ seen. seen ≡ seen_by self.old (delivery_heard delivery)) }
        ensures same { IfOk result (λ seen. TakesNothing seen.outcome → self.new ≡ self.old) }
        ensures refused { OnErr result (self.new ≡ self.old) }
    {
        match part_of(delivery) {
            Some(delivered) => self.take_delivered(delivered),
            None => Ok(self.without_reply(Outcome::Noted)),
        }
    }

    /// A part of a round is delivered.
    fn take_delivered(&mut self, delivered: Delivered) -> Result<Seen, OutOfMemory>
        ensures consumer { OnOk result (self.new ≡ after_heard self.old (delivered_by delivered)) }
        ensures seen { IfOk result (λ seen. seen ≡ seen_by self.old (delivered_by delivered)) }
        ensures same { IfOk result (λ seen. TakesNothing seen.outcome → self.new ≡ self.old) }
        ensures refused { OnErr result (self.new ≡ self.old) }
    {
        if delivered.subscriber == self.name {
            self.take_own_delivery(delivered)
        } else {
            drop(delivered);
            Ok(self.without_reply(Outcome::UnknownSubscription))
        }
    }

    /// A part of a round is delivered to this consumer.
    fn take_own_delivery(&mut self, delivered: Delivered) -> Result<Seen, OutOfMemory>
        ensures consumer { OnOk result (self.new ≡ after_part self.old delivered) }
        ensures seen { IfOk result (λ seen. seen ≡ seen_in_part self.old delivered) }
        ensures same { IfOk result (λ seen. TakesNothing seen.outcome → self.new ≡ self.old) }
        ensures refused { OnErr result (self.new ≡ self.old) }
    {
        let mark = delivered.mark;
        let Some(kept) = self.held.get(&delivered.identifier) else {
            drop(delivered);
            return Ok(self.without_reply(Outcome::UnknownSubscription));
        };
        let saying = kept.say(mark);
        let outcome = told(kept, saying, told_of_part(mark, delivered.more));
        match saying {
            Saying::Wanted => {
                let asks = delivered.more && kept.is_fetched();
                self.take_part(delivered, asks)
            }
            Saying::Repeat => {
                let acknowledged = self.acknowledged(&delivered.identifier, mark);
                drop(delivered);
                Ok(Seen {
                    outcome,
                    replies: acknowledged?,
                })
            }
            Saying::UnknownSubscription | Saying::OldStart | Saying::Gap | Saying::Overlong => {
                drop(delivered);
                Ok(self.without_reply(outcome))
            }
        }
    }

    /// The wanted part is taken, acknowledged, and the next one is asked for or not.
    fn take_part(&mut self, delivered: Delivered, asks: bool) -> Result<Seen, OutOfMemory>
        requires small { delivered.mark.part ≤ most_parts }
        requires wanted { IsWanted delivered asks (kept_of delivered.identifier self.old.held) }
        ensures consumer { OnOk result (self.new ≡ after_part self.old delivered) }
        ensures seen { IfOk result (λ seen. seen ≡ seen_in_part self.old delivered) }
        ensures taken { IfOk result (λ seen. TakesNothing seen.outcome → ⊥) }
        ensures refused { OnErr result (self.new ≡ self.old) }
    {
        let Delivered {
            subscriber: _,
            identifier,
            mark,
            more,
            items,
            removals,
        } = delivered;
        let part = Part::of(self.held.allocator(), items, removals)?;
        let replies = self.replies_to_part(&identifier, mark, asks)?;
        match self.held.take(&identifier, mark, more, part) {
            Ok(()) => Ok(Seen {
                outcome: told_of_part(mark, more),
                replies,
            }),
            Err(OutOfMemory) => {
                drop(replies);
                Err(OutOfMemory)
            }
        }
    }

    /// A part can be fetched.
    fn take_notification(&self, identifier: &Name, mark: Numbers) -> Result<Seen, OutOfMemory>
        ensures { IfOk result (λ seen. seen ≡ seen_in_notification self.now identifier.now (kept_of identifier.now self.now.held) (mark_by mark)) }
    {
        let Some(kept) = self.held.get(identifier) else {
            return Ok(self.without_reply(Outcome::UnknownSubscription));
        };
        let saying = kept.say(mark);
        let outcome = told(kept, saying, Outcome::Ready);
        match saying {
            Saying::Wanted => Ok(Seen {
                outcome,
                replies: self.fetching(identifier, mark)?,
            }),
            Saying::Repeat => Ok(Seen {
                outcome,
                replies: self.acknowledged(identifier, mark)?,
            }),
            Saying::UnknownSubscription | Saying::OldStart | Saying::Gap | Saying::Overlong => {
                Ok(self.without_reply(outcome))
            }
        }
    }

    /// An acknowledgement of a part.
    fn acknowledged(&self, identifier: &Name, mark: Numbers) -> Result<List<Message>, OutOfMemory>
        ensures { IfOk result (λ made. made ≡ acknowledgement self.now.name self.now.moment identifier.now (mark_by mark) ∷ []) }
    {
        let mut replies = List::new(self.held.allocator());
        replies.push(acknowledgement(&self.name, self.moment, identifier, mark)?)?;
        Ok(replies)
    }

    /// An acknowledgement of a part, and a request of the one after it or not.
    fn replies_to_part(
        &self,
        identifier: &Name,
        mark: Numbers,
        asks: bool,
    ) -> Result<List<Message>, OutOfMemory>
        requires { mark.part ≤ most_parts }
        ensures { IfOk result (λ made. made ≡ replies_by self.now identifier.now (Acknowledge (mark_by mark) ∷ then_supply meaning asks (mark_by mark))) }
    {
        let mut replies = self.acknowledged(identifier, mark)?;
        if asks {
            replies.push(supply_request(&self.name, self.moment, identifier, next(mark))?)?;
        }
        Ok(replies)
    }

    /// A notification is acknowledged, and its part asked for.
    fn fetching(&self, identifier: &Name, mark: Numbers) -> Result<List<Message>, OutOfMemory>
        ensures { IfOk result (λ made. made ≡ ready_acknowledgement self.now.name self.now.moment ∷ supply_request self.now.name self.now.moment identifier.now (mark_by mark) ∷ []) }
    {
        let mut replies = List::new(self.held.allocator());
        replies.push(ready_acknowledgement(&self.name, self.moment)?)?;
        replies.push(supply_request(&self.name, self.moment, identifier, mark)?)?;
        Ok(replies)
    }

    /// An outcome of which the producer hears nothing.
    fn without_reply(&self, outcome: Outcome) -> Seen
        ensures { result ≡ record { outcome = outcome; replies = [] } }
    {
        Seen {
            outcome,
            replies: List::new(self.held.allocator()),
        }
    }
}

/// What is told of a part, where this is told of a wanted one.
fn told(kept: &Subscribed, saying: Saying, wanted: Outcome) -> Outcome
    ensures { result ≡ told_of (said saying) kept.now wanted }
{
    match saying {
        Saying::UnknownSubscription => Outcome::UnknownSubscription,
        Saying::OldStart => Outcome::OldStart,
        Saying::Gap => Outcome::Gap {
            wanted: kept.wanted_place(),
        },
        Saying::Repeat => Outcome::Repeat,
        Saying::Overlong => Outcome::Overlong,
        Saying::Wanted => wanted,
    }
}

/// What is told of a wanted part that is delivered.
fn told_of_part(mark: Numbers, more: bool) -> Outcome
    ensures { result ≡ told_of_part more (mark_by mark) }
{
    if more {
        Outcome::Buffered {
            place: Place {
                round: mark.round,
                part: mark.part,
            },
        }
    } else {
        Outcome::Applied { round: mark.round }
    }
}
