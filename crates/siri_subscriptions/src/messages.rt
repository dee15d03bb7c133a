//! What is to be sent of a subscription.

ghost use Rattle.std.specs.Prelude.{◌≡◌, IfOk};
ghost use Rattle.std.specs.Option.{option_copied};
ghost use Rattle.siri_subs.specs.rounds.Wanted.{part_sent, rounds_carried};
ghost use Rattle.siri_subscriptions.specs.Openings.{with_opening, CanOpen};
ghost use Rattle.siri_subscriptions.specs.Messages.{message_due, message_of};

use crate::Opening;
use crate::replies::{part_delivery, part_notification};
use siri_base::{Moment, Name, OutOfMemory};
use siri_messages::Message;
use siri_subs::{Part, Rounds};
use siri_topic::Subscription;
use std::alloc::Global;

/// The message of the wanted part, where one is due at a moment, after the round has opened that a look found, if it
/// found one: with fetched delivery its notification, else the part itself. Nothing changes.
pub fn message_due(
    alloc: Global,
    producer: &Name,
    start: u64,
    wanted: &Subscription,
    number: u64,
    rounds: &Rounds,
    opening: Option<&Opening>,
    now: Moment,
) -> Result<Option<Message>, OutOfMemory>
    requires { CanOpen (option_copied opening) rounds.now }
    ensures { IfOk result (λ message. message ≡ message_due producer.now start wanted.now number now (rounds_carried (with_opening now (option_copied opening.entry) rounds.now))) }
{
    let part = match opening {
        Some(opening) => Some(rounds.first_part(now, &opening.changes)),
        None if rounds.due(now) => rounds.part(),
        None => None,
    };
    match part {
        Some(part) => Ok(Some(message_of(alloc, producer, start, wanted, number, &part)?)),
        None => Ok(None),
    }
}

/// The message of a part.
fn message_of(
    alloc: Global,
    producer: &Name,
    start: u64,
    wanted: &Subscription,
    number: u64,
    part: &Part<'_>,
) -> Result<Message, OutOfMemory>
    ensures { IfOk result (λ message. message ≡ message_of producer.now start wanted.now number (part_sent part.now)) }
{
    if wanted.fetched {
        let notification = part_notification(producer, wanted, number, start, part)?;
        Ok(Message::DataReadyNotification(notification))
    } else {
        let delivery = part_delivery(alloc, producer, wanted, number, start, part)?;
        Ok(Message::ServiceDelivery(delivery))
    }
}
