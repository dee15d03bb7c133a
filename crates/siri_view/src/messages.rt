//! The messages that a consumer makes.

ghost use Rattle.std.specs.Prelude.{◌≡◌, Some, None, IfOk};
ghost use Rattle.siri_view.specs.Marks.{mark_by};
ghost use Rattle.siri_view.specs.Sending.{acknowledgement, all_data_request, check_request, mark_of, ready_acknowledgement, supply_request, termination_request};

use crate::marks::Numbers;
use siri_base::{Copies, List, Moment, Name, OutOfMemory};
use siri_messages::{
    CheckStatusRequest, DataReadyAcknowledgement, DataReceivedAcknowledgement, DataSupplyRequest,
    Mark, Message, TerminateSubscriptionRequest,
};
use std::alloc::Global;

/// The mark of a part of a subscription.
fn mark_of(identifier: &Name, mark: Numbers) -> Result<Mark, OutOfMemory>
    ensures { IfOk result (λ made. made ≡ mark_of identifier.now (mark_by mark)) }
{
    Ok(Mark {
        number: mark.number,
        start: mark.start,
        round: mark.round,
        part: mark.part,
        subscription: identifier.copy()?,
    })
}

/// The part was taken.
pub(crate) fn acknowledgement(
    name: &Name,
    now: Moment,
    identifier: &Name,
    mark: Numbers,
) -> Result<Message, OutOfMemory>
    ensures { IfOk result (λ made. made ≡ acknowledgement name.now now identifier.now (mark_by mark)) }
{
    Ok(Message::DataReceivedAcknowledgement(DataReceivedAcknowledgement {
        response_timestamp: Some(now),
        consumer_ref: Some(name.copy()?),
        request_message_ref: None,
        status: true,
        error_condition: None,
        extensions: Some(mark_of(identifier, mark)?),
    }))
}

/// The part is asked for.
pub(crate) fn supply_request(
    name: &Name,
    now: Moment,
    identifier: &Name,
    mark: Numbers,
) -> Result<Message, OutOfMemory>
    ensures { IfOk result (λ made. made ≡ supply_request name.now now identifier.now (mark_by mark)) }
{
    Ok(Message::DataSupplyRequest(DataSupplyRequest {
        request_timestamp: Some(now),
        consumer_ref: name.copy()?,
        all_data: false,
        extensions: mark_of(identifier, mark)?,
    }))
}

/// All of a subscription is asked for under a number: of the one that was accepted by the SubscriptionRequest of number
/// `base`, which stands in the place of a round.
pub(crate) fn all_data_request(
    name: &Name,
    now: Moment,
    identifier: &Name,
    number: u64,
    base: u64,
) -> Result<Message, OutOfMemory>
    ensures { IfOk result (λ made. made ≡ all_data_request name.now now identifier.now number base) }
{
    Ok(Message::DataSupplyRequest(DataSupplyRequest {
        request_timestamp: Some(now),
        consumer_ref: name.copy()?,
        all_data: true,
        extensions: Mark {
            number,
            start: 0,
            round: base,
            part: 0,
            subscription: identifier.copy()?,
        },
    }))
}

/// A notification was taken.
pub(crate) fn ready_acknowledgement(name: &Name, now: Moment) -> Result<Message, OutOfMemory>
    ensures { IfOk result (λ made. made ≡ ready_acknowledgement name.now now) }
{
    Ok(Message::DataReadyAcknowledgement(DataReadyAcknowledgement {
        response_timestamp: Some(now),
        consumer_ref: Some(name.copy()?),
        status: true,
    }))
}

/// Whether the producer is there.
pub(crate) fn check_request(name: &Name, now: Moment) -> Result<Message, OutOfMemory>
    ensures { IfOk result (λ made. made ≡ check_request name.now now) }
{
    Ok(Message::CheckStatusRequest(CheckStatusRequest {
        request_timestamp: Some(now),
        requestor_ref: Some(name.copy()?),
        message_identifier: None,
    }))
}

/// One subscription is to end.
pub(crate) fn termination_request(
    alloc: Global,
    name: &Name,
    now: Moment,
    number: u64,
    identifier: &Name,
) -> Result<Message, OutOfMemory>
    ensures { IfOk result (λ made. made ≡ termination_request name.now now number identifier.now) }
{
    let mut subscriptions = List::new(alloc);
    subscriptions.push(identifier.copy()?)?;
    Ok(Message::TerminateSubscriptionRequest(TerminateSubscriptionRequest {
        request_timestamp: Some(now),
        requestor_ref: Some(name.copy()?),
        message_identifier: number,
        subscriber_ref: name.copy()?,
        subscription_ref: subscriptions,
    }))
}
