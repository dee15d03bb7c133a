//! What a producer says of itself and of a feed.

ghost use Rattle.std.specs.Prelude.{◌≡◌, IfOk};
ghost use Rattle.siri_subscriptions.specs.replies.Statuses.{feed_acknowledgement, full_text, heartbeat, status_response};

use crate::replies::Refusal;
use siri_base::{Copies, Moment, Name, OutOfMemory, Text};
use siri_messages::{
    CheckStatusRequest, CheckStatusResponse, DataReceivedAcknowledgement, HeartbeatNotification,
};
use std::alloc::Global;

/// The answer at a moment to the question whether the producer is there (CheckStatusResponse): it is, since the moment
/// of its start.
#[tactic(auto, unfolding(crate::specs::replies::Statuses::status_response))]
pub fn status_response(
    producer: &Name,
    now: Moment,
    started: Moment,
    request: &CheckStatusRequest,
) -> Result<CheckStatusResponse, OutOfMemory>
    ensures { IfOk result (λ response. response ≡ status_response producer.now now started request.now) }
{
    Ok(CheckStatusResponse {
        response_timestamp: Some(now),
        producer_ref: Some(producer.copy()?),
        request_message_ref: request.message_identifier.copy()?,
        status: true,
        service_started_time: Some(started),
    })
}

/// A heartbeat at a moment (HeartbeatNotification), with the moment of the producer's start.
#[tactic(auto, unfolding(crate::specs::replies::Statuses::heartbeat))]
pub fn heartbeat(
    producer: &Name,
    now: Moment,
    started: Moment,
) -> Result<HeartbeatNotification, OutOfMemory>
    ensures { IfOk result (λ beat. beat ≡ heartbeat producer.now now started) }
{
    Ok(HeartbeatNotification {
        request_timestamp: Some(now),
        producer_ref: Some(producer.copy()?),
        status: true,
        service_started_time: Some(started),
    })
}

/// The answer at a moment to a feed, by its ResponseMessageIdentifier, of which so many items were refused
/// (DataReceivedAcknowledgement): Status is false exactly where there are some.
#[tactic(auto, unfolding(crate::specs::replies::Statuses::feed_acknowledgement))]
pub fn feed_acknowledgement(
    alloc: Global,
    producer: &Name,
    now: Moment,
    identifier: Option<Name>,
    full: u64,
) -> Result<DataReceivedAcknowledgement, OutOfMemory>
    ensures { IfOk result (λ answer. answer ≡ feed_acknowledgement producer.now now identifier full) }
{
    let consumer_ref = producer.copy()?;
    let error_condition = full_text(alloc, full)?;
    Ok(DataReceivedAcknowledgement {
        response_timestamp: Some(now),
        consumer_ref: Some(consumer_ref),
        request_message_ref: identifier,
        status: full == 0,
        error_condition,
        extensions: None,
    })
}

/// The ErrorText where some items were refused.
fn full_text(alloc: Global, full: u64) -> Result<Option<Text>, OutOfMemory>
    ensures { IfOk result (λ text. text ≡ full_text full) }
{
    if full == 0 {
        return Ok(None);
    }
    let text = Refusal::StoreFull { full }.text(alloc)?;
    Ok(Some(text))
}
