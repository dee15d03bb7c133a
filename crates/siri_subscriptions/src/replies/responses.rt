//! Answers to requests for subscriptions, and to requests to end them.

ghost use Rattle.std.specs.Prelude.{◌≡◌, ℕ, IfOk};
ghost use Rattle.siri_subscriptions.specs.replies.Responses.{accepted_status, ended_status, number_text, refused_status, subscription_response, termination_response, unknown_status};

use crate::replies::Refusal;
use siri_base::{Copies, List, Moment, Name, OutOfMemory};
use siri_messages::{
    ResponseStatus, SubscriptionResponse, TerminateSubscriptionResponse, TerminationResponseStatus,
};
use std::alloc::Global;

/// The status of a subscription that is held until a moment (ResponseStatus with ValidUntil).
#[tactic(auto, unfolding(crate::specs::replies::Responses::accepted_status))]
pub fn accepted_status(
    subscriber: &Name,
    identifier: &Name,
    valid_until: Moment,
) -> Result<ResponseStatus, OutOfMemory>
    ensures { IfOk result (λ status. status ≡ accepted_status subscriber.now identifier.now valid_until) }
{
    Ok(ResponseStatus {
        subscriber_ref: Some(subscriber.copy()?),
        subscription_ref: Some(identifier.copy()?),
        status: true,
        valid_until: Some(valid_until),
        error_condition: None,
    })
}

/// The status of a subscription that is refused (ResponseStatus with Status false).
#[tactic(auto, unfolding(crate::specs::replies::Responses::refused_status))]
pub fn refused_status(
    alloc: Global,
    subscriber: &Name,
    identifier: &Name,
    why: Refusal,
) -> Result<ResponseStatus, OutOfMemory>
    ensures { IfOk result (λ status. status ≡ refused_status subscriber.now identifier.now why) }
{
    Ok(ResponseStatus {
        subscriber_ref: Some(subscriber.copy()?),
        subscription_ref: Some(identifier.copy()?),
        status: false,
        valid_until: None,
        error_condition: Some(why.text(alloc)?),
    })
}

/// The answer at a moment to a request for subscriptions, with a status for each, by the text of its number
/// (SubscriptionResponse). It takes no memory.
#[tactic(auto, unfolding(crate::specs::replies::Responses::subscription_response))]
pub fn subscription_response(
    now: Moment,
    number: Name,
    statuses: List<ResponseStatus>,
) -> SubscriptionResponse
    ensures { (n : ℕ) → number ≡ number_text n → result ≡ subscription_response now n statuses }
{
    SubscriptionResponse {
        response_timestamp: Some(now),
        request_message_ref: Some(number),
        response_status: statuses,
    }
}

/// The status of a subscription that was ended (TerminationResponseStatus).
#[tactic(auto, unfolding(crate::specs::replies::Responses::ended_status))]
pub fn ended_status(
    subscriber: &Name,
    identifier: &Name,
) -> Result<TerminationResponseStatus, OutOfMemory>
    ensures { IfOk result (λ status. status ≡ ended_status subscriber.now identifier.now) }
{
    Ok(TerminationResponseStatus {
        subscriber_ref: Some(subscriber.copy()?),
        subscription_ref: Some(identifier.copy()?),
        status: true,
        error_condition: None,
    })
}

/// The status of a subscription that was to end and isn't held under a smaller number (TerminationResponseStatus with
/// Status false).
#[tactic(auto, unfolding(crate::specs::replies::Responses::unknown_status))]
pub fn unknown_status(
    alloc: Global,
    subscriber: &Name,
    identifier: &Name,
) -> Result<TerminationResponseStatus, OutOfMemory>
    ensures { IfOk result (λ status. status ≡ unknown_status subscriber.now identifier.now) }
{
    Ok(TerminationResponseStatus {
        subscriber_ref: Some(subscriber.copy()?),
        subscription_ref: Some(identifier.copy()?),
        status: false,
        error_condition: Some(Refusal::UnknownSubscription.text(alloc)?),
    })
}

/// The answer at a moment to a request to end subscriptions, with a status for each, by the text of its number
/// (TerminateSubscriptionResponse). It takes no memory.
#[tactic(auto, unfolding(crate::specs::replies::Responses::termination_response))]
pub fn termination_response(
    now: Moment,
    number: Name,
    statuses: List<TerminationResponseStatus>,
) -> TerminateSubscriptionResponse
    ensures { (n : ℕ) → number ≡ number_text n → result ≡ termination_response now n statuses }
{
    TerminateSubscriptionResponse {
        response_timestamp: Some(now),
        request_message_ref: Some(number),
        termination_response_status: statuses,
    }
}
