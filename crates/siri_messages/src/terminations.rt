//! Requests to end subscriptions, and their answers.

ghost use Rattle.std.specs.Prelude.{◌≡◌};

use siri_base::{Copies, List, Moment, Name, OutOfMemory, Text};

/// A request to end subscriptions (EN 15531-2, TerminateSubscriptionRequest).
pub struct TerminateSubscriptionRequest {
    pub request_timestamp: Option<Moment>,
    pub requestor_ref: Option<Name>,
    /// The number under which the end is asked for.
    pub message_identifier: u64,
    pub subscriber_ref: Name,
    /// The identifiers of the subscriptions that are to end.
    pub subscription_ref: List<Name>,
}

impl Drop for TerminateSubscriptionRequest {
    fn drop(self) {
        let TerminateSubscriptionRequest {
            request_timestamp: _,
            requestor_ref: _,
            message_identifier: _,
            subscriber_ref: _,
            subscription_ref: _,
        } = self;
    }
}

/// The answer to a request to end subscriptions (EN 15531-2, TerminateSubscriptionResponse).
pub struct TerminateSubscriptionResponse {
    pub response_timestamp: Option<Moment>,
    pub request_message_ref: Option<Name>,
    /// One status for each subscription that was to end.
    pub termination_response_status: List<TerminationResponseStatus>,
}

impl Drop for TerminateSubscriptionResponse {
    fn drop(self) {
        let TerminateSubscriptionResponse {
            response_timestamp: _,
            request_message_ref: _,
            termination_response_status: _,
        } = self;
    }
}

/// What became of a subscription that was to end (EN 15531-2, TerminationResponseStatus).
pub struct TerminationResponseStatus {
    pub subscriber_ref: Option<Name>,
    pub subscription_ref: Option<Name>,
    pub status: bool,
    /// The ErrorText of its ErrorCondition.
    pub error_condition: Option<Text>,
}

impl Drop for TerminationResponseStatus {
    fn drop(self) {
        let TerminationResponseStatus {
            subscriber_ref: _,
            subscription_ref: _,
            status: _,
            error_condition: _,
        } = self;
    }
}

impl Copies for TerminateSubscriptionRequest {
    fn copy(&self) -> Result<Self, OutOfMemory> {
        Ok(TerminateSubscriptionRequest {
            request_timestamp: self.request_timestamp,
            requestor_ref: self.requestor_ref.copy()?,
            message_identifier: self.message_identifier,
            subscriber_ref: self.subscriber_ref.copy()?,
            subscription_ref: self.subscription_ref.copy()?,
        })
    }
}

impl Copies for TerminateSubscriptionResponse {
    fn copy(&self) -> Result<Self, OutOfMemory> {
        Ok(TerminateSubscriptionResponse {
            response_timestamp: self.response_timestamp,
            request_message_ref: self.request_message_ref.copy()?,
            termination_response_status: self.termination_response_status.copy()?,
        })
    }
}

impl Copies for TerminationResponseStatus {
    fn copy(&self) -> Result<Self, OutOfMemory> {
        Ok(TerminationResponseStatus {
            subscriber_ref: self.subscriber_ref.copy()?,
            subscription_ref: self.subscription_ref.copy()?,
            status: self.status,
            error_condition: self.error_condition.copy()?,
        })
    }
}
