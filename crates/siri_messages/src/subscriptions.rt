//! Requests for subscriptions, and their answers.

ghost use Rattle.std.specs.Prelude.{◌≡◌};

use siri_base::{Copies, List, Moment, Name, OutOfMemory, Span, Text};
use siri_topic::Subscription;

/// A request for subscriptions (EN 15531-2, SubscriptionRequest). Each list has subscriptions to topics of its service.
pub struct SubscriptionRequest {
    pub request_timestamp: Option<Moment>,
    pub requestor_ref: Option<Name>,
    /// The number under which the subscriptions are asked for.
    pub message_identifier: u64,
    /// Where deliveries are to be sent.
    pub consumer_address: Option<Name>,
    /// The HeartbeatInterval of its SubscriptionContext.
    pub heartbeat_interval: Option<Span>,
    pub stop_monitoring_subscription_request: List<Subscription>,
    pub estimated_timetable_subscription_request: List<Subscription>,
    pub vehicle_monitoring_subscription_request: List<Subscription>,
    pub situation_exchange_subscription_request: List<Subscription>,
}

impl Drop for SubscriptionRequest {
    fn drop(self) {
        let SubscriptionRequest {
            request_timestamp: _,
            requestor_ref: _,
            message_identifier: _,
            consumer_address: _,
            heartbeat_interval: _,
            stop_monitoring_subscription_request: _,
            estimated_timetable_subscription_request: _,
            vehicle_monitoring_subscription_request: _,
            situation_exchange_subscription_request: _,
        } = self;
    }
}

/// The answer to a request for subscriptions (EN 15531-2, SubscriptionResponse).
pub struct SubscriptionResponse {
    pub response_timestamp: Option<Moment>,
    pub request_message_ref: Option<Name>,
    /// One status for each subscription that was asked for.
    pub response_status: List<ResponseStatus>,
}

impl Drop for SubscriptionResponse {
    fn drop(self) {
        let SubscriptionResponse {
            response_timestamp: _,
            request_message_ref: _,
            response_status: _,
        } = self;
    }
}

/// What became of a subscription that was asked for (EN 15531-2, ResponseStatus).
pub struct ResponseStatus {
    pub subscriber_ref: Option<Name>,
    pub subscription_ref: Option<Name>,
    pub status: bool,
    /// The moment at which the subscription is over.
    pub valid_until: Option<Moment>,
    /// The ErrorText of its ErrorCondition.
    pub error_condition: Option<Text>,
}

impl Drop for ResponseStatus {
    fn drop(self) {
        let ResponseStatus {
            subscriber_ref: _,
            subscription_ref: _,
            status: _,
            valid_until: _,
            error_condition: _,
        } = self;
    }
}

impl Copies for SubscriptionRequest {
    fn copy(&self) -> Result<Self, OutOfMemory> {
        Ok(SubscriptionRequest {
            request_timestamp: self.request_timestamp,
            requestor_ref: self.requestor_ref.copy()?,
            message_identifier: self.message_identifier,
            consumer_address: self.consumer_address.copy()?,
            heartbeat_interval: self.heartbeat_interval,
            stop_monitoring_subscription_request: self.stop_monitoring_subscription_request.copy()?,
            estimated_timetable_subscription_request: self
                .estimated_timetable_subscription_request
                .copy()?,
            vehicle_monitoring_subscription_request: self
                .vehicle_monitoring_subscription_request
                .copy()?,
            situation_exchange_subscription_request: self
                .situation_exchange_subscription_request
                .copy()?,
        })
    }
}

impl Copies for SubscriptionResponse {
    fn copy(&self) -> Result<Self, OutOfMemory> {
        Ok(SubscriptionResponse {
            response_timestamp: self.response_timestamp,
            request_message_ref: self.request_message_ref.copy()?,
            response_status: self.response_status.copy()?,
        })
    }
}

impl Copies for ResponseStatus {
    fn copy(&self) -> Result<Self, OutOfMemory> {
        Ok(ResponseStatus {
            subscriber_ref: self.subscriber_ref.copy()?,
            subscription_ref: self.subscription_ref.copy()?,
            status: self.status,
            valid_until: self.valid_until,
            error_condition: self.error_condition.copy()?,
        })
    }
}
