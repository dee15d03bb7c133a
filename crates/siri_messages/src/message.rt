//! One of the messages.

ghost use Rattle.std.specs.Prelude.{◌≡◌};
ghost use Rattle.siri_messages.specs.Kinds.{kind_of, service_delivery_of, service_request_of};

use crate::{
    CheckStatusRequest, CheckStatusResponse, DataReadyAcknowledgement, DataReadyNotification,
    DataReceivedAcknowledgement, DataSupplyRequest, HeartbeatNotification, ServiceDelivery,
    ServiceRequest, SubscriptionRequest, SubscriptionResponse, TerminateSubscriptionRequest,
    TerminateSubscriptionResponse,
};
use siri_base::{Copies, OutOfMemory};

/// A message (EN 15531-2).
pub enum Message {
    ServiceRequest(ServiceRequest),
    ServiceDelivery(ServiceDelivery),
    SubscriptionRequest(SubscriptionRequest),
    SubscriptionResponse(SubscriptionResponse),
    TerminateSubscriptionRequest(TerminateSubscriptionRequest),
    TerminateSubscriptionResponse(TerminateSubscriptionResponse),
    DataReadyNotification(DataReadyNotification),
    DataReadyAcknowledgement(DataReadyAcknowledgement),
    DataSupplyRequest(DataSupplyRequest),
    DataReceivedAcknowledgement(DataReceivedAcknowledgement),
    CheckStatusRequest(CheckStatusRequest),
    CheckStatusResponse(CheckStatusResponse),
    HeartbeatNotification(HeartbeatNotification),
}

impl Drop for Message {
    fn drop(self) {
        match self {
            Message::ServiceRequest(_) => {}
            Message::ServiceDelivery(_) => {}
            Message::SubscriptionRequest(_) => {}
            Message::SubscriptionResponse(_) => {}
            Message::TerminateSubscriptionRequest(_) => {}
            Message::TerminateSubscriptionResponse(_) => {}
            Message::DataReadyNotification(_) => {}
            Message::DataReadyAcknowledgement(_) => {}
            Message::DataSupplyRequest(_) => {}
            Message::DataReceivedAcknowledgement(_) => {}
            Message::CheckStatusRequest(_) => {}
            Message::CheckStatusResponse(_) => {}
            Message::HeartbeatNotification(_) => {}
        }
    }
}

impl Message {
    /// The message's name, under which a document holds it.
    pub fn kind(&self) -> &'static str
        ensures { result.now ≡ kind_of self.now }
    {
        match self {
            Message::ServiceRequest(_) => "ServiceRequest",
            Message::ServiceDelivery(_) => "ServiceDelivery",
            Message::SubscriptionRequest(_) => "SubscriptionRequest",
            Message::SubscriptionResponse(_) => "SubscriptionResponse",
            Message::TerminateSubscriptionRequest(_) => "TerminateSubscriptionRequest",
            Message::TerminateSubscriptionResponse(_) => "TerminateSubscriptionResponse",
            Message::DataReadyNotification(_) => "DataReadyNotification",
            Message::DataReadyAcknowledgement(_) => "DataReadyAcknowledgement",
            Message::DataSupplyRequest(_) => "DataSupplyRequest",
            Message::DataReceivedAcknowledgement(_) => "DataReceivedAcknowledgement",
            Message::CheckStatusRequest(_) => "CheckStatusRequest",
            Message::CheckStatusResponse(_) => "CheckStatusResponse",
            Message::HeartbeatNotification(_) => "HeartbeatNotification",
        }
    }

    /// The delivery, where it is one; any other message is let go of.
    pub fn into_service_delivery(self) -> Option<ServiceDelivery>
        ensures { result ≡ service_delivery_of self }
    {
        match self {
            Message::ServiceDelivery(delivery) => Some(delivery),
            _ => None,
        }
    }

    /// The request for deliveries, where it is one; any other message is let go of.
    pub fn into_service_request(self) -> Option<ServiceRequest>
        ensures { result ≡ service_request_of self }
    {
        match self {
            Message::ServiceRequest(request) => Some(request),
            _ => None,
        }
    }
}

impl Copies for Message {
    fn copy(&self) -> Result<Self, OutOfMemory> {
        match self {
            Message::ServiceRequest(m) => Ok(Message::ServiceRequest(m.copy()?)),
            Message::ServiceDelivery(m) => Ok(Message::ServiceDelivery(m.copy()?)),
            Message::SubscriptionRequest(m) => Ok(Message::SubscriptionRequest(m.copy()?)),
            Message::SubscriptionResponse(m) => Ok(Message::SubscriptionResponse(m.copy()?)),
            Message::TerminateSubscriptionRequest(m) => {
                Ok(Message::TerminateSubscriptionRequest(m.copy()?))
            }
            Message::TerminateSubscriptionResponse(m) => {
                Ok(Message::TerminateSubscriptionResponse(m.copy()?))
            }
            Message::DataReadyNotification(m) => Ok(Message::DataReadyNotification(m.copy()?)),
            Message::DataReadyAcknowledgement(m) => {
                Ok(Message::DataReadyAcknowledgement(m.copy()?))
            }
            Message::DataSupplyRequest(m) => Ok(Message::DataSupplyRequest(m.copy()?)),
            Message::DataReceivedAcknowledgement(m) => {
                Ok(Message::DataReceivedAcknowledgement(m.copy()?))
            }
            Message::CheckStatusRequest(m) => Ok(Message::CheckStatusRequest(m.copy()?)),
            Message::CheckStatusResponse(m) => Ok(Message::CheckStatusResponse(m.copy()?)),
            Message::HeartbeatNotification(m) => Ok(Message::HeartbeatNotification(m.copy()?)),
        }
    }
}
