//! The thirteen messages that a producer and a consumer exchange, as plain values (EN 15531-2).
//!
//! | File | Messages |
//! |---|---|
//! | `requests` | ServiceRequest |
//! | `deliveries` | ServiceDelivery |
//! | `subscriptions` | SubscriptionRequest, SubscriptionResponse |
//! | `terminations` | TerminateSubscriptionRequest, TerminateSubscriptionResponse |
//! | `supplies` | DataReadyNotification, DataReadyAcknowledgement, DataSupplyRequest, DataReceivedAcknowledgement |
//! | `statuses` | CheckStatusRequest, CheckStatusResponse, HeartbeatNotification |
//!
//! Stands on `siri_base`, `siri_records` and `siri_topic`. It reads and writes no text, and doesn't say which message
//! answers which.
#![tactic(auto)]

mod deliveries;
mod message;
mod requests;
mod statuses;
mod subscriptions;
mod supplies;
mod terminations;

pub use deliveries::{FunctionalDelivery, ServiceDelivery};
pub use message::Message;
pub use requests::ServiceRequest;
pub use statuses::{CheckStatusRequest, CheckStatusResponse, HeartbeatNotification};
pub use subscriptions::{ResponseStatus, SubscriptionRequest, SubscriptionResponse};
pub use supplies::{
    DataReadyAcknowledgement, DataReadyNotification, DataReceivedAcknowledgement,
    DataSupplyRequest, Mark,
};
pub use terminations::{
    TerminateSubscriptionRequest, TerminateSubscriptionResponse, TerminationResponseStatus,
};
