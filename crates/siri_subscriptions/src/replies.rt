//! The messages that a producer makes besides the answers to a ServiceRequest, each from the values that it says (EN
//! 15531-2).
//!
//! ```text
//!     what became of each subscription -> accepted_status, refused_status -> subscription_response
//!     what became of each end of one   -> ended_status, unknown_status    -> termination_response
//!
//!     a part of a round                -> part_delivery, part_notification
//!     what changes carry               -> items_in, removals_in
//!     a part that isn't supplied       -> refused_supply
//!     a request for all data           -> all_data_response
//!
//!     what a feed was told             -> feed_acknowledgement
//!     its start and its moment         -> status_response, heartbeat
//! ```
//!
//! Each function makes one message, or one status of one, and takes memory only for what that owns. What it takes by
//! value it moves in; nothing else changes. So a producer may make all that it is going to say before it changes
//! anything.
//!
//! Stands on `siri_base`, `siri_records`, `siri_topic`, `siri_messages` and `siri_change`, and on the refusals of
//! `siri_subs`. It doesn't say when a message is sent, and reads and writes no text.

mod number;
mod parts;
mod refusal;
mod responses;
mod statuses;

pub use number::number_text;
pub use parts::{
    all_data_response, items_in, part_delivery, part_notification, refused_supply, removals_in,
};
pub use refusal::Refusal;
pub use responses::{
    accepted_status, ended_status, refused_status, subscription_response, termination_response,
    unknown_status,
};
pub use statuses::{feed_acknowledgement, heartbeat, status_response};
