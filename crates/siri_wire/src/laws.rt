//! What holds of documents: laws of reading and writing, each the contract of a function that does nothing when it is
//! called.
//!
//! ```text
//!   document --message_of--> message                    exactly where the document spells the message, row by row
//!   message  --canonical---> text --message_of--> the same message, where it is proper and its text isn't too long,
//!                                                 with a line feed at its end or without
//! ```
//!
//! A message that is read is proper, so converting twice is converting once. The tables say what spells their values
//! and which are proper; what spells a document, and which messages are proper, is defined here.

mod deliveries;
mod documents;
mod requests;
mod values;

pub use deliveries::{
    deliveries_are_spelled, journeys_are_spelled, places_are_spelled, removals_are_spelled,
};
pub use documents::{
    canonical_is_read, canonical_line_is_read, converted_is_read, converted_line_is_read,
    document_is_spelled, read_is_proper, written_is_canonical,
};
pub use requests::{statuses_are_spelled, subscriptions_are_spelled, topics_are_spelled};
pub use values::{errors_are_spelled, inner_rows_are_spelled, lists_are_spelled};
