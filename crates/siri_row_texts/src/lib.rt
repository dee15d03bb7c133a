//! The texts of the rows in which a producer keeps what it was fed and whom it serves.
//!
//! ```text
//!   table 0   the empty key                     MOMENT START NAME
//!   table 1   the removal of an item, alone     the item, alone
//!   table 2   a place of 20 digits              the SubscriptionRequest of one subscription, under its base
//!   table 3   the same place                    the request for all of it, where its number isn't the base
//! ```
//!
//! Texts that are messages are canonical documents, so that what reads a document reads a row.
//!
//! Stands on `siri_wire` for documents and on `siri_time` for moments. It knows no shelf and no producer.
#![tactic(auto)]

mod items;
mod laws;
mod moments;
mod places;
mod reading;
mod subscriptions;

pub use items::{item_text, key_text};
pub use laws::{
    each_request_alone_is_proper, item_row_is_read, key_texts_determine_their_keys,
    moment_row_is_read, places_ascend, read_row_is_written, renewal_row_is_read,
    request_row_is_read,
};
pub use moments::{Began, began_of_row, moment_row};
pub use places::place_text;
pub use reading::{item_of_row, renewal_of_row, request_of_row};
pub use subscriptions::{renewal_text, request_text};
