//! Documents: messages as JSON texts, both ways.
//!
//! ```text
//!   bytes --siri_json::read_tree--> tree --message--> Message      decode
//!   bytes --json::Reader--> tokens --ServiceDelivery--> Message    decode, where it isn't refused
//!   bytes <-siri_json::Output <-written--- Message      encode
//! ```
//!
//! Each message is a table (EN 15531-2); subscriptions, statuses and marks are tables inside them, topics and
//! deliveries those of `siri_deliveries`. The files `read_*` have the tables as they are read, `write_*` as they are
//! written; the definition of each stands in `specs/`, row beside row. A document is refused at the first place in the
//! order of the tables, depth first; what no table names is passed over.
//!
//! Stands on `siri_tables`, which has the rules of values and rows and the refusals, on `siri_deliveries` for the
//! tables of topics and deliveries, on `siri_messages`, `siri_topic` and `siri_records` for what is read and written,
//! and on `siri_base` and `siri_json`. It keeps no state, knows no clock and no connection, and reads and writes whole
//! documents alone. What holds of documents stands in `laws`.
#![tactic(auto)]

mod document;
mod encoding;
mod frame;
mod incoming;
mod kinds;
mod laws;
mod read_requests;
mod read_statuses;
mod read_subscriber;
mod read_subscriptions;
mod read_supplies;
mod read_terminations;
mod wanted;
mod write_requests;
mod write_statuses;
mod write_subscriptions;
mod write_supplies;
mod write_terminations;
mod write_values;

pub use document::{DecodeError, Refusal, decode};
pub use encoding::encode;
pub use frame::reply_frame;
pub use laws::{
    canonical_is_read, canonical_line_is_read, converted_is_read, converted_line_is_read,
    deliveries_are_spelled, document_is_spelled, errors_are_spelled, inner_rows_are_spelled,
    journeys_are_spelled, lists_are_spelled, places_are_spelled, read_is_proper,
    removals_are_spelled, statuses_are_spelled, subscriptions_are_spelled, topics_are_spelled,
    written_is_canonical,
};
pub use siri_deliveries::{
    ChangePieces, DeliveryHead, FramePiece, ItemPieces, change_pieces, item_pieces,
};
pub use wanted::{Wanted, WantedError, decode_wanted};
