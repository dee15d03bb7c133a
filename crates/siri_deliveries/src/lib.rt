//! Topics and deliveries as JSON: what EN 15531-3 and CEN/TS 15531-5 say of each functional service, both ways.
//!
//! ```text
//!   tree --topic--> Topic    tree, tokens --ServiceDelivery--> FunctionalDelivery --> Item, Key
//!   tokens <-written-        tokens <-----------written---------------
//! ```
//!
//! Each is a table: the topics that are asked for, the ServiceDelivery that answers, in it the deliveries of the four
//! services, and in these the items, cancellations and removals. The files `read_*` have the tables as they are read,
//! `write_*` as they are written; the definition of each stands in `specs/`, row beside row. Here, too, stand the names
//! of all members that messages have, and what the messages of `siri_wire` share with deliveries: errors, flags, texts
//! that are absent.
//!
//! A ServiceDelivery is read from its tree, or as its tokens come ([`Incoming`]): then each item is read from a tree of its
//! own, which goes before the next comes, so that no tree of many items is there. By the second way nothing is told of why
//! a delivery is refused.
//!
//! Stands on `siri_tables`, which has the rules of values and rows and the refusals, on `siri_items` for the tables of
//! items, on `siri_messages`, `siri_topic` and `siri_records` for what is read and written, and on `siri_base` and
//! `siri_json`. It keeps no state, knows no document, no clock and no connection.
#![tactic(auto)]

mod absence;
mod frame;
mod incoming;
mod incoming_deliveries;
mod laws;
mod layout;
pub mod names;
mod pieces;
mod read_deliveries;
mod read_error;
mod read_frames;
mod read_parts;
mod read_removals;
mod read_topics;
mod write_deliveries;
mod write_entries;
mod write_topics;
mod write_values;

pub use absence::lacks;
pub use frame::{FramePiece, cut, write_frame};
pub use incoming::{Incoming, NotRead};
pub use laws::members_are_spelled;
pub use pieces::{
    ChangePieces, DeliveryHead, ItemPieces, ItemStage, Listed, Stage, change_pieces, item_pieces,
};
pub use read_deliveries::ServiceDeliveryTable;
pub use read_error::error_condition;
pub use read_topics::{
    SituationTopicTable, StopTopicTable, TimetableTopicTable, VehicleTopicTable,
};
pub use write_deliveries::write_service_delivery;
pub use write_topics::TopicWriting;
pub use write_values::{ErrorWriting, true_row};
