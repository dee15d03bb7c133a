//! What a shelf keeps of a producer, and what a producer that is opened over it goes on with.
//!
//! Table 1 has a row for each item that is held, and for items besides that are dead by now. A feed is kept by one write, of
//! one put for each key that it names; a stop within that write leaves the rows before it or those after it.
//!
//! Rows that keep a history say it again. Who is opened over them is a producer with a greater start, which is fed the kept
//! items and takes the kept requests: it shows and holds what the other would at that moment.
//!
//! Stands on `siri_base`, `siri_records`, `siri_outside`, `siri_row_texts`, `siri_model` and their laws. It has
//! definitions and laws alone.
#![tactic(auto)]

mod held_laws;
mod laws;
mod reopened_laws;

pub use held_laws::{subscriptions_expire, subscriptions_stay};
pub use laws::{
    a_feed_is_kept, a_stop_leaves_a_front, items_are_known_by_their_keys, key_texts_differ,
    live_items_stay_covered, read_rows_are_proper, subscriptions_are_written_whole,
    the_moment_is_written,
};
pub use reopened_laws::{
    a_reopened_producer_holds_the_same, a_reopened_producer_shows_the_same, what_is_kept_is_said,
};
