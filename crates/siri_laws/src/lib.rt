//! What holds from one end of the program to the other, over what the crates below promise, and of a producer and a consumer that
//! run as programs of their own: each law is the contract of a function that does nothing when it is called.
//!
//! ```text
//!   document --convert--> text --convert--> the same text
//!   proper feeds and a proper request --response--> a proper delivery --canonical--> text --message_of--> that delivery
//!   a proper item --item_line--> its line                 of no other proper item
//!   a history --settle--> what is due --settle--> nothing
//!   a history --settle without memory--> that history
//!   a request --text over HTTP--> a connection            that brings this request
//!   a request --query by GET--> a document                that asks what the request asks
//!   a run of lite --in place of each query its POST--> a run of serve
//!
//!   single steps of either end, in whatever order -> a link after them -+-> what the consumer's view is, and where it meets
//!                                                                       +-> what each packet carries
//!   a run of `serve`, `lite` or `consume` -> its log, what it did in order -+-> the producer's history, the consumer
//!                                                                           +-> what its connections brought, what was said
//!   two logs, which connection of one is which of the other -> an order in which nothing is taken before it is said
//! ```
//!
//! A world takes whole events: what a producer is given is settled at once. A running producer is given a moment, takes a
//! message, and settles then, and the steps of its consumer stand between these. So where the two ends run by themselves each
//! step is one of its own.
//!
//! Stands on the crates whose definitions the laws speak of, from `siri_base` to `siri_runs`. It has no other code, and nothing
//! stands on it.
#![tactic(auto)]

mod document_laws;
mod history_laws;
mod http_laws;
mod item_laws;
mod link_laws;
mod lite_laws;
mod log_laws;
mod query_laws;
mod run_laws;
mod settle_laws;
mod small_links;
mod small_runs;

pub use document_laws::converting_twice_is_converting_once;
pub use history_laws::{answer_is_read, feed_is_proper, response_is_proper};
pub use http_laws::{
    a_connection_brings_one_request, a_get_is_read_as_written, a_post_is_read_as_written,
};
pub use item_laws::item_lines_determine_their_items;
pub use link_laws::{running_ends_meet_where_quiet, running_ends_show_no_gap, schedules_are_steps};
pub use lite_laws::{
    a_document_has_a_post, a_known_path_is_served_as_by_serve,
    each_connection_has_one_in_its_place, queries_are_served_as_posts,
};
pub use log_laws::{a_consumer_is_as_its_log_tells, a_producer_is_as_its_log_tells};
pub use query_laws::queries_are_requests;
pub use run_laws::{consumers_have_logs, producers_have_logs};
pub use settle_laws::{a_refused_settle_changes_nothing, a_second_settle_sends_nothing};
pub use small_links::{
    links_become_quiet, links_outlive_a_lost_acknowledgement, links_outlive_their_consumer,
    links_outlive_their_producer,
};
pub use small_runs::{
    a_consumer_that_comes_back_is_in_order, a_lost_acknowledgement_is_in_order,
    an_exchange_is_in_order, strangers_end_nothing,
};
