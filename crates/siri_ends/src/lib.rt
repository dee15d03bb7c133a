//! The ends of the exchange over HTTP: what a producer or a consumer answers to whoever connects to it, and what it
//! sends.
//!
//! ```text
//!   a connection -> take_turn: what it asks is taken, the answer written, and the connection hung up; then what comes of it
//!   messages     -> send_all:  posted one after the other; what is answered is heard, and what that brings joins them
//!
//!                 a producer (serve_one)                              a consumer (consume_one)
//!   takes         the message, and settles                            the message
//!   answers       what the message is answered                        the first reply
//!   sends then    what was settled, each to its address               the further replies, to the producer's address
//!   hears         an acknowledgement, which is taken and settled      each message, whose replies are sent
//! ```
//!
//! Both are one turn over the trait [`Taker`], which is stated and proved once; a relay and a producer over a shelf are such
//! ends in crates above. What stands beside an end, as a shelf, is lent to it where it takes a message, and keeps what that
//! changes before anything is answered. What an end hears may depend on what it sent. A run of an end gives it a moment
//! before each turn, and tells it where a turn is over.
//!
//! What a producer holds is not copied for an answer: the items of a direct response and the changes of a supplied part are
//! written from what the producer lends after it settled. The length stands before them, in the head: a short text is
//! kept as its length is taken, a longer one is walked over twice.
//!
//! What a request asks where queries by GET are answered, too, is said in `lite`.
//!
//! A call is a function of what the wire brings and of the producer's history, or of the consumer: its contract says
//! which bytes go to which connection, which addresses are dialled, and what is counted. It ends well, or for want of
//! memory, or as what stands beside the end, a shelf, failed; what a peer does ends none.
//!
//! Stands on `siri_http` for one exchange over one connection, on `siri_wire` for documents and their pieces, on
//! `siri_producer` and on `siri_view`, whose consumer's contracts see it as a record, on `siri_store`, `siri_subs` and
//! `siri_subscriptions` for what a producer lends, and on `siri_base`, `siri_records` and `siri_messages` for what
//! passes between them. It accepts no connection, asks no clock, and waits no bounded time.
#![tactic(auto)]

mod answering;
mod consuming;
mod hanging_up;
mod lending;
mod lite;
mod reply;
mod response;
mod sending;
mod serving;
mod sink;
mod taker;
mod turning;

pub use answering::{Brought, brought_by, finish};
pub use consuming::{consume_one, send_up, split_replies};
pub use hanging_up::{a_consumer_hangs_up_before_it_dials, a_producer_hangs_up_before_it_dials};
pub use lite::{
    PostOrQuery, a_connection_in_its_place_is_answered_alike, a_get_asks_what_its_post_asks,
    a_get_of_an_unknown_path_is_refused, a_query_is_read_as_its_post,
    all_else_asks_what_it_asks_without_queries,
};
pub use reply::{Reply, reply_to};
pub use response::{Response, refusing, replying};
pub use sending::send_all;
pub use serving::serve_one;
pub use siri_http::{PostAlone, Tally};
pub use taker::Taker;
pub use turning::take_turn;
