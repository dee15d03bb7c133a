//! What holds of every subscription between a producer that starts anew now and then, its consumer, and a network that
//! loses, repeats and reorders: each law is the contract of a function that does nothing when it is called.
//!
//! ```text
//!     starts, restarts, clocks, feeds,     -> a network after them -+-> what a consumer's view is, and where it meets
//!     requests, packets lost, repeated                              +-> what each packet carries
//!                                                                   +-> what is said of a packet that comes again
//!     a producer's history                 -> what it serves       ---> what other subscriptions change of it: nothing
//! ```
//!
//! They hold of any views, parts and wanted subscriptions whose laws are those of `IsLawful`: that the parts of a round
//! lead to its target, that there is one at least and 400 at most, and that the empty view and each target are views.
//! Nothing is asked of what is near.
//!
//! How the laws are proved: `proofs/Facts.antt` has what holds at every moment between the two ends of one
//! subscription, `Moves` that the producer's steps keep it, `Takes` that the consumer's do, `Steps` that each event
//! does; `Claims` what follows. `Sees` and `Fits` show that a network, as one subscription of it sees it, is such a
//! link. No law says that a packet comes: all of them hold where each one is lost. Small schedules that run are in
//! `schedules`.

mod links;
mod networks;
mod producers;
mod schedules;

pub use links::{
    link_carries_its_rounds, link_meets_where_quiet, link_shows_no_gap, link_takes_parts_once,
    link_view_is_goal,
};
pub use networks::{
    consumers_restart, no_gap_is_shown, packets_carry_their_rounds, parts_are_taken_once,
    views_are_goals, views_meet_where_quiet,
};
pub use producers::{
    networks_serve_as_their_producer, other_subscriptions_change_nothing, producers_serve_alone,
    second_settle_does_nothing,
};
pub use schedules::{
    direct_rounds, expired_bases, fetched_rounds, heartbeats, numbers, restarts, starts,
};
