//! What a world is and what happens in it, as types and definitions: one producer, which starts anew now and then, up
//! to sixteen consumers, and a network between them that keeps every packet that was ever sent (EN 15531-2).
//!
//! ```text
//!     Start, Clock, Feed, Ask -----> the producer ----- settles, replies ------+
//!                                        ^                                     v
//!                                        |            Deliver N       packets, numbered from 1
//!                                        +----------------+--------------- as they are sent
//!                                        |                |                    ^
//!                                        |                v                    |
//!     Subscribe, Terminate, Restart, ---------> the consumers --- requests, replies
//!     Status, View
//! ```
//!
//! An event happens at a time, and tells lines. The packets that it sends are told after what else it tells. A packet
//! is delivered as often as an event says so, in any order, to whichever start of the producer is the latest; one that
//! no event delivers is lost. After each moment, feed or message that it took the producer settles; a start and an ask
//! are followed by no settle.
//!
//! What a consumer shows of a subscription is told by the rounds of the producer, never by what changes made of a view:
//! the items are the goal of the round that the view belongs to.
//!
//! Stands on `siri_base`, `siri_records`, `siri_topic`, `siri_messages`, `siri_life`, `siri_model`, `siri_producer` and
//! `siri_view`. It has the types of events and lines, the definitions of what an event does, and in `laws` what holds
//! of every world; `siri_world` has the code.
#![tactic(auto)]

mod event;
mod laws;
mod line;
mod step_error;
mod word;

pub use event::Event;
pub use laws::{
    a_second_settle_changes_nothing, changes_wait_for_the_round, consumer_restarts, ended_lives,
    no_gap_is_shown, other_packets_change_nothing,
    other_subscriptions_and_their_settles_change_nothing, other_subscriptions_change_nothing,
    packets_carry_their_rounds, parts_are_taken_once, quiet_views, quiet_views_are_direct,
    quiet_views_meet, repeated_parts_change_no_view, repeats, requests,
    requests_are_answered_directly, restarts, sixteen_consumers_subscribe, small_changes_wait,
    starts_are_numbered, terminations, two_consumers, views_are_goals, worlds_are_networks,
};
pub use line::Line;
pub use step_error::StepError;
pub use word::Word;
