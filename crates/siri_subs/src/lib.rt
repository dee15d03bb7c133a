//! The subscription table: what a producer holds of each subscription, in order of first acceptance (EN 15531-2).
//!
//! ```text
//!     a request under a number   -> accept  ---+
//!     a termination              -> end     ---+--> the entries, each subscription once
//!     a request for all data     -> renumber --+
//!     a moment                   -> expire  ---+
//!
//!     a place                    -> at, at_mut    ---> what is held there
//!     subscriber, identifier     -> place_of      ---> where it is held
//! ```
//!
//! A subscription is known by its subscriber and its identifier. Its subscriber numbers its requests, so that a request
//! that comes again isn't taken for a renewal, and one that comes late doesn't undo a later one. A
//! request for all data puts an acceptance under a number of its own; it names it by its *base*, the number of the
//! SubscriptionRequest that was accepted. At most 200 subscriptions are held, and the memory for them is taken when the
//! table is made.
//!
//! With each entry the table keeps a slot, which is its owner's own: the table never looks into it.
//!
//! When the next heartbeat of a subscription is due is said by its [`Beats`]; what its consumer has acknowledged and
//! what is on its way are its [`Rounds`].
//!
//! Stands on `siri_base` and `siri_topic`, and for rounds on `siri_records`, `siri_change` and `siri_life`. It knows no
//! message and no clock: moments are handed in; the table and the heartbeats know no item.
#![tactic(auto)]

mod beats;
mod entry;
mod errors;
mod laws;
mod rounds;
mod table;

pub use beats::Beats;
pub use entry::{Entry, Row};
pub use errors::{AcceptError, Accepted, EndError, RenumberError};
pub use laws::slots_decide_nothing;
pub use rounds::{GREATEST_ROUND, Part, Rounds, SupplyError, Taken};
pub use table::{MOST_SUBSCRIPTIONS, Table};
