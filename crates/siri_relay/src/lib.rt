//! A relay: a hub between agencies, which subscribes to one source and serves subscribers of its own (EN 15531-2).
//!
//! ```text
//!     a subscription -> open -----> the SubscriptionRequest for the source
//!     a later moment -> clock --+
//!     a message      -> take ---+-> what it was to the consumer, or what the producer answers to it
//!     the end of an event -> settle --> what is sent to subscribers
//!
//!     the source -> consumer --view--> removals first, then items --feeds--> producer -> subscribers
//! ```
//!
//! A consumer holds the upstream subscription, and a producer is fed what its view has. Where the relay is level, the
//! producer's live items are those of the view that aren't dead. A relay falls behind where memory is wanting on the way,
//! or where the view has more than 20,000 items; each later `clock` and `take` feeds first what is missing.
//!
//! Stands on `siri_base`, `siri_records`, `siri_topic`, `siri_change`, `siri_messages`, `siri_subscriptions`,
//! `siri_producer` and `siri_view`; its contracts cite the histories of `siri_model`. It reads and writes no text, and
//! knows no wire and no clock.
#![tactic(auto)]

mod answers;
mod feeding;
mod laws;
mod naming;
mod relay;
mod taking;

pub use answers::{OpenError, RelayAnswer};
pub use laws::{
    a_level_relay_shows_its_view, items_are_near_the_source, kinds_have_one_end, near_adds_up,
};
pub use relay::Relay;
