//! The producer: it is fed and asked, takes messages about subscriptions, and sends each subscriber what changes
//! (EN 15531-2).
//!
//! ```text
//!     a delivery that is fed -> feed   ---+
//!     a later moment         -> clock  ---+--> the current items, the subscriptions with their rounds
//!     a message              -> take   ---+--> and its answer
//!     the end of an event    -> settle ---+--> and what is sent
//!
//!     a ServiceRequest       -> direct ---> a ServiceDelivery with what is shown to each topic
//!     an answer, lent        -> reply_head, lend; supply, part
//!     what it holds, lent    -> look, subscription
//!     a subscription         -> quiet  ---> its number, where its consumer's view is known to be right
//! ```
//!
//! A producer stands for the history of its steps: what it holds are the current items of that history that aren't
//! dead, and its table is that of the lives of the subscriptions in it. It also follows that history: of each
//! subscription it knows the last look, and which keys were touched since then, so that a settle reads few items; once
//! as many were touched as may be held, it may let the look go, since a first one reads no more. An event is a `clock`,
//! a `feed` or a `take`, and a `settle` after it.
//!
//! Stands on `siri_base`, `siri_records`, `siri_topic`, `siri_messages`, `siri_store`, `siri_subs`, `siri_responder`
//! and `siri_subscriptions`; its contracts cite the histories and lives of `siri_model`, and its proofs what follows of
//! them there. It reads and writes no text, and knows no wire and no clock.
#![tactic(auto)]

mod answers;
mod holding;
mod leaving;
mod lending;
mod producer;
mod taking;

pub use answers::{Answer, Note};
pub use holding::Subscribed;
pub use lending::{LentPart, Supplied, is_lent, lent_topic};
pub use producer::Producer;
pub use siri_responder::Fed;
pub use siri_store::MOST_LIVE;
pub use siri_subs::MOST_SUBSCRIPTIONS;
pub use siri_subscriptions::Out;
