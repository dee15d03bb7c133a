//! A producer without its subscriptions: it keeps the current items of what it is fed, and answers what is shown of
//! them (EN 15531-2, request and response).
//!
//! ```text
//!     a delivery that is fed -> feed    ---+
//!     a later moment         -> clock   ---+--> the live current items, and marks of keys
//!
//!     a ServiceRequest       -> direct  ---> a ServiceDelivery with what is shown to each topic
//!     a topic                -> lend    ---> the items that are shown to it, one by one, in order of key
//!                            -> direct_to -> its direct response in one call, by key
//!     a number               -> marked  ---> of each key that was marked under it or a later one the held item, or none
//!     a topic and a moment   -> crossed ---> the items that an end of its window crossed since then, by key
//! ```
//!
//! It stands for the history of its steps: what it holds are the current items of that history that aren't dead. A
//! direct response ([`response_to`]) is the one that the definitions of `siri_model` give for what the store holds:
//! what is shown of the live items is what is shown of all. Of the store only its counter of steps changes.
//!
//! A key is marked where an entry of a feed names it, be the entry taken or refused, and where its item dies: under a
//! number, which `turn` raises. What memory a mark may want is taken while the entry is: `clock` takes none.
//!
//! Stands on `siri_base`, `siri_records`, `siri_topic`, `siri_messages` and `siri_store`; its contracts cite the
//! histories of `siri_model`, and its proofs what follows of them there. It reads and writes no text, and knows no wire
//! and no clock.
#![tactic(auto)]

mod answers;
mod directs;
mod feeding;
mod looks;
mod responder;
mod response;
mod soonest;

pub use feeding::Fed;
pub use responder::Responder;
pub use response::response_to;
