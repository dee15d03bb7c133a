//! The rounds of one subscription at its producer (EN 15531-2, subscriptions and deliveries): what its consumer has
//! acknowledged, and what is on its way to it.
//!
//! ```text
//!                     begin                      due, part, sent             (the part, or with fetched
//!     level ----------------------> outstanding --------------------------->  delivery its notification)
//!       ^                             |    ^  |
//!       |                             |    |  +-- supply    the wanted part is fetched
//!       |                             |    |
//!       |                             |    +----- acknowledge of the wanted part, where another follows
//!       +-----------------------------+---------- acknowledge of the last part: the changes are made
//! ```
//!
//! At first nothing is acknowledged, and no round was opened. Where nothing is outstanding a round may begin: it has
//! the next number, a moment, and a list of changes, which lead to another view. The list is cut in parts of a hundred,
//! in its order, and has one empty part where it is empty. One part is wanted: the first that isn't acknowledged. A
//! message of it is due where none was sent yet, or the last one 30 seconds ago or more. What is supplied or
//! acknowledged counts only where it is the wanted part; after the last part the changes are made, in room that was
//! taken before the round began, and the view that they lead to is the acknowledged one.
//!
//! With fetched delivery a notification of a part is sent in its place, and the consumer asks for it: once a part is
//! acknowledged, the consumer asks for the next without a notification, so one is due only 30 seconds later.
//!
//! Contracts see `Rounds` as the slot that a producer keeps of a subscription's life (`Slot` of `siri_life`), of views
//! with their items by key, and of parts as lists of changes: a part that is lent has the very changes of the list that
//! its round began with. To the life belongs of each part what is carried of it: its items, and the removed keys.
//!
//! Stands on `siri_base`, `siri_records`, `siri_change` and `siri_life`. It knows no message, no topic and no store,
//! and it doesn't say when a round opens or what it leads to.

mod answers;
mod kept;
mod parts;

pub use answers::{SupplyError, Taken};
pub use kept::{GREATEST_ROUND, Rounds};
pub use parts::Part;
