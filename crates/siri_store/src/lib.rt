//! The store of current items: of each key the item that was last observed of it, shared and in order of key.
//!
//! ```text
//!     item          -> observe   ---+
//!     key           -> withdraw  ---+--> the items in order of key
//!     a later moment -> advance, expire_one
//!
//!     key           -> look      ---> the item of that key         one step
//!     topic         -> select    ---> the items that are shown     a step for each item that is looked at
//!     topic         -> shown     ---> all of them in one call      a step for each that may be shown by its key
//!     service, range -> crossing ---> the items with an edge there a step for each of them
//!     topic, range  -> crossed   ---> in one call those of them that may be shown by their keys, a step for each
//!     topic         -> first     ---> the visits that are shown, by entry and then key
//!                                                                  a step for each visit that is looked at
//!     topic, how many -> first_shown ---> so many of them in one call, a step for each visit of the topic's stop that
//!                                     is looked at
//! ```
//!
//! An item leaves once it is dead at the store's moment: the store's owner moves the moment by `advance` and then lets
//! the dead items go one by one by `expire_one`, before it observes again. No more than 20,000 keys are held.
//!
//! Each held item that a caller gets or that is tested for a topic is counted as a step, by a counter that never falls.
//! No other crate gets hold of the counter or of the items beside it. They lie in one inner type (`counted`), of which
//! the only calls that lend an item count it, and which lends both to the walks that it makes (`selected`, `crossing`,
//! `first`).
//!
//! Beside the store, `marks` has which keys were touched since a look.
//!
//! Stands on `siri_base`, `siri_records` and `siri_topic`. It knows no subscription, no message and no clock.
#![tactic(auto)]

mod candidates;
mod counted;
mod counter;
mod crossing;
mod first;
mod indexed;
mod marks;
mod order_numbers;
mod selected;
mod stamps;
mod store;
mod walk;

pub use candidates::{asked, may_be_shown};
pub use crossing::Crossing;
pub use first::First;
pub use marks::{Marks, marks_touch_their_keys};
pub use selected::Selected;
pub use store::{MOST_LIVE, ObserveError, Store};
