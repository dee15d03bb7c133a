//! Visits, journeys, vehicles and situations: what each holds, what it is known by, when it is over, and when two are
//! near.
//!
//! `KeyedItems` holds shared items in order of key, each key once: a store's current items and a subscription's views
//! stand on it.
//!
//! Stands on `siri_base`. It reads and writes no text, and knows no topic, no store and no subscription.
#![tactic(auto)]

mod call;
mod change;
mod ends;
mod entries;
mod item;
mod journey;
mod key;
mod keyed;
mod moments;
mod nearness;
mod room;
mod shared_item;
mod shared_key;
mod situation;
mod vehicle;
mod visit;

pub use call::StopCall;
pub use change::Change;
pub use ends::{closed, dead, end_of, entry_of, moment_of};
pub use item::{Item, Service};
pub use journey::Journey;
pub use key::{Key, key_of, keys_are_in_order};
pub use keyed::KeyedItems;
pub use moments::{Moments, edges_of, ends_of};
pub use nearness::{near, near_items_agree};
pub use room::Room;
pub use shared_item::SharedItem;
pub use shared_key::SharedKey;
pub use situation::{Period, Situation};
pub use vehicle::{Vehicle, VehicleJourney};
pub use visit::{VehicleLocation, Visit, VisitJourney};
