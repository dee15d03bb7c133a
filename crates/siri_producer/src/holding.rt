//! What a producer lends of what it holds: the item of a key, and the subscriptions of its table.
//!
//! ```text
//!     a key                    -> look          ---> the item that is held of it
//!     a place of the table     -> subscription  ---> what was asked for there, its number and its base
//! ```
//!
//! Nothing is copied and no memory is taken: who keeps a producer's items and subscriptions elsewhere reads them so.

ghost use Rattle.std.specs.Prelude.{◌≡◌, slice_get, option_map, ⊤};
ghost use mathlib.Core.Option.{none};
ghost use Rattle.std.specs.Borrow.{sem, follows_so};
ghost use Rattle.siri_records.specs.Keyed.{item_of};
ghost use Rattle.siri_model.specs.Held.{held_of};
ghost use Rattle.siri_producer.specs.Holding.{subscribed_of};
ghost use Rattle.siri_producer.specs.contracts.producer.Producer.{the_row};
ghost use Rattle.siri_store.specs.Held.{counted};
ghost use Rattle.siri_subs.specs.Lent.{entry_of};
ghost use Rattle.siri_subscriptions.specs.Courses.{kept_row};

use crate::Producer;
use siri_base::{Name, Span};
use siri_records::{Item, Key};
use siri_subs::Entry;
use siri_subscriptions::Course;
use siri_topic::Subscription;
use std::rc::Rc;

/// A subscription that is held, lent.
#[derive(Drop)]
pub struct Subscribed<'a> {
    /// The subscription as its subscriber asked for it last.
    pub wanted: &'a Subscription,
    /// The number of its last request: of a SubscriptionRequest, or of an AllData request that came after it.
    pub number: u64,
    /// The number of the SubscriptionRequest that it was accepted by.
    pub base: u64,
    /// Where its deliveries are sent, if its request says so (ConsumerAddress).
    pub address: Option<&'a Name>,
    /// How often a heartbeat is sent, in milliseconds (HeartbeatInterval); zero is never.
    pub beat: Span,
}

impl Producer {
    /// The item that is held of a key, lent, or none. It takes one step of the counter and no memory, and nothing else
    /// changes.
    pub fn look(&mut self, key: &Key) -> Option<&Rc<Item>>
        ensures* step { sem 𝓛 (follows_so the_row the_row self.entry.ghost_name none (λ _ _. ⊤) (λ new. new ≡ record self.old { responder = record self.old.responder { reads = counted self.old.responder.reads 1 } })) }
        ensures item { option_map (λ item. item.now.value) result ≡ item_of self.old.responder.held key.now }
    {
        self.responder.look(key)
    }

    /// The subscription at a place of the table, counted from 0, in order of first acceptance: `None` exactly where the
    /// place isn't below the number of `subscriptions`. It takes no memory.
    pub fn subscription(&self, place: usize) -> Option<Subscribed<'_>>
        ensures { option_map subscribed_of result ≡ option_map held_of (slice_get self.now.table place) }
    {
        match self.table.at(place) {
            Some(row) => Some(lent_of(&row)),
            None => None,
        }
    }
}

/// What is lent of a row.
fn lent_of<'a>(row: &Entry<'a, Course>) -> Subscribed<'a>
    ensures { subscribed_of result ≡ held_of (kept_row (entry_of row.now)) }
{
    Subscribed {
        wanted: row.wanted,
        number: row.number,
        base: row.base,
        address: row.address,
        beat: row.beat,
    }
}
