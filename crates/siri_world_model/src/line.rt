//! What is told of an event.

use crate::Word;
use siri_base::Name;
use siri_messages::Message;
use siri_producer::Fed;
use siri_records::Item;
use siri_view::{AskError, Held};
use std::rc::Rc;

/// What is told of an event.
#[derive(Drop)]
pub enum Line {
    /// The producer started, with this number, which counts from 1.
    Started(u64),
    /// What was taken of a feed.
    Fed(Fed),
    /// The direct response to what was asked, a ServiceDelivery.
    Answer(Message),
    /// A packet was sent. It has a number, which counts from 1, and a receiver: `producer`, or a consumer. The message
    /// is shared with the network, which keeps it.
    Packet {
        number: u64,
        to: Name,
        message: Rc<Message>,
    },
    /// A consumer doesn't ask: its numbers are used up (`Spent`), or it would hold more than 200 subscriptions
    /// (`TooMany`).
    Refused {
        consumer: Name,
        error: AskError,
    },
    /// There is no such consumer, or it doesn't hold the subscription.
    Unknown {
        consumer: Name,
        identifier: Option<Name>,
    },
    /// A packet reached its receiver, `producer` or a consumer, which says this of it.
    Took {
        receiver: Name,
        word: Word,
    },
    /// No packet of this number was sent.
    NoPacket(u64),
    /// What a consumer shows of a subscription. The items follow, each as an `Item`.
    View {
        consumer: Name,
        identifier: Name,
        /// The round whose target the view is; all its numbers are 0 where there is none.
        held: Held,
        /// How many items are shown, at most 20,000.
        items: u64,
        /// The subscription is quiet at the producer, under the number under which the consumer holds it.
        quiet: bool,
    },
    /// An item of the view that was told of last, in order of key.
    Item(Rc<Item>),
}
