//! What happens in a world.

use siri_base::{Moment, Name, Span};
use siri_messages::{ServiceDelivery, ServiceRequest};
use siri_topic::Subscription;

/// What happens in a world. The name of a consumer is 1 to 64 letters, digits, `_` or `-`, and isn't `producer`.
#[derive(Drop)]
pub enum Event {
    /// The producer starts anew at this moment, which is its ServiceStartedTime. The number of its start is one more
    /// than the last; it holds no item and no subscription. The moments of the consumers become the later.
    Start(Moment),
    /// The moments of the producer and of all consumers become the later.
    Clock(Moment),
    /// The producer is fed a delivery of no round.
    Feed(ServiceDelivery),
    /// The producer is asked for a direct response.
    Ask(ServiceRequest),
    /// A consumer asks for a subscription under its next number (EN 15531-2, SubscriptionRequest), whose subscriber it
    /// is. At its first use the consumer is made, without an address; its first number is 1.
    Subscribe {
        consumer: Name,
        wanted: Subscription,
        /// HeartbeatInterval, in milliseconds; zero isn't written.
        beat: Span,
    },
    /// A consumer ends a subscription that it holds, under its next number (EN 15531-2, TerminateSubscriptionRequest).
    Terminate {
        consumer: Name,
        identifier: Name,
    },
    /// A consumer restarts. It keeps its name, its moment and its next number, and of each subscription that it holds
    /// what it asked for and the base, the number of that request; views, starts, rounds and buffered parts are lost.
    /// It asks for all of each (EN 15531-2, DataSupplyRequest with AllData), in order of the bytes of the identifiers,
    /// each under its next number.
    Restart {
        consumer: Name,
    },
    /// A consumer asks whether the producer is there (EN 15531-2, CheckStatusRequest).
    Status {
        consumer: Name,
    },
    /// The packet of this number reaches its receiver, whatever was delivered before. Packets are numbered from 1.
    Deliver(u64),
    /// It is told what a consumer shows of a subscription. Nothing changes.
    View {
        consumer: Name,
        identifier: Name,
    },
}
