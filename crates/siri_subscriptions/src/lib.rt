//! A producer's subscriptions (EN 15531-2): what it keeps of each, what a message about them does, and what a settle
//! sends.
//!
//! ```text
//!     SubscriptionRequest          -> subscribe    ---+
//!     TerminateSubscriptionRequest -> terminate    ---+--> the table of subscriptions, and the answer
//!     DataSupplyRequest            -> supply       ---+
//!        of a part that is lent    -> supply_lent  ---+
//!        with AllData              -> renew        ---+
//!     DataReceivedAcknowledgement  -> acknowledge  ---+
//!
//!     the responder, the table     -> settle       ---> what is sent, to whom; each row after it
//!
//!     and for one subscription:
//!
//!     what is shown, the rounds    -> look         ---> the round that is to open, where one is due
//!     that round, the rounds       -> message_due  ---> the message of the wanted part, where one is due
//!
//!     that round                   -> move_on      ---> the rounds, with what was sent
//! ```
//!
//! A [`Course`] is the slot of a row of the table (`siri_subs`): the rounds of the subscription, when its last
//! heartbeat was, and whether its consumer's view was level at the last look. Contracts see it as it is kept; what of
//! it belongs to the life of the subscription is told by `kept`, in the words of `siri_model`.
//!
//! A request may ask for many subscriptions. All memory that its answer may need is taken before the first is accepted,
//! and the part that is supplied is made before it counts as sent, so after want of memory the table is as it was. So
//! are both answers that a request for all of a subscription may get.
//!
//! The first look at a subscription goes over all that is shown to its topic. Each later one reads only the stored
//! items whose keys were touched since the last and those of which an end of the topic's window passed an edge, and
//! where a round opens that has all items, those of its target. A [`Looked`] keeps the moment of the last look and the
//! number of marks after it. Where nothing changed, a look reads nothing and takes no memory.
//!
//! A settle is two passes over the table. In the first each subscription looks and says what is to be sent, which takes
//! all memory and changes nothing of the table; in the second each moves on, which takes none. So after want of memory
//! the table is as it was.
//!
//! Stands on `siri_base`, `siri_records`, `siri_topic`, `siri_messages`, `siri_change`, `siri_subs` and
//! `siri_responder`; its contracts cite the words of `siri_model` for what a message and a settle do to the rows of a
//! table. What is done with a message (`acknowledgements`, `prepared`, `renewals`, `requests`, `supplies`,
//! `terminations`) knows no item and no store. The messages that a producer makes besides the answers to a
//! ServiceRequest are those of `replies`.
#![tactic(auto)]

mod acknowledgements;
mod again;
mod course;
mod due;
mod limited;
mod looks;
mod messages;
mod outs;
mod prepared;
mod renewals;
mod replies;
mod requests;
mod settling;
mod supplies;
mod terminations;
mod touched;

pub use acknowledgements::acknowledge;
pub use course::{Course, Looked};
pub use looks::{Finding, Opening, look, move_on};
pub use messages::message_due;
pub use outs::Out;
pub use renewals::{RenewAnswer, renew};
pub use replies::{
    Refusal, accepted_status, all_data_response, ended_status, feed_acknowledgement, heartbeat,
    items_in, number_text, part_delivery, part_notification, refused_status, refused_supply,
    removals_in, status_response, subscription_response, termination_response, unknown_status,
};
pub use requests::subscribe;
pub use settling::settle;
pub use supplies::{SupplyAnswer, supply, supply_lent};
pub use terminations::terminate;
