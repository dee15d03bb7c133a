//! The consumer: what it holds of its subscriptions, what it says of the messages that reach it, and what it replies
//! (EN 15531-2, subscriptions and deliveries).
//!
//! ```text
//!     subscriptions, an interval  -> subscribe --> SubscriptionRequest           ---+
//!     an identifier               -> terminate --> TerminateSubscriptionRequest     |
//!                                    restart   --> DataSupplyRequest with AllData   +---> to the producer
//!                                    check     --> CheckStatusRequest            ---+
//!
//!     a message -> take --> an outcome, and the replies to the sender (`take_owned` of one that is handed over)
//!                    |
//!                    v
//!     an identifier -> view, held, current --> the view, the round that it is of, the number it is held under
//! ```
//!
//! A consumer numbers its requests, and holds each subscription under the number of the last one that asked for it. Of
//! a subscription it keeps the greatest start of the producer that a part came of, the last whole round of that start,
//! the parts that came of the next one, and the view, with the round that it is of. It is in one of these states:
//!
//! ```text
//!     asked      no part came since it was asked for: part 1 of round 1 of any start is wanted
//!     level      so many rounds are whole, and no part of the next: its part 1 is wanted
//!     between    some parts of the next round came: the part after them is wanted
//!
//!     a message of                     wanted part, more follow   wanted last part   before it   past it   smaller start
//!     ------------------------------   ------------------------   ----------------   ---------   -------   -------------
//!     the kept start: a delivery       Buffered: between          Applied: level     Repeat      Gap       OldStart
//!     the kept start: a notification   Ready                      Ready              Repeat      Gap       OldStart
//! ```
//!
//! Of a greater start part 1 of round 1 is wanted, and any other place shows a gap; where it is delivered the greater
//! start is kept from then on, with no whole round and no part before it. A part past 400, or of a round past
//! 999,999,999,999,999,999, is Overlong. Only Buffered and Applied change anything. A round is applied whole, all its
//! parts at once: to the empty view where it is round 1 or the updates aren't incremental, else to the view held. What
//! was taken is acknowledged, and acknowledged again where it comes again; with fetched delivery the next part is asked
//! for as well.
//!
//! After `restart` each subscription is asked, under a new number, and its view is empty: what a consumer keeps of it is
//! what was asked for and the base, the number of the SubscriptionRequest, by which the producer knows what to renew.
//!
//! Stands on `siri_base`, `siri_records`, `siri_topic`, `siri_change`, `siri_messages` and `siri_life`, whose words its
//! contracts cite. It knows no wire, no clock and no text of a document: moments and messages are handed in.
#![tactic(auto)]

mod asked;
mod asking;
mod consumer;
mod hearing;
mod holdings;
mod laws;
mod marks;
mod messages;
mod outcome;
mod part;
mod subscribed;
mod taking;

pub use consumer::{Consumer, MOST_HELD};
pub use laws::{other_outcomes_change_nothing, outcomes_come_by_the_table};
pub use outcome::{AskError, Held, Outcome, Seen};
