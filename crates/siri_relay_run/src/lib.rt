//! The command `relay`: a relay over HTTP for so many connections.
//!
//! ```text
//!   keeper -> raise   -- the number of its start --+
//!   source -> one line -- what it is to ask for ---+--> a relay that has asked, and its request (opening)
//!   wire   -> listen, clock -> now                 |         |
//!                                                            v
//!   wire -> accept, clock -> now --> a message is taken, and the relay settles; the answer is written
//!                                                            |
//!                     further replies -> the upstream address, then what was settled -> the subscribers
//!                                                            |
//!     what is answered to these is heard: of the source each message, of a subscriber an acknowledgement; a settle follows
//!                                                            v
//!                             the view of its consumer, and the counts --> sink
//! ```
//!
//! A turn is that of `siri_ends` over a [`Taker`](siri_ends::Taker) of this crate, in whose contracts a history stands in
//! the place of the relay's producer. What it sends is a [`Going`]: up to its source, or down to a subscriber; by that it is
//! told where the message goes, and what of the answer is taken.
//!
//! Stands on `siri_relay` for the relay, which joins a `siri_view` and a `siri_producer`, on `siri_ends` and `siri_http` for
//! a turn, on `siri_runs` for what a run over the network is made of, on `siri_wire` and `siri_messages` for what is wanted
//! and said, and on `siri_base`. It knows no socket and no file.
#![tactic(auto)]

mod going;
mod opening;
mod running;
mod taking;

pub use going::Going;
pub use running::relay;
