//! The commands over the network: a producer or a consumer for so many connections.
//!
//! ```text
//!   keeper -> raise  -- the number of its start --+
//!   wire   -> listen                              +--> a producer       (serving), or a consumer that has asked for
//!   clock  -> now    -- its first moment ---------+         |            what the lines of its source want  (consuming)
//!                                                           v
//!   wire -> accept, clock -> now   --------------->  the turns of siri_ends (take_turn), COUNT of them
//!                                                           |
//!                                                           v
//!                     the views of a consumer, and the counts (write_summary) --> sink
//! ```
//!
//! The contracts of `serve` and `consume` say which calls of the outside are made, what each connection is answered,
//! what is sent where, what is counted and written, and which status ends the run: by the producer's history or the
//! consumer's state, turn after turn. A call of the outside that fails ends a run with a `NetworkError`, which is a
//! status.
//!
//! A run of another end, also of one that a shelf stands beside, is made of the same parts: it opens by `raise`, `listen`
//! and `now`, answers by `run_turns` over its own [`Taker`](siri_ends::Taker), and ends by `write_summary`. What a run
//! does is said once, of whichever command (`Run` in specs/): a command says how its run opens or fails to, how its end
//! takes a turn, and what is written and left at the end, which is its `Procedure`.
//!
//! Stands on `siri_ends` for a turn of a `siri_producer` or of a consumer (`siri_view`), on `siri_lines` and
//! `siri_document` for lines and for the texts of views and items, on `siri_wire` and `siri_messages` for what is
//! wanted, and on `siri_base`, `siri_http`, `siri_topic` and `siri_change` for what these speak of. It knows no socket
//! and no file.
#![tactic(auto)]

mod calls;
mod consuming;
mod network_error;
mod serving;
mod summary;
mod turns;

pub use calls::{listen, now, raise};
pub use consuming::{consume, own_address, read_wanted, write_views};
pub use network_error::NetworkError;
pub use serving::serve;
pub use summary::write_summary;
pub use turns::run_turns;
