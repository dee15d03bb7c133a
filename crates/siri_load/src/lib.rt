//! A load: a large random script, which is made as it is played, and the one line that it comes to.
//!
//! ```text
//!     SEED --> Generator --> events --> World::step --> lines
//!              (generator.rt) (events.rt)    ^             |
//!                   |                        |             v
//!                   +-- delivered or lost -- packets, in order of number        (player.rt)
//!
//!     the lines made, the packets sent and lost, what is shown in the end --> summary --> sink
//!                                                                        (totals.rt, command.rt)
//! ```
//!
//! A producer starts, a consumer subscribes four times, and then visits are fed and cancelled and the clock moves, as
//! they are drawn. After each event every new packet is delivered or, one of ten, lost. So the line is a function of
//! two numbers: the first number of the generator, and how many events there are.
//!
//! Stands on `siri_world` and `siri_world_model`, on `siri_base`, `siri_records`, `siri_topic` and `siri_messages` for
//! the events that it makes, and on `siri_lines` for what a run writes. It reads no text and makes none but the line.
#![tactic(auto)]

mod command;
mod events;
mod generator;
mod network;
mod player;
mod stop;
mod totals;

pub use command::load;
