//! The command: what the words of the command line ask for, and what is done of it, from bytes to bytes.
//!
//! `run_all` is the top call, and `run` all of it but `keep`. Their contracts say, for every input, in whatever pieces it
//! comes, which bytes are written and which status ends the run.
//!
//! ```text
//! words -> Command           source -> replay         -> sink
//!                                      (siri_replay)
//!
//!                            source -> check, convert -> sink
//!                                      (siri_document)
//!
//!                                      load           -> sink
//!                                      (siri_load)
//!
//!   source ->  wire                <-> get            -> sink
//!                                      (siri_get)
//!
//!              wire, clock, keeper <-> serve, lite    -> sink
//!                                      (siri_runs)
//!
//!   source ->  wire, clock, keeper <-> consume        -> sink
//!                                      (siri_runs)
//!
//!   source ->  wire, clock, keeper <-> relay          -> sink
//!                                      (siri_relay_run)
//!
//!       wire, clock, keeper, shelf <-> keep           -> sink
//!                                      (siri_keep_run)
//! ```
//!
//! The words are `replay`, `check`, `convert`, `load SEED COUNT`, `get PRODUCER`, `serve NAME LISTEN COUNT`, `lite
//! NAME LISTEN COUNT`, `consume NAME LISTEN PRODUCER COUNT`, `relay NAME LISTEN UPSTREAM COUNT` and `keep NAME LISTEN
//! FILE COUNT`. These are all spellings, whole: no word is left out, none stands before them, and none begins with `-`.
//! Whether words are one of them is decided here (`is_load`, `is_get`, `is_serve`, `is_consume`), which takes no memory;
//! only then `clap` is handed them, behind `--`, and gives the value of each argument, of which the command is made. The
//! words of `keep`, which is no `Command`, since `run` has no shelf, are taken as they are (`read_keep`).
//!
//! Stands on a crate for each command (`siri_replay`, `siri_document`, `siri_load`, `siri_get`, `siri_relay_run`,
//! `siri_keep_run`; `siri_runs` for three), on `siri_ends` for what queries by GET ask, on `siri_base` for names, on
//! `siri_http` for hosts, ports and addresses, on `siri_outside` for what a shelf is, and on `clap`. It looks into no
//! line and no document, and knows no socket and no file.
#![tactic(auto)]

mod arguments;
mod command;
mod consume;
mod get;
mod keep;
mod keeping;
mod load;
mod running;
mod serve;
mod values;

pub use command::Command;
pub use keep::{Keep, read_keep};
pub use keeping::run_all;
pub use running::run;
