//! Replays a script: what its lines say happens in a world, and the report is what the world tells.
//!
//! ```text
//! source -> lines -> word, arguments -> an event -> World::step -> lines of the report -> sink
//!           (siri_lines)  (script_words.rt, arguments.rt, saying.rt)  (script.rt)  (report_line.rt)
//! ```
//!
//! A line is empty, a comment, or a word of ten with its arguments: `start` and `clock`, `feed` and `ask` for the
//! producer; `subscribe`, `terminate`, `restart`, `status` and `view` for a consumer; `deliver` for a packet. A script
//! is refused at its first line that isn't of this grammar; the report of the lines before it was written.
//!
//! Contracts see a script as the events that happened: the report of a script is a function of its bytes, by what is
//! told of each event in the world after those before it.
//!
//! Stands on `siri_lines`, which reads the lines, on `siri_world`, in which the events happen, on `siri_wire`,
//! `siri_tables` and `siri_messages` for documents, on `siri_document` for what its lines have in common with those of
//! other commands, on `siri_time` for moments, and on `siri_base`, `siri_producer` and `siri_view` for what lines tell.
#![tactic(auto)]

mod arguments;
mod replaying;
mod report_line;
mod saying;
mod script;
mod script_words;
mod view_laws;
mod words_said;

pub use replaying::replay;
pub use view_laws::quiet_views_are_direct;
