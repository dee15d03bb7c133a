//! Reads the lines of a source, one after the other, and has each taken, in whatever pieces they come.
//!
//! ```text
//! source --piece--> Reader::take --run--> line --take_line--> LineTaker
//!                   (reader.rt)                                   |
//!                                                               sink
//! ```
//!
//! What a line does is a [`LineTaker`]'s own: by the number of a line, what the lines before it made and its bytes it
//! says what is written and what they make now, or how the run ends. `read_lines` says what all lines of a source write
//! together, and which status ends the run.
//!
//! A line ends with a line feed, and the carriage return before it is left out; bytes after the last line feed are a
//! line where there are any. A line has at most 1,048,576 bytes without its end. The bytes between two line feeds are
//! looked for and kept at once, and no more than one line is ever kept.
//!
//! The line that tells how a run ended is written here, too.
//!
//! Stands on `siri_outside` and `memchr`. It never looks into a line.
#![tactic(auto)]

mod line_taker;
mod reader;
mod reading;
mod status_line;
mod stop;
mod writing;

pub use line_taker::LineTaker;
pub use reading::read_lines;
pub use status_line::write_status;
pub use stop::Stop;
pub use writing::write_text;
