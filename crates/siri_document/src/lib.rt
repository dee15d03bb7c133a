//! The commands over one document: `check` and `convert`, from bytes to bytes.
//!
//! ```text
//! source -> document -> message or refusal -> answer -> sink
//! (document.rt)         (siri_wire)           (check.rt, convert.rt)
//! ```
//!
//! Its two ends are there for other commands over one document: [`read_document`] and [`Answer`]. What the commands
//! that read lines and show views have in common stands in `script`.
//!
//! Stands on `siri_wire`, `siri_messages` and `siri_json` for what a document spells and how a message is written, and
//! on `siri_base` and `siri_lines` for what a run reads and leaves in its sink; `script` stands on more. It knows no
//! word of a command line.
#![tactic(auto)]

mod check;
mod convert;
mod document;
mod script;

pub use check::Check;
pub use convert::Convert;
pub use document::{Answer, Telling, answer_document, read_document};
pub use script::{
    LineError, append_count, append_word, bad_document, is_skipped, is_text, item_line, view_line,
    wanted_said, write_whole,
};
