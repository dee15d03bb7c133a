//! What the commands that read lines and show views have in common: which lines are skipped, the subscription that a
//! line wants, why a line isn't taken; and how a view and its items are written.
//!
//! ```text
//! line -> skipped, or text -> WANTED -> a subscription          (lines.rt, wanting.rt, line_error.rt)
//! a view -> its line; an item -> its line                       (views.rt, items.rt, writing.rt)
//! ```
//!
//! Stands on `siri_wire`, `siri_deliveries`, `siri_items` and `siri_json` for documents and items, on `siri_records`
//! and on `siri_view` for the round that a view is of, and on `siri_base` and `siri_lines` for how a line ends a run.
//! It knows no event and keeps nothing.

mod appending;
mod items;
mod line_error;
mod lines;
mod views;
mod wanting;
mod writing;

pub use appending::{append_count, append_word};
pub use items::item_line;
pub use line_error::LineError;
pub use lines::{is_skipped, is_text};
pub use views::view_line;
pub use wanting::{bad_document, wanted_said};
pub use writing::write_whole;
