//! Tables of JSON objects, row by row: how the member of a name is read by a rule, or refused at a path for a reason,
//! and how it is written in one form.
//!
//! ```text
//!     rules    a rule:  value -> what it spells, nothing where it counts as absent, or a refusal
//!                       names, texts, moments, spans, numbers, decimals, flags; a table is the rule of its objects
//!     rows     a row:   object, name -> what the member of that name spells under a rule:
//!                       may be absent, is required, is a list
//!     refusal           path: reason, the first in the order of the rows; the path grows on the way out
//!     writing  a row:   value -> its member, left out where there is none; members in byte order of their names
//! ```
//!
//! A rule is a type, so that one type of values may have several rules, and the tables of the crates above are rules
//! too. A table is a function that reads its rows one after another, and its definition is the same line, a row each.
//! What was written under a rule is read by it again, and what is read is proper; these lemmas stand in `proofs/` for
//! each rule and row, and the crates above put them together for their tables.
//!
//! Stands on `siri_base`, `siri_time` and `siri_json`, and on `itoa` for decimal digits: it reads the trees of `json`,
//! and writes those of `serde_json`. It knows no item, no message and no name of a member, and doesn't read or write the
//! bytes of a document.
#![tactic(auto)]

pub mod refusal;
pub mod rows;
pub mod rules;
mod scalars;
pub mod writing;

pub use refusal::TableError;
