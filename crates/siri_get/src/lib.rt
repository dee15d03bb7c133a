//! The command `get`: a request document is asked as a query by GET, and what is answered is told.
//!
//! ```text
//! source -> document -> a target, or a line ---------------------> answer -> sink
//!                       (plan.rt)                                  ^
//!                       a target -> GET -> a response, or a line --+
//!                                   (asking.rt)
//! ```
//!
//! Stands on `siri_document` for the document that is read and the answer that is written, on `siri_wire` for what it
//! spells, on `siri_queries` for its target, and on `siri_http` for the exchange. It knows no word of a command line,
//! keeps nothing, and looks into no body.
#![tactic(auto)]

mod asking;
mod getting;
mod plan;

pub use getting::get;
