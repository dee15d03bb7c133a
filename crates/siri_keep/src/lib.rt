//! A producer that keeps what it was fed and whom it serves on a shelf, so that both outlast a run.
//!
//! ```text
//!     rows           -> open  --> a producer of what they say, and one write
//!
//!     a later moment -> clock ---+
//!     a message      -> take  ---+--> one write of the rows that change ---> and then the answer
//!     dead items     -> clean ---+
//!
//!     a connection   -> serve_one: take, settle, and then the answer and what is to be sent
//! ```
//!
//! What a shelf keeps is written before it is answered, in one write: so a stop at any moment leaves rows that keep the
//! history before the step that was stopped, or that and the step; and where a call returns, whatever it returns, what was
//! answered is kept. Who is opened over such rows stands for a history of its own: its start, the kept moment, a feed of
//! the items that weren't dead then, the requests of the subscriptions. It goes on as the other would.
//!
//! Rows are read through `Shelf::next` alone, table by table. No row is guessed at: one that this crate wouldn't have
//! written, byte by byte, is told as bad.
//!
//! Stands on `siri_producer`, on `siri_row_texts` for the texts of rows, on `siri_outside`, and on `siri_http` and
//! `siri_ends` for a connection and for what is sent. It accepts no connection, and opens no file.
#![tactic(auto)]

mod by_service;
mod errors;
mod kept;
mod kept_requests;
mod keys;
mod opening;
mod plans;
mod reopening;
mod rows;
mod rows_read;
mod serving;
mod writing;

pub use errors::KeepError;
pub use kept::Kept;
