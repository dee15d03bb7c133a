//! The command `keep`: a producer whose observations and subscriptions are on a shelf, for so many connections.
//!
//! ```text
//!   keeper -> raise  -- the number of its start --+
//!   wire   -> listen                              +
//!   clock  -> now    -- its first moment ---------+--> Kept::open --> a producer of what the shelf keeps
//!   shelf  -> open   -- the rows of the file -----+         |
//!                                                           v
//!   wire -> accept, clock -> now   --------------->  the turns of Kept, COUNT of them
//!                                                           |            (clean after each 1,000)
//!                                                           v
//!                                           the counts (write_summary) --> sink
//! ```
//!
//! It is a run of `serve` that begins with the history that the shelf's rows make in the place of a start alone. Its
//! contract is a table by the status, as that of `serve` is, and speaks of a shelf that tells its rows; of any shelf it says
//! that the run is one of some history, and which faults end it. Two clauses say at whatever status what is left on the
//! shelf: at each moment of the run (`keep_trail`), and of what was answered at its end (`keep_answered`).
//!
//! Stands on `siri_keep` for the producer and its turn, on `siri_runs` for the parts of a run, and on `siri_outside`,
//! `siri_base` and `siri_http` for what these speak of. It knows no file.
#![tactic(auto)]

mod keeping;
mod opening;

pub use keeping::keep;
