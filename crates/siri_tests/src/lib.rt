//! The tests that are no rows of `siri_rows`: what no contract says and no command brings.
//!
//! ```text
//!     times, trees, views, copies, incoming, queries, refusals     values and texts, with vectors from outside
//!     reads                                                        a producer's counter of what it reads
//!     forms, system                                                forms of the outside; adapters over the system
//!     in_memory, files, row_texts                                  shelves, and the texts of their rows
//!     stops, over documents and rows                               a producer over a shelf that stops
//!     long_rows, over documents                                    one that is fed what has too long a row
//! ```
//!
//! A call that takes memory is proved also where its body gives up for want of it; these runs see that it doesn't where
//! memory is there.
//!
//! Stands on the crates of the calls that are tested, and on no command. It has no code of its own outside of tests, so
//! that no crate is proved a second time for them.
#![tactic(auto)]

#[cfg(test)]
mod copies;
#[cfg(test)]
mod documents;
#[cfg(test)]
mod files;
#[cfg(test)]
mod forms;
#[cfg(test)]
mod in_memory;
#[cfg(test)]
mod incoming;
#[cfg(test)]
mod long_rows;
#[cfg(test)]
mod queries;
#[cfg(test)]
mod reads;
#[cfg(test)]
mod refusals;
#[cfg(test)]
mod row_texts;
#[cfg(test)]
mod rows;
#[cfg(test)]
mod stops;
#[cfg(test)]
mod system;
#[cfg(test)]
mod times;
#[cfg(test)]
mod trees;
#[cfg(test)]
mod views;
