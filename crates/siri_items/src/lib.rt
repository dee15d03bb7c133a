//! Visits, journeys, vehicle activities and situations in the trees of documents: read by the tables of the profile, or
//! refused at the first place in the order of the tables, and written in the one form of the profile.
//!
//! ```text
//!     tree --read_item---> item, or PATH: REASON      a table each, a row an element:
//!     text <--write_item-- item
//!                                                     Visit      MonitoredStopVisit       EN 15531-3
//!                                                     Journey    EstimatedVehicleJourney  EN 15531-3
//!                                                     Vehicle    VehicleActivity          EN 15531-3
//!                                                     Situation  PtSituationElement       CEN/TS 15531-5
//!     names    each member's name, as documents spell it
//!     inside   calls at stops, locations, how a journey is named, periods, what a situation affects
//! ```
//!
//! The files `read_*` have the tables as they are read, `write_*` as they are written; the definition of each stands in
//! `specs/` under the table's name, row beside row. That reading and spelling are one, and that what is written is read
//! again, are laws, functions that do nothing.
//!
//! Stands on `siri_tables`, which has the rules of values and rows and the refusals, on `siri_records` for the items,
//! and on `siri_base`, `siri_time` and `siri_json`. It reads no bytes and knows no message: where an item stands in a
//! document, and what is said around it, is of `siri_wire`.
#![tactic(auto)]

mod laws;
pub mod names;
mod read;
mod read_call;
mod read_journey;
mod read_parts;
mod read_situation;
mod read_vehicle;
mod read_visit;
mod write;
mod write_call;
mod write_journey;
mod write_situation;
mod write_vehicle;
mod write_visit;

pub use laws::{
    members_are_spelled, read_is_proper, read_is_spelled, tables_are_spelled, written_is_canonical,
    written_is_read, written_text_is_read,
};
pub use read::read_item;
pub use read_call::{LocationRule, OptionalCallRule, StopCallTable};
pub use read_journey::JourneyTable;
pub use read_situation::SituationTable;
pub use read_vehicle::VehicleTable;
pub use read_visit::VisitTable;
pub use write::write_item;
pub use write_journey::write_timed_journey;
