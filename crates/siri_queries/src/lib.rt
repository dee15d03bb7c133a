//! Queries by GET: what a request line's target asks of one of the four services, both ways.
//!
//! ```text
//!   /siri-lite/stop-monitoring.json?MonitoringRef=S1  --document_of-->  {"Siri":{"ServiceRequest":{..}}}
//!   target                                            <--write_query--  ServiceRequest
//! ```
//!
//! A target is a path, and behind the first `?` pairs of a name and a value as web forms write them. The four paths are
//! this profile's own; the names are those of the rows of the four services' requests (EN 15531-3, CEN/TS 15531-5).
//! What a query asks is the document that it stands for: whether that says a request, and what is wrong with it, says
//! who decodes the document. No value is looked into here.
//!
//! Stands on `form_urlencoded` for the pairs, on `siri_items` and `siri_deliveries` for the names of members, on
//! `siri_json` for the text of the document, on `siri_messages` and `siri_topic` for what is asked, and on `siri_time`
//! for its moments and spans. It knows no connection, answers nothing, and keeps nothing.
#![tactic(auto)]

mod document;
mod errors;
mod laws;
mod pairs;
pub mod paths;
mod target;

pub use document::document_of;
pub use errors::QueryError;
pub use laws::paths_are_spelled;
pub use target::write_query;
