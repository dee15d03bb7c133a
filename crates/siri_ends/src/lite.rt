//! Queries by GET beside what a producer serves: what an accepted connection asks where queries are answered, too.
//!
//! ```text
//!   GET /siri-lite/stop-monitoring.json?MonitoringRef=S1   asks what a POST of {"Siri":{"ServiceRequest":{..}}} asks
//!   GET /siri-lite/other                                   is refused: 404, `NoPath`
//!   everything else                                        asks what it asks where none are answered
//! ```
//!
//! Stands on `siri_queries` for the document of a target, and on `siri_http` for requests and what they ask. It reads
//! nothing and answers nothing itself: who serves connections is told by [`PostOrQuery`] what their requests ask.

mod asking;
mod laws;

pub use asking::PostOrQuery;
pub use laws::{
    a_connection_in_its_place_is_answered_alike, a_get_asks_what_its_post_asks,
    a_get_of_an_unknown_path_is_refused, a_query_is_read_as_its_post,
    all_else_asks_what_it_asks_without_queries,
};
