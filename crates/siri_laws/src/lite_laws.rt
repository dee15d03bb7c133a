//! What holds of a whole run of `lite`: it is a run of `serve` over other connections. Each law is the contract of a function
//! that does nothing when it is called.
//!
//! ```text
//!   connections to come:  a POST    a query     a GET of /     a query of no path
//!   in their places:      itself    its POST    itself         itself
//!
//!   a run of `lite` over the first  =  a run of `serve` over the second, save that the last one is refused 404, not 405
//! ```
//!
//! A connection that brings a query has one in its place that holds the POST of the query's document whole, of which no read
//! fails and the same writes do. All that is answered, sent, counted and written is the same, and the run ends alike.
//!
//! `siri_ends` says it of one connection; `siri_runs` has what a run is, and `http_laws` what is read of a text.

ghost use Rattle.siri_laws.specs.lite.Places.{HasOneInItsPlace, HasPost};
ghost use Rattle.siri_laws.specs.lite.Served.{IsServedAsByServe, IsServedAsPosts};

/// What is written of the POST of a document of 8,388,608 bytes at most, to whatever address, is such a POST: a connection
/// that begins with it holds a POST of the document whole, whatever comes after it.
pub fn a_document_has_a_post()
    ensures { HasPost }
{}

/// Each connection that is read has one in its place: where it brings a query of a known path, one that holds the POST of
/// that query's document whole; else itself.
pub fn each_connection_has_one_in_its_place()
    ensures { HasOneInItsPlace }
{}

/// A run that answers queries, over a wire that tells what it holds, is a run that answers none over the connections in the
/// places of those that it accepts, save that a GET of an unknown path below `/siri-lite/` is refused for `NoPath` in place
/// of `NotPost`. What is answered to each connection, what is sent where, the moments, the number that is kept, what is
/// written and the status are the same.
pub fn queries_are_served_as_posts()
    ensures { IsServedAsPosts }
{}

/// So where no connection brings a GET of an unknown path below `/siri-lite/`, a run of `lite` is one of `serve` over the
/// connections in their places.
pub fn a_known_path_is_served_as_by_serve()
    ensures { IsServedAsByServe }
{}
