//! What holds of requests over HTTP/1.1 between two ends: each law is the contract of a function that does nothing when it
//! is called.
//!
//! ```text
//!   an address, a body   -> request_text -> the bytes of a connection -> read as a POST of that path with that body
//!   an address, a target -> get_text     -> the bytes of a connection -> read as a GET of that target, without a body
//!
//!   a connection -> one request, or one reason why there is none
//! ```
//!
//! `siri_http` writes these texts and reads requests; how a head is read is the word of `httparse`.

ghost use Rattle.siri_laws.specs.http.Written.{BringsOneRequest, IsGetAsWritten, IsPostAsWritten};

/// The POST of a body of 8,388,608 bytes at most that is written to an address of 255 bytes at most is read whole: the path
/// of the address is its target, and the body is its body. So it is by each connection that holds it first and no read of
/// which fails, whatever comes after it.
pub fn a_post_is_read_as_written()
    ensures { IsPostAsWritten }
{}

/// The GET of a target that is written to the host of an address of 255 bytes at most is read whole, without a body. The
/// target has 1 to 16,000 bytes from `!` to `~`.
pub fn a_get_is_read_as_written()
    ensures { IsGetAsWritten }
{}

/// What a connection brings is one request, or one reason why there is none.
pub fn a_connection_brings_one_request()
    ensures { BringsOneRequest }
{}
