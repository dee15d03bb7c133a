//! Requests and responses of HTTP/1.1 over one connection, each connection with one of each, and one exchange of them:
//! a request that comes and is answered, or a request that goes and is answered.
//!
//! ```text
//!   bytes that come -> read_request  ---> HttpRequest        bytes that come -> read_response ---> HttpResponse
//!   bytes that go   <- write_request <--- an address, a body bytes that go   <- write_response <-- a status, a body
//!                   <- write_get     <--- an address, a target
//!
//!   an accepted connection  -> read_asked ---> a POST with its body, a refused request, or none; `Asking` says which
//!                                              other requests are taken for a POST
//!                           <- respond    <--- a status and a body; then it hangs up
//!                           <- write_piece <-- response_head, then pieces of a body; end_response hangs up
//!
//!   an address and a body   -> post_to    ---> dials, writes, reads and hangs up: the body of a 200, or none
//!   its text and a body     -> post       ---> the same, where the text is an address
//! ```
//!
//! A message is read in pieces of whatever length the wire gives them, up to 16,384 bytes of head and 8,388,608 of
//! body. How the wire cuts them changes nothing: each contract speaks of the bytes that the connection brings. Whether
//! a head is a head is the word of `httparse`. Reasons to refuse a message are [`HttpError`]'s, in its order. [`Tally`]
//! has the four counts that the ends of a run rise by.
//!
//! Stands on `siri_outside` for the wire, on `httparse` for heads and on `http` for the phrases of statuses. It knows no
//! document, keeps no connection open, reads no Transfer-Encoding and waits no bounded time.
#![tactic(auto)]

mod address;
mod asked;
mod asking;
mod connection;
mod errors;
mod fields;
mod front;
mod posting;
mod request;
mod responding;
mod response;
mod scan;
mod tally;
mod writing;

pub use address::{Address, AddressError, is_address, is_host_with_port, read_address};
pub use asked::{Asked, BadRequest, unasked};
pub use asking::{Asking, PostAlone, asked_of, read_asked};
pub use errors::HttpError;
pub use posting::{Sent, post, post_to};
pub use request::{HttpRequest, read_request};
pub use responding::{end_response, respond};
pub use response::{HttpResponse, read_response};
pub use tally::Tally;
pub use writing::{response_head, write_get, write_piece, write_request, write_response};
