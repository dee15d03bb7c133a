//! Sends a request, and reads what is answered.

ghost use Rattle.std.specs.Prelude.{◌≡◌};
ghost use Rattle.siri_outside.specs.OutsideCalls.{WhereTold};
ghost use Rattle.siri_http.specs.Addresses.{address_of};
ghost use Rattle.siri_http.specs.Parts.{response_parts};
ghost use Rattle.siri_http.specs.Texts.{request_text};
ghost use Rattle.siri_http.specs.Posts.{Hears, Posts, PostsTo, Talks, sent_of};
ghost use Rattle.siri_http.specs.ExchangeCauses.{HasSentCause, outcome};

use crate::address::{Address, AddressError, read_address};
use crate::errors::HttpError;
use crate::response::{HttpResponse, read_response};
use crate::writing::write_request;
use siri_base::{List, Name, OutOfMemory};
use siri_outside::{OutsideError, Wire};
use std::alloc::Global;

/// What became of a request that was sent.
#[derive(Debug, Drop)]
pub enum Sent {
    /// It was answered with status 200 and this body.
    Accepted(List<u8>),
    /// Its address is none, or its response was refused, Short or of another status.
    Refused,
    /// The wire failed: its count of faults rose.
    Failed,
}

/// What became of a request with this response.
fn sent_of(read: Result<HttpResponse, HttpError>) -> Result<Sent, OutOfMemory>
    ensures { outcome result ≡ sent_of (response_parts read) }
{
    match read {
        Ok(response) => {
            if response.status == 200 {
                Ok(Sent::Accepted(response.body))
            } else {
                Ok(Sent::Refused)
            }
        }
        Err(HttpError::ReadFault | HttpError::WriteFault) => Ok(Sent::Failed),
        Err(HttpError::OutOfMemory) => Err(OutOfMemory),
        Err(_) => Ok(Sent::Refused),
    }
}

/// Reads the response of the connection that is there, and hangs up.
fn hear<W: Wire>(alloc: Global, wire: &mut W) -> Result<Sent, OutOfMemory>
    requires there { W.is_open wire.old }
    ensures told { WhereTold (W.tells wire.old) (W.tells wire.new) (Hears (outcome result)) }
    ensures cause { HasSentCause (W.faults wire.old) (W.faults wire.new) (outcome result) }
{
    let sent = sent_of(read_response(alloc, wire))?;
    wire.hang_up();
    Ok(sent)
}

/// Sends a request over the connection that is there, reads the response, and hangs up.
fn talk<W: Wire>(
    alloc: Global,
    wire: &mut W,
    address: &Address,
    body: &[u8],
) -> Result<Sent, OutOfMemory>
    requires there { W.is_open wire.old }
    ensures told { WhereTold (W.tells wire.old) (W.tells wire.new) (Talks (request_text address.now.host address.now.path body.now) (outcome result)) }
    ensures cause { HasSentCause (W.faults wire.old) (W.faults wire.new) (outcome result) }
{
    match write_request(alloc, wire, address, body) {
        Ok(()) => hear(alloc, wire),
        Err(HttpError::WriteFault) => {
            wire.hang_up();
            Ok(Sent::Failed)
        }
        Err(HttpError::OutOfMemory) => Err(OutOfMemory),
        Err(_) => unreachable!(),
    }
}

/// Sends a body to this address: dials, writes a POST, reads the response and hangs up. `Failed` comes only where the
/// wire's count of faults rose.
pub fn post_to<W: Wire>(
    alloc: Global,
    wire: &mut W,
    address: &Address,
    body: &[u8],
) -> Result<Sent, OutOfMemory>
    ensures told { WhereTold (W.tells wire.old) (W.tells wire.new) (PostsTo address.now.host (request_text address.now.host address.now.path body.now) (outcome result)) }
    ensures cause { HasSentCause (W.faults wire.old) (W.faults wire.new) (outcome result) }
{
    match wire.dial(&address.host) {
        Ok(()) => talk(alloc, wire, address, body),
        Err(OutsideError::Failed) => Ok(Sent::Failed),
        Err(OutsideError::OutOfMemory) => Err(OutOfMemory),
    }
}

/// Sends a body to an address, as [`post_to`] does. Nothing is called where the address is none.
pub fn post<W: Wire>(
    alloc: Global,
    wire: &mut W,
    address: &Name,
    body: &[u8],
) -> Result<Sent, OutOfMemory>
    ensures told { WhereTold (W.tells wire.old) (W.tells wire.new) (Posts (address_of address.now) body.now (outcome result)) }
    ensures cause { HasSentCause (W.faults wire.old) (W.faults wire.new) (outcome result) }
{
    match read_address(alloc, address) {
        Ok(address) => post_to(alloc, wire, &address, body),
        Err(AddressError::BadAddress) => Ok(Sent::Refused),
        Err(AddressError::OutOfMemory) => Err(OutOfMemory),
    }
}
