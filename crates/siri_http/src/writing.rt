//! Writes requests and responses.

ghost use Rattle.std.specs.Prelude.{◌≡◌, ◌++◌, length, IfErr, IfOk, OnOk, true};
ghost use Rattle.siri_http.specs.Connections.{OnConnection};
ghost use Rattle.siri_http.specs.HttpCauses.{EndsWrite, HasWriteCause};
ghost use Rattle.siri_http.specs.Texts.{PutsText, closing, get_text, head_end, head_text, is_written, phrase_of, request_begin, request_text, response_text, type_of};

use crate::{Address, HttpError};
use http::StatusCode;
use siri_base::{Name, OutOfMemory, Text, append, append_number};
use siri_outside::{OutsideError, Wire};
use std::alloc::Global;

/// Writes a piece of a body, all of it, in as many calls as it takes. It takes no memory of its own. `WriteFault` comes
/// only where the wire's count of faults rose.
#[tactic(auto, using(crate::proofs::Sending::wrote_none, crate::proofs::Sending::wrote_more, crate::proofs::Sending::wrote_all, crate::proofs::Sending::wrote_fault, crate::proofs::Sending::wrote_front))]
pub fn write_piece<W: Wire>(wire: &mut W, piece: &[u8]) -> Result<(), HttpError>
    requires there { W.is_open wire.old }
    ensures open { W.is_open wire.new }
    ensures told { OnConnection (PutsText piece.now result) (W.tells wire.old) (W.tells wire.new) }
    ensures cause { HasWriteCause (W.faults wire.old) (W.faults wire.new) result }
    ensures ends { IfErr result EndsWrite }
{
    let mut rest = piece;
    while !rest.is_empty() {
        match wire.write(rest) {
            Ok(count) => rest = rest.split_at(count).1,
            Err(OutsideError::Failed) => return Err(HttpError::WriteFault),
            Err(OutsideError::OutOfMemory) => return Err(HttpError::OutOfMemory),
        }
    }
    Ok(())
}

/// Puts the last lines of a head.
fn append_closing(text: &mut Vec<u8>) -> Result<(), OutOfMemory>
    ensures { OnOk result (text.new.items ≡ text.old.items ++ closing) }
{
    append(text, b"Connection: close\r\n\r\n")
}

/// Puts the end of a head, for a body of so many bytes.
fn append_head_end(alloc: Global, text: &mut Vec<u8>, length: u64) -> Result<(), OutOfMemory>
    ensures { OnOk result (text.new.items ≡ text.old.items ++ head_end length) }
{
    append(text, b"Content-Length: ")?;
    append_number(alloc, text, length)?;
    append(text, b"\r\n")?;
    append_closing(text)?;
    Ok(())
}

/// The first lines of a request of this method, which a space follows: its target, and the host with its port.
fn request_begin(
    alloc: Global,
    method: &[u8],
    host: &Name,
    target: &Text,
) -> Result<Vec<u8>, OutOfMemory>
    ensures { IfOk result (λ text. text.items ≡ request_begin method.now host.now target.now) }
{
    let mut text = Vec::new(alloc);
    append(&mut text, method)?;
    append(&mut text, target.text().as_bytes())?;
    append(&mut text, b" HTTP/1.1\r\nHost: ")?;
    append(&mut text, host.text().as_bytes())?;
    append(&mut text, b"\r\n")?;
    Ok(text)
}

/// The text of a request.
#[tactic(auto, using(crate::proofs::Sending::request_is))]
fn request_text(alloc: Global, address: &Address, body: &[u8]) -> Result<Vec<u8>, OutOfMemory>
    ensures { IfOk result (λ text. text.items ≡ request_text address.now.host address.now.path body.now) }
{
    let mut text = request_begin(alloc, b"POST ", &address.host, &address.path)?;
    append(&mut text, b"Content-Type: application/json\r\n")?;
    append_head_end(alloc, &mut text, body.len() as u64)?;
    append(&mut text, body)?;
    Ok(text)
}

/// The text of a GET.
#[tactic(auto, unfolding(crate::specs::Texts::get_text))]
fn get_text(alloc: Global, host: &Name, target: &Text) -> Result<Vec<u8>, OutOfMemory>
    ensures { IfOk result (λ text. text.items ≡ get_text host.now target.now) }
{
    let mut text = request_begin(alloc, b"GET ", host, target)?;
    append_closing(&mut text)?;
    Ok(text)
}

/// The phrase of a status, which is empty where it has none.
#[tactic(auto, unfolding(crate::specs::Texts::phrase_of))]
fn phrase(code: StatusCode) -> &'static str
    ensures { result.now ≡ phrase_of code }
{
    code.canonical_reason().unwrap_or("")
}

/// The type of a body.
fn type_text(plain: bool) -> &'static [u8]
    ensures { result.now ≡ type_of plain }
{
    if plain {
        b"text/plain"
    } else {
        b"application/json"
    }
}

/// The head of a response, for a body of so many bytes.
fn head_text(
    alloc: Global,
    code: StatusCode,
    plain: bool,
    length: u64,
) -> Result<Vec<u8>, OutOfMemory>
    ensures { IfOk result (λ text. text.items ≡ head_text code plain length) }
{
    let mut text = Vec::new(alloc);
    append(&mut text, b"HTTP/1.1 ")?;
    append(&mut text, code.as_str().as_bytes())?;
    append(&mut text, b" ")?;
    append(&mut text, phrase(code).as_bytes())?;
    append(&mut text, b"\r\nContent-Type: ")?;
    append(&mut text, type_text(plain))?;
    append(&mut text, b"\r\n")?;
    append_head_end(alloc, &mut text, length)?;
    Ok(text)
}

/// Writes a POST of a JSON body to an address. `WriteFault` comes only where the wire's count of faults rose.
#[tactic(auto, using(crate::proofs::Sending::wrote_nothing))]
pub fn write_request<W: Wire>(
    alloc: Global,
    wire: &mut W,
    address: &Address,
    body: &[u8],
) -> Result<(), HttpError>
    requires there { W.is_open wire.old }
    ensures open { W.is_open wire.new }
    ensures told { OnConnection (PutsText (request_text address.now.host address.now.path body.now) result) (W.tells wire.old) (W.tells wire.new) }
    ensures cause { HasWriteCause (W.faults wire.old) (W.faults wire.new) result }
    ensures ends { IfErr result EndsWrite }
{
    let text = request_text(alloc, address, body)?;
    write_piece(wire, &text)
}

/// Writes a GET of a target at the host of an address, without a body; the address's own path isn't asked. `WriteFault`
/// comes only where the wire's count of faults rose.
#[tactic(auto, using(crate::proofs::Sending::wrote_nothing))]
pub fn write_get<W: Wire>(
    alloc: Global,
    wire: &mut W,
    address: &Address,
    target: &Text,
) -> Result<(), HttpError>
    requires there { W.is_open wire.old }
    ensures open { W.is_open wire.new }
    ensures told { OnConnection (PutsText (get_text address.now.host target.now) result) (W.tells wire.old) (W.tells wire.new) }
    ensures cause { HasWriteCause (W.faults wire.old) (W.faults wire.new) result }
    ensures ends { IfErr result EndsWrite }
{
    let text = get_text(alloc, &address.host, target)?;
    write_piece(wire, &text)
}

/// The head of a response of one of the statuses 200, 400, 404, 405, 411, 413, 431 and 501, for a JSON body or a plain one of
/// so many bytes.
pub fn response_head(
    alloc: Global,
    status: u16,
    plain: bool,
    length: u64,
) -> Result<Vec<u8>, OutOfMemory>
    requires { is_written status ≡ true }
    ensures { IfOk result (λ text. text.items ≡ head_text status plain length) }
{
    head_text(alloc, code_of(status), plain, length)
}

/// Writes a response of one of the statuses 200, 400, 404, 405, 411, 413, 431 and 501, with a JSON body or a plain one.
/// `WriteFault` comes only where the wire's count of faults rose.
#[tactic(auto, using(crate::proofs::Sending::wrote_nothing))]
pub fn write_response<W: Wire>(
    alloc: Global,
    wire: &mut W,
    status: u16,
    plain: bool,
    body: &[u8],
) -> Result<(), HttpError>
    requires there { W.is_open wire.old }
    requires status { is_written status ≡ true }
    ensures open { W.is_open wire.new }
    ensures told { OnConnection (PutsText (response_text status plain body.now) result) (W.tells wire.old) (W.tells wire.new) }
    ensures cause { HasWriteCause (W.faults wire.old) (W.faults wire.new) result }
    ensures ends { IfErr result EndsWrite }
{
    let mut text = response_head(alloc, status, plain, body.len() as u64)?;
    append(&mut text, body)?;
    write_piece(wire, &text)
}

/// The code of a status that is written.
fn code_of(status: u16) -> StatusCode
    requires { is_written status ≡ true }
    ensures { result ≡ status }
{
    match StatusCode::from_u16(status) {
        Ok(code) => code,
        Err(_) => unreachable!(),
    }
}
