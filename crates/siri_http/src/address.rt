//! The addresses that messages are sent to.

ghost use Rattle.std.specs.Prelude.{◌≡◌, ◌≤◌, ◌+◌, ◌↔◌, true, is_some, length, IfOk, Some, None, IsErrOf, IsAscii};
ghost use Rattle.std.specs.List.{list_all};
ghost use Rattle.std.specs.Char.{is_ascii_graphic};
ghost use Rattle.siri_http.specs.declared.address.AddressError.TheVariants.{OutOfMemory};
ghost use Rattle.siri_http.specs.Addresses.{address_of, after_scheme, are_parts, before, is_host, is_host_byte, is_host_with_port, is_port, parts_of, port_or, with_path, with_port};

use crate::fields::number_in;
use siri_base::{Name, OutOfMemory, Text, TextError, append};
use std::alloc::Global;

/// Where a message is sent to.
#[derive(Debug, Drop)]
pub struct Address {
    /// `HOST:PORT`, the port as it was spelled, or 80.
    pub host: Name,
    /// The path, which begins with `/`.
    pub path: Text,
}

/// Why there is no address.
#[derive(Clone, Copy, Debug, PartialEq, Eq)]
pub enum AddressError {
    /// The text isn't of the form `http://HOST[:PORT][/PATH]`.
    BadAddress,
    /// There was no memory.
    OutOfMemory,
}

impl From<OutOfMemory> for AddressError {
    ghost from_gives = { λ _ e. e ≡ OutOfMemory };

    fn from(_: OutOfMemory) -> Self {
        AddressError::OutOfMemory
    }
}

/// How many bytes stand before the first of this value.
fn before(byte: u8, text: &[u8]) -> usize
    ensures value { result ≡ before byte text.now }
    ensures bound { result ≤ length text.now }
{
    text.iter().take_while(|other| **other != byte).count()
}

/// Whether a byte may stand in a host.
fn is_host_byte(byte: u8) -> bool
    ensures { result ≡ is_host_byte byte }
{
    byte.is_ascii_alphanumeric() || byte == b'.' || byte == b'-'
}

/// Whether a text has only letters, digits, `.` and `-` of ASCII; the empty text has.
fn are_host_bytes(text: &[u8]) -> bool
    ensures { result ≡ list_all is_host_byte text.now }
{
    text.iter().all(|byte| is_host_byte(*byte))
}

/// Whether a text is a host.
fn is_host(text: &[u8]) -> bool
    ensures { result ≡ is_host text.now }
{
    text.len() >= 1 && are_host_bytes(text)
}

/// Whether a text has only bytes from `!` to `~`, no space among them; the empty text has.
fn are_path_bytes(text: &[u8]) -> bool
    ensures { result ≡ list_all is_ascii_graphic text.now }
{
    text.iter().all(|byte| byte.is_ascii_graphic())
}

/// Whether a text is a port with its colon, or none.
fn is_port(text: &[u8]) -> bool
    ensures { result ≡ is_port text.now }
{
    match text {
        [] => true,
        [b':', digits @ ..] if digits.len() <= 5 => match number_in(digits) {
            Some(number) => number <= 65_535,
            None => false,
        },
        _ => false,
    }
}

/// A name of these bytes, which no bound refuses.
#[tactic(auto, using(crate::proofs::AddressTexts::ascii_text))]
fn name_of(alloc: Global, bytes: &[u8]) -> Result<Name, OutOfMemory>
    requires ascii { IsAscii bytes.now }
    requires some { 1 ≤ length bytes.now }
    requires bound { length bytes.now ≤ 255 }
    ensures { IfOk result (λ name. name ≡ bytes.now) }
{
    let Ok(text) = std::str::from_utf8(bytes) else {
        unreachable!()
    };
    match Name::new(alloc, text) {
        Ok(name) => Ok(name),
        Err(TextError::OutOfMemory) => Err(OutOfMemory),
        Err(TextError::Empty | TextError::TooLong) => unreachable!(),
    }
}

/// A text of these bytes, which no bound refuses.
#[tactic(auto, using(crate::proofs::AddressTexts::ascii_text))]
fn text_of(alloc: Global, bytes: &[u8]) -> Result<Text, OutOfMemory>
    requires ascii { IsAscii bytes.now }
    requires some { 1 ≤ length bytes.now }
    requires bound { length bytes.now ≤ 16384 }
    ensures { IfOk result (λ text. text ≡ bytes.now) }
{
    let Ok(text) = std::str::from_utf8(bytes) else {
        unreachable!()
    };
    match Text::new(alloc, text) {
        Ok(text) => Ok(text),
        Err(TextError::OutOfMemory) => Err(OutOfMemory),
        Err(TextError::Empty | TextError::TooLong) => unreachable!(),
    }
}

/// A port with its colon, as it is spelled, or 80.
fn port_or(port: &[u8]) -> &[u8]
    ensures { result.now ≡ port_or port.now }
{
    if port.is_empty() { b":80" } else { port }
}

/// A path, or the root.
fn path_or(path: &[u8]) -> &[u8]
    ensures { result.now ≡ with_path path.now }
{
    if path.is_empty() { b"/" } else { path }
}

/// A host with its port, as it is spelled, or with 80.
#[tactic(auto, using(crate::proofs::AddressTexts::with_port_ascii, crate::proofs::AddressTexts::host_some, crate::proofs::AddressTexts::port_few))]
fn with_port(alloc: Global, host: &[u8], port: &[u8]) -> Result<Name, OutOfMemory>
    requires host { is_host host.now ≡ true }
    requires port { is_port port.now ≡ true }
    requires bound { length host.now + length port.now ≤ 248 }
    ensures { IfOk result (λ name. name ≡ with_port host.now port.now) }
{
    let mut text = Vec::new(alloc);
    append(&mut text, host)?;
    append(&mut text, port_or(port))?;
    name_of(alloc, &text)
}

/// A path, or the root, as a text.
#[tactic(auto, using(crate::proofs::AddressTexts::with_path_ascii, crate::proofs::AddressTexts::path_some, crate::proofs::AddressTexts::path_few))]
fn with_path(alloc: Global, path: &[u8]) -> Result<Text, OutOfMemory>
    requires path { list_all is_ascii_graphic path.now ≡ true }
    requires bound { length path.now ≤ 248 }
    ensures { IfOk result (λ text. text ≡ with_path path.now) }
{
    text_of(alloc, path_or(path))
}

/// Whether these are a host, a port with its colon or none, and a path or none.
fn are_parts(host: &[u8], port: &[u8], path: &[u8]) -> bool
    ensures { result ≡ are_parts host.now port.now path.now }
{
    is_host(host) && is_port(port) && are_path_bytes(path)
}

/// The address of these parts.
#[tactic(auto, using(crate::proofs::AddressTexts::host_is, crate::proofs::AddressTexts::port_is, crate::proofs::AddressTexts::path_is))]
fn put_together(
    alloc: Global,
    host: &[u8],
    port: &[u8],
    path: &[u8],
) -> Result<Address, OutOfMemory>
    requires parts { are_parts host.now port.now path.now ≡ true }
    requires host_bound { length host.now + length port.now ≤ 248 }
    requires path_bound { length path.now ≤ 248 }
    ensures host { IfOk result (λ address. address.host ≡ with_port host.now port.now) }
    ensures path { IfOk result (λ address. address.path ≡ with_path path.now) }
{
    Ok(Address {
        host: with_port(alloc, host, port)?,
        path: with_path(alloc, path)?,
    })
}

/// The address of a host, a port with its colon or none, and a path or none.
#[tactic(auto, using(crate::proofs::AddressTexts::parts_some, crate::proofs::AddressTexts::parts_none))]
fn address_of(alloc: Global, host: &[u8], port: &[u8], path: &[u8]) -> Result<Address, AddressError>
    requires host_bound { length host.now + length port.now ≤ 248 }
    requires path_bound { length path.now ≤ 248 }
    ensures ok { IfOk result (λ address. parts_of host.now port.now path.now ≡ Some (address.host, address.path)) }
    ensures bad { IsErrOf result AddressError.BadAddress ↔ (parts_of host.now port.now path.now ≡ None) }
{
    if !are_parts(host, port, path) {
        return Err(AddressError::BadAddress);
    }
    Ok(put_together(alloc, host, port, path)?)
}

/// The address of what comes after the scheme.
fn read_parts(alloc: Global, rest: &[u8]) -> Result<Address, AddressError>
    requires bound { length rest.now ≤ 248 }
    ensures ok { IfOk result (λ address. after_scheme rest.now ≡ Some (address.host, address.path)) }
    ensures bad { IsErrOf result AddressError.BadAddress ↔ (after_scheme rest.now ≡ None) }
{
    let (authority, path) = rest.split_at(before(b'/', rest));
    let (host, port) = authority.split_at(before(b':', authority));
    address_of(alloc, host, port, path)
}

/// The address `http://HOST[:PORT][/PATH]`. The port is 80 where it is absent, and is kept as it is spelled.
///
/// `BadAddress` comes exactly where the text isn't of this form.
#[tactic(auto, using(crate::proofs::AddressTexts::address_is, crate::proofs::AddressTexts::address_none))]
pub fn read_address(alloc: Global, text: &Name) -> Result<Address, AddressError>
    ensures ok { IfOk result (λ address. address_of text.now ≡ Some (address.host, address.path)) }
    ensures bad { IsErrOf result AddressError.BadAddress ↔ (address_of text.now ≡ None) }
{
    let bytes = text.text().as_bytes();
    if !bytes.starts_with(b"http://") {
        return Err(AddressError::BadAddress);
    }
    let (_, rest) = bytes.split_at(7);
    read_parts(alloc, rest)
}

/// Whether what comes after the scheme has its form.
fn has_parts(rest: &[u8]) -> bool
    ensures { result ≡ is_some (after_scheme rest.now) }
{
    let (authority, path) = rest.split_at(before(b'/', rest));
    let (host, port) = authority.split_at(before(b':', authority));
    are_parts(host, port, path)
}

/// Whether a text is an address, of whatever length. It takes no memory.
#[tactic(auto, using(crate::proofs::AddressTexts::address_is, crate::proofs::AddressTexts::address_none))]
pub fn is_address(text: &str) -> bool
    ensures { result ≡ is_some (address_of text.now) }
{
    let bytes = text.as_bytes();
    if !bytes.starts_with(b"http://") {
        return false;
    }
    let (_, rest) = bytes.split_at(7);
    has_parts(rest)
}

/// Whether a text is a host with its port, `HOST:PORT`, of whatever length. It takes no memory.
#[tactic(auto, unfolding(crate::specs::Addresses::is_host_with_port))]
pub fn is_host_with_port(text: &str) -> bool
    ensures { result ≡ is_host_with_port text.now }
{
    let bytes = text.as_bytes();
    let (host, port) = bytes.split_at(before(b':', bytes));
    is_host(host) && port.len() >= 1 && is_port(port)
}
