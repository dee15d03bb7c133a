//! The forms of the arguments of commands.

ghost use Rattle.std.specs.Prelude.{◌≡◌, true, is_some, Some, IfOk, ◌≤◌, length};
ghost use Rattle.siri_cli.specs.Arguments.{count_of, is_listen, is_name, is_plain, producer_of};

use siri_base::{Name, OutOfMemory, TextError, number_of};
use siri_http::{Address, AddressError, is_address, is_host_with_port, read_address};
use std::alloc::Global;

/// The most events of a load.
pub(crate) const MOST_EVENTS: u64 = 20_000;

/// The most connections that a producer or a consumer serves.
pub(crate) const MOST_CONNECTIONS: u64 = 1_000_000;

/// Whether a word is a NAME: 1 to 255 bytes.
pub(crate) fn is_name(word: &str) -> bool
    ensures { result ≡ is_name word.now }
{
    word.len() >= 1 && word.len() <= 255
}

/// Whether a word is a LISTEN: `HOST:PORT` of 1 to 247 bytes.
pub(crate) fn is_listen(word: &str) -> bool
    ensures { result ≡ is_listen word.now }
{
    word.len() >= 1 && word.len() <= 247 && is_host_with_port(word)
}

/// Whether a word is a PRODUCER: an address of at most 255 bytes.
#[tactic(auto, unfolding(crate::specs::Arguments::producer_of))]
pub(crate) fn is_producer(word: &str) -> bool
    ensures { result ≡ is_some (producer_of word.now) }
{
    is_name(word) && is_address(word)
}

/// Whether no zero comes before other digits.
fn is_plain(word: &[u8]) -> bool
    ensures { result ≡ is_plain word.now }
{
    !matches!(word, [b'0', _, ..])
}

/// The COUNT of a word: a number from the least to the most, in digits without a leading zero.
#[tactic(auto, unfolding(crate::specs::Arguments::count_of))]
pub(crate) fn count_of(word: &str, least: u64, most: u64) -> Option<u64>
    ensures { result ≡ count_of least most word.now }
{
    if !is_plain(word.as_bytes()) {
        return None;
    }
    match number_of(word) {
        Some(count) if count >= least && count <= most => Some(count),
        _ => None,
    }
}

/// The name of a word, which no bound refuses.
pub(crate) fn name_of(alloc: Global, word: &str) -> Result<Name, OutOfMemory>
    requires some { 1 ≤ length word.now }
    requires bound { length word.now ≤ 255 }
    ensures { IfOk result (λ name. name ≡ word.now) }
{
    match Name::new(alloc, word) {
        Ok(name) => Ok(name),
        Err(TextError::OutOfMemory) => Err(OutOfMemory),
        Err(TextError::Empty | TextError::TooLong) => unreachable!(),
    }
}

/// The address of a word that is a PRODUCER.
#[tactic(auto, unfolding(crate::specs::Arguments::producer_of))]
pub(crate) fn producer_of(alloc: Global, word: &str) -> Result<Address, OutOfMemory>
    requires { is_some (producer_of word.now) ≡ true }
    ensures { IfOk result (λ producer. producer_of word.now ≡ Some producer) }
{
    match read_address(alloc, &name_of(alloc, word)?) {
        Ok(address) => Ok(address),
        Err(AddressError::OutOfMemory) => Err(OutOfMemory),
        Err(AddressError::BadAddress) => unreachable!(),
    }
}
