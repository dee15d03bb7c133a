//! What the fields of a head say of its body.

ghost use Rattle.std.specs.Prelude.{◌≡◌, map, false, IfErr};
ghost use Rattle.std.specs.Str.{str_eq_ignore_ascii_case};
ghost use Rattle.httparse.specs.Borrowed.{header_parts};
ghost use Rattle.siri_base.specs.Numbers.{number_of};
ghost use Rattle.siri_http.specs.Bodies.{body_length, values};
ghost use Rattle.siri_http.specs.inner.Faults.{is_fault};
ghost use Rattle.siri_http.specs.inner.Found.{values_of, count_of, one_more};

use crate::HttpError;
use httparse::Header;
use siri_base::number_of;

/// The most fields that a head may have.
pub(crate) const MOST_FIELDS: usize = 64;

/// The most bytes that a body may have.
pub(crate) const LONGEST_BODY: u64 = 8_388_608;

/// The fields of a name.
#[derive(Clone, Copy, Debug)]
enum Values<'a> {
    Nowhere,
    /// One, with its value.
    Once(&'a [u8]),
    Twice,
}

impl<'a> Values<'a> {
    /// One field more, with this value.
    fn and(self, value: &'a [u8]) -> Values<'a>
        ensures { values_of result ≡ one_more (values_of self.entry) value.now }
    {
        match self {
            Values::Nowhere => Values::Once(value),
            _ => Values::Twice,
        }
    }
}

/// Whether two names of fields are one; the case of letters makes no difference.
fn same_name(name: &str, other: &str) -> bool
    ensures { result ≡ str_eq_ignore_ascii_case name.now other.now }
{
    name.eq_ignore_ascii_case(other)
}

/// The fields of that name.
#[tactic(auto, using(crate::proofs::FieldValues::none_named))]
fn named<'a>(headers: &[Header<'a>], name: &str) -> Values<'a>
    ensures { values_of result ≡ count_of (values name.now (map header_parts headers.now)) }
{
    let mut found = Values::Nowhere;
    for header in headers {
        if same_name(header.name, name) {
            found = found.and(header.value);
        }
    }
    found
}

/// The number of 1 to 18 digits; `None` exactly where the bytes aren't of this form.
#[tactic(auto, using(crate::proofs::Numbers::no_text_no_number))]
pub(crate) fn number_in(text: &[u8]) -> Option<u64>
    ensures { result ≡ number_of text.now }
{
    match std::str::from_utf8(text) {
        Ok(text) => number_of(text),
        Err(_) => None,
    }
}

/// The length of the body after a head with these fields. `wanted` says whether the message must give it.
#[tactic(auto, unfolding(crate::specs::Bodies::body_length))]
pub(crate) fn body_length(wanted: bool, headers: &[Header<'_>]) -> Result<usize, HttpError>
    ensures length { result ≡ body_length wanted (map header_parts headers.now) }
    ensures known { IfErr result (λ e. is_fault e ≡ false) }
{
    let coded = !matches!(named(headers, "Transfer-Encoding"), Values::Nowhere);
    let length = match named(headers, "Content-Length") {
        Values::Nowhere => None,
        Values::Once(value) => Some(number_in(value).ok_or(HttpError::BadHead)?),
        Values::Twice => return Err(HttpError::BadHead),
    };
    match length {
        _ if coded => Err(HttpError::TransferCoding),
        None if wanted => Err(HttpError::NoLength),
        None => Ok(0),
        Some(length) if length > LONGEST_BODY => Err(HttpError::BodyTooLong),
        Some(length) => Ok(length as usize),
    }
}
