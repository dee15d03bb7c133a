//! The parts of a target, and the pairs of its query.

ghost use Rattle.std.specs.Prelude.{◌≡◌, IfOk, option_map};
ghost use Rattle.std.specs.Cow.{cow_str_bytes};
ghost use Rattle.siri_queries.specs.Pairs.{path_in, query_in, first_value};

use form_urlencoded::{decode, raw_pairs};
use siri_base::OutOfMemory;
use std::alloc::Global;
use std::borrow::CowStr;

/// The path of a target, which is what stands before its first `?`, and its query, which is what stands behind that; a
/// target without a `?` is all path.
pub(crate) fn parts(target: &[u8]) -> (&[u8], &[u8])
    ensures path { result.0.now ≡ path_in target.now }
    ensures query { result.1.now ≡ query_in target.now }
{
    match target.iter().position(|&byte| byte == b'?') {
        Some(place) => (&target[..place], &target[place + 1..]),
        None => (target, &[]),
    }
}

/// The value of the first pair of that name: `None` exactly where no pair of the query has it. Of a name or a value
/// that isn't UTF-8, once its escapes are read, each part that isn't is U+FFFD.
pub(crate) fn first_value<'a>(
    alloc: Global,
    query: &'a [u8],
    wanted: &str,
) -> Result<Option<CowStr<'a>>, OutOfMemory>
    ensures { IfOk result (λ found. option_map cow_str_bytes found ≡ first_value wanted.now query.now) }
{
    for (name, value) in raw_pairs(query) {
        if decode(alloc, name)?.as_str() == wanted {
            return Ok(Some(decode(alloc, value)?));
        }
    }
    Ok(None)
}
