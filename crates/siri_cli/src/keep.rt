//! `keep NAME LISTEN FILE COUNT`.

ghost use Rattle.std.specs.Prelude.{◌≡◌, map, string_bytes, None, Some, Ok, IfOk, OnErr};
ghost use Rattle.siri_cli.specs.Keeping.{IsKeep, keep_by, keep_of, keep_word, keep_words};

use crate::arguments::{MOST_CONNECTIONS, count_of, is_listen, is_name, name_of};
use crate::command::begin_with_minus;
use siri_base::{Name, OutOfMemory};
use std::alloc::Global;

/// What the words of `keep` ask for: to serve connections as a producer whose observations and subscriptions are in a
/// file.
#[derive(Debug, Drop)]
pub struct Keep {
    /// The producer's name.
    pub name: Name,
    /// The host and the port that it listens at.
    pub listen: Name,
    /// The file, of 1 to 255 bytes.
    pub file: Name,
    /// How many connections it serves, 1 to 1,000,000.
    pub count: u64,
}

/// What the words after the program's name ask of `keep`, or `None` exactly where they are no plain spelling of it, which
/// takes no memory.
#[tactic(auto, using(crate::proofs::Lists::any_of_map))]
pub fn read_keep(alloc: Global, words: &[String]) -> Result<Option<Keep>, OutOfMemory>
    ensures value { IfOk result (λ keep. keep ≡ keep_of (map string_bytes words.now)) }
    ensures none { keep_of (map string_bytes words.now) ≡ None → result ≡ Ok None }
    ensures memory { OnErr result (IsKeep (keep_of (map string_bytes words.now))) }
{
    if begin_with_minus(words) {
        return Ok(None);
    }
    keep_words(alloc, words)
}

/// The same of words of which none begins with `-`.
#[tactic(auto, using(crate::proofs::Lists::no_keep))]
fn keep_words(alloc: Global, words: &[String]) -> Result<Option<Keep>, OutOfMemory>
    ensures value { IfOk result (λ keep. keep ≡ keep_words (map string_bytes words.now)) }
    ensures none { keep_words (map string_bytes words.now) ≡ None → result ≡ Ok None }
    ensures memory { OnErr result (IsKeep (keep_words (map string_bytes words.now))) }
{
    match words {
        [word, name, listen, file, count] => keep_word(
            alloc,
            word.as_str(),
            name.as_str(),
            listen.as_str(),
            file.as_str(),
            count.as_str(),
        ),
        _ => Ok(None),
    }
}

/// The same of five words.
fn keep_word(
    alloc: Global,
    word: &str,
    name: &str,
    listen: &str,
    file: &str,
    count: &str,
) -> Result<Option<Keep>, OutOfMemory>
    ensures value { IfOk result (λ keep. keep ≡ keep_word word.now name.now listen.now file.now count.now) }
    ensures none { keep_word word.now name.now listen.now file.now count.now ≡ None → result ≡ Ok None }
    ensures memory { OnErr result (IsKeep (keep_word word.now name.now listen.now file.now count.now)) }
{
    if word == "keep" {
        keep_by(alloc, name, listen, file, count)
    } else {
        Ok(None)
    }
}

/// What the four arguments ask for, or `None` exactly where one isn't of its form.
fn keep_by(
    alloc: Global,
    name: &str,
    listen: &str,
    file: &str,
    count: &str,
) -> Result<Option<Keep>, OutOfMemory>
    ensures value { IfOk result (λ keep. keep ≡ keep_by name.now listen.now file.now count.now) }
    ensures none { keep_by name.now listen.now file.now count.now ≡ None → result ≡ Ok None }
    ensures memory { OnErr result (IsKeep (keep_by name.now listen.now file.now count.now)) }
{
    if !(is_name(name) && is_listen(listen) && is_name(file)) {
        return Ok(None);
    }
    let Some(count) = count_of(count, 1, MOST_CONNECTIONS) else {
        return Ok(None);
    };
    Ok(Some(Keep {
        name: name_of(alloc, name)?,
        listen: name_of(alloc, listen)?,
        file: name_of(alloc, file)?,
        count,
    }))
}
