//! Texts, with others put into them.
//!
//! A text is a string, or a list of parts that are joined. A part is a string, `{ text, times }`, a string that stands
//! so many times, or `{ bytes }`, bytes that are no text.
//!
//! `<NAME WORD..>` in a text stands for the text of that name, in which `<1>`, `<2>`, .. stand for the words, and `<#>`
//! in a part that stands several times for its number, from 1 on. No other `<` stands in a text.

use crate::members::{has_only, number_of, numbers_in};
use anyhow::{Context, Result, anyhow, bail};
use memchr::memchr;
use std::alloc::Global;
use toml::{Table, Value};

/// How often a text is put into another at most.
const MOST_DEPTH: usize = 16;

/// The texts that a file names, and those that all files share.
#[derive(Clone, Copy)]
pub(crate) struct Texts<'a> {
    own: &'a Table,
    shared: &'a Table,
}

impl<'a> Texts<'a> {
    /// The texts of a file, and of the one that all files share.
    pub(crate) fn new(own: &'a Table, shared: &'a Table) -> Self {
        Texts { own, shared }
    }

    /// The bytes of a text, with all others put in.
    pub(crate) fn bytes(&self, alloc: Global, text: &Value) -> Result<Vec<u8>> {
        let mut bytes = Vec::new(alloc);
        append_text(alloc, &mut bytes, text, &[])?;
        for _ in 0..MOST_DEPTH {
            if memchr(b'<', &bytes).is_none() {
                return Ok(bytes);
            }
            bytes = self.with_texts(alloc, &bytes)?;
        }
        bail!("texts that stand in themselves")
    }

    /// A text, with what each of its names stands for in its place.
    fn with_texts(&self, alloc: Global, text: &[u8]) -> Result<Vec<u8>> {
        let mut into = Vec::new(alloc);
        let mut pieces = text.split(|byte| *byte == b'<');
        if let Some(first) = pieces.next() {
            into.extend_from_slice(first)?;
        }
        for piece in pieces {
            let end = memchr(b'>', piece).context("a < without its >")?;
            let (name, rest) = piece.split_at(end);
            self.append_named(alloc, &mut into, name)?;
            into.extend_from_slice(rest.split_first().context("a < without its >")?.1)?;
        }
        Ok(into)
    }

    /// Puts the text of a name at the end, with the words after the name put into it: `<1>` is the first of them.
    fn append_named(&self, alloc: Global, into: &mut Vec<u8>, name: &[u8]) -> Result<()> {
        let name = str::from_utf8(name)?;
        let words = name.split(' ').collect::<Vec<&str>>(alloc)?;
        let first = words.first().context("no name of a text")?;
        match named(self.own, first).or(named(self.shared, first)) {
            Some(text) => append_text(alloc, into, text, &words),
            None => Err(anyhow!("no text is named <{name}>")),
        }
    }
}

/// The text of a name.
fn named<'a>(file: &'a Table, name: &str) -> Option<&'a Value> {
    file.get("texts")?.as_table()?.get(name)
}

/// Puts a text at the end, with words for its places; the first of them is its name, of which there is no place.
fn append_text(alloc: Global, into: &mut Vec<u8>, text: &Value, words: &[&str]) -> Result<()> {
    match text {
        Value::Array(parts) => {
            for part in parts {
                append_part(alloc, into, part, words)?;
            }
            Ok(())
        }
        part => append_part(alloc, into, part, words),
    }
}

/// Puts a part at the end.
fn append_part(alloc: Global, into: &mut Vec<u8>, part: &Value, words: &[&str]) -> Result<()> {
    match part {
        Value::String(text) => append_filled(into, text, words, ""),
        Value::Table(part) if part.contains_key("bytes") => append_bytes(alloc, into, part),
        Value::Table(part) => append_repeated(alloc, into, part, words),
        _ => bail!("a text is a string or a list of strings and of parts"),
    }
}

/// Puts bytes at the end.
fn append_bytes(alloc: Global, into: &mut Vec<u8>, part: &Table) -> Result<()> {
    has_only(part, &["bytes"])?;
    for number in numbers_in(alloc, part, "bytes")? {
        into.push(u8::try_from(number)?)?;
    }
    Ok(())
}

/// Puts a part that stands several times at the end.
fn append_repeated(alloc: Global, into: &mut Vec<u8>, part: &Table, words: &[&str]) -> Result<()> {
    has_only(part, &["text", "times"])?;
    let text = part.get("text").and_then(Value::as_str);
    let text = text.context("a part with no text")?;
    let times = number_of(part.get("times").context("a part with no times")?)?;
    let has_places = text.contains('<');
    for number in 0..times {
        if has_places {
            let count = number.saturating_add(1).to_string(alloc)?;
            append_filled(into, text, words, count.as_str())?;
        } else {
            into.extend_from_slice(text.as_bytes())?;
        }
    }
    Ok(())
}

/// Puts a string at the end, with words for its places and a number for that of the number.
fn append_filled(into: &mut Vec<u8>, text: &str, words: &[&str], number: &str) -> Result<()> {
    let mut pieces = text.split('<');
    if let Some(first) = pieces.next() {
        into.extend_from_slice(first.as_bytes())?;
    }
    for piece in pieces {
        append_piece(into, piece, words, number)?;
    }
    Ok(())
}

/// Puts a piece at the end that a `<` stood before, with what the place at its front stands for, where there is one.
fn append_piece(into: &mut Vec<u8>, piece: &str, words: &[&str], number: &str) -> Result<()> {
    let Some((place, rest)) = place_of(piece) else {
        into.push(b'<')?;
        into.extend_from_slice(piece.as_bytes())?;
        return Ok(());
    };
    if place == 0 {
        into.extend_from_slice(number.as_bytes())?;
    } else {
        let word = words.get(place).context("no word for a place")?;
        into.extend_from_slice(word.as_bytes())?;
    }
    into.extend_from_slice(rest.as_bytes())?;
    Ok(())
}

/// The place at the front of a piece, 0 where it is that of the number, and what comes after it.
fn place_of(piece: &str) -> Option<(usize, &str)> {
    let (place, rest) = piece.split_once('>')?;
    if place == "#" {
        return Some((0, rest));
    }
    Some((place.parse::<usize>().ok()?, rest))
}
