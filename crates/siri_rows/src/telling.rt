//! What is told of a row that differs.

use crate::facts::{Fact, Facts};
use anyhow::Result;
use std::alloc::Global;

/// How many bytes are told of a fact from the place on at which it differs, and before that place.
const TOLD_AFTER: usize = 600;

const TOLD_BEFORE: usize = 100;

/// Prints each fact that is other than it was wanted. Whether there is none.
pub(crate) fn are_same(
    rt: &HostRuntime,
    name: &str,
    command: &str,
    wanted: &Facts,
    came: &Facts,
) -> Result<bool> {
    let mut same = true;
    for place in 0..wanted.all.len().max(came.all.len()) {
        let wanted = wanted.all.get(place);
        let came = came.all.get(place);
        if !is_same(wanted, came) {
            if same {
                println!(rt; "{name} ({command})")?;
            }
            tell_fact(rt, wanted, came)?;
            same = false;
        }
    }
    Ok(same)
}

/// Whether a fact is as it was wanted.
fn is_same(wanted: Option<&Fact>, came: Option<&Fact>) -> bool {
    match (wanted, came) {
        (Some(wanted), Some(came)) => wanted.says.as_slice() == came.says.as_slice(),
        (None, None) => true,
        _ => false,
    }
}

/// Prints what was wanted of a fact, and what came, each from shortly before the first byte in which they differ.
fn tell_fact(rt: &HostRuntime, wanted: Option<&Fact>, came: Option<&Fact>) -> Result<()> {
    let from = first_apart(says(wanted), says(came)).saturating_sub(TOLD_BEFORE);
    let label = label_of(wanted, came);
    let wanted = shown(rt.alloc(), wanted, from)?;
    let came = shown(rt.alloc(), came, from)?;
    println!(rt; "    {label}, from byte {from}")?;
    println!(rt; "    - wanted {wanted}")?;
    println!(rt; "    - came   {came}")?;
    Ok(())
}

/// What a fact says.
fn says(fact: Option<&Fact>) -> &[u8] {
    match fact {
        Some(fact) => &fact.says,
        None => b"",
    }
}

/// What a fact is about, of which there is at least one.
fn label_of(wanted: Option<&Fact>, came: Option<&Fact>) -> &'static str {
    match wanted.or(came) {
        Some(fact) => fact.label,
        None => "",
    }
}

/// The place of the first byte in which two texts differ.
fn first_apart(one: &[u8], other: &[u8]) -> usize {
    let apart = one.iter().zip(other).position(|(a, b)| a != b);
    apart.unwrap_or(one.len().min(other.len()))
}

/// What a fact says from a place on, as a text in which all is seen.
fn shown(alloc: Global, fact: Option<&Fact>, from: usize) -> Result<String> {
    let Some(fact) = fact else {
        return Ok(String::from_str(alloc, "nothing")?);
    };
    let (_, rest) = fact.says.split_at(from.min(fact.says.len()));
    let (told, _) = rest.split_at(TOLD_AFTER.min(rest.len()));
    let text = String::from_utf8_lossy(alloc, told)?;
    Ok(format!(in alloc; "{text:?}")?)
}
