//! The row of a producer's moment, its start and its name.

ghost use Rattle.std.specs.Prelude.{◌≡◌, ◌≤◌, Some, IfOk, OnOk};
ghost use Rattle.siri_tables.specs.Proper.{IsNumber};
ghost use Rattle.siri_row_texts.specs.ItemRows.{moment_row};
ghost use Rattle.siri_row_texts.specs.Reading.{began_of_row, if_begun, parted};

use siri_base::{List, Moment, Name, OutOfMemory, TextError, append, append_number, number_of};
use siri_time::{read_moment, write_moment};
use std::alloc::Global;

/// What the row of a producer's moment says: the moment, the number of the start, from 1 on, and the producer's name.
#[derive(Drop)]
pub struct Began {
    pub moment: Moment,
    pub start: u64,
    pub name: Name,
}

/// `MOMENT START NAME`: a moment as SIRI writes it, the number of a start in decimal digits, and a producer's name as
/// it is.
#[tactic(auto, using(crate::proofs::Joined::five_parts))]
pub fn moment_row(
    alloc: Global,
    moment: Moment,
    start: u64,
    name: &Name,
) -> Result<List<u8>, OutOfMemory>
    ensures text { IfOk result (λ text. text ≡ moment_row moment start name.now) }
    ensures read { OnOk result (1 ≤ start → IsNumber start
        → began_of_row (moment_row moment start name.now) ≡ Some (record { moment = moment; start = start; name = name.now })) }
{
    let mut written = [0u8; 24];
    let count = write_moment(moment, &mut written);
    let mut text = Vec::new(alloc);
    append(&mut text, &written[..count])?;
    append(&mut text, b" ")?;
    append_number(alloc, &mut text, start)?;
    append(&mut text, b" ")?;
    append(&mut text, name.text().as_bytes())?;
    Ok(List::of(text))
}

/// A moment, a start and a name, parted by the first space and by the one that follows it.
fn parted(alloc: Global, text: &str) -> Result<Option<Began>, OutOfMemory>
    ensures { IfOk result (λ began. began ≡ parted text.now) }
{
    let Some((moment, rest)) = text.split_once(' ') else {
        return Ok(None);
    };
    let Some((start, name)) = rest.split_once(' ') else {
        return Ok(None);
    };
    let (Ok(moment), Some(start)) = (read_moment(moment.as_bytes()), number_of(start)) else {
        return Ok(None);
    };
    match Name::new(alloc, name) {
        Ok(name) => Ok(Some(Began {
            moment,
            start,
            name,
        })),
        Err(TextError::OutOfMemory) => Err(OutOfMemory),
        Err(TextError::Empty | TextError::TooLong) => Ok(None),
    }
}

/// What was begun, where this is its row.
fn if_begun(alloc: Global, began: Began, text: &[u8]) -> Result<Option<Began>, OutOfMemory>
    ensures { IfOk result (λ found. found ≡ if_begun text.now began) }
{
    let written = moment_row(alloc, began.moment, began.start, &began.name)?;
    if began.start >= 1 && written.slice() == text {
        Ok(Some(began))
    } else {
        Ok(None)
    }
}

/// The moment, the start and the name whose row this is: `None` exactly where the text isn't what [`moment_row`] would
/// write of a moment, a start from 1 to 999,999,999,999,999,999 and a name.
#[tactic(auto, unfolding(crate::specs::Reading::began_of_row))]
pub fn began_of_row(alloc: Global, text: &[u8]) -> Result<Option<Began>, OutOfMemory>
    ensures { IfOk result (λ began. began ≡ began_of_row text.now) }
{
    let Ok(whole) = str::from_utf8(text) else {
        return Ok(None);
    };
    match parted(alloc, whole)? {
        Some(began) => if_begun(alloc, began, text),
        None => Ok(None),
    }
}
