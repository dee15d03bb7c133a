//! A message with a row that is too long for a producer over a shelf.

use crate::documents::{EIGHT, at, open_kept, put_rows, read};
use siri_base::List;
use siri_keep::{KeepError, Kept};
use siri_outside::{InMemoryShelf, Shelf};
use std::alloc::{AllocError, Global};
use std::test::Fail;

/// How many bytes a summary has so that its situation's row has one more than 8,388,608 bytes: `"Status":true` stands there
/// twice beside what is fed.
const SUMMARY: usize = 987;

/// Fifteen bytes of a name, each written with six signs.
const OF_A_NAME: &str = concat!(
    r"\u0001\u0001\u0001\u0001\u0001\u0001\u0001\u0001",
    r"\u0001\u0001\u0001\u0001\u0001\u0001\u0001"
);

/// A text so many times.
fn append_times(to: &mut String, text: &str, count: usize) -> Result<(), AllocError> {
    for _ in 0..count {
        to.push_str(text)?;
    }
    Ok(())
}

/// So many objects with a member, each of the longest name, which has 255 bytes.
fn append_names(to: &mut String, member: &str, count: usize) -> Result<(), AllocError> {
    for place in 0..count {
        to.push_str(if place == 0 { r#"{""# } else { r#",{""# })?;
        to.push_str(member)?;
        to.push_str(r#"":""#)?;
        append_times(to, OF_A_NAME, 17)?;
        to.push_str(r#""}"#)?;
    }
    Ok(())
}

/// A feed of the situation.
fn situation(alloc: Global) -> Result<String, AllocError> {
    let mut text = String::new(alloc);
    text.push_str(r#"{"Siri":{"ServiceDelivery":{"SituationExchangeDelivery":[{"Situations":{"#)?;
    text.push_str(r#""PtSituationElement":[{"Affects":{"Networks":{"AffectedNetwork":[{"#)?;
    text.push_str(r#""AffectedLine":["#)?;
    append_names(&mut text, "LineRef", 1417)?;
    text.push_str(r#"]}]},"Operators":{"AffectedOperator":["#)?;
    append_names(&mut text, "OperatorRef", 2000)?;
    text.push_str(r#"]},"StopPoints":{"AffectedStopPoint":["#)?;
    append_names(&mut text, "StopPointRef", 2000)?;
    text.push_str(r#"]}},"SituationNumber":"1","Summary":""#)?;
    append_times(&mut text, "n", SUMMARY)?;
    text.push_str(r#"","ValidityPeriod":[{"StartTime":"2024-05-01T08:00:00Z"}]}]}}]}}}"#)?;
    Ok(text)
}

/// Whether a producer over a shelf tells of the situation that its row is too long.
fn is_too_long<B: Shelf>(alloc: Global, shelf: &mut B, kept: &mut Kept) -> Result<bool, Fail>
    requires { B.Shelf.is_open shelf.old }
{
    let text = situation(alloc)?;
    let message = read(alloc, text.as_str())?;
    let taken = kept.take(shelf, &message);
    Ok(matches!(&taken, Err(KeepError::RowTooLong)))
}

#[test]
fn a_row_that_is_too_long_is_told(rt: HostRuntime) -> Result<(), Fail> {
    let mut shelf = InMemoryShelf::new(rt.alloc(), &[], None);
    put_rows(rt.alloc(), &mut shelf, &List::new(rt.alloc()))?;
    let mut kept = open_kept(rt.alloc(), &mut shelf, 1, at(EIGHT)?)?
        .ok()
        .ok_or("not opened")?;
    assert!(rt; is_too_long(rt.alloc(), &mut shelf, &mut kept)?);
    Ok(())
}
