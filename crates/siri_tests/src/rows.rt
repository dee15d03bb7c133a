//! Rows that a producer keeps, written to a shelf and told by it.

use siri_base::{List, OutOfMemory};
use siri_outside::{OutsideError, Put, Row, Shelf};
use std::alloc::Global;

/// A table, a key, and the text that is put there; without a text the row goes.
pub(crate) type Written = (u8, &'static str, Option<&'static str>);

/// The row of a moment, a start and a name.
pub(crate) const MOMENT: &str = "2024-05-01T08:00:00Z 1 p";

/// The key of a visit's row.
pub(crate) const VISIT: &str = concat!(
    r#"{"Siri":{"ServiceDelivery":{"Status":true,"StopMonitoringDelivery":["#,
    r#"{"MonitoredStopVisitCancellation":[{"ItemRef":"a","MonitoringRef":"S1"}],"#,
    r#""Status":true}]}}}"#
);

/// Its text, with a departure at 08:50.
pub(crate) const DEPARTURE: &str = concat!(
    r#"{"Siri":{"ServiceDelivery":{"Status":true,"StopMonitoringDelivery":["#,
    r#"{"MonitoredStopVisit":["#,
    r#"{"ItemIdentifier":"a","MonitoredVehicleJourney":{"LineRef":"L1","#,
    r#""MonitoredCall":{"ExpectedDepartureTime":"2024-05-01T08:50:00Z"}},"MonitoringRef":"S1"}"#,
    r#"],"Status":true}]}}}"#
);

/// What is written at first: out of order, one row twice, and one that goes later.
pub(crate) static FIRST: [Written; 5] = [
    (1, "x", Some("y")),
    (1, VISIT, Some("an older text")),
    (1, "y", Some("")),
    (0, "", Some(MOMENT)),
    (1, VISIT, Some(DEPARTURE)),
];

/// What is written then.
pub(crate) static SECOND: [Written; 3] = [(1, "y", None), (1, "z", None), (3, "x", Some("w"))];

/// The bytes of a text.
fn bytes(alloc: Global, text: &str) -> Result<List<u8>, OutOfMemory> {
    let mut bytes = Vec::new(alloc);
    bytes.extend_from_slice(text.as_bytes())?;
    Ok(List::of(bytes))
}

/// A put of a table, a key and a text.
fn put_of(alloc: Global, table: u8, key: &str, text: Option<&str>) -> Result<Put, OutOfMemory> {
    let text = match text {
        Some(text) => Some(bytes(alloc, text)?),
        None => None,
    };
    Ok(Put {
        table,
        key: bytes(alloc, key)?,
        text,
    })
}

/// The puts of what is written.
pub(crate) fn puts(alloc: Global, written: &[Written]) -> Result<List<Put>, OutOfMemory> {
    let mut puts = List::new(alloc);
    for (table, key, text) in written {
        puts.push(put_of(alloc, *table, key, *text)?)?;
    }
    Ok(puts)
}

/// Whether this row was told.
fn is_row(told: &Option<Row>, wanted: Option<(&str, &str)>) -> bool {
    match (told, wanted) {
        (Some(row), Some((key, text))) => row.key.slice() == key.as_bytes()
            && row.text.slice() == text.as_bytes(),
        (None, None) => true,
        _ => false,
    }
}

/// Whether a shelf tells this row of a table as the next one.
fn is_next<B: Shelf>(
    shelf: &mut B,
    table: u8,
    after: Option<&str>,
    wanted: Option<(&str, &str)>,
) -> Result<bool, OutsideError>
    requires { B.Shelf.is_open shelf.old }
    ensures { B.Shelf.is_open shelf.new }
{
    let after = match after {
        Some(key) => Some(key.as_bytes()),
        None => None,
    };
    let told = shelf.next(table, after)?;
    Ok(is_row(&told, wanted))
}

/// Whether a shelf tells what was written to it: each row once, in order of its key, with its last text, and not the
/// one that went.
pub(crate) fn are_told<B: Shelf>(shelf: &mut B) -> Result<bool, OutsideError>
    requires { B.Shelf.is_open shelf.old }
    ensures { B.Shelf.is_open shelf.new }
{
    let moment = is_next(shelf, 0, None, Some(("", MOMENT)))?;
    let only = is_next(shelf, 0, Some(""), None)?;
    let first = is_next(shelf, 1, None, Some(("x", "y")))?;
    let visit = is_next(shelf, 1, Some("x"), Some((VISIT, DEPARTURE)))?;
    let last = is_next(shelf, 1, Some(VISIT), None)?;
    let none = is_next(shelf, 2, None, None)?;
    let other = is_next(shelf, 3, Some("w"), Some(("x", "w")))?;
    Ok(moment && only && first && visit && last && none && other)
}
