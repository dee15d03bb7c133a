//! The documents of one visit, written out by hand.

ghost use Rattle.std.specs.Prelude.{◌≤◌, IfOk, OnOk};
ghost use Rattle.siri_wire.specs.laws.ProperMessages.{IsProper};

use siri_base::{List, Moment, Name, OutOfMemory};
use siri_keep::{KeepError, Kept};
use siri_messages::Message;
use siri_outside::{Put, Shelf};
use siri_wire::decode;
use std::alloc::Global;
use std::test::Fail;

/// A document with the visit of these tests in it, which departs at 08:50: what stands before it, and what after it.
macro_rules! with_visit {
    ([$($before:literal),*], [$($after:literal),*]) => {
        concat!(
            $($before,)*
            r#"{"ItemIdentifier":"a","MonitoredVehicleJourney":{"LineRef":"L1","#,
            r#""MonitoredCall":{"ExpectedDepartureTime":"2024-05-01T08:50:00Z"}},"MonitoringRef":"S1"}"#,
            $($after),*
        )
    };
}

/// 1 May 2024 at 08:00 in UTC, in milliseconds since 1970.
pub(crate) const EIGHT: i64 = 1_714_550_400_000;

/// A feed of the visit.
pub(crate) const FEED: &str = with_visit!(
    [r#"{"Siri":{"ServiceDelivery":{"StopMonitoringDelivery":[{"MonitoredStopVisit":["#],
    ["]}]}}}"]
);

/// A request for what is shown at the stop in the next hour.
pub(crate) const QUESTION: &str =
    r#"{"Siri":{"ServiceRequest":{"StopMonitoringRequest":[{"MonitoringRef":"S1","PreviewInterval":"PT1H"}]}}}"#;

/// Its answer at 08:00 with the visit.
pub(crate) const WITH_VISIT: &str = with_visit!(
    [
        r#"{"Siri":{"ServiceDelivery":{"ProducerRef":"producer","#,
        r#""ResponseTimestamp":"2024-05-01T08:00:00Z","Status":true,"#,
        r#""StopMonitoringDelivery":[{"MonitoredStopVisit":["#
    ],
    [r#"],"ResponseTimestamp":"2024-05-01T08:00:00Z","Status":true}]}}}"#]
);

/// And without it.
pub(crate) const WITHOUT_VISIT: &str = concat!(
    r#"{"Siri":{"ServiceDelivery":{"ProducerRef":"producer","#,
    r#""ResponseTimestamp":"2024-05-01T08:00:00Z","Status":true,"#,
    r#""StopMonitoringDelivery":[{"ResponseTimestamp":"2024-05-01T08:00:00Z","#,
    r#""Status":true}]}}}"#
);

/// The message of a document.
#[tactic(auto, using(crate::proofs::Proper::read_proper))]
pub(crate) fn read(alloc: Global, text: &str) -> Result<Message, Fail>
    ensures { IfOk result (λ message. IsProper message) }
{
    Ok(decode(alloc, text.as_bytes())?)
}

/// A moment, in milliseconds since 1970.
pub(crate) fn at(ms: i64) -> Result<Moment, Fail> {
    Ok(Moment::new(ms).ok_or("no moment")?)
}

/// A name.
pub(crate) fn named(alloc: Global, text: &str) -> Result<Name, Fail> {
    Ok(Name::new(alloc, text)?)
}

/// The bytes of a text.
fn bytes(alloc: Global, text: &[u8]) -> Result<List<u8>, OutOfMemory> {
    let mut bytes = Vec::new(alloc);
    bytes.extend_from_slice(text)?;
    Ok(List::of(bytes))
}

/// Puts a row.
pub(crate) fn append_row(
    alloc: Global,
    puts: &mut List<Put>,
    table: u8,
    key: &[u8],
    text: &[u8],
) -> Result<(), OutOfMemory> {
    puts.push(Put {
        table,
        key: bytes(alloc, key)?,
        text: Some(bytes(alloc, text)?),
    })
}

/// Opens a shelf and puts rows.
pub(crate) fn put_rows<B: Shelf>(alloc: Global, shelf: &mut B, puts: &List<Put>) -> Result<(), Fail>
    ensures { OnOk result (B.Shelf.is_open shelf.new) }
{
    let file = named(alloc, "rows")?;
    shelf.open(&file)?;
    shelf.write(puts)?;
    Ok(())
}

/// Opens a producer over a shelf.
pub(crate) fn open_kept<B: Shelf>(
    alloc: Global,
    shelf: &mut B,
    start: u64,
    now: Moment,
) -> Result<Result<Kept, KeepError>, Fail>
    requires there { B.Shelf.is_open shelf.old }
    requires from_one { 1 ≤ start }
    requires small { start ≤ 2 }
    ensures { B.Shelf.is_open shelf.new }
{
    let name = named(alloc, "producer")?;
    Ok(Kept::open(alloc, shelf, name, start, now))
}
