//! DataSupplyRequest.

ghost use Rattle.std.specs.Prelude.{◌≡◌, ℕ, List, Ok, is_ok, slice_get, IfOk, OnOk, OnErr};
ghost use Rattle.siri_life.specs.Slot.{with_supply};
ghost use Rattle.siri_subs.specs.declared.entry.Row.{Row};
ghost use Rattle.siri_subs.specs.Lent.{entry_of};
ghost use Rattle.siri_subs.specs.Loans.{with_slot};
ghost use Rattle.siri_subscriptions.specs.declared.course.Course.{Course};
ghost use Rattle.siri_subscriptions.specs.Courses.{kept_row, kept_rows};
ghost use Rattle.siri_subscriptions.specs.Noted.{looked_in};
ghost use Rattle.siri_subscriptions.specs.Acknowledgements.{names_wanted};
ghost use Rattle.siri_subscriptions.specs.Supplies.{not_supplied, rows_supplied, supply_answer, supply_of};
ghost use Rattle.siri_subscriptions.specs.Supplying.{Supplies, answer_asked, answer_by, is_supplied};

use crate::course::Course;
use crate::replies::{part_delivery, refused_supply};
use siri_base::{Moment, Name, OutOfMemory, Place};
use siri_messages::{DataSupplyRequest, Mark, ServiceDelivery};
use siri_subs::{Entry, Part, SupplyError, Table};
use std::alloc::Global;

/// What a request for a part is answered.
#[derive(Drop)]
pub struct SupplyAnswer {
    /// Whether the part is supplied, and where it isn't, why.
    pub outcome: Result<(), SupplyError>,
    /// The part, or a delivery with Status false that says why there is none.
    pub delivery: ServiceDelivery,
}

/// Takes a request for a part at a moment, in a start of a producer of this name. The part is supplied exactly where
/// the subscription is held and delivery is fetched, a round of it is outstanding, and the mark's number, start, round
/// and part are those wanted; then a message of it was sent now. `NothingReady` comes exactly where the subscription
/// isn't held, delivery isn't fetched, or no round is outstanding, and `WrongPart` with the wanted place in all other
/// cases: with both nothing changes. After want of memory the table is as it was.
pub fn supply(
    alloc: Global,
    table: &mut Table<Course>,
    producer: &Name,
    start: u64,
    now: Moment,
    request: &DataSupplyRequest,
) -> Result<SupplyAnswer, OutOfMemory>
    ensures answer { IfOk result (λ answer. answer ≡ supply_answer producer.now start now request.now (kept_rows table.old)) }
    ensures rows { OnOk result (kept_rows table.new ≡ rows_supplied start now request.now.consumer_ref request.now.extensions (kept_rows table.old)) }
    ensures looked { OnOk result (looked_in table.new ≡ looked_in table.old) }
    ensures err { OnErr result (table.new ≡ table.old) }
{
    match asked_part(table, start, request) {
        Ok(asked) => {
            let AskedPart { place, row, part } = asked;
            let delivery = part_delivery(alloc, producer, row.wanted, row.number, start, &part)?;
            supply_part(table, place, now, &request.extensions);
            Ok(SupplyAnswer {
                outcome: Ok(()),
                delivery,
            })
        }
        Err(why) => not_supplied(alloc, producer, now, why),
    }
}

/// As [`supply`], of a part that the table is to lend: it makes no delivery and takes no memory.
pub fn supply_lent(
    table: &mut Table<Course>,
    start: u64,
    now: Moment,
    request: &DataSupplyRequest,
) -> Result<(), SupplyError>
    ensures outcome { (producer : List ℕ) → result ≡ (supply_answer producer start now request.now (kept_rows table.old)).outcome }
    ensures rows { kept_rows table.new ≡ rows_supplied start now request.now.consumer_ref request.now.extensions (kept_rows table.old) }
    ensures looked { looked_in table.new ≡ looked_in table.old }
{
    match asked_part(table, start, request) {
        Ok(asked) => {
            let place = asked.place;
            supply_part(table, place, now, &request.extensions);
            Ok(())
        }
        Err(why) => Err(why),
    }
}

/// A part that is asked for and to be supplied, lent by the row at a place.
#[derive(Drop)]
pub(crate) struct AskedPart<'a> {
    place: usize,
    row: Entry<'a, Course>,
    part: Part<'a>,
}

/// The part that a request asks for, or why it isn't supplied.
fn asked_part<'a>(
    table: &'a Table<Course>,
    start: u64,
    request: &DataSupplyRequest,
) -> Result<AskedPart<'a>, SupplyError>
    ensures answer { (producer : List ℕ) (now : ℕ) → answer_asked producer start now result ≡ supply_answer producer start now request.now (kept_rows table.now) }
    ensures ok { IfOk result (λ asked. (now : ℕ) → Supplies start now request.now table.now asked.place (entry_of asked.row)) }
    ensures err { OnErr result ((now : ℕ) → kept_rows table.now ≡ rows_supplied start now request.now.consumer_ref request.now.extensions (kept_rows table.now)) }
{
    let mark = &request.extensions;
    let Some(place) = table.place_of(&request.consumer_ref, &mark.subscription) else {
        return Err(SupplyError::NothingReady);
    };
    let Some(row) = table.at(place) else {
        return Err(SupplyError::NothingReady);
    };
    match wanted_part(start, mark, &row) {
        Ok(part) => Ok(AskedPart { place, row, part }),
        Err(why) => Err(why),
    }
}

/// The part that a mark asks for of the row of its subscription, or why it isn't supplied.
fn wanted_part<'a>(
    start: u64,
    mark: &Mark,
    row: &Entry<'a, Course>,
) -> Result<Part<'a>, SupplyError>
    ensures answer { (producer : List ℕ) (now : ℕ) → answer_by producer start now (kept_row (entry_of row.now)) result ≡ supply_of producer start now mark.now (kept_row (entry_of row.now)) }
    ensures supplied { is_ok result ≡ is_supplied start mark.now (kept_row (entry_of row.now)) }
{
    match row.slot.rounds.part() {
        Some(part) if row.slot.rounds.fetched() => {
            if is_wanted(start, mark, row) {
                Ok(part)
            } else {
                Err(SupplyError::WrongPart { wanted: part.place })
            }
        }
        _ => Err(SupplyError::NothingReady),
    }
}

/// A mark names the wanted part of a row, under its number and in a start.
fn is_wanted(start: u64, mark: &Mark, row: &Entry<'_, Course>) -> bool
    ensures { result ≡ names_wanted start mark.now (kept_row (entry_of row.now)) }
{
    let place = Place {
        round: mark.round,
        part: mark.part,
    };
    mark.number == row.number && mark.start == start && row.slot.rounds.outstanding() == Some(place)
}

/// What a request is answered where no part is supplied.
fn not_supplied(
    alloc: Global,
    producer: &Name,
    now: Moment,
    why: SupplyError,
) -> Result<SupplyAnswer, OutOfMemory>
    ensures { IfOk result (λ answer. answer ≡ not_supplied producer.now now why) }
{
    Ok(SupplyAnswer {
        outcome: Err(why),
        delivery: refused_supply(alloc, producer, now, why)?,
    })
}

/// The part that a mark names was sent now, by the row at a place, where it is the wanted one of a round that is to be
/// fetched.
fn supply_part(table: &mut Table<Course>, place: usize, now: Moment, mark: &Mark)
    ensures { (row : Row Course) → slice_get table.old place ≡ Some row
        → table.new ≡ with_slot table.old place (record row.slot { rounds = with_supply row.slot.rounds mark.now.round mark.now.part now }) }
{
    if let Some(course) = table.at_mut(place) {
        let _ = course.rounds.supply(
            Place {
                round: mark.round,
                part: mark.part,
            },
            now,
        );
    }
}
