//! DataSupplyRequest with AllData.

ghost use Rattle.std.specs.Prelude.{◌≡◌, find, option_map, Err, None, IfOk, IfSome, OnOk, OnErr};
ghost use Rattle.siri_subs.specs.declared.errors.RenumberError.{RenumberError as NotRenewed};
ghost use Rattle.siri_subs.specs.Table.{EachOnce, is_of, renumber_answer};
ghost use Rattle.siri_subscriptions.specs.Courses.{kept, kept_rows};
ghost use Rattle.siri_subscriptions.specs.Noted.{noted_renewed, noted_rows};
ghost use Rattle.siri_subscriptions.specs.Renewals.{renew_answer, rows_renewed};
ghost use Rattle.siri_subscriptions.specs.Renewing.{anew, answer_as};

use crate::course::Course;
use crate::prepared::held;
use crate::replies::{Refusal, all_data_response};
use siri_base::{Moment, Name, OutOfMemory, beside};
use siri_messages::{DataSupplyRequest, ServiceDelivery};
use siri_subs::{Accepted, RenumberError, Table};
use std::alloc::Global;

/// What a request for all of a subscription is answered.
#[derive(Drop)]
pub struct RenewAnswer {
    /// How the table took it, and where it didn't, why.
    pub outcome: Result<Accepted, RenumberError>,
    /// A delivery without functional deliveries: the parts are delivered by themselves. Where the request is refused it
    /// has Status false, and says why.
    pub delivery: ServiceDelivery,
}

/// Takes a request for all of a subscription at a moment, for a producer of this name: the mark's Number is the number
/// of the request, and its Round the base, the number of the SubscriptionRequest that was accepted. That acceptance is
/// renewed where it is held under a smaller number: it begins anew under this one. Where it is held under this very
/// number, nothing changes. Otherwise it is refused, and nothing changes either: `UnknownSubscription` where it isn't
/// held, `Superseded` where it is held under a greater number. After want of memory the table is as it was.
pub fn renew(
    alloc: Global,
    table: &mut Table<Course>,
    producer: &Name,
    now: Moment,
    request: &DataSupplyRequest,
) -> Result<RenewAnswer, OutOfMemory>
    ensures answer { IfOk result (λ answer. answer ≡ renew_answer producer.now now request.now (kept_rows table.old)) }
    ensures rows { OnOk result (kept_rows table.new ≡ rows_renewed now request.now.consumer_ref request.now.extensions (kept_rows table.old)) }
    ensures noted { OnOk result (noted_rows table.new ≡ noted_renewed now request.now.extensions.number request.now.extensions.round request.now.consumer_ref request.now.extensions.subscription (noted_rows table.old)) }
    ensures err { OnErr result (table.new ≡ table.old) }
{
    let number = request.extensions.number;
    let why = Refusal::of_renumber(refusal(table, request));
    let renewed = all_data_response(alloc, producer, now, number, None)?;
    let refused = all_data_response(alloc, producer, now, number, Some(why));
    let (refused, renewed) = beside(refused, renewed)?;
    let outcome = renumber(alloc, table, now, request);
    Ok(answer_as(outcome, renewed, refused))
}

/// Why a request is refused, if it is: by the number under which the acceptance is held, where it is.
fn refusal(table: &Table<Course>, request: &DataSupplyRequest) -> RenumberError
    ensures { (why : NotRenewed) → renumber_answer request.now.extensions.number request.now.extensions.round (find (is_of request.now.consumer_ref request.now.extensions.subscription) (kept_rows table.now)) ≡ Err why → result ≡ why }
{
    let mark = &request.extensions;
    match held(table, &request.consumer_ref, &mark.subscription) {
        Some(row) if row.base == mark.round => RenumberError::Superseded { held: row.number },
        _ => RenumberError::UnknownSubscription,
    }
}

/// The table takes the request, with a course that begins anew. It takes no memory.
fn renumber(
    alloc: Global,
    table: &mut Table<Course>,
    now: Moment,
    request: &DataSupplyRequest,
) -> Result<Accepted, RenumberError>
    ensures answer { result ≡ renumber_answer request.now.extensions.number request.now.extensions.round (find (is_of request.now.consumer_ref request.now.extensions.subscription) (kept_rows table.old)) }
    ensures rows { kept_rows table.new ≡ rows_renewed now request.now.consumer_ref request.now.extensions (kept_rows table.old) }
    ensures noted { noted_rows table.new ≡ noted_renewed now request.now.extensions.number request.now.extensions.round request.now.consumer_ref request.now.extensions.subscription (noted_rows table.old) }
{
    let mark = &request.extensions;
    let subscriber = &request.consumer_ref;
    match course_anew(alloc, table, now, subscriber, &mark.subscription) {
        Some(course) => table.renumber(
            mark.number,
            mark.round,
            subscriber,
            &mark.subscription,
            course,
        ),
        None => Err(RenumberError::UnknownSubscription),
    }
}

/// The course of a subscription that is held, as it is accepted at a moment.
fn course_anew(
    alloc: Global,
    table: &Table<Course>,
    now: Moment,
    subscriber: &Name,
    identifier: &Name,
) -> Option<Course>
    ensures kept { option_map kept result ≡ option_map (anew now) (find (is_of subscriber.now identifier.now) (kept_rows table.now)) }
    ensures looked { IfSome result (λ course. course.looked ≡ None) }
    ensures once { EachOnce table.now }
{
    let Some(place) = table.place_of(subscriber, identifier) else {
        return None;
    };
    match table.at(place) {
        Some(row) => Some(Course::new(alloc, row.wanted, now)),
        None => None,
    }
}

/// The answer that the table's makes, by the delivery of each.
fn answer_as(
    outcome: Result<Accepted, RenumberError>,
    renewed: ServiceDelivery,
    refused: ServiceDelivery,
) -> RenewAnswer
    ensures { result ≡ answer_as outcome renewed refused }
{
    match outcome {
        Ok(_) => {
            drop(refused);
            RenewAnswer {
                outcome,
                delivery: renewed,
            }
        }
        Err(_) => {
            drop(renewed);
            RenewAnswer {
                outcome,
                delivery: refused,
            }
        }
    }
}
