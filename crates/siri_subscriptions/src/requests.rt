//! SubscriptionRequest.

ghost use Rattle.std.specs.Prelude.{◌≡◌, IfOk, OnOk, OnErr, Some};
ghost use Rattle.siri_messages.specs.Asked.{asked_in};
ghost use Rattle.siri_model.specs.Rows.{rows_asked};
ghost use Rattle.siri_subscriptions.specs.Courses.{kept_rows};
ghost use Rattle.siri_subscriptions.specs.Noted.{noted_asked, noted_rows};
ghost use Rattle.siri_subscriptions.specs.Requests.{subscription_answer, termination_in};
ghost use Rattle.siri_subscriptions.specs.Prepared.{accept_noted, accept_rows, accept_status, all_noted, all_rows, all_statuses, candidate_status, with_valid_until};

use crate::course::Course;
use crate::prepared::{Candidate, held, prepare_all};
use crate::replies::{number_text, subscription_response};
use siri_base::{List, Moment, OutOfMemory};
use siri_messages::{ResponseStatus, SubscriptionRequest, SubscriptionResponse};
use siri_subs::{AcceptError, Accepted, Table};
use siri_topic::Subscription;
use std::alloc::Global;

/// Takes a request for subscriptions at a moment, one after the other, and answers with a status for each, in the order
/// Stop Monitoring, Estimated Timetable, Vehicle Monitoring, Situation Exchange. After want of memory the table is as
/// it was.
#[tactic(auto, unfolding(crate::specs::Requests::subscription_answer))]
pub fn subscribe(
    alloc: Global,
    table: &mut Table<Course>,
    now: Moment,
    request: &SubscriptionRequest,
) -> Result<SubscriptionResponse, OutOfMemory>
    ensures answer { IfOk result (λ response. response ≡ subscription_answer now request.now (kept_rows table.old)) }
    ensures rows { OnOk result (kept_rows table.new ≡ rows_asked now request.now.message_identifier (asked_in request.now) (kept_rows table.old)) }
    ensures noted { OnOk result (noted_rows table.new ≡ noted_asked now request.now.message_identifier (asked_in request.now) (noted_rows table.old)) }
    ensures err { OnErr result (table.new ≡ table.old) }
{
    let number = request.message_identifier;
    let text = number_text(alloc, number)?;
    let candidates = prepare_all(alloc, table, now, request)?;
    let statuses = accept_all(alloc, table, now, number, candidates)?;
    Ok(subscription_response(now, text, statuses))
}

/// Accepts one after the other. All memory is taken before the first.
fn accept_all(
    alloc: Global,
    table: &mut Table<Course>,
    now: Moment,
    number: u64,
    candidates: Vec<Candidate>,
) -> Result<List<ResponseStatus>, OutOfMemory>
    ensures ok { IfOk result (λ statuses. statuses ≡ all_statuses now number candidates.items (kept_rows table.old)) }
    ensures rows { OnOk result (kept_rows table.new ≡ all_rows now number candidates.items (kept_rows table.old)) }
    ensures noted { OnOk result (noted_rows table.new ≡ all_noted now number candidates.items (noted_rows table.old)) }
    ensures err { OnErr result (table.new ≡ table.old) }
{
    let mut statuses = Vec::with_capacity(alloc, candidates.len())?;
    for candidate in candidates {
        statuses.push_reserved(accept(alloc, table, now, number, candidate));
    }
    Ok(List::of(statuses))
}

/// Accepts one, where the table does, and says what became of it.
fn accept(
    alloc: Global,
    table: &mut Table<Course>,
    now: Moment,
    number: u64,
    candidate: Candidate,
) -> ResponseStatus
    ensures status { result ≡ accept_status now number (kept_rows table.old) candidate }
    ensures rows { kept_rows table.new ≡ accept_rows now number (kept_rows table.old) candidate }
    ensures noted { noted_rows table.new ≡ accept_noted now number (noted_rows table.old) candidate }
{
    let termination = termination_held(table, &candidate.wanted);
    let course = Course::new(alloc, &candidate.wanted, now);
    let answer = table.accept(
        number,
        candidate.address,
        candidate.beat,
        candidate.wanted,
        course,
        now,
    );
    candidate_status(answer, candidate.accepted, candidate.refused, termination)
}

/// The status that the table's answer makes, by the termination time that was held before.
fn candidate_status(
    answer: Result<Accepted, AcceptError>,
    accepted: ResponseStatus,
    refused: ResponseStatus,
    termination: Option<Moment>,
) -> ResponseStatus
    ensures { result ≡ candidate_status answer accepted refused termination }
{
    match answer {
        Ok(Accepted::Again) => valid_until(accepted, termination),
        Ok(Accepted::New | Accepted::Renewed) => accepted,
        Err(_) => refused,
    }
}

/// The termination time under which a subscription is held.
fn termination_held(table: &Table<Course>, wanted: &Subscription) -> Option<Moment>
    ensures { result ≡ termination_in wanted.now.subscriber wanted.now.identifier (kept_rows table.now) }
{
    match held(table, &wanted.subscriber, &wanted.identifier) {
        Some(row) => Some(row.wanted.termination),
        None => None,
    }
}

/// The status of a subscription that is held until this moment, where there is one.
fn valid_until(mut status: ResponseStatus, termination: Option<Moment>) -> ResponseStatus
    ensures { result ≡ with_valid_until status termination }
{
    if termination.is_some() {
        status.valid_until = termination;
    }
    status
}
