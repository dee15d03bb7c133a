//! TerminateSubscriptionRequest.

ghost use Rattle.std.specs.Prelude.{◌≡◌, IfOk, OnOk, OnErr, map};
ghost use Rattle.siri_model.specs.Rows.{rows_ended};
ghost use Rattle.siri_subscriptions.specs.Courses.{kept_rows};
ghost use Rattle.siri_subscriptions.specs.Noted.{noted_ended, noted_rows};
ghost use Rattle.siri_subscriptions.specs.Terminations.{termination_answer};
ghost use Rattle.siri_subscriptions.specs.Endings.{sayings_of, sayings, said, rows_left, noted_left, all_said, all_left, all_noted_left};

use crate::course::Course;
use crate::replies::{ended_status, number_text, termination_response, unknown_status};
use siri_base::{List, Moment, Name, OutOfMemory};
use siri_messages::{
    TerminateSubscriptionRequest, TerminateSubscriptionResponse, TerminationResponseStatus,
};
use siri_subs::{EndError, Table};
use std::alloc::Global;

/// Takes a request to end subscriptions at a moment, one after the other, and answers with a status for each: a
/// subscription that is held under a smaller number ends, and of any other the ErrorText is `UnknownSubscription`.
/// After want of memory the table is as it was.
#[tactic(auto, unfolding(crate::specs::Terminations::termination_answer))]
pub fn terminate(
    alloc: Global,
    table: &mut Table<Course>,
    now: Moment,
    request: &TerminateSubscriptionRequest,
) -> Result<TerminateSubscriptionResponse, OutOfMemory>
    ensures answer { IfOk result (λ response. response ≡ termination_answer now request.now (kept_rows table.old)) }
    ensures rows { OnOk result (kept_rows table.new ≡ rows_ended request.now.message_identifier request.now.subscriber_ref request.now.subscription_ref (kept_rows table.old)) }
    ensures noted { OnOk result (noted_rows table.new ≡ noted_ended request.now.message_identifier request.now.subscriber_ref request.now.subscription_ref (noted_rows table.old)) }
    ensures err { OnErr result (table.new ≡ table.old) }
{
    let number = request.message_identifier;
    let subscriber = &request.subscriber_ref;
    let text = number_text(alloc, number)?;
    let endings = endings(alloc, subscriber, request.subscription_ref.slice())?;
    let statuses = end_all(alloc, table, number, subscriber, endings)?;
    Ok(termination_response(now, text, statuses))
}

/// A subscription that is to end, with what may be said of it.
#[derive(Drop)]
struct Ending<'a> {
    identifier: &'a Name,
    ended: TerminationResponseStatus,
    unknown: TerminationResponseStatus,
}

/// What may be said of each.
fn endings<'a>(
    alloc: Global,
    subscriber: &Name,
    identifiers: &'a [Name],
) -> Result<Vec<Ending<'a>>, OutOfMemory>
    ensures { IfOk result (λ endings. map sayings_of endings.items ≡ map (sayings subscriber.now) identifiers.now) }
{
    let mut endings = Vec::new(alloc);
    for identifier in identifiers {
        endings.push(Ending {
            identifier,
            ended: ended_status(subscriber, identifier)?,
            unknown: unknown_status(alloc, subscriber, identifier)?,
        })?;
    }
    Ok(endings)
}

/// Ends one after the other. All memory is taken before the first.
fn end_all(
    alloc: Global,
    table: &mut Table<Course>,
    number: u64,
    subscriber: &Name,
    endings: Vec<Ending<'_>>,
) -> Result<List<TerminationResponseStatus>, OutOfMemory>
    ensures ok { IfOk result (λ statuses. statuses ≡ all_said number subscriber.now (map sayings_of endings.entry.items) (kept_rows table.old)) }
    ensures rows { OnOk result (kept_rows table.new ≡ all_left number subscriber.now (map sayings_of endings.entry.items) (kept_rows table.old)) }
    ensures noted { OnOk result (noted_rows table.new ≡ all_noted_left number subscriber.now (map sayings_of endings.entry.items) (noted_rows table.old)) }
    ensures err { OnErr result (table.new ≡ table.old) }
{
    let mut statuses = Vec::with_capacity(alloc, endings.len())?;
    for ending in endings {
        statuses.push_reserved(end(table, number, subscriber, ending));
    }
    Ok(List::of(statuses))
}

/// Ends a subscription, and says what became of it.
fn end(
    table: &mut Table<Course>,
    number: u64,
    subscriber: &Name,
    ending: Ending<'_>,
) -> TerminationResponseStatus
    ensures status { result ≡ said number subscriber.now (kept_rows table.old) (sayings_of ending.entry) }
    ensures rows { kept_rows table.new ≡ rows_left number subscriber.now (kept_rows table.old) (sayings_of ending.entry) }
    ensures noted { noted_rows table.new ≡ noted_left number subscriber.now (noted_rows table.old) (sayings_of ending.entry) }
{
    match table.end(number, subscriber, ending.identifier) {
        Ok(()) => ending.ended,
        Err(EndError::UnknownSubscription) => ending.unknown,
    }
}
