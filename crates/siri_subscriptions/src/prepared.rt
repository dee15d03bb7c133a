//! What is ready for the subscriptions of a request, before any of them is accepted.

ghost use Rattle.std.specs.Prelude.{◌≡◌, ◌++◌, IfOk, OnOk, map, find, option_map, nat_le};
ghost use Rattle.siri_subs.specs.Lent.{entry_of};
ghost use Rattle.siri_subs.specs.Table.{is_of};
ghost use Rattle.siri_messages.specs.Asked.{asked_in, asked_with};
ghost use Rattle.siri_subscriptions.specs.Courses.{kept_rows};
ghost use Rattle.siri_subscriptions.specs.Prepared.{candidate_of, refusal_of};

use crate::course::Course;
use crate::replies::{Refusal, accepted_status, refused_status};
use siri_base::{Copies, Moment, Name, OutOfMemory, Span};
use siri_messages::{ResponseStatus, SubscriptionRequest};
use siri_subs::{Entry, Table};
use siri_topic::Subscription;
use std::alloc::Global;

/// A subscription that may be accepted: what is kept of it, and what may be said of it.
#[derive(Drop)]
pub(crate) struct Candidate {
    pub wanted: Subscription,
    pub address: Option<Name>,
    pub beat: Span,
    // Its status where it is accepted, until its own termination time.
    pub accepted: ResponseStatus,
    // Its status where it is refused, which can be for one reason alone.
    pub refused: ResponseStatus,
}

/// What is ready for all subscriptions of a request, in their order, by the table before it.
pub(crate) fn prepare_all(
    alloc: Global,
    table: &Table<Course>,
    now: Moment,
    request: &SubscriptionRequest,
) -> Result<Vec<Candidate>, OutOfMemory>
    ensures { IfOk result (λ candidates. candidates.items ≡ map (candidate_of now request.now.message_identifier (kept_rows table.now)) (asked_in request.now)) }
{
    let mut candidates = Vec::new(alloc);
    for list in [
        &request.stop_monitoring_subscription_request,
        &request.estimated_timetable_subscription_request,
        &request.vehicle_monitoring_subscription_request,
        &request.situation_exchange_subscription_request,
    ] {
        prepare_list(alloc, table, now, request, list.slice(), &mut candidates)?;
    }
    Ok(candidates)
}

/// The same for some of them, behind what is ready.
fn prepare_list(
    alloc: Global,
    table: &Table<Course>,
    now: Moment,
    request: &SubscriptionRequest,
    list: &[Subscription],
    candidates: &mut Vec<Candidate>,
) -> Result<(), OutOfMemory>
    ensures { OnOk result (candidates.new.items ≡ candidates.old.items ++ map (λ wanted. candidate_of now request.now.message_identifier (kept_rows table.now) (asked_with request.now wanted)) list.now) }
{
    for wanted in list {
        let next = prepare(alloc, table, now, request, wanted)?;
        candidates.push(next)?;
    }
    Ok(())
}

/// What is ready for one of them.
fn prepare(
    alloc: Global,
    table: &Table<Course>,
    now: Moment,
    request: &SubscriptionRequest,
    wanted: &Subscription,
) -> Result<Candidate, OutOfMemory>
    ensures { IfOk result (λ candidate. candidate ≡ candidate_of now request.now.message_identifier (kept_rows table.now) (asked_with request.now wanted.now)) }
{
    let subscriber = &wanted.subscriber;
    let identifier = &wanted.identifier;
    let why = refusal(table, now, request.message_identifier, wanted);
    // (the subscription is copied last: to let it go is dear to prove on each path)
    Ok(Candidate {
        beat: request.heartbeat_interval.unwrap_or(Span::zero()),
        address: request.consumer_address.copy()?,
        accepted: accepted_status(subscriber, identifier, wanted.termination)?,
        refused: refused_status(alloc, subscriber, identifier, why)?,
        wanted: wanted.copy()?,
    })
}

/// Why a subscription is refused, if it is. Others of the same request may be accepted before it: those have the
/// request's number, so the greater number under which it is held can't change, and a table that isn't full may become
/// so.
fn refusal(table: &Table<Course>, now: Moment, number: u64, wanted: &Subscription) -> Refusal
    ensures { result ≡ refusal_of now number (kept_rows table.now) wanted.now }
{
    if is_over(wanted, now) {
        return Refusal::PastTermination;
    }
    match held(table, &wanted.subscriber, &wanted.identifier) {
        Some(row) if row.number > number => Refusal::Superseded { held: row.number },
        _ => Refusal::TableFull,
    }
}

/// A subscription isn't to end after a moment.
fn is_over(wanted: &Subscription, now: Moment) -> bool
    ensures { result ≡ nat_le wanted.now.termination now }
{
    wanted.termination.ms() <= now.ms()
}

/// What is held of a subscription.
pub(crate) fn held<'a>(
    table: &'a Table<Course>,
    subscriber: &Name,
    identifier: &Name,
) -> Option<Entry<'a, Course>>
    ensures { option_map entry_of result ≡ find (is_of subscriber.now identifier.now) table.now }
{
    table.at(table.place_of(subscriber, identifier)?)
}
