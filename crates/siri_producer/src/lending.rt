//! What a producer lends of its answers: the items of a direct response, and the wanted part of a round.
//!
//! ```text
//!     a ServiceRequest       -> reply_head ---> its answer, without items
//!     each of its topics     -> lend       ---> the items of that functional delivery
//!
//!     a DataSupplyRequest    -> supply     ---> what `take` notes of it, where it is of a part
//!     a subscription         -> part       ---> the part that is wanted of it
//! ```
//!
//! No item is copied. Together they are the reply of `take`; a message that is lent is taken and settled all the same.

ghost use Rattle.std.specs.Prelude.{◌≡◌, ◌↔◌, ◌≤◌, true, false, map, find, length, is_some, option_map, IfOk};
ghost use Rattle.std.specs.Borrow.{sem, follows};
ghost use Rattle.std.specs.List.{list_all};
ghost use Rattle.siri_messages.specs.declared.message.Message.TheVariants as message;
ghost use Rattle.siri_model.specs.Direct.{response, shown};
ghost use Rattle.siri_model.specs.History.{History, Take, current, now_of};
ghost use Rattle.siri_model.specs.Lives.{table_of};
ghost use Rattle.siri_model.specs.Rows.{rows_of};
ghost use Rattle.siri_producer.specs.Answers.{answer_to, supply_note};
ghost use Rattle.siri_producer.specs.Known.{GoesOn, StandsFor};
ghost use Rattle.siri_producer.specs.Lent.{has_all, head_of, is_lent, is_outstanding_in, lent_topic, own_part, part_in, part_of, response_head, supplied_by, topics_of, without_items};
ghost use Rattle.siri_producer.specs.contracts.producer.Producer.{the_row};
ghost use Rattle.siri_store.specs.Walk.{to_lend};
ghost use Rattle.siri_store.specs.contracts.counter.Counter.{the_row as counter_row};
ghost use Rattle.siri_subs.specs.Lent.{entry_of};
ghost use Rattle.siri_subs.specs.Table.{is_of};
ghost use Rattle.siri_subscriptions.specs.Courses.{kept_row};

use crate::Producer;
use siri_base::{Copies, List, Moment, Name, OutOfMemory, Place};
use siri_messages::{DataSupplyRequest, FunctionalDelivery, ServiceDelivery, ServiceRequest};
use siri_records::Service;
use siri_store::Selected;
use siri_subs::{Entry, Part, SupplyError, Table};
use siri_subscriptions::{Course, supply_lent};
use siri_topic::{Subscription, Topic};
use std::alloc::Global;

/// What a request for a part is told, whose reply is lent.
#[derive(Clone, Copy, Debug, PartialEq, Eq)]
pub enum Supplied {
    /// It is of no part: it has AllData. It wasn't taken, and nothing changed.
    AllData,
    /// It is of the wanted part of a round that is to be fetched. That is the reply, and a message of it was sent now.
    Part,
    /// The subscription isn't held, its delivery isn't fetched, or no round of it is outstanding. Nothing changed.
    NothingReady,
    /// It is of any other part. Nothing changed.
    WrongPart {
        /// The part that is wanted.
        wanted: Place,
    },
}

/// The wanted part of a subscription, lent.
#[derive(Drop)]
pub struct LentPart<'a> {
    /// The number under which the subscription is held.
    pub number: u64,
    /// The subscription as its subscriber asked for it last.
    pub wanted: &'a Subscription,
    /// Its wanted part.
    pub part: Part<'a>,
}

/// The topic at a place, counted from 0, of a request's list of a service, where the items that answer it are lent.
/// `None` exactly where the list has no such place, or the topic there has MaximumStopVisits (EN 15531-3).
pub fn lent_topic(request: &ServiceRequest, service: Service, place: usize) -> Option<&Topic>
    ensures { option_map (λ topic. topic.now) result ≡ lent_topic request.now service place }
{
    match topics_of(request, service).slice().get(place) {
        Some(topic) if has_all(topic) => Some(topic),
        _ => None,
    }
}

/// Whether no topic of a request has MaximumStopVisits, so that its whole answer is lent.
pub fn is_lent(request: &ServiceRequest) -> bool
    ensures { result ≡ is_lent request.now }
{
    have_all(&request.stop_monitoring_request)
        && have_all(&request.estimated_timetable_request)
        && have_all(&request.vehicle_monitoring_request)
        && have_all(&request.situation_exchange_request)
}

impl Producer {
    /// The direct response to a request, as `direct` gives it, with the list of items of each functional delivery
    /// empty. Nothing changes.
    pub fn reply_head(&self, request: &ServiceRequest) -> Result<ServiceDelivery, OutOfMemory>
        ensures { IfOk result (λ d. (h : History) → StandsFor self.now h → d ≡ without_items (response self.now.responder.name (now_of h) (current h) request.now)) }
    {
        response_head(
            self.alloc,
            self.responder.name(),
            self.responder.now(),
            request,
        )
    }

    /// Lends the items that are shown to a topic, in order of key, each the shared item itself: those that answer it
    /// in a direct response, where it has no MaximumStopVisits. The walk looks at no more items than are held, and each
    /// that it looks at is a step of the counter. The producer holds still as long as the walk is alive, and after it
    /// nothing but the counter has changed.
    pub fn lend<'a>(&'a mut self, topic: &'a Topic) -> Selected<'a>
        ensures* keeps { sem 𝓛 (follows the_row counter_row self.entry.ghost_name result.counter.ghost_name (λ steps. record self.old { responder = record self.old.responder { reads = steps } })) }
        ensures counter { result.counter.now ≡ self.old.responder.reads }
        ensures lends { (h : History) → StandsFor self.old h → to_lend result ≡ map (λ entry. entry.1) (shown (now_of h) (current h) topic.now) }
        ensures within { (result.place ≤ result.end) × (result.end ≤ length self.old.responder.held) }
    {
        self.responder.lend(topic)
    }

    /// Takes a request for a part, as `take` does, and tells what became of it. The reply isn't made: where the part is
    /// supplied, `part` lends it. A request with AllData is left to `take`. It takes no memory, and the counter of
    /// steps stays.
    pub fn supply(&mut self, request: &DataSupplyRequest) -> Supplied
        ensures stands { request.now.all_data ≡ false → GoesOn self.old self.new (Take (message.DataSupplyRequest request.now)) }
        ensures left { request.now.all_data ≡ true → self.new ≡ self.old }
        ensures all_data { (result ≡ Supplied.AllData) ↔ (request.now.all_data ≡ true) }
        ensures supplied { (h : History) → StandsFor self.old h → result ≡ supplied_by (answer_to self.old.responder.name h (message.DataSupplyRequest request.now)).note }
        ensures name { self.new.responder.name ≡ self.old.responder.name }
        ensures reads { self.new.responder.reads ≡ self.old.responder.reads }
    {
        if request.all_data {
            return Supplied::AllData;
        }
        let start = self.responder.start();
        let now = self.responder.now();
        self.is_settled = false;
        told_of(supply_lent(&mut self.table, start, now, request))
    }

    /// Lends the wanted part of a subscription. `None` exactly where it isn't held or no round of it is outstanding.
    /// It takes no memory.
    pub fn part<'a>(&'a self, subscriber: &Name, identifier: &Name) -> Option<LentPart<'a>>
        ensures part { (h : History) → StandsFor self.now h → option_map part_of result ≡ part_in subscriber.now identifier.now (rows_of (table_of h)) }
        ensures known { (h : History) → StandsFor self.now h → is_some result ≡ is_outstanding_in subscriber.now identifier.now (rows_of (table_of h)) }
    {
        match row_of(&self.table, subscriber, identifier) {
            Some(row) => part_of(&row),
            None => None,
        }
    }
}

/// The row of a subscription, lent. `None` exactly where it isn't held.
fn row_of<'a>(
    table: &'a Table<Course>,
    subscriber: &Name,
    identifier: &Name,
) -> Option<Entry<'a, Course>>
    ensures { option_map entry_of result ≡ find (is_of subscriber.now identifier.now) table.now }
{
    let place = table.place_of(subscriber, identifier)?;
    table.at(place)
}

/// The wanted part of a row, lent. `None` exactly where no round of it is outstanding.
fn part_of<'a>(row: &Entry<'a, Course>) -> Option<LentPart<'a>>
    ensures part { option_map part_of result ≡ own_part (kept_row (entry_of row.now)) }
    ensures known { is_some result ≡ is_some row.now.slot.now.rounds.outstanding }
{
    match row.slot.rounds.part() {
        Some(part) => Some(LentPart {
            number: row.number,
            wanted: row.wanted,
            part,
        }),
        None => None,
    }
}

/// The response to a request by a producer of this name at a moment, without its items.
fn response_head(
    alloc: Global,
    name: &Name,
    now: Moment,
    request: &ServiceRequest,
) -> Result<ServiceDelivery, OutOfMemory>
    ensures { IfOk result (λ head. head ≡ response_head name.now now request.now) }
{
    Ok(ServiceDelivery {
        response_timestamp: Some(now),
        producer_ref: Some(name.copy()?),
        response_message_identifier: None,
        request_message_ref: request.message_identifier.copy()?,
        status: true,
        error_condition: None,
        more_data: false,
        stop_monitoring_delivery: heads(alloc, now, &request.stop_monitoring_request)?,
        estimated_timetable_delivery: heads(alloc, now, &request.estimated_timetable_request)?,
        vehicle_monitoring_delivery: heads(alloc, now, &request.vehicle_monitoring_request)?,
        situation_exchange_delivery: heads(alloc, now, &request.situation_exchange_request)?,
    })
}

/// The topics of a request's list of a service.
fn topics_of(request: &ServiceRequest, service: Service) -> &List<Topic>
    ensures { result.now ≡ topics_of request.now service }
{
    match service {
        Service::Stop => &request.stop_monitoring_request,
        Service::Timetable => &request.estimated_timetable_request,
        Service::Vehicle => &request.vehicle_monitoring_request,
        Service::Situation => &request.situation_exchange_request,
    }
}

/// Whether all items that are shown to a topic answer it: it has no MaximumStopVisits.
fn has_all(topic: &Topic) -> bool
    ensures { result ≡ has_all topic.now }
{
    match topic {
        Topic::Stop(topic) => topic.maximum_stop_visits.is_none(),
        _ => true,
    }
}

/// The same of some topics.
fn have_all(topics: &List<Topic>) -> bool
    ensures { result ≡ list_all has_all topics.now }
{
    topics.slice().iter().all(|topic| has_all(topic))
}

/// The functional delivery that answers a topic at a moment, without its items.
fn head(alloc: Global, now: Moment) -> FunctionalDelivery
    ensures { result ≡ head_of now }
{
    let mut head = FunctionalDelivery::blank(alloc);
    head.response_timestamp = Some(now);
    head
}

/// One for each topic.
fn heads(
    alloc: Global,
    now: Moment,
    topics: &List<Topic>,
) -> Result<List<FunctionalDelivery>, OutOfMemory>
    ensures { IfOk result (λ heads. heads ≡ map (λ _. head_of now) topics.now) }
{
    let mut heads = List::new(alloc);
    for _topic in topics.slice() {
        heads.push(head(alloc, now))?;
    }
    Ok(heads)
}

/// What a request for a part is told.
fn told_of(outcome: Result<(), SupplyError>) -> Supplied
    ensures { result ≡ supplied_by (supply_note outcome) }
{
    match outcome {
        Ok(()) => Supplied::Part,
        Err(SupplyError::NothingReady) => Supplied::NothingReady,
        Err(SupplyError::WrongPart { wanted }) => Supplied::WrongPart { wanted },
    }
}
