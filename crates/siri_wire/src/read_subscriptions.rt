//! Reading requests for subscriptions, and their answers.

ghost use Rattle.std.specs.Prelude.{◌≡◌, IsTrue, Option, unwrap_or};
ghost use Rattle.siri_json.specs.Shown.{shown};
ghost use Rattle.siri_tables.specs.Refusals.{Gives, is_key};
ghost use Rattle.siri_tables.specs.Rules.{list, table};
ghost use Rattle.siri_wire.specs.Limits.{most_subscriptions};
ghost use Rattle.siri_wire.specs.Subscriptions.{topic_of, slack_of, is_fetched, subscription, heartbeat_interval, read_requested_rows, requests_nothing, requested, subscription_request, response_status, subscription_response};

use crate::read_subscriber::subscriber_or;
use siri_base::{List, Name, Reason, Span, Text};
use siri_deliveries::{
    SituationTopicTable, StopTopicTable, TimetableTopicTable, VehicleTopicTable, error_condition,
    names,
};
use siri_json::{ObjectOf, Tree, object_of};
use siri_messages::{ResponseStatus, SubscriptionRequest, SubscriptionResponse};
use siri_records::Service;
use siri_tables::TableError;
use siri_tables::refusal::refuse;
use siri_tables::rows::{list, list_in, required_row, row, row_inside};
use siri_tables::rules::{
    FlagRule, MomentRule, NameRule, NonNegativeSpanRule, NumberRule, RuleIn, Table, TextRule,
};
use siri_topic::{Subscription, Topic};
use std::alloc::Global;

/// The most subscriptions to a service in one request, and the most that one request ends.
pub(crate) const MOST_SUBSCRIPTIONS: usize = 200;

/// The most entries of ResponseStatus in an answer: those of 200 subscriptions to each of four services.
const MOST_STATUSES: usize = 800;

/// The topic of a subscription, at the name of its service's request: `Missing` at it where it is absent.
#[tactic(auto, unfolding(crate::specs::Subscriptions::topic_of))]
fn topic_of(alloc: Global, tree: &Tree<'_>, service: Service) -> Result<Topic, TableError>
    ensures { Gives result (topic_of service (shown tree.now)) }
{
    match service {
        Service::Stop => {
            required_row::<StopTopicTable>(alloc, tree, names::STOP_MONITORING_REQUEST)
        }
        Service::Timetable => {
            required_row::<TimetableTopicTable>(alloc, tree, names::ESTIMATED_TIMETABLE_REQUEST)
        }
        Service::Vehicle => {
            required_row::<VehicleTopicTable>(alloc, tree, names::VEHICLE_MONITORING_REQUEST)
        }
        Service::Situation => {
            required_row::<SituationTopicTable>(alloc, tree, names::SITUATION_EXCHANGE_REQUEST)
        }
    }
}

/// ChangeBeforeUpdates of a subscription, `BadSpan` at it where negative; of situations it isn't looked at.
#[tactic(auto, unfolding(crate::specs::Subscriptions::slack_of))]
fn slack_of(alloc: Global, tree: &Tree<'_>, service: Service) -> Result<Option<Span>, TableError>
    ensures { Gives result (slack_of service (shown tree.now)) }
{
    match service {
        Service::Situation => Ok(None),
        Service::Stop | Service::Timetable | Service::Vehicle => {
            row::<NonNegativeSpanRule>(alloc, tree, names::CHANGE_BEFORE_UPDATES)
        }
    }
}

/// Whether DeliveryMethod is `fetched`; without it, and with any other text, delivery is direct.
fn is_fetched(method: &Option<Text>) -> bool
    ensures { result ≡ is_fetched method.now }
{
    match method {
        Some(method) => method.text() == "fetched",
        None => false,
    }
}

/// The subscription of an element; the requestor subscribes where it names no SubscriberRef.
#[tactic(auto, unfolding(crate::specs::Subscriptions::subscription))]
fn subscription(
    alloc: Global,
    tree: &Tree<'_>,
    service: Service,
    requestor: &Option<Name>,
) -> Result<Subscription, TableError>
    ensures { Gives result (subscription service requestor.now (shown tree.now)) }
{
    let subscriber = subscriber_or(alloc, tree, requestor)?;
    let identifier = required_row::<NameRule>(alloc, tree, names::SUBSCRIPTION_IDENTIFIER)?;
    let termination = required_row::<MomentRule>(alloc, tree, names::INITIAL_TERMINATION_TIME)?;
    let topic = topic_of(alloc, tree, service)?;
    let incremental = row::<FlagRule>(alloc, tree, names::INCREMENTAL_UPDATES)?;
    let slack = slack_of(alloc, tree, service)?;
    let method = row_inside::<TextRule>(alloc, tree, names::EXTENSIONS, names::DELIVERY_METHOD)?;
    Ok(Subscription {
        subscriber,
        identifier,
        termination,
        topic,
        slack: slack.unwrap_or(Span::zero()),
        incremental: incremental.unwrap_or(true),
        fetched: is_fetched(&method),
    })
}

/// How the elements of a service are read in a message of this requestor.
#[derive(Drop)]
struct SubscriptionRule<'a> {
    service: Service,
    requestor: &'a Option<Name>,
}

impl<'a> RuleIn for SubscriptionRule<'a> {
    type With = SubscriptionRule<'a>;

    type Out = Subscription;

    ghost rule_in = { λ with. table (subscription with.service with.requestor.now) };

    #[tactic(auto, unfolding(siri_tables::specs::Rules::table))]
    fn read_in(
        alloc: Global,
        with: &SubscriptionRule<'a>,
        value: &Tree<'_>,
    ) -> Result<Option<Subscription>, TableError> {
        match object_of(value) {
            ObjectOf::Is(tree) => {
                Ok(Some(subscription(alloc, tree, with.service, with.requestor)?))
            }
            ObjectOf::Absent => Ok(None),
            ObjectOf::Wrong => refuse(alloc, Reason::WrongKind),
        }
    }
}

/// The subscriptions to a service at a name, at most 200, in a message of this requestor.
fn subscriptions(
    alloc: Global,
    tree: &Tree<'_>,
    key: &str,
    service: Service,
    requestor: &Option<Name>,
) -> Result<List<Subscription>, TableError>
    requires { IsTrue (is_key key.now) }
    ensures { Gives result (list (table (subscription service requestor.now)) most_subscriptions key.now (shown tree.now)) }
{
    let rule = SubscriptionRule { service, requestor };
    list_in::<SubscriptionRule>(alloc, tree, key, MOST_SUBSCRIPTIONS, &rule)
}

/// What a request for subscriptions asks for.
#[derive(Drop)]
pub struct RequestedSubscriptions {
    /// The HeartbeatInterval of its SubscriptionContext.
    pub heartbeat_interval: Option<Span>,
    pub stops: List<Subscription>,
    pub timetables: List<Subscription>,
    pub vehicles: List<Subscription>,
    pub situations: List<Subscription>,
}

/// HeartbeatInterval in SubscriptionContext, nothing where either is absent, `BadSpan` where it is negative.
#[tactic(auto, unfolding(crate::specs::Subscriptions::heartbeat_interval))]
fn heartbeat_interval(alloc: Global, tree: &Tree<'_>) -> Result<Option<Span>, TableError>
    ensures { Gives result (heartbeat_interval (shown tree.now)) }
{
    row_inside::<NonNegativeSpanRule>(
        alloc,
        tree,
        names::SUBSCRIPTION_CONTEXT,
        names::HEARTBEAT_INTERVAL,
    )
}

/// What an object asks for in the name of this requestor, who subscribes where an element names no subscriber (EN
/// 15531-2, SubscriptionRequest); it may be nothing.
#[tactic(auto, unfolding(crate::specs::Subscriptions::read_requested_rows))]
pub(crate) fn read_requested_rows(
    alloc: Global,
    tree: &Tree<'_>,
    requestor: &Option<Name>,
) -> Result<RequestedSubscriptions, TableError>
    ensures { Gives result (read_requested_rows requestor.now (shown tree.now)) }
{
    Ok(RequestedSubscriptions {
        heartbeat_interval: heartbeat_interval(alloc, tree)?,
        stops: subscriptions(
            alloc,
            tree,
            names::STOP_MONITORING_SUBSCRIPTION_REQUEST,
            Service::Stop,
            requestor,
        )?,
        timetables: subscriptions(
            alloc,
            tree,
            names::ESTIMATED_TIMETABLE_SUBSCRIPTION_REQUEST,
            Service::Timetable,
            requestor,
        )?,
        vehicles: subscriptions(
            alloc,
            tree,
            names::VEHICLE_MONITORING_SUBSCRIPTION_REQUEST,
            Service::Vehicle,
            requestor,
        )?,
        situations: subscriptions(
            alloc,
            tree,
            names::SITUATION_EXCHANGE_SUBSCRIPTION_REQUEST,
            Service::Situation,
            requestor,
        )?,
    })
}

/// Whether no subscription to any service is asked for.
fn requests_nothing(requested: &RequestedSubscriptions) -> bool
    ensures { result ≡ requests_nothing requested.now }
{
    requested.stops.len() == 0
        && requested.timetables.len() == 0
        && requested.vehicles.len() == 0
        && requested.situations.len() == 0
}

/// The same; `NotCarried` where it asks for no subscription.
#[tactic(auto, unfolding(crate::specs::Subscriptions::requested))]
fn read_requested(
    alloc: Global,
    tree: &Tree<'_>,
    requestor: &Option<Name>,
) -> Result<RequestedSubscriptions, TableError>
    ensures { Gives result (requested requestor.now (shown tree.now)) }
{
    let found = read_requested_rows(alloc, tree, requestor)?;
    if requests_nothing(&found) {
        return refuse(alloc, Reason::NotCarried);
    }
    Ok(found)
}

/// A request for subscriptions, at most 200 to each service (EN 15531-2, SubscriptionRequest): `NotCarried` where it
/// asks for none.
pub(crate) struct SubscriptionRequestTable;

impl Table for SubscriptionRequestTable {
    type Out = SubscriptionRequest;

    ghost rows = { subscription_request };

    #[tactic(auto, unfolding(crate::specs::Subscriptions::subscription_request))]
    fn read_rows(alloc: Global, tree: &Tree<'_>) -> Result<SubscriptionRequest, TableError> {
        let request_timestamp = row::<MomentRule>(alloc, tree, names::REQUEST_TIMESTAMP)?;
        let requestor_ref = row::<NameRule>(alloc, tree, names::REQUESTOR_REF)?;
        let message_identifier = required_row::<NumberRule>(
            alloc,
            tree,
            names::MESSAGE_IDENTIFIER,
        )?;
        let consumer_address = row::<NameRule>(alloc, tree, names::CONSUMER_ADDRESS)?;
        let requested = read_requested(alloc, tree, &requestor_ref)?;
        Ok(SubscriptionRequest {
            request_timestamp,
            requestor_ref,
            message_identifier,
            consumer_address,
            heartbeat_interval: requested.heartbeat_interval,
            stop_monitoring_subscription_request: requested.stops,
            estimated_timetable_subscription_request: requested.timetables,
            vehicle_monitoring_subscription_request: requested.vehicles,
            situation_exchange_subscription_request: requested.situations,
        })
    }
}

/// What became of a subscription that was asked for; its Status is true where it is absent (EN 15531-2,
/// ResponseStatus).
struct ResponseStatusTable;

impl Table for ResponseStatusTable {
    type Out = ResponseStatus;

    ghost rows = { response_status };

    #[tactic(auto, unfolding(crate::specs::Subscriptions::response_status))]
    fn read_rows(alloc: Global, tree: &Tree<'_>) -> Result<ResponseStatus, TableError> {
        Ok(ResponseStatus {
            subscriber_ref: row::<NameRule>(alloc, tree, names::SUBSCRIBER_REF)?,
            subscription_ref: row::<NameRule>(alloc, tree, names::SUBSCRIPTION_REF)?,
            status: row::<FlagRule>(alloc, tree, names::STATUS)?.unwrap_or(true),
            valid_until: row::<MomentRule>(alloc, tree, names::VALID_UNTIL)?,
            error_condition: error_condition(alloc, tree)?,
        })
    }
}

/// The answer to a request for subscriptions, with at most 800 statuses (EN 15531-2, SubscriptionResponse).
pub(crate) struct SubscriptionResponseTable;

impl Table for SubscriptionResponseTable {
    type Out = SubscriptionResponse;

    ghost rows = { subscription_response };

    #[tactic(auto, unfolding(crate::specs::Subscriptions::subscription_response))]
    fn read_rows(alloc: Global, tree: &Tree<'_>) -> Result<SubscriptionResponse, TableError> {
        Ok(SubscriptionResponse {
            response_timestamp: row::<MomentRule>(alloc, tree, names::RESPONSE_TIMESTAMP)?,
            request_message_ref: row::<NameRule>(alloc, tree, names::REQUEST_MESSAGE_REF)?,
            response_status: list::<ResponseStatusTable>(
                alloc,
                tree,
                names::RESPONSE_STATUS,
                MOST_STATUSES,
            )?,
        })
    }
}
