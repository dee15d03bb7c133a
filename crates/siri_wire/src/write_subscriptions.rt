//! Writing requests for subscriptions, and their responses.

ghost use Rattle.std.specs.Prelude.{◌≡◌, ◌++◌, Option, OnOk};
ghost use Rattle.siri_json.specs.Tokens.{tokens_of};
ghost use Rattle.siri_tables.specs.Appended.{row_tokens};
ghost use Rattle.siri_deliveries.specs.declared.names.TheConstants.{EXTENSIONS, SUBSCRIPTION_CONTEXT};
ghost use Rattle.siri_wire.specs.Subscriptions.{written_method, written_stop_subscription, written_timetable_subscription, written_vehicle_subscription, written_situation_subscription, written_context, written_subscription_request, written_response_status, written_subscription_response};

use crate::write_values::IdentifierWriting;
use siri_base::{OutOfMemory, Span};
use siri_deliveries::{ErrorWriting, TopicWriting, names};
use siri_json::Output;
use siri_messages::{ResponseStatus, SubscriptionRequest, SubscriptionResponse};
use siri_tables::rules::{FlagRule, MomentRule, NameRule, SpanRule};
use siri_tables::writing::{Written, list, optional, required};
use siri_topic::Subscription;

/// Writes the row Extensions with DeliveryMethod `fetched`, which is left out where delivery is direct.
#[tactic(auto, using(crate::proofs::InOrder::method_in_order, crate::proofs::InOrder::method_left_out))]
fn method_row(out: &mut Output, fetched: bool) -> Result<(), OutOfMemory>
    ensures { OnOk result (out.new ≡ out.old ++ row_tokens EXTENSIONS.now (written_method fetched)) }
{
    if !fetched {
        return Ok(());
    }
    out.key(names::EXTENSIONS)?;
    out.begin_object()?;
    out.key(names::DELIVERY_METHOD)?;
    out.text("fetched")?;
    out.end_object()
}

/// A StopMonitoringSubscriptionRequest, always with ChangeBeforeUpdates and IncrementalUpdates.
struct StopSubscriptionWriting;

impl Written for StopSubscriptionWriting {
    type Of = Subscription;

    ghost writing = { written_stop_subscription };

    #[tactic(auto, using(crate::proofs::InOrder::stop_subscription_in_order), unfolding(crate::specs::Subscriptions::written_stop_subscription, crate::specs::Subscriptions::written_subscription))]
    fn write(out: &mut Output, wanted: &Subscription) -> Result<(), OutOfMemory> {
        out.begin_object()?;
        required::<SpanRule>(out, names::CHANGE_BEFORE_UPDATES, &wanted.slack)?;
        method_row(out, wanted.fetched)?;
        required::<FlagRule>(out, names::INCREMENTAL_UPDATES, &wanted.incremental)?;
        required::<MomentRule>(out, names::INITIAL_TERMINATION_TIME, &wanted.termination)?;
        required::<TopicWriting>(out, names::STOP_MONITORING_REQUEST, &wanted.topic)?;
        required::<NameRule>(out, names::SUBSCRIBER_REF, &wanted.subscriber)?;
        required::<NameRule>(out, names::SUBSCRIPTION_IDENTIFIER, &wanted.identifier)?;
        out.end_object()
    }
}

/// An EstimatedTimetableSubscriptionRequest, always with ChangeBeforeUpdates and IncrementalUpdates.
struct TimetableSubscriptionWriting;

impl Written for TimetableSubscriptionWriting {
    type Of = Subscription;

    ghost writing = { written_timetable_subscription };

    #[tactic(auto, using(crate::proofs::InOrder::timetable_subscription_in_order), unfolding(crate::specs::Subscriptions::written_timetable_subscription, crate::specs::Subscriptions::written_subscription))]
    fn write(out: &mut Output, wanted: &Subscription) -> Result<(), OutOfMemory> {
        out.begin_object()?;
        required::<SpanRule>(out, names::CHANGE_BEFORE_UPDATES, &wanted.slack)?;
        required::<TopicWriting>(out, names::ESTIMATED_TIMETABLE_REQUEST, &wanted.topic)?;
        method_row(out, wanted.fetched)?;
        required::<FlagRule>(out, names::INCREMENTAL_UPDATES, &wanted.incremental)?;
        required::<MomentRule>(out, names::INITIAL_TERMINATION_TIME, &wanted.termination)?;
        required::<NameRule>(out, names::SUBSCRIBER_REF, &wanted.subscriber)?;
        required::<NameRule>(out, names::SUBSCRIPTION_IDENTIFIER, &wanted.identifier)?;
        out.end_object()
    }
}

/// A VehicleMonitoringSubscriptionRequest, always with ChangeBeforeUpdates and IncrementalUpdates.
struct VehicleSubscriptionWriting;

impl Written for VehicleSubscriptionWriting {
    type Of = Subscription;

    ghost writing = { written_vehicle_subscription };

    #[tactic(auto, using(crate::proofs::InOrder::vehicle_subscription_in_order), unfolding(crate::specs::Subscriptions::written_vehicle_subscription, crate::specs::Subscriptions::written_subscription))]
    fn write(out: &mut Output, wanted: &Subscription) -> Result<(), OutOfMemory> {
        out.begin_object()?;
        required::<SpanRule>(out, names::CHANGE_BEFORE_UPDATES, &wanted.slack)?;
        method_row(out, wanted.fetched)?;
        required::<FlagRule>(out, names::INCREMENTAL_UPDATES, &wanted.incremental)?;
        required::<MomentRule>(out, names::INITIAL_TERMINATION_TIME, &wanted.termination)?;
        required::<NameRule>(out, names::SUBSCRIBER_REF, &wanted.subscriber)?;
        required::<NameRule>(out, names::SUBSCRIPTION_IDENTIFIER, &wanted.identifier)?;
        required::<TopicWriting>(out, names::VEHICLE_MONITORING_REQUEST, &wanted.topic)?;
        out.end_object()
    }
}

/// A SituationExchangeSubscriptionRequest, without ChangeBeforeUpdates.
struct SituationSubscriptionWriting;

impl Written for SituationSubscriptionWriting {
    type Of = Subscription;

    ghost writing = { written_situation_subscription };

    #[tactic(auto, using(crate::proofs::InOrder::situation_subscription_in_order), unfolding(crate::specs::Subscriptions::written_situation_subscription, crate::specs::Subscriptions::written_subscription))]
    fn write(out: &mut Output, wanted: &Subscription) -> Result<(), OutOfMemory> {
        out.begin_object()?;
        method_row(out, wanted.fetched)?;
        required::<FlagRule>(out, names::INCREMENTAL_UPDATES, &wanted.incremental)?;
        required::<MomentRule>(out, names::INITIAL_TERMINATION_TIME, &wanted.termination)?;
        required::<TopicWriting>(out, names::SITUATION_EXCHANGE_REQUEST, &wanted.topic)?;
        required::<NameRule>(out, names::SUBSCRIBER_REF, &wanted.subscriber)?;
        required::<NameRule>(out, names::SUBSCRIPTION_IDENTIFIER, &wanted.identifier)?;
        out.end_object()
    }
}

/// Writes the row SubscriptionContext with its HeartbeatInterval, left out where there is none.
#[tactic(auto, using(crate::proofs::InOrder::context_in_order), unfolding(crate::specs::Subscriptions::written_context))]
fn context_row(out: &mut Output, heartbeat: &Option<Span>) -> Result<(), OutOfMemory>
    ensures { OnOk result (out.new ≡ out.old ++ row_tokens SUBSCRIPTION_CONTEXT.now (written_context heartbeat.now)) }
{
    let Some(heartbeat) = heartbeat else {
        return Ok(());
    };
    out.key(names::SUBSCRIPTION_CONTEXT)?;
    out.begin_object()?;
    required::<SpanRule>(out, names::HEARTBEAT_INTERVAL, heartbeat)?;
    out.end_object()
}

/// The object of a SubscriptionRequest.
#[tactic(auto, using(crate::proofs::InOrder::subscription_request_in_order))]
pub(crate) fn write_subscription_request(
    out: &mut Output,
    request: &SubscriptionRequest,
) -> Result<(), OutOfMemory>
    ensures { OnOk result (out.new ≡ out.old ++ tokens_of (written_subscription_request request.now)) }
{
    out.begin_object()?;
    optional::<NameRule>(out, names::CONSUMER_ADDRESS, &request.consumer_address)?;
    list::<TimetableSubscriptionWriting>(
        out,
        names::ESTIMATED_TIMETABLE_SUBSCRIPTION_REQUEST,
        &request.estimated_timetable_subscription_request,
    )?;
    required::<IdentifierWriting>(out, names::MESSAGE_IDENTIFIER, &request.message_identifier)?;
    optional::<MomentRule>(out, names::REQUEST_TIMESTAMP, &request.request_timestamp)?;
    optional::<NameRule>(out, names::REQUESTOR_REF, &request.requestor_ref)?;
    list::<SituationSubscriptionWriting>(
        out,
        names::SITUATION_EXCHANGE_SUBSCRIPTION_REQUEST,
        &request.situation_exchange_subscription_request,
    )?;
    list::<StopSubscriptionWriting>(
        out,
        names::STOP_MONITORING_SUBSCRIPTION_REQUEST,
        &request.stop_monitoring_subscription_request,
    )?;
    context_row(out, &request.heartbeat_interval)?;
    list::<VehicleSubscriptionWriting>(
        out,
        names::VEHICLE_MONITORING_SUBSCRIPTION_REQUEST,
        &request.vehicle_monitoring_subscription_request,
    )?;
    out.end_object()
}

/// A ResponseStatus: whether one subscription is held, and until when.
struct ResponseStatusWriting;

impl Written for ResponseStatusWriting {
    type Of = ResponseStatus;

    ghost writing = { written_response_status };

    #[tactic(auto, using(crate::proofs::InOrder::response_status_in_order), unfolding(crate::specs::Subscriptions::written_response_status))]
    fn write(out: &mut Output, status: &ResponseStatus) -> Result<(), OutOfMemory> {
        out.begin_object()?;
        optional::<ErrorWriting>(out, names::ERROR_CONDITION, &status.error_condition)?;
        required::<FlagRule>(out, names::STATUS, &status.status)?;
        optional::<NameRule>(out, names::SUBSCRIBER_REF, &status.subscriber_ref)?;
        optional::<NameRule>(out, names::SUBSCRIPTION_REF, &status.subscription_ref)?;
        optional::<MomentRule>(out, names::VALID_UNTIL, &status.valid_until)?;
        out.end_object()
    }
}

/// The object of a SubscriptionResponse.
#[tactic(auto, using(crate::proofs::InOrder::subscription_response_in_order))]
pub(crate) fn write_subscription_response(
    out: &mut Output,
    response: &SubscriptionResponse,
) -> Result<(), OutOfMemory>
    ensures { OnOk result (out.new ≡ out.old ++ tokens_of (written_subscription_response response.now)) }
{
    out.begin_object()?;
    optional::<NameRule>(
        out,
        names::REQUEST_MESSAGE_REF,
        &response.request_message_ref,
    )?;
    list::<ResponseStatusWriting>(out, names::RESPONSE_STATUS, &response.response_status)?;
    optional::<MomentRule>(out, names::RESPONSE_TIMESTAMP, &response.response_timestamp)?;
    out.end_object()
}
