//! Writing deliveries.

ghost use Rattle.std.specs.Prelude.{◌≡◌, [], ◌∷◌, ◌++◌, OnOk};
ghost use Rattle.siri_json.specs.Tokens.{tokens_of};
ghost use Rattle.siri_tables.specs.Appended.{row_tokens};
ghost use Rattle.siri_tables.specs.Writing.{row_object, written_list};
ghost use Rattle.siri_tables.proofs.Sorted.{any_written};
ghost use Rattle.siri_deliveries.specs.declared.names.TheConstants.{EXTENSIONS, REMOVED, SITUATIONS};
ghost use Rattle.siri_deliveries.specs.Deliveries.{written_situations, written_stop_delivery, written_timetable_delivery, written_vehicle_delivery, written_situation_delivery, written_service_delivery};
ghost use Rattle.siri_deliveries.specs.Parts.{rows_of_place, written_place, written_removed};
ghost use Rattle.siri_deliveries.specs.Removals.{written_removal};

use crate::names;
use crate::write_entries::{FrameWriting, ItemWriting, RemovalWriting};
use crate::write_values::{ErrorWriting, true_row};
use siri_base::{List, OutOfMemory};
use siri_json::Output;
use siri_messages::{FunctionalDelivery, ServiceDelivery};
use siri_records::SharedItem;
use siri_tables::rules::{FlagRule, MomentRule, NameRule, NumberRule};
use siri_tables::writing::{Written, list, list_inside, optional, required};

/// Whether Start, Round or Part is there: where none is, no place is written.
fn has_place(delivery: &FunctionalDelivery) -> bool
    ensures { result ≡ any_written (rows_of_place delivery.now []) }
{
    delivery.start.is_some() || delivery.round.is_some() || delivery.part.is_some()
}

/// Writes the object of a place in a round: Part, Round and Start, each where it is there.
#[tactic(auto, using(crate::proofs::InOrder::place_in_order))]
fn write_place(out: &mut Output, delivery: &FunctionalDelivery) -> Result<(), OutOfMemory>
    ensures { OnOk result (out.new ≡ out.old ++ tokens_of (row_object (rows_of_place delivery.now []))) }
{
    out.begin_object()?;
    optional::<NumberRule>(out, names::PART, &delivery.part)?;
    optional::<NumberRule>(out, names::ROUND, &delivery.round)?;
    optional::<NumberRule>(out, names::START, &delivery.start)?;
    out.end_object()
}

/// Writes the row Extensions of a delivery of visits or vehicles, left out where it has no place in a round.
#[tactic(auto, using(crate::proofs::InOrder::place_left_out, crate::proofs::InOrder::place_written))]
fn place_row(out: &mut Output, delivery: &FunctionalDelivery) -> Result<(), OutOfMemory>
    ensures { OnOk result (out.new ≡ out.old ++ row_tokens EXTENSIONS.now (written_place delivery.now)) }
{
    if !has_place(delivery) {
        return Ok(());
    }
    out.key(names::EXTENSIONS)?;
    write_place(out, delivery)
}

/// Whether Start, Round or Part is there, or anything was removed.
#[tactic(auto, using(crate::proofs::InOrder::any_removed))]
fn has_removed(delivery: &FunctionalDelivery) -> bool
    ensures { result ≡ any_written (rows_of_place delivery.now ((REMOVED.now, written_list written_removal delivery.now.removals) ∷ [])) }
{
    delivery.start.is_some()
        || delivery.round.is_some()
        || delivery.part.is_some()
        || delivery.removals.len() > 0
}

/// Writes the object of Part, Removed, Round and Start, each where it is there.
#[tactic(auto, using(crate::proofs::InOrder::removed_in_order))]
fn write_removed(out: &mut Output, delivery: &FunctionalDelivery) -> Result<(), OutOfMemory>
    ensures { OnOk result (out.new ≡ out.old
        ++ tokens_of (row_object (rows_of_place delivery.now ((REMOVED.now, written_list written_removal delivery.now.removals) ∷ [])))) }
{
    out.begin_object()?;
    optional::<NumberRule>(out, names::PART, &delivery.part)?;
    list::<RemovalWriting>(out, names::REMOVED, &delivery.removals)?;
    optional::<NumberRule>(out, names::ROUND, &delivery.round)?;
    optional::<NumberRule>(out, names::START, &delivery.start)?;
    out.end_object()
}

/// Writes the row Extensions of a delivery of journeys or situations, left out where its object would be empty.
#[tactic(auto, using(crate::proofs::InOrder::removed_left_out, crate::proofs::InOrder::removed_written))]
fn removed_row(out: &mut Output, delivery: &FunctionalDelivery) -> Result<(), OutOfMemory>
    ensures { OnOk result (out.new ≡ out.old ++ row_tokens EXTENSIONS.now (written_removed delivery.now)) }
{
    if !has_removed(delivery) {
        return Ok(());
    }
    out.key(names::EXTENSIONS)?;
    write_removed(out, delivery)
}

/// A StopMonitoringDelivery; what was removed stands at MonitoredStopVisitCancellation.
struct StopDeliveryWriting;

impl Written for StopDeliveryWriting {
    type Of = FunctionalDelivery;

    ghost writing = { written_stop_delivery };

    #[tactic(auto, using(crate::proofs::InOrder::stop_delivery_in_order), unfolding(crate::specs::Deliveries::written_stop_delivery))]
    fn write(out: &mut Output, delivery: &FunctionalDelivery) -> Result<(), OutOfMemory> {
        out.begin_object()?;
        optional::<ErrorWriting>(out, names::ERROR_CONDITION, &delivery.error_condition)?;
        place_row(out, delivery)?;
        list::<ItemWriting>(out, names::MONITORED_STOP_VISIT, &delivery.items)?;
        list::<RemovalWriting>(
            out,
            names::MONITORED_STOP_VISIT_CANCELLATION,
            &delivery.removals,
        )?;
        optional::<MomentRule>(out, names::RESPONSE_TIMESTAMP, &delivery.response_timestamp)?;
        required::<FlagRule>(out, names::STATUS, &delivery.status)?;
        optional::<NameRule>(out, names::SUBSCRIBER_REF, &delivery.subscriber_ref)?;
        optional::<NameRule>(out, names::SUBSCRIPTION_REF, &delivery.subscription_ref)?;
        out.end_object()
    }
}

/// An EstimatedTimetableDelivery; what was removed stands at Removed in its Extensions.
struct TimetableDeliveryWriting;

impl Written for TimetableDeliveryWriting {
    type Of = FunctionalDelivery;

    ghost writing = { written_timetable_delivery };

    #[tactic(auto, using(crate::proofs::InOrder::timetable_delivery_in_order), unfolding(crate::specs::Deliveries::written_timetable_delivery))]
    fn write(out: &mut Output, delivery: &FunctionalDelivery) -> Result<(), OutOfMemory> {
        out.begin_object()?;
        optional::<ErrorWriting>(out, names::ERROR_CONDITION, &delivery.error_condition)?;
        list::<FrameWriting>(out, names::ESTIMATED_JOURNEY_VERSION_FRAME, &delivery.items)?;
        removed_row(out, delivery)?;
        optional::<MomentRule>(out, names::RESPONSE_TIMESTAMP, &delivery.response_timestamp)?;
        required::<FlagRule>(out, names::STATUS, &delivery.status)?;
        optional::<NameRule>(out, names::SUBSCRIBER_REF, &delivery.subscriber_ref)?;
        optional::<NameRule>(out, names::SUBSCRIPTION_REF, &delivery.subscription_ref)?;
        out.end_object()
    }
}

/// A VehicleMonitoringDelivery; what was removed stands at VehicleActivityCancellation.
struct VehicleDeliveryWriting;

impl Written for VehicleDeliveryWriting {
    type Of = FunctionalDelivery;

    ghost writing = { written_vehicle_delivery };

    #[tactic(auto, using(crate::proofs::InOrder::vehicle_delivery_in_order), unfolding(crate::specs::Deliveries::written_vehicle_delivery))]
    fn write(out: &mut Output, delivery: &FunctionalDelivery) -> Result<(), OutOfMemory> {
        out.begin_object()?;
        optional::<ErrorWriting>(out, names::ERROR_CONDITION, &delivery.error_condition)?;
        place_row(out, delivery)?;
        optional::<MomentRule>(out, names::RESPONSE_TIMESTAMP, &delivery.response_timestamp)?;
        required::<FlagRule>(out, names::STATUS, &delivery.status)?;
        optional::<NameRule>(out, names::SUBSCRIBER_REF, &delivery.subscriber_ref)?;
        optional::<NameRule>(out, names::SUBSCRIPTION_REF, &delivery.subscription_ref)?;
        list::<ItemWriting>(out, names::VEHICLE_ACTIVITY, &delivery.items)?;
        list::<RemovalWriting>(
            out,
            names::VEHICLE_ACTIVITY_CANCELLATION,
            &delivery.removals,
        )?;
        out.end_object()
    }
}

/// Writes the row Situations, each as a PtSituationElement; it is left out where there are none.
#[tactic(auto, unfolding(crate::specs::Deliveries::written_situations))]
fn situations_row(out: &mut Output, items: &List<SharedItem>) -> Result<(), OutOfMemory>
    ensures { OnOk result (out.new ≡ out.old ++ row_tokens SITUATIONS.now (written_situations items.now)) }
{
    list_inside::<ItemWriting>(out, names::SITUATIONS, names::PT_SITUATION_ELEMENT, items)
}

/// A SituationExchangeDelivery; what was removed stands at Removed in its Extensions.
struct SituationDeliveryWriting;

impl Written for SituationDeliveryWriting {
    type Of = FunctionalDelivery;

    ghost writing = { written_situation_delivery };

    #[tactic(auto, using(crate::proofs::InOrder::situation_delivery_in_order), unfolding(crate::specs::Deliveries::written_situation_delivery))]
    fn write(out: &mut Output, delivery: &FunctionalDelivery) -> Result<(), OutOfMemory> {
        out.begin_object()?;
        optional::<ErrorWriting>(out, names::ERROR_CONDITION, &delivery.error_condition)?;
        removed_row(out, delivery)?;
        optional::<MomentRule>(out, names::RESPONSE_TIMESTAMP, &delivery.response_timestamp)?;
        situations_row(out, &delivery.items)?;
        required::<FlagRule>(out, names::STATUS, &delivery.status)?;
        optional::<NameRule>(out, names::SUBSCRIBER_REF, &delivery.subscriber_ref)?;
        optional::<NameRule>(out, names::SUBSCRIPTION_REF, &delivery.subscription_ref)?;
        out.end_object()
    }
}

/// The object of a ServiceDelivery.
#[tactic(auto, using(crate::proofs::InOrder::service_delivery_in_order))]
pub fn write_service_delivery(
    out: &mut Output,
    delivery: &ServiceDelivery,
) -> Result<(), OutOfMemory>
    ensures { OnOk result (out.new ≡ out.old ++ tokens_of (written_service_delivery delivery.now)) }
{
    out.begin_object()?;
    optional::<ErrorWriting>(out, names::ERROR_CONDITION, &delivery.error_condition)?;
    list::<TimetableDeliveryWriting>(
        out,
        names::ESTIMATED_TIMETABLE_DELIVERY,
        &delivery.estimated_timetable_delivery,
    )?;
    true_row(out, names::MORE_DATA, delivery.more_data)?;
    optional::<NameRule>(out, names::PRODUCER_REF, &delivery.producer_ref)?;
    optional::<NameRule>(
        out,
        names::REQUEST_MESSAGE_REF,
        &delivery.request_message_ref,
    )?;
    optional::<NameRule>(
        out,
        names::RESPONSE_MESSAGE_IDENTIFIER,
        &delivery.response_message_identifier,
    )?;
    optional::<MomentRule>(out, names::RESPONSE_TIMESTAMP, &delivery.response_timestamp)?;
    list::<SituationDeliveryWriting>(
        out,
        names::SITUATION_EXCHANGE_DELIVERY,
        &delivery.situation_exchange_delivery,
    )?;
    required::<FlagRule>(out, names::STATUS, &delivery.status)?;
    list::<StopDeliveryWriting>(
        out,
        names::STOP_MONITORING_DELIVERY,
        &delivery.stop_monitoring_delivery,
    )?;
    list::<VehicleDeliveryWriting>(
        out,
        names::VEHICLE_MONITORING_DELIVERY,
        &delivery.vehicle_monitoring_delivery,
    )?;
    out.end_object()
}
