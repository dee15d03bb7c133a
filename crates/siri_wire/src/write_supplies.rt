//! Writing how the parts of rounds are notified, fetched and acknowledged.

ghost use Rattle.std.specs.Prelude.{◌≡◌, ◌++◌, OnOk};
ghost use Rattle.siri_json.specs.Tokens.{tokens_of};
ghost use Rattle.siri_wire.specs.Supplies.{written_data_ready, written_ready_acknowledgement, written_supply, written_received};

use crate::write_values::MarkWriting;
use siri_base::OutOfMemory;
use siri_deliveries::{ErrorWriting, names, true_row};
use siri_json::Output;
use siri_messages::{
    DataReadyAcknowledgement, DataReadyNotification, DataReceivedAcknowledgement, DataSupplyRequest,
};
use siri_tables::rules::{FlagRule, MomentRule, NameRule};
use siri_tables::writing::{optional, required};

/// The object of a DataReadyNotification.
#[tactic(auto, using(crate::proofs::InOrder::data_ready_in_order))]
pub(crate) fn write_data_ready(
    out: &mut Output,
    notification: &DataReadyNotification,
) -> Result<(), OutOfMemory>
    ensures { OnOk result (out.new ≡ out.old ++ tokens_of (written_data_ready notification.now)) }
{
    out.begin_object()?;
    required::<MarkWriting>(out, names::EXTENSIONS, &notification.extensions)?;
    optional::<NameRule>(out, names::PRODUCER_REF, &notification.producer_ref)?;
    optional::<MomentRule>(
        out,
        names::REQUEST_TIMESTAMP,
        &notification.request_timestamp,
    )?;
    out.end_object()
}

/// The object of a DataReadyAcknowledgement.
#[tactic(auto, using(crate::proofs::InOrder::ready_acknowledgement_in_order))]
pub(crate) fn write_ready_acknowledgement(
    out: &mut Output,
    acknowledgement: &DataReadyAcknowledgement,
) -> Result<(), OutOfMemory>
    ensures { OnOk result (out.new ≡ out.old ++ tokens_of (written_ready_acknowledgement acknowledgement.now)) }
{
    out.begin_object()?;
    optional::<NameRule>(out, names::CONSUMER_REF, &acknowledgement.consumer_ref)?;
    optional::<MomentRule>(
        out,
        names::RESPONSE_TIMESTAMP,
        &acknowledgement.response_timestamp,
    )?;
    required::<FlagRule>(out, names::STATUS, &acknowledgement.status)?;
    out.end_object()
}

/// The object of a DataSupplyRequest.
#[tactic(auto, using(crate::proofs::InOrder::supply_in_order))]
pub(crate) fn write_supply(out: &mut Output, request: &DataSupplyRequest) -> Result<(), OutOfMemory>
    ensures { OnOk result (out.new ≡ out.old ++ tokens_of (written_supply request.now)) }
{
    out.begin_object()?;
    true_row(out, names::ALL_DATA, request.all_data)?;
    required::<NameRule>(out, names::CONSUMER_REF, &request.consumer_ref)?;
    required::<MarkWriting>(out, names::EXTENSIONS, &request.extensions)?;
    optional::<MomentRule>(out, names::REQUEST_TIMESTAMP, &request.request_timestamp)?;
    out.end_object()
}

/// The object of a DataReceivedAcknowledgement.
#[tactic(auto, using(crate::proofs::InOrder::received_in_order))]
pub(crate) fn write_received(
    out: &mut Output,
    acknowledgement: &DataReceivedAcknowledgement,
) -> Result<(), OutOfMemory>
    ensures { OnOk result (out.new ≡ out.old ++ tokens_of (written_received acknowledgement.now)) }
{
    out.begin_object()?;
    optional::<NameRule>(out, names::CONSUMER_REF, &acknowledgement.consumer_ref)?;
    optional::<ErrorWriting>(
        out,
        names::ERROR_CONDITION,
        &acknowledgement.error_condition,
    )?;
    optional::<MarkWriting>(out, names::EXTENSIONS, &acknowledgement.extensions)?;
    optional::<NameRule>(
        out,
        names::REQUEST_MESSAGE_REF,
        &acknowledgement.request_message_ref,
    )?;
    optional::<MomentRule>(
        out,
        names::RESPONSE_TIMESTAMP,
        &acknowledgement.response_timestamp,
    )?;
    required::<FlagRule>(out, names::STATUS, &acknowledgement.status)?;
    out.end_object()
}
