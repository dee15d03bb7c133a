//! Writing whether the producer is there, and since when.

ghost use Rattle.std.specs.Prelude.{◌≡◌, ◌++◌, OnOk};
ghost use Rattle.siri_json.specs.Tokens.{tokens_of};
ghost use Rattle.siri_wire.specs.Statuses.{written_check_status, written_status_response, written_heartbeat};

use siri_base::OutOfMemory;
use siri_deliveries::names;
use siri_json::Output;
use siri_messages::{CheckStatusRequest, CheckStatusResponse, HeartbeatNotification};
use siri_tables::rules::{FlagRule, MomentRule, NameRule};
use siri_tables::writing::{optional, required};

/// The object of a CheckStatusRequest.
#[tactic(auto, using(crate::proofs::InOrder::check_status_in_order))]
pub(crate) fn write_check_status(
    out: &mut Output,
    check: &CheckStatusRequest,
) -> Result<(), OutOfMemory>
    ensures { OnOk result (out.new ≡ out.old ++ tokens_of (written_check_status check.now)) }
{
    out.begin_object()?;
    optional::<NameRule>(out, names::MESSAGE_IDENTIFIER, &check.message_identifier)?;
    optional::<MomentRule>(out, names::REQUEST_TIMESTAMP, &check.request_timestamp)?;
    optional::<NameRule>(out, names::REQUESTOR_REF, &check.requestor_ref)?;
    out.end_object()
}

/// The object of a CheckStatusResponse.
#[tactic(auto, using(crate::proofs::InOrder::status_response_in_order))]
pub(crate) fn write_status_response(
    out: &mut Output,
    response: &CheckStatusResponse,
) -> Result<(), OutOfMemory>
    ensures { OnOk result (out.new ≡ out.old ++ tokens_of (written_status_response response.now)) }
{
    out.begin_object()?;
    optional::<NameRule>(out, names::PRODUCER_REF, &response.producer_ref)?;
    optional::<NameRule>(
        out,
        names::REQUEST_MESSAGE_REF,
        &response.request_message_ref,
    )?;
    optional::<MomentRule>(out, names::RESPONSE_TIMESTAMP, &response.response_timestamp)?;
    optional::<MomentRule>(
        out,
        names::SERVICE_STARTED_TIME,
        &response.service_started_time,
    )?;
    required::<FlagRule>(out, names::STATUS, &response.status)?;
    out.end_object()
}

/// The object of a HeartbeatNotification.
#[tactic(auto, using(crate::proofs::InOrder::heartbeat_in_order))]
pub(crate) fn write_heartbeat(
    out: &mut Output,
    heartbeat: &HeartbeatNotification,
) -> Result<(), OutOfMemory>
    ensures { OnOk result (out.new ≡ out.old ++ tokens_of (written_heartbeat heartbeat.now)) }
{
    out.begin_object()?;
    optional::<NameRule>(out, names::PRODUCER_REF, &heartbeat.producer_ref)?;
    optional::<MomentRule>(out, names::REQUEST_TIMESTAMP, &heartbeat.request_timestamp)?;
    optional::<MomentRule>(
        out,
        names::SERVICE_STARTED_TIME,
        &heartbeat.service_started_time,
    )?;
    required::<FlagRule>(out, names::STATUS, &heartbeat.status)?;
    out.end_object()
}
