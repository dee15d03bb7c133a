//! Writing requests that are answered at once.

ghost use Rattle.std.specs.Prelude.{◌≡◌, ◌++◌, OnOk};
ghost use Rattle.siri_json.specs.Tokens.{tokens_of};
ghost use Rattle.siri_wire.specs.Requests.{written_service_request};

use siri_base::OutOfMemory;
use siri_deliveries::{TopicWriting, names};
use siri_json::Output;
use siri_messages::ServiceRequest;
use siri_tables::rules::{MomentRule, NameRule};
use siri_tables::writing::{list, optional};

/// The object of a ServiceRequest.
#[tactic(auto, using(crate::proofs::InOrder::service_request_in_order))]
pub(crate) fn write_service_request(
    out: &mut Output,
    request: &ServiceRequest,
) -> Result<(), OutOfMemory>
    ensures { OnOk result (out.new ≡ out.old ++ tokens_of (written_service_request request.now)) }
{
    out.begin_object()?;
    list::<TopicWriting>(
        out,
        names::ESTIMATED_TIMETABLE_REQUEST,
        &request.estimated_timetable_request,
    )?;
    optional::<NameRule>(out, names::MESSAGE_IDENTIFIER, &request.message_identifier)?;
    optional::<MomentRule>(out, names::REQUEST_TIMESTAMP, &request.request_timestamp)?;
    optional::<NameRule>(out, names::REQUESTOR_REF, &request.requestor_ref)?;
    list::<TopicWriting>(
        out,
        names::SITUATION_EXCHANGE_REQUEST,
        &request.situation_exchange_request,
    )?;
    list::<TopicWriting>(
        out,
        names::STOP_MONITORING_REQUEST,
        &request.stop_monitoring_request,
    )?;
    list::<TopicWriting>(
        out,
        names::VEHICLE_MONITORING_REQUEST,
        &request.vehicle_monitoring_request,
    )?;
    out.end_object()
}
