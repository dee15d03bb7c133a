//! Writing requests that end subscriptions, and their responses.

ghost use Rattle.std.specs.Prelude.{◌≡◌, ◌++◌, OnOk};
ghost use Rattle.siri_json.specs.Tokens.{tokens_of};
ghost use Rattle.siri_wire.specs.Terminations.{written_termination, written_termination_status, written_termination_response};

use crate::write_values::IdentifierWriting;
use siri_base::OutOfMemory;
use siri_deliveries::{ErrorWriting, names};
use siri_json::Output;
use siri_messages::{
    TerminateSubscriptionRequest, TerminateSubscriptionResponse, TerminationResponseStatus,
};
use siri_tables::rules::{FlagRule, MomentRule, NameRule};
use siri_tables::writing::{Written, list, optional, required};

/// The object of a TerminateSubscriptionRequest.
#[tactic(auto, using(crate::proofs::InOrder::termination_in_order))]
pub(crate) fn write_termination(
    out: &mut Output,
    request: &TerminateSubscriptionRequest,
) -> Result<(), OutOfMemory>
    ensures { OnOk result (out.new ≡ out.old ++ tokens_of (written_termination request.now)) }
{
    out.begin_object()?;
    required::<IdentifierWriting>(out, names::MESSAGE_IDENTIFIER, &request.message_identifier)?;
    optional::<MomentRule>(out, names::REQUEST_TIMESTAMP, &request.request_timestamp)?;
    optional::<NameRule>(out, names::REQUESTOR_REF, &request.requestor_ref)?;
    required::<NameRule>(out, names::SUBSCRIBER_REF, &request.subscriber_ref)?;
    list::<NameRule>(out, names::SUBSCRIPTION_REF, &request.subscription_ref)?;
    out.end_object()
}

/// A TerminationResponseStatus: whether one subscription was ended.
struct TerminationStatusWriting;

impl Written for TerminationStatusWriting {
    type Of = TerminationResponseStatus;

    ghost writing = { written_termination_status };

    #[tactic(auto, using(crate::proofs::InOrder::termination_status_in_order), unfolding(crate::specs::Terminations::written_termination_status))]
    fn write(out: &mut Output, status: &TerminationResponseStatus) -> Result<(), OutOfMemory> {
        out.begin_object()?;
        optional::<ErrorWriting>(out, names::ERROR_CONDITION, &status.error_condition)?;
        required::<FlagRule>(out, names::STATUS, &status.status)?;
        optional::<NameRule>(out, names::SUBSCRIBER_REF, &status.subscriber_ref)?;
        optional::<NameRule>(out, names::SUBSCRIPTION_REF, &status.subscription_ref)?;
        out.end_object()
    }
}

/// The object of a TerminateSubscriptionResponse.
#[tactic(auto, using(crate::proofs::InOrder::termination_response_in_order))]
pub(crate) fn write_termination_response(
    out: &mut Output,
    response: &TerminateSubscriptionResponse,
) -> Result<(), OutOfMemory>
    ensures { OnOk result (out.new ≡ out.old ++ tokens_of (written_termination_response response.now)) }
{
    out.begin_object()?;
    optional::<NameRule>(
        out,
        names::REQUEST_MESSAGE_REF,
        &response.request_message_ref,
    )?;
    optional::<MomentRule>(out, names::RESPONSE_TIMESTAMP, &response.response_timestamp)?;
    list::<TerminationStatusWriting>(
        out,
        names::TERMINATION_RESPONSE_STATUS,
        &response.termination_response_status,
    )?;
    out.end_object()
}
