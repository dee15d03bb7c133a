//! Reading requests to end subscriptions, and their answers.

ghost use Rattle.siri_wire.specs.Terminations.{termination_request, termination_status, termination_response};

use crate::read_subscriber::subscriber_or;
use crate::read_subscriptions::MOST_SUBSCRIPTIONS;
use siri_deliveries::{error_condition, names};
use siri_json::Tree;
use siri_messages::{
    TerminateSubscriptionRequest, TerminateSubscriptionResponse, TerminationResponseStatus,
};
use siri_tables::TableError;
use siri_tables::rows::{list, nonempty_list, required_row, row};
use siri_tables::rules::{FlagRule, MomentRule, NameRule, NumberRule, Table};
use std::alloc::Global;

/// A request to end subscriptions, at least one and at most 200 (EN 15531-2, TerminateSubscriptionRequest). The
/// subscriber is the requestor where it isn't named.
pub(crate) struct TerminateSubscriptionRequestTable;

impl Table for TerminateSubscriptionRequestTable {
    type Out = TerminateSubscriptionRequest;

    ghost rows = { termination_request };

    #[tactic(auto, unfolding(crate::specs::Terminations::termination_request))]
    fn read_rows(
        alloc: Global,
        tree: &Tree<'_>,
    ) -> Result<TerminateSubscriptionRequest, TableError> {
        let request_timestamp = row::<MomentRule>(alloc, tree, names::REQUEST_TIMESTAMP)?;
        let requestor_ref = row::<NameRule>(alloc, tree, names::REQUESTOR_REF)?;
        let message_identifier = required_row::<NumberRule>(
            alloc,
            tree,
            names::MESSAGE_IDENTIFIER,
        )?;
        let subscriber_ref = subscriber_or(alloc, tree, &requestor_ref)?;
        Ok(TerminateSubscriptionRequest {
            request_timestamp,
            requestor_ref,
            message_identifier,
            subscriber_ref,
            subscription_ref: nonempty_list::<NameRule>(
                alloc,
                tree,
                names::SUBSCRIPTION_REF,
                MOST_SUBSCRIPTIONS,
            )?,
        })
    }
}

/// What became of a subscription that was to end; its Status is true where it is absent (EN 15531-2,
/// TerminationResponseStatus).
struct TerminationResponseStatusTable;

impl Table for TerminationResponseStatusTable {
    type Out = TerminationResponseStatus;

    ghost rows = { termination_status };

    #[tactic(auto, unfolding(crate::specs::Terminations::termination_status))]
    fn read_rows(alloc: Global, tree: &Tree<'_>) -> Result<TerminationResponseStatus, TableError> {
        Ok(TerminationResponseStatus {
            subscriber_ref: row::<NameRule>(alloc, tree, names::SUBSCRIBER_REF)?,
            subscription_ref: row::<NameRule>(alloc, tree, names::SUBSCRIPTION_REF)?,
            status: row::<FlagRule>(alloc, tree, names::STATUS)?.unwrap_or(true),
            error_condition: error_condition(alloc, tree)?,
        })
    }
}

/// The answer to a request to end subscriptions, with at most 200 statuses (EN 15531-2, TerminateSubscriptionResponse).
pub(crate) struct TerminateSubscriptionResponseTable;

impl Table for TerminateSubscriptionResponseTable {
    type Out = TerminateSubscriptionResponse;

    ghost rows = { termination_response };

    #[tactic(auto, unfolding(crate::specs::Terminations::termination_response))]
    fn read_rows(
        alloc: Global,
        tree: &Tree<'_>,
    ) -> Result<TerminateSubscriptionResponse, TableError> {
        Ok(TerminateSubscriptionResponse {
            response_timestamp: row::<MomentRule>(alloc, tree, names::RESPONSE_TIMESTAMP)?,
            request_message_ref: row::<NameRule>(alloc, tree, names::REQUEST_MESSAGE_REF)?,
            termination_response_status: list::<TerminationResponseStatusTable>(
                alloc,
                tree,
                names::TERMINATION_RESPONSE_STATUS,
                MOST_SUBSCRIPTIONS,
            )?,
        })
    }
}
