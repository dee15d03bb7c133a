//! Reading whether the producer is there.

ghost use Rattle.siri_wire.specs.Statuses.{check_status_request, check_status_response, heartbeat_notification};

use siri_deliveries::names;
use siri_json::Tree;
use siri_messages::{CheckStatusRequest, CheckStatusResponse, HeartbeatNotification};
use siri_tables::TableError;
use siri_tables::rows::row;
use siri_tables::rules::{FlagRule, MomentRule, NameRule, Table};
use std::alloc::Global;

/// A question whether the producer is there (EN 15531-2, CheckStatusRequest).
pub(crate) struct CheckStatusRequestTable;

impl Table for CheckStatusRequestTable {
    type Out = CheckStatusRequest;

    ghost rows = { check_status_request };

    #[tactic(auto, unfolding(crate::specs::Statuses::check_status_request))]
    fn read_rows(alloc: Global, tree: &Tree<'_>) -> Result<CheckStatusRequest, TableError> {
        Ok(CheckStatusRequest {
            request_timestamp: row::<MomentRule>(alloc, tree, names::REQUEST_TIMESTAMP)?,
            requestor_ref: row::<NameRule>(alloc, tree, names::REQUESTOR_REF)?,
            message_identifier: row::<NameRule>(alloc, tree, names::MESSAGE_IDENTIFIER)?,
        })
    }
}

/// The producer's answer to such a question (EN 15531-2, CheckStatusResponse). Status is true where it is absent.
pub(crate) struct CheckStatusResponseTable;

impl Table for CheckStatusResponseTable {
    type Out = CheckStatusResponse;

    ghost rows = { check_status_response };

    #[tactic(auto, unfolding(crate::specs::Statuses::check_status_response))]
    fn read_rows(alloc: Global, tree: &Tree<'_>) -> Result<CheckStatusResponse, TableError> {
        Ok(CheckStatusResponse {
            response_timestamp: row::<MomentRule>(alloc, tree, names::RESPONSE_TIMESTAMP)?,
            producer_ref: row::<NameRule>(alloc, tree, names::PRODUCER_REF)?,
            request_message_ref: row::<NameRule>(alloc, tree, names::REQUEST_MESSAGE_REF)?,
            status: row::<FlagRule>(alloc, tree, names::STATUS)?.unwrap_or(true),
            service_started_time: row::<MomentRule>(alloc, tree, names::SERVICE_STARTED_TIME)?,
        })
    }
}

/// The producer tells that it is there (EN 15531-2, HeartbeatNotification). Status is true where it is absent.
pub(crate) struct HeartbeatNotificationTable;

impl Table for HeartbeatNotificationTable {
    type Out = HeartbeatNotification;

    ghost rows = { heartbeat_notification };

    #[tactic(auto, unfolding(crate::specs::Statuses::heartbeat_notification))]
    fn read_rows(alloc: Global, tree: &Tree<'_>) -> Result<HeartbeatNotification, TableError> {
        Ok(HeartbeatNotification {
            request_timestamp: row::<MomentRule>(alloc, tree, names::REQUEST_TIMESTAMP)?,
            producer_ref: row::<NameRule>(alloc, tree, names::PRODUCER_REF)?,
            status: row::<FlagRule>(alloc, tree, names::STATUS)?.unwrap_or(true),
            service_started_time: row::<MomentRule>(alloc, tree, names::SERVICE_STARTED_TIME)?,
        })
    }
}
