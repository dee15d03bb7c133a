//! Reading requests that are answered at once.

ghost use Rattle.std.specs.Prelude.{◌≡◌};
ghost use Rattle.siri_json.specs.Shown.{shown};
ghost use Rattle.siri_tables.specs.Refusals.{Gives};
ghost use Rattle.siri_wire.specs.Requests.{read_service_request_rows, asks_nothing, service_request};

use siri_base::Reason;
use siri_deliveries::{
    SituationTopicTable, StopTopicTable, TimetableTopicTable, VehicleTopicTable, names,
};
use siri_json::Tree;
use siri_messages::ServiceRequest;
use siri_tables::TableError;
use siri_tables::refusal::refuse;
use siri_tables::rows::{list, row};
use siri_tables::rules::{MomentRule, NameRule, Table};
use std::alloc::Global;

/// The most topics of each service in a ServiceRequest; with more their list is `TooMany`.
const MOST_TOPICS: usize = 100;

/// The rows of a ServiceRequest, none of which is required; it may ask for no topic.
#[tactic(auto, unfolding(crate::specs::Requests::read_service_request_rows))]
fn read_service_request_rows(alloc: Global, tree: &Tree<'_>) -> Result<ServiceRequest, TableError>
    ensures { Gives result (read_service_request_rows (shown tree.now)) }
{
    Ok(ServiceRequest {
        request_timestamp: row::<MomentRule>(alloc, tree, names::REQUEST_TIMESTAMP)?,
        requestor_ref: row::<NameRule>(alloc, tree, names::REQUESTOR_REF)?,
        message_identifier: row::<NameRule>(alloc, tree, names::MESSAGE_IDENTIFIER)?,
        stop_monitoring_request: list::<StopTopicTable>(
            alloc,
            tree,
            names::STOP_MONITORING_REQUEST,
            MOST_TOPICS,
        )?,
        estimated_timetable_request: list::<TimetableTopicTable>(
            alloc,
            tree,
            names::ESTIMATED_TIMETABLE_REQUEST,
            MOST_TOPICS,
        )?,
        vehicle_monitoring_request: list::<VehicleTopicTable>(
            alloc,
            tree,
            names::VEHICLE_MONITORING_REQUEST,
            MOST_TOPICS,
        )?,
        situation_exchange_request: list::<SituationTopicTable>(
            alloc,
            tree,
            names::SITUATION_EXCHANGE_REQUEST,
            MOST_TOPICS,
        )?,
    })
}

/// Whether a ServiceRequest has no topic of any service.
fn asks_nothing(request: &ServiceRequest) -> bool
    ensures { result ≡ asks_nothing request.now }
{
    request.stop_monitoring_request.len() == 0
        && request.estimated_timetable_request.len() == 0
        && request.vehicle_monitoring_request.len() == 0
        && request.situation_exchange_request.len() == 0
}

/// A request for what is shown to some topics now, at most 100 of each service (EN 15531-2, ServiceRequest):
/// `NotCarried` where it asks for no topic.
pub(crate) struct ServiceRequestTable;

impl Table for ServiceRequestTable {
    type Out = ServiceRequest;

    ghost rows = { service_request };

    #[tactic(auto, unfolding(crate::specs::Requests::service_request))]
    fn read_rows(alloc: Global, tree: &Tree<'_>) -> Result<ServiceRequest, TableError> {
        let request = read_service_request_rows(alloc, tree)?;
        if asks_nothing(&request) {
            return refuse(alloc, Reason::NotCarried);
        }
        Ok(request)
    }
}
