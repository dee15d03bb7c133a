//! Requests that are answered at once.

ghost use Rattle.std.specs.Prelude.{◌≡◌};

use siri_base::{Copies, List, Moment, Name, OutOfMemory};
use siri_topic::Topic;

/// A request for what is shown to some topics now (EN 15531-2, ServiceRequest). Each list has topics of its service.
pub struct ServiceRequest {
    pub request_timestamp: Option<Moment>,
    pub requestor_ref: Option<Name>,
    pub message_identifier: Option<Name>,
    pub stop_monitoring_request: List<Topic>,
    pub estimated_timetable_request: List<Topic>,
    pub vehicle_monitoring_request: List<Topic>,
    pub situation_exchange_request: List<Topic>,
}

impl Drop for ServiceRequest {
    fn drop(self) {
        let ServiceRequest {
            request_timestamp: _,
            requestor_ref: _,
            message_identifier: _,
            stop_monitoring_request: _,
            estimated_timetable_request: _,
            vehicle_monitoring_request: _,
            situation_exchange_request: _,
        } = self;
    }
}

impl Copies for ServiceRequest {
    fn copy(&self) -> Result<Self, OutOfMemory> {
        Ok(ServiceRequest {
            request_timestamp: self.request_timestamp,
            requestor_ref: self.requestor_ref.copy()?,
            message_identifier: self.message_identifier.copy()?,
            stop_monitoring_request: self.stop_monitoring_request.copy()?,
            estimated_timetable_request: self.estimated_timetable_request.copy()?,
            vehicle_monitoring_request: self.vehicle_monitoring_request.copy()?,
            situation_exchange_request: self.situation_exchange_request.copy()?,
        })
    }
}
