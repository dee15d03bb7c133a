//! Whether the producer is there, and since when.

ghost use Rattle.std.specs.Prelude.{◌≡◌};

use siri_base::{Copies, Moment, Name, OutOfMemory};

/// A question whether the producer is there (EN 15531-2, CheckStatusRequest).
pub struct CheckStatusRequest {
    pub request_timestamp: Option<Moment>,
    pub requestor_ref: Option<Name>,
    pub message_identifier: Option<Name>,
}

impl Drop for CheckStatusRequest {
    fn drop(self) {
        let CheckStatusRequest {
            request_timestamp: _,
            requestor_ref: _,
            message_identifier: _,
        } = self;
    }
}

/// The producer is there (EN 15531-2, CheckStatusResponse).
pub struct CheckStatusResponse {
    pub response_timestamp: Option<Moment>,
    pub producer_ref: Option<Name>,
    pub request_message_ref: Option<Name>,
    pub status: bool,
    pub service_started_time: Option<Moment>,
}

impl Drop for CheckStatusResponse {
    fn drop(self) {
        let CheckStatusResponse {
            response_timestamp: _,
            producer_ref: _,
            request_message_ref: _,
            status: _,
            service_started_time: _,
        } = self;
    }
}

/// The producer tells a subscriber that it is there (EN 15531-2, HeartbeatNotification).
pub struct HeartbeatNotification {
    pub request_timestamp: Option<Moment>,
    pub producer_ref: Option<Name>,
    pub status: bool,
    pub service_started_time: Option<Moment>,
}

impl Drop for HeartbeatNotification {
    fn drop(self) {
        let HeartbeatNotification {
            request_timestamp: _,
            producer_ref: _,
            status: _,
            service_started_time: _,
        } = self;
    }
}

impl Copies for CheckStatusRequest {
    fn copy(&self) -> Result<Self, OutOfMemory> {
        Ok(CheckStatusRequest {
            request_timestamp: self.request_timestamp,
            requestor_ref: self.requestor_ref.copy()?,
            message_identifier: self.message_identifier.copy()?,
        })
    }
}

impl Copies for CheckStatusResponse {
    fn copy(&self) -> Result<Self, OutOfMemory> {
        Ok(CheckStatusResponse {
            response_timestamp: self.response_timestamp,
            producer_ref: self.producer_ref.copy()?,
            request_message_ref: self.request_message_ref.copy()?,
            status: self.status,
            service_started_time: self.service_started_time,
        })
    }
}

impl Copies for HeartbeatNotification {
    fn copy(&self) -> Result<Self, OutOfMemory> {
        Ok(HeartbeatNotification {
            request_timestamp: self.request_timestamp,
            producer_ref: self.producer_ref.copy()?,
            status: self.status,
            service_started_time: self.service_started_time,
        })
    }
}
