//! Calls of a journey at stops.

ghost use Rattle.std.specs.Prelude.{◌≡◌};
ghost use Rattle.siri_records.specs.Blank.{blank_call};

use siri_base::{Copies, Moment, Name, OutOfMemory, Text};

/// A call of a vehicle at a stop: its order on the journey, its aimed, expected and actual times, and what is shown
/// of it (EN 15531-3, MonitoredCall, RecordedCall and EstimatedCall).
pub struct StopCall {
    pub stop_point_ref: Option<Name>,
    pub order: Option<u64>,
    pub stop_point_name: Option<Text>,
    pub vehicle_at_stop: Option<bool>,
    pub aimed_arrival_time: Option<Moment>,
    pub expected_arrival_time: Option<Moment>,
    pub actual_arrival_time: Option<Moment>,
    pub arrival_status: Option<Text>,
    pub arrival_platform_name: Option<Text>,
    pub aimed_departure_time: Option<Moment>,
    pub expected_departure_time: Option<Moment>,
    pub actual_departure_time: Option<Moment>,
    pub departure_status: Option<Text>,
    pub departure_platform_name: Option<Text>,
}

impl StopCall {
    /// A call of which nothing is said.
    pub fn blank() -> StopCall
        ensures { result ≡ blank_call }
    {
        StopCall {
            stop_point_ref: None,
            order: None,
            stop_point_name: None,
            vehicle_at_stop: None,
            aimed_arrival_time: None,
            expected_arrival_time: None,
            actual_arrival_time: None,
            arrival_status: None,
            arrival_platform_name: None,
            aimed_departure_time: None,
            expected_departure_time: None,
            actual_departure_time: None,
            departure_status: None,
            departure_platform_name: None,
        }
    }
}

impl Drop for StopCall {
    fn drop(self) {
        let StopCall {
            stop_point_ref: _,
            order: _,
            stop_point_name: _,
            vehicle_at_stop: _,
            aimed_arrival_time: _,
            expected_arrival_time: _,
            actual_arrival_time: _,
            arrival_status: _,
            arrival_platform_name: _,
            aimed_departure_time: _,
            expected_departure_time: _,
            actual_departure_time: _,
            departure_status: _,
            departure_platform_name: _,
        } = self;
    }
}

impl Copies for StopCall {
    fn copy(&self) -> Result<Self, OutOfMemory> {
        Ok(StopCall {
            stop_point_ref: self.stop_point_ref.copy()?,
            order: self.order,
            stop_point_name: self.stop_point_name.copy()?,
            vehicle_at_stop: self.vehicle_at_stop,
            aimed_arrival_time: self.aimed_arrival_time,
            expected_arrival_time: self.expected_arrival_time,
            actual_arrival_time: self.actual_arrival_time,
            arrival_status: self.arrival_status.copy()?,
            arrival_platform_name: self.arrival_platform_name.copy()?,
            aimed_departure_time: self.aimed_departure_time,
            expected_departure_time: self.expected_departure_time,
            actual_departure_time: self.actual_departure_time,
            departure_status: self.departure_status.copy()?,
            departure_platform_name: self.departure_platform_name.copy()?,
        })
    }
}
