//! Journeys with their calls.

ghost use Rattle.std.specs.Prelude.{◌≡◌};

use crate::call::StopCall;
use siri_base::{Copies, List, Moment, Name, OutOfMemory, Span, Text};

/// A journey with the calls behind it and those ahead of it (EN 15531-3, EstimatedVehicleJourney). It is known by its
/// line, direction, data frame and dated journey. A document has at most 1,000 calls in each of its lists.
pub struct Journey {
    pub recorded_at_time: Option<Moment>,
    pub line_ref: Name,
    pub direction_ref: Option<Name>,
    pub data_frame_ref: Option<Name>,
    pub dated_vehicle_journey_ref: Name,
    pub cancellation: Option<bool>,
    pub published_line_name: Option<Text>,
    pub operator_ref: Option<Name>,
    pub destination_ref: Option<Name>,
    pub destination_name: Option<Text>,
    pub vehicle_ref: Option<Name>,
    pub monitored: Option<bool>,
    pub occupancy: Option<Text>,
    pub delay: Option<Span>,
    pub recorded_calls: List<StopCall>,
    pub estimated_calls: List<StopCall>,
}

impl Drop for Journey {
    fn drop(self) {
        let Journey {
            recorded_at_time: _,
            line_ref: _,
            direction_ref: _,
            data_frame_ref: _,
            dated_vehicle_journey_ref: _,
            cancellation: _,
            published_line_name: _,
            operator_ref: _,
            destination_ref: _,
            destination_name: _,
            vehicle_ref: _,
            monitored: _,
            occupancy: _,
            delay: _,
            recorded_calls: _,
            estimated_calls: _,
        } = self;
    }
}

impl Copies for Journey {
    fn copy(&self) -> Result<Self, OutOfMemory> {
        Ok(Journey {
            recorded_at_time: self.recorded_at_time,
            line_ref: self.line_ref.copy()?,
            direction_ref: self.direction_ref.copy()?,
            data_frame_ref: self.data_frame_ref.copy()?,
            dated_vehicle_journey_ref: self.dated_vehicle_journey_ref.copy()?,
            cancellation: self.cancellation,
            published_line_name: self.published_line_name.copy()?,
            operator_ref: self.operator_ref.copy()?,
            destination_ref: self.destination_ref.copy()?,
            destination_name: self.destination_name.copy()?,
            vehicle_ref: self.vehicle_ref.copy()?,
            monitored: self.monitored,
            occupancy: self.occupancy.copy()?,
            delay: self.delay,
            recorded_calls: self.recorded_calls.copy()?,
            estimated_calls: self.estimated_calls.copy()?,
        })
    }
}
