//! Visits of vehicles at stops.

ghost use Rattle.std.specs.Prelude.{◌≡◌};
ghost use Rattle.siri_records.specs.Blank.{blank_visit_journey};

use crate::call::StopCall;
use siri_base::{Copies, Moment, Name, OutOfMemory, Span, Text};

/// A visit of a vehicle at a monitored stop (EN 15531-3, MonitoredStopVisit). It is known by its monitoring point and
/// its item identifier.
pub struct Visit {
    pub recorded_at_time: Option<Moment>,
    pub item_identifier: Name,
    pub monitoring_ref: Name,
    pub monitored_vehicle_journey: VisitJourney,
}

impl Drop for Visit {
    fn drop(self) {
        let Visit {
            recorded_at_time: _,
            item_identifier: _,
            monitoring_ref: _,
            monitored_vehicle_journey: _,
        } = self;
    }
}

/// The journey of a visit (EN 15531-3, MonitoredVehicleJourney), with its call at the monitored stop.
pub struct VisitJourney {
    pub line_ref: Option<Name>,
    pub direction_ref: Option<Name>,
    pub data_frame_ref: Option<Name>,
    pub dated_vehicle_journey_ref: Option<Name>,
    pub published_line_name: Option<Text>,
    pub operator_ref: Option<Name>,
    pub destination_ref: Option<Name>,
    pub destination_name: Option<Text>,
    pub vehicle_ref: Option<Name>,
    pub monitored: Option<bool>,
    pub occupancy: Option<Text>,
    pub delay: Option<Span>,
    pub vehicle_location: Option<VehicleLocation>,
    pub monitored_call: StopCall,
}

impl VisitJourney {
    /// A journey of which nothing is said but its call.
    pub fn blank(monitored_call: StopCall) -> VisitJourney
        ensures { result ≡ blank_visit_journey monitored_call }
    {
        VisitJourney {
            line_ref: None,
            direction_ref: None,
            data_frame_ref: None,
            dated_vehicle_journey_ref: None,
            published_line_name: None,
            operator_ref: None,
            destination_ref: None,
            destination_name: None,
            vehicle_ref: None,
            monitored: None,
            occupancy: None,
            delay: None,
            vehicle_location: None,
            monitored_call,
        }
    }
}

impl Drop for VisitJourney {
    fn drop(self) {
        let VisitJourney {
            line_ref: _,
            direction_ref: _,
            data_frame_ref: _,
            dated_vehicle_journey_ref: _,
            published_line_name: _,
            operator_ref: _,
            destination_ref: _,
            destination_name: _,
            vehicle_ref: _,
            monitored: _,
            occupancy: _,
            delay: _,
            vehicle_location: _,
            monitored_call: _,
        } = self;
    }
}

/// Where a vehicle is, in 10^-7 degrees, each from -180 to 180 degrees.
#[derive(Clone, Copy, Debug, PartialEq, Eq)]
pub struct VehicleLocation {
    pub longitude: Option<i64>,
    pub latitude: Option<i64>,
}

impl Copies for Visit {
    fn copy(&self) -> Result<Self, OutOfMemory> {
        Ok(Visit {
            recorded_at_time: self.recorded_at_time,
            item_identifier: self.item_identifier.copy()?,
            monitoring_ref: self.monitoring_ref.copy()?,
            monitored_vehicle_journey: self.monitored_vehicle_journey.copy()?,
        })
    }
}

impl Copies for VisitJourney {
    fn copy(&self) -> Result<Self, OutOfMemory> {
        Ok(VisitJourney {
            line_ref: self.line_ref.copy()?,
            direction_ref: self.direction_ref.copy()?,
            data_frame_ref: self.data_frame_ref.copy()?,
            dated_vehicle_journey_ref: self.dated_vehicle_journey_ref.copy()?,
            published_line_name: self.published_line_name.copy()?,
            operator_ref: self.operator_ref.copy()?,
            destination_ref: self.destination_ref.copy()?,
            destination_name: self.destination_name.copy()?,
            vehicle_ref: self.vehicle_ref.copy()?,
            monitored: self.monitored,
            occupancy: self.occupancy.copy()?,
            delay: self.delay,
            vehicle_location: self.vehicle_location,
            monitored_call: self.monitored_call.copy()?,
        })
    }
}
