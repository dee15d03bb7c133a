//! Vehicles under way.

ghost use Rattle.std.specs.Prelude.{◌≡◌};
ghost use Rattle.siri_records.specs.Blank.{blank_vehicle_journey};

use crate::call::StopCall;
use crate::visit::VehicleLocation;
use siri_base::{Copies, Moment, Name, OutOfMemory, Span, Text};

/// What a vehicle does (EN 15531-3, VehicleActivity). It is known by its vehicle.
pub struct Vehicle {
    pub recorded_at_time: Option<Moment>,
    pub item_identifier: Option<Name>,
    pub valid_until_time: Option<Moment>,
    pub monitored_vehicle_journey: VehicleJourney,
}

impl Drop for Vehicle {
    fn drop(self) {
        let Vehicle {
            recorded_at_time: _,
            item_identifier: _,
            valid_until_time: _,
            monitored_vehicle_journey: _,
        } = self;
    }
}

/// The journey that a vehicle is on (EN 15531-3, MonitoredVehicleJourney).
pub struct VehicleJourney {
    pub line_ref: Option<Name>,
    pub direction_ref: Option<Name>,
    pub data_frame_ref: Option<Name>,
    pub dated_vehicle_journey_ref: Option<Name>,
    pub published_line_name: Option<Text>,
    pub operator_ref: Option<Name>,
    pub destination_ref: Option<Name>,
    pub destination_name: Option<Text>,
    pub vehicle_ref: Name,
    pub monitored: Option<bool>,
    pub occupancy: Option<Text>,
    pub delay: Option<Span>,
    pub vehicle_location: Option<VehicleLocation>,
    pub monitored_call: Option<StopCall>,
}

impl VehicleJourney {
    /// A journey of which nothing is said but its vehicle.
    pub fn blank(vehicle_ref: Name) -> VehicleJourney
        ensures { result ≡ blank_vehicle_journey vehicle_ref }
    {
        VehicleJourney {
            line_ref: None,
            direction_ref: None,
            data_frame_ref: None,
            dated_vehicle_journey_ref: None,
            published_line_name: None,
            operator_ref: None,
            destination_ref: None,
            destination_name: None,
            vehicle_ref,
            monitored: None,
            occupancy: None,
            delay: None,
            vehicle_location: None,
            monitored_call: None,
        }
    }
}

impl Drop for VehicleJourney {
    fn drop(self) {
        let VehicleJourney {
            line_ref: _,
            direction_ref: _,
            data_frame_ref: _,
            dated_vehicle_journey_ref: _,
            published_line_name: _,
            operator_ref: _,
            destination_ref: _,
            destination_name: _,
            vehicle_ref: _,
            monitored: _,
            occupancy: _,
            delay: _,
            vehicle_location: _,
            monitored_call: _,
        } = self;
    }
}

impl Copies for Vehicle {
    fn copy(&self) -> Result<Self, OutOfMemory> {
        Ok(Vehicle {
            recorded_at_time: self.recorded_at_time,
            item_identifier: self.item_identifier.copy()?,
            valid_until_time: self.valid_until_time,
            monitored_vehicle_journey: self.monitored_vehicle_journey.copy()?,
        })
    }
}

impl Copies for VehicleJourney {
    fn copy(&self) -> Result<Self, OutOfMemory> {
        Ok(VehicleJourney {
            line_ref: self.line_ref.copy()?,
            direction_ref: self.direction_ref.copy()?,
            data_frame_ref: self.data_frame_ref.copy()?,
            dated_vehicle_journey_ref: self.dated_vehicle_journey_ref.copy()?,
            published_line_name: self.published_line_name.copy()?,
            operator_ref: self.operator_ref.copy()?,
            destination_ref: self.destination_ref.copy()?,
            destination_name: self.destination_name.copy()?,
            vehicle_ref: self.vehicle_ref.copy()?,
            monitored: self.monitored,
            occupancy: self.occupancy.copy()?,
            delay: self.delay,
            vehicle_location: self.vehicle_location,
            monitored_call: self.monitored_call.copy()?,
        })
    }
}
