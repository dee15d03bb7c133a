//! What is asked of each of the four services.

ghost use Rattle.std.specs.Prelude.{◌≡◌};
ghost use Rattle.siri_topic.specs.Services.{service_asked};

use siri_base::{Copies, List, Moment, Name, OutOfMemory, Span};
use siri_records::Service;

/// What is asked of one of the services.
pub enum Topic {
    /// of Stop Monitoring
    Stop(StopTopic),
    /// of Estimated Timetable
    Timetable(TimetableTopic),
    /// of Vehicle Monitoring
    Vehicle(VehicleTopic),
    /// of Situation Exchange
    Situation(SituationTopic),
}

impl Drop for Topic {
    fn drop(self) {
        match self {
            Topic::Stop(_) => {}
            Topic::Timetable(_) => {}
            Topic::Vehicle(_) => {}
            Topic::Situation(_) => {}
        }
    }
}

impl Topic {
    /// The functional service that is asked for it.
    pub fn service(&self) -> Service
        ensures { result ≡ service_asked self.now }
    {
        match self {
            Topic::Stop(_) => Service::Stop,
            Topic::Timetable(_) => Service::Timetable,
            Topic::Vehicle(_) => Service::Vehicle,
            Topic::Situation(_) => Service::Situation,
        }
    }
}

/// The visits at a monitoring point (EN 15531-3, StopMonitoringRequest).
pub struct StopTopic {
    pub monitoring_ref: Name,
    pub line_ref: Option<Name>,
    pub direction_ref: Option<Name>,
    pub operator_ref: Option<Name>,
    pub destination_ref: Option<Name>,
    /// How far the window reaches; it has no far edge where this is absent.
    pub preview_interval: Option<Span>,
    /// The window begins no earlier than here.
    pub start_time: Option<Moment>,
    /// The most visits that the answer of a request has. It plays no part in what is shown.
    pub maximum_stop_visits: Option<u64>,
}

impl Drop for StopTopic {
    fn drop(self) {
        let StopTopic {
            monitoring_ref: _,
            line_ref: _,
            direction_ref: _,
            operator_ref: _,
            destination_ref: _,
            preview_interval: _,
            start_time: _,
            maximum_stop_visits: _,
        } = self;
    }
}

/// The journeys of an operator, on some lines (EN 15531-3, EstimatedTimetableRequest).
pub struct TimetableTopic {
    /// How far the window reaches; it has no far edge where this is absent.
    pub preview_interval: Option<Span>,
    pub operator_ref: Option<Name>,
    /// The lines that are asked for; all of them where there is none.
    pub lines: List<LineDirection>,
}

impl Drop for TimetableTopic {
    fn drop(self) {
        let TimetableTopic {
            preview_interval: _,
            operator_ref: _,
            lines: _,
        } = self;
    }
}

/// A line, and a direction of it where one is given (EN 15531-3, LineDirection).
pub struct LineDirection {
    pub line_ref: Name,
    pub direction_ref: Option<Name>,
}

impl Drop for LineDirection {
    fn drop(self) {
        let LineDirection {
            line_ref: _,
            direction_ref: _,
        } = self;
    }
}

/// The vehicles of a line and a direction (EN 15531-3, VehicleMonitoringRequest).
pub struct VehicleTopic {
    pub vehicle_ref: Option<Name>,
    pub line_ref: Option<Name>,
    pub direction_ref: Option<Name>,
}

impl Drop for VehicleTopic {
    fn drop(self) {
        let VehicleTopic {
            vehicle_ref: _,
            line_ref: _,
            direction_ref: _,
        } = self;
    }
}

/// The situations that affect a line, a stop and an operator (CEN/TS 15531-5, SituationExchangeRequest).
pub struct SituationTopic {
    pub line_ref: Option<Name>,
    pub stop_point_ref: Option<Name>,
    pub operator_ref: Option<Name>,
    /// How far the window reaches; it has no far edge where this is absent.
    pub preview_interval: Option<Span>,
    /// The window begins no earlier than here.
    pub start_time: Option<Moment>,
}

impl Drop for SituationTopic {
    fn drop(self) {
        let SituationTopic {
            line_ref: _,
            stop_point_ref: _,
            operator_ref: _,
            preview_interval: _,
            start_time: _,
        } = self;
    }
}

impl Copies for Topic {
    fn copy(&self) -> Result<Self, OutOfMemory> {
        match self {
            Topic::Stop(topic) => Ok(Topic::Stop(topic.copy()?)),
            Topic::Timetable(topic) => Ok(Topic::Timetable(topic.copy()?)),
            Topic::Vehicle(topic) => Ok(Topic::Vehicle(topic.copy()?)),
            Topic::Situation(topic) => Ok(Topic::Situation(topic.copy()?)),
        }
    }
}

impl Copies for StopTopic {
    fn copy(&self) -> Result<Self, OutOfMemory> {
        Ok(StopTopic {
            monitoring_ref: self.monitoring_ref.copy()?,
            line_ref: self.line_ref.copy()?,
            direction_ref: self.direction_ref.copy()?,
            operator_ref: self.operator_ref.copy()?,
            destination_ref: self.destination_ref.copy()?,
            preview_interval: self.preview_interval,
            start_time: self.start_time,
            maximum_stop_visits: self.maximum_stop_visits,
        })
    }
}

impl Copies for TimetableTopic {
    fn copy(&self) -> Result<Self, OutOfMemory> {
        Ok(TimetableTopic {
            preview_interval: self.preview_interval,
            operator_ref: self.operator_ref.copy()?,
            lines: self.lines.copy()?,
        })
    }
}

impl Copies for LineDirection {
    fn copy(&self) -> Result<Self, OutOfMemory> {
        Ok(LineDirection {
            line_ref: self.line_ref.copy()?,
            direction_ref: self.direction_ref.copy()?,
        })
    }
}

impl Copies for VehicleTopic {
    fn copy(&self) -> Result<Self, OutOfMemory> {
        Ok(VehicleTopic {
            vehicle_ref: self.vehicle_ref.copy()?,
            line_ref: self.line_ref.copy()?,
            direction_ref: self.direction_ref.copy()?,
        })
    }
}

impl Copies for SituationTopic {
    fn copy(&self) -> Result<Self, OutOfMemory> {
        Ok(SituationTopic {
            line_ref: self.line_ref.copy()?,
            stop_point_ref: self.stop_point_ref.copy()?,
            operator_ref: self.operator_ref.copy()?,
            preview_interval: self.preview_interval,
            start_time: self.start_time,
        })
    }
}
