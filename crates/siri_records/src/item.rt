//! Items of the four services.

ghost use Rattle.std.specs.Prelude.{◌≡◌};
ghost use Rattle.siri_records.specs.Services.{service_of};

use crate::{Journey, Situation, Vehicle, Visit};
use siri_base::{Copies, OutOfMemory};

/// What the four services tell of.
pub enum Item {
    /// A visit, of Stop Monitoring.
    Visit(Visit),
    /// A journey, of Estimated Timetable.
    Journey(Journey),
    /// A vehicle, of Vehicle Monitoring.
    Vehicle(Vehicle),
    /// A situation, of Situation Exchange.
    Situation(Situation),
}

impl Drop for Item {
    fn drop(self) {
        match self {
            Item::Visit(_) => {}
            Item::Journey(_) => {}
            Item::Vehicle(_) => {}
            Item::Situation(_) => {}
        }
    }
}

/// The functional services (EN 15531-3, CEN/TS 15531-5), in the order of their items.
#[derive(Clone, Copy, Debug, PartialEq, Eq)]
pub enum Service {
    Stop,
    Timetable,
    Vehicle,
    Situation,
}

impl Item {
    /// The functional service that it is of.
    pub fn service(&self) -> Service
        ensures { result ≡ service_of self.now }
    {
        match self {
            Item::Visit(_) => Service::Stop,
            Item::Journey(_) => Service::Timetable,
            Item::Vehicle(_) => Service::Vehicle,
            Item::Situation(_) => Service::Situation,
        }
    }
}

impl Copies for Item {
    fn copy(&self) -> Result<Self, OutOfMemory> {
        match self {
            Item::Visit(visit) => Ok(Item::Visit(visit.copy()?)),
            Item::Journey(journey) => Ok(Item::Journey(journey.copy()?)),
            Item::Vehicle(vehicle) => Ok(Item::Vehicle(vehicle.copy()?)),
            Item::Situation(situation) => Ok(Item::Situation(situation.copy()?)),
        }
    }
}
