//! The paths of queries, one a service. They are this profile's own.

ghost use Rattle.std.specs.Prelude.{◌≡◌};
ghost use Rattle.siri_queries.specs.Paths.{service_at, path_of};

use siri_records::Service;

pub const STOP_MONITORING: &str = "/siri-lite/stop-monitoring.json";

pub const ESTIMATED_TIMETABLE: &str = "/siri-lite/estimated-timetable.json";

pub const VEHICLE_MONITORING: &str = "/siri-lite/vehicle-monitoring.json";

pub const SITUATION_EXCHANGE: &str = "/siri-lite/situation-exchange.json";

/// The service that a path is of; `None` exactly where the path is none of the four.
pub(crate) fn service_at(path: &[u8]) -> Option<Service>
    ensures { result ≡ service_at path.now }
{
    if path == STOP_MONITORING.as_bytes() {
        Some(Service::Stop)
    } else if path == ESTIMATED_TIMETABLE.as_bytes() {
        Some(Service::Timetable)
    } else if path == VEHICLE_MONITORING.as_bytes() {
        Some(Service::Vehicle)
    } else if path == SITUATION_EXCHANGE.as_bytes() {
        Some(Service::Situation)
    } else {
        None
    }
}

/// The path of a service's queries.
pub(crate) fn path_of(service: Service) -> &'static str
    ensures { result.now ≡ path_of service }
{
    match service {
        Service::Stop => STOP_MONITORING,
        Service::Timetable => ESTIMATED_TIMETABLE,
        Service::Vehicle => VEHICLE_MONITORING,
        Service::Situation => SITUATION_EXCHANGE,
    }
}
