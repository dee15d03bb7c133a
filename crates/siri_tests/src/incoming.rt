//! Deliveries as their tokens come. What is read of them so is proved, and not that anything is.

use json::Reader;
use siri_base::List;
use siri_deliveries::{Incoming, NotRead, ServiceDeliveryTable};
use siri_json::Scratch;
use siri_messages::{FunctionalDelivery, ServiceDelivery};
use std::alloc::{AllocError, Global};
use std::test::Fail;

/// A row: a ServiceDelivery, and of each service how many items were read, or why nothing was read as it came.
static DELIVERIES: [(&str, &str); 12] = [
    ("{}", "0 0 0 0"),
    (
        concat!(
            r#"{"ProducerRef":"AGENCY","StopMonitoringDelivery":["#,
            r#"{"MonitoredStopVisit":[{"ItemIdentifier":"a","MonitoringRef":"S1","#,
            r#""MonitoredVehicleJourney":{"MonitoredCall":{"#,
            r#""ExpectedDepartureTime":"2024-05-01T10:05:00Z"}}},"#,
            r#"{"ItemIdentifier":"b","MonitoringRef":"S1","#,
            r#""MonitoredVehicleJourney":{"MonitoredCall":{"#,
            r#""ExpectedDepartureTime":"2024-05-01T10:06:00Z"}}}],"Status":true},{}]}"#
        ),
        "2 0 0 0",
    ),
    (
        concat!(
            r#"{"EstimatedTimetableDelivery":[{"EstimatedJourneyVersionFrame":["#,
            r#"{"RecordedAtTime":"2024-05-01T07:58:00Z","EstimatedVehicleJourney":[{"LineRef":"L1","#,
            r#""DirectionRef":"out","DatedVehicleJourneyRef":"J1","#,
            r#""EstimatedCalls":{"EstimatedCall":[{"StopPointRef":"S1","Order":2,"#,
            r#""AimedArrivalTime":"2024-05-01T08:04:00Z"}]}}]}]}]}"#
        ),
        "0 1 0 0",
    ),
    (
        concat!(
            r#"{"VehicleMonitoringDelivery":[{"VehicleActivity":["#,
            r#"{"MonitoredVehicleJourney":{"VehicleRef":"7","#,
            r#""VehicleLocation":{"Longitude":2.35,"Latitude":48.85}}}]}]}"#
        ),
        "0 0 1 0",
    ),
    (
        concat!(
            r#"{"SituationExchangeDelivery":[{"Situations":{"#,
            r#""PtSituationElement":[{"CreationTime":"2023-11-02T12:00:00Z","#,
            r#""ParticipantRef":"AGENCY","SituationNumber":"12","#,
            r#""ValidityPeriod":[{"StartTime":"2023-11-03T00:00:00Z"}],"Summary":"Works"}]}}]}"#
        ),
        "0 0 0 1",
    ),
    (
        concat!(
            r#"{"VehicleMonitoringDelivery":[{"VehicleActivity":["#,
            r#"{"MonitoredVehicleJourney":{"VehicleRef":"7"}}]}],"VehicleMonitoringDelivery":[]}"#
        ),
        "0 0 0 0",
    ),
    (r#"[]"#, "Otherwise"),
    (r#"{"VehicleMonitoringDelivery":[null]}"#, "Otherwise"),
    (
        r#"{"VehicleMonitoringDelivery":[{"VehicleActivity":[null]}]}"#,
        "Otherwise",
    ),
    (r#"{"VehicleMonitoringDelivery":{}}"#, "Otherwise"),
    (r#"{"Status":"perhaps"}"#, "Otherwise"),
    (r#"{"Status":true"#, "Otherwise"),
];

/// How many items these deliveries have.
fn count_items(deliveries: &List<FunctionalDelivery>) -> usize {
    deliveries.slice().iter().fold(0usize, |count, delivery| {
        count.saturating_add(delivery.items.len())
    })
}

/// The ServiceDelivery that a text is, as its tokens come.
fn read_as_it_comes(alloc: Global, text: &str) -> Result<ServiceDelivery, NotRead> {
    let mut scratch = Scratch::new(alloc);
    let mut reader = Reader::new(text, &mut scratch)?;
    ServiceDeliveryTable::read_next(alloc, &mut reader, 125)
}

/// Of each service how many items come in a text, or why nothing was read.
fn told_of(alloc: Global, text: &str) -> Result<String, AllocError> {
    let delivery = match read_as_it_comes(alloc, text) {
        Ok(delivery) => delivery,
        Err(NotRead::Otherwise) => return String::from_str(alloc, "Otherwise"),
        Err(NotRead::OutOfMemory) => return String::from_str(alloc, "OutOfMemory"),
    };
    let stops = count_items(&delivery.stop_monitoring_delivery);
    let timetables = count_items(&delivery.estimated_timetable_delivery);
    let vehicles = count_items(&delivery.vehicle_monitoring_delivery);
    let situations = count_items(&delivery.situation_exchange_delivery);
    format!(in alloc; "{stops} {timetables} {vehicles} {situations}")
}

#[test]
fn deliveries_come(rt: HostRuntime) -> Result<(), Fail> {
    for (text, want) in &DELIVERIES {
        let told = told_of(rt.alloc(), text)?;
        assert!(rt; told.as_str() == *want, "{text}");
    }
    Ok(())
}
