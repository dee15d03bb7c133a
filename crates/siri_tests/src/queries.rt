//! Targets of queries with the documents that they stand for, and requests with their targets.

use siri_base::{List, Moment, Name, Span, Text};
use siri_messages::ServiceRequest;
use siri_queries::{QueryError, document_of, write_query};
use siri_topic::{LineDirection, StopTopic, TimetableTopic, Topic};
use std::alloc::Global;
use std::test::Fail;

/// Targets, and the documents that they stand for.
static DOCUMENTS: [(&str, &str); 9] = [
    (
        "/siri-lite/stop-monitoring.json?MonitoringRef=S1&PreviewInterval=PT30M&MonitoringRef=S2&x=1",
        concat!(
            r#"{"Siri":{"ServiceRequest":{"StopMonitoringRequest":[{"MonitoringRef":"S1","#,
            r#""PreviewInterval":"PT30M"}]}}}"#
        ),
    ),
    (
        "/siri-lite/stop-monitoring.json",
        r#"{"Siri":{"ServiceRequest":{"StopMonitoringRequest":[{}]}}}"#,
    ),
    (
        "/siri-lite/stop-monitoring.json?MonitoringRef=S+1&StartTime=2024-05-01T08%3A00%3A00Z",
        concat!(
            r#"{"Siri":{"ServiceRequest":{"StopMonitoringRequest":[{"MonitoringRef":"S 1","#,
            r#""StartTime":"2024-05-01T08:00:00Z"}]}}}"#
        ),
    ),
    (
        "/siri-lite/estimated-timetable.json?Lines=L9&DirectionRef=out&LineRef=L%2B1&OperatorRef=%41&VehicleRef=7",
        concat!(
            r#"{"Siri":{"ServiceRequest":{"EstimatedTimetableRequest":["#,
            r#"{"Lines":{"LineDirection":[{"DirectionRef":"out","LineRef":"L+1"}]},"#,
            r#""OperatorRef":"A"}]}}}"#
        ),
    ),
    (
        "/siri-lite/estimated-timetable.json?LineRef=",
        concat!(
            r#"{"Siri":{"ServiceRequest":{"EstimatedTimetableRequest":["#,
            r#"{"Lines":{"LineDirection":[{"LineRef":""}]}}]}}}"#
        ),
    ),
    (
        "/siri-lite/estimated-timetable.json?Lines=L9",
        r#"{"Siri":{"ServiceRequest":{"EstimatedTimetableRequest":[{}]}}}"#,
    ),
    (
        "/siri-lite/vehicle-monitoring.json?VehicleRef=%FF&LineRef=%22&DirectionRef=100%",
        concat!(
            r#"{"Siri":{"ServiceRequest":{"VehicleMonitoringRequest":[{"DirectionRef":"100%","#,
            r#""LineRef":"\"","VehicleRef":"�"}]}}}"#
        ),
    ),
    (
        "/siri-lite/vehicle-monitoring.json?Line%52ef=L1&vehicleref=7?&DirectionRef",
        concat!(
            r#"{"Siri":{"ServiceRequest":{"VehicleMonitoringRequest":[{"DirectionRef":"","#,
            r#""LineRef":"L1"}]}}}"#
        ),
    ),
    (
        "/siri-lite/situation-exchange.json?&StopPointRef=S1=2&&Version=1&OperatorRef=%C3%A9?",
        concat!(
            r#"{"Siri":{"ServiceRequest":{"SituationExchangeRequest":[{"OperatorRef":"é?","#,
            r#""StopPointRef":"S1=2"}]}}}"#
        ),
    ),
];

/// Targets with none of the four paths.
static NO_PATHS: [&str; 6] = [
    "/",
    "/siri-lite/x",
    "/siri-lite/",
    "/siri-lite/stop-monitoring.json/?MonitoringRef=S1",
    "/siri-lite/Stop-monitoring.json?MonitoringRef=S1",
    "?/siri-lite/stop-monitoring.json",
];

/// The document of a target, or nothing.
fn document_of_target(alloc: Global, target: &str) -> Option<Vec<u8>> {
    document_of(alloc, &Text::new(alloc, target).ok()?).ok()
}

/// Whether a target is refused for its path.
fn has_no_path(alloc: Global, target: &str) -> Option<bool> {
    match document_of(alloc, &Text::new(alloc, target).ok()?) {
        Ok(_) => Some(false),
        Err(error) => Some(error == QueryError::NoPath),
    }
}

#[test]
fn targets_stand_for_documents(rt: HostRuntime) -> Result<(), Fail> {
    for (target, want) in &DOCUMENTS {
        let text = document_of_target(rt.alloc(), target).ok_or("a document")?;
        assert!(rt; text.as_slice() == want.as_bytes(), "{target}");
    }
    for target in &NO_PATHS {
        assert!(rt; has_no_path(rt.alloc(), target) == Some(true), "{target}");
    }
    Ok(())
}

/// A request for nothing.
fn empty_request(alloc: Global) -> ServiceRequest {
    ServiceRequest {
        request_timestamp: None,
        requestor_ref: None,
        message_identifier: None,
        stop_monitoring_request: List::new(alloc),
        estimated_timetable_request: List::new(alloc),
        vehicle_monitoring_request: List::new(alloc),
        situation_exchange_request: List::new(alloc),
    }
}

/// A topic on the stop `S 1` from a moment on.
fn stop_topic(alloc: Global) -> Option<Topic> {
    Some(Topic::Stop(StopTopic {
        monitoring_ref: Name::new(alloc, "S 1").ok()?,
        line_ref: None,
        direction_ref: None,
        operator_ref: None,
        destination_ref: None,
        preview_interval: None,
        start_time: Some(Moment::new(1_714_550_400_000)?),
        maximum_stop_visits: None,
    }))
}

/// A topic on the journeys of the next 30 minutes, on so many lines.
fn timetable_topic(alloc: Global, count: usize) -> Option<Topic> {
    let mut lines = List::new(alloc);
    for _ in 0..count {
        let line = LineDirection {
            line_ref: Name::new(alloc, "L1").ok()?,
            direction_ref: Some(Name::new(alloc, "\u{E9}&").ok()?),
        };
        lines.push(line).ok()?;
    }
    Some(Topic::Timetable(TimetableTopic {
        preview_interval: Some(Span::new(1_800_000)?),
        operator_ref: None,
        lines,
    }))
}

/// The target of a request for stops and timetables, or the name of what was answered in its place.
fn target_of_request(alloc: Global, stops: usize, lines: &[usize]) -> Option<String> {
    let mut request = empty_request(alloc);
    for _ in 0..stops {
        request
            .stop_monitoring_request
            .push(stop_topic(alloc)?)
            .ok()?;
    }
    for count in lines {
        let topic = timetable_topic(alloc, *count)?;
        request.estimated_timetable_request.push(topic).ok()?;
    }
    match write_query(alloc, &request) {
        Ok(target) => String::from_str(alloc, target.text()).ok(),
        Err(QueryError::NotQuery) => String::from_str(alloc, "NotQuery").ok(),
        Err(_) => None,
    }
}

#[test]
fn requests_have_targets(rt: HostRuntime) -> Result<(), Fail> {
    let rows: [(usize, &[usize], &str); 7] = [
        (
            1,
            &[],
            "/siri-lite/stop-monitoring.json?MonitoringRef=S+1&StartTime=2024-05-01T08%3A00%3A00Z",
        ),
        (
            0,
            &[0],
            "/siri-lite/estimated-timetable.json?PreviewInterval=PT30M",
        ),
        (
            0,
            &[1],
            "/siri-lite/estimated-timetable.json?PreviewInterval=PT30M&LineRef=L1&DirectionRef=%C3%A9%26",
        ),
        (0, &[2], "NotQuery"),
        (0, &[], "NotQuery"),
        (2, &[], "NotQuery"),
        (1, &[0], "NotQuery"),
    ];
    for (stops, lines, want) in &rows {
        let text = target_of_request(rt.alloc(), *stops, lines).ok_or("an answer")?;
        assert!(rt; text.as_str() == *want, "{want}");
    }
    Ok(())
}
