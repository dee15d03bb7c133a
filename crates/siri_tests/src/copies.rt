//! Copies of messages. A copy is proved to be equal, and not that it is made where there is memory.

use siri_base::Copies;
use siri_wire::{decode, encode};
use std::alloc::Global;
use std::rc::Rc;
use std::test::Fail;

/// Each kind of message, and a document of it in its canonical text.
static KINDS: [(&str, &str); 14] = [
    (
        "ServiceRequest",
        concat!(
            r#"{"Siri":{"ServiceRequest":{"EstimatedTimetableRequest":["#,
            r#"{"Lines":{"LineDirection":[{"DirectionRef":"out","LineRef":"L1"},{"LineRef":"L2"}]},"#,
            r#""OperatorRef":"O","PreviewInterval":"PT1H"}],"MessageIdentifier":"007","#,
            r#""RequestTimestamp":"2024-05-01T08:00:00Z","RequestorRef":"c1","#,
            r#""SituationExchangeRequest":[{"LineRef":"L1","OperatorRef":"O","PreviewInterval":"P1D","#,
            r#""StartTime":"2024-05-01T08:00:00Z","StopPointRef":"S1"}],"#,
            r#""StopMonitoringRequest":[{"DestinationRef":"D","DirectionRef":"out","LineRef":"L1","#,
            r#""MaximumStopVisits":2,"MonitoringRef":"S1","OperatorRef":"O","PreviewInterval":"PT1H","#,
            r#""StartTime":"2024-05-01T08:00:00Z"}],"VehicleMonitoringRequest":["#,
            r#"{"DirectionRef":"out","LineRef":"L1","VehicleRef":"7"}]}}}"#,
            "\n"
        ),
    ),
    (
        "ServiceDelivery",
        concat!(
            r#"{"Siri":{"ServiceDelivery":{"MoreData":true,"ProducerRef":"producer","#,
            r#""RequestMessageRef":"3","ResponseTimestamp":"2024-05-01T08:00:00Z","Status":true,"#,
            r#""StopMonitoringDelivery":[{"Extensions":{"Part":1,"Round":2,"Start":1},"#,
            r#""MonitoredStopVisit":["#,
            r#"{"ItemIdentifier":"a","MonitoredVehicleJourney":{"LineRef":"L1","#,
            r#""MonitoredCall":{"ExpectedDepartureTime":"2024-05-01T08:10:00Z"}},"MonitoringRef":"S1"}"#,
            "]",
            r#","MonitoredStopVisitCancellation":[{"ItemRef":"b","MonitoringRef":"S1"}],"#,
            r#""ResponseTimestamp":"2024-05-01T08:00:00Z","Status":true,"SubscriberRef":"c1","#,
            r#""SubscriptionRef":"S"}]}}}"#,
            "\n"
        ),
    ),
    (
        "SubscriptionRequest",
        concat!(
            r#"{"Siri":{"SubscriptionRequest":{"ConsumerAddress":"http://c1/","#,
            r#""MessageIdentifier":"3","RequestTimestamp":"2024-05-01T08:00:00Z","RequestorRef":"c1","#,
            r#""SituationExchangeSubscriptionRequest":[{"IncrementalUpdates":true,"#,
            r#""InitialTerminationTime":"2024-05-01T20:00:00Z","SituationExchangeRequest":{},"#,
            r#""SubscriberRef":"c1","SubscriptionIdentifier":"X"}],"#,
            r#""StopMonitoringSubscriptionRequest":[{"ChangeBeforeUpdates":"PT1M","#,
            r#""Extensions":{"DeliveryMethod":"fetched"},"IncrementalUpdates":true,"#,
            r#""InitialTerminationTime":"2024-05-01T20:00:00Z","#,
            r#""StopMonitoringRequest":{"MonitoringRef":"S1","PreviewInterval":"PT1H"},"#,
            r#""SubscriberRef":"c1","SubscriptionIdentifier":"S"}],"#,
            r#""SubscriptionContext":{"HeartbeatInterval":"PT0S"}}}}"#,
            "\n"
        ),
    ),
    (
        "SubscriptionResponse",
        concat!(
            r#"{"Siri":{"SubscriptionResponse":{"RequestMessageRef":"3","#,
            r#""ResponseStatus":[{"Status":true,"SubscriberRef":"c1","SubscriptionRef":"S","#,
            r#""ValidUntil":"2024-05-01T20:00:00Z"},{"ErrorCondition":{"#,
            r#""OtherError":{"ErrorText":"TableFull"}},"Status":false,"SubscriberRef":"c1","#,
            r#""SubscriptionRef":"X"}],"ResponseTimestamp":"2024-05-01T08:00:00Z"}}}"#,
            "\n"
        ),
    ),
    (
        "TerminateSubscriptionRequest",
        concat!(
            r#"{"Siri":{"TerminateSubscriptionRequest":{"MessageIdentifier":"4","#,
            r#""RequestTimestamp":"2024-05-01T08:00:00Z","RequestorRef":"c1","SubscriberRef":"c1","#,
            r#""SubscriptionRef":["S","X"]}}}"#,
            "\n"
        ),
    ),
    (
        "TerminateSubscriptionResponse",
        concat!(
            r#"{"Siri":{"TerminateSubscriptionResponse":{"RequestMessageRef":"4","#,
            r#""ResponseTimestamp":"2024-05-01T08:00:00Z","#,
            r#""TerminationResponseStatus":[{"Status":true,"SubscriberRef":"c1","#,
            r#""SubscriptionRef":"S"},{"ErrorCondition":{"OtherError":{"#,
            r#""ErrorText":"UnknownSubscription"}},"Status":false,"SubscriberRef":"c1","#,
            r#""SubscriptionRef":"X"}]}}}"#,
            "\n"
        ),
    ),
    (
        "DataReadyNotification",
        concat!(
            r#"{"Siri":{"DataReadyNotification":{"Extensions":{"Number":3,"Part":1,"Round":2,"#,
            r#""Start":1,"SubscriptionRef":"S"},"ProducerRef":"producer","#,
            r#""RequestTimestamp":"2024-05-01T08:00:00Z"}}}"#,
            "\n"
        ),
    ),
    (
        "DataReadyAcknowledgement",
        concat!(
            r#"{"Siri":{"DataReadyAcknowledgement":{"ConsumerRef":"c1","#,
            r#""ResponseTimestamp":"2024-05-01T08:00:00Z","Status":true}}}"#,
            "\n"
        ),
    ),
    (
        "DataSupplyRequest",
        concat!(
            r#"{"Siri":{"DataSupplyRequest":{"ConsumerRef":"c1","#,
            r#""Extensions":{"Number":3,"Part":1,"Round":2,"Start":1,"SubscriptionRef":"S"},"#,
            r#""RequestTimestamp":"2024-05-01T08:00:00Z"}}}"#,
            "\n"
        ),
    ),
    (
        "DataSupplyRequest",
        concat!(
            r#"{"Siri":{"DataSupplyRequest":{"AllData":true,"ConsumerRef":"c1","#,
            r#""Extensions":{"Number":4,"Part":0,"Round":3,"Start":0,"SubscriptionRef":"S"},"#,
            r#""RequestTimestamp":"2024-05-01T08:00:00Z"}}}"#,
            "\n"
        ),
    ),
    (
        "DataReceivedAcknowledgement",
        concat!(
            r#"{"Siri":{"DataReceivedAcknowledgement":{"ConsumerRef":"c1","#,
            r#""Extensions":{"Number":3,"Part":1,"Round":2,"Start":1,"SubscriptionRef":"S"},"#,
            r#""ResponseTimestamp":"2024-05-01T08:00:00Z","Status":true}}}"#,
            "\n"
        ),
    ),
    (
        "CheckStatusRequest",
        concat!(
            r#"{"Siri":{"CheckStatusRequest":{"MessageIdentifier":"m-1","#,
            r#""RequestTimestamp":"2024-05-01T08:00:00Z","RequestorRef":"c1"}}}"#,
            "\n"
        ),
    ),
    (
        "CheckStatusResponse",
        concat!(
            r#"{"Siri":{"CheckStatusResponse":{"ProducerRef":"producer","RequestMessageRef":"m-1","#,
            r#""ResponseTimestamp":"2024-05-01T08:00:00Z","#,
            r#""ServiceStartedTime":"2024-05-01T08:00:00Z","Status":true}}}"#,
            "\n"
        ),
    ),
    (
        "HeartbeatNotification",
        concat!(
            r#"{"Siri":{"HeartbeatNotification":{"ProducerRef":"producer","#,
            r#""RequestTimestamp":"2024-05-01T08:00:00Z","ServiceStartedTime":"2024-05-01T08:00:00Z","#,
            r#""Status":true}}}"#,
            "\n"
        ),
    ),
];

/// Whether a copy of the message that a canonical text says, a line, is said by the same text. Messages are shared
/// before they are let go, since a message itself is dear to let go.
fn has_equal_copy(alloc: Global, line: &str) -> Result<bool, Fail> {
    let message = Rc::new(alloc, decode(alloc, line.as_bytes())?)?;
    let copy = Rc::new(alloc, message.copy()?)?;
    let mut text = encode(alloc, &copy)?;
    text.push(b'\n')?;
    Ok(text.as_slice() == line.as_bytes())
}

#[test]
fn messages_of_every_kind_are_copied(rt: HostRuntime) -> Result<(), Fail> {
    for (kind, document) in &KINDS {
        assert!(rt; has_equal_copy(rt.alloc(), document)?, "{kind}");
    }
    Ok(())
}
