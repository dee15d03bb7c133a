//! Forms of the outside that no row of `siri_rows` is run over: a source that gives a byte at a time, and forms in
//! memory that can't name a failure.

ghost use Rattle.std.specs.Prelude.{Some, []};

use siri_base::{Moment, Name, Status};
use siri_http::PostAlone;
use siri_outside::{Failed, InMemoryClock, InMemoryKeeper, InMemorySink, InMemoryWire, Source};
use siri_replay::replay;
use siri_runs::serve;
use std::alloc::Global;
use std::test::Fail;

/// A source that gives one byte at a time.
#[derive(Drop)]
struct ByteSource<'a> {
    bytes: &'a [u8],
}

impl<'a> Source for ByteSource<'a> {
    ghost left = { λ s. Some s.bytes.now };

    ghost fails = { λ s. Some [] };

    ghost faults = { λ s. 0 };

    fn read(&mut self, into: &mut [u8]) -> Result<usize, Failed> {
        let count = into.len().min(self.bytes.len()).min(1);
        let (now, later) = self.bytes.split_at(count);
        into[..count].copy_from_slice(now);
        self.bytes = later;
        Ok(count)
    }
}

/// A script of two visits and a request for those of the next half hour, and its report.
const SCRIPT: &str = concat!(
    "start 2024-05-01T08:00:00Z\n",
    r#"feed {"Siri":{"ServiceDelivery":{"StopMonitoringDelivery":[{"MonitoredStopVisit":["#,
    r#"{"ItemIdentifier":"a","MonitoredVehicleJourney":{"LineRef":"L1","#,
    r#""MonitoredCall":{"ExpectedDepartureTime":"2024-05-01T08:00:00Z"}},"MonitoringRef":"S1"},"#,
    r#"{"ItemIdentifier":"b","MonitoredVehicleJourney":{"LineRef":"L1","#,
    r#""MonitoredCall":{"ExpectedDepartureTime":"2024-05-01T08:30:00Z"}},"MonitoringRef":"S1"}"#,
    r#"]}]}}}"#,
    "\n",
    r#"ask {"Siri":{"ServiceRequest":{"StopMonitoringRequest":[{"MonitoringRef":"S1","#,
    r#""PreviewInterval":"PT30M"}]}}}"#,
    "\n",
);

const REPORT: &str = concat!(
    "started 1\nfed 2 0 0\n",
    r#"answer {"Siri":{"ServiceDelivery":{"ProducerRef":"producer","#,
    r#""ResponseTimestamp":"2024-05-01T08:00:00Z","Status":true,"StopMonitoringDelivery":[{"#,
    r#""MonitoredStopVisit":[{"ItemIdentifier":"a","MonitoredVehicleJourney":{"LineRef":"L1","#,
    r#""MonitoredCall":{"ExpectedDepartureTime":"2024-05-01T08:00:00Z"}},"MonitoringRef":"S1"}],"#,
    r#""ResponseTimestamp":"2024-05-01T08:00:00Z","Status":true}]}}}"#,
    "\n",
);

#[test]
fn pieces_of_one_byte_bring_the_report(rt: HostRuntime) {
    let mut source = ByteSource {
        bytes: SCRIPT.as_bytes(),
    };
    let mut sink = InMemorySink::new(rt.alloc());
    let status = replay(rt.alloc(), &mut source, &mut sink);
    assert_eq!(rt; status.number(), 0);
    assert!(rt; sink.bytes() == REPORT.as_bytes());
}

/// A subscription of `c` to the visits of `S1`, to be delivered at 127.0.0.1:7002, and a feed of one visit.
const SUBSCRIBE: &str = concat!(
    "POST / HTTP/1.1\r\nContent-Length: 282\r\n\r\n",
    r#"{"Siri":{"SubscriptionRequest":{"ConsumerAddress":"http://127.0.0.1:7002/","#,
    r#""MessageIdentifier":"1","RequestorRef":"c","#,
    r#""StopMonitoringSubscriptionRequest":{"InitialTerminationTime":"2024-05-01T20:00:00Z","#,
    r#""StopMonitoringRequest":{"MonitoringRef":"S1"},"SubscriptionIdentifier":"S"}}}}"#
);

const FEED: &str = concat!(
    "POST / HTTP/1.1\r\nContent-Length: 264\r\n\r\n",
    r#"{"Siri":{"ServiceDelivery":{"ResponseMessageIdentifier":"f","StopMonitoringDelivery":{"#,
    r#""MonitoredStopVisit":[{"ItemIdentifier":"a","MonitoredVehicleJourney":{"LineRef":"L1","#,
    r#""MonitoredCall":{"ExpectedDepartureTime":"2024-05-01T08:10:00Z"}},"MonitoringRef":"S1"}]}}}}"#
);

/// The acknowledgement of the first round, and the second round, of that visit.
const RECEIVED: &str = concat!(
    "HTTP/1.1 200 OK\r\nContent-Length: 151\r\n\r\n",
    r#"{"Siri":{"DataReceivedAcknowledgement":{"ConsumerRef":"c","#,
    r#""Extensions":{"Number":1,"Part":1,"Round":1,"Start":1,"SubscriptionRef":"S"},"#,
    r#""Status":true}}}"#
);

const SECOND: &str = concat!(
    "POST / HTTP/1.1\r\nHost: 127.0.0.1:7002\r\nContent-Type: application/json\r\n",
    "Content-Length: 476\r\nConnection: close\r\n\r\n",
    r#"{"Siri":{"ServiceDelivery":{"ProducerRef":"p","RequestMessageRef":"1","#,
    r#""ResponseTimestamp":"2024-05-01T08:00:00Z","Status":true,"#,
    r#""StopMonitoringDelivery":[{"Extensions":{"Part":1,"Round":2,"Start":1},"#,
    r#""MonitoredStopVisit":[{"ItemIdentifier":"a","MonitoredVehicleJourney":{"LineRef":"L1","#,
    r#""MonitoredCall":{"ExpectedDepartureTime":"2024-05-01T08:10:00Z"}},"MonitoringRef":"S1"}],"#,
    r#""ResponseTimestamp":"2024-05-01T08:00:00Z","Status":true,"SubscriberRef":"c","#,
    r#""SubscriptionRef":"S"}]}}}"#
);

/// 1 May 2024 at 08:00 in UTC, in milliseconds since 1970.
const EIGHT: i64 = 1_714_550_400_000;

/// The moments of a producer for two connections.
fn moments_of_two(alloc: Global) -> Option<Vec<Moment>> {
    let mut moments = Vec::new(alloc);
    for _ in 0..3 {
        moments.push(Moment::new(EIGHT)?).ok()?;
    }
    Some(moments)
}

/// How a producer for two connections ends over a wire and a sink.
fn serve_two(
    alloc: Global,
    wire: &mut InMemoryWire<'_>,
    sink: &mut InMemorySink,
) -> Option<Status> {
    let moments = moments_of_two(alloc)?;
    let listen = Name::new(alloc, "127.0.0.1:7001").ok()?;
    Some(serve::<PostAlone, InMemorySink, InMemoryWire<'_>, InMemoryClock<'_>, InMemoryKeeper>(
        alloc,
        Name::new(alloc, "p").ok()?,
        &listen,
        2,
        sink,
        wire,
        &mut InMemoryClock::new(&moments),
        &mut InMemoryKeeper::new(0),
    ))
}

#[test]
fn plain_forms_send_the_second_round(rt: HostRuntime) -> Result<(), Fail> {
    let to_accept = [SUBSCRIBE.as_bytes(), FEED.as_bytes()];
    let taken: &str = "HTTP/1.1 200 OK\r\nContent-Length: 0\r\n\r\n";
    let to_dial = [RECEIVED.as_bytes(), taken.as_bytes()];
    let mut wire = InMemoryWire::new(rt.alloc(), &to_accept, &to_dial);
    let mut sink = InMemorySink::new(rt.alloc());
    let status = serve_two(rt.alloc(), &mut wire, &mut sink).ok_or("a status")?;
    assert_eq!(rt; status.number(), 0);
    assert_eq!(rt; wire.addresses().len(), 3);
    assert!(rt; wire.written(3) == Some(SECOND.as_bytes()));
    Ok(())
}
