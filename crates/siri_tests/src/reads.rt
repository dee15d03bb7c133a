//! How many stored items a settle reads, by the producer's own counter.

use siri_base::{Moment, Name};
use siri_producer::Producer;
use siri_wire::decode;
use std::alloc::Global;
use std::rc::Rc;
use std::test::Fail;

/// 1 May 2024 at 08:00 in UTC, in milliseconds since 1970.
const EIGHT: i64 = 1_714_550_400_000;

/// The departures of a stop in the next hour, to a minute.
const SUBSCRIBE: &str = concat!(
    r#"{"Siri":{"SubscriptionRequest":{"MessageIdentifier":"1","#,
    r#""RequestTimestamp":"2024-05-01T08:00:00Z","RequestorRef":"c1","#,
    r#""StopMonitoringSubscriptionRequest":[{"ChangeBeforeUpdates":"PT1M","#,
    r#""IncrementalUpdates":true,"InitialTerminationTime":"2024-05-01T20:00:00Z","#,
    r#""StopMonitoringRequest":{"MonitoringRef":"S1","PreviewInterval":"PT1H"},"#,
    r#""SubscriberRef":"c1","SubscriptionIdentifier":"S"}]}}}"#
);

/// The next two departures of a stop, however late.
const SUBSCRIBE_TO_TWO: &str = concat!(
    r#"{"Siri":{"SubscriptionRequest":{"MessageIdentifier":"1","#,
    r#""RequestTimestamp":"2024-05-01T08:00:00Z","RequestorRef":"c1","#,
    r#""StopMonitoringSubscriptionRequest":[{"IncrementalUpdates":true,"#,
    r#""InitialTerminationTime":"2024-05-01T20:00:00Z","#,
    r#""StopMonitoringRequest":{"MaximumStopVisits":2,"MonitoringRef":"S1"},"#,
    r#""SubscriberRef":"c1","SubscriptionIdentifier":"S"}]}}}"#
);

/// Whatever a producer answers is let go.
fn take_document(alloc: Global, producer: &mut Producer, document: &str) -> Result<(), Fail> {
    let message = Rc::new(alloc, decode(alloc, document.as_bytes())?)?;
    let answer = Rc::new(alloc, producer.take(&message)?)?;
    drop(answer);
    Ok(())
}

/// How far the counter rises by a settle, whose messages are let go.
fn reads_of_a_settle(alloc: Global, producer: &mut Producer) -> Result<u64, Fail> {
    let before = producer.reads();
    let outs = Rc::new(alloc, producer.settle()?)?;
    drop(outs);
    Ok(producer.reads().saturating_sub(before))
}

/// A visit, before its number, between that and its minute, and after its second.
const NAMED: &str = r#"{"ItemIdentifier":""#;

const AT: &str =
    r#"","MonitoredVehicleJourney":{"MonitoredCall":{"AimedDepartureTime":"2024-05-01T08:"#;

const STOP: &str = r#"Z"}},"MonitoringRef":"S1"}"#;

/// A feed of the visits of one stop from one number on and before another: from 08:30 on, a second apart, fifty to a
/// minute.
fn feed_of_visits(alloc: Global, first: u32, end: u32) -> Result<String, Fail> {
    let mut text = String::new(alloc);
    text.push_str(
        r#"{"Siri":{"ServiceDelivery":{"StopMonitoringDelivery":[{"MonitoredStopVisit":["#,
    )?;
    for number in first..end {
        if number > first {
            text.push_str(",")?;
        }
        let minute = 30 + number / 50;
        let second = number % 50;
        let visit = format!(in alloc;
            "{NAMED}{number}{AT}{minute}:{}{}{STOP}",
            second / 10,
            second % 10
        )?;
        text.push_str(visit.as_str())?;
    }
    text.push_str("]}]}}}")?;
    Ok(text)
}

/// An acknowledgement of a part of the first round, before and after the part.
const RECEIVED: &str = concat!(
    r#"{"Siri":{"DataReceivedAcknowledgement":{"ConsumerRef":"c1","#,
    r#""Extensions":{"Number":1,"Part":"#
);

const OF_THE_FIRST: &str = r#","Round":1,"Start":1,"SubscriptionRef":"S"},"Status":true}}}"#;

/// The acknowledgement of this part.
fn acknowledgement(alloc: Global, part: u32) -> Result<String, Fail> {
    Ok(format!(in alloc; "{RECEIVED}{part}{OF_THE_FIRST}")?)
}

#[test]
fn a_settle_reads_what_changed(rt: HostRuntime) -> Result<(), Fail> {
    let alloc = rt.alloc();
    let eight = Moment::new(EIGHT).ok_or("no moment")?;
    let later = Moment::new(EIGHT + 60_000).ok_or("no moment")?;
    let mut producer = Producer::new(alloc, Name::new(alloc, "p")?, 1, eight)?;
    take_document(
        alloc,
        &mut producer,
        feed_of_visits(alloc, 0, 1000)?.as_str(),
    )?;
    take_document(alloc, &mut producer, SUBSCRIBE)?;
    let first = reads_of_a_settle(alloc, &mut producer)?;
    assert_eq!(rt; first, 1000);
    for part in 1..=10 {
        take_document(alloc, &mut producer, acknowledgement(alloc, part)?.as_str())?;
        let outstanding = reads_of_a_settle(alloc, &mut producer)?;
        assert_eq!(rt; outstanding, 0);
    }
    let name = Name::new(alloc, "c1")?;
    let identifier = Name::new(alloc, "S")?;
    assert_eq!(rt; producer.quiet(&name, &identifier), Some(1));
    let quiet = reads_of_a_settle(alloc, &mut producer)?;
    assert_eq!(rt; quiet, 0);
    take_document(alloc, &mut producer, feed_of_visits(alloc, 0, 1)?.as_str())?;
    let fed = reads_of_a_settle(alloc, &mut producer)?;
    assert!(rt; fed <= 1);
    producer.clock(later);
    let clocked = reads_of_a_settle(alloc, &mut producer)?;
    assert_eq!(rt; clocked, 0);
    Ok(())
}

#[test]
fn a_settle_reads_up_to_the_last_departure_shown(rt: HostRuntime) -> Result<(), Fail> {
    let alloc = rt.alloc();
    let eight = Moment::new(EIGHT).ok_or("no moment")?;
    let left = Moment::new(EIGHT + 30 * 60_000 + 1).ok_or("no moment")?;
    let mut producer = Producer::new(alloc, Name::new(alloc, "p")?, 1, eight)?;
    take_document(
        alloc,
        &mut producer,
        feed_of_visits(alloc, 0, 1000)?.as_str(),
    )?;
    take_document(alloc, &mut producer, SUBSCRIBE_TO_TWO)?;
    let first = reads_of_a_settle(alloc, &mut producer)?;
    assert!(rt; first <= 1000);
    take_document(alloc, &mut producer, acknowledgement(alloc, 1)?.as_str())?;
    let quiet = reads_of_a_settle(alloc, &mut producer)?;
    assert_eq!(rt; quiet, 0);
    let name = Name::new(alloc, "c1")?;
    let identifier = Name::new(alloc, "S")?;
    assert_eq!(rt; producer.quiet(&name, &identifier), Some(1));
    take_document(
        alloc,
        &mut producer,
        feed_of_visits(alloc, 999, 1000)?.as_str(),
    )?;
    let fed = reads_of_a_settle(alloc, &mut producer)?;
    assert!(rt; fed <= 3);
    assert_eq!(rt; producer.quiet(&name, &identifier), Some(1));
    producer.clock(left);
    let clocked = reads_of_a_settle(alloc, &mut producer)?;
    assert!(rt; clocked <= 3);
    assert_eq!(rt; producer.quiet(&name, &identifier), None);
    Ok(())
}
