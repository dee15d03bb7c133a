//! The texts of a producer's rows, written and read back. The expected ones were written out by hand.

use crate::rows::{DEPARTURE, MOMENT, VISIT};
use siri_base::{Moment, Name, Span};
use siri_messages::{Message, SubscriptionRequest};
use siri_records::key_of;
use siri_row_texts::{
    began_of_row, item_of_row, item_text, key_text, moment_row, place_text, renewal_of_row,
    renewal_text, request_of_row, request_text,
};
use siri_topic::Subscription;
use std::test::Fail;

/// A subscription of c1 to S1 under its base, with a heartbeat each minute.
const REQUEST: &str = concat!(
    r#"{"Siri":{"SubscriptionRequest":{"ConsumerAddress":"http://127.0.0.1:7002/","#,
    r#""MessageIdentifier":"1","StopMonitoringSubscriptionRequest":["#,
    r#"{"ChangeBeforeUpdates":"PT0S","IncrementalUpdates":true,"#,
    r#""InitialTerminationTime":"2024-05-01T20:00:00Z","#,
    r#""StopMonitoringRequest":{"MonitoringRef":"S1","PreviewInterval":"PT1H"},"#,
    r#""SubscriberRef":"c1","SubscriptionIdentifier":"S"}],"#,
    r#""SubscriptionContext":{"HeartbeatInterval":"PT1M"}}}}"#
);

/// The request that gave it its number, 3.
const RENEWAL: &str = concat!(
    r#"{"Siri":{"DataSupplyRequest":{"AllData":true,"ConsumerRef":"c1","#,
    r#""Extensions":{"Number":3,"Part":0,"Round":1,"Start":0,"SubscriptionRef":"S"}}}}"#
);

#[test]
fn the_row_of_a_moment_is_written_and_read(rt: HostRuntime) -> Result<(), Fail> {
    let moment = Moment::new(1_714_550_400_000).ok_or("no moment")?;
    let name = Name::new(rt.alloc(), "p")?;
    let text = moment_row(rt.alloc(), moment, 1, &name)?;
    assert!(rt; text.slice() == MOMENT.as_bytes());
    let began = began_of_row(rt.alloc(), MOMENT.as_bytes())?.ok_or("no row")?;
    assert!(rt; began.moment == moment && began.start == 1 && began.name == name);
    Ok(())
}

/// Texts that a row of a moment never has: no name, a start of zero, a zero before a start, a moment in another form.
static NO_MOMENTS: [&str; 4] = [
    "2024-05-01T08:00:00Z 1 ",
    "2024-05-01T08:00:00Z 0 p",
    "2024-05-01T08:00:00Z 01 p",
    "2024-05-01T10:00:00+02:00 1 p",
];

#[test]
fn a_row_of_a_moment_has_one_form(rt: HostRuntime) -> Result<(), Fail> {
    for text in &NO_MOMENTS {
        assert!(rt; began_of_row(rt.alloc(), text.as_bytes())?.is_none());
    }
    Ok(())
}

#[test]
fn the_row_of_an_item_is_read_and_written(rt: HostRuntime) -> Result<(), Fail> {
    let item = item_of_row(rt.alloc(), VISIT.as_bytes(), DEPARTURE.as_bytes())?.ok_or("no row")?;
    let text = item_text(rt.alloc(), &item)?;
    let key = key_text(rt.alloc(), &key_of(item.item())?)?;
    assert!(rt; text.slice() == DEPARTURE.as_bytes() && key.slice() == VISIT.as_bytes());
    assert!(rt; item_of_row(rt.alloc(), REQUEST.as_bytes(), DEPARTURE.as_bytes())?.is_none());
    Ok(())
}

/// The request that a message is.
fn request_in(message: &Message) -> Option<&SubscriptionRequest> {
    match message {
        Message::SubscriptionRequest(request) => Some(request),
        _ => None,
    }
}

/// The first subscription of a request to stops.
fn first_of_stops(request: &SubscriptionRequest) -> Option<&Subscription> {
    request.stop_monitoring_subscription_request.slice().first()
}

#[test]
fn the_rows_of_a_subscription_are_read_and_written(rt: HostRuntime) -> Result<(), Fail> {
    let message = request_of_row(rt.alloc(), REQUEST.as_bytes())?.ok_or("no row")?;
    let request = request_in(&message).ok_or("no request")?;
    let wanted = first_of_stops(request).ok_or("no subscription")?;
    let beat = Span::new(60_000).ok_or("no span")?;
    let address = request.consumer_address.as_ref();
    let text = request_text(rt.alloc(), wanted, 1, address, beat)?;
    assert!(rt; text.slice() == REQUEST.as_bytes());
    let renewal = renewal_text(rt.alloc(), wanted, 3, 1)?.ok_or("no text")?;
    assert!(rt; renewal.slice() == RENEWAL.as_bytes());
    assert!(rt; renewal_of_row(rt.alloc(), wanted, 1, RENEWAL.as_bytes())?.is_some());
    assert!(rt; renewal_of_row(rt.alloc(), wanted, 3, RENEWAL.as_bytes())?.is_none());
    assert!(rt; renewal_text(rt.alloc(), wanted, 1, 1)?.is_none());
    Ok(())
}

#[test]
fn places_have_twenty_digits(rt: HostRuntime) -> Result<(), Fail> {
    let place = place_text(rt.alloc(), 17)?;
    assert!(rt; place.slice() == b"00000000000000000017".as_slice());
    Ok(())
}
