//! Whether a display shows what its source answers, by the times and texts of the visits alone.

use crate::chain::Chain;
use crate::ends::End;
use crate::making::{identifier, request};
use crate::stopped::Stopped;
use siri_base::{Moment, Span, Text};
use siri_change::View;
use siri_messages::ServiceDelivery;
use siri_records::{Item, SharedItem, Visit};
use std::alloc::Global;
use std::rc::Rc;

/// What a display was found to show.
#[derive(Clone, Copy, Debug)]
pub(crate) struct Found {
    pub(crate) items: u64,
    /// How many of them aren't those of the source.
    pub(crate) apart: u64,
}

/// What the display shows, where that is what the source answers within the sum of the thresholds, and each relay is
/// level.
pub(crate) fn judge(alloc: Global, chain: &mut Chain) -> Result<Found, Stopped> {
    let link = chain.last_link().ok_or(Stopped::NotHeld)?;
    let slack = chain.slack();
    let response = Rc::new(alloc, response(alloc, chain, link)?)?;
    let wanted = match response.stop_monitoring_delivery.get(0) {
        Some(delivery) => delivery.items.slice(),
        None => return Err(Stopped::OtherKeys),
    };
    let name = identifier(alloc)?;
    let mut found = Err(Stopped::NotHeld);
    for place in 0..chain.len() {
        match chain.end(place) {
            Some(End::Relay(relay)) if !relay.level() => return Err(Stopped::NotLevel),
            Some(End::Display(display)) => {
                if let Some(view) = display.view(&name) {
                    found = compared(view, wanted, slack);
                }
            }
            _ => {}
        }
    }
    found
}

/// The direct response of the source to what a link asks for.
fn response(
    alloc: Global,
    chain: &mut Chain,
    link: crate::making::Link,
) -> Result<ServiceDelivery, Stopped> {
    let request = request(alloc, link)?;
    match chain.end(0) {
        Some(End::Source(source)) => Ok(source.direct(&request)?),
        _ => Err(Stopped::NotHeld),
    }
}

/// A view beside the items that are wanted, both in order of key.
fn compared(view: &View, wanted: &[SharedItem], slack: u64) -> Result<Found, Stopped> {
    if view.len() != wanted.len() {
        return Err(Stopped::OtherKeys);
    }
    let mut found = Found { items: 0, apart: 0 };
    for (place, item) in wanted.iter().enumerate() {
        let Some(held) = view.at(place) else {
            return Err(Stopped::OtherKeys);
        };
        let (Item::Visit(held), Item::Visit(wanted)) = (&**held, item.item()) else {
            return Err(Stopped::OtherKeys);
        };
        if !is_known_alike(held, wanted) {
            return Err(Stopped::OtherKeys);
        }
        if !is_within(held, wanted, slack) {
            return Err(Stopped::NotNear);
        }
        found.items = found.items.saturating_add(1);
        if !is_within(held, wanted, 0) {
            found.apart = found.apart.saturating_add(1);
        }
    }
    Ok(found)
}

/// Whether two visits are of one stop and have one identifier.
fn is_known_alike(held: &Visit, wanted: &Visit) -> bool {
    held.monitoring_ref.text() == wanted.monitoring_ref.text()
        && held.item_identifier.text() == wanted.item_identifier.text()
}

/// Whether two visits are told alike, but for predicted times and delays that differ by less than this.
fn is_within(held: &Visit, wanted: &Visit, slack: u64) -> bool {
    let held = &held.monitored_vehicle_journey;
    let wanted = &wanted.monitored_vehicle_journey;
    let call = &held.monitored_call;
    let other = &wanted.monitored_call;
    are_near(
        ms(call.expected_arrival_time),
        ms(other.expected_arrival_time),
        slack,
    ) && are_near(
        ms(call.expected_departure_time),
        ms(other.expected_departure_time),
        slack,
    ) && are_near(length(held.delay), length(wanted.delay), slack)
        && text(&call.departure_platform_name) == text(&other.departure_platform_name)
}

/// A moment in milliseconds.
fn ms(moment: Option<Moment>) -> Option<i64> {
    Some(moment?.ms())
}

/// A span in milliseconds.
fn length(span: Option<Span>) -> Option<i64> {
    Some(span?.ms())
}

/// A text, or the empty one where there is none.
fn text(text: &Option<Text>) -> &str {
    match text {
        Some(text) => text.text(),
        None => "",
    }
}

/// Whether both are absent, or are equal, or differ by less than this.
fn are_near(a: Option<i64>, b: Option<i64>, slack: u64) -> bool {
    match (a, b) {
        (None, None) => true,
        (Some(a), Some(b)) => a == b || a.abs_diff(b) < slack,
        _ => false,
    }
}
