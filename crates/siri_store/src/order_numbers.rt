//! The numbers of the orders of stamps: by end, of each service by edge, and of each stop and each line by edge.

ghost use Rattle.std.specs.Prelude.{◌≡◌, ◌+◌, ◌<◌, ◌^◌};
ghost use Rattle.siri_store.specs.Stamped.{by_edge, by_name, digest, is_by_name, order_asked, order_of_lines, order_of_name};

use siri_base::{List, Name};
use siri_records::{Item, Service};
use siri_topic::{LineDirection, Topic};

/// The order by their ends of all items but visits, whose one edge is their end. It is before those by edges.
pub(crate) const BY_END: u64 = 0;

/// Numbers that are made of names are below this, which is 2^40.
const DIGESTS: u64 = 1_099_511_627_776;

/// The order of a service's items by their edges.
pub(crate) fn by_edge(service: Service) -> u64
    ensures order { result ≡ by_edge service }
    ensures fits { result < 5 }
{
    match service {
        Service::Stop => 1,
        Service::Timetable => 2,
        Service::Vehicle => 3,
        Service::Situation => 4,
    }
}

/// The order of a stop's visits, or of a line's journeys, by their edges: that of the item's stop or line.
pub(crate) fn order_of_name(item: &Item) -> Option<u64>
    ensures { result ≡ order_of_name item.now }
{
    match item {
        Item::Visit(visit) => Some(by_name(Service::Stop, &visit.monitoring_ref)),
        Item::Journey(journey) => Some(by_name(Service::Timetable, &journey.line_ref)),
        _ => None,
    }
}

/// Whether an order is that of an item's stop or line.
pub(crate) fn is_by_name(item: &Item, order: u64) -> bool
    ensures { result ≡ is_by_name order item.now }
{
    match order_of_name(item) {
        Some(named) => named == order,
        None => false,
    }
}

/// The order in which those items stand by their edges that may be shown to a topic by their keys.
pub(crate) fn order_asked(topic: &Topic) -> u64
    ensures order { result ≡ order_asked topic.now }
    ensures fits { result + 1 < 2 ^ 64 }
{
    match topic {
        Topic::Stop(topic) => by_name(Service::Stop, &topic.monitoring_ref),
        Topic::Timetable(topic) => order_of_lines(&topic.lines),
        _ => by_edge(topic.service()),
    }
}

/// The order of the journeys of a single line, else of all.
fn order_of_lines(lines: &List<LineDirection>) -> u64
    ensures order { result ≡ order_of_lines lines.now }
    ensures fits { result + 1 < 2 ^ 64 }
{
    match lines.slice() {
        [only] => by_name(Service::Timetable, &only.line_ref),
        _ => by_edge(Service::Timetable),
    }
}

/// The order of a service's items of one name. Two names may share one: it is a number, so that a topic's is found and
/// compared without memory, and keys tell whose an item is.
fn by_name(service: Service, name: &Name) -> u64
    ensures order { result ≡ by_name service name.now }
    ensures fits { result + 1 < 2 ^ 64 }
{
    5 + digest(by_edge(service), name.text().as_bytes())
}

/// A number that is made of bytes, below 2^40.
fn digest(start: u64, bytes: &[u8]) -> u64
    requires { start < 2 ^ 40 }
    ensures digest { result ≡ digest start bytes.now }
    ensures fits { result < 2 ^ 40 }
{
    let mut sum = start;
    for byte in bytes {
        sum = (sum * 1_000_003 + u64::from(*byte)) % DIGESTS;
    }
    sum
}
