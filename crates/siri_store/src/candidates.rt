//! The held items that may be shown to a topic by their keys: they stand together, since keys are in order of their
//! service, those of visits in order of their MonitoringRef, and those of journeys of their LineRef. So do changes of
//! such keys among others.

ghost use Rattle.std.specs.Prelude.{◌≡◌, ◌≤◌, filter, take, drop, length, slice_range, true, false};
ghost use Rattle.std.specs.List.{All};
ghost use Rattle.siri_records.specs.Keyed.{InOrder};
ghost use Rattle.siri_records.specs.Order.{rank};
ghost use Rattle.siri_store.specs.Candidates.{candidates, may_be_shown};
ghost use Rattle.siri_store.specs.Sides.{line_cmp, rank_asked, place_cmp, side, is_below};

use siri_base::{List, Name};
use siri_records::{Change, Key, KeyedItems};
use siri_topic::{LineDirection, Topic};
use std::cmp::Ordering;
use std::ops::Range;

/// Their places. Keys alone are looked at, by halves.
pub(crate) fn candidates(items: &KeyedItems, topic: &Topic) -> Range<usize>
    ensures places { slice_range items.now result.start result.end ≡ candidates topic.now items.now }
    ensures rising { result.start ≤ result.end }
    ensures within { result.end ≤ length items.now }
    ensures ordered { InOrder items.now }
{
    Range {
        start: first_from(items, topic, Ordering::Equal),
        end: first_from(items, topic, Ordering::Greater),
    }
}

/// The place of the first key that isn't below a side, or their number.
fn first_from(items: &KeyedItems, topic: &Topic, least: Ordering) -> usize
    ensures below { All (λ e. is_below topic.now least e.0 ≡ true) (take result items.now) }
    ensures above { All (λ e. is_below topic.now least e.0 ≡ false) (drop result items.now) }
    ensures within { result ≤ length items.now }
    ensures ordered { InOrder items.now }
{
    let mut low = 0;
    let mut high = items.len();
    while low < high {
        let middle = low + (high - low) / 2;
        match items.entry(middle) {
            Some(entry) if side(topic, entry.0.key()) < least => low = middle + 1,
            _ => high = middle,
        }
    }
    low
}

/// The places of those changes, of some in order of key, whose keys are of items that may be shown to a topic. Keys alone
/// are looked at, by halves.
pub fn asked(changes: &List<Change>, topic: &Topic) -> Range<usize>
    requires { InOrder changes.now }
    ensures places { slice_range changes.now result.start result.end ≡ filter (λ change. may_be_shown topic.now change.0) changes.now }
    ensures rising { result.start ≤ result.end }
    ensures within { result.end ≤ length changes.now }
{
    Range {
        start: first_change_from(changes, topic, Ordering::Equal),
        end: first_change_from(changes, topic, Ordering::Greater),
    }
}

/// The place of the first change whose key isn't below a side, or their number.
fn first_change_from(changes: &List<Change>, topic: &Topic, least: Ordering) -> usize
    requires { InOrder changes.now }
    ensures below { All (λ change. is_below topic.now least change.0 ≡ true) (take result changes.now) }
    ensures above { All (λ change. is_below topic.now least change.0 ≡ false) (drop result changes.now) }
    ensures within { result ≤ length changes.now }
{
    let mut low = 0;
    let mut high = changes.len();
    while low < high {
        let middle = low + (high - low) / 2;
        match changes.get(middle) {
            Some(change) if side(topic, change.key.key()) < least => low = middle + 1,
            _ => high = middle,
        }
    }
    low
}

/// Whether an item may be shown to a topic by its key.
pub fn may_be_shown(topic: &Topic, key: &Key) -> bool
    ensures { result ≡ may_be_shown topic.now key.now }
{
    side(topic, key).is_eq()
}

/// Whether a key stands before a topic's candidates, among them (`Equal`), or behind them.
fn side(topic: &Topic, key: &Key) -> Ordering
    ensures { result ≡ side topic.now key.now }
{
    rank(key)
        .cmp(&rank_asked(topic))
        .then(place_cmp(topic, key))
}

/// Of two visits' monitoring points, or of two journeys' lines, the key's against the topic's.
fn place_cmp(topic: &Topic, key: &Key) -> Ordering
    ensures { result ≡ place_cmp topic.now key.now }
{
    match (topic, key) {
        (Topic::Stop(topic), Key::Visit { monitoring, .. }) => {
            monitoring.cmp(&topic.monitoring_ref)
        }
        (Topic::Timetable(topic), Key::Journey { line, .. }) => line_cmp(&topic.lines, line),
        _ => Ordering::Equal,
    }
}

/// A line against the one that is asked for, where that is a single one.
fn line_cmp(lines: &List<LineDirection>, line: &Name) -> Ordering
    ensures { result ≡ line_cmp lines.now line.now }
{
    match lines.slice() {
        [only] => line.cmp(&only.line_ref),
        _ => Ordering::Equal,
    }
}

/// Keys are in order of these.
fn rank(key: &Key) -> u8
    ensures { result ≡ rank key.now }
{
    match key {
        Key::Visit { .. } => 0,
        Key::Journey { .. } => 1,
        Key::Vehicle { .. } => 2,
        Key::Situation { .. } => 3,
    }
}

/// The rank of the keys of a topic's service.
fn rank_asked(topic: &Topic) -> u8
    ensures { result ≡ rank_asked topic.now }
{
    match topic {
        Topic::Stop(_) => 0,
        Topic::Timetable(_) => 1,
        Topic::Vehicle(_) => 2,
        Topic::Situation(_) => 3,
    }
}
