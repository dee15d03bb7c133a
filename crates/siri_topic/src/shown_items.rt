//! The items that are shown to a topic.

ghost use Rattle.std.specs.Prelude.{◌≡◌};
ghost use Rattle.siri_topic.specs.Crossed.{StaysShown};
ghost use Rattle.siri_topic.specs.Shown.{DeadAreNeverShown, ends_before, has_period_in, is_before, is_from, is_in, is_period_in, is_shown, preview_of, start_of, window_of};

use crate::{Topic, Window, matches};
use siri_base::{Moment, Span};
use siri_records::{Item, Period, Situation, closed, end_of, entry_of};

/// The window of a topic at a moment: from the later of its StartTime and now, for its PreviewInterval. It has no far
/// edge where there is no PreviewInterval.
pub fn window(topic: &Topic, now: Moment) -> Window
    ensures { result ≡ window_of topic.now now }
{
    let from = match start_of(topic) {
        Some(start) => start.max(now).ms(),
        None => now.ms(),
    };
    let to = match preview_of(topic) {
        Some(preview) => Some(from + preview.ms()),
        None => None,
    };
    Window { from, to }
}

/// Whether an item is shown to a topic at a moment: it agrees with the topic, isn't closed, and is in the topic's
/// window at that moment. It takes no memory.
///
/// A visit or a journey is in a window where its end isn't before the near edge and its entry is before the far edge. A
/// vehicle is in it where its ValidUntilTime isn't before the moment, or absent. A situation is in it where some one of
/// its periods begins before the far edge and doesn't end before the near edge.
pub fn shown(topic: &Topic, item: &Item, now: Moment) -> bool
    ensures { result ≡ is_shown topic.now item.now now }
{
    matches(topic, item) && !closed(item) && is_in(&window(topic, now), now, item)
}

/// The law that an item that is dead at a moment is shown to no topic at that moment.
pub fn dead_items_are_never_shown()
    ensures { DeadAreNeverShown }
{}

/// The law that an item that isn't dead, and of which no end of a topic's window passed an edge since a moment, is shown to
/// the topic exactly where it was shown then.
pub fn uncrossed_items_stay_as_shown()
    ensures { StaysShown }
{}

/// The StartTime of a topic; timetables and vehicles have none.
fn start_of(topic: &Topic) -> Option<Moment>
    ensures { result ≡ start_of topic.now }
{
    match topic {
        Topic::Stop(topic) => topic.start_time,
        Topic::Situation(topic) => topic.start_time,
        _ => None,
    }
}

/// The PreviewInterval of a topic; vehicles have none.
fn preview_of(topic: &Topic) -> Option<Span>
    ensures { result ≡ preview_of topic.now }
{
    match topic {
        Topic::Stop(topic) => topic.preview_interval,
        Topic::Timetable(topic) => topic.preview_interval,
        Topic::Vehicle(_) => None,
        Topic::Situation(topic) => topic.preview_interval,
    }
}

/// Whether an item is in a window at a moment, as [`shown`] says for each service.
fn is_in(window: &Window, now: Moment, item: &Item) -> bool
    ensures { result ≡ is_in window.now now item.now }
{
    match item {
        Item::Visit(_) | Item::Journey(_) => {
            is_from(window.from, end_of(item)) && is_before(window.to, entry_of(item))
        }
        Item::Vehicle(vehicle) => !ends_before(now.ms(), vehicle.valid_until_time),
        Item::Situation(situation) => has_period_in(window, situation),
    }
}

/// Some one of its periods begins before the far edge and doesn't end before the near edge.
fn has_period_in(window: &Window, situation: &Situation) -> bool
    ensures { result ≡ has_period_in window.now situation.now }
{
    situation
        .validity_period
        .slice()
        .iter()
        .any(|period| is_period_in(window, period))
}

/// It begins before the far edge, and doesn't end before the near edge or has no EndTime.
fn is_period_in(window: &Window, period: &Period) -> bool
    ensures { result ≡ is_period_in window.now period.now }
{
    is_before(window.to, Some(period.start_time)) && !ends_before(window.from, period.end_time)
}

/// There is a moment, and it isn't before this one in milliseconds.
fn is_from(from: i64, moment: Option<Moment>) -> bool
    ensures { result ≡ is_from from moment }
{
    match moment {
        Some(moment) => moment.ms() >= from,
        None => false,
    }
}

/// There is a moment, and it is before the far edge in milliseconds, where there is such an edge.
fn is_before(to: Option<i64>, moment: Option<Moment>) -> bool
    ensures { result ≡ is_before to moment }
{
    match (to, moment) {
        (Some(to), Some(moment)) => moment.ms() < to,
        (None, Some(_)) => true,
        (_, None) => false,
    }
}

/// There is an end, and it is before this moment.
fn ends_before(from: i64, end: Option<Moment>) -> bool
    ensures { result ≡ ends_before from end }
{
    match end {
        Some(end) => end.ms() < from,
        None => false,
    }
}
