//! Writes what a consumer shows.

ghost use Rattle.std.specs.Prelude.{◌≡◌, ◌++◌, length, option_map, slice_get, OnOk, OnErr};
ghost use Rattle.std.specs.Io.KnownBytes.{Appends};
ghost use Rattle.siri_outside.specs.Causes.{HasOutsideCause};
ghost use Rattle.siri_outside.specs.MetFailures.{SinkMeets, has_failed};
ghost use Rattle.siri_lines.specs.Ends.{AppendsFront};
ghost use Rattle.siri_document.specs.script.Spaced.{line_feed};
ghost use Rattle.siri_document.specs.script.ViewLines.{view_line};
ghost use Rattle.siri_runs.specs.consumers.Views.{items_text, views_text};
ghost use Rattle.siri_runs.specs.consumers.inner.Shown.{shown};

use siri_base::Name;
use siri_change::View;
use siri_document::{item_line, view_line, write_whole};
use siri_outside::{OutsideError, Sink};
use siri_view::{Consumer, Held};
use std::alloc::Global;

/// Writes the view of each subscription that a consumer holds, in byte order of their identifiers: the line `view
/// CONSUMER ID number N start S round R items K`, and a line for each item, in order of key.
#[tactic(auto, using(siri_lines::proofs::Meeting::sink_none, siri_lines::proofs::Meeting::sink_more))]
pub fn write_views<K: Sink>(
    alloc: Global,
    consumer: &Consumer,
    sink: &mut K,
) -> Result<(), OutsideError>
    ensures ok { OnOk result (Appends (K.held sink.old) (K.held sink.new) (views_text consumer.now)) }
    ensures err { OnErr result (AppendsFront (K.held sink.old) (K.held sink.new) (views_text consumer.now)) }
    ensures cause { HasOutsideCause (K.faults sink.old) (K.faults sink.new) result }
    ensures meets { SinkMeets (has_failed result) (K.held sink.old) (K.held sink.new) (K.fails sink.old) (K.fails sink.new) }
{
    for place in 0..consumer.len() {
        let Some((identifier, held, view)) = shown_at(consumer, place) else {
            break;
        };
        write_view(alloc, consumer.name(), identifier, &held, view, sink)?;
    }
    Ok(())
}

/// What is shown at a place, in byte order of the identifiers: the identifier, and the view with the round that it is
/// of.
fn shown_at(consumer: &Consumer, place: usize) -> Option<(&Name, Held, &View)>
    ensures { option_map (λ s. (s.0.now, s.1, s.2.now)) result ≡ option_map shown (slice_get consumer.now.held place) }
{
    if place >= consumer.len() {
        return None;
    }
    let identifier = consumer.identifier(place)?;
    Some((
        identifier,
        consumer.held(identifier)?,
        consumer.view(identifier)?,
    ))
}

/// Writes the lines of one view.
#[tactic(auto, using(siri_lines::proofs::Meeting::sink_none, siri_lines::proofs::Meeting::sink_more))]
fn write_view<K: Sink>(
    alloc: Global,
    consumer: &Name,
    identifier: &Name,
    held: &Held,
    view: &View,
    sink: &mut K,
) -> Result<(), OutsideError>
    ensures ok { OnOk result (Appends (K.held sink.old) (K.held sink.new) ((view_line consumer.now identifier.now held.now (length view.now) ++ line_feed) ++ items_text view.now)) }
    ensures err { OnErr result (AppendsFront (K.held sink.old) (K.held sink.new) ((view_line consumer.now identifier.now held.now (length view.now) ++ line_feed) ++ items_text view.now)) }
    ensures cause { HasOutsideCause (K.faults sink.old) (K.faults sink.new) result }
    ensures meets { SinkMeets (has_failed result) (K.held sink.old) (K.held sink.new) (K.fails sink.old) (K.fails sink.new) }
{
    let line = view_line(alloc, consumer, identifier, held, view.len() as u64)?;
    write_whole(line, sink)?;
    write_items(alloc, view, sink)
}

/// Writes the lines of a view's items.
#[tactic(auto, using(siri_lines::proofs::Meeting::sink_none, siri_lines::proofs::Meeting::sink_more))]
fn write_items<K: Sink>(alloc: Global, view: &View, sink: &mut K) -> Result<(), OutsideError>
    ensures ok { OnOk result (Appends (K.held sink.old) (K.held sink.new) (items_text view.now)) }
    ensures err { OnErr result (AppendsFront (K.held sink.old) (K.held sink.new) (items_text view.now)) }
    ensures cause { HasOutsideCause (K.faults sink.old) (K.faults sink.new) result }
    ensures meets { SinkMeets (has_failed result) (K.held sink.old) (K.held sink.new) (K.fails sink.old) (K.fails sink.new) }
{
    for place in 0..view.len() {
        let Some(item) = view.at(place) else {
            break;
        };
        write_whole(item_line(alloc, item)?, sink)?;
    }
    Ok(())
}
