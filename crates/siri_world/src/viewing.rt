//! What is told of a view.

ghost use Rattle.std.specs.Prelude.{◌≡◌, ◌++◌, [], length, IfOk, OnOk};
ghost use Rattle.siri_model.specs.History.{History};
ghost use Rattle.siri_view.specs.Kept.{kept_of};
ghost use Rattle.siri_world_model.specs.Goals.{is_number};
ghost use Rattle.siri_world_model.specs.Lines as line;
ghost use Rattle.siri_world_model.specs.Lines.{told_line, told_lines};
ghost use Rattle.siri_world.specs.Known.{Serves};
ghost use Rattle.siri_world.specs.Serving.{item_lines, shown_lines};

use crate::happened::{Happened, one, unknown};
use siri_base::{Copies, List, Name, OutOfMemory};
use siri_change::View;
use siri_producer::Producer;
use siri_view::{Consumer, Held};
use siri_world_model::Line;
use std::alloc::Global;

/// What a consumer shows of a subscription, or that it doesn't hold it.
pub(crate) fn view_of(
    alloc: Global,
    producer: &Producer,
    consumer: &Consumer,
    identifier: &Name,
) -> Result<Happened, OutOfMemory>
    ensures lines { IfOk result (λ happened. (h : History) → Serves producer.now h → told_lines happened.lines ≡ shown_lines h consumer.now identifier.now (kept_of identifier.now consumer.now.held)) }
    ensures packets { IfOk result (λ happened. happened.packets ≡ []) }
{
    let name = consumer.name();
    let Some(number) = consumer.current(identifier) else {
        return unknown(alloc, name, Some(identifier));
    };
    let Some(held) = consumer.held(identifier) else {
        return unknown(alloc, name, Some(identifier));
    };
    let Some(view) = consumer.view(identifier) else {
        return unknown(alloc, name, Some(identifier));
    };
    let is_quiet = is_number(producer.quiet(name, identifier), number);
    let mut lines = one(alloc, view_line(name, identifier, held, view, is_quiet)?)?;
    push_items(&mut lines, view)?;
    Ok(Happened {
        lines,
        packets: List::new(alloc),
    })
}

/// The line of a view.
fn view_line(
    consumer: &Name,
    identifier: &Name,
    held: Held,
    view: &View,
    quiet: bool,
) -> Result<Line, OutOfMemory>
    ensures { IfOk result (λ made. told_line made ≡ line.View consumer.now identifier.now held (length view.now) quiet) }
{
    Ok(Line::View {
        consumer: consumer.copy()?,
        identifier: identifier.copy()?,
        held,
        items: view.len() as u64,
        quiet,
    })
}

/// Whether this number is the one.
fn is_number(quiet: Option<u64>, number: u64) -> bool
    ensures { result ≡ is_number quiet number }
{
    match quiet {
        Some(quiet) => quiet == number,
        None => false,
    }
}

/// The items of a view are told in order of key.
fn push_items(lines: &mut List<Line>, view: &View) -> Result<(), OutOfMemory>
    ensures { OnOk result (told_lines lines.new ≡ told_lines lines.old ++ item_lines view.now) }
{
    for place in 0..view.len() {
        let Some(item) = view.at(place) else {
            break;
        };
        lines.push(Line::Item(item.clone()?))?;
    }
    Ok(())
}
