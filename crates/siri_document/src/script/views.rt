//! The line of a view.

ghost use Rattle.std.specs.Prelude.{◌≡◌, ◌++◌, IfOk, OnOk};
ghost use Rattle.siri_document.specs.script.ViewLines.{held_text, view_line};

use crate::script::{append_count, append_word};
use siri_base::{Name, OutOfMemory, append};
use siri_view::Held;
use std::alloc::Global;

/// `view CONSUMER ID number N start S round R items K`
pub fn view_line(
    alloc: Global,
    consumer: &Name,
    identifier: &Name,
    held: &Held,
    items: u64,
) -> Result<Vec<u8>, OutOfMemory>
    ensures { IfOk result (λ text. text.items ≡ view_line consumer.now identifier.now held.now items) }
{
    let mut text = Vec::new(alloc);
    append(&mut text, b"view")?;
    append_word(&mut text, consumer.text().as_bytes())?;
    append_word(&mut text, identifier.text().as_bytes())?;
    append(&mut text, b" ")?;
    append_held(alloc, &mut text, held)?;
    append(&mut text, b" items")?;
    append_count(alloc, &mut text, items)?;
    Ok(text)
}

/// `number N start S round R`
fn append_held(alloc: Global, into: &mut Vec<u8>, held: &Held) -> Result<(), OutOfMemory>
    ensures { OnOk result (into.new.items ≡ into.old.items ++ held_text held.now) }
{
    append(into, b"number")?;
    append_count(alloc, into, held.number)?;
    append(into, b" start")?;
    append_count(alloc, into, held.start)?;
    append(into, b" round")?;
    append_count(alloc, into, held.round)
}
