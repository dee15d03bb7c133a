//! The line of an item.

ghost use Rattle.std.specs.Prelude.{◌≡◌, ◌++◌, IfOk, OnOk};
ghost use Rattle.siri_json.specs.Tokens.{tokens_of};
ghost use Rattle.siri_document.specs.script.Items.{item_line, item_members, item_name, item_text};

use crate::script::append_word;
use siri_base::{OutOfMemory, append};
use siri_deliveries::names;
use siri_items::{write_item, write_timed_journey};
use siri_json::Output;
use siri_records::Item;
use std::alloc::Global;

/// `item {NAME:ITEM}`
pub fn item_line(alloc: Global, item: &Item) -> Result<Vec<u8>, OutOfMemory>
    ensures { IfOk result (λ text. text.items ≡ item_line item.now) }
{
    let mut text = Vec::new(alloc);
    append(&mut text, b"item")?;
    append_word(&mut text, &item_text(alloc, item)?)?;
    Ok(text)
}

/// `{NAME:ITEM}`: an item under the name of its kind. A journey carries its RecordedAtTime itself.
#[tactic(auto, using(crate::proofs::ItemTexts::item_said))]
fn item_text(alloc: Global, item: &Item) -> Result<Vec<u8>, OutOfMemory>
    ensures { IfOk result (λ text. text.items ≡ item_text item.now) }
{
    let mut out = Output::new(alloc);
    out.begin_object()?;
    out.key(item_name(item))?;
    write_members(&mut out, item)?;
    out.end_object()?;
    Ok(out.into_text())
}

#[tactic(auto, using(crate::proofs::ItemTexts::members_of_visit, crate::proofs::ItemTexts::members_of_journey, crate::proofs::ItemTexts::members_of_vehicle, crate::proofs::ItemTexts::members_of_situation))]
fn write_members(out: &mut Output, item: &Item) -> Result<(), OutOfMemory>
    ensures { OnOk result (out.new ≡ out.old ++ tokens_of (item_members item.now)) }
{
    match item {
        Item::Journey(journey) => write_timed_journey(out, journey, &journey.recorded_at_time),
        Item::Visit(_) | Item::Vehicle(_) | Item::Situation(_) => write_item(out, item),
    }
}

/// The name under which a delivery lists items of its kind.
fn item_name(item: &Item) -> &'static str
    ensures { result.now ≡ item_name item.now }
{
    match item {
        Item::Visit(_) => names::MONITORED_STOP_VISIT,
        Item::Journey(_) => names::ESTIMATED_VEHICLE_JOURNEY,
        Item::Vehicle(_) => names::VEHICLE_ACTIVITY,
        Item::Situation(_) => names::PT_SITUATION_ELEMENT,
    }
}
