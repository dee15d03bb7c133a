//! Writing items.

ghost use Rattle.std.specs.Prelude.{◌≡◌, ◌++◌, OnOk};
ghost use Rattle.siri_json.specs.Tokens.{tokens_of};
ghost use Rattle.siri_items.specs.Written.{written_item};

use crate::write_journey::write_timed_journey;
use crate::write_situation::write_situation;
use crate::write_vehicle::write_vehicle;
use crate::write_visit::write_visit;
use siri_base::OutOfMemory;
use siri_json::Output;
use siri_records::Item;

/// Writes an item in the one form of the profile: texts as strings, flags as `true` and `false`, numbers as JSON
/// numbers, decimals as strings, lists as lists. What is absent isn't written, nor a list or an object that need not be
/// there and would be empty. A journey is written without its RecordedAtTime, which its frame carries.
#[tactic(auto, using(crate::proofs::InOrder::untimed))]
pub fn write_item(out: &mut Output, item: &Item) -> Result<(), OutOfMemory>
    ensures { OnOk result (out.new ≡ out.old ++ tokens_of (written_item item.now)) }
{
    match item {
        Item::Visit(visit) => write_visit(out, visit),
        Item::Journey(journey) => write_timed_journey(out, journey, &None),
        Item::Vehicle(vehicle) => write_vehicle(out, vehicle),
        Item::Situation(situation) => write_situation(out, situation),
    }
}
