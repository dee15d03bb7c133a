//! What holds of the definitions: each function has a law for its clause, and does nothing when it is called.

ghost use Rattle.std.specs.Prelude.{◌≡◌, ◌↔◌, ◌≤◌, ℕ, List, Ok, Some, option_map};
ghost use Rattle.serde_json.specs.Data.{Data, depth};
ghost use Rattle.siri_records.specs.declared.call.StopCall.{StopCall};
ghost use Rattle.siri_records.specs.declared.visit.VehicleLocation.{VehicleLocation};
ghost use Rattle.siri_records.specs.declared.visit.VisitJourney.{VisitJourney};
ghost use Rattle.siri_records.specs.declared.vehicle.VehicleJourney.{VehicleJourney};
ghost use Rattle.siri_records.specs.declared.situation.Period.{Period};
ghost use Rattle.siri_records.specs.declared.item.Item.{Item};
ghost use Rattle.siri_records.specs.declared.item.Service.{Service};
ghost use Rattle.siri_items.specs.Items.{item_of};
ghost use Rattle.siri_items.specs.Names.{MembersAreSpelled};
ghost use Rattle.siri_items.specs.Proper.{IsProper, as_written};
ghost use Rattle.siri_json.specs.TextsOfTrees.{TextsAreUtf8};
ghost use Rattle.siri_items.specs.Spelling.{SpellsItem, SpellsCall, SpellsLocation, SpellsFramedRef, SpellsVisitJourney, SpellsVehicleJourney, SpellsPeriod, SpellsAffected};
ghost use Rattle.siri_items.specs.Calls.{stop_call, location, read_framed_ref_rows};
ghost use Rattle.siri_items.specs.Visits.{visit_journey};
ghost use Rattle.siri_items.specs.Vehicles.{vehicle_journey};
ghost use Rattle.siri_items.specs.Situations.{period, affected};
ghost use Rattle.siri_items.specs.declared.read_call.RequiredJourneyRef.{RequiredJourneyRef};
ghost use Rattle.siri_items.specs.declared.read_situation.Affected.{Affected};
ghost use Rattle.siri_items.specs.Written.{written_item};
ghost use Rattle.siri_json.specs.Canonical.{IsCanonical, as_texts};
ghost use Rattle.siri_json.specs.Tree.{tree_of};
ghost use Rattle.serde_json.specs.Written.{compact_text};
ghost use Rattle.siri_records.specs.Services.{service_of};

/// Each name of [`crate::names`] is the one that documents spell: by these constants the tables name their members.
pub fn members_are_spelled()
    ensures { MembersAreSpelled }
{}

/// An item is read from a tree exactly where the tree spells it: where the member of each row spells the field's value
/// under the row's rule, or is absent where there is none.
pub fn read_is_spelled()
    ensures { (service : Service) (d : Data) (i : Item) → (item_of service d ≡ Ok i) ↔ SpellsItem service d i }
{}

/// The tables inside items are read from an object exactly where the object spells them: calls, locations, the frame of
/// a journey's reference, the journeys of visits and vehicles, periods, and what a situation affects.
pub fn tables_are_spelled()
    ensures of_call { (d : Data) (c : StopCall) → (stop_call d ≡ Ok c) ↔ SpellsCall d c }
    ensures of_location { (d : Data) (l : VehicleLocation) → (location d ≡ Ok l) ↔ SpellsLocation d l }
    ensures of_framed_ref { (d : Data) (r : RequiredJourneyRef) → (read_framed_ref_rows d ≡ Ok (Some r)) ↔ SpellsFramedRef d r }
    ensures of_visit_journey { (d : Data) (j : VisitJourney) → (visit_journey d ≡ Ok j) ↔ SpellsVisitJourney d j }
    ensures of_vehicle_journey { (d : Data) (j : VehicleJourney) → (vehicle_journey d ≡ Ok j) ↔ SpellsVehicleJourney d j }
    ensures of_period { (d : Data) (p : Period) → (period d ≡ Ok p) ↔ SpellsPeriod d p }
    ensures of_affected { (d : Data) (a : Affected) → (affected d ≡ Ok a) ↔ SpellsAffected d a }
{}

/// What was written of a proper item, with its numbers as texts, is read as that item (a journey without its
/// RecordedAtTime, which isn't written in it).
pub fn written_is_read()
    ensures { (i : Item) → IsProper i → item_of (service_of i) (as_texts (written_item i)) ≡ Ok (as_written i) }
{}

/// What is written of a proper item is a canonical tree of at most seven lists and objects inside one another.
pub fn written_is_canonical()
    ensures { (i : Item) → IsProper i → IsCanonical (written_item i) × (depth (written_item i) ≤ 7) }
{}

/// The compact text of what is written of a proper item, read as a document, is read as that item.
pub fn written_text_is_read()
    ensures { (i : Item) → IsProper i → option_map (item_of (service_of i)) (tree_of (compact_text (written_item i))) ≡ Some (Ok (as_written i)) }
{}

/// An item that is read of a tree whose texts are UTF-8, as it is of the tree of each document, is proper: so the laws
/// of written items speak of each item that can be read.
pub fn read_is_proper()
    ensures of_document { (service : Service) (document : List ℕ) (d : Data) (i : Item) → tree_of document ≡ Some d → item_of service d ≡ Ok i → IsProper i }
    ensures of_tree { (service : Service) (d : Data) (i : Item) → TextsAreUtf8 d → item_of service d ≡ Ok i → IsProper i }
{}
