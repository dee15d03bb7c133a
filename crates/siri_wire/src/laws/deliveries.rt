//! What holds of the tables inside deliveries and of marks: each function has laws for its clauses, and does nothing
//! when it is called.

ghost use Rattle.std.specs.Prelude.{◌≡◌, ◌↔◌, List, Result, Ok};
ghost use Rattle.serde_json.specs.Data.{Data};
ghost use Rattle.siri_records.specs.declared.item.Item.{Item};
ghost use Rattle.siri_records.specs.declared.item.Service.TheVariants as service;
ghost use Rattle.siri_records.specs.declared.journey.Journey.{Journey};
ghost use Rattle.siri_records.specs.declared.key.Key.{Key};
ghost use Rattle.siri_messages.specs.declared.deliveries.FunctionalDelivery.{FunctionalDelivery};
ghost use Rattle.siri_messages.specs.declared.supplies.Mark.{Mark};
ghost use Rattle.siri_tables.specs.Refusals.{Refusal};
ghost use Rattle.siri_deliveries.specs.declared.read_parts.DeliveryExtensions.{DeliveryExtensions};
ghost use Rattle.siri_deliveries.specs.declared.read_parts.RoundPosition.{RoundPosition};
ghost use Rattle.siri_deliveries.specs.Deliveries.{stop_monitoring_delivery, estimated_timetable_delivery, vehicle_monitoring_delivery, situation_exchange_delivery};
ghost use Rattle.siri_deliveries.specs.Frames.{journeys, frame, journeys_of_frames};
ghost use Rattle.siri_deliveries.specs.Parts.{round_position, delivery_extensions};
ghost use Rattle.siri_deliveries.specs.Removals.{visit_cancellation, vehicle_cancellation, removed_journey, removed_situation};
ghost use Rattle.siri_wire.specs.laws.SpellingDeliveries.{SpellsMark, SpellsRoundPosition, SpellsDeliveryExtensions, SpellsRemoval, SpellsJourneys, SpellsFrames, SpellsFrame, SpellsStopDelivery, SpellsTimetableDelivery, SpellsVehicleDelivery, SpellsSituationDelivery};
ghost use Rattle.siri_wire.specs.Supplies.{mark};

/// A mark, where in a round a delivery stands, and what it removes besides, is read from an object exactly where the
/// object spells it.
pub fn places_are_spelled()
    ensures of_mark { (d : Data) (m : Mark) → (mark d ≡ Ok m) ↔ SpellsMark d m }
    ensures of_round_position { (d : Data) (s : RoundPosition) → (round_position d ≡ Ok s) ↔ SpellsRoundPosition d s }
    ensures of_delivery_extensions { (removed : Data → Result Key Refusal) (d : Data) (e : DeliveryExtensions) → (delivery_extensions removed d ≡ Ok e) ↔ SpellsDeliveryExtensions removed d e }
{}

/// The delivery of each service, and the items of a frame of journeys, are read from an object exactly where the object
/// spells them.
pub fn deliveries_are_spelled()
    ensures of_stop { (d : Data) (f : FunctionalDelivery) → (stop_monitoring_delivery d ≡ Ok f) ↔ SpellsStopDelivery d f }
    ensures of_timetable { (d : Data) (f : FunctionalDelivery) → (estimated_timetable_delivery d ≡ Ok f) ↔ SpellsTimetableDelivery d f }
    ensures of_vehicle { (d : Data) (f : FunctionalDelivery) → (vehicle_monitoring_delivery d ≡ Ok f) ↔ SpellsVehicleDelivery d f }
    ensures of_situation { (d : Data) (f : FunctionalDelivery) → (situation_exchange_delivery d ≡ Ok f) ↔ SpellsSituationDelivery d f }
    ensures of_frame { (d : Data) (items : List Item) → (frame d ≡ Ok items) ↔ SpellsFrame d items }
{}

/// A cancellation, or what a service shows no more, is read from an object exactly where the object spells its key.
pub fn removals_are_spelled()
    ensures of_visit { (d : Data) (k : Key) → (visit_cancellation d ≡ Ok k) ↔ SpellsRemoval service.Stop d k }
    ensures of_journey { (d : Data) (k : Key) → (removed_journey d ≡ Ok k) ↔ SpellsRemoval service.Timetable d k }
    ensures of_vehicle { (d : Data) (k : Key) → (vehicle_cancellation d ≡ Ok k) ↔ SpellsRemoval service.Vehicle d k }
    ensures of_situation { (d : Data) (k : Key) → (removed_situation d ≡ Ok k) ↔ SpellsRemoval service.Situation d k }
{}

/// The journeys of a frame, and those of all frames, are read exactly where each entry that isn't null spells its own:
/// at most 20,000 journeys of all frames together.
pub fn journeys_are_spelled()
    ensures of_frame { (d : Data) (inside : List Journey) → (journeys d ≡ Ok inside) ↔ SpellsJourneys d inside }
    ensures of_frames { (d : Data) (items : List Item) → (journeys_of_frames d ≡ Ok items) ↔ SpellsFrames d items }
{}
