//! What holds of doors, whatever happens by them: each function has a law for its clause, and does nothing when it is
//! called.

ghost use Rattle.std.specs.Prelude.{◌≡◌, ℕ, Bool, List};
ghost use Rattle.siri_doors.specs.Decisions.{turns};
ghost use Rattle.siri_doors.specs.Doors.{DoorsState};
ghost use Rattle.siri_doors.specs.Gathers.{wire_over};
ghost use Rattle.siri_doors.specs.Orders.{HasRoom, SameBySlot, SameBytesAndOrder, asking_in, events_in};
ghost use Rattle.siri_doors.specs.declared.event.Event.{Event};

/// What the connections of a slot bring is decided by what happens in that slot alone, where nobody is refused.
pub fn a_slot_is_decided_by_its_own_events()
    ensures { (whole : List ℕ → Bool) (slot : ℕ) (events : List Event) → HasRoom whole events → asking_in slot (turns whole events) ≡ turns whole (events_in slot events) }
{}

/// The bytes by slot and the order of the turns decide the whole wire, and so whatever a run does over it.
pub fn bytes_and_order_decide_the_wire()
    ensures { (whole : List ℕ → Bool) (doors : DoorsState) (one two : List Event) → SameBytesAndOrder whole one two → wire_over whole (record doors { coming = one }) ≡ wire_over whole (record doors { coming = two }) }
{}

/// So what happens in each slot and the order of the turns decide it, however the events of several slots are
/// interleaved.
pub fn interleaving_decides_nothing_else()
    ensures { (whole : List ℕ → Bool) (doors : DoorsState) (one two : List Event) → SameBySlot whole one two → wire_over whole (record doors { coming = one }) ≡ wire_over whole (record doors { coming = two }) }
{}
