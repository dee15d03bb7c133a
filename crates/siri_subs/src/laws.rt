//! What follows from the definitions of the table.

ghost use Rattle.std.specs.Prelude.{◌≡◌, ℕ, List, find};
ghost use Rattle.siri_subs.specs.declared.entry.Row.{Row};
ghost use Rattle.siri_subs.specs.Mapped.{mapped_row, with_mapped_slots};
ghost use Rattle.siri_subs.specs.Table.{accepted, answer, ended, expired, is_ended_by, is_of, number_of, place_of, put, renumber_answer, renumbered, without};

/// A law, which does nothing when it is called: the table never looks into a slot. So a table whose slots are mapped
/// answers as the table itself, and is after each change what the changed table is, mapped.
pub fn slots_decide_nothing<E, F>()
    ensures answer { (slot_of : E → F) (now : ℕ) (h : Row E) (table : List (Row E))
        → answer now (mapped_row slot_of h) (with_mapped_slots slot_of table) ≡ answer now h table }
    ensures accepted { (slot_of : E → F) (now : ℕ) (h : Row E) (table : List (Row E))
        → accepted now (mapped_row slot_of h) (with_mapped_slots slot_of table) ≡ with_mapped_slots slot_of (accepted now h table) }
    ensures put { (slot_of : E → F) (h : Row E) (table : List (Row E))
        → put (mapped_row slot_of h) (with_mapped_slots slot_of table) ≡ with_mapped_slots slot_of (put h table) }
    ensures is_ended_by { (slot_of : E → F) (number : ℕ) (subscriber identifier : List ℕ) (table : List (Row E))
        → is_ended_by number subscriber identifier (with_mapped_slots slot_of table) ≡ is_ended_by number subscriber identifier table }
    ensures ended { (slot_of : E → F) (number : ℕ) (subscriber identifier : List ℕ) (table : List (Row E))
        → ended number subscriber identifier (with_mapped_slots slot_of table) ≡ with_mapped_slots slot_of (ended number subscriber identifier table) }
    ensures without { (slot_of : E → F) (subscriber identifier : List ℕ) (table : List (Row E))
        → without subscriber identifier (with_mapped_slots slot_of table) ≡ with_mapped_slots slot_of (without subscriber identifier table) }
    ensures expired { (slot_of : E → F) (now : ℕ) (table : List (Row E))
        → expired now (with_mapped_slots slot_of table) ≡ with_mapped_slots slot_of (expired now table) }
    ensures renumbered { (slot_of : E → F) (number base : ℕ) (subscriber identifier : List ℕ) (slot : E) (table : List (Row E))
        → renumbered number base subscriber identifier (slot_of slot) (with_mapped_slots slot_of table) ≡ with_mapped_slots slot_of (renumbered number base subscriber identifier slot table) }
    ensures renumber_answer { (slot_of : E → F) (number base : ℕ) (subscriber identifier : List ℕ) (table : List (Row E))
        → renumber_answer number base (find (is_of subscriber identifier) (with_mapped_slots slot_of table)) ≡ renumber_answer number base (find (is_of subscriber identifier) table) }
    ensures number { (slot_of : E → F) (subscriber identifier : List ℕ) (table : List (Row E))
        → number_of subscriber identifier (with_mapped_slots slot_of table) ≡ number_of subscriber identifier table }
    ensures place { (slot_of : E → F) (subscriber identifier : List ℕ) (table : List (Row E))
        → place_of subscriber identifier (with_mapped_slots slot_of table) ≡ place_of subscriber identifier table }
{}
