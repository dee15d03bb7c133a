//! What holds of the lines of items: the function has a law for its clause, and does nothing when it is called.

ghost use Rattle.std.specs.Prelude.{◌≡◌};
ghost use Rattle.siri_records.specs.declared.item.Item.{Item};
ghost use Rattle.siri_items.specs.Proper.{IsProper};
ghost use Rattle.siri_document.specs.script.Items.{item_line};

/// The line by which a view lists an item says all of it: two proper items that have the same line are equal in every
/// field.
pub fn item_lines_determine_their_items()
    ensures { (a b : Item) → IsProper a → IsProper b → item_line a ≡ item_line b → a ≡ b }
{}
