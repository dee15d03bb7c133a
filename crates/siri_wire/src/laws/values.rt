//! What holds of rows inside an object of their own, of errors and of lists: each function has laws for its clauses,
//! and does nothing when it is called.

ghost use Rattle.std.specs.Prelude.{◌≡◌, ◌↔◌, ℕ, ℤ, List, Option, Result, Ok};
ghost use Rattle.serde_json.specs.Data.{Data};
ghost use Rattle.siri_tables.specs.Refusals.{Refusal};
ghost use Rattle.siri_tables.specs.Rules.{text, inside, list};
ghost use Rattle.siri_deliveries.specs.declared.names.TheConstants.{ERROR_TEXT};
ghost use Rattle.siri_deliveries.specs.Errors.{other_error};
ghost use Rattle.siri_wire.specs.laws.SpellingValues.{SpellsInside, SpellsErrorCondition, SpellsOtherError, SpellsList};

/// A text or a span that is the only row of an object is read from a value exactly where that object spells it, or
/// where the value counts as absent and nothing is read.
pub fn inner_rows_are_spelled()
    ensures of_text { (rule : Data → Result (Option (List ℕ)) Refusal) (key : List ℕ) (d : Data) (value : Option (List ℕ)) → (inside rule key d ≡ Ok value) ↔ SpellsInside rule key d value }
    ensures of_span { (rule : Data → Result (Option ℤ) Refusal) (key : List ℕ) (d : Data) (value : Option ℤ) → (inside rule key d ≡ Ok value) ↔ SpellsInside rule key d value }
{}

/// The text of an error is read from a value exactly where the value spells it: ErrorCondition is an object with
/// OtherError, and that one with ErrorText.
pub fn errors_are_spelled()
    ensures of_error_condition { (d : Data) (error : Option (List ℕ)) → (other_error d ≡ Ok error) ↔ SpellsErrorCondition d error }
    ensures of_other_error { (d : Data) (error : Option (List ℕ)) → (inside text ERROR_TEXT.now d ≡ Ok error) ↔ SpellsOtherError d error }
{}

/// A list of elements of any type is read from a member exactly where each entry that isn't null spells the element at
/// its place, and there are at most so many.
pub fn lists_are_spelled<A>()
    ensures { (rule : Data → Result (Option A) Refusal) (most : ℕ) (key : List ℕ) (d : Data) (xs : List A) → (list rule most key d ≡ Ok xs) ↔ SpellsList rule most key d xs }
{}
