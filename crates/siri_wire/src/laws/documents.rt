//! What holds of documents: each function has laws for its clauses, and does nothing when it is called.

ghost use Rattle.std.specs.Prelude.{◌≡◌, ◌↔◌, ℕ, ◌≤◌, List, [], ◌∷◌, ◌++◌, length, Ok};
ghost use Rattle.serde_json.specs.Data.{depth};
ghost use Rattle.siri_json.specs.Canonical.{IsCanonical};
ghost use Rattle.siri_messages.specs.declared.message.Message.{Message};
ghost use Rattle.siri_wire.specs.Canonical.{written_message, canonical};
ghost use Rattle.siri_wire.specs.Documents.{message_of};
ghost use Rattle.siri_wire.specs.laws.SpellingDocuments.{SpellsDocument};
ghost use Rattle.siri_wire.specs.laws.ProperMessages.{IsProper};
ghost use Rattle.siri_json.specs.Tree.{longest_document};

/// A document is read as a message exactly where it spells it: it has at most 8,388,608 bytes, its tree is an object,
/// the object at its member Siri holds exactly one message, and in that message's own object the member of each row
/// spells the field's value under the row's rule, or is absent where there is none.
pub fn document_is_spelled()
    ensures { (document : List ℕ) (m : Message) → (message_of document ≡ Ok m) ↔ SpellsDocument document m }
{}

/// What is written of a proper message is a canonical tree of at most 15 lists and objects inside one another.
pub fn written_is_canonical()
    ensures { (m : Message) → IsProper m → IsCanonical (written_message m) × (depth (written_message m) ≤ 15) }
{}

/// The canonical text of a proper message of at most 8,388,608 bytes is a document of that message.
pub fn canonical_is_read()
    ensures { (m : Message) → IsProper m → length (canonical m) ≤ longest_document → message_of (canonical m) ≡ Ok m }
{}

/// The canonical text of a proper message and a line feed, which is what is written of it, are a document of that
/// message too, where they have at most 8,388,608 bytes.
pub fn canonical_line_is_read()
    ensures { (m : Message) → IsProper m → length (canonical m ++ 10 ∷ []) ≤ longest_document → message_of (canonical m ++ 10 ∷ []) ≡ Ok m }
{}

/// A message that a document spells is proper.
pub fn read_is_proper()
    ensures { (document : List ℕ) (m : Message) → message_of document ≡ Ok m → IsProper m }
{}

/// Converting twice is converting once: the canonical text of what a document spells, where it has at most 8,388,608
/// bytes, spells the same message.
pub fn converted_is_read()
    ensures { (document : List ℕ) (m : Message) → message_of document ≡ Ok m → length (canonical m) ≤ longest_document → message_of (canonical m) ≡ Ok m }
{}

/// The same of that text and a line feed: converting once more what was written of a document changes nothing.
pub fn converted_line_is_read()
    ensures { (document : List ℕ) (m : Message) → message_of document ≡ Ok m → length (canonical m ++ 10 ∷ []) ≤ longest_document → message_of (canonical m ++ 10 ∷ []) ≡ Ok m }
{}
