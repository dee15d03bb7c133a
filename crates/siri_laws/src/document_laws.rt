//! What holds of the commands over one document: the function has a law for its clause, and does nothing when it is
//! called.

ghost use Rattle.std.specs.Prelude.{◌≡◌, ℕ, ◌≤◌, List, length};
ghost use Rattle.siri_base.specs.declared.status.Status.TheVariants as status;
ghost use Rattle.siri_document.specs.OneDocument.{convert_text};
ghost use Rattle.siri_json.specs.Tree.{longest_document};

/// Converting twice is converting once: where a document is converted and what is written of it, its line feed
/// included, has at most 8,388,608 bytes, converting that text writes the same text and ends with the same status.
pub fn converting_twice_is_converting_once()
    ensures { (document : List ℕ) → (convert_text document).status ≡ status.Done → length (convert_text document).text ≤ longest_document → convert_text (convert_text document).text ≡ convert_text document }
{}
