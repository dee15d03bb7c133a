//! What a line is, before its words are read.

ghost use Rattle.std.specs.Prelude.{◌≡◌};
ghost use Rattle.std.specs.Str.{is_utf8};
ghost use Rattle.siri_document.specs.script.Lines.{is_skipped};

/// Whether a line is skipped: it is empty, or begins with `#`.
pub fn is_skipped(line: &[u8]) -> bool
    ensures { result ≡ is_skipped line.now }
{
    match line.first() {
        Some(first) => *first == b'#',
        None => true,
    }
}

/// Whether a line is UTF-8.
pub fn is_text(line: &[u8]) -> bool
    ensures { result ≡ is_utf8 line.now }
{
    std::str::from_utf8(line).is_ok()
}
