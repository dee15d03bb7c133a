//! Where a head text ends.

ghost use Rattle.std.specs.Prelude.{◌≡◌, ◌≤◌, ◌+◌, ◌++◌, ℕ, List, length, IfSome, IfNone, IsNone, Some, None, if◌then◌else◌};
ghost use Rattle.siri_http.specs.inner.Scanning.{is_empty, line_after, ends_head, after_byte, head_from, fresh};

/// What came of the line that has begun.
#[derive(Clone, Copy, Debug)]
pub(crate) enum Line {
    /// Nothing yet.
    Nothing,
    /// A CR alone.
    Return,
    /// More than that.
    Text,
}

impl Line {
    /// The line with one more byte, which doesn't end it.
    fn after(self, byte: u8) -> Line
        ensures { result ≡ line_after self byte }
    {
        match self {
            Line::Nothing if byte == b'\r' => Line::Return,
            _ => Line::Text,
        }
    }

    /// Whether it is an empty line, where it ends here.
    fn is_empty(self) -> bool
        ensures { result ≡ is_empty self }
    {
        !matches!(self, Line::Text)
    }
}

/// A head text, as it stands at the front of an input.
#[derive(Clone, Copy, Debug)]
pub(crate) struct HeadText {
    /// How many bytes it has.
    pub len: usize,
    /// How many of its lines aren't empty.
    pub full: usize,
}

/// How far an input was read that has no whole head text yet.
#[derive(Clone, Copy, Debug)]
pub(crate) struct Scan {
    /// How many bytes came.
    pub len: usize,
    /// How many lines that aren't empty have ended.
    pub full: usize,
    /// The line that has begun.
    pub line: Line,
}

impl Scan {
    /// Nothing came yet.
    pub(crate) fn new() -> Scan
        ensures { result ≡ fresh }
    {
        Scan {
            len: 0,
            full: 0,
            line: Line::Nothing,
        }
    }

    /// Takes the next byte, and gives the head text where it ends with it.
    #[tactic(auto, unfolding(crate::specs::inner::Scanning::ends_head, crate::specs::inner::Scanning::after_byte))]
    fn take(&mut self, byte: u8) -> Option<HeadText>
        requires some { self.old.full ≤ self.old.len }
        requires bound { self.old.len + 1 ≤ 16384 }
        ensures found { result ≡ (if ends_head self.old byte then Some (record { len = self.old.len + 1; full = self.old.full }) else None) }
        ensures more { IsNone result → self.new ≡ after_byte self.old byte }
        ensures some { self.new.full ≤ self.new.len }
        ensures len { IsNone result → self.new.len ≡ self.old.len + 1 }
    {
        let len = self.len + 1;
        if byte != b'\n' {
            self.line = self.line.after(byte);
        } else if !self.line.is_empty() {
            self.full += 1;
            self.line = Line::Nothing;
        } else if self.full > 0 {
            return Some(HeadText {
                len,
                full: self.full,
            });
        } else {
            self.line = Line::Nothing;
        }
        self.len = len;
        None
    }

    /// Takes the next bytes, and gives the head text where it ends among them.
    pub(crate) fn advance(&mut self, mut piece: &[u8]) -> Option<HeadText>
        requires some { self.old.full ≤ self.old.len }
        requires bound { self.old.len + length piece.now ≤ 16384 }
        ensures found { IfSome result (λ head. (rest : List ℕ) → head_from self.old (piece.entry.now ++ rest) ≡ Some head) }
        ensures within { IfSome result (λ head. head.len ≤ self.old.len + length piece.entry.now) }
        ensures more { IfNone result ((rest : List ℕ) → head_from self.old (piece.entry.now ++ rest) ≡ head_from self.new rest) }
        ensures some { IfNone result (self.new.full ≤ self.new.len) }
        ensures len { IfNone result (self.new.len ≡ self.old.len + length piece.entry.now) }
    {
        while let [byte, later @ ..] = piece {
            if let Some(head) = self.take(*byte) {
                return Some(head);
            }
            piece = later;
        }
        None
    }
}
