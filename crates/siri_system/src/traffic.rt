//! What a connection carries one way, as a line of the log tells it.

use std::fmt;

/// How much of a line is told, in bytes.
const MOST_TOLD: usize = 120;

/// The field of a head whose body is a line for whoever reads it, in small letters.
const PLAIN: &[u8] = b"content-type: text/plain";

/// How far a message has come.
#[derive(Clone, Copy, PartialEq, Eq, Drop)]
enum Passage {
    FirstLine,
    Fields,
    Plain,
    Over,
}

/// The first bytes of a line.
#[derive(Clone, Copy, Drop)]
struct Front {
    bytes: [u8; MOST_TOLD],
    length: usize,
}

impl Front {
    /// No byte yet.
    fn new() -> Front {
        Front {
            bytes: [0; MOST_TOLD],
            length: 0,
        }
    }

    /// One byte more, where there is room for it.
    fn put(&mut self, byte: u8) {
        if let Some(place) = self.bytes.get_mut(self.length) {
            *place = byte;
            self.length = self.length.saturating_add(1);
        }
    }

    /// The bytes that came.
    fn told(&self) -> &[u8] {
        self.bytes.get(..self.length).unwrap_or(&[])
    }
}

/// How many bytes went one way over a connection, the first line of them, and the first line of a body that is plain
/// text, which is what this end says of a refusal.
#[derive(Clone, Copy, Drop)]
pub(crate) struct Traffic {
    bytes: u64,
    first: Front,
    reason: Front,
    passage: Passage,
    /// How much of the line of a field came, and whether it is the front of the field that is looked for.
    column: usize,
    is_plain: bool,
}

impl Traffic {
    /// Nothing yet.
    pub(crate) fn new() -> Traffic {
        Traffic {
            bytes: 0,
            first: Front::new(),
            reason: Front::new(),
            passage: Passage::FirstLine,
            column: 0,
            is_plain: false,
        }
    }

    /// More bytes go.
    pub(crate) fn carry(&mut self, piece: &[u8]) {
        self.bytes = self.bytes.saturating_add(piece.len() as u64);
        for byte in piece {
            match self.passage {
                Passage::FirstLine => self.carry_first(*byte),
                Passage::Fields => self.carry_field(*byte),
                Passage::Plain => self.carry_plain(*byte),
                Passage::Over => return,
            }
        }
    }

    /// A byte of the first line goes.
    fn carry_first(&mut self, byte: u8) {
        match byte {
            b'\r' => {}
            b'\n' => self.passage = Passage::Fields,
            byte => self.first.put(byte),
        }
    }

    /// A byte of the fields goes. An empty line ends them.
    fn carry_field(&mut self, byte: u8) {
        match byte {
            b'\r' => {}
            b'\n' if self.column > 0 => self.column = 0,
            b'\n' if self.is_plain => self.passage = Passage::Plain,
            b'\n' => self.passage = Passage::Over,
            byte => {
                let is_next = PLAIN.get(self.column) == Some(&byte.to_ascii_lowercase());
                self.column = if is_next {
                    self.column.saturating_add(1)
                } else {
                    usize::MAX
                };
                self.is_plain = self.is_plain || self.column == PLAIN.len();
            }
        }
    }

    /// A byte of a body that is plain text goes.
    fn carry_plain(&mut self, byte: u8) {
        match byte {
            b'\r' | b'\n' => self.passage = Passage::Over,
            byte => self.reason.put(byte),
        }
    }

    /// How many bytes went.
    pub(crate) fn bytes(&self) -> u64 {
        self.bytes
    }

    /// The first line, of at most 120 bytes.
    pub(crate) fn first_line(&self) -> Shown<'_> {
        Shown(self.first.told())
    }

    /// The first line of a body that is plain text, of at most 120 bytes, where there is one.
    pub(crate) fn reason(&self) -> Option<Shown<'_>> {
        match self.reason.told() {
            [] => None,
            told => Some(Shown(told)),
        }
    }
}

/// Bytes of whoever is at the other end, as JSON has them between the quotes of a text (RFC 8259): visible ASCII alone,
/// with `"` and `\` behind a `\`, and any other byte as `\u` and its number in four hexadecimal digits.
#[derive(Clone, Copy, Drop)]
pub(crate) struct Shown<'a>(pub(crate) &'a [u8]);

impl fmt::Display for Shown<'_> {
    fn fmt<W: fmt::Write>(&self, f: &mut fmt::Formatter<W>) -> fmt::Result {
        for byte in self.0 {
            match *byte {
                b'"' => f.write_str("\\\"")?,
                b'\\' => f.write_str("\\\\")?,
                byte if byte.is_ascii_graphic() || byte == b' ' => write!(
                    f,
                    "{}",
                    char::from(byte)
                )?,
                byte => write!(f, "\\u{byte:04x}")?,
            }
        }
        Ok(())
    }
}
