//! A message as it comes, and whether it is whole. This is asked for patience alone: whoever reads the message decides
//! what it is, and reads on where it was handed over too early.

use std::alloc::{AllocError, Global};

/// The most bytes that a head may have: of a longer one no more is waited for.
const LONGEST_HEAD: usize = 16_384;

/// The most bytes that a body may have: of a longer one the head is enough, which refuses it.
const LONGEST_BODY: usize = 8_388_608;

/// The name of the field that says how long the body is, and its colon.
const LENGTH_FIELD: &[u8] = b"content-length:";

/// What came of the line of a head that has begun.
#[derive(Clone, Copy)]
enum Line {
    /// Nothing yet.
    Nothing,
    /// A CR alone.
    Return,
    /// More than that.
    Text,
}

/// A request or a response, as far as it came.
#[derive(Drop)]
pub(crate) struct Message {
    bytes: Vec<u8>,
    line: Line,
    /// Whether a line came that isn't empty: empty ones before it are no part of a head.
    has_line: bool,
    /// How many bytes are waited for, once that is known.
    wanted: Option<usize>,
}

impl Message {
    /// Nothing yet.
    pub(crate) fn new(alloc: Global) -> Message {
        Message {
            bytes: Vec::new(alloc),
            line: Line::Nothing,
            has_line: false,
            wanted: None,
        }
    }

    /// Takes the next bytes. After an error there is no memory for them.
    pub(crate) fn take(&mut self, piece: &[u8]) -> Result<(), AllocError> {
        let before = self.bytes.len();
        self.make_room(piece.len())?;
        self.bytes.extend_from_slice(piece)?;
        if self.wanted.is_none() {
            if let Some(count) = self.head_end(piece) {
                let head = self.bytes.get(..before.saturating_add(count));
                self.wanted = head.map(wanted_by);
            } else if self.bytes.len() >= LONGEST_HEAD {
                self.wanted = Some(0);
            }
        }
        Ok(())
    }

    /// Makes room for so many more bytes: twice as much as there was, and no more than is waited for.
    fn make_room(&mut self, count: usize) -> Result<(), AllocError> {
        let len = self.bytes.len();
        if count <= self.bytes.capacity().saturating_sub(len) {
            return Ok(());
        }
        let most = match self.wanted {
            Some(wanted) => wanted.saturating_sub(len).min(len),
            None => len,
        };
        self.bytes.reserve_exact(most.max(count))
    }

    /// How many of the next bytes belong to the head, where it ends among them.
    fn head_end(&mut self, piece: &[u8]) -> Option<usize> {
        for (place, byte) in piece.iter().enumerate() {
            match (*byte, self.line) {
                (b'\n', Line::Text) => {
                    self.has_line = true;
                    self.line = Line::Nothing;
                }
                (b'\n', _) if self.has_line => return Some(place.saturating_add(1)),
                (b'\n', _) => self.line = Line::Nothing,
                (b'\r', Line::Nothing) => self.line = Line::Return,
                _ => self.line = Line::Text,
            }
        }
        None
    }

    /// Whether no more is waited for.
    pub(crate) fn is_whole(&self) -> bool {
        match self.wanted {
            Some(wanted) => wanted <= self.bytes.len(),
            None => false,
        }
    }

    /// How many bytes came.
    pub(crate) fn len(&self) -> usize {
        self.bytes.len()
    }

    /// The bytes that came.
    pub(crate) fn into_bytes(self) -> Vec<u8> {
        let Message { bytes, .. } = self;
        bytes
    }
}

/// The number that a text is, where it is one of decimal digits.
fn number_of(text: &[u8]) -> Option<usize> {
    let mut number: usize = 0;
    for byte in text {
        match *byte {
            digit @ b'0'..=b'9' => {
                number = number
                    .saturating_mul(10)
                    .saturating_add(usize::from(digit - b'0'));
            }
            _ => return None,
        }
    }
    Some(number)
}

/// What a line says of the length of the body, where it does; a length that is none is above each bound.
fn length_in(line: &[u8]) -> Option<usize> {
    let name = line.get(..LENGTH_FIELD.len())?;
    if !name.eq_ignore_ascii_case(LENGTH_FIELD) {
        return None;
    }
    let value = line.get(LENGTH_FIELD.len()..)?.trim_ascii();
    Some(number_of(value).unwrap_or(usize::MAX))
}

/// How many bytes a message of this head has that are waited for, whatever its method is. No body is waited for whose
/// length is told twice, or is none, or too great, since the head decides then.
fn wanted_by(head: &[u8]) -> usize {
    let mut body = None;
    for line in head.split(|byte: &u8| *byte == b'\n') {
        match (length_in(line), body) {
            (Some(_), Some(_)) => return head.len(),
            (Some(length), None) => body = Some(length),
            (None, _) => {}
        }
    }
    match body {
        Some(length) if length <= LONGEST_BODY => head.len().saturating_add(length),
        _ => head.len(),
    }
}
