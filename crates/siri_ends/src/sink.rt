//! Where the text of an answer goes, piece by piece: it is measured, or written to a connection.

ghost use Rattle.std.specs.Prelude.{◌≡◌, ◌++◌, ℕ, List, [], Result, Ok, Err, IfErr, IfOk, IfSome, true, ⊤};
ghost use Rattle.siri_http.specs.declared.errors.HttpError.{HttpError};
ghost use Rattle.siri_http.specs.declared.errors.HttpError.TheVariants as http;
ghost use Rattle.siri_http.specs.HttpCauses.{EndsWrite};
ghost use Rattle.siri_ends.specs.Sinks.{Gathers, Measures};
ghost use Rattle.siri_ends.specs.SinkLaws as law;

use siri_base::{OutOfMemory, append};
use siri_http::{HttpError, write_piece};
use siri_outside::Wire;
use std::alloc::Global;

/// How many bytes are gathered at least before they are written: a write is a call of the system, and a piece is short.
const GATHERED: usize = 16_384;

/// How many bytes of a text are kept at most where its length is taken.
const MOST_KEPT: u64 = 524_288;

/// Room for the text of most answers, in bytes: it is taken at once, and not many times.
const ROOM: usize = 65_536;

/// Where a text goes, piece by piece, together with the bytes that are gathered and didn't go there yet.
pub(crate) trait Sink {
    /// Whether a piece can be put.
    ghost is_ready: { Self → Type 0 };

    /// What becomes of it and of the gathered bytes where a text is put with this result.
    ghost takes: { Self × List ℕ → Self × List ℕ → List ℕ → Result (Unit {0}) HttpError → Type 0 };

    /// Puts a piece after what was put before.
    fn put(&mut self, gathered: &mut Vec<u8>, piece: &[u8]) -> Result<(), HttpError>
        requires { is_ready self.old }
        ensures ready { is_ready self.new }
        ensures takes { takes (self.old, gathered.old.items) (self.new, gathered.new.items) piece.now result }
        ensures ends { IfErr result EndsWrite };

    /// Nothing is put where nothing is done.
    ghost takes_none: { (s : Self × List ℕ) → takes s s [] (Ok tt) };

    /// A text, and then another.
    ghost takes_both: { (x y z : Self × List ℕ) (text more : List ℕ) (result : Result (Unit {0}) HttpError)
        → takes x y text (Ok tt) → takes y z more result → takes x z (text ++ more) result };

    /// A text that wasn't put whole is the front of a longer one.
    ghost takes_first: { (x y : Self × List ℕ) (text more : List ℕ) (error : HttpError)
        → takes x y text (Err error) → takes x y (text ++ more) (Err error) };

    /// Memory was wanting for the text.
    ghost takes_nothing: { (s : Self × List ℕ) (text : List ℕ) → takes s s text (Err http.OutOfMemory) };
}

/// Takes the length of a text, and keeps the text where it is short, so that it needn't be made again. Where its bytes would
/// pass 2^64 - 1 it answers `OutOfMemory`.
#[derive(Drop)]
pub(crate) struct Measure {
    bytes: u64,
    /// Whether all that was put is gathered.
    is_kept: bool,
}

impl Measure {
    /// Of nothing.
    pub(crate) fn new() -> Measure
        ensures { result ≡ record { bytes = 0; is_kept = true } }
    {
        Measure {
            bytes: 0,
            is_kept: true,
        }
    }

    /// Where a text that is measured is gathered.
    pub(crate) fn room(alloc: Global) -> Result<Vec<u8>, OutOfMemory>
        ensures { IfOk result (λ room. room.items ≡ []) }
    {
        Ok(Vec::with_capacity(alloc, ROOM)?)
    }

    /// What it came to, with what was gathered.
    pub(crate) fn end(self, gathered: Vec<u8>) -> Measured
        ensures length { result.length ≡ self.bytes }
        ensures text { IfSome result.text (λ text. (self.is_kept ≡ true) × (text.items ≡ gathered.items)) }
    {
        Measured {
            length: self.bytes,
            text: if self.is_kept { Some(gathered) } else { None },
        }
    }
}

/// The length of a text in bytes, and the text itself where it is short.
#[derive(Drop)]
pub(crate) struct Measured {
    pub(crate) length: u64,
    pub(crate) text: Option<Vec<u8>>,
}

impl Sink for Measure {
    ghost is_ready = { λ s. ⊤ };

    ghost takes = { λ x y text result. Measures (x.0.bytes, x.0.is_kept, x.1) (y.0.bytes, y.0.is_kept, y.1) text result };

    fn put(&mut self, gathered: &mut Vec<u8>, piece: &[u8]) -> Result<(), HttpError> {
        let Some(bytes) = self.bytes.checked_add(piece.len() as u64) else {
            return Err(HttpError::OutOfMemory);
        };
        if self.is_kept && bytes <= MOST_KEPT {
            append(gathered, piece)?;
        } else {
            self.is_kept = false;
            gathered.clear();
        }
        self.bytes = bytes;
        Ok(())
    }

    ghost takes_none = { λ s. law.measures_none (s.0.bytes, s.0.is_kept, s.1) };

    ghost takes_both = { λ x y z text more result first then.
        law.measures_both (x.0.bytes, x.0.is_kept, x.1) (y.0.bytes, y.0.is_kept, y.1) (z.0.bytes, z.0.is_kept, z.1) text more result first then };

    ghost takes_first = { λ x y text more error first. tt };

    ghost takes_nothing = { λ s text. tt };
}

/// A wire writes to the connection that is there, where enough is gathered.
impl<W: Wire> Sink for W {
    ghost is_ready = { λ s. W.is_open s };

    ghost takes = { λ x y text result. Gathers text result x.1 y.1 (W.tells x.0) (W.tells y.0) (W.faults x.0) (W.faults y.0) };

    fn put(&mut self, gathered: &mut Vec<u8>, piece: &[u8]) -> Result<(), HttpError> {
        append(gathered, piece)?;
        if gathered.len() < GATHERED {
            return Ok(());
        }
        write_piece(self, gathered)?;
        gathered.clear();
        Ok(())
    }

    ghost takes_none = { λ s. law.gathers_none s.1 (W.tells s.0) (W.faults s.0) };

    ghost takes_both = { λ x y z text more result first then.
        law.gathers_both text more result x.1 y.1 z.1 (W.tells x.0) (W.tells y.0) (W.tells z.0) (W.faults x.0) (W.faults y.0) (W.faults z.0) first then };

    ghost takes_first = { λ x y text more error first.
        law.gathers_first text more error x.1 y.1 (W.tells x.0) (W.tells y.0) (W.faults x.0) (W.faults y.0) first };

    ghost takes_nothing = { λ s text. law.gathers_nothing text s.1 (W.tells s.0) (W.faults s.0) };
}
