//! Lines that come in pieces.

ghost use Rattle.std.specs.Prelude.{◌≡◌, ◌≤◌, ◌<◌, ◌+◌, ◌∷◌, ◌++◌, [], length, take, OnOk, IfErr, IsErrOf};
ghost use Rattle.std.specs.Str.Lines.{strip_carriage_return};
ghost use Rattle.siri_outside.specs.MetFailures.{SinkMeets, is_write_fault};
ghost use Rattle.siri_lines.specs.RunResult.{verdict};
ghost use Rattle.siri_lines.specs.Ends.{HasNoBreak};
ghost use Rattle.siri_lines.specs.declared.stop.Stop.TheVariants as stop;
ghost use Rattle.siri_lines.specs.Brings.{StopCause, has_failed_to_write};
ghost use Rattle.siri_lines.specs.inner.Reading.{Advances, Breaks, Finishes, GoesToEnd, LineBreaks, TakesLine};
ghost use Rattle.siri_lines.specs.inner.Standing.{EndCause, HasNoRoom, InEachWorld, IsWithin, Leads, room};

use crate::{LineTaker, Stop};
use memchr::memchr;
use siri_base::Status;
use siri_outside::Sink;
use std::alloc::Global;

/// The most bytes that a line may have, its end left out.
const LONGEST_LINE: usize = 1_048_576;

/// The most bytes of a line that are kept: a carriage return may follow the longest line.
const MOST_KEPT: usize = LONGEST_LINE + 1;

/// Lines of which some bytes have come.
#[derive(Drop)]
pub(crate) struct Reader {
    /// The most lines that there may be.
    most: u64,
    /// How many lines have ended.
    lines: u64,
    /// The bytes of the line that has begun.
    line: Vec<u8>,
}

impl Reader {
    /// Nothing has come. There may be so many lines at most, up to 1,000,000. It takes no memory.
    pub(crate) fn new(alloc: Global, most: u64) -> Self
        requires { most ≤ 1000000 }
        ensures start { (result.lines ≡ 0) × (result.line.items ≡ []) }
        ensures most { result.most ≡ most }
        ensures within { IsWithin result }
    {
        Reader {
            most,
            lines: 0,
            line: Vec::new(alloc),
        }
    }

    /// Takes the next piece, and has the lines that end in it taken.
    pub(crate) fn take<T: LineTaker, K: Sink>(
        &mut self,
        taker: &mut T,
        piece: &[u8],
        sink: &mut K,
    ) -> Result<(), Stop>
        requires { IsWithin self.old }
        ensures ok { OnOk result (Leads T.fits taker.old self.old taker.new self.new (λ from to.
            Advances (verdict self.old.most T.event) (K.held sink.old) from piece.now (K.held sink.new) to)) }
        ensures err { IfErr result (λ stop. InEachWorld T.fits taker.old self.old (λ from.
            Breaks (verdict self.old.most T.event) (K.held sink.old) from piece.now (K.held sink.new) stop)) }
        ensures most { self.new.most ≡ self.old.most }
        ensures within { OnOk result (IsWithin self.new) }
        ensures room { OnOk result (room self.new + length piece.now ≤ room self.old) }
        ensures cause { StopCause (K.faults sink.old) (K.faults sink.new) result }
        ensures meets { SinkMeets (has_failed_to_write result) (K.held sink.old) (K.held sink.new) (K.fails sink.old) (K.fails sink.new) }
    {
        let mut rest = piece;
        while let Some(end) = memchr(b'\n', rest) {
            self.end_run(taker, &rest[..end], sink)?;
            rest = rest.split_at(end + 1).1;
        }
        self.push(rest)
    }

    /// The input has ended: has its last line taken, where no line feed ended it.
    pub(crate) fn finish<T: LineTaker, K: Sink>(&mut self, taker: &mut T, sink: &mut K) -> Status
        requires { IsWithin self.old }
        ensures ends { InEachWorld T.fits taker.old self.old (λ from.
            Finishes (verdict self.old.most T.event) (K.held sink.old) from (K.held sink.new) result) }
        ensures stands { result ≡ Status.Done → Leads T.fits taker.old self.old taker.new self.new (GoesToEnd (verdict self.old.most T.event)) }
        ensures cause { EndCause (K.faults sink.old) (K.faults sink.new) result }
        ensures meets { SinkMeets (is_write_fault result) (K.held sink.old) (K.held sink.new) (K.fails sink.old) (K.fails sink.new) }
    {
        if self.line.is_empty() {
            return Status::Done;
        }
        let ended = self.line.len();
        match self.end_line(taker, ended, sink) {
            Ok(()) => Status::Done,
            Err(stop) => Status::from(stop),
        }
    }

    /// The next bytes have no line feed, and one follows them.
    fn end_run<T: LineTaker, K: Sink>(
        &mut self,
        taker: &mut T,
        run: &[u8],
        sink: &mut K,
    ) -> Result<(), Stop>
        requires within { IsWithin self.old }
        requires run { HasNoBreak run.now }
        ensures ok { OnOk result (Leads T.fits taker.old self.old taker.new self.new (λ from to.
            Advances (verdict self.old.most T.event) (K.held sink.old) from (run.now ++ 10 ∷ []) (K.held sink.new) to)) }
        ensures err { IfErr result (λ stop. InEachWorld T.fits taker.old self.old (λ from.
            Breaks (verdict self.old.most T.event) (K.held sink.old) from (run.now ++ 10 ∷ []) (K.held sink.new) stop)) }
        ensures memory { IsErrOf result stop.OutOfMemory → length (self.old.line.items ++ run.now) ≤ 1048577 }
        ensures most { self.new.most ≡ self.old.most }
        ensures within { OnOk result (IsWithin self.new) }
        ensures room { OnOk result (room self.new + length run.now < room self.old) }
        ensures cause { StopCause (K.faults sink.old) (K.faults sink.new) result }
        ensures meets { SinkMeets (has_failed_to_write result) (K.held sink.old) (K.held sink.new) (K.fails sink.old) (K.fails sink.new) }
    {
        self.push(run)?;
        let ended = without_return(&self.line);
        self.end_line(taker, ended, sink)
    }

    /// The next bytes have no line feed: they are kept.
    fn push(&mut self, run: &[u8]) -> Result<(), Stop>
        requires { IsWithin self.old }
        ensures ok { OnOk result ((self.new.line.items ≡ self.old.line.items ++ run.now) × (length self.new.line.items ≤ 1048577)) }
        ensures err { IfErr result (λ stop. HasNoRoom self.old run.now stop) }
        ensures lines { self.new.lines ≡ self.old.lines }
        ensures most { self.new.most ≡ self.old.most }
    {
        if run.len() > MOST_KEPT - self.line.len() {
            return Err(Stop::Limit {
                line: self.lines + 1,
            });
        }
        match self.line.extend_from_slice(run) {
            Ok(()) => Ok(()),
            Err(_) => Err(Stop::OutOfMemory),
        }
    }

    /// The line has ended: its first `ended` bytes, without its end, are taken. Its length is tested first, then its
    /// number.
    fn end_line<T: LineTaker, K: Sink>(
        &mut self,
        taker: &mut T,
        ended: usize,
        sink: &mut K,
    ) -> Result<(), Stop>
        requires within { IsWithin self.old }
        requires ended { ended ≤ length self.old.line.items }
        ensures ok { OnOk result (Leads T.fits taker.old self.old taker.new self.new (λ from to.
            TakesLine (verdict self.old.most T.event) (K.held sink.old) from (take ended self.old.line.items) (K.held sink.new) to)) }
        ensures err { IfErr result (λ stop. InEachWorld T.fits taker.old self.old (λ from.
            LineBreaks (verdict self.old.most T.event) (K.held sink.old) from (take ended self.old.line.items) (K.held sink.new) stop)) }
        ensures memory { IsErrOf result stop.OutOfMemory → (ended ≤ 1048576) × (self.old.lines < self.old.most) }
        ensures most { self.new.most ≡ self.old.most }
        ensures empty { OnOk result ((self.new.line.items ≡ []) × (self.new.lines ≡ self.old.lines + 1) × (self.new.lines ≤ self.new.most)) }
        ensures cause { StopCause (K.faults sink.old) (K.faults sink.new) result }
        ensures meets { SinkMeets (has_failed_to_write result) (K.held sink.old) (K.held sink.new) (K.fails sink.old) (K.fails sink.new) }
    {
        let number = self.lines + 1;
        if ended > LONGEST_LINE || number > self.most {
            return Err(Stop::Limit { line: number });
        }
        taker.take_line(number, &self.line[..ended], sink)?;
        self.lines = number;
        self.line.clear();
        Ok(())
    }
}

/// The length of a line without the one carriage return at its end.
fn without_return(line: &[u8]) -> usize
    ensures length { result ≤ length line.now }
    ensures front { take result line.now ≡ strip_carriage_return line.now }
{
    match line.split_last() {
        Some((b'\r', front)) => front.len(),
        _ => line.len(),
    }
}
