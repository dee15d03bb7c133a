//! How values and rows are written: the rules of [`crate::rules`], the other way round. What is written stands behind
//! what was written before. The rows of an object are written in byte order of their names, which is seldom the order
//! of its table.

ghost use Rattle.std.specs.Prelude.{◌≡◌, [], ◌∷◌, ◌++◌, Option, OnOk, option_and_then};
ghost use Rattle.std.specs.List.{filter_map};
ghost use Rattle.serde_json.specs.Data.{Data, no_members};
ghost use Rattle.siri_tables.specs.Appended.{row_tokens, entries_tokens, Appends, AppendsRow};
ghost use Rattle.siri_tables.specs.Writing.{with_rows, object_unless_empty, written_list, written_text, written_flag, written_number, written_moment, written_span, written_decimal, decimal_text, written_name};
ghost use Rattle.json.specs.Token.{string};

use crate::rules::{DecimalRule, FlagRule, MomentRule, NameRule, NumberRule, SpanRule, TextRule};
use crate::scalars::write_decimal;
use siri_base::{List, Moment, Name, OutOfMemory, Span, Text};
use siri_json::Output;
use siri_time::{write_moment, write_span, written_moment_is_ascii, written_span_is_ascii};

/// How a value is written that is never left out.
pub trait Written {
    /// The values that are written.
    type Of;

    /// What a value is written as. It is something of every value.
    ghost writing: { Self.Of → Option Data };

    /// Writes what `writing` gives of a value, behind what was written before.
    fn write(out: &mut Output, value: &Self::Of) -> Result<(), OutOfMemory>
        ensures { OnOk result (Appends (writing value.now) out.old out.new) };
}

/// Writes the row of a value that is there.
pub fn required<R: Written>(out: &mut Output, name: &str, value: &R::Of) -> Result<(), OutOfMemory>
    ensures { OnOk result (out.new ≡ out.old ++ row_tokens name.now (R.writing value.now)) }
{
    out.key(name)?;
    R::write(out, value)
}

/// Writes the row of a value that may be absent: it is left out where there is none.
pub fn optional<R: Written>(
    out: &mut Output,
    name: &str,
    value: &Option<R::Of>,
) -> Result<(), OutOfMemory>
    ensures { OnOk result (out.new ≡ out.old ++ row_tokens name.now (option_and_then R.writing value.now)) }
{
    match value {
        Some(value) => required::<R>(out, name, value),
        None => Ok(()),
    }
}

/// Writes the row of a list, entry by entry; it is left out where it would be empty.
#[tactic(auto, using(crate::proofs::Appended::row_is), unfolding(crate::specs::Writing::written_list))]
pub fn list<R: Written>(
    out: &mut Output,
    name: &str,
    values: &List<R::Of>,
) -> Result<(), OutOfMemory>
    ensures { OnOk result (out.new ≡ out.old ++ row_tokens name.now (written_list R.writing values.now)) }
{
    match values.slice().split_first() {
        Some((first, rest)) => filled_list::<R>(out, name, first, rest),
        None => Ok(()),
    }
}

/// Writes the row of an object whose one row is a list; it is left out where the list would be empty.
#[tactic(auto, using(crate::proofs::Appended::row_appended), unfolding(crate::specs::Writing::written_list))]
pub fn list_inside<R: Written>(
    out: &mut Output,
    outer: &str,
    name: &str,
    values: &List<R::Of>,
) -> Result<(), OutOfMemory>
    ensures { OnOk result (out.new ≡ out.old ++ row_tokens outer.now
        (object_unless_empty (with_rows no_members ((name.now, written_list R.writing values.now) ∷ [])))) }
{
    let Some((first, rest)) = values.slice().split_first() else {
        return Ok(());
    };
    out.key(outer)?;
    object_of_list::<R>(out, name, first, rest)
}

/// Writes an object whose one row is a list that has entries.
#[tactic(auto, using(crate::proofs::Appended::object_appended))]
pub fn object_of_list<R: Written>(
    out: &mut Output,
    name: &str,
    first: &R::Of,
    rest: &[R::Of],
) -> Result<(), OutOfMemory>
    ensures { OnOk result (Appends (object_unless_empty (with_rows no_members
        ((name.now, written_list R.writing (first.now ∷ rest.now)) ∷ []))) out.old out.new) }
{
    out.begin_object()?;
    filled_list::<R>(out, name, first, rest)?;
    out.end_object()
}

/// Writes the row of a list that has entries, entry by entry.
#[tactic(auto, using(crate::proofs::Appended::list_appended), unfolding(crate::specs::Writing::written_list))]
fn filled_list<R: Written>(
    out: &mut Output,
    name: &str,
    first: &R::Of,
    rest: &[R::Of],
) -> Result<(), OutOfMemory>
    ensures { OnOk result (AppendsRow name.now (written_list R.writing (first.now ∷ rest.now)) out.old out.new) }
{
    out.key(name)?;
    out.begin_list()?;
    R::write(out, first)?;
    entries::<R>(out, rest)?;
    out.end_list()
}

/// Writes these values as the further entries of a list that is begun.
#[tactic(auto, using(crate::proofs::Appended::entry_appended))]
fn entries<R: Written>(out: &mut Output, values: &[R::Of]) -> Result<(), OutOfMemory>
    ensures { OnOk result (out.new ≡ out.old ++ entries_tokens (filter_map R.writing values.now)) }
{
    for value in values {
        R::write(out, value)?;
    }
    Ok(())
}

/// Writes a name in an object of its own.
#[tactic(auto, using(crate::proofs::Appended::name_in_order), unfolding(crate::specs::Writing::written_name))]
pub fn name_inside(out: &mut Output, inner: &str, name: &Name) -> Result<(), OutOfMemory>
    ensures { OnOk result (Appends (written_name inner.now name.now) out.old out.new) }
{
    out.begin_object()?;
    required::<NameRule>(out, inner, name)?;
    out.end_object()
}

impl Written for NameRule {
    type Of = Name;

    ghost writing = { written_text };

    fn write(out: &mut Output, name: &Name) -> Result<(), OutOfMemory> {
        out.text(name.text())
    }
}

impl Written for TextRule {
    type Of = Text;

    ghost writing = { written_text };

    fn write(out: &mut Output, text: &Text) -> Result<(), OutOfMemory> {
        out.text(text.text())
    }
}

impl Written for FlagRule {
    type Of = bool;

    ghost writing = { written_flag };

    fn write(out: &mut Output, flag: &bool) -> Result<(), OutOfMemory> {
        out.flag(*flag)
    }
}

impl Written for NumberRule {
    type Of = u64;

    ghost writing = { written_number };

    fn write(out: &mut Output, number: &u64) -> Result<(), OutOfMemory> {
        out.number(*number)
    }
}

impl Written for MomentRule {
    type Of = Moment;

    ghost writing = { written_moment };

    fn write(out: &mut Output, moment: &Moment) -> Result<(), OutOfMemory> {
        let mut buffer = [0u8; 24];
        let length = write_moment(*moment, &mut buffer);
        written_moment_is_ascii(*moment);
        match std::str::from_utf8(&buffer[..length]) {
            Ok(text) => out.text(text),
            Err(_) => unreachable!(),
        }
    }
}

impl Written for SpanRule {
    type Of = Span;

    ghost writing = { written_span };

    fn write(out: &mut Output, span: &Span) -> Result<(), OutOfMemory> {
        let mut buffer = [0u8; 32];
        let length = write_span(*span, &mut buffer);
        written_span_is_ascii(*span);
        match std::str::from_utf8(&buffer[..length]) {
            Ok(text) => out.text(text),
            Err(_) => unreachable!(),
        }
    }
}

impl Written for DecimalRule {
    type Of = i64;

    ghost writing = { written_decimal };

    fn write(out: &mut Output, units: &i64) -> Result<(), OutOfMemory> {
        decimal(out, *units)
    }
}

/// Writes so many 10^-7 degrees as a string, in degrees.
fn decimal(out: &mut Output, units: i64) -> Result<(), OutOfMemory>
    ensures { OnOk result (out.new ≡ out.old ++ string (decimal_text units) ∷ []) }
{
    let mut buffer = [0u8; 24];
    let length = write_decimal(units, &mut buffer);
    match std::str::from_utf8(&buffer[..length]) {
        Ok(text) => out.text(text),
        Err(_) => unreachable!(),
    }
}
