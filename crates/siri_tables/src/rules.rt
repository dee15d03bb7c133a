//! The rules of rows: what a value in a tree is read as. A rule is a type, so that one type of values may have several
//! rules and tables of other crates may be rules too.

ghost use Rattle.std.specs.Prelude.{Result, Option};
ghost use Rattle.serde_json.specs.Data.{Data};
ghost use Rattle.siri_json.specs.Shown.{shown};
ghost use Rattle.siri_tables.specs.Refusals.{Refusal, Gives};
ghost use Rattle.siri_tables.specs.Rules.{name, text, moment, span, non_negative_span, number, decimal, flag, table};

use crate::refusal::{TableError, refuse};
use crate::scalars;
use siri_base::{Moment, Name, Reason, Span, Text, TextError, number_of};
use siri_json::{ObjectOf, TextOf, Tree, flag_of, object_of, text_of};
use siri_time::{TimeError, read_moment, read_span};
use std::alloc::Global;

/// How a value is read.
pub trait Rule {
    /// What values are read as.
    type Out: Drop;

    /// What a value is read as, nothing where it counts as absent, or the first refusal.
    ghost rule: { Data → Result (Option Self.Out) Refusal };

    /// What `rule` gives of a value; want of memory is told as `OutOfMemory`.
    fn read(alloc: Global, value: &Tree<'_>) -> Result<Option<Self::Out>, TableError>
        ensures { Gives result (rule (shown value.now)) };
}

/// How a value is read beside something else that is known, as who asks for it.
pub trait RuleIn {
    /// What is known.
    type With;

    /// What values are read as.
    type Out: Drop;

    /// What a value is read as where this is known, nothing where it counts as absent, or the first refusal.
    ghost rule_in: { Self.With → Data → Result (Option Self.Out) Refusal };

    /// What `rule_in` gives of a value where `with` is known; want of memory is told as `OutOfMemory`.
    fn read_in(
        alloc: Global,
        with: &Self::With,
        value: &Tree<'_>,
    ) -> Result<Option<Self::Out>, TableError>
        ensures { Gives result (rule_in with.now (shown value.now)) };
}

/// How an object is read, row by row.
pub trait Table {
    /// What objects are read as.
    type Out: Drop;

    /// What the rows of an object spell, or the first refusal.
    ghost rows: { Data → Result Self.Out Refusal };

    /// What `rows` gives of an object; want of memory is told as `OutOfMemory`.
    fn read_rows(alloc: Global, tree: &Tree<'_>) -> Result<Self::Out, TableError>
        ensures { Gives result (rows (shown tree.now)) };
}

/// A name: a text of at most 255 bytes, otherwise `BadName`.
pub struct NameRule;

/// A text of at most 16,384 bytes, otherwise `BadName`.
pub struct TextRule;

/// A moment (xsd:dateTime), otherwise `BadTime`, or `NoOffset` where only the offset from UTC is missing.
pub struct MomentRule;

/// A span (xsd:duration), otherwise `BadSpan`.
pub struct SpanRule;

/// A span that isn't negative, otherwise `BadSpan`.
pub struct NonNegativeSpanRule;

/// A number of 1 to 18 digits, otherwise `BadNumber`.
pub struct NumberRule;

/// A decimal in degrees, as units of 10^-7 degrees, at most 180 degrees; otherwise `BadDecimal`.
pub struct DecimalRule;

/// `true`, `false`, or a text `true`, `false`, `1` or `0`, otherwise `WrongKind`.
pub struct FlagRule;

impl Rule for NameRule {
    type Out = Name;

    ghost rule = { name };

    #[tactic(auto, unfolding(crate::specs::Rules::read_from_text))]
    fn read(alloc: Global, value: &Tree<'_>) -> Result<Option<Name>, TableError> {
        match text_of(value) {
            TextOf::Is(text) => match Name::new(alloc, text) {
                Ok(name) => Ok(Some(name)),
                Err(TextError::TooLong) => refuse(alloc, Reason::BadName),
                Err(TextError::Empty) => unreachable!(),
                Err(TextError::OutOfMemory) => Err(TableError::OutOfMemory),
            },
            TextOf::Absent => Ok(None),
            TextOf::Wrong => refuse(alloc, Reason::WrongKind),
        }
    }
}

impl Rule for TextRule {
    type Out = Text;

    ghost rule = { text };

    #[tactic(auto, unfolding(crate::specs::Rules::read_from_text))]
    fn read(alloc: Global, value: &Tree<'_>) -> Result<Option<Text>, TableError> {
        match text_of(value) {
            TextOf::Is(text) => match Text::new(alloc, text) {
                Ok(text) => Ok(Some(text)),
                Err(TextError::TooLong) => refuse(alloc, Reason::BadName),
                Err(TextError::Empty) => unreachable!(),
                Err(TextError::OutOfMemory) => Err(TableError::OutOfMemory),
            },
            TextOf::Absent => Ok(None),
            TextOf::Wrong => refuse(alloc, Reason::WrongKind),
        }
    }
}

impl Rule for MomentRule {
    type Out = Moment;

    ghost rule = { moment };

    #[tactic(auto, unfolding(crate::specs::Rules::read_from_text))]
    fn read(alloc: Global, value: &Tree<'_>) -> Result<Option<Moment>, TableError> {
        match text_of(value) {
            TextOf::Is(text) => match read_moment(text.as_bytes()) {
                Ok(moment) => Ok(Some(moment)),
                Err(TimeError::BadTime) => refuse(alloc, Reason::BadTime),
                Err(TimeError::NoOffset) => refuse(alloc, Reason::NoOffset),
            },
            TextOf::Absent => Ok(None),
            TextOf::Wrong => refuse(alloc, Reason::WrongKind),
        }
    }
}

impl Rule for SpanRule {
    type Out = Span;

    ghost rule = { span };

    #[tactic(auto, unfolding(crate::specs::Rules::read_from_text))]
    fn read(alloc: Global, value: &Tree<'_>) -> Result<Option<Span>, TableError> {
        match text_of(value) {
            TextOf::Is(text) => match read_span(text.as_bytes()) {
                Ok(span) => Ok(Some(span)),
                Err(_) => refuse(alloc, Reason::BadSpan),
            },
            TextOf::Absent => Ok(None),
            TextOf::Wrong => refuse(alloc, Reason::WrongKind),
        }
    }
}

impl Rule for NonNegativeSpanRule {
    type Out = Span;

    ghost rule = { non_negative_span };

    #[tactic(auto, unfolding(crate::specs::Rules::read_from_text))]
    fn read(alloc: Global, value: &Tree<'_>) -> Result<Option<Span>, TableError> {
        match text_of(value) {
            TextOf::Is(text) => match read_span(text.as_bytes()) {
                Ok(span) if span.ms() >= 0 => Ok(Some(span)),
                _ => refuse(alloc, Reason::BadSpan),
            },
            TextOf::Absent => Ok(None),
            TextOf::Wrong => refuse(alloc, Reason::WrongKind),
        }
    }
}

impl Rule for NumberRule {
    type Out = u64;

    ghost rule = { number };

    #[tactic(auto, unfolding(crate::specs::Rules::read_from_text))]
    fn read(alloc: Global, value: &Tree<'_>) -> Result<Option<u64>, TableError> {
        match text_of(value) {
            TextOf::Is(text) => match number_of(text) {
                Some(number) => Ok(Some(number)),
                None => refuse(alloc, Reason::BadNumber),
            },
            TextOf::Absent => Ok(None),
            TextOf::Wrong => refuse(alloc, Reason::WrongKind),
        }
    }
}

impl Rule for DecimalRule {
    type Out = i64;

    ghost rule = { decimal };

    #[tactic(auto, unfolding(crate::specs::Rules::read_from_text))]
    fn read(alloc: Global, value: &Tree<'_>) -> Result<Option<i64>, TableError> {
        match text_of(value) {
            TextOf::Is(text) => match scalars::decimal_of(text.as_bytes()) {
                Some(units) => Ok(Some(units)),
                None => refuse(alloc, Reason::BadDecimal),
            },
            TextOf::Absent => Ok(None),
            TextOf::Wrong => refuse(alloc, Reason::WrongKind),
        }
    }
}

impl Rule for FlagRule {
    type Out = bool;

    ghost rule = { flag };

    #[tactic(auto, unfolding(crate::specs::Rules::flag))]
    fn read(alloc: Global, value: &Tree<'_>) -> Result<Option<bool>, TableError> {
        match flag_of(value) {
            Some(flag) => Ok(Some(flag)),
            None => refuse(alloc, Reason::WrongKind),
        }
    }
}

/// What a table reads the object as that a value stands for: nothing where absent, `WrongKind` where it is none.
#[tactic(auto, unfolding(crate::specs::Rules::table))]
fn from_object<T: Table>(alloc: Global, value: &Tree<'_>) -> Result<Option<T::Out>, TableError>
    ensures { Gives result (table T.rows (shown value.now)) }
{
    match object_of(value) {
        ObjectOf::Is(tree) => match T::read_rows(alloc, tree) {
            Ok(found) => Ok(Some(found)),
            Err(error) => Err(error),
        },
        ObjectOf::Absent => Ok(None),
        ObjectOf::Wrong => refuse(alloc, Reason::WrongKind),
    }
}

/// A table is the rule of its objects; `{}` isn't absent.
impl<T: Table> Rule for T {
    type Out = T::Out;

    ghost rule = { table T.rows };

    fn read(alloc: Global, value: &Tree<'_>) -> Result<Option<T::Out>, TableError> {
        from_object::<T>(alloc, value)
    }
}

/// A rule needs nothing else to be known.
impl<R: Rule> RuleIn for R {
    type With = ();

    type Out = R::Out;

    ghost rule_in = { λ with. R.rule };

    fn read_in(alloc: Global, _with: &(), value: &Tree<'_>) -> Result<Option<R::Out>, TableError> {
        R::read(alloc, value)
    }
}
