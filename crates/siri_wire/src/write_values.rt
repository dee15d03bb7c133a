//! Writing values that messages alone have: identifiers that are numbers, and marks.

ghost use Rattle.siri_wire.specs.Identifiers.{written_identifier};
ghost use Rattle.siri_wire.specs.Supplies.{written_mark};

use siri_base::OutOfMemory;
use siri_deliveries::names;
use siri_json::Output;
use siri_messages::Mark;
use siri_tables::rules::{NameRule, NumberRule};
use siri_tables::writing::{Written, required};

/// A MessageIdentifier that is a number, as a string.
pub(crate) struct IdentifierWriting;

impl Written for IdentifierWriting {
    type Of = u64;

    ghost writing = { written_identifier };

    fn write(out: &mut Output, number: &u64) -> Result<(), OutOfMemory> {
        out.number_text(*number)
    }
}

/// A mark, as Extensions.
pub(crate) struct MarkWriting;

impl Written for MarkWriting {
    type Of = Mark;

    ghost writing = { written_mark };

    #[tactic(auto, using(crate::proofs::InOrder::mark_in_order), unfolding(crate::specs::Supplies::written_mark))]
    fn write(out: &mut Output, mark: &Mark) -> Result<(), OutOfMemory> {
        out.begin_object()?;
        required::<NumberRule>(out, names::NUMBER, &mark.number)?;
        required::<NumberRule>(out, names::PART, &mark.part)?;
        required::<NumberRule>(out, names::ROUND, &mark.round)?;
        required::<NumberRule>(out, names::START, &mark.start)?;
        required::<NameRule>(out, names::SUBSCRIPTION_REF, &mark.subscription)?;
        out.end_object()
    }
}
