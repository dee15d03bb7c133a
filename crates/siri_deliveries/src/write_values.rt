//! Writing what messages and their deliveries have alike: errors, and flags that are written only where they are true.

ghost use Rattle.std.specs.Prelude.{◌≡◌, ◌++◌, OnOk};
ghost use Rattle.siri_tables.specs.Appended.{row_tokens};
ghost use Rattle.siri_deliveries.specs.WrittenValues.{written_where_true, written_error};

use crate::names;
use siri_base::{OutOfMemory, Text};
use siri_json::Output;
use siri_tables::rules::{FlagRule, TextRule};
use siri_tables::writing::{Written, required};

/// Writes the row of a flag that is written only where it is true.
pub fn true_row(out: &mut Output, name: &str, flag: bool) -> Result<(), OutOfMemory>
    ensures { OnOk result (out.new ≡ out.old ++ row_tokens name.now (written_where_true flag)) }
{
    if flag {
        required::<FlagRule>(out, name, &true)
    } else {
        Ok(())
    }
}

/// The text of an error, as an ErrorCondition.
pub struct ErrorWriting;

impl Written for ErrorWriting {
    type Of = Text;

    ghost writing = { written_error };

    #[tactic(auto, using(crate::proofs::InOrder::error_in_order), unfolding(crate::specs::WrittenValues::written_error))]
    fn write(out: &mut Output, text: &Text) -> Result<(), OutOfMemory> {
        out.begin_object()?;
        out.key(names::OTHER_ERROR)?;
        out.begin_object()?;
        required::<TextRule>(out, names::ERROR_TEXT, text)?;
        out.end_object()?;
        out.end_object()
    }
}
