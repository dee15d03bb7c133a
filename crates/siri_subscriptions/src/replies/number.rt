//! Numbers as names.

ghost use Rattle.std.specs.Prelude.{◌≡◌, IfOk};
ghost use Rattle.siri_subscriptions.specs.replies.Responses.{number_text};

use siri_base::{Name, OutOfMemory, TextError};
use std::alloc::Global;

/// The text of a request's number, as RequestMessageRef has it.
#[tactic(auto, using(crate::proofs::Texts::decimal_some, crate::proofs::Texts::decimal_few))]
pub fn number_text(alloc: Global, number: u64) -> Result<Name, OutOfMemory>
    ensures { IfOk result (λ name. name ≡ number_text number) }
{
    let digits = number.to_string(alloc)?;
    match Name::new(alloc, digits.as_str()) {
        Ok(name) => Ok(name),
        Err(TextError::OutOfMemory) => Err(OutOfMemory),
        Err(TextError::Empty | TextError::TooLong) => unreachable!(),
    }
}
