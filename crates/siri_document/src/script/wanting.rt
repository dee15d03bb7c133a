//! The subscription that a text of a line wants.

ghost use Rattle.std.specs.Prelude.{◌≡◌, IfOk};
ghost use Rattle.siri_document.specs.script.Reads.{Reads};
ghost use Rattle.siri_document.specs.script.Wanted.{bad_document, wanted_said};

use crate::script::LineError;
use siri_base::{Name, OutOfMemory, ScriptReason};
use siri_wire::{Refusal, Wanted, WantedError, decode_wanted};
use std::alloc::Global;

/// Why a line isn't taken whose document is refused.
pub fn bad_document(refusal: &Refusal) -> Result<ScriptReason, OutOfMemory>
    ensures { IfOk result (λ why. why ≡ bad_document (record { path = refusal.now.path; reason = refusal.now.reason })) }
{
    Ok(ScriptReason::BadDocument {
        path: refusal.path.text()?,
        reason: refusal.reason,
    })
}

/// The subscription that a text asks for in the name of this subscriber, as `decode_wanted` reads it: `BadDocument`
/// where the text is refused, `WrongMessage` where it asks for more than one.
pub fn wanted_said(alloc: Global, subscriber: &Name, text: &[u8]) -> Result<Wanted, LineError>
    ensures { Reads result (wanted_said subscriber.now text.now) }
{
    match decode_wanted(alloc, text, subscriber) {
        Ok(wanted) => Ok(wanted),
        Err(WantedError::Refused(refusal)) => Err(LineError::Refused(bad_document(&refusal)?)),
        Err(WantedError::WrongMessage) => Err(LineError::Refused(ScriptReason::WrongMessage)),
        Err(WantedError::OutOfMemory) => Err(LineError::OutOfMemory),
    }
}
