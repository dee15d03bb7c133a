//! The keys of subscriptions' rows.

ghost use Rattle.std.specs.Prelude.{◌≡◌, IfOk};
ghost use Rattle.siri_row_texts.specs.SubscriptionRows.{place_text};

use siri_base::{List, OutOfMemory};
use std::alloc::Global;

/// A place in the order of first acceptance, in 20 digits, so that keys are in the order of places.
pub fn place_text(alloc: Global, place: u64) -> Result<List<u8>, OutOfMemory>
    ensures { IfOk result (λ text. text ≡ place_text place) }
{
    let digits = place.to_string(alloc)?;
    let mut text = Vec::new(alloc);
    text.resize(20usize.saturating_sub(digits.len()), b'0')?;
    text.extend_from_slice(digits.as_bytes())?;
    Ok(List::of(text))
}
