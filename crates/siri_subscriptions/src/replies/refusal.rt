//! Why something is refused.

ghost use Rattle.std.specs.Prelude.{◌≡◌, ◌++◌, ◌+◌, ◌≤◌, IfOk, OnOk, length, codes};
ghost use Rattle.std.specs.Prelude.{string_bytes};
ghost use Rattle.std.specs.Fmt.{decimal};
ghost use Rattle.siri_subscriptions.specs.replies.Refusals.{refusal_text, not_renewed_as, not_supplied_as};

use siri_base::{OutOfMemory, Place, Text, TextError};
use siri_subs::{RenumberError, SupplyError};
use std::alloc::Global;

/// Why something is refused. Its text is the ErrorText of an ErrorCondition (EN 15531-2).
#[derive(Clone, Copy, Debug, PartialEq, Eq)]
pub enum Refusal {
    /// The subscription isn't to end after now.
    PastTermination,
    /// The subscription is held under a greater number.
    Superseded {
        /// The number under which it is held.
        held: u64,
    },
    /// As many subscriptions are held as may be.
    TableFull,
    /// The subscription isn't held under a smaller number, or not as it is meant.
    UnknownSubscription,
    /// No part is there to be fetched.
    NothingReady,
    /// Another part is wanted.
    WrongPart {
        /// The part that is wanted.
        wanted: Place,
    },
    /// Some items of a feed weren't taken, since as many keys were live as may be.
    StoreFull {
        /// How many items.
        full: u64,
    },
}

impl Refusal {
    /// The refusal of a request for a part.
    pub fn of_supply(why: SupplyError) -> Refusal
        ensures { result ≡ not_supplied_as why }
    {
        match why {
            SupplyError::NothingReady => Refusal::NothingReady,
            SupplyError::WrongPart { wanted } => Refusal::WrongPart { wanted },
        }
    }

    /// The refusal of a request for all of a subscription.
    pub fn of_renumber(why: RenumberError) -> Refusal
        ensures { result ≡ not_renewed_as why }
    {
        match why {
            RenumberError::UnknownSubscription => Refusal::UnknownSubscription,
            RenumberError::Superseded { held } => Refusal::Superseded { held },
        }
    }

    /// Its ErrorText: its name, and behind it its numbers in decimal digits.
    #[tactic(auto, unfolding(crate::specs::replies::Refusals::refusal_text))]
    pub fn text(self, alloc: Global) -> Result<Text, OutOfMemory>
        ensures { IfOk result (λ text. text ≡ refusal_text self) }
    {
        match self {
            Refusal::PastTermination => word(alloc, "PastTermination"),
            Refusal::Superseded { held } => numbered(alloc, "Superseded ", held),
            Refusal::TableFull => word(alloc, "TableFull"),
            Refusal::UnknownSubscription => word(alloc, "UnknownSubscription"),
            Refusal::NothingReady => word(alloc, "NothingReady"),
            Refusal::WrongPart { wanted } => wrong_part(alloc, wanted),
            Refusal::StoreFull { full } => numbered(alloc, "StoreFull ", full),
        }
    }
}

/// A short word.
fn word(alloc: Global, word: &str) -> Result<Text, OutOfMemory>
    requires some { 1 ≤ length word.now }
    requires short { length word.now ≤ 100 }
    ensures { IfOk result (λ text. text ≡ word.now) }
{
    match Text::new(alloc, word) {
        Ok(text) => Ok(text),
        Err(TextError::OutOfMemory) => Err(OutOfMemory),
        Err(TextError::Empty | TextError::TooLong) => unreachable!(),
    }
}

/// A word with a number behind it.
fn numbered(alloc: Global, prefix: &str, number: u64) -> Result<Text, OutOfMemory>
    requires some { 1 ≤ length prefix.now }
    requires short { length prefix.now ≤ 20 }
    ensures { IfOk result (λ text. text ≡ prefix.now ++ decimal number) }
{
    let mut text = String::from_str(alloc, prefix)?;
    push_number(alloc, &mut text, number)?;
    word(alloc, text.as_str())
}

/// The place that is wanted, as two numbers.
fn wrong_part(alloc: Global, wanted: Place) -> Result<Text, OutOfMemory>
    ensures { IfOk result (λ text. text ≡ (codes "WrongPart " ++ decimal wanted.round) ++ (codes " " ++ decimal wanted.part)) }
{
    let mut text = String::from_str(alloc, "WrongPart ")?;
    push_number(alloc, &mut text, wanted.round)?;
    text.push_str(" ")?;
    push_number(alloc, &mut text, wanted.part)?;
    word(alloc, text.as_str())
}

/// A number at the end of a text, in decimal digits, at most 20 of them.
#[tactic(auto, using(crate::proofs::Texts::decimal_few))]
fn push_number(alloc: Global, text: &mut String, number: u64) -> Result<(), OutOfMemory>
    ensures digits { OnOk result (string_bytes text.new ≡ string_bytes text.old ++ decimal number) }
    ensures few { OnOk result (length (string_bytes text.new) ≤ length (string_bytes text.old) + 20) }
{
    let digits = number.to_string(alloc)?;
    Ok(text.push_str(digits.as_str())?)
}
