//! What is sent.

ghost use Rattle.std.specs.Prelude.{◌≡◌, ◌++◌, Ok, IfOk, OnOk};
ghost use Rattle.std.specs.Option.{option_copied};
ghost use Rattle.siri_subs.specs.Lent.{entry_of};
ghost use Rattle.siri_subscriptions.specs.Courses.{kept_row};
ghost use Rattle.siri_subscriptions.specs.Sends.{out_of, outs_with};

use crate::course::Course;
use siri_base::{Copies, List, Name, OutOfMemory, beside};
use siri_messages::Message;
use siri_subs::Entry;

/// A message that is sent to the consumer of a subscription.
#[derive(Drop)]
pub struct Out {
    /// Its subscriber.
    pub to: Name,
    /// Where it is sent, if the subscription's request says so (ConsumerAddress).
    pub address: Option<Name>,
    pub message: Message,
}

/// Puts a message to the consumer of a subscription at the end, where there is one.
pub(crate) fn push_out(
    outs: &mut List<Out>,
    entry: &Entry<'_, Course>,
    message: Option<Message>,
) -> Result<(), OutOfMemory>
    ensures { OnOk result (outs.new ≡ outs.old ++ outs_with (kept_row (entry_of entry.now)) message) }
{
    if let Some(message) = message {
        outs.push(out_of(entry, message)?)?;
    }
    Ok(())
}

/// A message to the subscriber of a subscription, at the ConsumerAddress that its request gave, if any.
fn out_of(entry: &Entry<'_, Course>, message: Message) -> Result<Out, OutOfMemory>
    ensures { IfOk result (λ out. out ≡ out_of (kept_row (entry_of entry.now)) message) }
{
    let ((to, address), message) = beside(addressee(entry), message)?;
    Ok(Out {
        to,
        address,
        message,
    })
}

/// To whom and where a message of a subscription is sent.
fn addressee(entry: &Entry<'_, Course>) -> Result<(Name, Option<Name>), OutOfMemory>
    ensures { IfOk result (λ addressee. addressee ≡ (entry.now.wanted.now.subscriber, option_copied entry.now.address)) }
{
    Ok((entry.wanted.subscriber.copy()?, copy_of(entry.address)?))
}

/// A copy of an address, where there is one.
fn copy_of(address: Option<&Name>) -> Result<Option<Name>, OutOfMemory>
    ensures { IfOk result (λ copy. copy ≡ option_copied address.entry) }
{
    match address {
        Some(address) => Ok(Some(address.copy()?)),
        None => Ok(None),
    }
}
