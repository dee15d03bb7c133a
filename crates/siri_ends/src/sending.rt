//! Sends messages, one after the other.

ghost use Rattle.std.specs.Prelude.{◌≡◌, ◌++◌, IfOk, OnOk, OnErr};
ghost use Rattle.siri_wire.specs.Documents.{message_of};
ghost use Rattle.siri_ends.specs.Responses.{message_in};
ghost use Rattle.siri_ends.specs.At.{Goes, HoldingAny, at_of};
ghost use Rattle.siri_ends.specs.EndCalls.{Hears, SendsNext, StopsAt};
ghost use Rattle.siri_ends.specs.InTurn.{FirstSends, SendsAll};

use crate::taker::Taker;
use siri_base::{List, OutOfMemory};
use siri_http::{Sent, Tally};
use siri_outside::Wire;
use siri_wire::{DecodeError, decode};
use std::alloc::Global;
use std::collections::VecDeque;

/// The most messages that are sent in one turn.
const MOST_SENDS: u64 = 100_000;

/// Puts messages at the end of those that are to be sent.
fn append_all<M: Drop>(queue: &mut VecDeque<M>, more: List<M>) -> Result<(), OutOfMemory>
    ensures { OnOk result (queue.new.items ≡ queue.old.items ++ more) }
{
    let mut more = VecDeque::from(more.into_vec());
    Ok(queue.append(&mut more)?)
}

/// Hears the message of a document that was answered to one that was sent, where it is one.
fn hear_document<B, T: Taker<B>>(
    alloc: Global,
    taker: &mut T,
    sent: &T::Message,
    document: &[u8],
) -> Result<List<T::Message>, OutOfMemory>
    ensures { IfOk result (λ more. Hears T.identity T.stands T.holds T.manner sent.now (message_in (message_of document.now)) more taker.old taker.new) }
{
    match decode(alloc, document) {
        Ok(message) => taker.hear(alloc, sent, message),
        Err(DecodeError::Refused(_)) => Ok(List::new(alloc)),
        Err(DecodeError::OutOfMemory) => Err(OutOfMemory),
    }
}

/// Sends one message, and gives what is to be sent then.
#[tactic(auto, unfolding(crate::specs::Manners::message_answered))]
fn send_one<W: Wire, B, T: Taker<B>>(
    alloc: Global,
    wire: &mut W,
    message: &T::Message,
    target: &T::Target,
    taker: &mut T,
    tally: &mut Tally,
) -> Result<List<T::Message>, OutOfMemory>
    ensures ok { IfOk result (λ more. SendsNext T.identity T.stands T.holds (T.posts target.now) T.manner message.now more (at_of taker.old tally.old (W.tells wire.old) (W.faults wire.old)) (at_of taker.new tally.new (W.tells wire.new) (W.faults wire.new))) }
    ensures err { OnErr result (StopsAt (T.posts target.now message.now) (W.tells wire.old) (W.tells wire.new)) }
{
    match T::post(alloc, wire, message, target)? {
        Sent::Accepted(body) => {
            let more = hear_document(alloc, taker, message, body.slice())?;
            Ok(more)
        }
        Sent::Refused | Sent::Failed => {
            tally.count_unsent(1);
            Ok(List::new(alloc))
        }
    }
}

/// The same of a message that is handed over.
fn send_next<W: Wire, B, T: Taker<B>>(
    alloc: Global,
    wire: &mut W,
    message: T::Message,
    target: &T::Target,
    taker: &mut T,
    tally: &mut Tally,
) -> Result<List<T::Message>, OutOfMemory>
    ensures ok { IfOk result (λ more. SendsNext T.identity T.stands T.holds (T.posts target.now) T.manner message more (at_of taker.old tally.old (W.tells wire.old) (W.faults wire.old)) (at_of taker.new tally.new (W.tells wire.new) (W.faults wire.new))) }
    ensures err { OnErr result (StopsAt (T.posts target.now message) (W.tells wire.old) (W.tells wire.new)) }
{
    let more = send_one(alloc, wire, &message, target, taker, tally);
    drop(message);
    more
}

/// Sends messages in their order: each is posted, and its response read. What the message of a response of status 200
/// brings, where its body is a document that the end hears, joins the end. After 100,000 sends the rest are counted as
/// unsent, as is each message that has no address, or one that is none, that the wire failed, or whose response was
/// refused or of another status than 200.
pub fn send_all<W: Wire, B, T: Taker<B>>(
    alloc: Global,
    wire: &mut W,
    list: List<T::Message>,
    target: &T::Target,
    taker: &mut T,
    tally: &mut Tally,
) -> Result<(), OutOfMemory>
    ensures ok { OnOk result (Goes T.identity T.stands (λ identity. HoldingAny T.holds (SendsAll (T.posts target.now) (T.manner identity) list) taker.old taker.new) (at_of taker.old tally.old (W.tells wire.old) (W.faults wire.old)) (at_of taker.new tally.new (W.tells wire.new) (W.faults wire.new))) }
    ensures err { OnErr result ((s : T.State) → T.stands taker.old s → FirstSends (T.posts target.now) (T.manner (T.identity taker.old)) list s (W.tells wire.old) (W.tells wire.new)) }
{
    let mut queue = VecDeque::from(list.into_vec());
    let mut left = MOST_SENDS;
    while left > 0 {
        let Some(message) = queue.pop_front() else {
            return Ok(());
        };
        let more = send_next(alloc, wire, message, target, taker, tally)?;
        append_all(&mut queue, more)?;
        left -= 1;
    }
    tally.count_unsent(queue.len() as u64);
    Ok(())
}
