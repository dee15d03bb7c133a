//! A turn of an end, whichever it is.

ghost use Rattle.std.specs.Prelude.{◌≡◌, ◌≤◌, OnErr, OnOk};
ghost use Rattle.siri_outside.specs.Shelves.{CountsFault};
ghost use Rattle.siri_ends.specs.At.{Goes, Holding, at_of};
ghost use Rattle.siri_ends.specs.Occasions.{OfConnection};
ghost use Rattle.siri_ends.specs.TurnsTaken.{LeavesBeside, StopsTurn, TakesTurn};

use crate::sending::send_all;
use crate::taker::Taker;
use siri_base::OutOfMemory;
use siri_http::{Asking, Tally, read_asked};
use siri_outside::{OutsideError, Wire};
use std::alloc::Global;

/// Answers the connection that was accepted, whose request is read and asks what [`Asking`] says, and sends what comes
/// of it. What the end leaves beside it of that is there before anything is answered. After an error the first steps of
/// that were made. `Failed` exactly where what stands beside the end failed: its count rose by one, and else not.
pub fn take_turn<W: Wire, A: Asking, B, T: Taker<B>>(
    alloc: Global,
    wire: &mut W,
    target: &T::Target,
    taker: &mut T,
    beside: &mut B,
    tally: &mut Tally,
) -> Result<(), OutsideError>
    requires there { W.is_open wire.old }
    requires ready { T.is_ready beside.old }
    ensures ready { T.is_ready beside.new }
    ensures ok { OnOk result (Goes T.identity T.stands (λ identity. Holding T.holds (TakesTurn A.asks (T.posts target.now) (T.manner identity)) taker.old beside.old taker.new beside.new) (at_of taker.old tally.old (W.tells wire.old) (W.faults wire.old)) (at_of taker.new tally.new (W.tells wire.new) (W.faults wire.new))) }
    ensures err { OnErr result ((s : T.State) → T.stands taker.old s → StopsTurn A.asks (T.posts target.now) (T.manner (T.identity taker.old)) (at_of s tally.old (W.tells wire.old) (W.faults wire.old)) (W.tells wire.new)) }
    ensures leaves { LeavesBeside A.asks (T.posts target.now) (T.manner (T.identity taker.old)) (T.stands taker.old) (beside.new ≡ beside.old)
        (λ asked. T.may_leave taker.old (OfConnection asked) beside.old beside.new) (λ asked. T.has_left taker.old asked beside.old beside.new) (W.tells wire.old) (W.tells wire.new) }
    ensures later { T.faults beside.old ≤ T.faults beside.new }
    ensures counted { CountsFault (T.faults beside.old) (T.faults beside.new) result }
{
    let asked = read_asked::<W, A>(alloc, wire)?;
    let (reply, list) = taker.take(alloc, beside, &asked)?;
    match taker.write_reply(alloc, wire, &reply, tally) {
        Ok(()) => {}
        Err(OutOfMemory) => {
            drop(list);
            return Err(OutsideError::OutOfMemory);
        }
    }
    send_all(alloc, wire, list, target, taker, tally)?;
    Ok(())
}
