//! The wire of a run, over what happens by slot.

ghost use Rattle.std.specs.Prelude.{◌≡◌, ℕ, ◌<◌, ◌≤◌, [], length, option_map, None, Some, IfOk, IfSome, IsErrOf, IsSome, IsTrue, OnErr, OnOk, OnSome};
ghost use Rattle.siri_outside.specs.Causes.{CountsFailures, HasOutsideCause};
ghost use Rattle.siri_outside.specs.OutsideCalls.{WhereTold};
ghost use Rattle.siri_outside.specs.Wires.{Accepts};
ghost use Rattle.siri_outside.specs.declared.errors.OutsideError.TheVariants as outside;
ghost use Rattle.siri_doors.specs.Gathers.{HasTurn, IsDecided, IsOver, Stays, TakesTurn, prospect, wire_of, wire_over};
ghost use Rattle.siri_doors.specs.declared.outcome.Outcome.TheVariants as becomes;

use crate::outcome::Outcome;
use crate::queue::Queue;
use crate::turn::{Turn, give};
use crate::waiting::Waiting;
use crate::{Doors, Event, Patience};
use siri_base::Name;
use siri_outside::{Failed, OutsideError, Wire};
use std::alloc::Global;
use std::mem;

/// The wire over doors: it takes what happens, gathers the bytes of each slot, and gives the connections in the order
/// in which they are decided.
pub struct Gather<D, P> {
    doors: D,
    patience: P,
    queue: Queue,
    turn: Turn,
}

impl<D: Drop, P: Drop> Drop for Gather<D, P> {
    fn drop(self) {
        let Gather {
            doors: _,
            patience: _,
            queue: _,
            turn: _,
        } = self;
    }
}

impl<D: Doors, P: Patience> Gather<D, P> {
    /// The wire over these doors, by which nobody came yet. It takes no memory.
    pub fn new(alloc: Global, doors: D, patience: P) -> Self
        ensures tells { ⟦<Gather<D, P> as Wire>⟧.tells result ≡ option_map (wire_over (P.whole patience)) (D.tells doors) }
        ensures faults { ⟦<Gather<D, P> as Wire>⟧.faults result ≡ D.faults doors }
    {
        Gather {
            doors,
            patience,
            queue: Queue {
                waiting: Waiting::new(alloc),
                unseen: None,
                outcome: Outcome::Waits,
            },
            turn: Turn::Nobody,
        }
    }

    /// The next event, first the one that isn't seen yet.
    fn event(&mut self) -> Result<Event, OutsideError>
        requires { self.old.queue.outcome ≡ becomes.Waits }
        ensures ok { IfOk result (λ event. Stays (prospect (P.whole self.old.patience) self.old.queue (D.tells self.old.doors)) (prospect (P.whole self.new.patience) (record self.new.queue { unseen = Some event }) (D.tells self.new.doors))) }
        ensures err { OnErr result (Stays (prospect (P.whole self.old.patience) self.old.queue (D.tells self.old.doors)) (prospect (P.whole self.new.patience) self.new.queue (D.tells self.new.doors))) }
        ensures none { IsErrOf result outside.Failed → IsOver (prospect (P.whole self.old.patience) self.old.queue (D.tells self.old.doors)) (prospect (P.whole self.new.patience) self.new.queue (D.tells self.new.doors)) }
        ensures seen { self.new.queue.unseen ≡ None }
        ensures rest { self.new ≡ record self.old { doors = self.new.doors; queue = record self.old.queue { unseen = self.new.queue.unseen } } }
        ensures cause { HasOutsideCause (D.faults self.old.doors) (D.faults self.new.doors) result }
        ensures counted { IsSome (D.tells self.old.doors) → CountsFailures (D.faults self.old.doors) (D.faults self.new.doors) result }
    {
        match self.queue.unseen.take() {
            Some(event) => Ok(event),
            None => self.doors.next(),
        }
    }

    /// Sees the next event.
    fn see(&mut self) -> Result<(), OutsideError>
        requires { self.old.queue.outcome ≡ becomes.Waits }
        ensures stays { Stays (prospect (P.whole self.old.patience) self.old.queue (D.tells self.old.doors)) (prospect (P.whole self.new.patience) self.new.queue (D.tells self.new.doors)) }
        ensures none { IsErrOf result outside.Failed → IsOver (prospect (P.whole self.old.patience) self.old.queue (D.tells self.old.doors)) (prospect (P.whole self.new.patience) self.new.queue (D.tells self.new.doors)) }
        ensures rest { self.new ≡ record self.old { doors = self.new.doors; queue = self.new.queue } }
        ensures cause { HasOutsideCause (D.faults self.old.doors) (D.faults self.new.doors) result }
        ensures counted { IsSome (D.tells self.old.doors) → CountsFailures (D.faults self.old.doors) (D.faults self.new.doors) result }
    {
        let event = self.event()?;
        match self.queue.waiting.happens(&self.patience, &event) {
            Ok(outcome) => {
                self.queue.outcome = outcome;
                Ok(())
            }
            Err(_) => {
                self.queue.unseen = Some(event);
                Err(OutsideError::OutOfMemory)
            }
        }
    }

    /// Does what was decided, and else sees the next event. Whether a connection has its turn.
    fn advance(&mut self) -> Result<bool, OutsideError>
        ensures decided { IfOk result (λ done. IsTrue done → IsDecided self.new.queue.outcome) }
        ensures stays { Stays (prospect (P.whole self.old.patience) self.old.queue (D.tells self.old.doors)) (prospect (P.whole self.new.patience) self.new.queue (D.tells self.new.doors)) }
        ensures none { IsErrOf result outside.Failed → IsOver (prospect (P.whole self.old.patience) self.old.queue (D.tells self.old.doors)) (prospect (P.whole self.new.patience) self.new.queue (D.tells self.new.doors)) }
        ensures rest { self.new ≡ record self.old { doors = self.new.doors; queue = self.new.queue } }
        ensures cause { HasOutsideCause (D.faults self.old.doors) (D.faults self.new.doors) result }
        ensures counted { IsSome (D.tells self.old.doors) → CountsFailures (D.faults self.old.doors) (D.faults self.new.doors) result }
    {
        match &self.queue.outcome {
            Outcome::Decides(_) => return Ok(true),
            Outcome::Refuses(slot) => {
                self.doors.refuse(*slot)?;
                self.queue.outcome = Outcome::Waits;
            }
            Outcome::Waits => self.see()?,
        }
        Ok(false)
    }

    /// Takes events until a connection has its turn.
    fn gather(&mut self) -> Result<(), OutsideError>
        ensures decided { OnOk result (IsDecided self.new.queue.outcome) }
        ensures stays { Stays (prospect (P.whole self.old.patience) self.old.queue (D.tells self.old.doors)) (prospect (P.whole self.new.patience) self.new.queue (D.tells self.new.doors)) }
        ensures none { IsErrOf result outside.Failed → IsOver (prospect (P.whole self.old.patience) self.old.queue (D.tells self.old.doors)) (prospect (P.whole self.new.patience) self.new.queue (D.tells self.new.doors)) }
        ensures rest { self.new ≡ record self.old { doors = self.new.doors; queue = self.new.queue } }
        ensures cause { HasOutsideCause (D.faults self.old.doors) (D.faults self.new.doors) result }
        ensures counted { IsSome (D.tells self.old.doors) → CountsFailures (D.faults self.old.doors) (D.faults self.new.doors) result }
    {
        for _ in 0..u64::MAX {
            if self.advance()? {
                return Ok(());
            }
        }
        // (nobody waits for so many events)
        Err(OutsideError::OutOfMemory)
    }

    /// Gives its turn to the connection that was decided. After want of memory all is as before.
    fn hand_over(&mut self) -> Result<(), OutsideError>
        requires { IsDecided self.old.queue.outcome }
        ensures open { OnOk result (HasTurn (D.is_open self.new.doors) self.new.turn) }
        ensures told { WhereTold (⟦<Gather<D, P> as Wire>⟧.tells self.old) (⟦<Gather<D, P> as Wire>⟧.tells self.new) (λ old new. Accepts old new result) }
        ensures whose { WhereTold (prospect (P.whole self.old.patience) self.old.queue (D.tells self.old.doors)) (prospect (P.whole self.new.patience) self.new.queue (D.tells self.new.doors)) (λ old new. TakesTurn old new result) }
        ensures cause { HasOutsideCause (D.faults self.old.doors) (D.faults self.new.doors) result }
        ensures counted { IsSome (D.tells self.old.doors) → CountsFailures (D.faults self.old.doors) (D.faults self.new.doors) result }
    {
        let Outcome::Decides(asking) = mem::replace(&mut self.queue.outcome, Outcome::Waits) else {
            unreachable!();
        };
        if self.doors.turn(asking.slot()).is_err() {
            self.queue.outcome = Outcome::Decides(asking);
            return Err(OutsideError::OutOfMemory);
        }
        self.turn = Turn::Asked(asking, 0);
        Ok(())
    }
}

impl<D: Doors, P: Patience> Wire for Gather<D, P> {
    ghost is_open = { λ g. HasTurn (D.is_open g.doors) g.turn };

    ghost tells = { λ g. option_map (wire_of g.turn) (prospect (P.whole g.patience) g.queue (D.tells g.doors)) };

    ghost faults = { λ g. D.faults g.doors };

    fn listen(&mut self, address: &Name) -> Result<(), OutsideError> {
        self.doors.listen(address)
    }

    /// Besides what the trait says: in whose slot the connection is, and that each is refused that is to be.
    fn accept(&mut self) -> Result<(), OutsideError>
        ensures open { OnOk result (HasTurn (D.is_open self.new.doors) self.new.turn) }
        ensures told { WhereTold (⟦<Gather<D, P> as Wire>⟧.tells self.old) (⟦<Gather<D, P> as Wire>⟧.tells self.new) (λ old new. Accepts old new result) }
        ensures whose { WhereTold (prospect (P.whole self.old.patience) self.old.queue (D.tells self.old.doors)) (prospect (P.whole self.new.patience) self.new.queue (D.tells self.new.doors)) (λ old new. TakesTurn old new result) }
        ensures cause { HasOutsideCause (D.faults self.old.doors) (D.faults self.new.doors) result }
        ensures counted { IsSome (⟦<Gather<D, P> as Wire>⟧.tells self.old) → CountsFailures (D.faults self.old.doors) (D.faults self.new.doors) result }
    {
        self.gather()?;
        self.hand_over()
    }

    fn dial(&mut self, address: &Name) -> Result<(), OutsideError> {
        let slot = self.doors.dial(address)?;
        self.turn = Turn::Dialled(slot);
        Ok(())
    }

    fn read(&mut self, into: &mut [u8]) -> Result<usize, Failed> {
        match &mut self.turn {
            Turn::Nobody => Err(Failed),
            Turn::Asked(asking, given) => Ok(give(asking, given, into)),
            Turn::Dialled(slot) => self.doors.read(*slot, into),
        }
    }

    fn write(&mut self, piece: &[u8]) -> Result<usize, OutsideError> {
        match &self.turn {
            Turn::Nobody => Err(OutsideError::Failed),
            Turn::Asked(asking, _) => self.doors.write(asking.slot(), piece),
            Turn::Dialled(slot) => self.doors.write(*slot, piece),
        }
    }

    fn hang_up(&mut self) {
        self.doors.hang_up();
        self.turn = Turn::Nobody;
    }
}
