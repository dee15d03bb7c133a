//! A producer over a shelf.

ghost use Rattle.std.specs.Prelude.{◌≡◌, ◌≤◌, ◌+◌, ◌∷◌, [], false, true, IfOk, OnOk, OnErr, IsErrOf};
ghost use Rattle.siri_outside.specs.Shelves.{OnShelf};
ghost use Rattle.siri_records.specs.Keyed.{living};
ghost use Rattle.siri_model.specs.Followed.{followed_of, look_bounds};
ghost use Rattle.siri_model.specs.History.{Clock, History, Settle, Take, current, now_of};
ghost use Rattle.siri_producer.specs.Known.{AnswerFor, Follows, SameButReads, SendsFor};
ghost use Rattle.siri_outside.specs.Rows.{Rows};
ghost use Rattle.siri_wire.specs.laws.ProperMessages.{IsProper};
ghost use Rattle.siri_keep.specs.declared.errors.KeepError.TheVariants as error;
ghost use Rattle.siri_keep.specs.Calls.{AddsFronts, ClosesBy, CountsKept, FollowsOn, GoesOnKept, HasKeepCause, LeavesLive, RefusesRow, StandsOn, StaysUnless};
ghost use Rattle.siri_keep.specs.Looks.{LooksTaking};
ghost use Rattle.siri_keep.specs.Planning.{WritesAll};
ghost use Rattle.siri_keep.specs.Puts.{has_long_row};

use crate::KeepError;
use crate::rows::short_copy;
use crate::writing::write_all;
use siri_base::{List, Moment, OutOfMemory};
use siri_messages::Message;
use siri_outside::{Put, Shelf};
use siri_producer::{Answer, Out, Producer};
use siri_records::KeyedItems;
use std::alloc::Global;

/// A producer over a shelf, which knows the rows that are there: each call of it is handed the shelf as the call before
/// it left it.
pub struct Kept {
    pub(crate) alloc: Global,
    pub(crate) producer: Producer,
    /// The items of the rows of table 1, shared with the producer where they are live.
    pub(crate) mirror: KeyedItems,
    /// The keys of the rows of table 2, in the order of the producer's subscriptions.
    pub(crate) places: List<List<u8>>,
    pub(crate) is_closed: bool,
}

impl Drop for Kept {
    fn drop(self) {
        let Kept {
            alloc: _,
            producer: _,
            mirror: _,
            places: _,
            is_closed: _,
        } = self;
    }
}

impl Kept {
    /// The producer.
    pub fn producer(&self) -> &Producer
        ensures { result.now ≡ self.now.producer }
    {
        &self.producer
    }

    /// Writes what a call has planned. Where that fails it is closed.
    fn write<B: Shelf>(&mut self, shelf: &mut B, puts: &List<Put>) -> Result<(), KeepError>
        requires there { B.is_open shelf.old }
        requires open { self.old.is_closed ≡ false }
        ensures open { B.is_open shelf.new }
        ensures told { OnShelf B.tells shelf.old shelf.new (λ old new. WritesAll puts.now old new result) }
        ensures rest { self.new ≡ record self.old { is_closed = self.new.is_closed } }
        ensures too_long { ¬ IsErrOf result error.RowTooLong }
        ensures closes { ClosesBy self.old.is_closed self.new.is_closed result }
        ensures cause { HasKeepCause (B.faults shelf.old) (B.faults shelf.new) result }
        ensures counted { CountsKept (B.faults shelf.old) (B.faults shelf.new) result }
    {
        let written = write_all(shelf, puts);
        self.is_closed = written.is_err();
        written
    }

    /// Its moment becomes the later one: dead items leave, and subscriptions whose termination time has come. The row of
    /// the moment is written, and those of the subscriptions where fewer are held. Refused as `Closed` exactly where an
    /// earlier call failed or found no memory, and nothing is done then; as `ShelfFault` exactly where the shelf failed,
    /// and then nothing more is written, and the rows stay.
    #[tactic(auto, using(crate::proofs::Fronts::told_stays, crate::proofs::Fronts::told_stays_same))]
    pub fn clock<B: Shelf>(&mut self, shelf: &mut B, now: Moment) -> Result<(), KeepError>
        requires { B.is_open shelf.old }
        ensures open { B.is_open shelf.new }
        ensures ok { OnOk result (OnShelf B.tells shelf.old shelf.new (λ old new. GoesOnKept self.old self.new (Clock now ∷ []) old.rows new.rows)) }
        ensures stands { OnOk result (StandsOn self.old.producer self.new.producer (Clock now ∷ [])) }
        ensures follows { OnOk result (FollowsOn self.old.producer self.new.producer (Clock now ∷ [])) }
        ensures looks { self.new.producer.responder.reads ≡ self.old.producer.responder.reads }
        ensures name { OnOk result (self.new.producer.responder.name ≡ self.old.producer.responder.name) }
        ensures trail { OnShelf B.tells shelf.old shelf.new (AddsFronts self.old (Clock now ∷ [])) }
        ensures too_long { ¬ IsErrOf result error.RowTooLong }
        ensures closes { ClosesBy self.old.is_closed self.new.is_closed result }
        ensures cause { HasKeepCause (B.faults shelf.old) (B.faults shelf.new) result }
        ensures counted { CountsKept (B.faults shelf.old) (B.faults shelf.new) result }
        ensures stays { OnShelf B.tells shelf.old shelf.new (StaysUnless result) }
        ensures closed { IsErrOf result error.Closed → (self.new ≡ self.old) × (shelf.new ≡ shelf.old) }
    {
        if self.is_closed {
            return Err(KeepError::Closed);
        }
        match self.plan_clock(now) {
            Ok(puts) => self.write(shelf, &puts),
            Err(OutOfMemory) => {
                self.is_closed = true;
                Err(KeepError::OutOfMemory)
            }
        }
    }

    /// Takes a message, and answers what became of it, with the reply; what is kept of it is written before. Refused as
    /// `Closed` exactly where an earlier call failed or found no memory, and then as `RowTooLong` exactly where the row
    /// of one of its items or subscriptions would have more than 8,388,608 bytes; then nothing changes. A row is measured
    /// by its text, which takes memory: where that is wanting, `OutOfMemory` is told, and neither the shelf nor what is
    /// kept changed for such a message. `ShelfFault` exactly where the shelf failed; then nothing more is written, and
    /// the rows stay.
    #[tactic(auto, using(crate::proofs::Fronts::told_stays, crate::proofs::Fronts::told_stays_same, crate::proofs::Looks::looks_still))]
    pub fn take<B: Shelf>(&mut self, shelf: &mut B, message: &Message) -> Result<Answer, KeepError>
        requires there { B.is_open shelf.old }
        requires proper { IsProper message.now }
        ensures open { B.is_open shelf.new }
        ensures ok { OnOk result (OnShelf B.tells shelf.old shelf.new (λ old new. GoesOnKept self.old self.new (Take message.now ∷ []) old.rows new.rows)) }
        ensures stands { OnOk result (StandsOn self.old.producer self.new.producer (Take message.now ∷ [])) }
        ensures follows { OnOk result (FollowsOn self.old.producer self.new.producer (Take message.now ∷ [])) }
        ensures looks { LooksTaking self.old.producer self.new.producer message.now }
        ensures name { OnOk result (self.new.producer.responder.name ≡ self.old.producer.responder.name) }
        ensures answer { IfOk result (AnswerFor self.old.producer message.now) }
        ensures trail { OnShelf B.tells shelf.old shelf.new (AddsFronts self.old (Take message.now ∷ [])) }
        ensures too_long { IsErrOf result error.RowTooLong → has_long_row message.now ≡ true }
        ensures short { OnOk result (has_long_row message.now ≡ false) }
        ensures long { has_long_row message.now ≡ true → RefusesRow result × (shelf.new ≡ shelf.old) × (self.new ≡ record self.old { is_closed = self.new.is_closed }) }
        ensures refused { IsErrOf result error.RowTooLong → (self.new ≡ self.old) × (shelf.new ≡ shelf.old) }
        ensures closes { ClosesBy self.old.is_closed self.new.is_closed result }
        ensures cause { HasKeepCause (B.faults shelf.old) (B.faults shelf.new) result }
        ensures counted { CountsKept (B.faults shelf.old) (B.faults shelf.new) result }
        ensures stays { OnShelf B.tells shelf.old shelf.new (StaysUnless result) }
        ensures closed { IsErrOf result error.Closed → (self.new ≡ self.old) × (shelf.new ≡ shelf.old) }
    {
        if self.is_closed {
            return Err(KeepError::Closed);
        }
        match short_copy(self.alloc, message) {
            Ok(Some(message)) => self.take_short(shelf, message),
            Ok(None) => Err(KeepError::RowTooLong),
            Err(OutOfMemory) => {
                self.is_closed = true;
                Err(KeepError::OutOfMemory)
            }
        }
    }

    /// A message whose rows can be written.
    #[tactic(auto, using(crate::proofs::Fronts::told_stays_ok, crate::proofs::Fronts::told_stays_same))]
    pub(crate) fn take_short<B: Shelf>(
        &mut self,
        shelf: &mut B,
        message: Message,
    ) -> Result<Answer, KeepError>
        requires there { B.is_open shelf.old }
        requires open { self.old.is_closed ≡ false }
        requires proper { IsProper message }
        requires short { has_long_row message ≡ false }
        ensures open { B.is_open shelf.new }
        ensures ok { OnOk result (OnShelf B.tells shelf.old shelf.new (λ old new. GoesOnKept self.old self.new (Take message ∷ []) old.rows new.rows)) }
        ensures stands { OnOk result (StandsOn self.old.producer self.new.producer (Take message ∷ [])) }
        ensures follows { OnOk result (FollowsOn self.old.producer self.new.producer (Take message ∷ [])) }
        ensures looks { LooksTaking self.old.producer self.new.producer message }
        ensures name { OnOk result (self.new.producer.responder.name ≡ self.old.producer.responder.name) }
        ensures answer { IfOk result (AnswerFor self.old.producer message) }
        ensures trail { OnShelf B.tells shelf.old shelf.new (AddsFronts self.old (Take message ∷ [])) }
        ensures too_long { ¬ IsErrOf result error.RowTooLong }
        ensures closes { ClosesBy self.old.is_closed self.new.is_closed result }
        ensures cause { HasKeepCause (B.faults shelf.old) (B.faults shelf.new) result }
        ensures counted { CountsKept (B.faults shelf.old) (B.faults shelf.new) result }
        ensures stays { OnShelf B.tells shelf.old shelf.new (StaysUnless result) }
    {
        match self.plan_take(message) {
            Ok(planned) => match self.write(shelf, &planned.puts) {
                Ok(()) => Ok(planned.answer),
                Err(error) => Err(error),
            },
            Err(OutOfMemory) => {
                self.is_closed = true;
                Err(KeepError::OutOfMemory)
            }
        }
    }

    /// Removes the rows of dead items: table 1 has the live ones alone then. The producer is not asked for any. Refused as
    /// `clock` is.
    #[tactic(auto, using(crate::proofs::Fronts::told_stays, crate::proofs::Fronts::told_stays_same))]
    pub fn clean<B: Shelf>(&mut self, shelf: &mut B) -> Result<(), KeepError>
        requires { B.is_open shelf.old }
        ensures open { B.is_open shelf.new }
        ensures ok { OnOk result (OnShelf B.tells shelf.old shelf.new (λ old new. GoesOnKept self.old self.new [] old.rows new.rows)) }
        ensures cleaned { OnOk result (OnShelf B.tells shelf.old shelf.new (λ old new. LeavesLive self.old old.rows new.rows)) }
        ensures stands { OnOk result (StandsOn self.old.producer self.new.producer []) }
        ensures looks { self.new.producer ≡ self.old.producer }
        ensures name { OnOk result (self.new.producer.responder.name ≡ self.old.producer.responder.name) }
        ensures trail { OnShelf B.tells shelf.old shelf.new (AddsFronts self.old []) }
        ensures too_long { ¬ IsErrOf result error.RowTooLong }
        ensures closes { ClosesBy self.old.is_closed self.new.is_closed result }
        ensures cause { HasKeepCause (B.faults shelf.old) (B.faults shelf.new) result }
        ensures counted { CountsKept (B.faults shelf.old) (B.faults shelf.new) result }
        ensures stays { OnShelf B.tells shelf.old shelf.new (StaysUnless result) }
        ensures closed { IsErrOf result error.Closed → (self.new ≡ self.old) × (shelf.new ≡ shelf.old) }
    {
        if self.is_closed {
            return Err(KeepError::Closed);
        }
        match self.plan_clean() {
            Ok(puts) => self.write(shelf, &puts),
            Err(OutOfMemory) => {
                self.is_closed = true;
                Err(KeepError::OutOfMemory)
            }
        }
    }

    /// The end of an event: what is due is sent, as by the producer's own `settle`, whose bound on the counter of steps
    /// holds here too, also after want of memory. One that is closed sends nothing, and counts nothing. No row changes.
    pub fn settle(&mut self) -> Result<List<Out>, OutOfMemory>
        ensures ok { self.old.is_closed ≡ false → OnOk result ((rows : Rows) → GoesOnKept self.old self.new (Settle ∷ []) rows rows) }
        ensures sends { self.old.is_closed ≡ false → IfOk result (SendsFor self.old.producer) }
        ensures closed { self.old.is_closed ≡ true → IfOk result (λ outs. outs ≡ []) × (self.new ≡ self.old) }
        ensures err { OnErr result (SameButReads self.old.producer self.new.producer) }
        ensures risen { self.old.producer.responder.reads ≤ self.new.producer.responder.reads }
        ensures bound { (h : History) → Follows self.old.producer h
            → self.new.producer.responder.reads ≤ self.old.producer.responder.reads + look_bounds (now_of h) (living (now_of h) (current h)) (followed_of h) }
        ensures rest { self.new ≡ record self.old { producer = self.new.producer } }
    {
        if self.is_closed {
            return Ok(List::new(self.alloc));
        }
        self.producer.settle()
    }
}
