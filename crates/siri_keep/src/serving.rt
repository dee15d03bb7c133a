//! One turn over a shelf.

ghost use Rattle.std.specs.Prelude.{◌≡◌, ◌≤◌, ◌∷◌, ◌++◌, [], ℕ, List, true, false, IfOk, OnOk, OnErr, IsErrOf, IsSomeAnd, Some, Err};
ghost use Rattle.siri_outside.specs.Shelves.{CountsFault, OnShelf};
ghost use Rattle.siri_http.specs.Texts.{is_written};
ghost use Rattle.siri_model.specs.History.{Clock, History, Take};
ghost use Rattle.siri_producer.specs.Known.{StandsFor};
ghost use Rattle.siri_ends.specs.At.{at_of};
ghost use Rattle.siri_ends.specs.Lending.{CanBeWritten, IsReply, Prepares, PreparesFor, message_response};
ghost use Rattle.siri_ends.specs.Responses.{producer_reply, replying, taking};
ghost use Rattle.siri_ends.specs.Looks.{FollowsAlike, LooksHearing};
ghost use Rattle.siri_ends.specs.Serving.{PostsOut, acknowledging, none_posted_out};
ghost use Rattle.siri_ends.specs.declared.reply.Reply.TheVariants as reply;
ghost use Rattle.siri_wire.specs.laws.ProperMessages.{IsProper};
ghost use Rattle.siri_keep.specs.declared.errors.KeepError.TheVariants as error;
ghost use Rattle.siri_keep.specs.Calls.{AddsFronts, ClosesBy, CountsKept, GoesOnKept, HasKeepCause, Holds, StandsOn};
ghost use Rattle.siri_keep.specs.KeptTurns.{KeepsOn, LeavesKept, outside_error};
ghost use Rattle.siri_keep.specs.Looks.{KeptLooksOnce, LooksInTurn, LooksTaking};
ghost use Rattle.siri_keep.specs.Puts.{has_long_row};
ghost use Rattle.siri_keep.specs.Serving.{AddsTurn, GoesOnServing, KeepsWhatIsAnswered, LeavesLiveAt, ServesKeptSome, has_long_asked, keeping, message_kept, row_too_long, short_of, steps_of};

use crate::rows::{changes_rows, has_long_row};
use crate::{KeepError, Kept};
use siri_base::{List, Moment, OutOfMemory, append};
use siri_ends::{
    Brought, Reply, Response, Taker, brought_by, refusing, reply_to, replying, take_turn,
};
use siri_http::{Asked, PostAlone, Sent, Tally};
use siri_messages::Message;
use siri_outside::{OutsideError, Shelf, Wire};
use siri_producer::{Out, Producer};
use std::alloc::Global;

/// After how many turns dead items leave the shelf.
const TURNS_TO_CLEAN: u64 = 1_000;

/// The answer to a message with a row that is too long.
fn refuse_row(alloc: Global) -> Result<Response, OutOfMemory>
    ensures response { IfOk result (λ response. response ≡ row_too_long) }
    ensures written { IfOk result (λ response. is_written response.status ≡ true) }
{
    let mut reason = Vec::new(alloc);
    append(&mut reason, b"RowTooLong")?;
    refusing(413, reason)
}

/// What a turn ends with where a call of it didn't succeed.
fn outside_error(error: &KeepError) -> OutsideError
    ensures { result ≡ outside_error error.now }
{
    match error {
        KeepError::ShelfFault => OutsideError::Failed,
        _ => OutsideError::OutOfMemory,
    }
}

impl Kept {
    /// Takes a message that changes rows, and makes its answer.
    #[tactic(auto, using(crate::proofs::KeptTurns::outside_counts, crate::proofs::Looks::alike_on))]
    fn answer_kept<B: Shelf>(
        &mut self,
        shelf: &mut B,
        message: Message,
    ) -> Result<Response, OutsideError>
        requires there { B.is_open shelf.old }
        requires open { self.old.is_closed ≡ false }
        requires proper { IsProper message }
        requires short { has_long_row message ≡ false }
        ensures open { B.is_open shelf.new }
        ensures stands { OnOk result (StandsOn self.old.producer self.new.producer (Take message ∷ [])) }
        ensures response { IfOk result (λ response. (h : History) → StandsFor self.old.producer h → response ≡ replying (producer_reply self.old.producer.responder.name h message)) }
        ensures written { IfOk result (λ response. is_written response.status ≡ true) }
        ensures name { OnOk result (self.new.producer.responder.name ≡ self.old.producer.responder.name) }
        ensures ok { OnOk result (OnShelf B.tells shelf.old shelf.new (λ old new. GoesOnKept self.old self.new (Take message ∷ []) old.rows new.rows)) }
        ensures trail { OnShelf B.tells shelf.old shelf.new (AddsFronts self.old (Take message ∷ [])) }
        ensures later { B.faults shelf.old ≤ B.faults shelf.new }
        ensures counted { CountsFault (B.faults shelf.old) (B.faults shelf.new) result }
        ensures looks { LooksTaking self.old.producer self.new.producer message }
        ensures follows { OnOk result (FollowsAlike self.old.producer self.new.producer (Some message)) }
    {
        let answer = match self.take_short(shelf, message) {
            Ok(answer) => answer,
            Err(error) => return Err(outside_error(&error)),
        };
        let response = replying(self.alloc, answer.reply.as_ref());
        drop(answer);
        Ok(response?)
    }

    /// What a message is to be answered. It is taken, but where one of its rows is too long, and but for a request for items
    /// whose answer is lent.
    #[tactic(auto, using(siri_ends::proofs::Lends::makes, crate::proofs::KeptTurns::told_unwritten, crate::proofs::KeptTurns::told_keeps, crate::proofs::KeptTurns::told_long, crate::proofs::KeptTurns::fronts_short, crate::proofs::Looks::looks_none, crate::proofs::Looks::looks_reply, crate::proofs::Looks::looks_rows))]
    fn reply_kept<B: Shelf>(
        &mut self,
        shelf: &mut B,
        message: Message,
    ) -> Result<Reply, OutsideError>
        requires there { B.is_open shelf.old }
        requires open { self.old.is_closed ≡ false }
        requires proper { IsProper message }
        ensures open { B.is_open shelf.new }
        ensures short { IfOk result (λ reply. has_long_row message ≡ false → Prepares self.old.producer self.new.producer (Some message) (message_response message) reply) }
        ensures long { IfOk result (λ answer. has_long_row message ≡ true → (answer ≡ reply.Made (Some row_too_long)) × (self.new ≡ self.old)) }
        ensures written { IfOk result CanBeWritten }
        ensures name { OnOk result (self.new.producer.responder.name ≡ self.old.producer.responder.name) }
        ensures same { has_long_row message ≡ true → shelf.new ≡ shelf.old }
        ensures ok { OnOk result (OnShelf B.tells shelf.old shelf.new (λ old new. LeavesKept self.old self.new (taking (short_of message)) old.rows new.rows)) }
        ensures trail { OnShelf B.tells shelf.old shelf.new (AddsFronts self.old (taking (short_of message))) }
        ensures later { B.faults shelf.old ≤ B.faults shelf.new }
        ensures counted { CountsFault (B.faults shelf.old) (B.faults shelf.new) result }
        ensures looks { LooksInTurn self.old.producer self.new.producer (short_of message) }
        ensures follows { OnOk result (FollowsAlike self.old.producer self.new.producer (short_of message)) }
    {
        if has_long_row(self.alloc, &message)? {
            drop(message);
            return Ok(Reply::Made(Some(refuse_row(self.alloc)?)));
        }
        if changes_rows(&message) {
            let response = self.answer_kept(shelf, message)?;
            return Ok(Reply::Made(Some(response)));
        }
        let reply = reply_to(self.alloc, &mut self.producer, message)?;
        Ok(reply)
    }

    /// Takes the message that a connection brings, where it brings one that can be kept and isn't answered directly, and
    /// tells what the connection is to be answered.
    #[tactic(auto, using(siri_ends::proofs::Lends::prepares_refusal, siri_ends::proofs::Lends::prepares_nothing, crate::proofs::KeptTurns::told_unwritten, crate::proofs::Looks::looks_none))]
    fn reply_for<B: Shelf>(&mut self, shelf: &mut B, asked: &Asked) -> Result<Reply, OutsideError>
        requires there { B.is_open shelf.old }
        requires open { self.old.is_closed ≡ false }
        ensures open { B.is_open shelf.new }
        ensures short { IfOk result (λ reply. has_long_asked asked.now ≡ false → PreparesFor self.old.producer self.new.producer asked.now reply) }
        ensures long { IfOk result (λ answer. has_long_asked asked.now ≡ true → (answer ≡ reply.Made (Some row_too_long)) × (self.new ≡ self.old)) }
        ensures written { IfOk result CanBeWritten }
        ensures name { OnOk result (self.new.producer.responder.name ≡ self.old.producer.responder.name) }
        ensures ok { OnOk result (OnShelf B.tells shelf.old shelf.new (λ old new. LeavesKept self.old self.new (taking (message_kept asked.now)) old.rows new.rows)) }
        ensures trail { OnShelf B.tells shelf.old shelf.new (AddsFronts self.old (taking (message_kept asked.now))) }
        ensures later { B.faults shelf.old ≤ B.faults shelf.new }
        ensures counted { CountsFault (B.faults shelf.old) (B.faults shelf.new) result }
        ensures looks { LooksInTurn self.old.producer self.new.producer (message_kept asked.now) }
        ensures follows { OnOk result (FollowsAlike self.old.producer self.new.producer (message_kept asked.now)) }
    {
        match brought_by(self.alloc, asked)? {
            Brought::Message(message) => self.reply_kept(shelf, message),
            Brought::Refused(response) => Ok(Reply::Made(Some(response))),
            Brought::Nothing => Ok(Reply::Made(None)),
        }
    }
}

impl<B: Shelf> Taker<B> for Kept {
    type Reply = Reply;

    type Message = Out;

    type Target = ();

    ghost Identity = { List ℕ };

    ghost identity = { λ kept. kept.producer.responder.name };

    ghost State = { History };

    ghost stands = { λ kept h. StandsFor kept.producer h };

    ghost is_ready = { λ shelf. B.is_open shelf };

    ghost holds = { λ kept shelf h. IsSomeAnd (B.tells shelf) (λ state. Holds kept state.rows h) };

    ghost may_leave = { λ kept occasion before after. OnShelf B.tells before after (AddsFronts kept (steps_of occasion)) };

    ghost has_left = { λ kept asked before after. OnShelf B.tells before after (λ old new. KeepsOn kept (taking (message_kept asked)) old.rows new.rows) };

    ghost has_ended = { λ kept made before after. OnShelf B.tells before after (λ old new. LeavesLiveAt kept made old.rows new.rows) };

    ghost looks_taking = { λ old asked new. KeptLooksOnce old.producer new.producer (message_kept asked) };

    ghost looks_hearing = { λ old _ message new. LooksHearing old.producer new.producer (acknowledging message) };

    ghost faults = { λ shelf. B.faults shelf };

    ghost given = { λ now h. h ++ Clock now ∷ [] };

    ghost refuses = { λ _ _. Unit {0} };

    ghost manner = { keeping };

    ghost posts = { λ _. PostsOut };

    ghost can_be_written = { CanBeWritten };

    ghost is_reply = { λ name reply h response. IsReply reply name h response };

    #[tactic(auto, using(crate::proofs::KeptTurns::outside_counts))]
    fn clock(&mut self, shelf: &mut B, now: Moment) -> Result<(), OutsideError> {
        match self.clock(shelf, now) {
            Ok(()) => Ok(()),
            Err(error) => Err(outside_error(&error)),
        }
    }

    /// One that is closed takes nothing.
    #[tactic(auto, using(crate::proofs::KeptTurns::told_unwritten, crate::proofs::Looks::kept_settled, crate::proofs::Looks::kept_unsettled, crate::proofs::Looks::looks_none))]
    fn take(
        &mut self,
        _alloc: Global,
        shelf: &mut B,
        asked: &Asked,
    ) -> Result<(Reply, List<Out>), OutsideError> {
        if self.is_closed {
            return Err(OutsideError::OutOfMemory);
        }
        let reply = self.reply_for(shelf, asked)?;
        let outs = self.producer.settle()?;
        Ok((reply, outs))
    }

    fn write_reply<W: Wire>(
        &mut self,
        alloc: Global,
        wire: &mut W,
        reply: &Reply,
        tally: &mut Tally,
    ) -> Result<(), OutOfMemory> {
        self.producer.write_reply(alloc, wire, reply, tally)
    }

    fn post<W: Wire>(
        alloc: Global,
        wire: &mut W,
        out: &Out,
        target: &(),
    ) -> Result<Sent, OutOfMemory> {
        Producer::post(alloc, wire, out, target)
    }

    fn hear(
        &mut self,
        alloc: Global,
        sent: &Out,
        message: Message,
    ) -> Result<List<Out>, OutOfMemory> {
        self.producer.hear(alloc, sent, message)
    }

    /// After each 1,000 turns the rows of dead items leave.
    #[tactic(auto, using(crate::proofs::KeptTurns::outside_counts, crate::proofs::KeptTurns::told_unwritten))]
    fn end_turn(&mut self, shelf: &mut B, made: u64) -> Result<(), OutsideError> {
        if made % TURNS_TO_CLEAN > 0 {
            return Ok(());
        }
        match self.clean(shelf) {
            Ok(()) => Ok(()),
            Err(error) => Err(outside_error(&error)),
        }
    }

    ghost none_posted = { λ _ out wire. none_posted_out out wire };
}

impl Kept {
    /// Serves the connection that was accepted, as a producer without a shelf does, but that what is kept of its message is
    /// written before anything is answered. A message of which the row of an item or of a subscription would have more than
    /// 8,388,608 bytes isn't taken: it is answered 413 and `RowTooLong`, and counted as refused.
    ///
    /// Refused as `Closed` exactly where an earlier call failed or found no memory; then nothing is done. `ShelfFault` exactly
    /// where the shelf failed.
    pub fn serve_one<W: Wire, B: Shelf>(
        &mut self,
        wire: &mut W,
        shelf: &mut B,
        tally: &mut Tally,
    ) -> Result<(), KeepError>
        requires there { W.is_open wire.old }
        requires shelf { B.is_open shelf.old }
        ensures open { B.is_open shelf.new }
        ensures ok { OnOk result (GoesOnServing (at_of self.old tally.old (W.tells wire.old) (W.faults wire.old)) (at_of self.new tally.new (W.tells wire.new) (W.faults wire.new)) (B.tells shelf.old) (B.tells shelf.new)) }
        ensures err { self.old.is_closed ≡ false → OnErr result ((h : History) → StandsFor self.old.producer h → ServesKeptSome self.old.producer.responder.name (at_of h tally.old (W.tells wire.old) (W.faults wire.old)) (W.tells wire.new)) }
        ensures closed { self.old.is_closed ≡ true → (result ≡ Err error.Closed) × (self.new ≡ self.old) × (wire.new ≡ wire.old) × (shelf.new ≡ shelf.old) × (tally.new ≡ tally.old) }
        ensures answered { OnShelf B.tells shelf.old shelf.new (KeepsWhatIsAnswered self.old (W.tells wire.old) (W.tells wire.new)) }
        ensures trail { OnShelf B.tells shelf.old shelf.new (AddsTurn self.old (W.tells wire.old)) }
        ensures too_long { ¬ IsErrOf result error.RowTooLong }
        ensures closes { ClosesBy self.old.is_closed self.new.is_closed result }
        ensures cause { HasKeepCause (B.faults shelf.old) (B.faults shelf.new) result }
        ensures counted { CountsKept (B.faults shelf.old) (B.faults shelf.new) result }
    {
        if self.is_closed {
            return Err(KeepError::Closed);
        }
        let alloc = self.alloc;
        let served = take_turn::<W, PostAlone, B, Kept>(alloc, wire, &(), self, shelf, tally);
        self.is_closed = served.is_err();
        match served {
            Ok(()) => Ok(()),
            Err(OutsideError::Failed) => Err(KeepError::ShelfFault),
            Err(OutsideError::OutOfMemory) => Err(KeepError::OutOfMemory),
        }
    }
}
