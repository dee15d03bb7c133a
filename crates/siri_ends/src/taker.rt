//! What is given moments, takes the messages of connections, answers them, and sends messages.

ghost use Rattle.std.specs.Prelude.{◌≡◌, ◌≤◌, ℕ, Option, IfErr, IfOk, OnErr, OnOk, None, Some};
ghost use Rattle.siri_outside.specs.Wires.{WireState};
ghost use Rattle.siri_outside.specs.declared.errors.OutsideError.{OutsideError as Error};
ghost use Rattle.siri_outside.specs.Shelves.{CountsFault};
ghost use Rattle.siri_messages.specs.declared.message.Message.{Message as Heard};
ghost use Rattle.siri_http.specs.declared.asked.Asked.{Asked as Question};
ghost use Rattle.siri_http.specs.ExchangeCauses.{HasSentCause, outcome};
ghost use Rattle.siri_ends.specs.declared.response.Response.{Response};
ghost use Rattle.siri_ends.specs.Answering.{AnswersWith, StopsWriting};
ghost use Rattle.siri_ends.specs.At.{surroundings};
ghost use Rattle.siri_ends.specs.EndCalls.{Hears, Turned};
ghost use Rattle.siri_ends.specs.Manners.{IsRead, Manner, Posting};
ghost use Rattle.siri_ends.specs.Occasions.{AfterTurn, Occasion, OfConnection, OfMoment};

use siri_base::{List, Moment, OutOfMemory};
use siri_http::{Asked, Sent, Tally};
use siri_messages::Message;
use siri_outside::{OutsideError, Wire};
use std::alloc::Global;

/// An end of the exchange, as a run of it sees it, and each turn of the run. What stands beside it, a shelf or nothing,
/// which is `()`, is lent to it where it is given a moment, where it takes what a connection asks, and where a turn is
/// over.
pub trait Taker<B> {
    /// What a connection is to be answered.
    type Reply: Drop;

    /// What it sends.
    type Message: Drop;

    /// Where it sends to, where a message doesn't say so.
    type Target;

    /// Who it can be, as long as it runs: a producer has a name.
    ghost Identity: { Type 0 };

    /// Who it is.
    ghost identity: { Self → Identity };

    /// What contracts speak of in its place: its history, or what it has of its subscriptions.
    ghost State: { Type 0 };

    /// It stands for a state.
    ghost stands: { Self → State → Type 0 };

    /// It can be called with this beside it: a shelf has to be open.
    ghost is_ready: { B → Type 0 } = { λ _. Unit {0} };

    /// What stands beside it is as it left it, in a state that it stands for.
    ghost holds: { Self → B → State → Type 0 };

    /// What may stand beside it once it was called for this, by what stood there before, whatever came of it.
    ghost may_leave: { Self → Occasion → B → B → Type 0 } = { λ _ _ _ _. Unit {0} };

    /// What stands there before anything is answered to a connection that asks this.
    ghost has_left: { Self → Question → B → B → Type 0 } = { λ _ _ _ _. Unit {0} };

    /// What stands there after a turn that was the last of so many.
    ghost has_ended: { Self → ℕ → B → B → Type 0 } = { λ _ _ _ _. Unit {0} };

    /// How much of what it holds it may have looked at where it took what a connection asks, whatever came of it.
    ghost looks_taking: { Self → Question → Self → Type 0 } = { λ _ _ _. Unit {0} };

    /// How much of that where it heard a message that was answered to one that it sent.
    ghost looks_hearing: { Self → Self.Message → Heard → Self → Type 0 } = { λ _ _ _ _. Unit {0} };

    /// How often what stands beside it has failed; never, where that is nothing.
    ghost faults: { B → ℕ } = { λ _. 0 };

    /// The state after it is given a moment.
    ghost given: { ℕ → State → State };

    /// It can't be given one, for this reason.
    ghost refuses: { Error → State → Type 0 };

    /// How it takes part in the exchange.
    ghost manner: { Identity → Manner State Self.Message };

    /// How its messages are posted.
    ghost posts: { Self.Target → Posting Self.Message };

    /// A reply can be written.
    ghost can_be_written: { Self.Reply → Type 0 };

    /// By the state after the turn a reply is this response, or none.
    ghost is_reply: { Identity → Self.Reply → State → Option Response → Type 0 };

    /// Gives it a moment. `Failed` exactly where what stands beside it failed: its count rose by one, and else not.
    fn clock(&mut self, beside: &mut B, now: Moment) -> Result<(), OutsideError>
        requires { is_ready beside.old }
        ensures ready { is_ready beside.new }
        ensures keeps { OnOk result (identity self.new ≡ identity self.old) }
        ensures stands { OnOk result ((s : State) → stands self.old s → stands self.new (given now s)) }
        ensures holds { OnOk result ((s : State) → stands self.old s → holds self.old beside.old s → holds self.new beside.new (given now s)) }
        ensures err { IfErr result (λ error. (s : State) → stands self.old s → refuses error s) }
        ensures may { may_leave self.old (OfMoment now) beside.old beside.new }
        ensures later { faults beside.old ≤ faults beside.new }
        ensures counted { CountsFault (faults beside.old) (faults beside.new) result };

    /// Takes the message that a connection brings, where it brings one, and settles: what the connection is to be
    /// answered, and what is to be sent then. `Failed` exactly where what stands beside it failed.
    fn take(
        &mut self,
        alloc: Global,
        beside: &mut B,
        asked: &Asked,
    ) -> Result<(Self::Reply, List<Self::Message>), OutsideError>
        requires { is_ready beside.old }
        ensures ready { is_ready beside.new }
        ensures turned { IfOk result (λ taken. Turned identity stands manner is_reply asked.now taken.1 taken.0 self.old self.new) }
        ensures written { IfOk result (λ taken. can_be_written taken.0) }
        ensures holds { OnOk result ((s : State) → holds self.old beside.old s → holds self.new beside.new ((manner (identity self.old)).after s asked.now)) }
        ensures may { may_leave self.old (OfConnection asked.now) beside.old beside.new }
        ensures left { OnOk result (has_left self.old asked.now beside.old beside.new) }
        ensures looks { looks_taking self.old asked.now self.new }
        ensures later { faults beside.old ≤ faults beside.new }
        ensures counted { CountsFault (faults beside.old) (faults beside.new) result };

    /// Writes what a connection is to be answered, hangs up, and counts the connection.
    fn write_reply<W: Wire>(
        &mut self,
        alloc: Global,
        wire: &mut W,
        reply: &Self::Reply,
        tally: &mut Tally,
    ) -> Result<(), OutOfMemory>
        requires there { W.is_open wire.old }
        requires written { can_be_written reply.now }
        ensures keeps { OnOk result (identity self.new ≡ identity self.old) }
        ensures stands { OnOk result ((s : State) → stands self.old s → stands self.new s) }
        ensures holds { OnOk result ((beside : B) (s : State) → stands self.old s → holds self.old beside s → holds self.new beside s) }
        ensures ok { OnOk result ((s : State) (response : Option Response) → stands self.old s → is_reply (identity self.old) reply.now s response → AnswersWith response (surroundings tally.old (W.tells wire.old) (W.faults wire.old)) (surroundings tally.new (W.tells wire.new) (W.faults wire.new))) }
        ensures err { OnErr result ((s : State) (response : Option Response) → stands self.old s → is_reply (identity self.old) reply.now s response → StopsWriting response (W.tells wire.old) (W.tells wire.new)) };

    /// Posts a message, and reads what is answered.
    fn post<W: Wire>(
        alloc: Global,
        wire: &mut W,
        message: &Self::Message,
        target: &Self::Target,
    ) -> Result<Sent, OutOfMemory>
        ensures told { posts target.now message.now (outcome result) (W.tells wire.old) (W.tells wire.new) }
        ensures cause { HasSentCause (W.faults wire.old) (W.faults wire.new) (outcome result) };

    /// Hears a message, read of a document that was answered to one that it sent, and gives what is to be sent then.
    fn hear(
        &mut self,
        alloc: Global,
        sent: &Self::Message,
        message: Message,
    ) -> Result<List<Self::Message>, OutOfMemory>
        requires { IsRead message }
        ensures hears { IfOk result (λ more. Hears identity stands holds manner sent.now (Some message) more self.old self.new) }
        ensures looks { looks_hearing self.old sent.now message self.new };

    /// Ends a turn, once everything was sent: the last of so many of a run. `Failed` exactly where what stands beside it
    /// failed.
    fn end_turn(&mut self, beside: &mut B, made: u64) -> Result<(), OutsideError>
        requires { is_ready beside.old }
        ensures ready { is_ready beside.new }
        ensures keeps { OnOk result (identity self.new ≡ identity self.old) }
        ensures stands { OnOk result ((s : State) → stands self.old s → stands self.new s) }
        ensures holds { OnOk result ((s : State) → stands self.old s → holds self.old beside.old s → holds self.new beside.new s) }
        ensures may { may_leave self.old AfterTurn beside.old beside.new }
        ensures ended { OnOk result (has_ended self.old made beside.old beside.new) }
        ensures later { faults beside.old ≤ faults beside.new }
        ensures counted { CountsFault (faults beside.old) (faults beside.new) result };

    /// Of an exchange the first steps may be none.
    ghost none_posted: { (target : Self.Target) (message : Self.Message) (wire : Option WireState) → posts target message None wire wire };
}
