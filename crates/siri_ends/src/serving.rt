//! Serves a connection.

ghost use Rattle.std.specs.Prelude.{◌≡◌, false, ◌∷◌, ◌++◌, List, [], ℕ, Option, IfOk, OnOk, OnErr, Some};
ghost use Rattle.siri_model.specs.History.{Clock, History};
ghost use Rattle.siri_producer.specs.Known.{SameButReads, StandsFor};
ghost use Rattle.siri_ends.specs.declared.response.Response.{Response};
ghost use Rattle.siri_ends.specs.Answering.{AnswersWith, StopsWriting};
ghost use Rattle.siri_ends.specs.At.{at_of, surroundings};
ghost use Rattle.siri_ends.specs.Lending.{CanBeWritten, IsReply, is_direct};
ghost use Rattle.siri_ends.specs.Looks.{LooksHearing, LooksOnce};
ghost use Rattle.siri_ends.specs.Responses.{message_asked};
ghost use Rattle.siri_ends.specs.Serving.{Goes, PostsOut, ServesOne, ServesSome, acknowledging, none_posted_out, serving};
ghost use Rattle.siri_ends.specs.Turns.{Acknowledges};

use crate::answering::finish;
use crate::lending::{write_direct, write_part};
use crate::reply::{Reply, reply_for};
use crate::taker::Taker;
use crate::turning::take_turn;
use siri_base::{List, Moment, OutOfMemory};
use siri_http::{Asked, Asking, Sent, Tally, post};
use siri_messages::Message;
use siri_outside::{OutsideError, Wire};
use siri_producer::{Out, Producer};
use siri_wire::encode;
use std::alloc::Global;

/// Writes what a connection is to be answered, and hangs up.
fn write_reply<W: Wire>(
    alloc: Global,
    wire: &mut W,
    producer: &mut Producer,
    reply: &Reply,
    tally: &mut Tally,
) -> Result<(), OutOfMemory>
    requires there { W.is_open wire.old }
    requires written { CanBeWritten reply.now }
    ensures ok { OnOk result ((h : History) (response : Option Response) → StandsFor producer.old h → IsReply reply.now producer.old.responder.name h response → AnswersWith response (surroundings tally.old (W.tells wire.old) (W.faults wire.old)) (surroundings tally.new (W.tells wire.new) (W.faults wire.new))) }
    ensures err { OnErr result ((h : History) (response : Option Response) → StandsFor producer.old h → IsReply reply.now producer.old.responder.name h response → StopsWriting response (W.tells wire.old) (W.tells wire.new)) }
    ensures rest { OnOk result (SameButReads producer.old producer.new) }
{
    match reply {
        Reply::Made(response) => finish(alloc, wire, response, tally),
        Reply::Direct(request) => write_direct(alloc, wire, producer, request, tally),
        Reply::Part {
            subscriber,
            subscription,
        } => write_part(alloc, wire, producer, subscriber, subscription, tally),
    }
}

/// Takes an acknowledgement and settles it, and gives what that sends.
#[tactic(auto, using(crate::proofs::Looks::heard_settled, crate::proofs::Looks::heard_unsettled))]
fn settle_acknowledgement(
    producer: &mut Producer,
    message: &Message,
) -> Result<List<Out>, OutOfMemory>
    ensures acknowledges { IfOk result (λ outs. Acknowledges producer.old producer.new (Some message.now) outs) }
    ensures looks { is_direct message.now ≡ false → LooksOnce producer.old producer.new (Some message.now) }
{
    producer.take(message)?;
    let outs = producer.settle()?;
    Ok(outs)
}

/// Takes a message that was answered, where it is an acknowledgement.
#[tactic(auto, using(crate::proofs::Serves::acknowledges_nothing))]
fn hear_message(
    alloc: Global,
    producer: &mut Producer,
    message: &Message,
) -> Result<List<Out>, OutOfMemory>
    ensures acknowledges { IfOk result (λ outs. Acknowledges producer.old producer.new (acknowledging message.now) outs) }
    ensures looks { LooksHearing producer.old producer.new (acknowledging message.now) }
{
    match message {
        Message::DataReceivedAcknowledgement(_) => settle_acknowledgement(producer, message),
        _ => Ok(List::new(alloc)),
    }
}

impl Taker<()> for Producer {
    type Reply = Reply;

    type Message = Out;

    type Target = ();

    ghost Identity = { List ℕ };

    ghost identity = { λ producer. producer.responder.name };

    ghost State = { History };

    ghost stands = { StandsFor };

    ghost holds = { λ _ _ _. Unit {0} };

    ghost looks_taking = { λ old asked new. LooksOnce old new (message_asked asked) };

    ghost looks_hearing = { λ old _ message new. LooksHearing old new (acknowledging message) };

    ghost given = { λ now h. h ++ Clock now ∷ [] };

    ghost refuses = { λ _ _. ⊥ };

    ghost manner = { serving };

    ghost posts = { λ _. PostsOut };

    ghost can_be_written = { CanBeWritten };

    ghost is_reply = { λ name reply h response. IsReply reply name h response };

    fn clock(&mut self, _beside: &mut (), now: Moment) -> Result<(), OutsideError> {
        self.clock(now);
        Ok(())
    }

    #[tactic(auto, using(crate::proofs::Looks::looks_settled, crate::proofs::Looks::looks_unsettled))]
    fn take(
        &mut self,
        alloc: Global,
        _beside: &mut (),
        asked: &Asked,
    ) -> Result<(Reply, List<Out>), OutsideError> {
        let reply = reply_for(alloc, self, asked)?;
        let outs = self.settle()?;
        Ok((reply, outs))
    }

    fn write_reply<W: Wire>(
        &mut self,
        alloc: Global,
        wire: &mut W,
        reply: &Reply,
        tally: &mut Tally,
    ) -> Result<(), OutOfMemory> {
        write_reply(alloc, wire, self, reply, tally)
    }

    #[tactic(auto, using(crate::specs::Serving::none_posted_out))]
    fn post<W: Wire>(
        alloc: Global,
        wire: &mut W,
        out: &Out,
        _target: &(),
    ) -> Result<Sent, OutOfMemory> {
        match &out.address {
            Some(address) => {
                let document = encode(alloc, &out.message)?;
                post(alloc, wire, address, &document)
            }
            None => Ok(Sent::Refused),
        }
    }

    #[tactic(auto, using(crate::proofs::Serves::heard))]
    fn hear(
        &mut self,
        alloc: Global,
        _sent: &Out,
        message: Message,
    ) -> Result<List<Out>, OutOfMemory> {
        let outs = hear_message(alloc, self, &message);
        drop(message);
        let outs = outs?;
        Ok(outs)
    }

    fn end_turn(&mut self, _beside: &mut (), _made: u64) -> Result<(), OutsideError> {
        Ok(())
    }

    ghost none_posted = { λ _ out wire. none_posted_out out wire };
}

/// Serves the connection that was accepted. Its request is read; where it is a POST whose body is a document, or asks
/// what such a POST asks by [`Asking`], the message is taken; the producer settles; the answer is written, and the
/// connection hung up. What was settled is then sent out, as [`send_all`](crate::send_all) says; of what is answered to it
/// a DataReceivedAcknowledgement is taken and settled.
///
/// The answer has status 200 and the reply's document, or an empty body where there is no reply. A refused head, method
/// or body is answered with its own status and a line of text, and counted as refused. A request that didn't come whole
/// is answered nothing, and the connection is counted as dropped, as is one whose answer wasn't written whole.
///
/// The items of a direct response without MaximumStopVisits, and those of a part that is supplied, are written one by one
/// from what the producer lends. Where the length of such an answer would pass 2^64 - 1, memory counts as wanting. After
/// want of memory while an answer is written, a front of it was written.
pub fn serve_one<W: Wire, A: Asking>(
    alloc: Global,
    wire: &mut W,
    producer: &mut Producer,
    tally: &mut Tally,
) -> Result<(), OutOfMemory>
    requires there { W.is_open wire.old }
    ensures ok { OnOk result (Goes (ServesOne A.asks) (at_of producer.old tally.old (W.tells wire.old) (W.faults wire.old)) (at_of producer.new tally.new (W.tells wire.new) (W.faults wire.new))) }
    ensures err { OnErr result ((h : History) → StandsFor producer.old h → ServesSome A.asks producer.old.responder.name (at_of h tally.old (W.tells wire.old) (W.faults wire.old)) (W.tells wire.new)) }
{
    match take_turn::<W, A, (), Producer>(alloc, wire, &(), producer, &mut (), tally) {
        Ok(()) => Ok(()),
        Err(_) => Err(OutOfMemory),
    }
}
