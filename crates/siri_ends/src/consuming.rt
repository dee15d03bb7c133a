//! Answers a connection as a consumer.

ghost use Rattle.std.specs.Prelude.{◌≡◌, IfOk, OnOk, OnErr, Some};
ghost use Rattle.siri_view.specs.Consuming.{Consuming, after_message, clocked, seen_of};
ghost use Rattle.siri_ends.specs.Responses.{replying};
ghost use Rattle.siri_ends.specs.At.{at_of};
ghost use Rattle.siri_ends.specs.Consuming.{ConsumesOne, ConsumesSome, FirstSendsUp, PostsUp, SendsUp, consuming, first_of, further_of, none_posted_up};
ghost use Rattle.siri_ends.specs.Turns.{AreWritten};

use crate::Tally;
use crate::answering::{Brought, brought_by, finish};
use crate::response::{Response, replying};
use crate::sending::send_all;
use crate::taker::Taker;
use crate::turning::take_turn;
use siri_base::{List, Moment, OutOfMemory};
use siri_http::{Address, Asked, PostAlone, Sent, post_to};
use siri_messages::Message;
use siri_outside::{OutsideError, Wire};
use siri_view::Consumer;
use siri_wire::encode;
use std::alloc::Global;
use std::collections::VecDeque;

/// Takes a message, and gives the replies to it.
fn take_message(consumer: &mut Consumer, message: Message) -> Result<List<Message>, OutOfMemory>
    ensures consumer { OnOk result (consumer.new ≡ after_message consumer.old message) }
    ensures replies { IfOk result (λ replies. replies ≡ (seen_of consumer.old message).replies) }
{
    Ok(consumer.take_owned(message)?.replies)
}

/// What a connection is answered with these replies to its message, and what is to be sent then: the first of them, and the
/// further ones. Without a reply the answer has an empty body.
pub fn split_replies(
    alloc: Global,
    replies: List<Message>,
) -> Result<(Option<Response>, List<Message>), OutOfMemory>
    ensures response { IfOk result (λ split. split.0 ≡ Some (replying (first_of replies))) }
    ensures written { IfOk result (λ split. AreWritten split.0) }
    ensures further { IfOk result (λ split. split.1 ≡ further_of replies) }
{
    let mut replies = VecDeque::from(replies.into_vec());
    let first = replies.pop_front();
    let response = replying(alloc, first.as_ref());
    drop(first);
    let further = List::of(Vec::from(replies));
    match response {
        Ok(response) => Ok((Some(response), further)),
        Err(OutOfMemory) => {
            drop(further);
            Err(OutOfMemory)
        }
    }
}

/// Takes the message that a connection brings, where it brings one: the answer, where there is one, and what is to be
/// sent up.
fn reply_to(
    alloc: Global,
    consumer: &mut Consumer,
    asked: &Asked,
) -> Result<(Option<Response>, List<Message>), OutOfMemory>
    ensures consumer { OnOk result (consumer.new ≡ consuming.after consumer.old asked.now) }
    ensures response { IfOk result (λ replied. replied.0 ≡ consuming.responds consumer.old asked.now) }
    ensures written { IfOk result (λ replied. AreWritten replied.0) }
    ensures further { IfOk result (λ replied. replied.1 ≡ consuming.sends consumer.old asked.now) }
{
    match brought_by(alloc, asked)? {
        Brought::Message(message) => {
            let replies = take_message(consumer, message)?;
            split_replies(alloc, replies)
        }
        Brought::Refused(response) => Ok((Some(response), List::new(alloc))),
        Brought::Nothing => Ok((None, List::new(alloc))),
    }
}

impl Taker<()> for Consumer {
    type Reply = Option<Response>;

    type Message = Message;

    type Target = Address;

    ghost Identity = { Unit {0} };

    ghost identity = { λ _. tt };

    ghost State = { Consuming };

    ghost stands = { λ consumer state. state ≡ consumer };

    ghost holds = { λ _ _ _. Unit {0} };

    ghost given = { λ now consumer. clocked consumer now };

    ghost refuses = { λ _ _. ⊥ };

    ghost manner = { λ _. consuming };

    ghost posts = { λ producer. PostsUp producer.host producer.path };

    ghost can_be_written = { AreWritten };

    ghost is_reply = { λ _ reply _ response. response ≡ reply };

    fn clock(&mut self, _beside: &mut (), now: Moment) -> Result<(), OutsideError> {
        self.clock(now);
        Ok(())
    }

    #[tactic(auto, using(crate::proofs::Consumes::took))]
    fn take(
        &mut self,
        alloc: Global,
        _beside: &mut (),
        asked: &Asked,
    ) -> Result<(Option<Response>, List<Message>), OutsideError> {
        let replied = reply_to(alloc, self, asked)?;
        Ok(replied)
    }

    fn write_reply<W: Wire>(
        &mut self,
        alloc: Global,
        wire: &mut W,
        reply: &Option<Response>,
        tally: &mut Tally,
    ) -> Result<(), OutOfMemory> {
        finish(alloc, wire, reply, tally)
    }

    #[tactic(auto, using(crate::specs::Consuming::none_posted_up))]
    fn post<W: Wire>(
        alloc: Global,
        wire: &mut W,
        message: &Message,
        producer: &Address,
    ) -> Result<Sent, OutOfMemory> {
        let document = encode(alloc, message)?;
        post_to(alloc, wire, producer, &document)
    }

    #[tactic(auto, using(crate::proofs::Consumes::heard))]
    fn hear(
        &mut self,
        _alloc: Global,
        _sent: &Message,
        message: Message,
    ) -> Result<List<Message>, OutOfMemory> {
        let replies = take_message(self, message)?;
        Ok(replies)
    }

    fn end_turn(&mut self, _beside: &mut (), _made: u64) -> Result<(), OutsideError> {
        Ok(())
    }

    ghost none_posted = { λ producer message wire. none_posted_up producer.host producer.path message wire };
}

/// Sends messages up to the producer's address, as [`send_all`] says. The message of a response of status 200, where its
/// body is a document, is taken, and all the replies to it join the end.
pub fn send_up<W: Wire>(
    alloc: Global,
    wire: &mut W,
    list: List<Message>,
    producer: &Address,
    consumer: &mut Consumer,
    tally: &mut Tally,
) -> Result<(), OutOfMemory>
    ensures ok { OnOk result (SendsUp producer.now.host producer.now.path list (at_of consumer.old tally.old (W.tells wire.old) (W.faults wire.old)) (at_of consumer.new tally.new (W.tells wire.new) (W.faults wire.new))) }
    ensures err { OnErr result (FirstSendsUp producer.now.host producer.now.path list consumer.old (W.tells wire.old) (W.tells wire.new)) }
{
    send_all::<W, (), Consumer>(alloc, wire, list, producer, consumer, tally)
}

/// Answers the connection that was accepted. Its request is read; where it is a POST whose body is a document, the
/// consumer takes the message; the answer is written, and the connection hung up. The further replies are then sent up
/// to the producer's address, as [`send_up`] says.
///
/// The answer has status 200 and the document of the first reply, or an empty body where there is no reply. A refused
/// head, method or body is answered with its own status and a line of text, and counted as refused. A request that
/// didn't come whole is answered nothing, and the connection is counted as dropped, as is one whose answer wasn't
/// written whole.
pub fn consume_one<W: Wire>(
    alloc: Global,
    wire: &mut W,
    producer: &Address,
    consumer: &mut Consumer,
    tally: &mut Tally,
) -> Result<(), OutOfMemory>
    requires there { W.is_open wire.old }
    ensures ok { OnOk result (ConsumesOne producer.now.host producer.now.path (at_of consumer.old tally.old (W.tells wire.old) (W.faults wire.old)) (at_of consumer.new tally.new (W.tells wire.new) (W.faults wire.new))) }
    ensures err { OnErr result (ConsumesSome producer.now.host producer.now.path (at_of consumer.old tally.old (W.tells wire.old) (W.faults wire.old)) (W.tells wire.new)) }
{
    match take_turn::<W, PostAlone, (), Consumer>(alloc, wire, producer, consumer, &mut (), tally) {
        Ok(()) => Ok(()),
        Err(_) => Err(OutOfMemory),
    }
}
