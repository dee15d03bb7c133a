//! A relay as an end of the exchange.

ghost use Rattle.std.specs.Prelude.{◌≡◌, ◌≤◌, ◌+◌, ◌∷◌, List, ℕ, [], IfOk, OnOk, Option, Some};
ghost use Rattle.siri_model.specs.History.{History, Settle};
ghost use Rattle.siri_producer.specs.Known.{Follows, StandsFor};
ghost use Rattle.siri_producer.specs.Sends.{sends};
ghost use Rattle.siri_relay.specs.Goes.{GoesBy};
ghost use Rattle.siri_ends.specs.Responses.{message_asked, replying, responding};
ghost use Rattle.siri_ends.specs.Looks.{settle_looks};
ghost use Rattle.siri_ends.specs.Turns.{AreWritten};
ghost use Rattle.siri_relay_run.specs.Looks.{RelayLooksHearing, RelayLooksOnce, RelayLooksToReply, steps_taken};
ghost use Rattle.siri_relay_run.specs.Passing.{after_moment};
ghost use Rattle.siri_relay_run.specs.Relays.{PostsGoing, Relaying, all_up, further_up, goings, heard_of, none_posted_going, relay_reply, relaying};
ghost use Rattle.siri_relay_run.specs.Steps.{Hears, IsAcknowledging, Stands, RelayTakes, name_of};

use crate::going::Going;
use siri_base::{List, Moment, OutOfMemory};
use siri_ends::{Brought, Response, Taker, brought_by, finish, replying, split_replies};
use siri_http::{Address, Asked, Sent, Tally};
use siri_messages::Message;
use siri_outside::{OutsideError, Wire};
use siri_producer::{Answer, Out, Producer};
use siri_relay::{Relay, RelayAnswer};
use siri_view::Consumer;
use std::alloc::Global;

/// A relay, as what takes the messages of connections.
#[derive(Drop)]
pub(crate) struct RelayTaker {
    pub relay: Relay,
}

/// What a connection is answered whose message the producer took.
fn answer_down(
    alloc: Global,
    answer: Answer,
) -> Result<(Option<Response>, List<Message>), OutOfMemory>
    ensures response { IfOk result (λ answered. answered.0 ≡ Some (replying answer.reply)) }
    ensures written { IfOk result (λ answered. AreWritten answered.0) }
    ensures further { IfOk result (λ answered. answered.1 ≡ []) }
{
    let response = replying(alloc, answer.reply.as_ref());
    drop(answer);
    Ok((Some(response?), List::new(alloc)))
}

/// Takes a message: what a connection that brought it is answered, and the further replies to the source.
#[tactic(auto, using(crate::proofs::Takes::takes, crate::proofs::Takes::up_response, crate::proofs::Takes::up_further, crate::proofs::Takes::down_response, crate::proofs::Takes::down_further, crate::proofs::Looks::looks_taken))]
fn answer_message(
    alloc: Global,
    relay: &mut Relay,
    message: Message,
) -> Result<(Option<Response>, List<Message>), OutOfMemory>
    ensures takes { OnOk result (RelayTakes relay.old relay.new (Some message)) }
    ensures response { IfOk result (λ answered. (state : Relaying) → Stands relay.old state → answered.0 ≡ Some (replying (relay_reply (name_of relay.old) state message))) }
    ensures written { IfOk result (λ answered. AreWritten answered.0) }
    ensures further { IfOk result (λ answered. (state : Relaying) → Stands relay.old state → answered.1 ≡ further_up state (Some message)) }
    ensures looks { RelayLooksToReply relay.old relay.new (Some message) }
    ensures goes { OnOk result (GoesBy relay.old.producer relay.new.producer (steps_taken relay.old (Some message))) }
{
    match relay.take_owned(message)? {
        RelayAnswer::Up(seen) => split_replies(alloc, seen.replies),
        RelayAnswer::Down(answer) => answer_down(alloc, answer),
    }
}

/// Takes the message that a connection brings, where it brings one: what it is answered, and the further replies to the
/// source.
#[tactic(auto, using(siri_relay::proofs::Goings::goes_none, crate::proofs::Looks::looks_none))]
fn reply_to(
    alloc: Global,
    relay: &mut Relay,
    asked: &Asked,
) -> Result<(Option<Response>, List<Message>), OutOfMemory>
    ensures takes { OnOk result (RelayTakes relay.old relay.new (message_asked asked.now)) }
    ensures response { IfOk result (λ replied. (state : Relaying) → Stands relay.old state → replied.0 ≡ responding (relay_reply (name_of relay.old) state) asked.now) }
    ensures written { IfOk result (λ replied. AreWritten replied.0) }
    ensures further { IfOk result (λ replied. (state : Relaying) → Stands relay.old state → replied.1 ≡ further_up state (message_asked asked.now)) }
    ensures looks { RelayLooksToReply relay.old relay.new (message_asked asked.now) }
    ensures goes { OnOk result (GoesBy relay.old.producer relay.new.producer (steps_taken relay.old (message_asked asked.now))) }
{
    match brought_by(alloc, asked)? {
        Brought::Message(message) => answer_message(alloc, relay, message),
        Brought::Refused(response) => Ok((Some(response), List::new(alloc))),
        Brought::Nothing => Ok((None, List::new(alloc))),
    }
}

/// What goes up, and behind it what goes down.
fn goings(alloc: Global, up: List<Message>, down: List<Out>) -> Result<List<Going>, OutOfMemory>
    ensures { IfOk result (λ list. list ≡ goings up down) }
{
    let mut list = List::new(alloc);
    for message in up.into_vec() {
        list.push(Going::Up(message))?;
    }
    for out in down.into_vec() {
        list.push(Going::Down(out))?;
    }
    Ok(list)
}

/// Settles, and gives what is to be sent: what goes up, and behind it what was settled.
fn settle(alloc: Global, relay: &mut Relay, up: List<Message>) -> Result<List<Going>, OutOfMemory>
    ensures goes { OnOk result (GoesBy relay.old.producer relay.new.producer (Settle ∷ [])) }
    ensures rest { OnOk result (relay.new ≡ record relay.old { producer = relay.new.producer }) }
    ensures list { IfOk result (λ list. (h : History) → StandsFor relay.old.producer h → list ≡ goings up (sends (name_of relay.old) h)) }
    ensures risen { relay.old.producer.responder.reads ≤ relay.new.producer.responder.reads }
    ensures bound { (h : History) → Follows relay.old.producer h → relay.new.producer.responder.reads ≤ relay.old.producer.responder.reads + settle_looks h }
{
    let outs = relay.settle();
    goings(alloc, up, outs?)
}

/// Takes a message that was answered, and gives the replies to it, all of which go to the source.
#[tactic(auto, using(crate::proofs::Takes::takes, crate::proofs::Takes::up_all, crate::proofs::Takes::down_all, crate::proofs::Looks::looks_taken))]
fn take_answered(
    alloc: Global,
    relay: &mut Relay,
    message: Message,
) -> Result<List<Message>, OutOfMemory>
    ensures takes { OnOk result (RelayTakes relay.old relay.new (Some message)) }
    ensures up { IfOk result (λ up. (state : Relaying) → Stands relay.old state → up ≡ all_up state message) }
    ensures looks { RelayLooksToReply relay.old relay.new (Some message) }
    ensures goes { OnOk result (GoesBy relay.old.producer relay.new.producer (steps_taken relay.old (Some message))) }
{
    match relay.take_owned(message)? {
        RelayAnswer::Up(seen) => Ok(seen.replies),
        RelayAnswer::Down(answer) => {
            drop(answer);
            Ok(List::new(alloc))
        }
    }
}

/// Takes a message that was answered and settles it, and gives what that sends.
#[tactic(auto, using(crate::proofs::Takes::hears, crate::proofs::Looks::looks_settled, crate::proofs::Looks::looks_unsettled))]
fn hear_message(
    alloc: Global,
    relay: &mut Relay,
    message: Message,
) -> Result<List<Going>, OutOfMemory>
    ensures hears { IfOk result (λ list. Hears relay.old relay.new (Some message) list) }
    ensures looks { RelayLooksOnce relay.old relay.new (Some message) }
{
    let up = take_answered(alloc, relay, message)?;
    settle(alloc, relay, up)
}

/// Whether a message acknowledges what was sent.
fn is_acknowledgement(message: &Message) -> bool
    ensures { IsAcknowledging result message.now }
{
    match message {
        Message::DataReceivedAcknowledgement(_) => true,
        _ => false,
    }
}

/// What is heard of a message that was answered to one that was sent.
fn heard_of(sent: &Going, message: Message) -> Option<Message>
    ensures { result ≡ heard_of sent.now message }
{
    match sent {
        Going::Up(_) => Some(message),
        Going::Down(_) => {
            if is_acknowledgement(&message) {
                Some(message)
            } else {
                drop(message);
                None
            }
        }
    }
}

/// Hears a message, where there is one.
#[tactic(auto, using(crate::proofs::Takes::hears_nothing))]
fn hear(
    alloc: Global,
    relay: &mut Relay,
    message: Option<Message>,
) -> Result<List<Going>, OutOfMemory>
    ensures hears { IfOk result (λ list. Hears relay.old relay.new message list) }
    ensures looks { RelayLooksHearing relay.old relay.new message }
{
    match message {
        Some(message) => hear_message(alloc, relay, message),
        None => Ok(List::new(alloc)),
    }
}

impl Taker<()> for RelayTaker {
    type Reply = Option<Response>;

    type Message = Going;

    type Target = Address;

    ghost Identity = { List ℕ };

    ghost identity = { λ taker. name_of taker.relay };

    ghost State = { Relaying };

    ghost stands = { λ taker state. Stands taker.relay state };

    ghost holds = { λ _ _ _. Unit {0} };

    ghost looks_taking = { λ old asked new. RelayLooksOnce old.relay new.relay (message_asked asked) };

    ghost looks_hearing = { λ old sent message new. RelayLooksHearing old.relay new.relay (heard_of sent message) };

    ghost given = { λ now state. after_moment now state };

    ghost refuses = { λ _ _. Unit {0} };

    ghost manner = { relaying };

    ghost posts = { λ upstream. PostsGoing upstream.host upstream.path };

    ghost can_be_written = { AreWritten };

    ghost is_reply = { λ _ reply _ response. response ≡ reply };

    fn clock(&mut self, _beside: &mut (), now: Moment) -> Result<(), OutsideError> {
        self.relay.clock(now)?;
        Ok(())
    }

    #[tactic(auto, using(crate::proofs::Looks::looks_settled, crate::proofs::Looks::looks_unsettled))]
    fn take(
        &mut self,
        alloc: Global,
        _beside: &mut (),
        asked: &Asked,
    ) -> Result<(Option<Response>, List<Going>), OutsideError> {
        let (response, further) = reply_to(alloc, &mut self.relay, asked)?;
        let list = settle(alloc, &mut self.relay, further)?;
        Ok((response, list))
    }

    fn write_reply<W: Wire>(
        &mut self,
        alloc: Global,
        wire: &mut W,
        reply: &Option<Response>,
        tally: &mut Tally,
    ) -> Result<(), OutOfMemory> {
        finish(alloc, wire, reply, tally)
    }

    fn post<W: Wire>(
        alloc: Global,
        wire: &mut W,
        message: &Going,
        upstream: &Address,
    ) -> Result<Sent, OutOfMemory> {
        match message {
            Going::Up(message) => Consumer::post(alloc, wire, message, upstream),
            Going::Down(out) => Producer::post(alloc, wire, out, &()),
        }
    }

    #[tactic(auto, using(crate::proofs::Takes::heard))]
    fn hear(
        &mut self,
        alloc: Global,
        sent: &Going,
        message: Message,
    ) -> Result<List<Going>, OutOfMemory> {
        let heard = heard_of(sent, message);
        let list = hear(alloc, &mut self.relay, heard)?;
        Ok(list)
    }

    fn end_turn(&mut self, _beside: &mut (), _made: u64) -> Result<(), OutsideError> {
        Ok(())
    }

    ghost none_posted = { λ upstream message wire. none_posted_going upstream.host upstream.path message wire };
}
