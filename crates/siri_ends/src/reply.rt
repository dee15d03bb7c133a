//! What a connection is to be answered. What a producer can lend isn't made: it is written after the settle.

ghost use Rattle.std.specs.Prelude.{◌≡◌, IfOk, OnOk, Some, true, false};
ghost use Rattle.siri_http.specs.Texts.{is_written};
ghost use Rattle.siri_messages.specs.declared.message.Message.TheVariants as message;
ghost use Rattle.siri_model.specs.History.{History};
ghost use Rattle.siri_producer.specs.Known.{StandsFor};
ghost use Rattle.siri_subscriptions.specs.replies.Parts.{refused_supply};
ghost use Rattle.siri_ends.specs.Lending.{CanBeWritten, Prepares, PreparesFor, delivering, is_direct, message_response};
ghost use Rattle.siri_ends.specs.Looks.{FollowsAlike, LooksToReply};
ghost use Rattle.siri_ends.specs.Responses.{message_asked, producer_reply, replying};
ghost use Rattle.siri_ends.specs.Turns.{TakesFor};

use crate::answering::{Brought, brought_by};
use crate::response::{Response, replying};
use siri_base::{Copies, Moment, Name, OutOfMemory};
use siri_http::Asked;
use siri_messages::{DataSupplyRequest, Message, ServiceRequest};
use siri_producer::{Producer, Supplied, is_lent};
use siri_subs::SupplyError;
use siri_subscriptions::refused_supply;
use std::alloc::Global;

/// What a connection is to be answered.
#[derive(Drop)]
pub enum Reply {
    /// A response that was made, or nothing, where the request didn't come whole.
    Made(Option<Response>),
    /// The direct response to a request whose items are lent. The producer isn't told of the request.
    Direct(ServiceRequest),
    /// The wanted part of a subscription, which was supplied and is lent.
    Part {
        subscriber: Name,
        subscription: Name,
    },
}

/// Takes a message, and makes its answer.
#[tactic(auto, using(crate::proofs::Looks::alike_taken, crate::proofs::Looks::looks_taken))]
fn answer_message(
    alloc: Global,
    producer: &mut Producer,
    message: Message,
) -> Result<Response, OutOfMemory>
    ensures stands { OnOk result (TakesFor producer.old producer.new (Some message)) }
    ensures response { IfOk result (λ response. (h : History) → StandsFor producer.old h → response ≡ replying (producer_reply producer.old.responder.name h message)) }
    ensures written { IfOk result (λ response. is_written response.status ≡ true) }
    ensures name { producer.new.responder.name ≡ producer.old.responder.name }
    ensures looks { is_direct message ≡ false → LooksToReply producer.old producer.new (Some message) }
    ensures follows { OnOk result (FollowsAlike producer.old producer.new (Some message)) }
{
    let answer = producer.take_owned(message)?;
    let response = replying(alloc, answer.reply.as_ref());
    drop(answer);
    response
}

/// The same as a reply.
#[tactic(auto, using(crate::proofs::Lends::makes))]
fn make_reply(
    alloc: Global,
    producer: &mut Producer,
    message: Message,
) -> Result<Reply, OutOfMemory>
    ensures prepares { IfOk result (λ reply. Prepares producer.old producer.new (Some message) (message_response message) reply) }
    ensures written { IfOk result CanBeWritten }
    ensures name { producer.new.responder.name ≡ producer.old.responder.name }
    ensures looks { is_direct message ≡ false → LooksToReply producer.old producer.new (Some message) }
    ensures follows { OnOk result (FollowsAlike producer.old producer.new (Some message)) }
{
    let response = answer_message(alloc, producer, message)?;
    Ok(Reply::Made(Some(response)))
}

/// The answer at a moment to a request for a part that isn't supplied.
fn refuse_part(
    alloc: Global,
    producer: &Name,
    now: Moment,
    why: SupplyError,
) -> Result<Response, OutOfMemory>
    ensures response { IfOk result (λ response. response ≡ delivering (refused_supply producer.now now why)) }
    ensures written { IfOk result (λ response. is_written response.status ≡ true) }
{
    let message = Message::ServiceDelivery(refused_supply(alloc, producer, now, why)?);
    let response = replying(alloc, Some(&message));
    drop(message);
    response
}

/// A request for a part is taken. The part isn't made, where it is supplied.
#[tactic(auto, using(crate::proofs::Lends::supplies_part, crate::proofs::Lends::supplies_none, crate::proofs::Looks::alike_taken, crate::proofs::Looks::looks_none))]
fn reply_to_supply(
    alloc: Global,
    producer: &mut Producer,
    request: &DataSupplyRequest,
) -> Result<Reply, OutOfMemory>
    requires { request.now.all_data ≡ false }
    ensures prepares { IfOk result (λ reply. Prepares producer.old producer.new (Some (message.DataSupplyRequest request.now)) (message_response (message.DataSupplyRequest request.now)) reply) }
    ensures written { IfOk result CanBeWritten }
    ensures name { producer.new.responder.name ≡ producer.old.responder.name }
    ensures looks { LooksToReply producer.old producer.new (Some (message.DataSupplyRequest request.now)) }
    ensures follows { OnOk result (FollowsAlike producer.old producer.new (Some (message.DataSupplyRequest request.now))) }
{
    let subscriber = request.consumer_ref.copy()?;
    let subscription = request.extensions.subscription.copy()?;
    let now = producer.now();
    let why = match producer.supply(request) {
        Supplied::Part => {
            return Ok(Reply::Part {
                subscriber,
                subscription,
            });
        }
        Supplied::AllData => unreachable!(),
        Supplied::NothingReady => SupplyError::NothingReady,
        Supplied::WrongPart { wanted } => SupplyError::WrongPart { wanted },
    };
    let response = refuse_part(alloc, producer.name(), now, why)?;
    Ok(Reply::Made(Some(response)))
}

/// Whether a message is a request for items whose answer is lent.
fn is_direct(message: &Message) -> bool
    ensures { result ≡ is_direct message.now }
{
    match message {
        Message::ServiceRequest(request) => is_lent(request),
        _ => false,
    }
}

/// What a message is to be answered. It is taken, but for a request for items whose answer is lent.
#[tactic(auto, using(crate::proofs::Lends::directs, crate::proofs::Lends::asks_directly, crate::proofs::Looks::alike_direct, crate::proofs::Looks::looks_none))]
pub fn reply_to(
    alloc: Global,
    producer: &mut Producer,
    message: Message,
) -> Result<Reply, OutOfMemory>
    ensures prepares { IfOk result (λ reply. Prepares producer.old producer.new (Some message) (message_response message) reply) }
    ensures written { IfOk result CanBeWritten }
    ensures name { producer.new.responder.name ≡ producer.old.responder.name }
    ensures looks { LooksToReply producer.old producer.new (Some message) }
    ensures follows { OnOk result (FollowsAlike producer.old producer.new (Some message)) }
{
    if is_direct(&message) {
        let Some(request) = message.into_service_request() else {
            unreachable!()
        };
        return Ok(Reply::Direct(request));
    }
    if let Message::DataSupplyRequest(request) = &message {
        if !request.all_data {
            let reply = reply_to_supply(alloc, producer, request);
            drop(message);
            return reply;
        }
    }
    make_reply(alloc, producer, message)
}

/// Takes the message that a connection brings, where it brings one and it isn't answered directly, and tells what the
/// connection is to be answered.
#[tactic(auto, using(crate::proofs::Looks::alike_none, crate::proofs::Looks::looks_none))]
pub(crate) fn reply_for(
    alloc: Global,
    producer: &mut Producer,
    asked: &Asked,
) -> Result<Reply, OutOfMemory>
    ensures prepares { IfOk result (PreparesFor producer.old producer.new asked.now) }
    ensures written { IfOk result CanBeWritten }
    ensures name { producer.new.responder.name ≡ producer.old.responder.name }
    ensures looks { LooksToReply producer.old producer.new (message_asked asked.now) }
    ensures follows { OnOk result (FollowsAlike producer.old producer.new (message_asked asked.now)) }
{
    match brought_by(alloc, asked)? {
        Brought::Message(message) => reply_to(alloc, producer, message),
        Brought::Refused(response) => Ok(Reply::Made(Some(response))),
        Brought::Nothing => Ok(Reply::Made(None)),
    }
}
