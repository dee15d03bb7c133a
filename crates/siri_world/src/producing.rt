//! What the producer does in an event.

ghost use Rattle.std.specs.Prelude.{◌≡◌, ◌≤◌, ◌+◌, ◌*◌, [], ◌∷◌, ◌++◌, length, IfOk, OnOk};
ghost use Rattle.siri_model.specs.History.{History, Clock, Feed, Take, Settle, entries_of};
ghost use Rattle.siri_responder.specs.Topics.{topics_in};
ghost use Rattle.siri_producer.specs.Answers.{answer_to};
ghost use Rattle.siri_producer.specs.Known.{GoesOn};
ghost use Rattle.siri_world_model.specs.Lines.{told_lines};
ghost use Rattle.siri_world_model.specs.Packets.{ToConsumer, packets_out, producer as producer_name, reply_to};
ghost use Rattle.siri_world.specs.Kept.{sent_packet, sent_packets};
ghost use Rattle.siri_world.specs.Known.{Serves};
ghost use Rattle.siri_world.specs.Serving.{SendsFor, Settles, fed_line, answer_line, took_line};

use crate::happened::{Happened, one, reply_to, told};
use crate::packets::{Packet, packet_to, producer_name};
use siri_base::{List, Moment, Name, OutOfMemory};
use siri_messages::{Message, ServiceDelivery, ServiceRequest};
use siri_producer::{Answer, Out, Producer};
use siri_world_model::{Line, Word};
use std::alloc::Global;

/// A later moment, and a settle.
pub(crate) fn clock(
    alloc: Global,
    producer: &mut Producer,
    now: Moment,
) -> Result<Happened, OutOfMemory>
    ensures { IfOk result (λ happened. (h : History) → Serves producer.old h → Settles producer.new h (Clock now) [] [] happened) }
{
    producer.clock(now);
    let mut packets = List::new(alloc);
    settle(alloc, producer, &mut packets)?;
    Ok(Happened {
        lines: List::new(alloc),
        packets,
    })
}

/// A feed, whose items the producer keeps, and which is told in numbers, and a settle.
pub(crate) fn feed(
    alloc: Global,
    producer: &mut Producer,
    delivery: ServiceDelivery,
) -> Result<Happened, OutOfMemory>
    ensures { IfOk result (λ happened. (h : History) → Serves producer.old h → Settles producer.new h (Feed (entries_of delivery)) (fed_line h delivery ∷ []) [] happened) }
{
    let fed = producer.feed_owned(delivery)?;
    let mut packets = List::new(alloc);
    settle(alloc, producer, &mut packets)?;
    Ok(Happened {
        lines: one(alloc, Line::Fed(fed))?,
        packets,
    })
}

/// A request is answered by the direct response. No settle follows.
pub(crate) fn ask(
    alloc: Global,
    producer: &mut Producer,
    request: &ServiceRequest,
) -> Result<Happened, OutOfMemory>
    ensures answer { IfOk result (λ happened. (h : History) → Serves producer.old h → told_lines happened.lines ≡ answer_line h request.now ∷ []) }
    ensures sends { IfOk result (λ happened. happened.packets ≡ []) }
    ensures rest { (h : History) → Serves producer.old h → Serves producer.new h }
    ensures reads { producer.new.responder.reads ≤ producer.old.responder.reads + length producer.old.responder.held * topics_in request.now }
{
    let response = producer.direct(request)?;
    told(alloc, Line::Answer(Message::ServiceDelivery(response)))
}

/// A message of a consumer is taken, and after a settle the reply goes to the consumer.
pub(crate) fn answer(
    alloc: Global,
    producer: &mut Producer,
    sender: &Name,
    message: &Message,
) -> Result<Happened, OutOfMemory>
    ensures { IfOk result (λ happened. (h : History) → Serves producer.old h
        → Settles producer.new h (Take message.now) (took_line (answer_to producer_name h message.now) ∷ []) (reply_to sender.now (answer_to producer_name h message.now).reply) happened) }
{
    let Answer { note, reply } = producer.take(message)?;
    let mut sent = reply_to(alloc, sender, reply)?;
    settle(alloc, producer, &mut sent)?;
    let receiver = producer_name(alloc)?;
    let word = Word::Producer(note);
    Ok(Happened {
        lines: one(alloc, Line::Took { receiver, word })?,
        packets: sent,
    })
}

/// A settle: what it sends comes after what was sent before.
fn settle(
    alloc: Global,
    producer: &mut Producer,
    packets: &mut List<Packet>,
) -> Result<(), OutOfMemory>
    ensures stands { OnOk result (GoesOn producer.old producer.new Settle) }
    ensures sends { OnOk result (SendsFor producer.old (sent_packets packets.old) (sent_packets packets.new)) }
    ensures name { producer.new.responder.name ≡ producer.old.responder.name }
{
    let outs = producer.settle()?;
    push_outs(alloc, outs, packets)
}

/// What a settle sends, as packets after those that are there.
fn push_outs(alloc: Global, outs: List<Out>, packets: &mut List<Packet>) -> Result<(), OutOfMemory>
    ensures { OnOk result (sent_packets packets.new ≡ sent_packets packets.old ++ packets_out outs) }
{
    for out in outs.into_vec() {
        packets.push(packet_of(alloc, out)?)?;
    }
    Ok(())
}

/// The packet of what a settle sends: to the subscriber by name, the address isn't looked at.
fn packet_of(alloc: Global, out: Out) -> Result<Packet, OutOfMemory>
    ensures { IfOk result (λ packet. sent_packet packet ≡ ToConsumer out.to out.message) }
{
    packet_to(alloc, out.to, out.message)
}
