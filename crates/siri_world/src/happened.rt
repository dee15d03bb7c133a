//! What an event did.

ghost use Rattle.std.specs.Prelude.{◌≡◌, [], ◌∷◌, IfOk};
ghost use Rattle.std.specs.Option.{option_copied};
ghost use Rattle.siri_world_model.specs.Lines as line;
ghost use Rattle.siri_world_model.specs.Lines.{told_line, told_lines};
ghost use Rattle.siri_world_model.specs.Packets.{packets_from, reply_to};
ghost use Rattle.siri_world.specs.Kept.{sent_packets};

use crate::packets::{Packet, packet_for, packet_from};
use siri_base::{Copies, List, Name, OutOfMemory};
use siri_messages::Message;
use siri_world_model::Line;
use std::alloc::Global;

/// What an event told before its packets, and the packets that it sends, in order.
#[derive(Drop)]
pub(crate) struct Happened {
    pub lines: List<Line>,
    pub packets: List<Packet>,
}

/// A line is told, and nothing is sent.
pub(crate) fn told(alloc: Global, line: Line) -> Result<Happened, OutOfMemory>
    ensures { IfOk result (λ happened. (told_lines happened.lines ≡ told_line line ∷ []) × (happened.packets ≡ [])) }
{
    Ok(Happened {
        lines: one(alloc, line)?,
        packets: List::new(alloc),
    })
}

/// The list of one line.
pub(crate) fn one(alloc: Global, line: Line) -> Result<List<Line>, OutOfMemory>
    ensures { IfOk result (λ lines. lines ≡ line ∷ []) }
{
    let mut lines = List::new(alloc);
    lines.push(line)?;
    Ok(lines)
}

/// It is told that there is no such consumer, or that it doesn't hold the subscription.
pub(crate) fn unknown(
    alloc: Global,
    consumer: &Name,
    identifier: Option<&Name>,
) -> Result<Happened, OutOfMemory>
    ensures { IfOk result (λ happened. (told_lines happened.lines ≡ line.Unknown consumer.now (option_copied identifier.entry) ∷ []) × (happened.packets ≡ [])) }
{
    let identifier = copy_of(identifier)?;
    told(
        alloc,
        Line::Unknown {
            consumer: consumer.copy()?,
            identifier,
        },
    )
}

/// A copy of an identifier, where there is one.
fn copy_of(identifier: Option<&Name>) -> Result<Option<Name>, OutOfMemory>
    ensures { IfOk result (λ copy. copy ≡ option_copied identifier.entry) }
{
    match identifier {
        Some(identifier) => Ok(Some(identifier.copy()?)),
        None => Ok(None),
    }
}

/// A message is sent to the producer, and nothing is told.
pub(crate) fn sent(alloc: Global, sender: &Name, message: Message) -> Result<Happened, OutOfMemory>
    ensures { IfOk result (λ happened. (happened.lines ≡ []) × (sent_packets happened.packets ≡ packets_from sender.now (message ∷ []))) }
{
    let mut packets = List::new(alloc);
    packets.push(packet_from(alloc, sender, message)?)?;
    Ok(Happened {
        lines: List::new(alloc),
        packets,
    })
}

/// Messages are sent to the producer, in order, and nothing is told.
pub(crate) fn all_sent(
    alloc: Global,
    sender: &Name,
    messages: List<Message>,
) -> Result<Happened, OutOfMemory>
    ensures { IfOk result (λ happened. (happened.lines ≡ []) × (sent_packets happened.packets ≡ packets_from sender.now messages)) }
{
    let packets = packets_from(alloc, sender, messages)?;
    Ok(Happened {
        lines: List::new(alloc),
        packets,
    })
}

/// The packets of what a consumer sends.
pub(crate) fn packets_from(
    alloc: Global,
    sender: &Name,
    messages: List<Message>,
) -> Result<List<Packet>, OutOfMemory>
    ensures { IfOk result (λ packets. sent_packets packets ≡ packets_from sender.now messages) }
{
    let mut packets = List::new(alloc);
    for message in messages.into_vec() {
        packets.push(packet_from(alloc, sender, message)?)?;
    }
    Ok(packets)
}

/// The packet of a reply to a consumer, if there is one.
pub(crate) fn reply_to(
    alloc: Global,
    receiver: &Name,
    reply: Option<Message>,
) -> Result<List<Packet>, OutOfMemory>
    ensures { IfOk result (λ packets. sent_packets packets ≡ reply_to receiver.now reply) }
{
    let mut packets = List::new(alloc);
    if let Some(message) = reply {
        packets.push(packet_for(alloc, receiver, message)?)?;
    }
    Ok(packets)
}
