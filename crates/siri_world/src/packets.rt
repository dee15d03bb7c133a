//! The packets of the network.

ghost use Rattle.std.specs.Prelude.{◌≡◌, ◌+◌, ◌<◌, ◌≤◌, ◌++◌, ◌∷◌, [], suc, length, codes, option_map, IfOk, OnOk};
ghost use Rattle.siri_world_model.specs.Lines.{told_line, told_lines};
ghost use Rattle.siri_world_model.specs.Packets.{packet_at, packet_lines, ToProducer, ToConsumer, packet_line};
ghost use Rattle.siri_world.specs.Kept.{sent_packet, sent_packets};
ghost use Rattle.siri_world_model.specs.Told.{most_packets};

use siri_base::{Copies, List, Name, OutOfMemory, TextError};
use siri_messages::Message;
use siri_world_model::Line;
use std::alloc::Global;
use std::marker::Model;
use std::rc::Rc;

/// The most packets that are sent.
pub(crate) const MOST_PACKETS: usize = 1_000_000;

/// The name of the producer.
const PRODUCER: &str = "producer";

/// A packet: one end is the producer, the other a consumer of this name.
#[derive(Drop)]
pub(crate) enum Packet {
    ToProducer {
        sender: Name,
        message: Rc<Message>,
    },
    ToConsumer {
        receiver: Name,
        message: Rc<Message>,
    },
}

/// All packets that were ever sent, in order.
pub(crate) struct Packets {
    list: Vec<Packet>,
}

impl Drop for Packets {
    fn drop(self) {
        let Packets { list: _ } = self;
    }
}

impl Model for Packets {
    ghost use Rattle.std.specs.Prelude.{List, ◌≤◌, length};
    ghost use Rattle.siri_world_model.specs.Packets.{SentPacket};
    ghost use Rattle.siri_world_model.specs.Told.{most_packets};
    ghost use Rattle.siri_world.specs.Kept.{sent_packets};

    ghost Value = { List SentPacket };

    ghost view = { λ p. sent_packets p.list.items };

    ghost invariant = { λ p. length p.list.items ≤ most_packets };
}

impl Packets {
    /// None was sent. It takes no memory.
    pub(crate) fn new(alloc: Global) -> Packets
        ensures { result ≡ [] }
    {
        Packets {
            list: Vec::new(alloc),
        }
    }

    /// How many were sent.
    pub(crate) fn len(&self) -> usize
        ensures number { result ≡ length self.now }
        ensures bound { result ≤ most_packets }
    {
        self.list.len()
    }

    /// How many more may be sent.
    pub(crate) fn room(&self) -> usize
        ensures { result + length self.now ≡ most_packets }
    {
        MOST_PACKETS - self.list.len()
    }

    /// The packet of a number, which counts from 1.
    pub(crate) fn at(&self, number: u64) -> Option<&Packet>
        ensures { option_map (λ packet. sent_packet packet.now) result ≡ packet_at number self.now }
    {
        if number == 0 {
            return None;
        }
        self.list.get((number - 1) as usize)
    }

    /// These are sent, and each is told with its number.
    pub(crate) fn send(
        &mut self,
        alloc: Global,
        packets: List<Packet>,
        lines: &mut List<Line>,
    ) -> Result<(), OutOfMemory>
        requires { length self.old + length packets ≤ most_packets }
        ensures packets { OnOk result (self.new ≡ self.old ++ sent_packets packets) }
        ensures lines { OnOk result (told_lines lines.new ≡ told_lines lines.old ++ packet_lines (suc (length self.old)) (sent_packets packets)) }
    {
        for packet in packets.into_vec() {
            self.push(alloc, packet, lines)?;
        }
        Ok(())
    }

    /// A packet is sent, and told with its number.
    fn push(
        &mut self,
        alloc: Global,
        packet: Packet,
        lines: &mut List<Line>,
    ) -> Result<(), OutOfMemory>
        requires { length self.old < most_packets }
        ensures packets { OnOk result (self.new ≡ self.old ++ sent_packet packet ∷ []) }
        ensures lines { OnOk result (told_lines lines.new ≡ told_lines lines.old ++ packet_line (suc (length self.old)) (sent_packet packet) ∷ []) }
    {
        let number = self.list.len() as u64 + 1;
        lines.push(packet_line(alloc, number, &packet)?)?;
        self.list.push(packet)?;
        Ok(())
    }
}

/// A packet is told with its number.
fn packet_line(alloc: Global, number: u64, packet: &Packet) -> Result<Line, OutOfMemory>
    ensures { IfOk result (λ line. told_line line ≡ packet_line number (sent_packet packet.now)) }
{
    match packet {
        Packet::ToProducer { message, .. } => Ok(Line::Packet {
            number,
            to: producer_name(alloc)?,
            message: message.clone()?,
        }),
        Packet::ToConsumer { receiver, message } => Ok(Line::Packet {
            number,
            to: receiver.copy()?,
            message: message.clone()?,
        }),
    }
}

/// A message of a consumer to the producer.
pub(crate) fn packet_from(
    alloc: Global,
    sender: &Name,
    message: Message,
) -> Result<Packet, OutOfMemory>
    ensures { IfOk result (λ packet. sent_packet packet ≡ ToProducer sender.now message) }
{
    let message = Rc::new(alloc, message)?;
    Ok(Packet::ToProducer {
        sender: sender.copy()?,
        message,
    })
}

/// A message of the producer to a consumer.
pub(crate) fn packet_to(
    alloc: Global,
    receiver: Name,
    message: Message,
) -> Result<Packet, OutOfMemory>
    ensures { IfOk result (λ packet. sent_packet packet ≡ ToConsumer receiver message) }
{
    let message = Rc::new(alloc, message)?;
    Ok(Packet::ToConsumer { receiver, message })
}

/// The same for a borrowed name, which is copied once the message is shared.
pub(crate) fn packet_for(
    alloc: Global,
    receiver: &Name,
    message: Message,
) -> Result<Packet, OutOfMemory>
    ensures { IfOk result (λ packet. sent_packet packet ≡ ToConsumer receiver.now message) }
{
    let message = Rc::new(alloc, message)?;
    Ok(Packet::ToConsumer {
        receiver: receiver.copy()?,
        message,
    })
}

/// The producer's name.
pub(crate) fn producer_name(alloc: Global) -> Result<Name, OutOfMemory>
    ensures { IfOk result (λ name. name ≡ codes "producer") }
{
    match Name::new(alloc, PRODUCER) {
        Ok(name) => Ok(name),
        Err(TextError::OutOfMemory) => Err(OutOfMemory),
        Err(_) => unreachable!(),
    }
}
