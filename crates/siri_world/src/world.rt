//! The machine of a world.

ghost use Rattle.std.specs.Prelude.{◌≡◌, ◌+◌, ◌<◌, ◌≤◌, ◌++◌, [], ◌∷◌, suc, max, length, not, ◌&&◌, nat_le, List as Items, Ok, IsSome, IsNone, IfOk, OnOk, IfErr};
ghost use Rattle.siri_world_model.specs.declared.event.Event.{Event as AnEvent};
ghost use Rattle.siri_world_model.specs.declared.word.Word.TheVariants as word;
ghost use Rattle.siri_world_model.specs.Consumers.{all_clocked, consumer_of, consumer_or_new, is_known};
ghost use Rattle.siri_world_model.specs.Effects as effects;
ghost use Rattle.siri_world_model.specs.Effects.{effect};
ghost use Rattle.siri_world_model.specs.Goals.{ShowsGoals};
ghost use Rattle.siri_world_model.specs.Lines as line;
ghost use Rattle.siri_world_model.specs.Lines.{told_lines};
ghost use Rattle.siri_world_model.specs.Packets.{packet_at, packet_lines, packets_from};
ghost use Rattle.siri_world_model.specs.Told.{told, world_after, most_consumers, most_packets, most_starts};
ghost use Rattle.siri_world_model.specs.World.{World as ToldWorld};
ghost use Rattle.siri_world.specs.Asking.{AreTold, IsEnded, IsTold, ConsumerTakes};
ghost use Rattle.siri_world.specs.Doing.{CanHappen, Does, Happens, IsFull};
ghost use Rattle.siri_world.specs.Kept.{sent_packets};
ghost use Rattle.siri_world.specs.Known.{Knows, StandsFor};
ghost use Rattle.siri_world.specs.Refused.{Refuses, Stays, first_refusal};

use crate::consumers::{Consumers, MOST_CONSUMERS};
use crate::happened::{Happened, all_sent, one, packets_from, sent, told, unknown};
use crate::packets::{Packet, Packets, producer_name};
use crate::producing::{answer, ask, clock, feed};
use crate::viewing::view_of;
use siri_base::{Copies, List, Moment, Name, OutOfMemory, Span};
use siri_messages::{Message, ServiceDelivery, ServiceRequest};
use siri_producer::Producer;
use siri_topic::Subscription;
use siri_view::{AskError, Seen};
use siri_world_model::{Event, Line, StepError, Word};
use std::alloc::Global;
use std::marker::Model;

/// How often the producer starts at most.
const MOST_STARTS: u64 = 1_000_000;

/// The world of a script. It stands for the events that it took. Contracts see what it knows of them: the greatest
/// moment that was given, how often the producer started, the producer of the latest start, the consumers in order of
/// first use, and all packets that were ever sent.
pub struct World {
    alloc: Global,
    moment: Moment,
    starts: u64,
    producer: Option<Producer>,
    consumers: Consumers,
    packets: Packets,
}

impl Drop for World {
    fn drop(self) {
        let World {
            alloc: _,
            moment: _,
            starts: _,
            producer: _,
            consumers: _,
            packets: _,
        } = self;
    }
}

impl Model for World {
    ghost use Rattle.std.specs.Prelude.{◌≤◌};
    ghost use Rattle.siri_world.specs.Known.{Known};
    ghost use Rattle.siri_world_model.specs.Told.{most_starts};

    ghost Value = { Known };

    ghost view = { λ w. record { moment = w.moment; starts = w.starts; producer = w.producer; consumers = w.consumers; packets = w.packets } };

    ghost invariant = { λ w. w.starts ≤ most_starts };
}

impl World {
    /// A world before its first event.
    pub fn new(alloc: Global) -> Result<World, OutOfMemory>
        ensures { IfOk result (λ world. StandsFor world []) }
    {
        Ok(World {
            alloc,
            moment: Moment::first(),
            starts: 0,
            producer: None,
            consumers: Consumers::new(alloc),
            packets: Packets::new(alloc),
        })
    }

    /// An event happens, and tells these lines: all packets that it sends are told after what else it tells. The items
    /// of a feed are kept and none is copied.
    ///
    /// The first that holds of `NotStarted` (it isn't a start, and no start came before), `StartLimit` (it is the
    /// 1,000,001st start), `ConsumerLimit` (it would make a 17th consumer) and `PacketLimit` (packet 1,000,001 would be
    /// sent). The first three are told before memory is asked for, and `PacketLimit` where there was memory to make the
    /// packets. After each of the first three nothing changed. After `PacketLimit` and want of memory the world is given
    /// up.
    pub fn step(&mut self, event: Event) -> Result<List<Line>, StepError>
        ensures lines { IfOk result (λ lines. (es : Items AnEvent) → StandsFor self.old es → told (world_after es) event ≡ Ok (told_lines lines)) }
        ensures ok { OnOk result ((es : Items AnEvent) → StandsFor self.old es → StandsFor self.new (es ++ event ∷ [])) }
        ensures refused { IfErr result (λ error. (es : Items AnEvent) → StandsFor self.old es → Refuses (world_after es) event error) }
        ensures rest { IfErr result (λ error. Stays error self.old self.new) }
    {
        if let Some(error) = self.refusal(&event) {
            drop(event);
            return Err(error);
        }
        let happened = self.happen(event)?;
        self.send(happened)
    }

    /// How many packets were sent, at most 1,000,000.
    pub fn sent(&self) -> u64
        ensures number { result ≡ length self.now.packets }
        ensures bound { result ≤ most_starts }
    {
        self.packets.len() as u64
    }

    /// Why an event doesn't happen, but for the packets that it would send.
    fn refusal(&self, event: &Event) -> Option<StepError>
        ensures first { (w : ToldWorld) → Knows self.now w → result ≡ first_refusal w event.now }
        ensures able { IsNone result → CanHappen self.now event.now }
    {
        match event {
            Event::Start(_) if self.starts >= MOST_STARTS => Some(StepError::StartLimit),
            Event::Start(_) => None,
            _ if self.producer.is_none() => Some(StepError::NotStarted),
            Event::Subscribe { consumer, .. } if self.is_full(consumer) => {
                Some(StepError::ConsumerLimit)
            }
            _ => None,
        }
    }

    /// Whether a consumer would be made, and 16 are there.
    fn is_full(&self, consumer: &Name) -> bool
        ensures { result ≡ (not (is_known consumer.now self.now.consumers) && nat_le most_consumers (length self.now.consumers)) }
    {
        self.consumers.len() >= MOST_CONSUMERS && self.consumers.get(consumer).is_none()
    }

    /// What an event does, whatever the limits are. Its packets aren't in the network yet.
    fn happen(&mut self, event: Event) -> Result<Happened, OutOfMemory>
        requires { CanHappen self.old event }
        ensures { IfOk result (λ happened. (w : ToldWorld) → Knows self.old w → ShowsGoals w → Does (effect w event) happened self.new) }
    {
        match event {
            Event::Start(moment) => self.start(moment),
            Event::Clock(moment) => self.clock(moment),
            Event::Feed(delivery) => self.feed(delivery),
            Event::Ask(request) => self.ask(&request),
            Event::Subscribe {
                consumer,
                wanted,
                beat,
            } => self.subscribe(&consumer, &wanted, beat),
            Event::Terminate {
                consumer,
                identifier,
            } => self.terminate(&consumer, &identifier),
            Event::Restart { consumer } => self.restart(&consumer),
            Event::Status { consumer } => self.check(&consumer),
            Event::Deliver(number) => self.deliver(number),
            Event::View {
                consumer,
                identifier,
            } => self.view(&consumer, &identifier),
        }
    }

    /// The packets go into the network, and are told after what else is told.
    fn send(&mut self, happened: Happened) -> Result<List<Line>, StepError>
        ensures lines { IfOk result (λ lines. told_lines lines ≡ told_lines happened.lines ++ packet_lines (suc (length self.old.packets)) (sent_packets happened.packets)) }
        ensures ok { OnOk result (self.new ≡ record self.old { packets = self.old.packets ++ sent_packets happened.packets }) }
        ensures room { OnOk result (length self.old.packets + length happened.packets ≤ most_packets) }
        ensures full { IfErr result (λ error. IsFull error (length self.old.packets + length happened.packets)) }
    {
        let Happened { mut lines, packets } = happened;
        if packets.len() > self.packets.room() {
            return Err(StepError::PacketLimit);
        }
        self.packets.send(self.alloc, packets, &mut lines)?;
        Ok(lines)
    }

    // ---- the producer

    /// The producer starts anew.
    fn start(&mut self, now: Moment) -> Result<Happened, OutOfMemory>
        requires { self.old.starts < most_starts }
        ensures { IfOk result (Happens self.old self.new (λ w. effects.started w now)) }
    {
        let number = self.starts + 1;
        let name = producer_name(self.alloc)?;
        self.producer = Some(Producer::new(self.alloc, name, number, now)?);
        self.starts = number;
        self.pass(now);
        told(self.alloc, Line::Started(number))
    }

    /// The greatest moment and the moments of the consumers become the later.
    fn pass(&mut self, now: Moment)
        ensures { self.new ≡ record self.old { moment = max self.old.moment now; consumers = all_clocked now self.old.consumers } }
    {
        self.moment = self.moment.max(now);
        self.consumers.clock(now);
    }

    /// All moments become the later, and the producer settles.
    fn clock(&mut self, now: Moment) -> Result<Happened, OutOfMemory>
        requires { IsSome self.old.producer }
        ensures { IfOk result (Happens self.old self.new (λ w. effects.clocked w now)) }
    {
        self.pass(now);
        let Some(producer) = &mut self.producer else {
            unreachable!()
        };
        clock(self.alloc, producer, now)
    }

    /// The producer is fed, which is told in numbers, and settles.
    fn feed(&mut self, delivery: ServiceDelivery) -> Result<Happened, OutOfMemory>
        requires { IsSome self.old.producer }
        ensures { IfOk result (Happens self.old self.new (λ w. effects.fed w delivery)) }
    {
        let Some(producer) = &mut self.producer else {
            unreachable!()
        };
        feed(self.alloc, producer, delivery)
    }

    /// The direct response of the producer is told. It is sent to nobody, and no settle follows.
    fn ask(&mut self, request: &ServiceRequest) -> Result<Happened, OutOfMemory>
        requires { IsSome self.old.producer }
        ensures { IfOk result (Happens self.old self.new (λ w. effects.asked w request.now)) }
    {
        let Some(producer) = &mut self.producer else {
            unreachable!()
        };
        ask(self.alloc, producer, request)
    }

    // ---- the consumers

    /// A consumer, made where there is none of the name, asks for a subscription, or it is told why it doesn't.
    fn subscribe(
        &mut self,
        name: &Name,
        wanted: &Subscription,
        beat: Span,
    ) -> Result<Happened, OutOfMemory>
        ensures { IfOk result (Happens self.old self.new (λ w. effects.subscribed w (consumer_or_new w.moment name.now (consumer_of name.now w.consumers)) wanted.now beat)) }
    {
        let place = self.consumers.place_or_new(self.alloc, name, self.moment)?;
        asked(
            self.alloc,
            name,
            self.consumers.subscribe(place, wanted, beat),
        )
    }

    /// A consumer asks for the end of a subscription; it is told where there is no such consumer or subscription.
    fn terminate(&mut self, name: &Name, identifier: &Name) -> Result<Happened, OutOfMemory>
        ensures { IfOk result (Happens self.old self.new (λ w. effects.terminated w name.now identifier.now (consumer_of name.now w.consumers))) }
    {
        let Some(place) = self.consumers.place_of(name) else {
            return unknown(self.alloc, name, Some(identifier));
        };
        ended(
            self.alloc,
            name,
            identifier,
            self.consumers.terminate(place, identifier),
        )
    }

    /// A consumer restarts, and asks for all of each subscription that it holds, or it is told why it doesn't; it is
    /// told where there is no such consumer.
    fn restart(&mut self, name: &Name) -> Result<Happened, OutOfMemory>
        ensures { IfOk result (Happens self.old self.new (λ w. effects.restarted w name.now (consumer_of name.now w.consumers))) }
    {
        let Some(place) = self.consumers.place_of(name) else {
            return unknown(self.alloc, name, None);
        };
        restarted(self.alloc, name, self.consumers.restart(place))
    }

    /// A consumer sends a CheckStatusRequest; it is told where there is no such consumer.
    fn check(&self, name: &Name) -> Result<Happened, OutOfMemory>
        ensures { IfOk result (Happens self.now self.now (λ w. effects.checked w name.now (consumer_of name.now w.consumers))) }
    {
        match self.consumers.get(name) {
            Some(consumer) => sent(self.alloc, name, consumer.check()?),
            None => unknown(self.alloc, name, None),
        }
    }

    // ---- packets and views

    /// The packet of a number reaches its receiver, whatever was delivered before; it is told where there is none.
    fn deliver(&mut self, number: u64) -> Result<Happened, OutOfMemory>
        requires { IsSome self.old.producer }
        ensures { IfOk result (Happens self.old self.new (λ w. effects.delivered w number (packet_at number w.packets))) }
    {
        match self.packets.at(number) {
            Some(Packet::ToProducer { sender, message }) => {
                let Some(producer) = &mut self.producer else {
                    unreachable!()
                };
                answer(self.alloc, producer, sender, message)
            }
            Some(Packet::ToConsumer { receiver, message }) => {
                take(self.alloc, &mut self.consumers, receiver, message)
            }
            None => told(self.alloc, Line::NoPacket(number)),
        }
    }

    /// It is told what a consumer shows of a subscription, or that there is no such consumer or subscription.
    fn view(&self, name: &Name, identifier: &Name) -> Result<Happened, OutOfMemory>
        requires { IsSome self.now.producer }
        ensures { IfOk result (λ happened. (w : ToldWorld) → Knows self.now w → ShowsGoals w → Does (effects.viewed w name.now identifier.now (consumer_of name.now w.consumers)) happened self.now) }
    {
        let Some(producer) = &self.producer else {
            unreachable!()
        };
        match self.consumers.get(name) {
            Some(consumer) => view_of(self.alloc, producer, consumer, identifier),
            None => unknown(self.alloc, name, Some(identifier)),
        }
    }
}

/// A request is sent, or it is told why it isn't.
fn asked(
    alloc: Global,
    name: &Name,
    request: Result<Message, AskError>,
) -> Result<Happened, OutOfMemory>
    ensures { IfOk result (IsTold name.now request) }
{
    match request {
        Ok(request) => sent(alloc, name, request),
        Err(AskError::OutOfMemory) => Err(OutOfMemory),
        Err(error) => told(
            alloc,
            Line::Refused {
                consumer: name.copy()?,
                error,
            },
        ),
    }
}

/// A request to end a subscription is sent, or it is told why it isn't.
fn ended(
    alloc: Global,
    name: &Name,
    identifier: &Name,
    request: Result<Message, AskError>,
) -> Result<Happened, OutOfMemory>
    ensures { IfOk result (IsEnded name.now identifier.now request) }
{
    match request {
        Err(AskError::NotHeld) => unknown(alloc, name, Some(identifier)),
        other => asked(alloc, name, other),
    }
}

/// The requests of a restart are sent, or it is told why there are none.
fn restarted(
    alloc: Global,
    name: &Name,
    requests: Result<List<Message>, AskError>,
) -> Result<Happened, OutOfMemory>
    ensures { IfOk result (AreTold name.now requests) }
{
    match requests {
        Ok(requests) => all_sent(alloc, name, requests),
        Err(AskError::OutOfMemory) => Err(OutOfMemory),
        Err(error) => told(
            alloc,
            Line::Refused {
                consumer: name.copy()?,
                error,
            },
        ),
    }
}

/// A consumer takes a message, and replies to the producer.
fn take(
    alloc: Global,
    consumers: &mut Consumers,
    receiver: &Name,
    message: &Message,
) -> Result<Happened, OutOfMemory>
    ensures { IfOk result (ConsumerTakes receiver.now (consumer_of receiver.now consumers.old) message.now consumers.old consumers.new) }
{
    match consumers.place_of(receiver) {
        Some(place) => replied(alloc, receiver, consumers.take(place, message)?),
        None => Ok(Happened {
            lines: List::new(alloc),
            packets: List::new(alloc),
        }),
    }
}

/// A consumer's outcome is told, and its replies go to the producer.
fn replied(alloc: Global, receiver: &Name, seen: Seen) -> Result<Happened, OutOfMemory>
    ensures lines { IfOk result (λ happened. told_lines happened.lines ≡ line.Took receiver.now (word.Consumer seen.outcome) ∷ []) }
    ensures packets { IfOk result (λ happened. sent_packets happened.packets ≡ packets_from receiver.now seen.replies) }
{
    let word = Word::Consumer(seen.outcome);
    let packets = packets_from(alloc, receiver, seen.replies)?;
    let receiver = receiver.copy()?;
    Ok(Happened {
        lines: one(alloc, Line::Took { receiver, word })?,
        packets,
    })
}
