//! Writes answers from what a producer lends: no message is made of them, and no item is copied. The text is walked over
//! twice: once for its length, which stands in the head, and once to write it. Where it is short, it is kept at the first walk,
//! and there is no second one.

ghost use Rattle.std.specs.Prelude.{◌≡◌, ◌<◌, ◌++◌, [], IfErr, IfOk, IfSome, MatchOption, OnErr, OnOk, Some, true, false, length};
ghost use Rattle.siri_http.specs.HttpCauses.{EndsWrite};
ghost use Rattle.siri_http.specs.Messages.{UnlessMemory};
ghost use Rattle.siri_http.specs.Texts.{head_text};
ghost use Rattle.siri_model.specs.Direct as direct;
ghost use Rattle.siri_model.specs.History.{History, current, now_of, start_of};
ghost use Rattle.siri_model.specs.Lives.{table_of};
ghost use Rattle.siri_model.specs.Rows.{rows_of};
ghost use Rattle.siri_producer.specs.Known.{SameButReads, StandsFor};
ghost use Rattle.siri_producer.specs.Lent.{OwnPart, is_lent, part_in};
ghost use Rattle.siri_deliveries.specs.Pieces.{text_left};
ghost use Rattle.siri_subscriptions.specs.replies.Parts.{part_delivery};
ghost use Rattle.siri_subs.specs.rounds.Wanted.{part_sent};
ghost use Rattle.siri_ends.specs.Answering.{StopsWriting, Writes};
ghost use Rattle.siri_ends.specs.At.{surroundings};
ghost use Rattle.siri_ends.specs.Lending.{delivering};
ghost use Rattle.siri_ends.specs.Pieces.{FramesPart, FramesResponse, direct_head, direct_piece, direct_text, items_left, part_head, part_piece, part_text, topic_text};
ghost use Rattle.siri_ends.specs.Sinks.{IsMeasured, WritesText};

use crate::Tally;
use crate::answering::{drop_connection, end_answer};
use crate::sink::{Measure, Measured, Sink};
use siri_base::{Copies, List, Moment, Name, OutOfMemory};
use siri_http::{HttpError, response_head, write_piece};
use siri_messages::ServiceRequest;
use siri_outside::Wire;
use siri_producer::{LentPart, Producer, lent_topic};
use siri_records::{Change, Service};
use siri_store::Selected;
use siri_subs::Part;
use siri_subscriptions::part_delivery;
use siri_topic::Topic;
use siri_wire::{
    ChangePieces, DeliveryHead, FramePiece, ItemPieces, change_pieces, item_pieces, reply_frame,
};
use std::alloc::Global;

/// The next piece of a delivery whose items are lent.
fn next_of_items<'a>(
    pieces: &mut ItemPieces<'a, Selected<'a>>,
) -> Result<Option<Vec<u8>>, OutOfMemory>
    ensures text { IfOk result (λ piece. MatchOption piece (items_left pieces.old ≡ []) (λ text. items_left pieces.old ≡ text.items ++ items_left pieces.new)) }
    ensures some { IfOk result (λ piece. IfSome piece (λ text. 0 < length text.items)) }
    ensures same { OnOk result (pieces.new.items.counter.ghost_name ≡ pieces.old.items.counter.ghost_name) }
{
    pieces.next_piece()
}

/// Puts what is left of a delivery whose items are lent. After want of memory the pieces are of no more use.
fn put_items<'a, S: Sink>(
    sink: &mut S,
    gathered: &mut Vec<u8>,
    pieces: &mut ItemPieces<'a, Selected<'a>>,
) -> Result<(), HttpError>
    requires { S.is_ready sink.old }
    ensures ready { S.is_ready sink.new }
    ensures takes { S.takes (sink.old, gathered.old.items) (sink.new, gathered.new.items) (items_left pieces.old) result }
    ensures same { UnlessMemory result (pieces.new.items.counter.ghost_name ≡ pieces.old.items.counter.ghost_name) }
    ensures ends { IfErr result EndsWrite }
{
    while let Some(piece) = next_of_items(pieces)? {
        sink.put(gathered, &piece)?;
    }
    Ok(())
}

/// Puts what is left of a delivery of changes.
fn put_changes<S: Sink>(
    sink: &mut S,
    gathered: &mut Vec<u8>,
    mut pieces: ChangePieces<'_>,
) -> Result<(), HttpError>
    requires { S.is_ready sink.old }
    ensures ready { S.is_ready sink.new }
    ensures takes { S.takes (sink.old, gathered.old.items) (sink.new, gathered.new.items) (text_left pieces.entry) result }
    ensures ends { IfErr result EndsWrite }
{
    while let Some(piece) = pieces.next_piece()? {
        sink.put(gathered, &piece)?;
    }
    Ok(())
}

/// Writes a body of so many bytes that is kept, with its head before it.
fn send_text<W: Wire>(
    alloc: Global,
    wire: &mut W,
    length: u64,
    text: &[u8],
) -> Result<(), HttpError>
    requires { W.is_open wire.old }
    ensures told { WritesText (head_text 200 false length ++ text.now) result (W.tells wire.old) (W.tells wire.new) (W.faults wire.old) (W.faults wire.new) }
    ensures ends { IfErr result EndsWrite }
{
    let mut gathered = response_head(alloc, 200, false, length)?;
    wire.put(&mut gathered, text)?;
    write_piece(wire, &gathered)
}

// ---- a direct response

/// The head of each functional delivery of a direct response: its moment.
fn direct_head(now: Moment) -> DeliveryHead
    ensures { result ≡ direct_head now }
{
    DeliveryHead {
        moment: now,
        subscriber: None,
        subscription: None,
        start: 0,
        round: 0,
        part: 0,
    }
}

/// Puts the functional delivery of the items that are shown to a topic.
fn put_topic<'a, S: Sink>(
    alloc: Global,
    sink: &mut S,
    gathered: &mut Vec<u8>,
    producer: &'a mut Producer,
    head: &'a DeliveryHead,
    service: Service,
    topic: &'a Topic,
) -> Result<(), HttpError>
    requires ready { S.is_ready sink.old }
    requires head { head.now ≡ direct_head producer.old.responder.moment }
    ensures ready { S.is_ready sink.new }
    ensures takes { (h : History) → StandsFor producer.old h → S.takes (sink.old, gathered.old.items) (sink.new, gathered.new.items) (topic_text (now_of h) (current h) service topic.now) result }
    ensures rest { UnlessMemory result (SameButReads producer.old producer.new) }
    ensures ends { IfErr result EndsWrite }
{
    let mut pieces = item_pieces(alloc, service, head, producer.lend(topic));
    put_items(sink, gathered, &mut pieces)
}

/// Puts a piece of the frame of a direct response: a text, or the functional delivery that answers a topic.
fn put_direct_piece<S: Sink>(
    alloc: Global,
    sink: &mut S,
    gathered: &mut Vec<u8>,
    producer: &mut Producer,
    request: &ServiceRequest,
    piece: &FramePiece,
) -> Result<(), HttpError>
    requires { S.is_ready sink.old }
    ensures ready { S.is_ready sink.new }
    ensures takes { (h : History) → StandsFor producer.old h → S.takes (sink.old, gathered.old.items) (sink.new, gathered.new.items) (direct_piece (now_of h) (current h) request.now piece.now) result }
    ensures rest { UnlessMemory result (SameButReads producer.old producer.new) }
    ensures ends { IfErr result EndsWrite }
{
    match piece {
        FramePiece::Text(text) => sink.put(gathered, text.slice()),
        FramePiece::Delivery { service, place } => match lent_topic(request, *service, *place) {
            Some(topic) => {
                let head = direct_head(producer.now());
                put_topic(alloc, sink, gathered, producer, &head, *service, topic)
            }
            None => Ok(()),
        },
    }
}

/// Puts the text of a direct response.
fn put_direct<S: Sink>(
    alloc: Global,
    sink: &mut S,
    gathered: &mut Vec<u8>,
    producer: &mut Producer,
    request: &ServiceRequest,
    frame: &List<FramePiece>,
) -> Result<(), HttpError>
    requires { S.is_ready sink.old }
    ensures ready { S.is_ready sink.new }
    ensures takes { (h : History) → StandsFor producer.old h → S.takes (sink.old, gathered.old.items) (sink.new, gathered.new.items) (direct_text (now_of h) (current h) request.now frame.now) result }
    ensures rest { UnlessMemory result (SameButReads producer.old producer.new) }
    ensures ends { IfErr result EndsWrite }
{
    for piece in frame.slice() {
        put_direct_piece(alloc, sink, gathered, producer, request, piece)?;
    }
    Ok(())
}

/// How many bytes the text of a direct response has, and the text where it is short. It answers `OutOfMemory` where they would
/// pass 2^64 - 1, too.
fn measure_direct(
    alloc: Global,
    producer: &mut Producer,
    request: &ServiceRequest,
    frame: &List<FramePiece>,
) -> Result<Measured, OutOfMemory>
    ensures measured { IfOk result (λ measured. (h : History) → StandsFor producer.old h → IsMeasured (direct_text (now_of h) (current h) request.now frame.now) measured) }
    ensures rest { OnOk result (SameButReads producer.old producer.new) }
{
    let mut measure = Measure::new();
    let mut gathered = Measure::room(alloc)?;
    match put_direct(alloc, &mut measure, &mut gathered, producer, request, frame) {
        Ok(()) => Ok(measure.end(gathered)),
        Err(_) => Err(OutOfMemory),
    }
}

/// Writes a direct response of which the length is known, as it is walked over.
fn walk_direct<W: Wire>(
    alloc: Global,
    wire: &mut W,
    producer: &mut Producer,
    request: &ServiceRequest,
    frame: &List<FramePiece>,
    length: u64,
) -> Result<(), HttpError>
    requires there { W.is_open wire.old }
    ensures told { (h : History) → StandsFor producer.old h → WritesText (head_text 200 false length ++ direct_text (now_of h) (current h) request.now frame.now) result (W.tells wire.old) (W.tells wire.new) (W.faults wire.old) (W.faults wire.new) }
    ensures rest { UnlessMemory result (SameButReads producer.old producer.new) }
    ensures ends { IfErr result EndsWrite }
{
    let mut gathered = response_head(alloc, 200, false, length)?;
    put_direct(alloc, wire, &mut gathered, producer, request, frame)?;
    write_piece(wire, &gathered)
}

/// Writes a direct response that is measured.
fn send_direct<W: Wire>(
    alloc: Global,
    wire: &mut W,
    producer: &mut Producer,
    request: &ServiceRequest,
    frame: &List<FramePiece>,
    measured: &Measured,
) -> Result<(), HttpError>
    requires there { W.is_open wire.old }
    requires measured { (h : History) → StandsFor producer.old h → IsMeasured (direct_text (now_of h) (current h) request.now frame.now) measured.now }
    ensures told { (h : History) → StandsFor producer.old h → WritesText (head_text 200 false measured.now.length ++ direct_text (now_of h) (current h) request.now frame.now) result (W.tells wire.old) (W.tells wire.new) (W.faults wire.old) (W.faults wire.new) }
    ensures rest { UnlessMemory result (SameButReads producer.old producer.new) }
    ensures ends { IfErr result EndsWrite }
{
    if let Some(text) = &measured.text {
        return send_text(alloc, wire, measured.length, text);
    }
    walk_direct(alloc, wire, producer, request, frame, measured.length)
}

/// The frame of the direct response to a request.
fn direct_frame(
    alloc: Global,
    producer: &Producer,
    request: &ServiceRequest,
) -> Result<List<FramePiece>, OutOfMemory>
    requires { is_lent request.now ≡ true }
    ensures { IfOk result (λ frame. (h : History) → StandsFor producer.now h → FramesResponse producer.now.responder.name (now_of h) (current h) request.now frame) }
{
    let head = producer.reply_head(request)?;
    let frame = reply_frame(alloc, &head);
    drop(head);
    frame
}

/// Writes the direct response to a request whose items are lent, hangs up and counts the connection. After want of memory
/// a front of it was written, if any.
pub(crate) fn write_direct<W: Wire>(
    alloc: Global,
    wire: &mut W,
    producer: &mut Producer,
    request: &ServiceRequest,
    tally: &mut Tally,
) -> Result<(), OutOfMemory>
    requires there { W.is_open wire.old }
    requires lent { is_lent request.now ≡ true }
    ensures ok { OnOk result ((h : History) → StandsFor producer.old h → Writes (delivering (direct.response producer.old.responder.name (now_of h) (current h) request.now)) (surroundings tally.old (W.tells wire.old) (W.faults wire.old)) (surroundings tally.new (W.tells wire.new) (W.faults wire.new))) }
    ensures err { OnErr result ((h : History) → StandsFor producer.old h → StopsWriting (Some (delivering (direct.response producer.old.responder.name (now_of h) (current h) request.now))) (W.tells wire.old) (W.tells wire.new)) }
    ensures rest { OnOk result (SameButReads producer.old producer.new) }
{
    let frame = direct_frame(alloc, producer, request)?;
    let measured = measure_direct(alloc, producer, request, &frame)?;
    let written = send_direct(alloc, wire, producer, request, &frame, &measured);
    end_answer(wire, written, tally)
}

// ---- a part

/// The head of the functional delivery of a part.
fn part_head(lent: &LentPart<'_>, start: u64) -> Result<DeliveryHead, OutOfMemory>
    ensures { IfOk result (λ head. head ≡ part_head lent.now.wanted.now start (part_sent lent.now.part)) }
{
    Ok(DeliveryHead {
        moment: lent.part.moment,
        subscriber: Some(lent.wanted.subscriber.copy()?),
        subscription: Some(lent.wanted.identifier.copy()?),
        start,
        round: lent.part.place.round,
        part: lent.part.place.part,
    })
}

/// Puts a piece of the frame of a part: a text, or the one functional delivery.
fn put_part_piece<S: Sink>(
    alloc: Global,
    sink: &mut S,
    gathered: &mut Vec<u8>,
    head: &DeliveryHead,
    changes: &[Change],
    piece: &FramePiece,
) -> Result<(), HttpError>
    requires { S.is_ready sink.old }
    ensures ready { S.is_ready sink.new }
    ensures takes { S.takes (sink.old, gathered.old.items) (sink.new, gathered.new.items) (part_piece head.now changes.now piece.now) result }
    ensures ends { IfErr result EndsWrite }
{
    match piece {
        FramePiece::Text(text) => sink.put(gathered, text.slice()),
        FramePiece::Delivery { service, place: _ } => {
            put_changes(
                sink,
                gathered,
                change_pieces(alloc, *service, head, changes),
            )
        }
    }
}

/// Puts the text of a part.
fn put_part<S: Sink>(
    alloc: Global,
    sink: &mut S,
    gathered: &mut Vec<u8>,
    head: &DeliveryHead,
    changes: &[Change],
    frame: &List<FramePiece>,
) -> Result<(), HttpError>
    requires { S.is_ready sink.old }
    ensures ready { S.is_ready sink.new }
    ensures takes { S.takes (sink.old, gathered.old.items) (sink.new, gathered.new.items) (part_text head.now changes.now frame.now) result }
    ensures ends { IfErr result EndsWrite }
{
    for piece in frame.slice() {
        put_part_piece(alloc, sink, gathered, head, changes, piece)?;
    }
    Ok(())
}

/// How many bytes the text of a part has, and the text where it is short. It answers `OutOfMemory` where they would pass
/// 2^64 - 1, too.
fn measure_part(
    alloc: Global,
    head: &DeliveryHead,
    changes: &[Change],
    frame: &List<FramePiece>,
) -> Result<Measured, OutOfMemory>
    ensures { IfOk result (IsMeasured (part_text head.now changes.now frame.now)) }
{
    let mut measure = Measure::new();
    let mut gathered = Measure::room(alloc)?;
    match put_part(alloc, &mut measure, &mut gathered, head, changes, frame) {
        Ok(()) => Ok(measure.end(gathered)),
        Err(_) => Err(OutOfMemory),
    }
}

/// Writes a part of which the length is known, as it is walked over.
fn walk_part<W: Wire>(
    alloc: Global,
    wire: &mut W,
    head: &DeliveryHead,
    changes: &[Change],
    frame: &List<FramePiece>,
    length: u64,
) -> Result<(), HttpError>
    requires there { W.is_open wire.old }
    ensures told { WritesText (head_text 200 false length ++ part_text head.now changes.now frame.now) result (W.tells wire.old) (W.tells wire.new) (W.faults wire.old) (W.faults wire.new) }
    ensures ends { IfErr result EndsWrite }
{
    let mut gathered = response_head(alloc, 200, false, length)?;
    put_part(alloc, wire, &mut gathered, head, changes, frame)?;
    write_piece(wire, &gathered)
}

/// Writes a part that is measured.
fn send_part<W: Wire>(
    alloc: Global,
    wire: &mut W,
    head: &DeliveryHead,
    changes: &[Change],
    frame: &List<FramePiece>,
    measured: &Measured,
) -> Result<(), HttpError>
    requires there { W.is_open wire.old }
    requires measured { IsMeasured (part_text head.now changes.now frame.now) measured.now }
    ensures told { WritesText (head_text 200 false measured.now.length ++ part_text head.now changes.now frame.now) result (W.tells wire.old) (W.tells wire.new) (W.faults wire.old) (W.faults wire.new) }
    ensures ends { IfErr result EndsWrite }
{
    if let Some(text) = &measured.text {
        return send_text(alloc, wire, measured.length, text);
    }
    walk_part(alloc, wire, head, changes, frame, measured.length)
}

/// The frame of a part by a producer of this name, in a start.
fn part_frame(
    alloc: Global,
    producer: &Name,
    start: u64,
    lent: &LentPart<'_>,
) -> Result<List<FramePiece>, OutOfMemory>
    ensures { IfOk result (FramesPart producer.now start lent.now) }
{
    let part = Part {
        place: lent.part.place,
        moment: lent.part.moment,
        more: lent.part.more,
        changes: &[],
    };
    let head = part_delivery(alloc, producer, lent.wanted, lent.number, start, &part)?;
    let frame = reply_frame(alloc, &head);
    drop(head);
    frame
}

/// Writes a part that is lent by a producer of this name, in a start, hangs up and counts the connection. After want of
/// memory a front of it was written, if any.
fn write_lent_part<W: Wire>(
    alloc: Global,
    wire: &mut W,
    producer: &Name,
    start: u64,
    lent: &LentPart<'_>,
    tally: &mut Tally,
) -> Result<(), OutOfMemory>
    requires there { W.is_open wire.old }
    ensures ok { OnOk result (Writes (delivering (part_delivery producer.now lent.now.wanted.now lent.now.number start (part_sent lent.now.part))) (surroundings tally.old (W.tells wire.old) (W.faults wire.old)) (surroundings tally.new (W.tells wire.new) (W.faults wire.new))) }
    ensures err { OnErr result (StopsWriting (Some (delivering (part_delivery producer.now lent.now.wanted.now lent.now.number start (part_sent lent.now.part)))) (W.tells wire.old) (W.tells wire.new)) }
{
    let frame = part_frame(alloc, producer, start, lent)?;
    let head = part_head(lent, start)?;
    let changes = lent.part.changes;
    let measured = measure_part(alloc, &head, changes, &frame)?;
    let written = send_part(alloc, wire, &head, changes, &frame, &measured);
    end_answer(wire, written, tally)
}

/// Writes the wanted part of a subscription, hangs up and counts the connection. After want of memory a front of it was
/// written, if any. Where there is none, which isn't so after it was supplied, nothing is written.
pub(crate) fn write_part<W: Wire>(
    alloc: Global,
    wire: &mut W,
    producer: &Producer,
    subscriber: &Name,
    subscription: &Name,
    tally: &mut Tally,
) -> Result<(), OutOfMemory>
    requires there { W.is_open wire.old }
    ensures ok { OnOk result ((h : History) (part : OwnPart) → StandsFor producer.now h → part_in subscriber.now subscription.now (rows_of (table_of h)) ≡ Some part → Writes (delivering (part_delivery producer.now.responder.name part.wanted part.number (start_of h) part.part)) (surroundings tally.old (W.tells wire.old) (W.faults wire.old)) (surroundings tally.new (W.tells wire.new) (W.faults wire.new))) }
    ensures err { OnErr result ((h : History) (part : OwnPart) → StandsFor producer.now h → part_in subscriber.now subscription.now (rows_of (table_of h)) ≡ Some part → StopsWriting (Some (delivering (part_delivery producer.now.responder.name part.wanted part.number (start_of h) part.part))) (W.tells wire.old) (W.tells wire.new)) }
{
    match producer.part(subscriber, subscription) {
        Some(lent) => write_lent_part(alloc, wire, producer.name(), producer.start(), &lent, tally),
        None => {
            drop_connection(wire, tally);
            Ok(())
        }
    }
}
