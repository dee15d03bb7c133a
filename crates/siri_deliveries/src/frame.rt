//! The text of a ServiceDelivery around its functional deliveries, in pieces.

ghost use Rattle.std.specs.Prelude.{◌≡◌, ◌++◌, [], ◌∷◌, List as Items, length, drop, true, OnOk, IfOk};
ghost use Rattle.std.specs.List.{list_all};
ghost use Rattle.json.specs.Print.{print, print_from};
ghost use Rattle.json.specs.Token.{Token};
ghost use Rattle.siri_messages.specs.declared.deliveries.ServiceDelivery.{ServiceDelivery as ADelivery};
ghost use Rattle.siri_tables.specs.Appended.{entries_tokens, row_tokens};
ghost use Rattle.siri_tables.specs.Writing.{array_unless_empty};
ghost use Rattle.siri_deliveries.specs.Deliveries.{written_service_delivery};
ghost use Rattle.siri_deliveries.specs.Frame.{GoesOn, is_of, deliveries_of, filled_text, trees_of, without_entries};
ghost use Rattle.siri_json.specs.Tokens.{tokens_of};

use crate::names;
use crate::write_values::{ErrorWriting, true_row};
use siri_base::{List, OutOfMemory};
use siri_json::Output;
use siri_messages::ServiceDelivery;
use siri_records::Service;
use siri_tables::rules::{FlagRule, MomentRule, NameRule};
use siri_tables::writing::{optional, required};
use std::alloc::Global;
use std::mem::replace;

/// A piece of the text of a delivery of the four services: its text as it stands, or the functional delivery at a place,
/// counted from 0, of the list of a service.
pub enum FramePiece {
    Text(List<u8>),
    Delivery { service: Service, place: usize },
}

impl Drop for FramePiece {
    fn drop(self) {
        match self {
            FramePiece::Text(_) => {}
            FramePiece::Delivery {
                service: _,
                place: _,
            } => {}
        }
    }
}

/// Makes what was written since the last piece a piece, behind which nothing was written yet.
pub fn cut(pieces: &mut List<FramePiece>, out: &mut Output) -> Result<(), OutOfMemory>
    ensures pieces { OnOk result (pieces.new ≡ pieces.old ++ FramePiece.Text (print out.old) ∷ []) }
    ensures out { OnOk result (out.new ≡ []) }
{
    let alloc = out.alloc();
    let written = replace(out, Output::new(alloc));
    pieces.push(FramePiece::Text(List::of(written.into_text())))
}

/// The comma between two deliveries.
fn comma(alloc: Global) -> Result<List<u8>, OutOfMemory>
    ensures { IfOk result (λ text. text ≡ 44 ∷ []) }
{
    let mut text = List::new(alloc);
    text.push(b',')?;
    Ok(text)
}

/// The places of the deliveries of a service behind the first, each behind a comma.
fn further_places(
    alloc: Global,
    pieces: &mut List<FramePiece>,
    service: Service,
    count: usize,
) -> Result<(), OutOfMemory>
    ensures text { OnOk result ((d : ADelivery) → length (deliveries_of service d) ≡ count → (us : Items Token)
        → filled_text d pieces.new ++ print_from true us
        ≡ filled_text d pieces.old ++ print_from true (entries_tokens (trees_of service (drop 1 (deliveries_of service d))) ++ us)) }
    ensures there { OnOk result ((d : ADelivery) → length (deliveries_of service d) ≡ count → list_all (is_of d) pieces.old ≡ true → list_all (is_of d) pieces.new ≡ true) }
{
    for place in 1..count {
        pieces.push(FramePiece::Text(comma(alloc)?))?;
        pieces.push(FramePiece::Delivery { service, place })?;
    }
    Ok(())
}

/// Writes the row of the functional deliveries of a service, of which there are so many; each is a piece of its own.
#[tactic(auto, using(crate::proofs::Framed::no_row))]
fn deliveries_row(
    pieces: &mut List<FramePiece>,
    out: &mut Output,
    name: &str,
    service: Service,
    count: usize,
) -> Result<(), OutOfMemory>
    ensures text { OnOk result ((d : ADelivery) (ts : Items Token) → length (deliveries_of service d) ≡ count → GoesOn d pieces.old out.old ts
        → GoesOn d pieces.new out.new (ts ++ row_tokens name.now (array_unless_empty (trees_of service (deliveries_of service d))))) }
    ensures there { OnOk result ((d : ADelivery) → length (deliveries_of service d) ≡ count → list_all (is_of d) pieces.old ≡ true → list_all (is_of d) pieces.new ≡ true) }
{
    if count == 0 {
        return Ok(());
    }
    out.key(name)?;
    out.begin_list()?;
    cut(pieces, out)?;
    pieces.push(FramePiece::Delivery { service, place: 0 })?;
    further_places(out.alloc(), pieces, service, count)?;
    out.end_list()?;
    Ok(())
}

/// Writes the object of a ServiceDelivery behind what was written, with a piece for each functional delivery. Of the
/// functional deliveries it looks at nothing but how many there are.
pub fn write_frame(
    pieces: &mut List<FramePiece>,
    out: &mut Output,
    head: &ServiceDelivery,
) -> Result<(), OutOfMemory>
    ensures text { OnOk result ((d : ADelivery) (ts : Items Token) → without_entries d ≡ without_entries head.now → GoesOn d pieces.old out.old ts
        → GoesOn d pieces.new out.new (ts ++ tokens_of (written_service_delivery d))) }
    ensures there { OnOk result (list_all (is_of head.now) pieces.old ≡ true → list_all (is_of head.now) pieces.new ≡ true) }
{
    out.begin_object()?;
    optional::<ErrorWriting>(out, names::ERROR_CONDITION, &head.error_condition)?;
    let count = head.estimated_timetable_delivery.len();
    deliveries_row(
        pieces,
        out,
        names::ESTIMATED_TIMETABLE_DELIVERY,
        Service::Timetable,
        count,
    )?;
    true_row(out, names::MORE_DATA, head.more_data)?;
    optional::<NameRule>(out, names::PRODUCER_REF, &head.producer_ref)?;
    optional::<NameRule>(out, names::REQUEST_MESSAGE_REF, &head.request_message_ref)?;
    optional::<NameRule>(
        out,
        names::RESPONSE_MESSAGE_IDENTIFIER,
        &head.response_message_identifier,
    )?;
    optional::<MomentRule>(out, names::RESPONSE_TIMESTAMP, &head.response_timestamp)?;
    let count = head.situation_exchange_delivery.len();
    deliveries_row(
        pieces,
        out,
        names::SITUATION_EXCHANGE_DELIVERY,
        Service::Situation,
        count,
    )?;
    required::<FlagRule>(out, names::STATUS, &head.status)?;
    let count = head.stop_monitoring_delivery.len();
    deliveries_row(
        pieces,
        out,
        names::STOP_MONITORING_DELIVERY,
        Service::Stop,
        count,
    )?;
    let count = head.vehicle_monitoring_delivery.len();
    deliveries_row(
        pieces,
        out,
        names::VEHICLE_MONITORING_DELIVERY,
        Service::Vehicle,
        count,
    )?;
    out.end_object()?;
    Ok(())
}
