//! What a message says to a consumer.

ghost use Rattle.std.specs.Prelude.{◌≡◌, ◌++◌, option_and_then};
ghost use Rattle.siri_base.specs.Numbers.{number_of};
ghost use Rattle.siri_view.specs.Hearing.{only, delivery_heard, placed};
ghost use Rattle.siri_messages.specs.Rounds.{functional_deliveries};
ghost use Rattle.siri_view.specs.Heard.{heard_if};

use crate::marks::Numbers;
use siri_base::{List, Name, number_of};
use siri_messages::{FunctionalDelivery, Mark, ServiceDelivery};
use siri_records::{Key, SharedItem};

/// A part of a round that is delivered.
#[derive(Drop)]
pub(crate) struct Delivered {
    pub subscriber: Name,
    pub identifier: Name,
    pub mark: Numbers,
    // Whether further parts of its round follow.
    pub more: bool,
    pub items: List<SharedItem>,
    pub removals: List<Key>,
}

/// The part that is delivered: a delivery has a place where RequestMessageRef is a number and it has exactly one
/// functional delivery, and that has both names, a start, a round and a part.
pub(crate) fn part_of(delivery: ServiceDelivery) -> Option<Delivered>
    ensures { heard_if result ≡ delivery_heard delivery }
{
    let number = number_in(&delivery);
    let more = delivery.more_data;
    placed_part(number, only_delivery(delivery), more)
}

/// The part of this number, where its functional delivery is the only one and has all that a place wants.
fn placed_part(
    number: Option<u64>,
    delivery: Option<FunctionalDelivery>,
    more: bool,
) -> Option<Delivered>
    ensures { heard_if result ≡ placed number delivery more }
{
    let number = number?;
    let mut delivery = delivery?;
    let subscriber = delivery.subscriber_ref.take()?;
    let identifier = delivery.subscription_ref.take()?;
    let mark = Numbers {
        number,
        start: delivery.start?,
        round: delivery.round?,
        part: delivery.part?,
    };
    let (items, removals) = delivery.into_entries();
    Some(Delivered {
        subscriber,
        identifier,
        mark,
        more,
        items,
        removals,
    })
}

/// The number that RequestMessageRef is.
fn number_in(delivery: &ServiceDelivery) -> Option<u64>
    ensures { result ≡ option_and_then number_of delivery.now.request_message_ref }
{
    number_of(delivery.request_message_ref.as_ref()?.text())
}

/// The functional delivery, where there is only one of all four services.
fn only_delivery(delivery: ServiceDelivery) -> Option<FunctionalDelivery>
    ensures { result ≡ only (functional_deliveries delivery) }
{
    let ServiceDelivery {
        stop_monitoring_delivery,
        estimated_timetable_delivery,
        vehicle_monitoring_delivery,
        situation_exchange_delivery,
        ..
    } = delivery;
    only_of_four(
        stop_monitoring_delivery,
        estimated_timetable_delivery,
        vehicle_monitoring_delivery,
        situation_exchange_delivery,
    )
}

/// The element of four lists that have one together.
#[tactic(auto, using(crate::proofs::Only::only_first, crate::proofs::Only::only_second, crate::proofs::Only::only_third, crate::proofs::Only::only_fourth))]
fn only_of_four(
    stops: List<FunctionalDelivery>,
    timetables: List<FunctionalDelivery>,
    vehicles: List<FunctionalDelivery>,
    situations: List<FunctionalDelivery>,
) -> Option<FunctionalDelivery>
    ensures { result ≡ only (stops ++ timetables ++ vehicles ++ situations) }
{
    match (
        stops.len(),
        timetables.len(),
        vehicles.len(),
        situations.len(),
    ) {
        (1, 0, 0, 0) => only_of(stops),
        (0, 1, 0, 0) => only_of(timetables),
        (0, 0, 1, 0) => only_of(vehicles),
        (0, 0, 0, 1) => only_of(situations),
        _ => None,
    }
}

/// The element of a list of one.
fn only_of(deliveries: List<FunctionalDelivery>) -> Option<FunctionalDelivery>
    ensures { result ≡ only deliveries }
{
    let mut deliveries = deliveries.into_vec();
    if deliveries.len() == 1 {
        deliveries.pop()
    } else {
        None
    }
}

/// The four numbers of a mark, without the subscription that it names.
pub(crate) fn numbers_of(mark: &Mark) -> Numbers
    ensures { result ≡ record { number = mark.now.number; start = mark.now.start; round = mark.now.round; part = mark.now.part } }
{
    Numbers {
        number: mark.number,
        start: mark.start,
        round: mark.round,
        part: mark.part,
    }
}
