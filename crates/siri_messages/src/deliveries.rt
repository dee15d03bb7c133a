//! Deliveries of items.

ghost use Rattle.std.specs.Prelude.{◌≡◌};
ghost use Rattle.std.specs.List.{list_any};
ghost use Rattle.siri_messages.specs.Blank.{blank_functional_delivery, blank_service_delivery};
ghost use Rattle.siri_messages.specs.Rounds.{has_round, in_a_round};

use siri_base::{Copies, List, Moment, Name, OutOfMemory, Text};
use siri_records::{Key, SharedItem};
use std::alloc::Global;

/// What is delivered of the four services (EN 15531-2, ServiceDelivery): the answer to a request, a part of a
/// subscription's round, or a feed.
#[derive(Drop)]
pub struct ServiceDelivery {
    pub response_timestamp: Option<Moment>,
    pub producer_ref: Option<Name>,
    pub response_message_identifier: Option<Name>,
    /// The identifier of the request that it answers; in a round the subscription's number.
    pub request_message_ref: Option<Name>,
    pub status: bool,
    /// The ErrorText of its ErrorCondition.
    pub error_condition: Option<Text>,
    /// Whether further parts of the round follow.
    pub more_data: bool,
    pub stop_monitoring_delivery: List<FunctionalDelivery>,
    pub estimated_timetable_delivery: List<FunctionalDelivery>,
    pub vehicle_monitoring_delivery: List<FunctionalDelivery>,
    pub situation_exchange_delivery: List<FunctionalDelivery>,
}

/// What is delivered of one service (EN 15531-3, StopMonitoringDelivery and its like; CEN/TS 15531-5 for situations).
/// Its items and removals are of that service. Start and part stand where round does.
pub struct FunctionalDelivery {
    pub response_timestamp: Option<Moment>,
    pub subscriber_ref: Option<Name>,
    pub subscription_ref: Option<Name>,
    pub status: bool,
    /// The ErrorText of its ErrorCondition.
    pub error_condition: Option<Text>,
    /// The number of the producer's start.
    pub start: Option<u64>,
    pub round: Option<u64>,
    pub part: Option<u64>,
    /// Whoever copies the delivery shares them.
    pub items: List<SharedItem>,
    /// What its cancellations, or its removed journeys or situations, name.
    pub removals: List<Key>,
}

impl Drop for FunctionalDelivery {
    fn drop(self) {
        let FunctionalDelivery {
            response_timestamp: _,
            subscriber_ref: _,
            subscription_ref: _,
            status: _,
            error_condition: _,
            start: _,
            round: _,
            part: _,
            items: _,
            removals: _,
        } = self;
    }
}

impl ServiceDelivery {
    /// A delivery of no service, with status true, of which nothing else is said.
    pub fn blank(alloc: Global) -> ServiceDelivery
        ensures { result ≡ blank_service_delivery }
    {
        ServiceDelivery {
            response_timestamp: None,
            producer_ref: None,
            response_message_identifier: None,
            request_message_ref: None,
            status: true,
            error_condition: None,
            more_data: false,
            stop_monitoring_delivery: List::new(alloc),
            estimated_timetable_delivery: List::new(alloc),
            vehicle_monitoring_delivery: List::new(alloc),
            situation_exchange_delivery: List::new(alloc),
        }
    }

    /// Whether some functional delivery of the four services belongs to a round, whether it has items or not. One that
    /// belongs to none is a feed, or the answer to a request.
    pub fn has_round(&self) -> bool
        ensures { result ≡ has_round self.now }
    {
        has_part(self.stop_monitoring_delivery.slice())
            || has_part(self.estimated_timetable_delivery.slice())
            || has_part(self.vehicle_monitoring_delivery.slice())
            || has_part(self.situation_exchange_delivery.slice())
    }
}

impl FunctionalDelivery {
    /// A delivery of no round with nothing in it, with status true, of which nothing else is said.
    pub fn blank(alloc: Global) -> FunctionalDelivery
        ensures { result ≡ blank_functional_delivery }
    {
        FunctionalDelivery {
            response_timestamp: None,
            subscriber_ref: None,
            subscription_ref: None,
            status: true,
            error_condition: None,
            start: None,
            round: None,
            part: None,
            items: List::new(alloc),
            removals: List::new(alloc),
        }
    }
    /// Its items and its removals.
    pub fn into_entries(self) -> (List<SharedItem>, List<Key>)
        ensures { result ≡ (self.items, self.removals) }
    {
        let FunctionalDelivery {
            response_timestamp: _,
            subscriber_ref: _,
            subscription_ref: _,
            status: _,
            error_condition: _,
            start: _,
            round: _,
            part: _,
            items,
            removals,
        } = self;
        (items, removals)
    }
}

/// Whether one of these belongs to a round.
fn has_part(deliveries: &[FunctionalDelivery]) -> bool
    ensures { result ≡ list_any in_a_round deliveries.now }
{
    deliveries.iter().any(|delivery| delivery.round.is_some())
}

impl Copies for ServiceDelivery {
    fn copy(&self) -> Result<Self, OutOfMemory> {
        Ok(ServiceDelivery {
            response_timestamp: self.response_timestamp,
            producer_ref: self.producer_ref.copy()?,
            response_message_identifier: self.response_message_identifier.copy()?,
            request_message_ref: self.request_message_ref.copy()?,
            status: self.status,
            error_condition: self.error_condition.copy()?,
            more_data: self.more_data,
            stop_monitoring_delivery: self.stop_monitoring_delivery.copy()?,
            estimated_timetable_delivery: self.estimated_timetable_delivery.copy()?,
            vehicle_monitoring_delivery: self.vehicle_monitoring_delivery.copy()?,
            situation_exchange_delivery: self.situation_exchange_delivery.copy()?,
        })
    }
}

impl Copies for FunctionalDelivery {
    fn copy(&self) -> Result<Self, OutOfMemory> {
        Ok(FunctionalDelivery {
            response_timestamp: self.response_timestamp,
            subscriber_ref: self.subscriber_ref.copy()?,
            subscription_ref: self.subscription_ref.copy()?,
            status: self.status,
            error_condition: self.error_condition.copy()?,
            start: self.start,
            round: self.round,
            part: self.part,
            items: self.items.copy()?,
            removals: self.removals.copy()?,
        })
    }
}
