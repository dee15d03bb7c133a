//! Items service by service, and one delivery of all of them.

ghost use Rattle.std.specs.Prelude.{◌≡◌, [], IfOk, OnOk};
ghost use Rattle.siri_row_texts.specs.ItemRows.{functional_of};
ghost use Rattle.siri_keep.specs.RowByRow.{live_delivery, with_one};

use siri_base::{List, OutOfMemory};
use siri_messages::{FunctionalDelivery, ServiceDelivery};
use siri_records::{Item, SharedItem};
use std::alloc::Global;

/// Items, service by service.
#[derive(Drop)]
pub(crate) struct ByService {
    pub(crate) visits: List<SharedItem>,
    pub(crate) journeys: List<SharedItem>,
    pub(crate) vehicles: List<SharedItem>,
    pub(crate) situations: List<SharedItem>,
}

impl ByService {
    /// None of any service. It takes no memory.
    pub(crate) fn new(alloc: Global) -> ByService
        ensures { result ≡ record { visits = []; journeys = []; vehicles = []; situations = [] } }
    {
        ByService {
            visits: List::new(alloc),
            journeys: List::new(alloc),
            vehicles: List::new(alloc),
            situations: List::new(alloc),
        }
    }

    /// One more, behind those of its service.
    pub(crate) fn push(&mut self, item: SharedItem) -> Result<(), OutOfMemory>
        ensures { OnOk result (self.new ≡ with_one self.old item) }
    {
        match item.item() {
            Item::Visit(_) => self.visits.push(item),
            Item::Journey(_) => self.journeys.push(item),
            Item::Vehicle(_) => self.vehicles.push(item),
            Item::Situation(_) => self.situations.push(item),
        }
    }

    /// All of them in one delivery, of which nothing else is said.
    pub(crate) fn into_delivery(self, alloc: Global) -> Result<ServiceDelivery, OutOfMemory>
        ensures { IfOk result (λ delivery. delivery ≡ live_delivery self) }
    {
        let ByService {
            visits,
            journeys,
            vehicles,
            situations,
        } = self;
        let mut delivery = ServiceDelivery::blank(alloc);
        delivery.stop_monitoring_delivery = functional_of(alloc, visits)?;
        delivery.estimated_timetable_delivery = functional_of(alloc, journeys)?;
        delivery.vehicle_monitoring_delivery = functional_of(alloc, vehicles)?;
        delivery.situation_exchange_delivery = functional_of(alloc, situations)?;
        Ok(delivery)
    }
}

/// One delivery of one service, of these items.
fn functional_of(
    alloc: Global,
    items: List<SharedItem>,
) -> Result<List<FunctionalDelivery>, OutOfMemory>
    ensures { IfOk result (λ list. list ≡ functional_of items []) }
{
    let mut functional = FunctionalDelivery::blank(alloc);
    functional.items = items;
    let mut list = List::new(alloc);
    list.push(functional)?;
    Ok(list)
}
