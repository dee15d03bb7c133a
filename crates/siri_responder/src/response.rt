//! The direct response.

ghost use Rattle.std.specs.Prelude.{◌≡◌, ◌+◌, ◌*◌, ◌≤◌, IfOk, length};
ghost use Rattle.siri_model.specs.Direct.{response};
ghost use Rattle.siri_responder.specs.Topics.{topics_in};

use crate::answers::answer_all;
use siri_base::{Copies, Name, OutOfMemory};
use siri_messages::{ServiceDelivery, ServiceRequest};
use siri_store::Store;
use std::alloc::Global;

/// The direct response to a request, by a producer of this name, of what a store holds: one functional delivery for
/// each of its topics, in the order Stop Monitoring, Estimated Timetable, Vehicle Monitoring, Situation Exchange and in
/// each list's order. Of the store nothing but the counter changes, and that rises by at most as many steps as items
/// are held, for each topic.
#[tactic(auto, unfolding(siri_model::specs::Direct::response))]
pub fn response_to(
    alloc: Global,
    store: &mut Store,
    name: &Name,
    request: &ServiceRequest,
) -> Result<ServiceDelivery, OutOfMemory>
    ensures ok { IfOk result (λ delivery. delivery ≡ response name.now store.old.moment store.old.entries request.now) }
    ensures rest { store.new ≡ record store.old { reads = store.new.reads } }
    ensures risen { store.old.reads ≤ store.new.reads }
    ensures reads { store.new.reads ≤ store.old.reads + length store.old.entries * topics_in request.now }
{
    Ok(ServiceDelivery {
        response_timestamp: Some(store.now()),
        producer_ref: Some(name.copy()?),
        response_message_identifier: None,
        request_message_ref: request.message_identifier.copy()?,
        status: true,
        error_condition: None,
        more_data: false,
        stop_monitoring_delivery: answer_all(alloc, store, &request.stop_monitoring_request)?,
        estimated_timetable_delivery: answer_all(
            alloc,
            store,
            &request.estimated_timetable_request,
        )?,
        vehicle_monitoring_delivery: answer_all(alloc, store, &request.vehicle_monitoring_request)?,
        situation_exchange_delivery: answer_all(alloc, store, &request.situation_exchange_request)?,
    })
}
