//! What is asked for with a subscription.

ghost use Rattle.std.specs.Prelude.{◌≡◌, IfOk};
ghost use Rattle.siri_view.specs.Consuming.{requests_for};

use siri_base::{Copies, List, Name, OutOfMemory, Span};
use siri_topic::Subscription;
use std::alloc::Global;
use std::marker::Model;

/// A subscription, where its messages are to be sent (ConsumerAddress), and how often a heartbeat is, in milliseconds
/// (HeartbeatInterval); zero is never.
pub(crate) struct AskedFor {
    pub subscription: Subscription,
    pub address: Option<Name>,
    pub beat: Span,
}

impl Drop for AskedFor {
    fn drop(self) {
        let AskedFor {
            subscription: _,
            address: _,
            beat: _,
        } = self;
    }
}

impl Model for AskedFor {
    ghost use Rattle.siri_messages.specs.Asked.{AskedFor};

    ghost Value = { AskedFor };

    ghost view = { λ a. record { subscription = a.subscription; address = a.address; beat = a.beat } };
}

/// All that is asked for with each of these subscriptions, by its identifier.
pub(crate) fn requests_for(
    alloc: Global,
    address: &Option<Name>,
    beat: Span,
    list: List<Subscription>,
) -> Result<Vec<(Name, AskedFor)>, OutOfMemory>
    ensures { IfOk result (λ requests. requests.items ≡ requests_for address.now beat list) }
{
    let mut requests = Vec::new(alloc);
    for subscription in list.into_vec() {
        requests.push(request_for(address, beat, subscription)?)?;
    }
    Ok(requests)
}

/// All that is asked for with one subscription; address and heartbeat are its whole request's.
fn request_for(
    address: &Option<Name>,
    beat: Span,
    subscription: Subscription,
) -> Result<(Name, AskedFor), OutOfMemory>
    ensures { IfOk result (λ request. request ≡ (subscription.identifier, record { subscription = subscription; address = address.now; beat = beat })) }
{
    let identifier = subscription.identifier.copy()?;
    let address = address.copy()?;
    Ok((
        identifier,
        AskedFor {
            subscription,
            address,
            beat,
        },
    ))
}
