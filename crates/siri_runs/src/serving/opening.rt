//! How a run opens.

ghost use Rattle.std.specs.Prelude.{IfOk, IfErr};
ghost use Rattle.siri_runs.specs.Calls.{outside};
ghost use Rattle.siri_runs.specs.producers.Opening.{FailsToOpen};
ghost use Rattle.siri_runs.specs.producers.Steps.{OpensProducer};

use crate::NetworkError;
use crate::calls::{listen, now, raise};
use siri_base::Name;
use siri_outside::{Clock, Keeper, Wire};
use siri_producer::Producer;
use std::alloc::Global;

/// Raises the number of the start, listens, reads the clock, and starts a producer of this name.
pub(crate) fn open<W: Wire, C: Clock, E: Keeper>(
    alloc: Global,
    name: Name,
    address: &Name,
    wire: &mut W,
    clock: &mut C,
    keeper: &mut E,
) -> Result<Producer, NetworkError>
    ensures ok { IfOk result (λ producer. OpensProducer name address.now producer
        (outside W.Wire C.Clock E.Keeper wire.old clock.old keeper.old)
        (outside W.Wire C.Clock E.Keeper wire.new clock.new keeper.new)) }
    ensures err { IfErr result (λ error. FailsToOpen address.now error
        (outside W.Wire C.Clock E.Keeper wire.old clock.old keeper.old)
        (outside W.Wire C.Clock E.Keeper wire.new clock.new keeper.new)) }
{
    let start = raise(keeper)?;
    listen(wire, address)?;
    let moment = now(clock)?;
    let producer = Producer::new(alloc, name, start, moment)?;
    Ok(producer)
}
