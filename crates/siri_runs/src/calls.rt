//! The calls of the outside that end a run where they fail.

ghost use Rattle.std.specs.Prelude.{◌≤◌, IfOk, IsErrOf, OnOk};
ghost use Rattle.siri_outside.specs.OutsideCalls.{GivesMoment, RaisesNumber};
ghost use Rattle.siri_outside.specs.Wires.{Accepts, Listens};
ghost use Rattle.siri_runs.specs.Calls.{Comes, told_by};
ghost use Rattle.siri_runs.specs.Errors.{clock_error, keeper_error, wire_error};
ghost use Rattle.siri_runs.specs.declared.network_error.NetworkError.TheVariants as error;

use crate::NetworkError;
use siri_base::{Moment, Name};
use siri_outside::{Clock, Keeper, Wire};

/// The next start number, from 1 to 99,999,999,999. `KeeperFault` only where the keeper's count of faults rose.
pub fn raise<E: Keeper>(keeper: &mut E) -> Result<u64, NetworkError>
    ensures call { Comes RaisesNumber keeper_error result (told_by (E.tells keeper.old) (E.faults keeper.old)) (told_by (E.tells keeper.new) (E.faults keeper.new)) }
    ensures range { IfOk result (λ number. (1 ≤ number) × (number ≤ 99999999999)) }
{
    match keeper.raise() {
        Ok(number) => Ok(number),
        Err(error) => Err(NetworkError::of_keeper(error)),
    }
}

/// Listens at `HOST:PORT`. `WireFault` only where the wire's count of faults rose.
pub fn listen<W: Wire>(wire: &mut W, address: &Name) -> Result<(), NetworkError>
    ensures { Comes (Listens address.now) wire_error result (told_by (W.tells wire.old) (W.faults wire.old)) (told_by (W.tells wire.new) (W.faults wire.new)) }
{
    match wire.listen(address) {
        Ok(()) => Ok(()),
        Err(error) => Err(NetworkError::of_wire(error)),
    }
}

/// Waits for a connection. `WireFault` only where the wire's count of faults rose.
pub(crate) fn accept<W: Wire>(wire: &mut W) -> Result<(), NetworkError>
    ensures call { Comes Accepts wire_error result (told_by (W.tells wire.old) (W.faults wire.old)) (told_by (W.tells wire.new) (W.faults wire.new)) }
    ensures no_shelf { ¬ IsErrOf result error.ShelfFault }
    ensures open { OnOk result (W.is_open wire.new) }
{
    match wire.accept() {
        Ok(()) => Ok(()),
        Err(error) => Err(NetworkError::of_wire(error)),
    }
}

/// The next moment. `ClockFault` only where the clock's count of faults rose.
pub fn now<C: Clock>(clock: &mut C) -> Result<Moment, NetworkError>
    ensures call { Comes GivesMoment clock_error result (told_by (C.tells clock.old) (C.faults clock.old)) (told_by (C.tells clock.new) (C.faults clock.new)) }
    ensures no_shelf { ¬ IsErrOf result error.ShelfFault }
{
    match clock.now() {
        Ok(moment) => Ok(moment),
        Err(_) => Err(NetworkError::ClockFault),
    }
}
