//! Why a run over the network ends before its connections are served.

ghost use Rattle.std.specs.Prelude.{◌≡◌, ◌≢◌};
ghost use Rattle.siri_runs.specs.Errors.{keeper_error, shelf_error, status_of, wire_error};
ghost use Rattle.siri_runs.specs.declared.network_error.NetworkError.TheVariants as variant;

use siri_base::{OutOfMemory, Status};
use siri_outside::OutsideError;

/// Why a run over the network ends before its connections are served.
#[derive(Clone, Copy, Debug, PartialEq, Eq)]
pub enum NetworkError {
    /// The wire failed to listen or to accept.
    WireFault,
    /// The clock failed.
    ClockFault,
    /// The keeper of the start number failed.
    KeeperFault,
    /// The shelf failed.
    ShelfFault,
    /// There was no memory.
    OutOfMemory,
}

impl NetworkError {
    /// What a wire that failed to listen or to accept ends a run with.
    pub fn of_wire(error: OutsideError) -> NetworkError
        ensures value { result ≡ wire_error error }
        ensures no_shelf { result ≢ variant.ShelfFault }
    {
        match error {
            OutsideError::Failed => NetworkError::WireFault,
            OutsideError::OutOfMemory => NetworkError::OutOfMemory,
        }
    }

    /// What a keeper that failed ends a run with.
    pub fn of_keeper(error: OutsideError) -> NetworkError
        ensures { result ≡ keeper_error error }
    {
        match error {
            OutsideError::Failed => NetworkError::KeeperFault,
            OutsideError::OutOfMemory => NetworkError::OutOfMemory,
        }
    }
}

/// What an end ends a run with where a call of it didn't succeed: what failed is the shelf beside it.
impl From<OutsideError> for NetworkError {
    ghost from_gives = { λ e error. error ≡ shelf_error e };

    fn from(error: OutsideError) -> Self {
        match error {
            OutsideError::Failed => NetworkError::ShelfFault,
            OutsideError::OutOfMemory => NetworkError::OutOfMemory,
        }
    }
}

impl From<OutOfMemory> for NetworkError {
    ghost from_gives = { λ _ e. e ≡ variant.OutOfMemory };

    fn from(_: OutOfMemory) -> Self {
        NetworkError::OutOfMemory
    }
}

impl From<NetworkError> for Status {
    ghost from_gives = { λ e status. status ≡ status_of e };

    fn from(error: NetworkError) -> Self {
        match error {
            NetworkError::WireFault => Status::WireFault,
            NetworkError::ClockFault => Status::ClockFault,
            NetworkError::KeeperFault => Status::KeeperFault,
            NetworkError::ShelfFault => Status::ShelfFault,
            NetworkError::OutOfMemory => Status::OutOfMemory,
        }
    }
}
