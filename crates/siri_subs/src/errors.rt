//! What the table answers.

use thiserror::Error;

/// How a request for a subscription was accepted.
#[derive(Clone, Copy, Debug, PartialEq, Eq)]
pub enum Accepted {
    /// The subscription wasn't held; its entry is the last of the table.
    New,
    /// It was held under a smaller number; its entry is replaced, or its number and slot are, and keeps its place.
    Renewed,
    /// It is held under this very number: the request came before, and nothing changed.
    Again,
}

/// Why a request for a subscription was refused. The table is as it was.
#[derive(Clone, Copy, Debug, PartialEq, Eq, Error)]
pub enum AcceptError {
    /// Its InitialTerminationTime isn't after now, and the subscription isn't held under this very number.
    #[error("the termination time has passed")]
    PastTermination,
    /// The subscription is held under a greater number.
    #[error("the subscription is held under the greater number {held}")]
    Superseded {
        /// The number under which it is held.
        held: u64,
    },
    /// 200 other subscriptions are held.
    #[error("the table holds as many subscriptions as it can")]
    TableFull,
}

/// Why a subscription wasn't put under another number. The table is as it was.
#[derive(Clone, Copy, Debug, PartialEq, Eq, Error)]
pub enum RenumberError {
    /// The subscription isn't held, or was accepted by another request than the one that is named.
    #[error("no subscription is held that was accepted by that request")]
    UnknownSubscription,
    /// It is held under a greater number.
    #[error("the subscription is held under the greater number {held}")]
    Superseded {
        /// The number under which it is held.
        held: u64,
    },
}

/// Why a subscription wasn't ended. The table is as it was.
#[derive(Clone, Copy, Debug, PartialEq, Eq, Error)]
pub enum EndError {
    /// The subscription isn't held under a smaller number.
    #[error("no such subscription is held under a smaller number")]
    UnknownSubscription,
}
