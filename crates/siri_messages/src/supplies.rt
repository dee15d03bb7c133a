//! How rounds are announced, fetched and acknowledged.

ghost use Rattle.std.specs.Prelude.{◌≡◌};

use siri_base::{Copies, Moment, Name, OutOfMemory, Text};

/// Which part of which round of a subscription is meant.
pub struct Mark {
    /// The subscription's number.
    pub number: u64,
    /// The number of the producer's start.
    pub start: u64,
    pub round: u64,
    pub part: u64,
    /// The subscription's identifier.
    pub subscription: Name,
}

impl Drop for Mark {
    fn drop(self) {
        let Mark {
            number: _,
            start: _,
            round: _,
            part: _,
            subscription: _,
        } = self;
    }
}

/// The producer has a part to fetch (EN 15531-2, DataReadyNotification).
pub struct DataReadyNotification {
    pub request_timestamp: Option<Moment>,
    pub producer_ref: Option<Name>,
    pub extensions: Mark,
}

impl Drop for DataReadyNotification {
    fn drop(self) {
        let DataReadyNotification {
            request_timestamp: _,
            producer_ref: _,
            extensions: _,
        } = self;
    }
}

/// The consumer has taken a notification (EN 15531-2, DataReadyAcknowledgement).
pub struct DataReadyAcknowledgement {
    pub response_timestamp: Option<Moment>,
    pub consumer_ref: Option<Name>,
    pub status: bool,
}

impl Drop for DataReadyAcknowledgement {
    fn drop(self) {
        let DataReadyAcknowledgement {
            response_timestamp: _,
            consumer_ref: _,
            status: _,
        } = self;
    }
}

/// The consumer fetches a part (EN 15531-2, DataSupplyRequest).
pub struct DataSupplyRequest {
    pub request_timestamp: Option<Moment>,
    pub consumer_ref: Name,
    /// Whether everything is asked for and not the changes alone.
    pub all_data: bool,
    pub extensions: Mark,
}

impl Drop for DataSupplyRequest {
    fn drop(self) {
        let DataSupplyRequest {
            request_timestamp: _,
            consumer_ref: _,
            all_data: _,
            extensions: _,
        } = self;
    }
}

/// A delivery was taken (EN 15531-2, DataReceivedAcknowledgement). It has a mark where it acknowledges a part of a
/// round.
pub struct DataReceivedAcknowledgement {
    pub response_timestamp: Option<Moment>,
    pub consumer_ref: Option<Name>,
    pub request_message_ref: Option<Name>,
    pub status: bool,
    /// The ErrorText of its ErrorCondition.
    pub error_condition: Option<Text>,
    pub extensions: Option<Mark>,
}

impl Drop for DataReceivedAcknowledgement {
    fn drop(self) {
        let DataReceivedAcknowledgement {
            response_timestamp: _,
            consumer_ref: _,
            request_message_ref: _,
            status: _,
            error_condition: _,
            extensions: _,
        } = self;
    }
}

impl Copies for Mark {
    fn copy(&self) -> Result<Self, OutOfMemory> {
        Ok(Mark {
            number: self.number,
            start: self.start,
            round: self.round,
            part: self.part,
            subscription: self.subscription.copy()?,
        })
    }
}

impl Copies for DataReadyNotification {
    fn copy(&self) -> Result<Self, OutOfMemory> {
        Ok(DataReadyNotification {
            request_timestamp: self.request_timestamp,
            producer_ref: self.producer_ref.copy()?,
            extensions: self.extensions.copy()?,
        })
    }
}

impl Copies for DataReadyAcknowledgement {
    fn copy(&self) -> Result<Self, OutOfMemory> {
        Ok(DataReadyAcknowledgement {
            response_timestamp: self.response_timestamp,
            consumer_ref: self.consumer_ref.copy()?,
            status: self.status,
        })
    }
}

impl Copies for DataSupplyRequest {
    fn copy(&self) -> Result<Self, OutOfMemory> {
        Ok(DataSupplyRequest {
            request_timestamp: self.request_timestamp,
            consumer_ref: self.consumer_ref.copy()?,
            all_data: self.all_data,
            extensions: self.extensions.copy()?,
        })
    }
}

impl Copies for DataReceivedAcknowledgement {
    fn copy(&self) -> Result<Self, OutOfMemory> {
        Ok(DataReceivedAcknowledgement {
            response_timestamp: self.response_timestamp,
            consumer_ref: self.consumer_ref.copy()?,
            request_message_ref: self.request_message_ref.copy()?,
            status: self.status,
            error_condition: self.error_condition.copy()?,
            extensions: self.extensions.copy()?,
        })
    }
}
