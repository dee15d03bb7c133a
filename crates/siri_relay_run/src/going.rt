//! What a relay sends.

use siri_messages::Message;
use siri_producer::Out;

/// A message that a relay sends.
#[derive(Drop)]
pub enum Going {
    /// To its source, at the upstream address.
    Up(Message),
    /// To a subscriber, at the address of the subscription.
    Down(Out),
}
