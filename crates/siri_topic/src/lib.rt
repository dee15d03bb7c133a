//! Topics: what a consumer asks to be told of, and which items are shown to it at a moment.
//!
//! A topic is the body of a functional request (EN 15531-3; CEN/TS 15531-5 for situations). An item is *shown* to it
//! where its names agree with the topic, it isn't closed, and it is in the topic's window:
//!
//! ```text
//!     topic, item      -> matches  ---+
//!     topic, now       -> window   ---+--> shown
//!     item             -> closed   ---+
//! ```
//!
//! Stands on `siri_base` and `siri_records`. It keeps no items, answers no request, and reads and writes no text.
#![tactic(auto)]

mod agreement;
mod shown_items;
mod subscription;
mod topics;
mod windows;

pub use agreement::matches;
pub use shown_items::{dead_items_are_never_shown, shown, uncrossed_items_stay_as_shown, window};
pub use subscription::Subscription;
pub use topics::{LineDirection, SituationTopic, StopTopic, TimetableTopic, Topic, VehicleTopic};
pub use windows::Window;
