//! Views of current items, and what leads from one view to another.
//!
//! A view holds items by their keys. Of a subscription there are two: the acknowledged view, which the consumer is
//! known to hold, and the direct response, which it ought to hold.
//!
//! ```text
//!     acknowledged view, direct response, slack -> differ             whether a round of changes is due
//!     acknowledged view, direct response, slack -> target             the view that the round leads to
//!     acknowledged view, target                 -> changes  --+
//!     acknowledged view, changes                -> make     <-+       the target
//! ```
//!
//! The changes of a round are cut in parts of a hundred, and a part is carried as items, whose keys are their own, and
//! removed keys.
//!
//! Keys and items are shared: views of many subscriptions over one store hold each of them once.
//!
//! Stands on `siri_base` and `siri_records`. It knows no subscription, no round, no message and no store.
#![tactic(auto)]

mod difference;
mod laws;
mod sameness;
mod view;

pub use difference::{addition, changes, differ, target};
pub use laws::{
    carried_parts_lead_to_the_target, changes_lead_to_the_view, items_carry_their_keys,
    looks_need_few_keys, parts_are_made_as_one, parts_are_the_list, parts_lead_to_the_target,
    same_items_are_equal, targets_meet_the_response, views_are_tested, views_stay_in_order,
    views_stay_views, views_that_meet_are_near,
};
pub use sameness::same;
pub use siri_records::{Change, Room};
pub use view::View;
