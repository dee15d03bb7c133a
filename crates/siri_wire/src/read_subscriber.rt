//! Reading who subscribes.

ghost use Rattle.siri_json.specs.Shown.{shown};
ghost use Rattle.siri_tables.specs.Refusals.{Gives};
ghost use Rattle.siri_wire.specs.Subscribers.{subscriber_or};

use siri_base::{Copies, Name, Reason};
use siri_deliveries::names;
use siri_json::Tree;
use siri_tables::TableError;
use siri_tables::refusal::refuse_at;
use siri_tables::rows::row;
use siri_tables::rules::NameRule;
use std::alloc::Global;

/// The subscriber that an object names, or the requestor where it names none: `Missing` at SubscriberRef where both are
/// absent.
#[tactic(auto, unfolding(crate::specs::Subscribers::subscriber_or))]
pub(crate) fn subscriber_or(
    alloc: Global,
    tree: &Tree<'_>,
    requestor: &Option<Name>,
) -> Result<Name, TableError>
    ensures { Gives result (subscriber_or requestor.now (shown tree.now)) }
{
    if let Some(named) = row::<NameRule>(alloc, tree, names::SUBSCRIBER_REF)? {
        return Ok(named);
    }
    match requestor {
        Some(requestor) => Ok(requestor.copy()?),
        None => refuse_at(alloc, names::SUBSCRIBER_REF, Reason::Missing),
    }
}
