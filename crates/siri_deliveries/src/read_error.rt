//! Reading the texts of errors.

ghost use Rattle.std.specs.Prelude.{Result, Option};
ghost use Rattle.siri_json.specs.Shown.{shown};
ghost use Rattle.siri_tables.specs.Refusals.{Gives};
ghost use Rattle.siri_deliveries.specs.Errors.{other_error, error_condition};

use crate::names;
use siri_base::{Reason, Text};
use siri_json::{ObjectOf, Tree, member, object_of};
use siri_tables::TableError;
use siri_tables::refusal::{below, refuse};
use siri_tables::rows::inside;
use siri_tables::rules::TextRule;
use std::alloc::Global;

/// The text of an error of a kind of its own.
#[tactic(auto, unfolding(crate::specs::Errors::other_error, siri_tables::specs::Rules::inside, siri_tables::specs::Rules::row))]
fn other_error(alloc: Global, value: &Tree<'_>) -> Result<Option<Text>, TableError>
    ensures { Gives result (other_error (shown value.now)) }
{
    let tree = match object_of(value) {
        ObjectOf::Is(tree) => tree,
        ObjectOf::Absent => return Ok(None),
        ObjectOf::Wrong => return refuse(alloc, Reason::WrongKind),
    };
    match member(tree, names::OTHER_ERROR) {
        Some(error) => below(
            alloc,
            names::OTHER_ERROR,
            inside::<TextRule>(alloc, error, names::ERROR_TEXT),
        ),
        None => Ok(None),
    }
}

/// The text of an object's ErrorCondition.
#[tactic(auto, unfolding(crate::specs::Errors::error_condition, siri_tables::specs::Rules::row))]
pub fn error_condition(alloc: Global, tree: &Tree<'_>) -> Result<Option<Text>, TableError>
    ensures { Gives result (error_condition (shown tree.now)) }
{
    match member(tree, names::ERROR_CONDITION) {
        Some(value) => below(alloc, names::ERROR_CONDITION, other_error(alloc, value)),
        None => Ok(None),
    }
}
