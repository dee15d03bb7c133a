//! Texts that are absent.

ghost use Rattle.std.specs.Prelude.{◌≡◌};
ghost use Rattle.siri_json.specs.Shown.{shown};
ghost use Rattle.siri_deliveries.specs.Absence.{lacks};

use siri_json::{TextOf, Tree, member, text_of};

/// The member of that name, which is wanted to be a text, is absent.
#[tactic(auto, unfolding(crate::specs::Absence::lacks))]
pub fn lacks(tree: &Tree<'_>, key: &str) -> bool
    ensures { result ≡ lacks key.now (shown tree.now) }
{
    match member(tree, key) {
        Some(value) => match text_of(value) {
            TextOf::Absent => true,
            TextOf::Is(_) | TextOf::Wrong => false,
        },
        None => true,
    }
}
