//! Reading items.

ghost use Rattle.siri_json.specs.Shown.{shown};
ghost use Rattle.siri_tables.specs.Refusals.{Gives, at_path};
ghost use Rattle.siri_items.specs.Items.{item_of};

use crate::read_journey::JourneyTable;
use crate::read_situation::SituationTable;
use crate::read_vehicle::VehicleTable;
use crate::read_visit::VisitTable;
use siri_json::{Path, Tree};
use siri_records::{Item, Service};
use siri_tables::refusal::{TableError, from_path};
use siri_tables::rows::required_value;
use std::alloc::Global;

/// The item of a service that a tree is read as, or the first refusal in the order of the tables, depth first, with
/// `at` before its path. A journey's RecordedAtTime is its own.
pub fn read_item(
    alloc: Global,
    tree: &Tree<'_>,
    service: Service,
    at: &Path,
) -> Result<Item, TableError>
    ensures { Gives result (at_path at.now (item_of service (shown tree.now))) }
{
    from_path(at, item(alloc, tree, service))
}

/// The item that an object spells by the table of its service, `Missing` where it counts as absent.
fn item(alloc: Global, tree: &Tree<'_>, service: Service) -> Result<Item, TableError>
    ensures { Gives result (item_of service (shown tree.now)) }
{
    match service {
        Service::Stop => Ok(Item::Visit(required_value::<VisitTable>(alloc, tree)?)),
        Service::Timetable => Ok(Item::Journey(required_value::<JourneyTable>(alloc, tree)?)),
        Service::Vehicle => Ok(Item::Vehicle(required_value::<VehicleTable>(alloc, tree)?)),
        Service::Situation => Ok(Item::Situation(required_value::<SituationTable>(alloc, tree)?)),
    }
}
