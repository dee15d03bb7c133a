//! Reading the groups of rows that the journeys of all services have.

ghost use Rattle.siri_json.specs.Shown.{shown};
ghost use Rattle.siri_tables.specs.Refusals.{Gives};
ghost use Rattle.siri_items.specs.Parts.{service_info, progress};

use crate::names;
use siri_base::{Name, Span, Text};
use siri_json::Tree;
use siri_tables::refusal::TableError;
use siri_tables::rows::row;
use siri_tables::rules::{FlagRule, NameRule, SpanRule, TextRule};
use std::alloc::Global;

/// What passengers are told of the line, who runs it, and where it goes.
#[derive(Drop)]
pub(crate) struct ServiceInfo {
    pub published_line_name: Option<Text>,
    pub operator_ref: Option<Name>,
    pub destination_ref: Option<Name>,
    pub destination_name: Option<Text>,
}

/// Whether a journey is monitored, how full the vehicle is, and by how much it is late.
#[derive(Drop)]
pub(crate) struct JourneyProgress {
    pub monitored: Option<bool>,
    pub occupancy: Option<Text>,
    pub delay: Option<Span>,
}

/// PublishedLineName, OperatorRef, DestinationRef and DestinationName of an object, each refused at its member.
#[tactic(auto, unfolding(crate::specs::Parts::service_info))]
pub(crate) fn service_info(alloc: Global, tree: &Tree<'_>) -> Result<ServiceInfo, TableError>
    ensures { Gives result (service_info (shown tree.now)) }
{
    Ok(ServiceInfo {
        published_line_name: row::<TextRule>(alloc, tree, names::PUBLISHED_LINE_NAME)?,
        operator_ref: row::<NameRule>(alloc, tree, names::OPERATOR_REF)?,
        destination_ref: row::<NameRule>(alloc, tree, names::DESTINATION_REF)?,
        destination_name: row::<TextRule>(alloc, tree, names::DESTINATION_NAME)?,
    })
}

/// Monitored, Occupancy and Delay of an object, each refused at its member.
#[tactic(auto, unfolding(crate::specs::Parts::progress))]
pub(crate) fn progress(alloc: Global, tree: &Tree<'_>) -> Result<JourneyProgress, TableError>
    ensures { Gives result (progress (shown tree.now)) }
{
    Ok(JourneyProgress {
        monitored: row::<FlagRule>(alloc, tree, names::MONITORED)?,
        occupancy: row::<TextRule>(alloc, tree, names::OCCUPANCY)?,
        delay: row::<SpanRule>(alloc, tree, names::DELAY)?,
    })
}
