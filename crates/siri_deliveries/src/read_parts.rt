//! Reading what the functional deliveries of all services have.

ghost use Rattle.std.specs.Prelude.{◌≡◌};
ghost use Rattle.siri_json.specs.Shown.{shown};
ghost use Rattle.siri_tables.specs.Refusals.{Gives};
ghost use Rattle.siri_deliveries.specs.Parts.{heading, no_round, within_round, round_position, delivery_extensions, extensions_or_empty, delivery_of};
ghost use Rattle.siri_deliveries.specs.Removals.{removed_journey, removed_situation};

use crate::absence::lacks;
use crate::names;
use crate::read_error::error_condition;
use crate::read_removals::{RemovedJourneyTable, RemovedSituationTable};
use siri_base::{List, Moment, Name, Text};
use siri_json::Tree;
use siri_messages::FunctionalDelivery;
use siri_records::{Key, SharedItem};
use siri_tables::TableError;
use siri_tables::rows::{list, required_row, row};
use siri_tables::rules::{FlagRule, MomentRule, NameRule, NumberRule, Table};
use std::alloc::Global;

/// The most entries of a list of items or removals.
pub(crate) const MOST_ENTRIES: usize = 20_000;

/// The rows of a functional delivery before its Extensions (EN 15531-2).
pub(crate) struct Heading {
    pub response_timestamp: Option<Moment>,
    pub subscriber_ref: Option<Name>,
    pub subscription_ref: Option<Name>,
    pub status: bool,
    pub error_condition: Option<Text>,
}

impl Drop for Heading {
    fn drop(self) {
        let Heading {
            response_timestamp: _,
            subscriber_ref: _,
            subscription_ref: _,
            status: _,
            error_condition: _,
        } = self;
    }
}

/// Where in a round a delivery stands: all three numbers are there, or none is.
#[derive(Clone, Copy)]
pub struct RoundPosition {
    pub start: Option<u64>,
    pub round: Option<u64>,
    pub part: Option<u64>,
}

/// The Extensions of a delivery of journeys or situations.
#[derive(Drop)]
pub struct DeliveryExtensions {
    pub round_position: RoundPosition,
    pub removals: List<Key>,
}

/// What a functional delivery says before its Extensions (EN 15531-2): ResponseTimestamp, SubscriberRef,
/// SubscriptionRef, Status, which is true where it is absent, and ErrorCondition. No row is required; each is refused
/// at its member, the first in this order.
#[tactic(auto, unfolding(crate::specs::Parts::heading))]
pub(crate) fn read_heading(alloc: Global, tree: &Tree<'_>) -> Result<Heading, TableError>
    ensures { Gives result (heading (shown tree.now)) }
{
    Ok(Heading {
        response_timestamp: row::<MomentRule>(alloc, tree, names::RESPONSE_TIMESTAMP)?,
        subscriber_ref: row::<NameRule>(alloc, tree, names::SUBSCRIBER_REF)?,
        subscription_ref: row::<NameRule>(alloc, tree, names::SUBSCRIPTION_REF)?,
        status: row::<FlagRule>(alloc, tree, names::STATUS)?.unwrap_or(true),
        error_condition: error_condition(alloc, tree)?,
    })
}

impl Heading {
    /// The delivery of these items and removals.
    pub(crate) fn delivery(
        self,
        round_position: RoundPosition,
        items: List<SharedItem>,
        removals: List<Key>,
    ) -> FunctionalDelivery
        ensures { result ≡ delivery_of self round_position items removals }
    {
        let Heading {
            response_timestamp,
            subscriber_ref,
            subscription_ref,
            status,
            error_condition,
        } = self;
        FunctionalDelivery {
            response_timestamp,
            subscriber_ref,
            subscription_ref,
            status,
            error_condition,
            start: round_position.start,
            round: round_position.round,
            part: round_position.part,
            items,
            removals,
        }
    }
}

impl RoundPosition {
    /// In no round.
    pub(crate) fn no_round() -> RoundPosition
        ensures { result ≡ no_round }
    {
        RoundPosition {
            start: None,
            round: None,
            part: None,
        }
    }
}

/// Start, Round and Part of a delivery in a round: each is required, `Missing` at it otherwise.
#[tactic(auto, unfolding(crate::specs::Parts::within_round))]
fn within_round(alloc: Global, tree: &Tree<'_>) -> Result<RoundPosition, TableError>
    ensures { Gives result (within_round (shown tree.now)) }
{
    Ok(RoundPosition {
        start: Some(required_row::<NumberRule>(alloc, tree, names::START)?),
        round: Some(required_row::<NumberRule>(alloc, tree, names::ROUND)?),
        part: Some(required_row::<NumberRule>(alloc, tree, names::PART)?),
    })
}

/// Where in a round a delivery of visits or vehicles stands (this profile's own): where Round stands, Start and Part
/// have to; where it doesn't, they aren't looked at.
pub(crate) struct RoundPositionTable;

impl Table for RoundPositionTable {
    type Out = RoundPosition;

    ghost rows = { round_position };

    #[tactic(auto, unfolding(crate::specs::Parts::round_position))]
    fn read_rows(alloc: Global, tree: &Tree<'_>) -> Result<RoundPosition, TableError> {
        if lacks(tree, names::ROUND) {
            return Ok(RoundPosition::no_round());
        }
        within_round(alloc, tree)
    }
}

/// Where in a round a delivery of journeys stands, and the journeys that are shown no more, at most 20,000.
pub(crate) struct JourneyExtensionsTable;

impl Table for JourneyExtensionsTable {
    type Out = DeliveryExtensions;

    ghost rows = { delivery_extensions removed_journey };

    #[tactic(auto, unfolding(crate::specs::Parts::delivery_extensions))]
    fn read_rows(alloc: Global, tree: &Tree<'_>) -> Result<DeliveryExtensions, TableError> {
        Ok(DeliveryExtensions {
            round_position: RoundPositionTable::read_rows(alloc, tree)?,
            removals: list::<RemovedJourneyTable>(alloc, tree, names::REMOVED, MOST_ENTRIES)?,
        })
    }
}

/// Where in a round a delivery of situations stands, and the situations that are shown no more, at most 20,000.
pub(crate) struct SituationExtensionsTable;

impl Table for SituationExtensionsTable {
    type Out = DeliveryExtensions;

    ghost rows = { delivery_extensions removed_situation };

    #[tactic(auto, unfolding(crate::specs::Parts::delivery_extensions))]
    fn read_rows(alloc: Global, tree: &Tree<'_>) -> Result<DeliveryExtensions, TableError> {
        Ok(DeliveryExtensions {
            round_position: RoundPositionTable::read_rows(alloc, tree)?,
            removals: list::<RemovedSituationTable>(alloc, tree, names::REMOVED, MOST_ENTRIES)?,
        })
    }
}

/// What the Extensions of a delivery tell: where they are absent, that it stands in no round and that nothing is
/// removed.
pub(crate) fn extensions_or_empty(
    alloc: Global,
    extensions: Option<DeliveryExtensions>,
) -> DeliveryExtensions
    ensures { result ≡ extensions_or_empty extensions }
{
    match extensions {
        Some(delivery_extensions) => delivery_extensions,
        None => DeliveryExtensions {
            round_position: RoundPosition::no_round(),
            removals: List::new(alloc),
        },
    }
}
