//! Reading the messages by which rounds are announced, fetched and acknowledged.

ghost use Rattle.std.specs.Prelude.{◌≡◌, Result, Option};
ghost use Rattle.siri_json.specs.Shown.{shown};
ghost use Rattle.siri_tables.specs.Refusals.{Gives};
ghost use Rattle.siri_wire.specs.Supplies.{mark, lacks_mark, mark_if_any, optional_mark, data_ready_notification, data_ready_acknowledgement, data_supply_request, data_received_acknowledgement};

use siri_base::Reason;
use siri_deliveries::{error_condition, lacks, names};
use siri_json::{ObjectOf, Tree, object_of};
use siri_messages::{
    DataReadyAcknowledgement, DataReadyNotification, DataReceivedAcknowledgement,
    DataSupplyRequest, Mark,
};
use siri_tables::TableError;
use siri_tables::refusal::refuse;
use siri_tables::rows::{required_row, row};
use siri_tables::rules::{FlagRule, MomentRule, NameRule, NumberRule, Rule, Table};
use std::alloc::Global;

/// Which part of which round of a subscription is meant (this profile's own): all five rows have to be there.
pub(crate) struct MarkTable;

impl Table for MarkTable {
    type Out = Mark;

    ghost rows = { mark };

    #[tactic(auto, unfolding(crate::specs::Supplies::mark))]
    fn read_rows(alloc: Global, tree: &Tree<'_>) -> Result<Mark, TableError> {
        let subscription = required_row::<NameRule>(alloc, tree, names::SUBSCRIPTION_REF)?;
        Ok(Mark {
            number: required_row::<NumberRule>(alloc, tree, names::NUMBER)?,
            start: required_row::<NumberRule>(alloc, tree, names::START)?,
            round: required_row::<NumberRule>(alloc, tree, names::ROUND)?,
            part: required_row::<NumberRule>(alloc, tree, names::PART)?,
            subscription,
        })
    }
}

/// Whether SubscriptionRef, Number, Start, Round and Part are all absent.
#[tactic(auto, unfolding(crate::specs::Supplies::lacks_mark))]
fn lacks_mark(tree: &Tree<'_>) -> bool
    ensures { result ≡ lacks_mark (shown tree.now) }
{
    lacks(tree, names::SUBSCRIPTION_REF)
        && lacks(tree, names::NUMBER)
        && lacks(tree, names::START)
        && lacks(tree, names::ROUND)
        && lacks(tree, names::PART)
}

/// The mark of an object: none where all its rows are absent, `Missing` at the first one where only some are.
#[tactic(auto, unfolding(crate::specs::Supplies::mark_if_any))]
fn mark_if_any(alloc: Global, tree: &Tree<'_>) -> Result<Option<Mark>, TableError>
    ensures { Gives result (mark_if_any (shown tree.now)) }
{
    if lacks_mark(tree) {
        return Ok(None);
    }
    Ok(Some(MarkTable::read_rows(alloc, tree)?))
}

/// A mark that need not be there: it counts as absent where all its rows are.
struct OptionalMarkRule;

impl Rule for OptionalMarkRule {
    type Out = Mark;

    ghost rule = { optional_mark };

    #[tactic(auto, unfolding(crate::specs::Supplies::optional_mark))]
    fn read(alloc: Global, value: &Tree<'_>) -> Result<Option<Mark>, TableError> {
        match object_of(value) {
            ObjectOf::Is(tree) => mark_if_any(alloc, tree),
            ObjectOf::Absent => Ok(None),
            ObjectOf::Wrong => refuse(alloc, Reason::WrongKind),
        }
    }
}

/// A part of a round is ready (EN 15531-2, DataReadyNotification). Its Extensions have to be a mark.
pub(crate) struct DataReadyNotificationTable;

impl Table for DataReadyNotificationTable {
    type Out = DataReadyNotification;

    ghost rows = { data_ready_notification };

    #[tactic(auto, unfolding(crate::specs::Supplies::data_ready_notification))]
    fn read_rows(alloc: Global, tree: &Tree<'_>) -> Result<DataReadyNotification, TableError> {
        Ok(DataReadyNotification {
            request_timestamp: row::<MomentRule>(alloc, tree, names::REQUEST_TIMESTAMP)?,
            producer_ref: row::<NameRule>(alloc, tree, names::PRODUCER_REF)?,
            extensions: required_row::<MarkTable>(alloc, tree, names::EXTENSIONS)?,
        })
    }
}

/// A notification was taken (EN 15531-2, DataReadyAcknowledgement). Status is true where it is absent.
pub(crate) struct DataReadyAcknowledgementTable;

impl Table for DataReadyAcknowledgementTable {
    type Out = DataReadyAcknowledgement;

    ghost rows = { data_ready_acknowledgement };

    #[tactic(auto, unfolding(crate::specs::Supplies::data_ready_acknowledgement))]
    fn read_rows(alloc: Global, tree: &Tree<'_>) -> Result<DataReadyAcknowledgement, TableError> {
        Ok(DataReadyAcknowledgement {
            response_timestamp: row::<MomentRule>(alloc, tree, names::RESPONSE_TIMESTAMP)?,
            consumer_ref: row::<NameRule>(alloc, tree, names::CONSUMER_REF)?,
            status: row::<FlagRule>(alloc, tree, names::STATUS)?.unwrap_or(true),
        })
    }
}

/// A part of a round is fetched, or all of a subscription (EN 15531-2, DataSupplyRequest). AllData is false where it is
/// absent; ConsumerRef and the mark have to be there.
pub(crate) struct DataSupplyRequestTable;

impl Table for DataSupplyRequestTable {
    type Out = DataSupplyRequest;

    ghost rows = { data_supply_request };

    #[tactic(auto, unfolding(crate::specs::Supplies::data_supply_request))]
    fn read_rows(alloc: Global, tree: &Tree<'_>) -> Result<DataSupplyRequest, TableError> {
        Ok(DataSupplyRequest {
            request_timestamp: row::<MomentRule>(alloc, tree, names::REQUEST_TIMESTAMP)?,
            consumer_ref: required_row::<NameRule>(alloc, tree, names::CONSUMER_REF)?,
            all_data: row::<FlagRule>(alloc, tree, names::ALL_DATA)?.unwrap_or(false),
            extensions: required_row::<MarkTable>(alloc, tree, names::EXTENSIONS)?,
        })
    }
}

/// A delivery was taken (EN 15531-2, DataReceivedAcknowledgement). Status is true where it is absent; a mark whose rows
/// are all absent is none.
pub(crate) struct DataReceivedAcknowledgementTable;

impl Table for DataReceivedAcknowledgementTable {
    type Out = DataReceivedAcknowledgement;

    ghost rows = { data_received_acknowledgement };

    #[tactic(auto, unfolding(crate::specs::Supplies::data_received_acknowledgement))]
    fn read_rows(
        alloc: Global,
        tree: &Tree<'_>,
    ) -> Result<DataReceivedAcknowledgement, TableError> {
        Ok(DataReceivedAcknowledgement {
            response_timestamp: row::<MomentRule>(alloc, tree, names::RESPONSE_TIMESTAMP)?,
            consumer_ref: row::<NameRule>(alloc, tree, names::CONSUMER_REF)?,
            request_message_ref: row::<NameRule>(alloc, tree, names::REQUEST_MESSAGE_REF)?,
            status: row::<FlagRule>(alloc, tree, names::STATUS)?.unwrap_or(true),
            error_condition: error_condition(alloc, tree)?,
            extensions: row::<OptionalMarkRule>(alloc, tree, names::EXTENSIONS)?,
        })
    }
}
