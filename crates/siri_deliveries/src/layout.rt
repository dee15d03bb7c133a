//! Writing the rows of a functional delivery around its two lists, and the beginnings and ends of these.

ghost use Rattle.std.specs.Prelude.{◌≡◌, ◌++◌, OnOk, IfSome, is_some};
ghost use Rattle.siri_json.specs.Tokens.{tokens_of};
ghost use Rattle.siri_tables.specs.Appended.{Appends};
ghost use Rattle.siri_deliveries.specs.Pieces.{after_items, before_items, change_writing, list_begin, list_end};
ghost use Rattle.siri_deliveries.specs.Layout.{back, entry_writing, front, items_begin, items_end, middle, moment_row, place_begins, place_ends, removals_begin, removals_end, removed_begin, removed_end, status_rows};

use crate::names;
use crate::pieces::{DeliveryHead, Listed};
use crate::write_entries::{RemovalWriting, write_journey_frame};
use siri_base::OutOfMemory;
use siri_items::write_item;
use siri_json::Output;
use siri_records::{Change, Item, Service};
use siri_tables::rules::{FlagRule, MomentRule, NameRule, NumberRule};
use siri_tables::writing::{Written, optional, required};

/// Begins Extensions and writes its Part, where there is a subscriber.
fn begin_place(out: &mut Output, head: &DeliveryHead) -> Result<(), OutOfMemory>
    ensures { OnOk result (out.new ≡ out.old ++ place_begins head.now) }
{
    if head.subscriber.is_none() {
        return Ok(());
    }
    out.key(names::EXTENSIONS)?;
    out.begin_object()?;
    required::<NumberRule>(out, names::PART, &head.part)
}

/// Writes Round and Start and ends Extensions, where there is a subscriber.
fn end_place(out: &mut Output, head: &DeliveryHead) -> Result<(), OutOfMemory>
    ensures { OnOk result (out.new ≡ out.old ++ place_ends head.now) }
{
    if head.subscriber.is_none() {
        return Ok(());
    }
    required::<NumberRule>(out, names::ROUND, &head.round)?;
    required::<NumberRule>(out, names::START, &head.start)?;
    out.end_object()
}

/// Writes ResponseTimestamp.
fn write_moment(out: &mut Output, head: &DeliveryHead) -> Result<(), OutOfMemory>
    ensures { OnOk result (out.new ≡ out.old ++ moment_row head.now) }
{
    required::<MomentRule>(out, names::RESPONSE_TIMESTAMP, &head.moment)
}

/// Writes Status, SubscriberRef and SubscriptionRef.
fn write_status(out: &mut Output, head: &DeliveryHead) -> Result<(), OutOfMemory>
    ensures { OnOk result (out.new ≡ out.old ++ status_rows head.now) }
{
    required::<FlagRule>(out, names::STATUS, &true)?;
    optional::<NameRule>(out, names::SUBSCRIBER_REF, &head.subscriber)?;
    optional::<NameRule>(out, names::SUBSCRIPTION_REF, &head.subscription)
}

/// Begins a delivery and writes the rows before its first list.
pub(crate) fn write_front(
    out: &mut Output,
    service: Service,
    head: &DeliveryHead,
) -> Result<(), OutOfMemory>
    ensures { OnOk result (out.new ≡ out.old ++ front service head.now) }
{
    out.begin_object()?;
    match service {
        Service::Stop => {
            begin_place(out, head)?;
            end_place(out, head)
        }
        Service::Timetable => Ok(()),
        Service::Vehicle => {
            begin_place(out, head)?;
            end_place(out, head)?;
            write_moment(out, head)?;
            write_status(out, head)
        }
        Service::Situation => begin_place(out, head),
    }
}

/// Writes the rows between both lists.
pub(crate) fn write_middle(
    out: &mut Output,
    service: Service,
    head: &DeliveryHead,
) -> Result<(), OutOfMemory>
    ensures { OnOk result (out.new ≡ out.old ++ middle service head.now) }
{
    match service {
        Service::Stop | Service::Vehicle => Ok(()),
        Service::Timetable => begin_place(out, head),
        Service::Situation => {
            end_place(out, head)?;
            write_moment(out, head)
        }
    }
}

/// Writes the rows behind the second list and ends the delivery.
pub(crate) fn write_back(
    out: &mut Output,
    service: Service,
    head: &DeliveryHead,
) -> Result<(), OutOfMemory>
    ensures { OnOk result (out.new ≡ out.old ++ back service head.now) }
{
    match service {
        Service::Stop => {
            write_moment(out, head)?;
            write_status(out, head)?;
        }
        Service::Timetable => {
            end_place(out, head)?;
            write_moment(out, head)?;
            write_status(out, head)?;
        }
        Service::Vehicle => {}
        Service::Situation => write_status(out, head)?,
    }
    out.end_object()
}

/// Begins the list of items.
pub(crate) fn begin_items(out: &mut Output, service: Service) -> Result<(), OutOfMemory>
    ensures { OnOk result (out.new ≡ out.old ++ items_begin service) }
{
    match service {
        Service::Stop => out.key(names::MONITORED_STOP_VISIT)?,
        Service::Timetable => out.key(names::ESTIMATED_JOURNEY_VERSION_FRAME)?,
        Service::Vehicle => out.key(names::VEHICLE_ACTIVITY)?,
        Service::Situation => {
            out.key(names::SITUATIONS)?;
            out.begin_object()?;
            out.key(names::PT_SITUATION_ELEMENT)?;
        }
    }
    out.begin_list()
}

/// Ends the list of items.
pub(crate) fn end_items(out: &mut Output, service: Service) -> Result<(), OutOfMemory>
    ensures { OnOk result (out.new ≡ out.old ++ items_end service) }
{
    out.end_list()?;
    match service {
        Service::Stop | Service::Timetable | Service::Vehicle => Ok(()),
        Service::Situation => out.end_object(),
    }
}

/// Begins Removed, and Extensions before it where nothing else stands in it.
fn begin_removed(out: &mut Output, head: &DeliveryHead) -> Result<(), OutOfMemory>
    ensures { OnOk result (out.new ≡ out.old ++ removed_begin head.now) }
{
    if head.subscriber.is_none() {
        out.key(names::EXTENSIONS)?;
        out.begin_object()?;
    }
    out.key(names::REMOVED)?;
    out.begin_list()
}

/// Ends Removed, and Extensions where nothing else stands in it.
fn end_removed(out: &mut Output, head: &DeliveryHead) -> Result<(), OutOfMemory>
    ensures { OnOk result (out.new ≡ out.old ++ removed_end head.now) }
{
    out.end_list()?;
    if head.subscriber.is_some() {
        return Ok(());
    }
    out.end_object()
}

/// Begins the list of removals.
pub(crate) fn begin_removals(
    out: &mut Output,
    service: Service,
    head: &DeliveryHead,
) -> Result<(), OutOfMemory>
    ensures { OnOk result (out.new ≡ out.old ++ removals_begin service head.now) }
{
    match service {
        Service::Stop => out.key(names::MONITORED_STOP_VISIT_CANCELLATION)?,
        Service::Vehicle => out.key(names::VEHICLE_ACTIVITY_CANCELLATION)?,
        Service::Timetable | Service::Situation => return begin_removed(out, head),
    }
    out.begin_list()
}

/// Ends the list of removals.
pub(crate) fn end_removals(
    out: &mut Output,
    service: Service,
    head: &DeliveryHead,
) -> Result<(), OutOfMemory>
    ensures { OnOk result (out.new ≡ out.old ++ removals_end service head.now) }
{
    match service {
        Service::Stop | Service::Vehicle => out.end_list(),
        Service::Timetable | Service::Situation => end_removed(out, head),
    }
}

/// Writes an item as an entry of the list of a service: a journey in a frame of its own.
pub(crate) fn write_entry(
    out: &mut Output,
    service: Service,
    item: &Item,
) -> Result<(), OutOfMemory>
    ensures { OnOk result (Appends (entry_writing service item.now) out.old out.new) }
{
    match service {
        Service::Stop | Service::Vehicle | Service::Situation => write_item(out, item),
        Service::Timetable => write_journey_frame(out, item),
    }
}

/// Begins a delivery and writes what stands before its items, where nothing is removed.
pub(crate) fn write_before_items(
    out: &mut Output,
    service: Service,
    head: &DeliveryHead,
) -> Result<(), OutOfMemory>
    ensures { OnOk result (out.new ≡ out.old ++ before_items service head.now) }
{
    write_front(out, service, head)?;
    match service {
        Service::Stop | Service::Timetable | Service::Vehicle => Ok(()),
        Service::Situation => write_middle(out, service, head),
    }
}

/// Writes what stands behind the items, where nothing is removed, and ends the delivery.
pub(crate) fn write_after_items(
    out: &mut Output,
    service: Service,
    head: &DeliveryHead,
) -> Result<(), OutOfMemory>
    ensures { OnOk result (out.new ≡ out.old ++ after_items service head.now) }
{
    match service {
        Service::Stop | Service::Timetable | Service::Vehicle => write_middle(out, service, head)?,
        Service::Situation => {}
    }
    write_back(out, service, head)
}

/// Begins a list.
pub(crate) fn begin_listed(
    out: &mut Output,
    listed: Listed,
    service: Service,
    head: &DeliveryHead,
) -> Result<(), OutOfMemory>
    ensures { OnOk result (out.new ≡ out.old ++ list_begin listed service head.now) }
{
    match listed {
        Listed::Items => begin_items(out, service),
        Listed::Removals => begin_removals(out, service, head),
    }
}

/// Ends a list.
pub(crate) fn end_listed(
    out: &mut Output,
    listed: Listed,
    service: Service,
    head: &DeliveryHead,
) -> Result<(), OutOfMemory>
    ensures { OnOk result (out.new ≡ out.old ++ list_end listed service head.now) }
{
    match listed {
        Listed::Items => end_items(out, service),
        Listed::Removals => end_removals(out, service, head),
    }
}

/// Whether a list has an entry of a change.
#[tactic(auto, using(crate::proofs::ChangeTexts::has_item), unfolding(crate::specs::Removals::written_removal))]
pub(crate) fn has_entry(listed: Listed, service: Service, change: &Change) -> bool
    ensures { result ≡ is_some (change_writing listed service change.now) }
{
    match (listed, &change.item) {
        (Listed::Items, Some(_)) => true,
        (Listed::Items, None) => false,
        (Listed::Removals, Some(_)) => false,
        (Listed::Removals, None) => true,
    }
}

/// Writes the entry that a list has of a change.
pub(crate) fn write_change(
    out: &mut Output,
    listed: Listed,
    service: Service,
    change: &Change,
) -> Result<(), OutOfMemory>
    ensures { OnOk result (IfSome (change_writing listed service change.now) (λ tree. out.new ≡ out.old ++ tokens_of tree)) }
{
    match (listed, &change.item) {
        (Listed::Items, Some(item)) => write_entry(out, service, item),
        (Listed::Removals, None) => RemovalWriting::write(out, change.key.key()),
        _ => Ok(()),
    }
}
