//! The text of a functional delivery, piece by piece, of items that are lent or of the changes of a part. It is the text
//! that `write_service_delivery` writes of the delivery, of which none is made.

ghost use Rattle.std.specs.Prelude.{◌≡◌, ◌<◌, ◌≤◌, ◌+◌, ◌++◌, [], ◌∷◌, List as Items, length, Some, IfOk, OnErr, IsErr, IfSome, MatchOption, option_map};
ghost use Rattle.json.specs.Print.{print};
ghost use Rattle.siri_json.specs.Tokens.{tokens_of};
ghost use Rattle.siri_records.specs.declared.item.Item.{Item as AnItem};
ghost use Rattle.siri_deliveries.specs.declared.pieces.DeliveryHead.{DeliveryHead as AHead};
ghost use Rattle.siri_deliveries.specs.Pieces.{GivesPiece, Leads, StepsTo, change_writing, delivery_of_head, delivery_text, entries_at, entries_left, entries_of_changes, first_list, item_text_left, items_of_changes, removals_of_changes, second_list, second_part, text_at, text_left};

use crate::layout::{
    begin_items, begin_listed, end_items, end_listed, has_entry, write_after_items, write_back,
    write_before_items, write_change, write_entry, write_front, write_middle,
};
use siri_base::{Moment, Name, OutOfMemory};
use siri_json::Output;
use siri_records::{Change, Item, Service};
use std::alloc::Global;
use std::rc::Rc;

/// Room for the text of most items, in bytes: so it is taken once for each, and not many times.
const ROOM: usize = 1_024;

/// What a functional delivery says beside its items and removals; its Status is true. It has Extensions, with its start,
/// round and part, exactly where it has a subscriber.
pub struct DeliveryHead {
    /// ResponseTimestamp.
    pub moment: Moment,
    /// SubscriberRef.
    pub subscriber: Option<Name>,
    /// SubscriptionRef.
    pub subscription: Option<Name>,
    /// The number of the producer's start.
    pub start: u64,
    pub round: u64,
    pub part: u64,
}

impl Drop for DeliveryHead {
    fn drop(self) {
        let DeliveryHead {
            moment: _,
            subscriber: _,
            subscription: _,
            start: _,
            round: _,
            part: _,
        } = self;
    }
}

/// Which piece of a delivery of items comes next.
#[derive(Clone, Copy, Debug, PartialEq, Eq)]
pub enum ItemStage {
    /// Its beginning with the first item, or all of it where there is none.
    Begin,
    /// A further item, or its end.
    Later,
    /// None.
    Ended,
    /// None: a piece was lost for want of memory.
    Lost,
}

/// The text of a functional delivery of the items that an iterator lends, piece by piece. No piece is empty, and none has
/// the text of two items.
#[derive(Drop)]
pub struct ItemPieces<'a, I> {
    alloc: Global,
    service: Service,
    head: &'a DeliveryHead,
    items: I,
    stage: ItemStage,
}

/// The pieces of the delivery of a service with this head and the items that an iterator lends, of which nothing was
/// written yet. It takes no memory.
pub fn item_pieces<'a, I: Iterator<Item = &'a Rc<Item>>>(
    alloc: Global,
    service: Service,
    head: &'a DeliveryHead,
    items: I,
) -> ItemPieces<'a, I>
    ensures service { result.service ≡ service }
    ensures head { result.head.now ≡ head.now }
    ensures items { result.items ≡ items }
    ensures stage { result.stage ≡ ItemStage.Begin }
{
    ItemPieces {
        alloc,
        service,
        head,
        items,
        stage: ItemStage::Begin,
    }
}

impl<'a, I: Iterator<Item = &'a Rc<Item>>> ItemPieces<'a, I> {
    /// The next piece, or `None` where all was written. After want of memory it is of no more use: each call says so again.
    pub fn next_piece(&mut self) -> Result<Option<Vec<u8>>, OutOfMemory>
        requires { I.can_next self.old.items }
        ensures steps { IfOk result (λ piece. StepsTo I.next_gives self.old.service self.old.head.now self.old.stage self.old.items
            (option_map (λ text. text.items) piece) self.new.stage self.new.items) }
        ensures some { IfOk result (λ piece. IfSome piece (λ text. 0 < length text.items)) }
        ensures lost { OnErr result (self.new.stage ≡ ItemStage.Lost) }
        ensures stays_lost { self.old.stage ≡ ItemStage.Lost → IsErr result }
        ensures service { self.new.service ≡ self.old.service }
        ensures head { self.new.head.now ≡ self.old.head.now }
    {
        let stage = self.stage;
        self.stage = ItemStage::Lost;
        match stage {
            ItemStage::Begin => Ok(Some(self.begin()?)),
            ItemStage::Later => Ok(Some(self.go_on()?)),
            ItemStage::Ended => {
                self.stage = ItemStage::Ended;
                Ok(None)
            }
            ItemStage::Lost => Err(OutOfMemory),
        }
    }

    /// The beginning with the first item, or all of a delivery of none.
    fn begin(&mut self) -> Result<Vec<u8>, OutOfMemory>
        requires { I.can_next self.old.items }
        ensures gives { IfOk result (λ text. GivesPiece I.next_gives self.old.service self.old.head.now ItemStage.Begin self.old.items
            (Some text.items) self.new.stage self.new.items) }
        ensures some { IfOk result (λ text. 0 < length text.items) }
        ensures lost { OnErr result (self.new.stage ≡ self.old.stage) }
        ensures service { self.new.service ≡ self.old.service }
        ensures head { self.new.head.now ≡ self.old.head.now }
    {
        match self.items.next() {
            Some(item) => {
                let text = first_item(self.alloc, self.service, self.head, item)?;
                self.stage = ItemStage::Later;
                Ok(text)
            }
            None => {
                let text = no_items(self.alloc, self.service, self.head)?;
                self.stage = ItemStage::Ended;
                Ok(text)
            }
        }
    }

    /// A further item, or the end of the delivery.
    fn go_on(&mut self) -> Result<Vec<u8>, OutOfMemory>
        requires { I.can_next self.old.items }
        ensures gives { IfOk result (λ text. GivesPiece I.next_gives self.old.service self.old.head.now ItemStage.Later self.old.items
            (Some text.items) self.new.stage self.new.items) }
        ensures some { IfOk result (λ text. 0 < length text.items) }
        ensures lost { OnErr result (self.new.stage ≡ self.old.stage) }
        ensures service { self.new.service ≡ self.old.service }
        ensures head { self.new.head.now ≡ self.old.head.now }
    {
        match self.items.next() {
            Some(item) => {
                let text = later_item(self.alloc, self.service, item)?;
                self.stage = ItemStage::Later;
                Ok(text)
            }
            None => {
                let text = last_of_items(self.alloc, self.service, self.head)?;
                self.stage = ItemStage::Ended;
                Ok(text)
            }
        }
    }
}

/// The beginning of a delivery of items with the first of them.
#[tactic(auto, using(crate::proofs::ItemTexts::first_said, crate::proofs::ItemTexts::first_filled))]
fn first_item(
    alloc: Global,
    service: Service,
    head: &DeliveryHead,
    item: &Item,
) -> Result<Vec<u8>, OutOfMemory>
    ensures text { IfOk result (λ text. (items : Items AnItem) → item_text_left service head.now ItemStage.Begin (item.now ∷ items)
        ≡ text.items ++ item_text_left service head.now ItemStage.Later items) }
    ensures some { IfOk result (λ text. 0 < length text.items) }
{
    let mut out = Output::new(alloc);
    write_before_items(&mut out, service, head)?;
    begin_items(&mut out, service)?;
    write_entry(&mut out, service, item)?;
    Ok(out.into_text())
}

/// A delivery of no items.
#[tactic(auto, using(crate::proofs::ItemTexts::no_items_said, crate::proofs::ItemTexts::no_items_filled))]
fn no_items(alloc: Global, service: Service, head: &DeliveryHead) -> Result<Vec<u8>, OutOfMemory>
    ensures text { IfOk result (λ text. text.items ≡ item_text_left service head.now ItemStage.Begin []) }
    ensures some { IfOk result (λ text. 0 < length text.items) }
{
    let mut out = Output::new(alloc);
    write_before_items(&mut out, service, head)?;
    write_after_items(&mut out, service, head)?;
    Ok(out.into_text())
}

/// A further item, behind a comma.
#[tactic(auto, using(crate::proofs::ItemTexts::later_said))]
fn later_item(alloc: Global, service: Service, item: &Item) -> Result<Vec<u8>, OutOfMemory>
    ensures text { IfOk result (λ text. (head : AHead) (items : Items AnItem) → item_text_left service head ItemStage.Later (item.now ∷ items)
        ≡ text.items ++ item_text_left service head ItemStage.Later items) }
    ensures some { IfOk result (λ text. 0 < length text.items) }
{
    let mut out = Output::with_room(alloc, ROOM)?;
    write_entry(&mut out, service, item)?;
    behind_comma(out)
}

/// What stands behind the last item of a delivery.
#[tactic(auto, using(crate::proofs::ItemTexts::last_said, crate::proofs::ItemTexts::last_filled))]
fn last_of_items(
    alloc: Global,
    service: Service,
    head: &DeliveryHead,
) -> Result<Vec<u8>, OutOfMemory>
    ensures text { IfOk result (λ text. text.items ≡ item_text_left service head.now ItemStage.Later []) }
    ensures some { IfOk result (λ text. 0 < length text.items) }
{
    let mut out = Output::new(alloc);
    end_items(&mut out, service)?;
    write_after_items(&mut out, service, head)?;
    Ok(out.into_text())
}

/// What was written, behind a comma.
fn behind_comma(out: Output) -> Result<Vec<u8>, OutOfMemory>
    ensures { IfOk result (λ text. text.items ≡ 44 ∷ print out) }
{
    let mut text = out.into_text();
    text.insert(0, b',')?;
    Ok(text)
}

/// The lists of a functional delivery.
#[derive(Clone, Copy, Debug, PartialEq, Eq)]
pub enum Listed {
    Items,
    Removals,
}

/// Which piece of a delivery of changes comes next.
#[derive(Clone, Copy, Debug, PartialEq, Eq)]
pub enum Stage {
    /// Its beginning with the first entry, or all of it where there is none.
    Begin,
    /// A further entry of the first list, or what follows the list.
    First,
    /// A further entry of the second list, or the end.
    Second,
    /// None.
    Ended,
    /// None: a piece was lost for want of memory.
    Lost,
}

/// The text of a functional delivery of the items and the removals of changes, piece by piece. No piece is empty, and none
/// has the text of two items or removals.
#[derive(Drop)]
pub struct ChangePieces<'a> {
    alloc: Global,
    service: Service,
    head: &'a DeliveryHead,
    changes: &'a [Change],
    // Those that the list at hand has still to look at.
    left: &'a [Change],
    stage: Stage,
}

/// The pieces of the delivery of a service with this head and the items and removals of changes, of which nothing was
/// written yet. It takes no memory.
#[tactic(auto, unfolding(crate::specs::Pieces::text_left))]
pub fn change_pieces<'a>(
    alloc: Global,
    service: Service,
    head: &'a DeliveryHead,
    changes: &'a [Change],
) -> ChangePieces<'a>
    ensures { text_left result ≡ delivery_text service (delivery_of_head head.now (items_of_changes changes.now) (removals_of_changes changes.now)) }
{
    ChangePieces {
        alloc,
        service,
        head,
        changes,
        left: changes,
        stage: Stage::Begin,
    }
}

impl<'a> ChangePieces<'a> {
    /// The next piece, with the text of at most one item or removal, or `None` where all was written. After want of memory
    /// it is of no more use: each call says so again.
    #[tactic(auto, unfolding(crate::specs::Pieces::text_left, crate::specs::Pieces::entries_left))]
    pub fn next_piece(&mut self) -> Result<Option<Vec<u8>>, OutOfMemory>
        ensures text { IfOk result (λ piece. MatchOption piece (text_left self.old ≡ [])
            (λ text. text_left self.old ≡ text.items ++ text_left self.new)) }
        ensures one { IfOk result (λ piece. IfSome piece (λ _. entries_left self.old ≤ 1 + entries_left self.new)) }
        ensures some { IfOk result (λ piece. IfSome piece (λ text. 0 < length text.items)) }
        ensures lost { OnErr result (self.new.stage ≡ Stage.Lost) }
        ensures stays_lost { self.old.stage ≡ Stage.Lost → IsErr result }
    {
        let stage = self.stage;
        self.stage = Stage::Lost;
        match stage {
            Stage::Begin => Ok(Some(self.begin()?)),
            Stage::First => Ok(Some(self.go_on()?)),
            Stage::Second => Ok(Some(self.go_on_with_second()?)),
            Stage::Ended => {
                self.stage = Stage::Ended;
                Ok(None)
            }
            Stage::Lost => Err(OutOfMemory),
        }
    }

    /// The beginning with the first entry, or all of a delivery of none.
    #[tactic(auto, using(crate::proofs::ChangeTexts::begun, crate::proofs::ChangeTexts::begun_without, crate::proofs::ChangeCounts::one_more, crate::proofs::ChangeTexts::front_filled, crate::proofs::Joined::longer), unfolding(crate::specs::Pieces::text_left, crate::specs::Pieces::entries_left))]
    fn begin(&mut self) -> Result<Vec<u8>, OutOfMemory>
        ensures text { IfOk result (λ text. text_at self.old.service self.old.head.now self.old.changes.now self.old.left.now Stage.Begin
            ≡ text.items ++ text_left self.new) }
        ensures one { IfOk result (λ _. entries_at self.old.service self.old.changes.now self.old.left.now Stage.Begin ≤ 1 + entries_left self.new) }
        ensures some { IfOk result (λ text. 0 < length text.items) }
        ensures lost { OnErr result (self.new.stage ≡ self.old.stage) }
    {
        let mut out = Output::new(self.alloc);
        write_front(&mut out, self.service, self.head)?;
        let listed = first_list(self.service);
        let Some((change, left)) = next_entry(listed, self.service, self.changes) else {
            write_middle(&mut out, self.service, self.head)?;
            return self.begin_second(out);
        };
        begin_listed(&mut out, listed, self.service, self.head)?;
        write_change(&mut out, listed, self.service, change)?;
        self.left = left;
        self.stage = Stage::First;
        Ok(out.into_text())
    }

    /// A further entry of the first list, or what follows the list.
    #[tactic(auto, using(crate::proofs::ChangeTexts::first_further, crate::proofs::ChangeTexts::first_ended, crate::proofs::ChangeCounts::one_more, crate::proofs::ChangeTexts::end_filled, crate::proofs::Joined::longer), unfolding(crate::specs::Pieces::text_left, crate::specs::Pieces::entries_left))]
    fn go_on(&mut self) -> Result<Vec<u8>, OutOfMemory>
        ensures text { IfOk result (λ text. text_at self.old.service self.old.head.now self.old.changes.now self.old.left.now Stage.First
            ≡ text.items ++ text_left self.new) }
        ensures one { IfOk result (λ _. entries_at self.old.service self.old.changes.now self.old.left.now Stage.First ≤ 1 + entries_left self.new) }
        ensures some { IfOk result (λ text. 0 < length text.items) }
        ensures lost { OnErr result (self.new.stage ≡ self.old.stage) }
    {
        let listed = first_list(self.service);
        let Some((change, left)) = next_entry(listed, self.service, self.left) else {
            let mut out = Output::new(self.alloc);
            end_listed(&mut out, listed, self.service, self.head)?;
            write_middle(&mut out, self.service, self.head)?;
            return self.begin_second(out);
        };
        let text = later_change(self.alloc, listed, self.service, change)?;
        self.left = left;
        self.stage = Stage::First;
        Ok(text)
    }

    /// What was written, and behind it the first entry of the second list, or the end where it has none.
    #[tactic(auto, using(crate::proofs::ChangeTexts::second_begun, crate::proofs::ChangeTexts::second_left_out, crate::proofs::ChangeCounts::one_more, crate::proofs::Joined::longer), unfolding(crate::specs::Pieces::text_left, crate::specs::Pieces::entries_left))]
    fn begin_second(&mut self, out: Output) -> Result<Vec<u8>, OutOfMemory>
        ensures text { IfOk result (λ text. print (out ++ second_part self.old.service self.old.head.now self.old.changes.now)
            ≡ text.items ++ text_left self.new) }
        ensures one { IfOk result (λ _. length (entries_of_changes (second_list self.old.service) self.old.service self.old.changes.now) ≤ 1 + entries_left self.new) }
        ensures some { IfOk result (λ text. 0 < length (print out) → 0 < length text.items) }
        ensures lost { OnErr result (self.new.stage ≡ self.old.stage) }
    {
        let mut out = out;
        let listed = second_list(self.service);
        let Some((change, left)) = next_entry(listed, self.service, self.changes) else {
            write_back(&mut out, self.service, self.head)?;
            self.stage = Stage::Ended;
            return Ok(out.into_text());
        };
        begin_listed(&mut out, listed, self.service, self.head)?;
        write_change(&mut out, listed, self.service, change)?;
        self.left = left;
        self.stage = Stage::Second;
        Ok(out.into_text())
    }

    /// A further entry of the second list, or the end.
    #[tactic(auto, using(crate::proofs::ChangeTexts::second_further, crate::proofs::ChangeTexts::second_ended, crate::proofs::ChangeCounts::one_more, crate::proofs::ChangeTexts::end_filled, crate::proofs::Joined::longer), unfolding(crate::specs::Pieces::text_left, crate::specs::Pieces::entries_left))]
    fn go_on_with_second(&mut self) -> Result<Vec<u8>, OutOfMemory>
        ensures text { IfOk result (λ text. text_at self.old.service self.old.head.now self.old.changes.now self.old.left.now Stage.Second
            ≡ text.items ++ text_left self.new) }
        ensures one { IfOk result (λ _. entries_at self.old.service self.old.changes.now self.old.left.now Stage.Second ≤ 1 + entries_left self.new) }
        ensures some { IfOk result (λ text. 0 < length text.items) }
        ensures lost { OnErr result (self.new.stage ≡ self.old.stage) }
    {
        let listed = second_list(self.service);
        let Some((change, left)) = next_entry(listed, self.service, self.left) else {
            let mut out = Output::new(self.alloc);
            end_listed(&mut out, listed, self.service, self.head)?;
            write_back(&mut out, self.service, self.head)?;
            self.stage = Stage::Ended;
            return Ok(out.into_text());
        };
        let text = later_change(self.alloc, listed, self.service, change)?;
        self.left = left;
        self.stage = Stage::Second;
        Ok(text)
    }
}

/// The list that stands first in the delivery of a service.
fn first_list(service: Service) -> Listed
    ensures { result ≡ first_list service }
{
    match service {
        Service::Stop | Service::Timetable | Service::Vehicle => Listed::Items,
        Service::Situation => Listed::Removals,
    }
}

/// The list that stands second in the delivery of a service.
fn second_list(service: Service) -> Listed
    ensures { result ≡ second_list service }
{
    match service {
        Service::Stop | Service::Timetable | Service::Vehicle => Listed::Removals,
        Service::Situation => Listed::Items,
    }
}

/// The next of the changes of which a list has an entry, with those behind it.
fn next_entry<'a>(
    listed: Listed,
    service: Service,
    changes: &'a [Change],
) -> Option<(&'a Change, &'a [Change])>
    ensures { MatchOption result (entries_of_changes listed service changes.now ≡ [])
        (λ next. Leads (change_writing listed service next.0.now) (entries_of_changes listed service next.1.now) (entries_of_changes listed service changes.now)) }
{
    let mut left = changes;
    while let Some((change, rest)) = left.split_first() {
        if has_entry(listed, service, change) {
            return Some((change, rest));
        }
        left = rest;
    }
    None
}

/// A further entry of a list, behind a comma.
fn later_change(
    alloc: Global,
    listed: Listed,
    service: Service,
    change: &Change,
) -> Result<Vec<u8>, OutOfMemory>
    ensures text { IfOk result (λ text. IfSome (change_writing listed service change.now) (λ tree. text.items ≡ 44 ∷ print (tokens_of tree))) }
    ensures some { IfOk result (λ text. 0 < length text.items) }
{
    let mut out = Output::with_room(alloc, ROOM)?;
    write_change(&mut out, listed, service, change)?;
    behind_comma(out)
}
