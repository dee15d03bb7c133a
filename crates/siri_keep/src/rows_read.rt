//! What rows say, one after the other.

ghost use Rattle.std.specs.Prelude.{◌≡◌, [], true, IfOk, OnOk};
ghost use Rattle.siri_keep.specs.declared.errors.KeepError.TheVariants as refused;
ghost use Rattle.siri_keep.specs.RowByRow.{TakesRow, has_place, has_room, whole_of, with_kept, with_live};

use crate::KeepError;
use crate::by_service::ByService;
use crate::kept_requests::{asks_again, is_place, renewal_at};
use crate::opening::{KeptItems, KeptRequest, WhatIsRead};
use crate::plans::MOST_ROWS;
use siri_base::{Copies, List, OutOfMemory};
use siri_messages::Message;
use siri_outside::Row;
use siri_producer::{MOST_LIVE, MOST_SUBSCRIPTIONS};
use siri_records::{Item, KeyedItems, SharedItem, SharedKey, dead};
use siri_row_texts::{Began, item_of_row, request_of_row};
use std::alloc::Global;

/// What the rows so far say, of those in order of table and key.
#[derive(Drop)]
pub(crate) struct RowsRead {
    pub(crate) alloc: Global,
    pub(crate) began: Began,
    pub(crate) all: KeyedItems,
    /// How many rows of items there were, and how many of these are live at the kept moment.
    pub(crate) count: usize,
    pub(crate) living: usize,
    pub(crate) live: ByService,
    pub(crate) requests: List<KeptRequest>,
    pub(crate) renewals: List<Message>,
}

/// The refusal of a bad row of a table.
fn bad(table: u8, row: &Row) -> Result<KeepError, OutOfMemory>
    ensures { IfOk result (λ error. error ≡ refused.BadRow table row.now.key) }
{
    let key = row.key.copy()?;
    Ok(KeepError::BadRow { table, key })
}

impl RowsRead {
    /// What the row of the moment alone says.
    pub(crate) fn new(alloc: Global, began: Began) -> RowsRead
        ensures { result ≡ record {
          alloc = alloc;
          began = began;
          all = [];
          count = 0;
          living = 0;
          live = record { visits = []; journeys = []; vehicles = []; situations = [] };
          requests = [];
          renewals = [];
        } }
    {
        RowsRead {
            alloc,
            began,
            all: KeyedItems::new(alloc),
            count: 0,
            living: 0,
            live: ByService::new(alloc),
            requests: List::new(alloc),
            renewals: List::new(alloc),
        }
    }

    /// Takes the next row, of a table. It is a bad one exactly where it isn't of its table's form, or is one too many.
    pub(crate) fn take(&mut self, table: u8, row: &Row) -> Result<(), KeepError>
        ensures { TakesRow table self.old row.now result self.new }
    {
        match table {
            1 => self.take_item(row),
            2 => self.take_request(row),
            3 => self.take_renewal(row),
            _ => Err(bad(table, row)?),
        }
    }

    /// Whether there is room for one more item.
    fn has_room(&self, item: &Item) -> bool
        ensures { result ≡ has_room self.now item.now }
    {
        self.count < MOST_ROWS && (dead(item, self.began.moment) || self.living < MOST_LIVE)
    }

    /// Adds an item to the live ones, where it isn't dead at the kept moment.
    fn add_live(&mut self, item: &SharedItem) -> Result<(), OutOfMemory>
        requires { has_room self.old item.now ≡ true }
        ensures { OnOk result (self.new ≡ with_live self.old item.now) }
    {
        if dead(item.item(), self.began.moment) {
            return Ok(());
        }
        self.living += 1;
        self.live.push(item.copy()?)
    }

    /// Adds an item.
    fn add(&mut self, item: SharedItem) -> Result<(), OutOfMemory>
        requires { has_room self.old item ≡ true }
        ensures { OnOk result (self.new ≡ with_kept self.old item) }
    {
        self.add_live(&item)?;
        self.count += 1;
        let key = SharedKey::of(self.alloc, item.item())?;
        self.all.put(key, item.into_inner())
    }

    /// Takes a row of table 1: an item, of which at most 100,000 are kept, and at most 20,000 live.
    fn take_item(&mut self, row: &Row) -> Result<(), KeepError>
        ensures { TakesRow 1 self.old row.now result self.new }
    {
        let Some(item) = item_of_row(self.alloc, row.key.slice(), row.text.slice())? else {
            return Err(bad(1, row)?);
        };
        if !self.has_room(item.item()) {
            return Err(bad(1, row)?);
        }
        self.add(item)?;
        Ok(())
    }

    /// Whether a request may stand at a key: it is the first of its subscription, and one of at most 200.
    fn has_place(&self, key: &[u8], request: &Message) -> bool
        ensures { result ≡ has_place self.now key.now request.now }
    {
        is_place(key)
            && self.requests.len() < MOST_SUBSCRIPTIONS
            && !asks_again(self.requests.slice(), request)
    }

    /// Takes a row of table 2: the request of a subscription.
    fn take_request(&mut self, row: &Row) -> Result<(), KeepError>
        ensures { TakesRow 2 self.old row.now result self.new }
    {
        let Some(request) = request_of_row(self.alloc, row.text.slice())? else {
            return Err(bad(2, row)?);
        };
        if !self.has_place(row.key.slice(), &request) {
            return Err(bad(2, row)?);
        }
        let place = row.key.copy()?;
        self.requests.push(KeptRequest { place, request })?;
        Ok(())
    }

    /// Takes a row of table 3: the request that gave a subscription its number.
    fn take_renewal(&mut self, row: &Row) -> Result<(), KeepError>
        ensures { TakesRow 3 self.old row.now result self.new }
    {
        let requests = self.requests.slice();
        let Some(renewal) = renewal_at(self.alloc, requests, row.key.slice(), row.text.slice())?
        else {
            return Err(bad(3, row)?);
        };
        self.renewals.push(renewal)?;
        Ok(())
    }

    /// All that they say.
    pub(crate) fn into_whole(self) -> Result<WhatIsRead, OutOfMemory>
        ensures { IfOk result (λ whole. whole ≡ whole_of self) }
    {
        let RowsRead {
            alloc,
            began,
            all,
            count: _,
            living: _,
            live,
            requests,
            renewals,
        } = self;
        let live = live.into_delivery(alloc)?;
        Ok(WhatIsRead {
            began,
            items: KeptItems { all, live },
            requests,
            renewals,
        })
    }
}
