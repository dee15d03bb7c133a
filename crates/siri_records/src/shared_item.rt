//! Items that are shared.

ghost use Rattle.std.specs.Prelude.{◌≡◌, IfOk};

use crate::Item;
use siri_base::{Copies, OutOfMemory};
use std::alloc::Global;
use std::marker::Model;
use std::rc::Rc;

/// An item that others may hold too: a copy of it is a count. Contracts see the item.
pub struct SharedItem {
    item: Rc<Item>,
}

impl Drop for SharedItem {
    fn drop(self) {
        let SharedItem { item: _ } = self;
    }
}

impl Model for SharedItem {
    ghost use Rattle.siri_records.specs.declared.item.Item.{Item};

    ghost Value = { Item };

    ghost view = { λ i. i.item.value };
}

impl SharedItem {
    /// The item, which may be shared from now on.
    pub fn new(alloc: Global, item: Item) -> Result<SharedItem, OutOfMemory>
        ensures { IfOk result (λ shared. shared ≡ item) }
    {
        let item = Rc::new(alloc, item)?;
        Ok(SharedItem { item })
    }

    /// An item that is shared already. It takes no memory.
    pub fn of(item: Rc<Item>) -> SharedItem
        ensures { result ≡ item.value }
    {
        SharedItem { item }
    }

    /// The item itself.
    pub fn item(&self) -> &Item
        ensures { result.now ≡ self.now }
    {
        &self.item
    }

    /// The item, for a store or a view. It takes no memory.
    pub fn into_inner(self) -> Rc<Item>
        ensures { result.value ≡ self }
    {
        let SharedItem { item } = self;
        item
    }
}

impl Copies for SharedItem {
    fn copy(&self) -> Result<Self, OutOfMemory> {
        let item = self.item.clone()?;
        Ok(SharedItem { item })
    }
}
