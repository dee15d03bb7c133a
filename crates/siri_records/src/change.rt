//! Changes of keys.

ghost use Rattle.std.specs.Prelude.{◌≡◌};

use crate::{Item, SharedKey};
use siri_base::{Copies, OutOfMemory};
use std::marker::Model;
use std::rc::Rc;

/// A key with its new item, or with none: then the key is removed. Both are shared. Contracts see the key and the item
/// themselves.
#[derive(Drop)]
pub struct Change {
    pub key: SharedKey,
    pub item: Option<Rc<Item>>,
}

impl Model for Change {
    ghost use Rattle.std.specs.Prelude.{option_map};
    ghost use Rattle.siri_records.specs.Keyed.{KeyChange};

    ghost Value = { KeyChange };

    ghost view = { λ c. (c.key, option_map (λ item. item.value) c.item) };
}

impl Copies for Change {
    fn copy(&self) -> Result<Self, OutOfMemory> {
        let item = match &self.item {
            Some(item) => Some(item.clone()?),
            None => None,
        };
        Ok(Change {
            key: self.key.copy()?,
            item,
        })
    }
}
