//! Keys that are shared.

ghost use Rattle.std.specs.Prelude.{◌≡◌, IfOk};
ghost use Rattle.std.proofs.Common.{rules};
ghost use Rattle.std.specs.Cmp.{eq_by_cmp_equiv, partial_equiv_from_equiv, po};
ghost use Rattle.std.specs.Cmp.Rules.{comparing};
ghost use Rattle.std.specs.Ordering.{as_partial_cmp, eq_by_cmp};
ghost use Rattle.siri_records.specs.Keys.{key_of};
ghost use Rattle.siri_records.specs.Order.{key_cmp, key_cmp_total};

use crate::{Item, Key, key_of};
use siri_base::{Copies, OutOfMemory};
use std::alloc::Global;
use std::cmp::Ordering;
use std::marker::Model;
use std::rc::Rc;

/// A key that others may hold too: a copy of it is a count. Contracts see the key, and shared keys are in the order of
/// keys.
pub struct SharedKey {
    key: Rc<Key>,
}

impl Drop for SharedKey {
    fn drop(self) {
        let SharedKey { key: _ } = self;
    }
}

impl Model for SharedKey {
    ghost use Rattle.siri_records.specs.declared.key.Key.{Key};

    ghost Value = { Key };

    ghost view = { λ k. k.key.value };
}

impl SharedKey {
    /// The key, which may be shared from now on.
    pub fn new(alloc: Global, key: Key) -> Result<SharedKey, OutOfMemory>
        ensures { IfOk result (λ shared. shared ≡ key) }
    {
        let key = Rc::new(alloc, key)?;
        Ok(SharedKey { key })
    }

    /// The key of an item.
    pub fn of(alloc: Global, item: &Item) -> Result<SharedKey, OutOfMemory>
        ensures { IfOk result (λ shared. shared ≡ key_of item.now) }
    {
        SharedKey::new(alloc, key_of(item)?)
    }

    /// The key itself.
    pub fn key(&self) -> &Key
        ensures { result.now ≡ self.now }
    {
        &self.key
    }
}

impl Copies for SharedKey {
    fn copy(&self) -> Result<Self, OutOfMemory> {
        let key = self.key.clone()?;
        Ok(SharedKey { key })
    }
}

impl PartialEq for SharedKey {
    ghost eq = { eq_by_cmp key_cmp };

    ghost laws = { partial_equiv_from_equiv (eq_by_cmp_equiv key_cmp_total) };

    fn eq(&self, other: &SharedKey) -> bool {
        self.cmp(other) == Ordering::Equal
    }
}

impl Eq for SharedKey {
    ghost laws = { eq_by_cmp_equiv key_cmp_total };
}

impl PartialOrd for SharedKey {
    ghost partial_cmp = { as_partial_cmp key_cmp };

    ghost laws = { po key_cmp_total (λ x y i. eq_by_cmp key_cmp x y) };

    fn partial_cmp(&self, other: &SharedKey) -> Option<Ordering> {
        Some(self.cmp(other))
    }
}

impl Ord for SharedKey {
    ghost cmp = { key_cmp };

    ghost total = { key_cmp_total };

    ghost matches_partial_cmp = { Prim.search (comparing, rules) };

    ghost matches_eq = { Prim.search (comparing, rules) };

    fn cmp(&self, other: &SharedKey) -> Ordering {
        self.key().cmp(other.key())
    }
}
