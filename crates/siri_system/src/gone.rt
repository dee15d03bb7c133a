//! Addresses that cost time and don't answer. They are left alone for a while, so that who is gone holds nobody up.

use crate::limit::Limit;
use crate::names::Names;
use siri_base::{Copies, Name};
use std::alloc::Global;
use std::mem;
use std::net::IpAddr;
use std::time::{Duration, Instant};

/// How much time an address may cost, in milliseconds, from its last answer on, before it is left alone. One that
/// refuses at once costs next to nothing, and may be there again at any time.
const COST_MILLISECONDS: u64 = 100;

/// For how long an address is left alone at first, in seconds; each further failure doubles it.
const FIRST_SECONDS: u64 = 15;

/// For how long it is left alone at most, in seconds.
const MOST_SECONDS: u64 = 480;

/// How many addresses are known at most; of more the first is forgotten.
const MOST_GONE: usize = 256;

/// How many changes are kept for whoever tells them; of more the first is forgotten.
const MOST_CHANGES: usize = 64;

/// How an address is to be dialled.
#[derive(Clone, Copy)]
pub(crate) enum Standing {
    /// As any other.
    Good,
    /// It was left alone for long enough: it is tried, with less patience.
    Trial,
    /// Not at all.
    Alone,
}

/// What changed of an address.
#[derive(Drop)]
pub(crate) enum Change {
    /// It is left alone for so many seconds.
    Alone(Name, u64),
    /// It answers again.
    Back(Name),
}

/// An address that failed since its last answer.
#[derive(Drop)]
struct Gone {
    address: Name,
    /// How much time it has cost since then.
    cost: Duration,
    /// For how many seconds it is left alone, 0 while it isn't.
    pause: u64,
    /// Until when.
    limit: Limit,
}

impl Gone {
    /// Counts a failure that took so long.
    fn fail(&mut self, took: Duration, now: Instant) {
        self.cost = self.cost.saturating_add(took);
        if self.cost >= Duration::from_millis(COST_MILLISECONDS) {
            self.pause = match self.pause {
                0 => FIRST_SECONDS,
                pause => pause.saturating_mul(2).min(MOST_SECONDS),
            };
            self.limit = Limit::after(now, Duration::from_secs(self.pause));
        }
    }
}

/// The addresses that failed since their last answer.
#[derive(Drop)]
pub(crate) struct GoneList {
    alloc: Global,
    list: Vec<Gone>,
    changes: Vec<Change>,
}

impl GoneList {
    /// None yet.
    pub(crate) fn new(alloc: Global) -> GoneList {
        GoneList {
            alloc,
            list: Vec::new(alloc),
            changes: Vec::new(alloc),
        }
    }

    /// How an address is to be dialled now.
    pub(crate) fn standing(&self, address: &Name, now: Instant) -> Standing {
        for gone in &self.list {
            if gone.address.text() == address.text() && gone.pause > 0 {
                return if gone.limit.is_over(now) {
                    Standing::Trial
                } else {
                    Standing::Alone
                };
            }
        }
        Standing::Good
    }

    /// An address answered.
    pub(crate) fn answered(&mut self, address: &Name) {
        let mut was_alone = false;
        for gone in &self.list {
            was_alone = was_alone || gone.address.text() == address.text() && gone.pause > 0;
        }
        self.list
            .retain(|gone: &Gone| gone.address.text() != address.text());
        if was_alone && let Ok(address) = address.copy() {
            self.tell(Change::Back(address));
        }
    }

    /// An address failed, which took so long.
    pub(crate) fn failed(&mut self, address: &Name, took: Duration, now: Instant) {
        self.enter(address, now);
        let mut pause = 0;
        for gone in self.list.iter_mut() {
            if gone.address.text() == address.text() {
                gone.fail(took, now);
                pause = gone.pause;
            }
        }
        if pause > 0
            && let Ok(address) = address.copy()
        {
            self.tell(Change::Alone(address, pause));
        }
    }

    /// Enters an address, where it isn't there and there is memory for it.
    fn enter(&mut self, address: &Name, now: Instant) {
        for gone in &self.list {
            if gone.address.text() == address.text() {
                return;
            }
        }
        if self.list.len() >= MOST_GONE {
            drop(self.list.remove(0));
        }
        if let Ok(address) = address.copy() {
            let _ = self.list.push(Gone {
                address,
                cost: Duration::ZERO,
                pause: 0,
                limit: Limit::after(now, Duration::ZERO),
            });
        }
    }

    /// Somebody came from this host: the addresses that are there needn't be left alone any longer.
    pub(crate) fn came_from(&mut self, names: &Names, host: IpAddr, now: Instant) {
        for gone in self.list.iter_mut() {
            if gone.pause > 0 && names.is_at(&gone.address, host) {
                gone.limit = Limit::after(now, Duration::ZERO);
            }
        }
    }

    /// Keeps a change, where there is memory for it.
    fn tell(&mut self, change: Change) {
        if self.changes.len() >= MOST_CHANGES {
            drop(self.changes.remove(0));
        }
        let _ = self.changes.push(change);
    }

    /// The changes since this was asked last.
    pub(crate) fn take_changes(&mut self) -> Vec<Change> {
        mem::replace(&mut self.changes, Vec::new(self.alloc))
    }
}
