//! Doors in memory.

ghost use Rattle.std.specs.Prelude.{◌≡◌, [], IsSome, Some, OnErr, OnOk, option_map};
ghost use Rattle.siri_outside.specs.Wires.{new_wire};
ghost use Rattle.siri_doors.specs.InMemoryDoors.{HasTurn, served};

use crate::{Doors, Event};
use siri_base::{Copies, Name, OutOfMemory};
use siri_outside::{Failed, OutsideError};
use std::alloc::Global;
use std::marker::Model;

/// A connection that has or had its turn.
#[derive(Drop)]
struct Served<'a> {
    /// What is left to be read of it; `None` where it was hung up.
    left: Option<&'a [u8]>,
    /// What was written to it.
    written: Vec<u8>,
}

/// Doors with events to come, and with connections to be dialled, each a text to be read. They fail where none is left.
pub struct InMemoryDoors<'a> {
    coming: &'a [Event],
    to_dial: &'a [&'a [u8]],
    /// The slots that were refused.
    refused: Vec<usize>,
    /// The slot of the connection that had its turn last.
    slot: usize,
    last: Option<Served<'a>>,
    /// The connections before the last, which are over: one that wasn't hung up was replaced.
    before: Vec<Served<'a>>,
    /// The addresses that were listened at and dialled, in order.
    addresses: Vec<Name>,
    faults: u64,
    alloc: Global,
}

impl Drop for InMemoryDoors<'_> {
    fn drop(self) {
        let InMemoryDoors {
            coming: _,
            to_dial: _,
            refused: _,
            slot: _,
            last: _,
            before: _,
            addresses: _,
            faults: _,
            alloc: _,
        } = self;
    }
}

impl<'a> Model for InMemoryDoors<'a> {
    ghost use Rattle.siri_doors.specs.InMemoryDoors.{InMemory, line_of};

    ghost Value = { InMemory };

    ghost view = { λ d. record {
      doors = record {
        coming = d.coming.now;
        refused = d.refused.items;
        slot = d.slot;
        line = line_of d.last d.before.items d.to_dial.now d.addresses.items;
      };
      faults = d.faults;
    } };
}

impl<'a> InMemoryDoors<'a> {
    /// Doors by which these events are to come, with these connections to be dialled. It takes no memory.
    pub fn new(alloc: Global, coming: &'a [Event], to_dial: &'a [&'a [u8]]) -> Self
        ensures tells { ⟦<InMemoryDoors<'a> as Doors>⟧.tells result ≡ Some (record { coming = coming.now; refused = []; slot = 0; line = new_wire [] to_dial.now }) }
        ensures faults { ⟦<InMemoryDoors<'a> as Doors>⟧.faults result ≡ 0 }
    {
        InMemoryDoors {
            coming,
            to_dial,
            refused: Vec::new(alloc),
            slot: 0,
            last: None,
            before: Vec::new(alloc),
            addresses: Vec::new(alloc),
            faults: 0,
            alloc,
        }
    }

    /// The slots that were refused, in order.
    pub fn refused(&self) -> &[usize]
        ensures { option_map (λ doors. doors.refused) (⟦<InMemoryDoors<'a> as Doors>⟧.tells self.now) ≡ Some result.now }
    {
        &self.refused
    }

    /// The addresses that were listened at and dialled, in order, whether the call failed or not.
    pub fn addresses(&self) -> &[Name]
        ensures { option_map (λ doors. doors.line.named) (⟦<InMemoryDoors<'a> as Doors>⟧.tells self.now) ≡ Some result.now }
    {
        &self.addresses
    }

    /// A connection by which this is to be read has its turn, in the place of the one before it. After want of memory
    /// that one stays.
    fn serve(&mut self, slot: usize, left: &'a [u8]) -> Result<(), OutOfMemory>
        ensures ok { OnOk result (self.new ≡ record self.old { doors = served slot left.now self.old.doors }) }
        ensures err { OnErr result (self.new ≡ self.old) }
    {
        if let Some(last) = self.last.take() {
            if let Err(refused) = self.before.push(last) {
                self.last = Some(refused.value);
                return Err(OutOfMemory);
            }
        }
        self.slot = slot;
        self.last = Some(Served {
            left: Some(left),
            written: Vec::new(self.alloc),
        });
        Ok(())
    }
}

impl<'a> Doors for InMemoryDoors<'a> {
    ghost is_open = { λ d. HasTurn d.doors };

    ghost tells = { λ d. Some d.doors };

    ghost faults = { λ d. d.faults };

    fn listen(&mut self, address: &Name) -> Result<(), OutsideError> {
        let address = address.copy()?;
        Ok(self.addresses.push(address)?)
    }

    fn next(&mut self) -> Result<Event, OutsideError> {
        let Some((event, later)) = self.coming.split_first() else {
            self.faults = self.faults.saturating_add(1);
            return Err(OutsideError::Failed);
        };
        let event = event.copy()?;
        self.coming = later;
        Ok(event)
    }

    fn turn(&mut self, slot: usize) -> Result<(), OutOfMemory> {
        self.serve(slot, &[])
    }

    fn refuse(&mut self, slot: usize) -> Result<(), OutOfMemory> {
        Ok(self.refused.push(slot)?)
    }

    fn dial(&mut self, address: &Name) -> Result<usize, OutsideError> {
        let address = address.copy()?;
        let to_dial = self.to_dial;
        let Some(next) = to_dial.first() else {
            self.addresses.push(address)?;
            self.faults = self.faults.saturating_add(1);
            return Err(OutsideError::Failed);
        };
        self.addresses.push(address)?;
        let slot = self.before.len();
        if self.serve(slot, next).is_err() {
            self.addresses.pop();
            return Err(OutsideError::OutOfMemory);
        }
        self.to_dial = &to_dial[1..];
        Ok(slot)
    }

    fn read(&mut self, _slot: usize, into: &mut [u8]) -> Result<usize, Failed> {
        let Some(Served { left, written }) = self.last.take() else {
            return Err(Failed);
        };
        let Some(left) = left else {
            return Err(Failed);
        };
        let count = into.len().min(left.len());
        let (now, later) = left.split_at(count);
        into[..count].copy_from_slice(now);
        self.last = Some(Served {
            left: Some(later),
            written,
        });
        Ok(count)
    }

    fn write(&mut self, _slot: usize, piece: &[u8]) -> Result<usize, OutsideError> {
        let Some(Served { left, mut written }) = self.last.take() else {
            return Err(OutsideError::Failed);
        };
        let done = written.extend_from_slice(piece);
        self.last = Some(Served { left, written });
        done?;
        Ok(piece.len())
    }

    fn hang_up(&mut self) {
        if let Some(last) = &mut self.last {
            last.left = None;
        }
    }
}
