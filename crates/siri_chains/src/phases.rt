//! The phases of reading and writing a document, for the benchmark: the time of each is the difference of two runs.
//!
//! | Phase | What is done |
//! |---|---|
//! | `bytes` | the document is read into memory |
//! | `tokens` | its tokens are read, and nothing is made of them |
//! | `message` | its message is read, and its tokens by that, so this comes in the place of `tokens` |
//! | `text` | the message's text is written |
//!
//! and in the place of `message`, as a document is read that is refused:
//!
//! | Phase | What is done |
//! |---|---|
//! | `tree` | a tree of the whole document is read |
//! | `items` | the visits of its StopMonitoringDelivery are read from the tree |
//!
//! It prints how many bytes, tokens, visits or bytes of text it made, and 1 for a message.

use json::{Reader, Token};
use siri_base::OutOfMemory;
use siri_items::read_item;
use siri_json::{Path, Scratch, Tree, TreeError, entry_at, entry_list, member, read_tree};
use siri_records::{Item, Service};
use siri_tables::TableError;
use siri_wire::{DecodeError, decode, encode};
use std::alloc::{AllocError, AllocFailed, Global};
use std::io::Read;

/// A phase wasn't done: there was no input, it was refused, or there was no memory.
#[derive(Debug, Drop)]
pub(crate) struct NotDone;

impl From<OutOfMemory> for NotDone {
    fn from(_: OutOfMemory) -> Self {
        NotDone
    }
}

impl From<AllocError> for NotDone {
    fn from(_: AllocError) -> Self {
        NotDone
    }
}

impl<T: Drop> From<AllocFailed<T>> for NotDone {
    fn from(_: AllocFailed<T>) -> Self {
        NotDone
    }
}

impl From<std::io::Error> for NotDone {
    fn from(_: std::io::Error) -> Self {
        NotDone
    }
}

impl From<TreeError> for NotDone {
    fn from(_: TreeError) -> Self {
        NotDone
    }
}

impl From<TableError> for NotDone {
    fn from(_: TableError) -> Self {
        NotDone
    }
}

impl From<DecodeError> for NotDone {
    fn from(_: DecodeError) -> Self {
        NotDone
    }
}

/// Does the phases up to the one of that name, and prints how much the last one made.
pub(crate) fn measured(rt: &HostRuntime, phase: &str) -> Result<(), NotDone> {
    let alloc = rt.alloc();
    let mut document = Vec::new(alloc);
    rt.stdin().read_to_end(&mut document)?;
    let made = made(alloc, document, phase)?;
    println!(rt; "{made}")?;
    Ok(())
}

/// How many bytes, tokens or bytes of text the phase of that name made.
fn made(alloc: Global, document: Vec<u8>, phase: &str) -> Result<usize, NotDone> {
    match phase {
        "bytes" => Ok(document.len()),
        "tokens" => tokens(alloc, &document),
        "tree" | "items" => by_tree(alloc, &document, phase),
        "message" => {
            decode(alloc, &document)?;
            Ok(1)
        }
        _ => {
            let message = decode(alloc, &document)?;
            Ok(encode(alloc, &message)?.len())
        }
    }
}

/// How many visits a document's tree has, and how many were read from it.
fn by_tree(alloc: Global, document: &[u8], phase: &str) -> Result<usize, NotDone> {
    let mut scratch = Scratch::new(alloc);
    let tree = read_tree(alloc, document, &mut scratch)?;
    let visits = visits_of(&tree).ok_or(NotDone)?;
    if phase == "tree" {
        return Ok(visits.len());
    }
    Ok(items_of(alloc, visits)?.len())
}

/// The visits of the first StopMonitoringDelivery.
fn visits_of<'v, 'a>(tree: &'v Tree<'a>) -> Option<&'v [Tree<'a>]> {
    let delivery = member(member(tree, "Siri")?, "ServiceDelivery")?;
    let service = entry_at(member(delivery, "StopMonitoringDelivery")?, 0)?;
    Some(entry_list(member(service, "MonitoredStopVisit")?))
}

/// The items that the visits are read as, until the first is refused.
fn items_of(alloc: Global, visits: &[Tree<'_>]) -> Result<Vec<Item>, NotDone> {
    let root = Path::new(alloc);
    let mut items = Vec::new(alloc);
    for visit in visits {
        items.push(read_item(alloc, visit, Service::Stop, &root)?)?;
    }
    Ok(items)
}

/// How many tokens a document has.
fn tokens(alloc: Global, document: &[u8]) -> Result<usize, NotDone> {
    let Ok(text) = simdutf8::compat::from_utf8(document) else {
        return Err(NotDone);
    };
    let mut scratch = Scratch::new(alloc);
    let mut reader = Reader::new(text, &mut scratch)?;
    for count in 0..usize::MAX {
        match reader.next() {
            Some(Token::Bad) => return Err(NotDone),
            Some(_) => {}
            None => return Ok(count),
        }
    }
    Err(NotDone)
}
