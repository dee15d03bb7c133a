//! A shelf in a file.

use crate::rows::{FIRST, SECOND, are_told, puts};
use siri_base::{List, Name, OutOfMemory};
use siri_outside::{OutsideError, Put, Shelf};
use siri_system::FileShelf;
use std::alloc::Global;
use std::test::Fail;

/// Writes the rows to a file.
fn write_rows(alloc: Global, file: &Name, shelf: &mut FileShelf) -> Result<(), Fail> {
    let first = puts(alloc, &FIRST)?;
    let second = puts(alloc, &SECOND)?;
    shelf.open(file)?;
    shelf.write(&first)?;
    shelf.write(&second)?;
    Ok(())
}

#[test]
fn rows_are_there_when_a_file_is_opened_again(rt: HostRuntime) -> Result<(), Fail> {
    let file = Name::new(rt.alloc(), "rows.db")?;
    let mut shelf = FileShelf::new(rt);
    let mut again = FileShelf::new(rt);
    let written = write_rows(rt.alloc(), &file, &mut shelf);
    let refused = again.open(&file);
    drop(shelf);
    written?;
    assert!(rt; matches!(refused, Err(OutsideError::Failed)));
    again.open(&file)?;
    assert!(rt; are_told(&mut again)?);
    Ok(())
}

/// A put of as many bytes as the longest document has.
fn put_of_longest_document(alloc: Global) -> Result<List<Put>, OutOfMemory> {
    let text = vec![in alloc; b'x'; 8_388_608]?;
    let mut puts = List::new(alloc);
    puts.push(Put {
        table: 1,
        key: List::new(alloc),
        text: Some(List::of(text)),
    })?;
    Ok(puts)
}

#[test]
fn the_longest_document_is_kept(rt: HostRuntime) -> Result<(), Fail> {
    let file = Name::new(rt.alloc(), "long.db")?;
    let puts = put_of_longest_document(rt.alloc())?;
    let mut shelf = FileShelf::new(rt);
    shelf.open(&file)?;
    shelf.write(&puts)?;
    let row = shelf.next(1, None)?.ok_or("no row")?;
    assert_eq!(rt; row.text.len(), 8_388_608);
    Ok(())
}
