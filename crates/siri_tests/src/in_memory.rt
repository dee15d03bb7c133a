//! A shelf in memory.

use crate::rows::{FIRST, SECOND, are_told, puts};
use siri_base::Name;
use siri_outside::{InMemoryShelf, Shelf};
use std::test::Fail;

#[test]
fn rows_are_told_in_order(rt: HostRuntime) -> Result<(), Fail> {
    let file = Name::new(rt.alloc(), "rows")?;
    let first = puts(rt.alloc(), &FIRST)?;
    let second = puts(rt.alloc(), &SECOND)?;
    let mut shelf = InMemoryShelf::new(rt.alloc(), &[], None);
    shelf.open(&file)?;
    shelf.write(&first)?;
    shelf.write(&second)?;
    assert!(rt; are_told(&mut shelf)?);
    Ok(())
}

/// A call at which it stops, and how many rows a stop leaves at each moment.
static STOPS: [(u64, &[usize]); 3] = [(0, &[]), (1, &[0, 4, 0]), (2, &[0, 4])];

/// Opens a shelf and writes the first rows, as far as it goes.
fn write_first(rt: HostRuntime, shelf: &mut InMemoryShelf<'_>) -> Result<(), Fail> {
    let file = Name::new(rt.alloc(), "rows")?;
    let first = puts(rt.alloc(), &FIRST)?;
    if let Ok(()) = shelf.open(&file) {
        let _ = shelf.write(&first);
    }
    Ok(())
}

#[test]
fn a_stop_leaves_the_rows_before_a_write_or_those_after_it(rt: HostRuntime) -> Result<(), Fail> {
    for (stop, counts) in &STOPS {
        let mut shelf = InMemoryShelf::new(rt.alloc(), &[], Some(*stop));
        write_first(rt, &mut shelf)?;
        assert_eq!(rt; shelf.moments(), counts.len());
        for (moment, count) in counts.iter().enumerate() {
            let left = shelf.left_at(moment).ok_or("no moment")?;
            assert_eq!(rt; left.len(), *count);
        }
    }
    Ok(())
}
