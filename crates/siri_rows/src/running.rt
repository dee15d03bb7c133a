//! Runs of the command over an outside in memory.

use crate::facts::{Facts, shelf_held};
use crate::given::{Connection, Given};
use crate::members::Members;
use anyhow::{Result, bail};
use siri_base::{List, Name, OutOfMemory, Status};
use siri_cli::run_all;
use siri_outside::{
    FailingCalls, FailingClock, FailingConnection, FailingKeeper, FailingSink, FailingSource,
    FailingWire, InMemoryShelf, OutsideError, Put, Shelf, Source,
};
use std::alloc::Global;

/// What comes of a row by a command of these words.
pub(crate) fn came_of(
    alloc: Global,
    row: &Members<'_>,
    given: &Given,
    words: &[String],
) -> Result<Facts> {
    let to_accept = wired(alloc, &given.come)?;
    let to_dial = wired(alloc, &given.dialled)?;
    let calls = FailingCalls {
        listen: &given.fails.listen,
        accept: &given.fails.accept,
        dial: &given.fails.dial,
    };
    let mut source = FailingSource::new(&given.input, &given.fails.read);
    let mut sink = FailingSink::new(alloc, &given.fails.write);
    let mut wire = FailingWire::new(alloc, &to_accept, &to_dial, calls);
    let mut shelf = shelf_of(alloc, given)?;
    let mut facts = Facts::new(alloc);
    let status = run_over(
        alloc,
        given,
        words,
        &mut source,
        &mut sink,
        &mut wire,
        &mut shelf,
    );
    put_status(alloc, &mut facts, status)?;
    facts.put("output", sink.bytes().to_vec(alloc)?)?;
    facts.put("named", lines_of_names(alloc, wire.addresses())?)?;
    if row.get("unread").is_some() {
        facts.put("unread", rest_of(alloc, &mut source)?)?;
    }
    if row.get("shelf_after").is_some() {
        facts.put("shelf after", rows_left(alloc, &shelf)?)?;
    }
    put_sent(alloc, &mut facts, &wire)?;
    Ok(facts)
}

/// How the command of these words ends over what a row gives.
fn run_over(
    alloc: Global,
    given: &Given,
    words: &[String],
    source: &mut FailingSource<'_>,
    sink: &mut FailingSink<'_>,
    wire: &mut FailingWire<'_>,
    shelf: &mut InMemoryShelf<'_>,
) -> Status {
    let mut clock = FailingClock::new(&given.moments, &given.fails.clock);
    let mut keeper = FailingKeeper::new(given.kept, &given.fails.keeper);
    run_all(
        alloc,
        words,
        source,
        sink,
        wire,
        &mut clock,
        &mut keeper,
        shelf,
    )
}

/// Connections as a wire takes them.
fn wired(alloc: Global, connections: &[Connection]) -> Result<Vec<FailingConnection<'_>>> {
    let mut all = Vec::new(alloc);
    for connection in connections {
        all.push(connection.wired())?;
    }
    Ok(all)
}

/// A shelf that holds the rows of a row of the file.
fn shelf_of(alloc: Global, given: &Given) -> Result<InMemoryShelf<'_>> {
    let file = Name::new(alloc, "rows")?;
    let mut shelf = InMemoryShelf::new(alloc, &given.fails.shelf, None);
    match put_rows(&mut shelf, &file, &given.shelf) {
        Ok(()) => Ok(shelf),
        Err(_) => bail!("no rows of the shelf"),
    }
}

/// Puts the rows of a shelf.
fn put_rows<B: Shelf>(shelf: &mut B, file: &Name, puts: &List<Put>) -> Result<(), OutsideError> {
    shelf.open(file)?;
    shelf.write(puts)
}

/// Puts the number of a status and its line.
fn put_status(alloc: Global, facts: &mut Facts, status: Status) -> Result<()> {
    let (number, text) = told_of(alloc, status)?;
    facts.put("status", number.to_string(alloc)?.into_bytes())?;
    facts.put("told", text.into_vec())
}

/// In a function of its own, which lets the status go and does nothing else.
fn told_of(alloc: Global, status: Status) -> Result<(u8, List<u8>), OutOfMemory> {
    Ok((status.number(), status.text(alloc)?))
}

/// Names, each with a line's end.
fn lines_of_names(alloc: Global, names: &[Name]) -> Result<Vec<u8>> {
    let mut lines = Vec::new(alloc);
    for name in names {
        lines.extend_from_slice(name.text().as_bytes())?;
        lines.push(b'\n')?;
    }
    Ok(lines)
}

/// What a source still has, up to some bytes.
fn rest_of(alloc: Global, source: &mut FailingSource<'_>) -> Result<Vec<u8>> {
    let mut bytes = [0u8; 4096];
    match source.read(&mut bytes) {
        Ok(count) => Ok(bytes[..count].to_vec(alloc)?),
        Err(_) => bail!("the input fails once more"),
    }
}

/// The rows that a shelf holds after its last write.
fn rows_left(alloc: Global, shelf: &InMemoryShelf<'_>) -> Result<Vec<u8>> {
    let last = shelf.moments().checked_sub(1);
    match last.and_then(|last| shelf.left_at(last)) {
        Some(rows) => shelf_held(alloc, rows.slice()),
        None => bail!("no rows of the shelf"),
    }
}

/// Puts what was written to each connection.
fn put_sent(alloc: Global, facts: &mut Facts, wire: &FailingWire<'_>) -> Result<()> {
    for place in 0..1_000_000 {
        match wire.written(place) {
            Some(bytes) => facts.put("sent", bytes.to_vec(alloc)?)?,
            None => break,
        }
    }
    Ok(())
}
