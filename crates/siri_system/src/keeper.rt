//! The start number in a file.

ghost use Rattle.std.specs.Prelude.{◌≡◌, ◌≤◌, None, IfOk};

use siri_outside::{Keeper, OutsideError};
use std::fs::File;
use std::io::{ErrorKind, Write};
use std::{fs, io};

/// The file of the number, in the folder that the program runs in: decimal digits and a line feed.
const KEPT: &str = "siri-start";

/// The file that is written first and then put in its place.
const NEXT: &str = "siri-start.next";

/// The file that is locked meanwhile. It stays, and is empty; the system lets go of the lock when a program ends, in
/// whatever way.
const LOCK: &str = "siri-start.lock";

/// The greatest number that a keeper gives.
const GREATEST_START: u64 = 99_999_999_999;

/// The start number in the file `siri-start`, which is absent before the first start. The next number is written beside
/// it and then takes its name, so a stop in between keeps the old one; of starts at once in one folder each waits until
/// the one before it has its number. It fails where the file holds anything but decimal digits and a line feed or the
/// greatest number, and where the system fails.
#[derive(Drop)]
pub struct FileKeeper {
    rt: HostRuntime,
    fault: Option<io::Error>,
    faults: u64,
}

impl FileKeeper {
    /// The keeper of the folder that the program runs in.
    pub fn new(rt: HostRuntime) -> FileKeeper
        ensures faults { ⟦<FileKeeper as Keeper>⟧.faults result ≡ 0 }
    {
        FileKeeper {
            rt,
            fault: None,
            faults: 0,
        }
    }

    /// What was told at the last failure.
    pub fn fault(&self) -> Option<io::Error>
        ensures { result ≡ self.now.fault }
    {
        self.fault
    }
}

/// The number that a file's text holds: none where it is anything but decimal digits and a line feed.
fn number_in(text: &str) -> Option<u64> {
    let digits = text.strip_suffix('\n')?;
    if digits.bytes().all(|byte| byte.is_ascii_digit()) {
        digits.parse().ok()
    } else {
        None
    }
}

/// A file that holds no number from which another one follows.
fn no_number() -> io::Error {
    io::Error::new(
        ErrorKind::InvalidData,
        "siri-start holds no number below 99999999999",
    )
}

/// The number that is kept, 0 where there is no file.
fn kept(rt: &HostRuntime) -> io::Result<u64> {
    match fs::read_to_string(rt, KEPT) {
        Ok(text) => number_in(&text).ok_or(no_number()),
        Err(error) if error.kind() == ErrorKind::NotFound => Ok(0),
        Err(error) => Err(error),
    }
}

/// Keeps a number from now on.
fn keep(rt: &HostRuntime, number: u64) -> io::Result<()> {
    let mut file = File::create(rt, NEXT)?;
    writeln!(file, "{number}")?;
    file.sync_all()?;
    fs::rename(rt, NEXT, KEPT)
}

/// Keeps the next number and gives it.
fn next(rt: &HostRuntime) -> io::Result<u64>
    ensures { IfOk result (λ n. (1 ≤ n) × (n ≤ 99999999999)) }
{
    let number = kept(rt)?;
    if number >= GREATEST_START {
        return Err(no_number());
    }
    keep(rt, number + 1)?;
    Ok(number + 1)
}

/// The same while no other start does it.
fn next_alone(rt: &HostRuntime) -> io::Result<u64>
    ensures { IfOk result (λ n. (1 ≤ n) × (n ≤ 99999999999)) }
{
    let file = File::create(rt, LOCK)?;
    file.lock()?;
    let number = next(rt);
    drop(file);
    number
}

impl Keeper for FileKeeper {
    ghost tells = { λ k. None };

    ghost faults = { λ k. k.faults };

    fn raise(&mut self) -> Result<u64, OutsideError> {
        match next_alone(&self.rt) {
            Ok(number) => Ok(number),
            Err(error) => {
                self.fault = Some(error);
                self.faults = self.faults.saturating_add(1);
                Err(OutsideError::Failed)
            }
        }
    }
}
