//! The command `siri`: makes the adapters over the system, does what its words say, and tells how it ended.
//!
//! Stands on `siri_cli`, whose `run_all` is the whole of the work, on `siri_system` for the network, the clock, the start
//! number and the file of `keep`, on `siri_outside` for standard input and output, and on `siri_base` and `siri_lines` for
//! the line that tells how a run ended. Where the wire, the keeper or the shelf failed, a line follows that names the
//! address or the file, with the words of the system or of the database, and one that says what is wanted there; where
//! the words are no command, it is told which word is wrong, and what the command takes (`usage`, by the table of
//! `commands`, which asks `siri_http` what an address is). Where the variable `SIRI_LOG` of the environment is `1`, each
//! connection that ends has a line on standard error, and where it is `json`, an object.
#![tactic(auto)]

mod commands;
mod usage;

use crate::usage::write_usage;
use siri_base::Status;
use siri_cli::run_all;
use siri_lines::write_status;
use siri_outside::{Input, Output};
use siri_system::{FileKeeper, FileShelf, LoggedWire, SystemClock, Telling};
use std::io::{ErrorKind, Write};
use std::process::ExitCode;
use std::{env, fmt};

/// What is wanted where listening, the file of the start number, or the file of rows fails.
const LISTENING: &str =
    "that wants an address of this machine, a port that no other program has, and files left to open";

const NUMBER: &str =
    "that wants a folder that may be written to, where it is a file with a number, or isn't there yet";

const ROWS: &str =
    "that wants a file that keep made, or none yet, a disk with room, and no other program at the file";

fn main(rt: HostRuntime) -> ExitCode {
    let mut wire = LoggedWire::new(rt, telling(&rt));
    let mut keeper = FileKeeper::new(rt);
    let mut shelf = FileShelf::new(rt);
    let (status, words) = match given_words(&rt) {
        Ok(words) => {
            let status = run_command(&rt, &words, &mut wire, &mut keeper, &mut shelf);
            (status, words)
        }
        Err(status) => (status, Vec::new(rt.alloc())),
    };
    let _ = write_status(rt.alloc(), &mut Output::new(rt.stderr()), &status);
    match status {
        Status::Usage => {
            let _ = write_usage(&mut rt.stderr(), &words);
        }
        Status::WireFault => {
            let (address, wanted) = address_in(&words);
            tell_fault(&rt, address, wire.fault(), wanted);
        }
        Status::KeeperFault => tell_fault(&rt, "siri-start", keeper.fault(), NUMBER),
        Status::ShelfFault => tell_fault(&rt, word(&words, 3), shelf.fault(), ROWS),
        _ => {}
    }
    ExitCode::from(status.number())
}

/// The words after the program's name, or the status of a run that has none: words that aren't UTF-8 are no plain
/// spelling.
fn given_words(rt: &HostRuntime) -> Result<Vec<String>, Status> {
    let given = match env::args(rt) {
        Ok(given) => given,
        Err(error) if error.kind() == ErrorKind::OutOfMemory => return Err(Status::OutOfMemory),
        Err(_) => return Err(Status::Usage),
    };
    match given.skip(1).collect::<Vec<String>>(rt.alloc()) {
        Ok(words) => Ok(words),
        Err(_) => Err(Status::OutOfMemory),
    }
}

/// How connections are to be told of: in lines where the variable SIRI_LOG is 1, in objects where it is json.
fn telling(rt: &HostRuntime) -> Telling {
    match env::var(rt, "SIRI_LOG") {
        Ok(value) => match value.as_str() {
            "1" => Telling::Lines,
            "json" => Telling::Objects,
            _ => Telling::Nothing,
        },
        Err(_) => Telling::Nothing,
    }
}

/// Runs the command over the words.
fn run_command(
    rt: &HostRuntime,
    words: &[String],
    wire: &mut LoggedWire,
    keeper: &mut FileKeeper,
    shelf: &mut FileShelf,
) -> Status {
    run_all(
        rt.alloc(),
        words,
        &mut Input::new(rt.stdin()),
        &mut Output::new(rt.stdout()),
        wire,
        &mut SystemClock::new(*rt),
        keeper,
        shelf,
    )
}

/// The word at a place, which a command has.
fn word(words: &[String], place: usize) -> &str {
    match words.get(place) {
        Some(word) => word.as_str(),
        None => "",
    }
}

/// The address that a command listens at, or that `get` asks, and what is wanted there.
fn address_in(words: &[String]) -> (&str, &'static str) {
    match word(words, 0) {
        "get" => (word(words, 1), "that wants a producer that answers there"),
        _ => (word(words, 2), LISTENING),
    }
}

/// Tells of what a failure was, and what the system, or the database, told, on a line of standard error, and on another
/// one what is wanted there.
fn tell_fault<F: fmt::Display + Drop>(
    rt: &HostRuntime,
    what: &str,
    fault: Option<F>,
    wanted: &str,
) {
    if let Some(fault) = fault {
        let _ = writeln!(rt.stderr(), "siri: {what}: {fault}");
        let _ = writeln!(rt.stderr(), "siri: {wanted}");
    }
}
