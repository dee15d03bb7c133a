//! A program for the tests and the benchmark: chains in memory of a source, relays and a display, and the phases of reading
//! and writing a document.
//!
//! ```text
//!     source <--> relay <--> relay <--> relay <--> display
//!           link       link       link       link
//! ```
//!
//! A source is a `Producer`, a relay a `Relay` and a display a `Consumer`, and each but the source subscribes to the one
//! before it. Messages are packets of a link, which may be lost, come twice or come late, and each end may be restarted.
//!
//! | Words | What is done |
//! |---|---|
//! | `runs FIRST COUNT` | so many runs with three relays, of the seeds from FIRST on; each that goes wrong is told with its seed |
//! | `counts FIRST COUNT` | the same, and how much of everything happened |
//! | `fed VISITS` | a source is fed so many visits |
//! | `shown RELAYS VISITS CHANGES` | then they come to a display over so many relays, and so many changes of a visit after them |
//! | `passed VISITS MOMENTS` | then so many moments pass, an hour from one to the next, none of which takes memory |
//! | `phase NAME` | the document on standard input is read and written as far as that phase (`phases`) |
//!
//! What a run has to come to is the direct response of the source: at its end, when everything has come and nothing more
//! is sent, the display has the same keys, and items that are equal but for predicted times and delays, which differ by
//! less than the sum of the thresholds of the links.
//!
//! Exits with 0, with 1 where a run went wrong or nothing was done, with 64 where the words are none of these.
#![tactic(auto)]

mod chain;
mod dice;
mod ends;
mod making;
mod phases;
mod running;
mod stopped;
mod timing;
mod verdict;

use crate::phases::measured;
use crate::running::{Tally, run};
use crate::stopped::Stopped;
use crate::timing::{fed, passed, shown};
use std::env;
use std::process::ExitCode;

fn main(rt: HostRuntime) -> ExitCode {
    let Ok(given) = env::args(&rt) else {
        return ExitCode::from(64);
    };
    let Ok(words) = given.skip(1).collect::<Vec<String>>(rt.alloc()) else {
        return ExitCode::from(1);
    };
    match done(&rt, &words) {
        Some(true) => ExitCode::from(0),
        Some(false) => ExitCode::from(1),
        None => ExitCode::from(64),
    }
}

/// Whether all went well, or nothing where the words are none.
fn done(rt: &HostRuntime, words: &[String]) -> Option<bool> {
    if words.first()?.as_str() == "phase" {
        return Some(measured(rt, words.get(1)?.as_str()).is_ok());
    }
    let first = number(words, 1)?;
    match words.first()?.as_str() {
        "runs" => Some(told_runs(rt, first, number(words, 2)?, false)),
        "counts" => Some(told_runs(rt, first, number(words, 2)?, true)),
        "fed" => Some(told(rt, fed(rt.alloc(), first))),
        "passed" => Some(told(rt, passed(rt.alloc(), first, number(words, 2)?))),
        "shown" => {
            let visits = number(words, 2)?;
            let changes = number(words, 3)?;
            Some(told(rt, shown(rt.alloc(), first, visits, changes)))
        }
        _ => None,
    }
}

/// The word at a place, as a number.
fn number(words: &[String], place: usize) -> Option<u64> {
    words.get(place)?.as_str().parse::<u64>().ok()
}

/// Prints what was made, or why nothing was.
fn told(rt: &HostRuntime, made: Result<u64, Stopped>) -> bool {
    match made {
        Ok(made) => println!(rt; "{made}").is_ok(),
        Err(stopped) => {
            let why = stopped.text();
            let _ = println!(rt; "{why}");
            false
        }
    }
}

/// Runs so many seeds, and prints each that goes wrong and how many these were.
fn told_runs(rt: &HostRuntime, first: u64, count: u64, counts: bool) -> bool {
    let mut tally = Tally::new();
    let mut wrong = 0u64;
    for place in 0..count {
        let seed = first.saturating_add(place);
        if let Err(stopped) = run(rt.alloc(), seed, &mut tally) {
            let why = stopped.text();
            let _ = println!(rt; "seed {seed}: {why}");
            wrong = wrong.saturating_add(1);
        }
    }
    if counts {
        told_counts(rt, &tally);
    }
    println!(rt; "{count} runs, {wrong} wrong").is_ok() && wrong == 0
}

/// Prints how much of everything happened.
fn told_counts(rt: &HostRuntime, tally: &Tally) {
    let sent = tally.sent;
    let lost = tally.lost;
    let repeated = tally.repeated;
    let restarts = tally.restarts;
    let _ = println!(rt; "{sent} packets, {lost} lost, {repeated} repeated, {restarts} restarts");
    let items = tally.items;
    let apart = tally.apart;
    let exact = tally.exact;
    let _ = println!(rt;
        "{items} items shown at the ends, {apart} of them apart from the source's, {exact} runs without a threshold"
    );
}
