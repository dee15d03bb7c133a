//! A program for the gate: runs of the command as rows, which are data. A row says what is run over an outside in
//! memory, and what has to come of it.
//!
//! ```text
//!     file --toml--> rows, each with texts put in --> words, input, connections, .. --run_all--> what comes
//!                                                 --> what is wanted                 <-compared->
//! ```
//!
//! `siri_rows TEXTS FILE..`: the file TEXTS has what all files share. A row that differs is printed, with what was
//! wanted of it and what came, and of each file how many of its rows came as they were wanted.
//!
//! A file is TOML. What it has:
//!
//! | Table | What stands in it |
//! |---|---|
//! | `[[row]]` | a row, of the members below |
//! | `[all]` | members that each row of the file has which doesn't say them itself |
//! | `[like.NAME]` | members of each row that is `like` it and doesn't say them itself |
//! | `[texts]` | texts by their names (`texts` says how one is put into another) |
//!
//! What a row has. A member that isn't there is nothing, but for the last two:
//!
//! | Member | What it says |
//! |---|---|
//! | `name` | what the row shows |
//! | `like` | names of tables that it is like, as a list |
//! | `command` | the words of the command, as they are typed |
//! | `input` | what standard input has |
//! | `moments` | the moments to come, as texts |
//! | `kept` | the number of the latest start |
//! | `come` | the connections that come: what each brings, or `{ input, read, write }` |
//! | `dialled` | the same of the connections to be dialled |
//! | `shelf` | the rows `{ table, key, text }` that the shelf has |
//! | `fails` | the calls that fail: `listen`, `accept`, `dial`, `clock`, `keeper`, `shelf`, `read`, `write` |
//! | `sent` | what is written to the connections, in the order in which they were made |
//! | `named` | the addresses at which it listens and that it dials |
//! | `output` | what is written to standard output |
//! | `check`, `convert` | the output of each of the two over the input, in the place of `command` and `output` |
//! | `status` | the number of the status |
//! | `told` | its line on standard error, without the line's end |
//! | `unread` | what is left of the input; whatever is left where it isn't there |
//! | `shelf_after` | the rows that the shelf has after the run; whatever it has where it isn't there |
//!
//! A failure is a number in a list: how many bytes are read or written before it, or how many calls of that name are
//! made, counted from the failure before it; of a shelf, counted from its first call.
//!
//! Exits with 0, with 1 where a row differs, with 2 where the files can't be read as rows.
//!
//! Stands on `siri_cli` for the call that is run, on `siri_base` and `siri_outside` for the outside in memory, on
//! `siri_time` for moments, and on `toml`.
#![tactic(auto)]

mod facts;
mod files;
mod given;
mod members;
mod running;
mod telling;
mod texts;

use crate::files::{Count, run_files};
use std::env;
use std::process::ExitCode;

fn main(rt: HostRuntime) -> ExitCode {
    let Ok(given) = env::args(&rt) else {
        return ExitCode::from(2);
    };
    let Ok(words) = given.skip(1).collect::<Vec<String>>(rt.alloc()) else {
        return ExitCode::from(2);
    };
    match run_files(&rt, &words) {
        Ok(count) => ended(&rt, count),
        Err(error) => {
            let _ = eprintln!(rt; "siri_rows: {error:#}");
            ExitCode::from(2)
        }
    }
}

/// Prints how many rows came as they were wanted, and whether those were all.
fn ended(rt: &HostRuntime, count: Count) -> ExitCode {
    let Count { rows, same } = count;
    let is_told = println!(rt; "{same} of {rows} rows came as they were wanted").is_ok();
    ExitCode::from(if is_told && rows > 0 && same == rows {
        0
    } else {
        1
    })
}
