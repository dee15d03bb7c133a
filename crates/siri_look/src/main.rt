//! The program for a first look: `replay`, `check` and `convert`, as `siri` does them.
//!
//! `./siri` runs it unproved where the program isn't built. It stands on neither the network nor the reader of the
//! command line, nor on the adapters over the system, so the kit reads it in less than a minute.
#![tactic(auto)]

ghost use Rattle.std.specs.Prelude.{◌≡◌, codes};
ghost use Rattle.siri_document.specs.OneDocument.{Answers, check_text, convert_text};
ghost use Rattle.siri_lines.specs.Reports.{Reports};
ghost use Rattle.siri_replay.specs.Report.{report};
ghost use Rattle.siri_replay.specs.Views.{ReportsViews};

use siri_base::Status;
use siri_document::{Check, Convert, answer_document};
use siri_lines::write_status;
use siri_outside::{Input, Output, Sink, Source};
use siri_replay::replay;
use std::alloc::Global;
use std::env;
use std::io::ErrorKind;
use std::process::ExitCode;

fn main(rt: HostRuntime) -> ExitCode {
    let status = run_command(&rt);
    let _ = write_status(rt.alloc(), &mut Output::new(rt.stderr()), &status);
    ExitCode::from(status.number())
}

/// Runs the command that the only word after the program's name asks for.
fn run_command(rt: &HostRuntime) -> Status {
    let alloc = rt.alloc();
    let given = match env::args(rt) {
        Ok(given) => given,
        Err(error) if error.kind() == ErrorKind::OutOfMemory => return Status::OutOfMemory,
        Err(_) => return Status::Usage,
    };
    let Ok(words) = given.skip(1).collect::<Vec<String>>(alloc) else {
        return Status::OutOfMemory;
    };
    match words.as_slice() {
        [word] => look(
            alloc,
            word.as_str(),
            &mut Input::new(rt.stdin()),
            &mut Output::new(rt.stdout()),
        ),
        _ => Status::Usage,
    }
}

/// Does what the word says, as the whole program does: what is written and which status ends the run are those of
/// `siri`.
fn look<S: Source, K: Sink>(alloc: Global, word: &str, source: &mut S, sink: &mut K) -> Status
    ensures replay { word.now ≡ codes "replay" → Reports report (S.left source.old) (S.left source.new) (K.held sink.old) (K.held sink.new) result }
    ensures views { word.now ≡ codes "replay" → ReportsViews (S.left source.old) (S.left source.new) (K.held sink.old) (K.held sink.new) result }
    ensures check { word.now ≡ codes "check" → Answers check_text (S.left source.old) (S.left source.new) (K.held sink.old) (K.held sink.new) result }
    ensures convert { word.now ≡ codes "convert" → Answers convert_text (S.left source.old) (S.left source.new) (K.held sink.old) (K.held sink.new) result }
{
    if word == "replay" {
        replay(alloc, source, sink)
    } else if word == "check" {
        answer_document::<Check, S, K>(alloc, source, sink)
    } else if word == "convert" {
        answer_document::<Convert, S, K>(alloc, source, sink)
    } else {
        Status::Usage
    }
}
