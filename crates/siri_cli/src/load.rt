//! `load SEED COUNT`.

ghost use Rattle.std.specs.Prelude.{◌≡◌, map, string_bytes, true, is_some, None, Some, Ok, IfOk, OnErr};
ghost use Rattle.siri_cli.specs.Commands.{HasArguments, load_by, load_of};
ghost use Rattle.siri_cli.specs.inner.Values.{IsOf, load_app};

use crate::Command;
use crate::arguments::{MOST_EVENTS, count_of};
use crate::values::{matches_of, value};
use clap::Arg;
use siri_base::{OutOfMemory, number_of};
use std::alloc::{AllocError, Global};

/// The command of the arguments of `load`, or `None` exactly where they are none, which takes no memory.
#[tactic(auto, using(crate::proofs::Lists::no_load))]
pub(crate) fn load(alloc: Global, arguments: &[String]) -> Result<Option<Command>, OutOfMemory>
    ensures value { IfOk result (λ command. command ≡ load_of (map string_bytes arguments.now)) }
    ensures none { load_of (map string_bytes arguments.now) ≡ None → result ≡ Ok None }
    ensures memory { OnErr result (HasArguments (load_of (map string_bytes arguments.now))) }
{
    match arguments {
        [seed, count] => load_by(alloc, seed.as_str(), count.as_str()),
        _ => Ok(None),
    }
}

/// The command of the two arguments of `load`, or `None` exactly where one isn't of its form.
#[tactic(auto, using(crate::proofs::Memory::some_load))]
fn load_by(alloc: Global, seed: &str, count: &str) -> Result<Option<Command>, OutOfMemory>
    ensures value { IfOk result (λ command. command ≡ load_by seed.now count.now) }
    ensures none { load_by seed.now count.now ≡ None → result ≡ Ok None }
    ensures memory { OnErr result (HasArguments (load_by seed.now count.now)) }
{
    if is_load(seed, count) {
        Ok(Some(read_load(alloc, seed, count)?))
    } else {
        Ok(None)
    }
}

/// Whether these are a SEED of 1 to 18 digits, and a COUNT from 0 to 20,000.
#[tactic(auto, unfolding(crate::specs::Commands::load_by))]
fn is_load(seed: &str, count: &str) -> bool
    ensures { result ≡ is_some (load_by seed.now count.now) }
{
    number_of(seed).is_some() && count_of(count, 0, MOST_EVENTS).is_some()
}

/// The arguments of `load`, as clap reads them.
fn load_command<'a>(alloc: Global) -> Result<clap::Command<'a>, AllocError>
    ensures { IfOk result (IsOf load_app) }
{
    clap::Command::new(alloc, "load")
        .disable_help_flag(true)
        .arg(Arg::new(alloc, "SEED"))?
        .arg(Arg::new(alloc, "COUNT"))
}

/// The command of words that are the arguments of `load`.
fn read_load(alloc: Global, seed: &str, count: &str) -> Result<Command, OutOfMemory>
    requires { is_some (load_by seed.now count.now) ≡ true }
    ensures { IfOk result (λ command. load_by seed.now count.now ≡ Some command) }
{
    let words = ["load", "--", seed, count];
    let matches = matches_of(load_command(alloc)?, &words)?;
    Ok(load_with(value(&matches, "SEED"), value(&matches, "COUNT")))
}

/// The command of these arguments.
#[tactic(auto, unfolding(crate::specs::Commands::load_by))]
fn load_with(seed: &str, count: &str) -> Command
    requires { is_some (load_by seed.now count.now) ≡ true }
    ensures { load_by seed.now count.now ≡ Some result }
{
    match (number_of(seed), count_of(count, 0, MOST_EVENTS)) {
        (Some(seed), Some(count)) => Command::Load { seed, count },
        _ => unreachable!(),
    }
}
