//! `get PRODUCER`.

ghost use Rattle.std.specs.Prelude.{◌≡◌, map, string_bytes, true, is_some, None, Some, Ok, IfOk, OnErr};
ghost use Rattle.siri_cli.specs.Commands.{HasArguments, get_by, get_of};
ghost use Rattle.siri_cli.specs.inner.Values.{IsOf, get_app};

use crate::Command;
use crate::arguments::{is_producer, producer_of};
use crate::values::{matches_of, value};
use clap::Arg;
use siri_base::OutOfMemory;
use std::alloc::{AllocError, Global};

/// The command of the arguments of `get`, or `None` exactly where they are none, which takes no memory.
#[tactic(auto, using(crate::proofs::Lists::no_get))]
pub(crate) fn get(alloc: Global, arguments: &[String]) -> Result<Option<Command>, OutOfMemory>
    ensures value { IfOk result (λ command. command ≡ get_of (map string_bytes arguments.now)) }
    ensures none { get_of (map string_bytes arguments.now) ≡ None → result ≡ Ok None }
    ensures memory { OnErr result (HasArguments (get_of (map string_bytes arguments.now))) }
{
    match arguments {
        [producer] => get_by(alloc, producer.as_str()),
        _ => Ok(None),
    }
}

/// The command of the one argument of `get`, or `None` exactly where it isn't of its form.
#[tactic(auto, using(crate::proofs::Memory::some_get))]
fn get_by(alloc: Global, producer: &str) -> Result<Option<Command>, OutOfMemory>
    ensures value { IfOk result (λ command. command ≡ get_by producer.now) }
    ensures none { get_by producer.now ≡ None → result ≡ Ok None }
    ensures memory { OnErr result (HasArguments (get_by producer.now)) }
{
    if is_get(producer) {
        Ok(Some(read_get(alloc, producer)?))
    } else {
        Ok(None)
    }
}

/// Whether this is a PRODUCER.
#[tactic(auto, unfolding(crate::specs::Commands::get_by))]
fn is_get(producer: &str) -> bool
    ensures { result ≡ is_some (get_by producer.now) }
{
    is_producer(producer)
}

/// The argument of `get`, as clap reads it.
fn get_command<'a>(alloc: Global) -> Result<clap::Command<'a>, AllocError>
    ensures { IfOk result (IsOf get_app) }
{
    clap::Command::new(alloc, "get")
        .disable_help_flag(true)
        .arg(Arg::new(alloc, "PRODUCER"))
}

/// The command of a word that is the argument of `get`.
fn read_get(alloc: Global, producer: &str) -> Result<Command, OutOfMemory>
    requires { is_some (get_by producer.now) ≡ true }
    ensures { IfOk result (λ command. get_by producer.now ≡ Some command) }
{
    let words = ["get", "--", producer];
    let matches = matches_of(get_command(alloc)?, &words)?;
    get_with(alloc, value(&matches, "PRODUCER"))
}

/// The command of this argument.
#[tactic(auto, unfolding(crate::specs::Commands::get_by))]
fn get_with(alloc: Global, producer: &str) -> Result<Command, OutOfMemory>
    requires { is_some (get_by producer.now) ≡ true }
    ensures { IfOk result (λ command. get_by producer.now ≡ Some command) }
{
    Ok(Command::Get {
        producer: producer_of(alloc, producer)?,
    })
}
