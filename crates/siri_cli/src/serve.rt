//! `serve NAME LISTEN COUNT` and `lite NAME LISTEN COUNT`.

ghost use Rattle.std.specs.Prelude.{◌≡◌, map, string_bytes, true, is_some, None, Some, Ok, IfOk, OnErr};
ghost use Rattle.siri_cli.specs.Commands.{HasArguments, producer_command, serve_by, serve_of};
ghost use Rattle.siri_cli.specs.inner.Values.{IsOf, serve_app};

use crate::Command;
use crate::arguments::{MOST_CONNECTIONS, count_of, is_listen, is_name, name_of};
use crate::values::{matches_of, value};
use clap::Arg;
use siri_base::{Name, OutOfMemory};
use std::alloc::{AllocError, Global};

/// The words of the two commands of a producer, whose arguments have one form.
#[derive(Clone, Copy, Debug, PartialEq, Eq)]
pub(crate) enum Producing {
    /// `serve`.
    Serve,
    /// `lite`.
    Lite,
}

/// The command of the arguments of `serve` or `lite`, or `None` exactly where they are none, which takes no memory.
#[tactic(auto, using(crate::proofs::Lists::no_serve))]
pub(crate) fn serve(
    alloc: Global,
    word: Producing,
    arguments: &[String],
) -> Result<Option<Command>, OutOfMemory>
    ensures value { IfOk result (λ command. command ≡ serve_of word (map string_bytes arguments.now)) }
    ensures none { serve_of word (map string_bytes arguments.now) ≡ None → result ≡ Ok None }
    ensures memory { OnErr result (HasArguments (serve_of word (map string_bytes arguments.now))) }
{
    match arguments {
        [name, listen, count] => serve_by(
            alloc,
            word,
            name.as_str(),
            listen.as_str(),
            count.as_str(),
        ),
        _ => Ok(None),
    }
}

/// The command of the three arguments, or `None` exactly where one isn't of its form.
#[tactic(auto, using(crate::proofs::Memory::some_serve))]
fn serve_by(
    alloc: Global,
    word: Producing,
    name: &str,
    listen: &str,
    count: &str,
) -> Result<Option<Command>, OutOfMemory>
    ensures value { IfOk result (λ command. command ≡ serve_by word name.now listen.now count.now) }
    ensures none { serve_by word name.now listen.now count.now ≡ None → result ≡ Ok None }
    ensures memory { OnErr result (HasArguments (serve_by word name.now listen.now count.now)) }
{
    if is_serve(word, name, listen, count) {
        Ok(Some(read_serve(alloc, word, name, listen, count)?))
    } else {
        Ok(None)
    }
}

/// Whether these are a NAME, a LISTEN, and a COUNT from 1 to 1,000,000.
#[tactic(auto, unfolding(crate::specs::Commands::serve_by))]
fn is_serve(word: Producing, name: &str, listen: &str, count: &str) -> bool
    ensures { result ≡ is_some (serve_by word name.now listen.now count.now) }
{
    is_name(name) && is_listen(listen) && count_of(count, 1, MOST_CONNECTIONS).is_some()
}

/// The arguments of `serve` and `lite`, as clap reads them: it is told of one command, whose name is not asked for.
fn serve_command<'a>(alloc: Global) -> Result<clap::Command<'a>, AllocError>
    ensures { IfOk result (IsOf serve_app) }
{
    clap::Command::new(alloc, "serve")
        .disable_help_flag(true)
        .arg(Arg::new(alloc, "NAME"))?
        .arg(Arg::new(alloc, "LISTEN"))?
        .arg(Arg::new(alloc, "COUNT"))
}

/// The command of words that are the arguments.
fn read_serve(
    alloc: Global,
    word: Producing,
    name: &str,
    listen: &str,
    count: &str,
) -> Result<Command, OutOfMemory>
    requires { is_some (serve_by word name.now listen.now count.now) ≡ true }
    ensures { IfOk result (λ command. serve_by word name.now listen.now count.now ≡ Some command) }
{
    let words = ["serve", "--", name, listen, count];
    let matches = matches_of(serve_command(alloc)?, &words)?;
    serve_with(
        alloc,
        word,
        value(&matches, "NAME"),
        value(&matches, "LISTEN"),
        value(&matches, "COUNT"),
    )
}

/// The command of these arguments.
#[tactic(auto, unfolding(crate::specs::Commands::serve_by))]
fn serve_with(
    alloc: Global,
    word: Producing,
    name: &str,
    listen: &str,
    count: &str,
) -> Result<Command, OutOfMemory>
    requires { is_some (serve_by word name.now listen.now count.now) ≡ true }
    ensures { IfOk result (λ command. serve_by word name.now listen.now count.now ≡ Some command) }
{
    let Some(count) = count_of(count, 1, MOST_CONNECTIONS) else {
        unreachable!()
    };
    let name = name_of(alloc, name)?;
    let listen = name_of(alloc, listen)?;
    Ok(producer_command(word, name, listen, count))
}

/// The command of a word with these arguments.
fn producer_command(word: Producing, name: Name, listen: Name, count: u64) -> Command
    ensures { result ≡ producer_command word name listen count }
{
    match word {
        Producing::Serve => Command::Serve {
            name,
            listen,
            count,
        },
        Producing::Lite => Command::Lite {
            name,
            listen,
            count,
        },
    }
}
