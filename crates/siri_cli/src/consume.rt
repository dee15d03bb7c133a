//! `consume NAME LISTEN PRODUCER COUNT` and `relay NAME LISTEN UPSTREAM COUNT`.

ghost use Rattle.std.specs.Prelude.{◌≡◌, map, string_bytes, true, is_some, None, Some, Ok, IfOk, OnErr};
ghost use Rattle.siri_cli.specs.Commands.{HasArguments, consume_by, consume_of, consumer_command};
ghost use Rattle.siri_cli.specs.inner.Values.{IsOf, consume_app};

use crate::Command;
use crate::arguments::{
    MOST_CONNECTIONS, count_of, is_listen, is_name, is_producer, name_of, producer_of,
};
use crate::values::{matches_of, value};
use clap::Arg;
use siri_base::{Name, OutOfMemory};
use siri_http::Address;
use std::alloc::{AllocError, Global};

/// The words of the two commands of a consumer, whose arguments have one form.
#[derive(Clone, Copy, Debug, PartialEq, Eq)]
pub(crate) enum Consuming {
    /// `consume`.
    Consume,
    /// `relay`, of which the source is the producer.
    Relay,
}

/// The command of the arguments of `consume` or `relay`, or `None` exactly where they are none, which takes no memory.
#[tactic(auto, using(crate::proofs::Lists::no_consume))]
pub(crate) fn consume(
    alloc: Global,
    word: Consuming,
    arguments: &[String],
) -> Result<Option<Command>, OutOfMemory>
    ensures value { IfOk result (λ command. command ≡ consume_of word (map string_bytes arguments.now)) }
    ensures none { consume_of word (map string_bytes arguments.now) ≡ None → result ≡ Ok None }
    ensures memory { OnErr result (HasArguments (consume_of word (map string_bytes arguments.now))) }
{
    match arguments {
        [name, listen, producer, count] => consume_by(
            alloc,
            word,
            name.as_str(),
            listen.as_str(),
            producer.as_str(),
            count.as_str(),
        ),
        _ => Ok(None),
    }
}

/// The command of the four arguments, or `None` exactly where one isn't of its form.
#[tactic(auto, using(crate::proofs::Memory::some_consume))]
fn consume_by(
    alloc: Global,
    word: Consuming,
    name: &str,
    listen: &str,
    producer: &str,
    count: &str,
) -> Result<Option<Command>, OutOfMemory>
    ensures value { IfOk result (λ command. command ≡ consume_by word name.now listen.now producer.now count.now) }
    ensures none { consume_by word name.now listen.now producer.now count.now ≡ None → result ≡ Ok None }
    ensures memory { OnErr result (HasArguments (consume_by word name.now listen.now producer.now count.now)) }
{
    if is_consume(word, name, listen, producer, count) {
        Ok(Some(read_consume(alloc, word, name, listen, producer, count)?))
    } else {
        Ok(None)
    }
}

/// Whether these are a NAME, a LISTEN, a PRODUCER, and a COUNT from 1 to 1,000,000.
#[tactic(auto, unfolding(crate::specs::Commands::consume_by))]
fn is_consume(word: Consuming, name: &str, listen: &str, producer: &str, count: &str) -> bool
    ensures { result ≡ is_some (consume_by word name.now listen.now producer.now count.now) }
{
    is_name(name)
        && is_listen(listen)
        && is_producer(producer)
        && count_of(count, 1, MOST_CONNECTIONS).is_some()
}

/// The arguments of `consume` and `relay`, as clap reads them: it is told of one command, whose name is not asked for.
fn consume_command<'a>(alloc: Global) -> Result<clap::Command<'a>, AllocError>
    ensures { IfOk result (IsOf consume_app) }
{
    clap::Command::new(alloc, "consume")
        .disable_help_flag(true)
        .arg(Arg::new(alloc, "NAME"))?
        .arg(Arg::new(alloc, "LISTEN"))?
        .arg(Arg::new(alloc, "PRODUCER"))?
        .arg(Arg::new(alloc, "COUNT"))
}

/// The command of words that are the arguments.
fn read_consume(
    alloc: Global,
    word: Consuming,
    name: &str,
    listen: &str,
    producer: &str,
    count: &str,
) -> Result<Command, OutOfMemory>
    requires { is_some (consume_by word name.now listen.now producer.now count.now) ≡ true }
    ensures { IfOk result (λ command. consume_by word name.now listen.now producer.now count.now ≡ Some command) }
{
    let words = ["consume", "--", name, listen, producer, count];
    let matches = matches_of(consume_command(alloc)?, &words)?;
    consume_with(
        alloc,
        word,
        value(&matches, "NAME"),
        value(&matches, "LISTEN"),
        value(&matches, "PRODUCER"),
        value(&matches, "COUNT"),
    )
}

/// The command of these arguments.
#[tactic(auto, unfolding(crate::specs::Commands::consume_by))]
fn consume_with(
    alloc: Global,
    word: Consuming,
    name: &str,
    listen: &str,
    producer: &str,
    count: &str,
) -> Result<Command, OutOfMemory>
    requires { is_some (consume_by word name.now listen.now producer.now count.now) ≡ true }
    ensures { IfOk result (λ command. consume_by word name.now listen.now producer.now count.now ≡ Some command) }
{
    let Some(count) = count_of(count, 1, MOST_CONNECTIONS) else {
        unreachable!()
    };
    let name = name_of(alloc, name)?;
    let listen = name_of(alloc, listen)?;
    let producer = producer_of(alloc, producer)?;
    Ok(consumer_command(word, name, listen, producer, count))
}

/// The command of a word with these arguments.
fn consumer_command(
    word: Consuming,
    name: Name,
    listen: Name,
    producer: Address,
    count: u64,
) -> Command
    ensures { result ≡ consumer_command word name listen producer count }
{
    match word {
        Consuming::Consume => Command::Consume {
            name,
            listen,
            producer,
            count,
        },
        Consuming::Relay => Command::Relay {
            name,
            listen,
            upstream: producer,
            count,
        },
    }
}
