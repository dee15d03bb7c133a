//! The commands.

ghost use Rattle.std.specs.Prelude.{◌≡◌, map, string_bytes, None, Ok, IfOk, OnErr};
ghost use Rattle.std.specs.List.{list_any};
ghost use Rattle.siri_cli.specs.Commands.{HasArguments, begins_with_minus, command_by, command_named, command_of, command_with, plain_of};

use crate::consume::{Consuming, consume};
use crate::get::get;
use crate::load::load;
use crate::serve::{Producing, serve};
use siri_base::{Name, OutOfMemory};
use siri_http::Address;
use std::alloc::Global;

/// What the words ask for.
#[derive(Debug, Drop)]
pub enum Command {
    /// Reads a script, and writes its report.
    Replay,
    /// Reads one document, and writes the name of its message, or the refusal.
    Check,
    /// Reads one document, and writes its message's canonical text, or the refusal.
    Convert,
    /// Plays a large script that is made from a number, and writes one line of it.
    Load {
        /// The number that it is made from.
        seed: u64,
        /// How many events are drawn, at most 20,000.
        count: u64,
    },
    /// Reads one document, asks it of a producer as a query by GET, and writes what is answered.
    Get {
        /// The producer's address.
        producer: Address,
    },
    /// Serves connections as a producer.
    Serve {
        /// The producer's name.
        name: Name,
        /// The host and the port that it listens at.
        listen: Name,
        /// How many connections it serves, 1 to 1,000,000.
        count: u64,
    },
    /// Serves connections as a producer that answers queries by GET, too.
    Lite {
        /// The producer's name.
        name: Name,
        /// The host and the port that it listens at.
        listen: Name,
        /// How many connections it serves, 1 to 1,000,000.
        count: u64,
    },
    /// Serves connections as a consumer of one producer.
    Consume {
        /// The consumer's name.
        name: Name,
        /// The host and the port that it listens at.
        listen: Name,
        /// The producer's address.
        producer: Address,
        /// How many connections it serves, 1 to 1,000,000.
        count: u64,
    },
    /// Serves connections as a relay of one source.
    Relay {
        /// The relay's name.
        name: Name,
        /// The host and the port that it listens at.
        listen: Name,
        /// The source's address.
        upstream: Address,
        /// How many connections it serves, 1 to 1,000,000.
        count: u64,
    },
}

impl Command {
    /// The command of the words after the program's name, or `None` exactly where they are no plain spelling of one.
    /// Only a command with arguments takes memory.
    #[tactic(auto, unfolding(crate::specs::Commands::command_of), using(crate::proofs::Lists::any_of_map))]
    pub fn read(alloc: Global, words: &[String]) -> Result<Option<Command>, OutOfMemory>
        ensures value { IfOk result (λ command. command ≡ command_of (map string_bytes words.now)) }
        ensures none { command_of (map string_bytes words.now) ≡ None → result ≡ Ok None }
        ensures memory { OnErr result (HasArguments (command_of (map string_bytes words.now))) }
    {
        if begin_with_minus(words) {
            return Ok(None);
        }
        Command::by(alloc, words)
    }

    /// The command of words of which none begins with `-`.
    fn by(alloc: Global, words: &[String]) -> Result<Option<Command>, OutOfMemory>
        ensures value { IfOk result (λ command. command ≡ command_by (map string_bytes words.now)) }
        ensures none { command_by (map string_bytes words.now) ≡ None → result ≡ Ok None }
        ensures memory { OnErr result (HasArguments (command_by (map string_bytes words.now))) }
    {
        match words {
            [] => Ok(None),
            [word, arguments @ ..] => Command::with(alloc, word.as_str(), arguments),
        }
    }

    /// The command of a word with its arguments.
    #[tactic(auto, unfolding(crate::specs::Commands::command_with))]
    fn with(alloc: Global, word: &str, arguments: &[String]) -> Result<Option<Command>, OutOfMemory>
        ensures value { IfOk result (λ command. command ≡ command_with word.now (map string_bytes arguments.now)) }
        ensures none { command_with word.now (map string_bytes arguments.now) ≡ None → result ≡ Ok None }
        ensures memory { OnErr result (HasArguments (command_with word.now (map string_bytes arguments.now))) }
    {
        if word == "load" {
            load(alloc, arguments)
        } else if word == "get" {
            get(alloc, arguments)
        } else if word == "serve" {
            serve(alloc, Producing::Serve, arguments)
        } else if word == "lite" {
            serve(alloc, Producing::Lite, arguments)
        } else if word == "consume" {
            consume(alloc, Consuming::Consume, arguments)
        } else if word == "relay" {
            consume(alloc, Consuming::Relay, arguments)
        } else {
            Ok(Command::plain(word, arguments))
        }
    }

    /// The command of a word that has no arguments; with any there is none.
    fn plain(word: &str, arguments: &[String]) -> Option<Command>
        ensures { result ≡ plain_of word.now (map string_bytes arguments.now) }
    {
        match arguments {
            [] => Command::named(word),
            [_, ..] => None,
        }
    }

    /// The command `replay`, `check` or `convert`; of any other word there is none.
    fn named(word: &str) -> Option<Command>
        ensures { result ≡ command_named word.now }
    {
        if word == "replay" {
            Some(Command::Replay)
        } else if word == "check" {
            Some(Command::Check)
        } else if word == "convert" {
            Some(Command::Convert)
        } else {
            None
        }
    }
}

/// Whether a word begins with `-`.
fn begins_with_minus(word: &str) -> bool
    ensures { result ≡ begins_with_minus word.now }
{
    matches!(word.as_bytes(), [b'-', ..])
}

/// Whether one of the words begins with `-`.
pub(crate) fn begin_with_minus(words: &[String]) -> bool
    ensures { result ≡ list_any (λ word. begins_with_minus (string_bytes word)) words.now }
{
    words.iter().any(|word| begins_with_minus(word.as_str()))
}
