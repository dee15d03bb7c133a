//! The commands, each with its words, as they are told to whoever gives others. Which words a command takes is decided
//! in `siri_cli`; here stands what is said of those that it doesn't.

use siri_base::number_of;
use siri_http::{is_address, is_host_with_port};

/// What stands behind the word of a command.
#[derive(Clone, Copy)]
pub(crate) enum Argument {
    /// What a load is made from.
    Seed,
    /// How many events a load draws.
    Events,
    /// The name of a producer, a consumer or a relay.
    Name,
    /// Where it listens.
    Listen,
    /// The address of a producer.
    Producer,
    /// The address of a relay's source.
    Upstream,
    /// The file of a producer that keeps.
    File,
    /// How many connections are served.
    Connections,
}

impl Argument {
    /// Its name.
    pub(crate) fn name(self) -> &'static str {
        match self {
            Argument::Seed => "SEED",
            Argument::Events | Argument::Connections => "COUNT",
            Argument::Name => "NAME",
            Argument::Listen => "HOST:PORT",
            Argument::Producer => "PRODUCER",
            Argument::Upstream => "UPSTREAM",
            Argument::File => "FILE",
        }
    }

    /// What it has to be.
    pub(crate) fn form(self) -> &'static str {
        match self {
            Argument::Seed => "1 to 18 digits",
            Argument::Events => "0 to 20,000, in digits alone and without a leading zero",
            Argument::Connections => "1 to 1,000,000, in digits alone and without a leading zero",
            Argument::Name | Argument::File => "1 to 255 bytes",
            Argument::Listen => {
                "a host's name or its IPv4 address, a colon, and a port of at most 65535, together 247 bytes at most"
            }
            Argument::Producer | Argument::Upstream => {
                "http://HOST, :PORT if it isn't 80, and a path if there is one, together 255 bytes at most"
            }
        }
    }

    /// Whether a word is one.
    fn is(self, word: &str) -> bool {
        match self {
            Argument::Seed => number_of(word).is_some(),
            Argument::Events => is_count(word, 0, 20_000),
            Argument::Connections => is_count(word, 1, 1_000_000),
            Argument::Name | Argument::File => is_between(word, 255),
            Argument::Listen => is_between(word, 247) && is_host_with_port(word),
            Argument::Producer | Argument::Upstream => is_between(word, 255) && is_address(word),
        }
    }
}

/// Whether a word has 1 to so many bytes.
fn is_between(word: &str, most: usize) -> bool {
    1 <= word.len() && word.len() <= most
}

/// Whether a word is a number from the least to the most, without a leading zero.
fn is_count(word: &str, least: u64, most: u64) -> bool {
    match number_of(word) {
        Some(count) => {
            least <= count && count <= most && (word.len() == 1 || !word.starts_with('0'))
        }
        None => false,
    }
}

/// A command.
pub(crate) struct Command {
    /// Its word.
    pub word: &'static str,
    /// What stands behind it.
    pub arguments: &'static [Argument],
    /// What it reads of standard input, as its line ends with it.
    pub input: &'static str,
    /// What it does, or is.
    pub does: &'static str,
    /// Its words for example.
    pub example: &'static str,
}

/// All commands.
pub(crate) static COMMANDS: [Command; 10] = [
    Command {
        word: "replay",
        arguments: &[],
        input: " < SCRIPT",
        does: "plays a script of a producer, consumers and the network between them, and writes its report",
        example: "siri replay < morning.script",
    },
    Command {
        word: "check",
        arguments: &[],
        input: " < DOCUMENT",
        does: "writes `ok KIND` of a document in the profile, or `PATH: REASON` of one that isn't",
        example: "siri check < delivery.json",
    },
    Command {
        word: "convert",
        arguments: &[],
        input: " < DOCUMENT",
        does: "writes a document's canonical text, or `PATH: REASON`",
        example: "siri convert < delivery.json",
    },
    Command {
        word: "load",
        arguments: &[Argument::Seed, Argument::Events],
        input: "",
        does: "plays a large random script that is made from SEED, and writes one line of it",
        example: "siri load 7 20000",
    },
    Command {
        word: "get",
        arguments: &[Argument::Producer],
        input: " < DOCUMENT",
        does: "asks a request of the producer at that address as a query by GET, and writes what it answers",
        example: "siri get http://127.0.0.1:7001/ < request.json",
    },
    Command {
        word: "serve",
        arguments: &[Argument::Name, Argument::Listen, Argument::Connections],
        input: "",
        does: "is a producer for COUNT connections over HTTP",
        example: "siri serve AGENCY 127.0.0.1:7001 1000000",
    },
    Command {
        word: "lite",
        arguments: &[Argument::Name, Argument::Listen, Argument::Connections],
        input: "",
        does: "is serve, and answers queries by GET, too",
        example: "siri lite AGENCY 127.0.0.1:7001 1000000",
    },
    Command {
        word: "keep",
        arguments: &[
            Argument::Name,
            Argument::Listen,
            Argument::File,
            Argument::Connections,
        ],
        input: "",
        does: "is serve, with its items and subscriptions in FILE, so that they outlast it",
        example: "siri keep AGENCY 127.0.0.1:7001 items 1000000",
    },
    Command {
        word: "consume",
        arguments: &[
            Argument::Name,
            Argument::Listen,
            Argument::Producer,
            Argument::Connections,
        ],
        input: " < SUBSCRIPTIONS",
        does: "is a consumer of the producer at that address for COUNT connections, and writes its views",
        example: "siri consume board 127.0.0.1:7002 http://127.0.0.1:7001/ 20 < subscriptions",
    },
    Command {
        word: "relay",
        arguments: &[
            Argument::Name,
            Argument::Listen,
            Argument::Upstream,
            Argument::Connections,
        ],
        input: " < SUBSCRIPTION",
        does: "is a consumer of the producer at that address and serves on what it shows, for COUNT connections",
        example: "siri relay region 127.0.0.1:7003 http://127.0.0.1:7001/ 1000000 < subscription",
    },
];

/// What is wrong with the words behind the word of a command.
#[derive(Clone, Copy)]
pub(crate) enum Wrong<'a> {
    /// This word begins with `-`.
    Minus(&'a str),
    /// This argument has no word.
    Missing(Argument),
    /// The word of this argument isn't of its form.
    Form(Argument, &'a str),
    /// There is no argument for this word.
    Beyond(&'a str),
}

impl Command {
    /// What is wrong first with the words behind the command's, if anything is.
    pub(crate) fn wrong<'a>(&self, words: &'a [String]) -> Option<Wrong<'a>> {
        for word in words {
            if word.as_str().starts_with('-') {
                return Some(Wrong::Minus(word.as_str()));
            }
        }
        for (place, argument) in self.arguments.iter().enumerate() {
            match words.get(place) {
                None => return Some(Wrong::Missing(*argument)),
                Some(word) if !argument.is(word.as_str()) => {
                    return Some(Wrong::Form(*argument, word.as_str()));
                }
                Some(_) => {}
            }
        }
        match words.get(self.arguments.len()) {
            Some(word) => Some(Wrong::Beyond(word.as_str())),
            None => None,
        }
    }
}

/// The command of a word.
pub(crate) fn command_of(word: &str) -> Option<&'static Command> {
    for command in &COMMANDS {
        if command.word == word {
            return Some(command);
        }
    }
    None
}
