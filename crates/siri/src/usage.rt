//! What is told where the words are no command, behind the line that says so.

use crate::commands::{COMMANDS, Command, Wrong, command_of};
use std::io;
use std::io::Write;

/// The version, which counts releases: none is made yet.
const VERSION: &str = "0";

/// The longest word that is told as it is, in bytes.
const LONGEST_TOLD: usize = 80;

/// In which column it stands what a command does.
const COLUMN: usize = 60;

/// A word as it is told: one that is too long, or has what isn't a letter of one line, isn't told.
fn told(word: &str) -> &str {
    if word.len() <= LONGEST_TOLD && !word.chars().any(|letter: char| letter.is_control()) {
        word
    } else {
        "this word"
    }
}

/// Writes what is wrong with words and what their command takes, or all commands where they are of none.
pub(crate) fn write_usage<W: Write>(out: &mut W, words: &[String]) -> io::Result<()> {
    match words {
        [word, rest @ ..] => match command_of(word.as_str()) {
            Some(command) => {
                if let Some(wrong) = command.wrong(rest) {
                    write_wrong(out, wrong)?;
                }
                write_command(out, command)
            }
            None => {
                writeln!(out, "siri: {} is no command", told(word.as_str()))?;
                write_all_commands(out)
            }
        },
        [] => write_all_commands(out),
    }
}

/// Writes the line of what is wrong with a word.
fn write_wrong<W: Write>(out: &mut W, wrong: Wrong<'_>) -> io::Result<()> {
    match wrong {
        Wrong::Minus(word) => writeln!(out, "siri: no word begins with -, as {} does", told(word)),
        Wrong::Missing(argument) => {
            writeln!(
                out,
                "siri: {} is missing: {}",
                argument.name(),
                argument.form()
            )
        }
        Wrong::Form(argument, word) => writeln!(
            out,
            "siri: {}: {}; {} isn't",
            argument.name(),
            argument.form(),
            told(word)
        ),
        Wrong::Beyond(word) => writeln!(out, "siri: {} is one word too many", told(word)),
    }
}

/// Writes a command with its words, and gives how many bytes that took.
fn write_words<W: Write>(out: &mut W, command: &Command) -> io::Result<usize> {
    write!(out, "siri {}", command.word)?;
    let mut bytes = command.word.len().saturating_add(5);
    for argument in command.arguments {
        let name = argument.name();
        write!(out, " {name}")?;
        bytes = bytes.saturating_add(name.len()).saturating_add(1);
    }
    write!(out, "{}", command.input)?;
    Ok(bytes.saturating_add(command.input.len()))
}

/// Writes the lines of a command: its words, what it does, what each word is, and an example.
fn write_command<W: Write>(out: &mut W, command: &Command) -> io::Result<()> {
    let _ = write_words(out, command)?;
    writeln!(out, "")?;
    writeln!(out, "  {}", command.does)?;
    for argument in command.arguments {
        writeln!(out, "  {}: {}", argument.name(), argument.form())?;
    }
    writeln!(out, "  as in: {}", command.example)
}

/// Writes all commands, a line each.
fn write_all_commands<W: Write>(out: &mut W) -> io::Result<()> {
    writeln!(
        out,
        "siri {VERSION}, a producer and a consumer of SIRI in JSON"
    )?;
    for command in &COMMANDS {
        let bytes = write_words(out, command)?;
        for _ in bytes..COLUMN {
            write!(out, " ")?;
        }
        writeln!(out, " {}", command.does)?;
    }
    Ok(())
}
