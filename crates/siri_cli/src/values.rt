//! The values of arguments, which clap reads of words that are a plain spelling.

ghost use Rattle.std.specs.Prelude.{◌≡◌, true, is_some, map, IfOk, Some};
ghost use Rattle.clap.specs.Words.{App};
ghost use Rattle.siri_cli.specs.inner.Values.{IsOf, TakesWords, HasValuesOf, value_in};

use clap::error::ErrorKind;
use clap::{ArgMatches, Command};
use siri_base::OutOfMemory;

/// The arguments of words that the command takes.
pub(crate) fn matches_of<'a>(
    command: Command<'a>,
    words: &'a [&'a str],
) -> Result<ArgMatches<'a>, OutOfMemory>
    requires { (app : App) × IsOf app command × TakesWords app (map (λ word. word.now) words.now) }
    ensures { IfOk result (λ matches. (app : App) → IsOf app command.entry
        → HasValuesOf app (map (λ word. word.now) words.entry.now) matches) }
{
    match command.try_get_matches_from(words) {
        Ok(matches) => Ok(matches),
        Err(error) => match error.kind() {
            ErrorKind::OutOfMemory => Err(OutOfMemory),
            _ => unreachable!(),
        },
    }
}

/// The value of an argument that has one.
#[tactic(auto, unfolding(crate::specs::inner::Values::value_in))]
pub(crate) fn value<'a>(matches: &ArgMatches<'a>, id: &str) -> &'a str
    requires { is_some (value_in matches.now id.now) ≡ true }
    ensures { value_in matches.now id.now ≡ Some result.now }
{
    match matches.get_str(id) {
        Some(text) => text,
        None => unreachable!(),
    }
}
