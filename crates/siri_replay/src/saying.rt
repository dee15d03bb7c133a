//! The event that a line of a script says.

ghost use Rattle.std.specs.Prelude.{◌≡◌, option_map};
ghost use Rattle.siri_replay.specs.Events.{event_said, first_of, line_said, rest_of, subscription_said, termination_said, view_said, word_says};
ghost use Rattle.siri_document.specs.script.Reads.{Reads};

use crate::arguments::{
    consumer_in, delivery_in, identifier_in, moment_in, number_in, request_in, wanted_in,
};
use crate::script_words::{ScriptWord, argument, first_word, word_of};
use siri_base::ScriptReason;
use siri_document::{LineError, is_skipped};
use siri_world::Event;
use std::alloc::Global;

/// The event that a line says, and nothing where it is skipped. Before a producer has started no line is taken but its
/// `start`.
#[tactic(auto, unfolding(crate::specs::Events::line_said))]
pub(crate) fn line_said(
    alloc: Global,
    started: bool,
    line: &[u8],
) -> Result<Option<Event>, LineError>
    ensures { Reads result (line_said started line.now) }
{
    if is_skipped(line) {
        return Ok(None);
    }
    match word_of(line) {
        Ok(word) => Ok(Some(event_said(alloc, started, word, argument(line))?)),
        Err(reason) => Err(LineError::Refused(reason)),
    }
}

/// What a word says with its arguments, or `NotStarted` of any but `start` before a producer has started.
fn event_said(
    alloc: Global,
    started: bool,
    word: ScriptWord,
    arguments: Option<&[u8]>,
) -> Result<Event, LineError>
    ensures { Reads result (event_said started word (option_map (λ text. text.now) arguments.entry)) }
{
    match word {
        ScriptWord::Start => word_says(alloc, word, arguments),
        _ if started => word_says(alloc, word, arguments),
        _ => Err(LineError::Refused(ScriptReason::NotStarted)),
    }
}

/// What a word says with its arguments.
fn word_says(alloc: Global, word: ScriptWord, arguments: Option<&[u8]>) -> Result<Event, LineError>
    ensures { Reads result (word_says word (option_map (λ text. text.now) arguments.entry)) }
{
    match word {
        ScriptWord::Start => Ok(Event::Start(moment_in(arguments)?)),
        ScriptWord::Clock => Ok(Event::Clock(moment_in(arguments)?)),
        ScriptWord::Feed => Ok(Event::Feed(delivery_in(alloc, arguments)?)),
        ScriptWord::Ask => Ok(Event::Ask(request_in(alloc, arguments)?)),
        ScriptWord::Subscribe => subscription_said(alloc, arguments),
        ScriptWord::Terminate => termination_said(alloc, arguments),
        ScriptWord::Restart => Ok(Event::Restart {
            consumer: consumer_in(alloc, arguments)?,
        }),
        ScriptWord::Status => Ok(Event::Status {
            consumer: consumer_in(alloc, arguments)?,
        }),
        ScriptWord::Deliver => Ok(Event::Deliver(number_in(arguments)?)),
        ScriptWord::View => view_said(alloc, arguments),
    }
}

/// The first of two arguments.
fn first_of(arguments: Option<&[u8]>) -> Option<&[u8]>
    ensures { option_map (λ text. text.now) result ≡ first_of (option_map (λ text. text.now) arguments.entry) }
{
    match arguments {
        Some(text) => Some(first_word(text)),
        None => None,
    }
}

/// What follows it.
fn rest_of(arguments: Option<&[u8]>) -> Option<&[u8]>
    ensures { option_map (λ text. text.now) result ≡ rest_of (option_map (λ text. text.now) arguments.entry) }
{
    match arguments {
        Some(text) => argument(text),
        None => None,
    }
}

/// `subscribe CONSUMER WANTED`
fn subscription_said(alloc: Global, arguments: Option<&[u8]>) -> Result<Event, LineError>
    ensures { Reads result (subscription_said (option_map (λ text. text.now) arguments.entry)) }
{
    let consumer = consumer_in(alloc, first_of(arguments))?;
    let wanted = wanted_in(alloc, &consumer, rest_of(arguments))?;
    Ok(Event::Subscribe {
        consumer,
        wanted: wanted.subscription,
        beat: wanted.beat,
    })
}

/// `terminate CONSUMER ID`
fn termination_said(alloc: Global, arguments: Option<&[u8]>) -> Result<Event, LineError>
    ensures { Reads result (termination_said (option_map (λ text. text.now) arguments.entry)) }
{
    Ok(Event::Terminate {
        consumer: consumer_in(alloc, first_of(arguments))?,
        identifier: identifier_in(alloc, rest_of(arguments))?,
    })
}

/// `view CONSUMER ID`
fn view_said(alloc: Global, arguments: Option<&[u8]>) -> Result<Event, LineError>
    ensures { Reads result (view_said (option_map (λ text. text.now) arguments.entry)) }
{
    Ok(Event::View {
        consumer: consumer_in(alloc, first_of(arguments))?,
        identifier: identifier_in(alloc, rest_of(arguments))?,
    })
}
