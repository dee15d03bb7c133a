//! The words of a line of a script.

ghost use Rattle.std.specs.Prelude.{◌≡◌, ◌≤◌, length, map, option_map, nat_eq};
ghost use Rattle.std.specs.Cmp.Lexicographic.{pointwise};
ghost use Rattle.std.specs.Map.{lookup};
ghost use Rattle.siri_replay.specs.Lines.{argument_of, first_word, word_end, word_named, word_of};

use siri_base::ScriptReason;
use siri_document::is_text;

/// The words that a line may begin with.
#[derive(Clone, Copy, Debug)]
pub(crate) enum ScriptWord {
    Start,
    Clock,
    Feed,
    Ask,
    Subscribe,
    Terminate,
    Restart,
    Status,
    Deliver,
    View,
}

/// The words by their texts.
const WORDS: [(&[u8], ScriptWord); 10] = [
    (b"start", ScriptWord::Start),
    (b"clock", ScriptWord::Clock),
    (b"feed", ScriptWord::Feed),
    (b"ask", ScriptWord::Ask),
    (b"subscribe", ScriptWord::Subscribe),
    (b"terminate", ScriptWord::Terminate),
    (b"restart", ScriptWord::Restart),
    (b"status", ScriptWord::Status),
    (b"deliver", ScriptWord::Deliver),
    (b"view", ScriptWord::View),
];

impl ScriptWord {
    /// The word that is spelled so.
    #[tactic(auto, unfolding(crate::specs::Lines::word_named))]
    fn named(name: &[u8]) -> Option<ScriptWord>
        ensures { result ≡ word_named name.now }
    {
        lookup(&WORDS, name)
    }
}

/// The word beside this text in a table.
fn lookup(mut table: &[(&[u8], ScriptWord)], name: &[u8]) -> Option<ScriptWord>
    ensures { result ≡ lookup (pointwise nat_eq name.now) (map (λ row. (row.0.now, row.1)) table.entry.now) }
{
    while let [row, rest @ ..] = table {
        if name == row.0 {
            return Some(row.1);
        }
        table = rest;
    }
    None
}

/// The word that a line begins with. It is refused where it isn't UTF-8, or its first word is none of the ten.
pub(crate) fn word_of(line: &[u8]) -> Result<ScriptWord, ScriptReason>
    ensures { result ≡ word_of line.now }
{
    if !is_text(line) {
        return Err(ScriptReason::NotText);
    }
    match ScriptWord::named(first_word(line)) {
        Some(word) => Ok(word),
        None => Err(ScriptReason::BadWord),
    }
}

/// Where the first word ends: at the first space, or with the line.
fn word_end(line: &[u8]) -> usize
    ensures value { result ≡ word_end line.now }
    ensures bound { result ≤ length line.now }
{
    line.iter().take_while(|byte| **byte != b' ').count()
}

/// The bytes before the first space.
pub(crate) fn first_word(line: &[u8]) -> &[u8]
    ensures { result.now ≡ first_word line.now }
{
    &line[..word_end(line)]
}

/// What follows the first space.
pub(crate) fn argument(line: &[u8]) -> Option<&[u8]>
    ensures { option_map (λ text. text.now) result ≡ argument_of line.now }
{
    let end = word_end(line);
    if end < line.len() {
        Some(&line[end + 1..])
    } else {
        None
    }
}
