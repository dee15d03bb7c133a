//! Words of a line, each behind a space.

ghost use Rattle.std.specs.Prelude.{◌≡◌, ◌++◌, length, take, OnOk, OnErr};
ghost use Rattle.std.specs.Fmt.{decimal};
ghost use Rattle.siri_document.specs.script.Spaced.{space};

use siri_base::{OutOfMemory, append};
use std::alloc::Global;

/// Puts a space and a number at the end. After want of memory the text is as before.
pub fn append_count(alloc: Global, into: &mut Vec<u8>, number: u64) -> Result<(), OutOfMemory>
    ensures ok { OnOk result (into.new.items ≡ into.old.items ++ (space ++ decimal number)) }
    ensures err { OnErr result (into.new.items ≡ into.old.items) }
{
    let digits = number.to_string(alloc)?;
    append_word(into, digits.as_bytes())
}

/// Puts a space and a text at the end. After want of memory the text is as before.
pub fn append_word(into: &mut Vec<u8>, text: &[u8]) -> Result<(), OutOfMemory>
    ensures ok { OnOk result (into.new.items ≡ into.old.items ++ (space ++ text.now)) }
    ensures err { OnErr result (into.new.items ≡ into.old.items) }
{
    let length = into.len();
    let appended = append_parts(into, text);
    if appended.is_err() {
        into.truncate(length);
    }
    appended
}

/// Puts a space and a text at the end, or a front of both after want of memory.
fn append_parts(into: &mut Vec<u8>, text: &[u8]) -> Result<(), OutOfMemory>
    ensures ok { OnOk result (into.new.items ≡ into.old.items ++ (space ++ text.now)) }
    ensures err { OnErr result (take (length into.old.items) into.new.items ≡ into.old.items) }
{
    append(into, b" ")?;
    append(into, text)
}
