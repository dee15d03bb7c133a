//! The command `check`.

ghost use Rattle.std.specs.Prelude.{◌≡◌, ◌++◌, IfOk};
ghost use Rattle.siri_document.specs.script.Spaced.{line_feed};
ghost use Rattle.siri_document.specs.OneDocument.{ok_text};

use crate::document::Telling;
use siri_base::{OutOfMemory, append};
use siri_messages::Message;
use std::alloc::Global;

/// Tells the name of a document's message: `ok KIND`.
pub struct Check;

impl Telling for Check {
    ghost text = { ok_text };

    fn line(alloc: Global, message: Message) -> Result<Vec<u8>, OutOfMemory>
        ensures { IfOk result (λ line. line.items ≡ ok_text message ++ line_feed) }
    {
        let kind = message.kind();
        drop(message);
        let mut text = Vec::new(alloc);
        append(&mut text, b"ok ")?;
        append(&mut text, kind.as_bytes())?;
        append(&mut text, b"\n")?;
        Ok(text)
    }
}
