//! The command `convert`.

ghost use Rattle.std.specs.Prelude.{◌≡◌, ◌++◌, IfOk};
ghost use Rattle.siri_wire.specs.Canonical.{canonical};
ghost use Rattle.siri_document.specs.script.Spaced.{line_feed};

use crate::document::Telling;
use siri_base::{OutOfMemory, append};
use siri_messages::Message;
use siri_wire::encode;
use std::alloc::Global;

/// Tells the canonical text of a document's message.
pub struct Convert;

impl Telling for Convert {
    ghost text = { canonical };

    fn line(alloc: Global, message: Message) -> Result<Vec<u8>, OutOfMemory>
        ensures { IfOk result (λ line. line.items ≡ canonical message ++ line_feed) }
    {
        let encoded = encode(alloc, &message);
        drop(message);
        let mut text = encoded?;
        append(&mut text, b"\n")?;
        Ok(text)
    }
}
