//! The text of a document as it grows, token by token.

ghost use Rattle.std.specs.Prelude.{◌≡◌, List, [], ◌∷◌, ◌++◌, decimal, IfOk, OnOk, OnErr, IsUtf8};
ghost use Rattle.json.specs.Print.{print};
ghost use Rattle.json.specs.Token.{begin_object, end_object, begin_array, end_array, key, string, number, boolean};

use json::Writer;
use siri_base::OutOfMemory;
use std::alloc::Global;
use std::marker::Model;

/// A text of JSON that is written token by token, compact: it puts the commas, the colons and the escapes itself.
/// Contracts see it as the list of the tokens that were written. What nests is its caller's. After want of memory it is
/// as before; of a text of several tokens a front may stand then, which is of no more use.
pub struct Output {
    alloc: Global,
    writer: Writer,
}

impl Drop for Output {
    fn drop(self) {
        let Output {
            alloc: _,
            writer: _,
        } = self;
    }
}

impl Model for Output {
    ghost use Rattle.std.specs.Prelude.{◌≡◌, List, []};
    ghost use Rattle.json.specs.Token.{Token, tokens_code};

    ghost Value = { List Token };

    ghost coded = { tokens_code };

    ghost view = { λ o. o.writer.tokens };

    ghost invariant = { λ o. o.writer.before ≡ [] };
}

impl Output {
    /// The text of nothing. It takes no memory.
    pub fn new(alloc: Global) -> Self
        ensures { result ≡ [] }
    {
        Output {
            alloc,
            writer: Writer::new(Vec::new(alloc)),
        }
    }

    /// The text of nothing, with room for so many bytes.
    pub fn with_room(alloc: Global, bytes: usize) -> Result<Self, OutOfMemory>
        ensures { IfOk result (λ out. out ≡ []) }
    {
        let text = Vec::with_capacity(alloc, bytes)?;
        Ok(Output {
            alloc,
            writer: Writer::new(text),
        })
    }

    /// Where its memory comes from.
    pub fn alloc(&self) -> Global {
        self.alloc
    }

    /// Begins an object.
    pub fn begin_object(&mut self) -> Result<(), OutOfMemory>
        ensures ok { OnOk result (self.new ≡ self.old ++ begin_object ∷ []) }
        ensures err { OnErr result (self.new ≡ self.old) }
    {
        Ok(self.writer.begin_object()?)
    }

    /// Ends an object.
    pub fn end_object(&mut self) -> Result<(), OutOfMemory>
        ensures ok { OnOk result (self.new ≡ self.old ++ end_object ∷ []) }
        ensures err { OnErr result (self.new ≡ self.old) }
    {
        Ok(self.writer.end_object()?)
    }

    /// Begins a list.
    pub fn begin_list(&mut self) -> Result<(), OutOfMemory>
        ensures ok { OnOk result (self.new ≡ self.old ++ begin_array ∷ []) }
        ensures err { OnErr result (self.new ≡ self.old) }
    {
        Ok(self.writer.begin_array()?)
    }

    /// Ends a list.
    pub fn end_list(&mut self) -> Result<(), OutOfMemory>
        ensures ok { OnOk result (self.new ≡ self.old ++ end_array ∷ []) }
        ensures err { OnErr result (self.new ≡ self.old) }
    {
        Ok(self.writer.end_array()?)
    }

    /// The name of a member, whose value is what is written next.
    pub fn key(&mut self, name: &str) -> Result<(), OutOfMemory>
        ensures ok { OnOk result (self.new ≡ self.old ++ key name.now ∷ []) }
        ensures err { OnErr result (self.new ≡ self.old) }
    {
        Ok(self.writer.key(name)?)
    }

    /// A text.
    pub fn text(&mut self, text: &str) -> Result<(), OutOfMemory>
        ensures ok { OnOk result (self.new ≡ self.old ++ string text.now ∷ []) }
        ensures err { OnErr result (self.new ≡ self.old) }
    {
        Ok(self.writer.string(text)?)
    }

    /// A number, in decimal digits.
    pub fn number(&mut self, count: u64) -> Result<(), OutOfMemory>
        ensures ok { OnOk result (self.new ≡ self.old ++ number (decimal count) ∷ []) }
        ensures err { OnErr result (self.new ≡ self.old) }
    {
        Ok(self.writer.u64(count)?)
    }

    /// A number as a text of its decimal digits.
    pub fn number_text(&mut self, count: u64) -> Result<(), OutOfMemory>
        ensures ok { OnOk result (self.new ≡ self.old ++ string (decimal count) ∷ []) }
        ensures err { OnErr result (self.new ≡ self.old) }
    {
        Ok(self.writer.quoted_u64(count)?)
    }

    /// `true` or `false`.
    pub fn flag(&mut self, flag: bool) -> Result<(), OutOfMemory>
        ensures ok { OnOk result (self.new ≡ self.old ++ boolean flag ∷ []) }
        ensures err { OnErr result (self.new ≡ self.old) }
    {
        Ok(self.writer.boolean(flag)?)
    }

    /// The text of the tokens that were written.
    pub fn into_text(self) -> Vec<u8>
        ensures text { result.items ≡ print self }
        ensures utf8 { IsUtf8 result.items }
    {
        let Output { alloc: _, writer } = self;
        writer.into_inner()
    }
}
