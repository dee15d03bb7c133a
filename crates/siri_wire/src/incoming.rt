//! Documents that hold a ServiceDelivery, read as their tokens come.

ghost use Rattle.std.specs.Prelude.{◌≡◌, ◌∷◌, Some, Ok, IfOk, IsTrue};
ghost use Rattle.json.specs.Json.{Json, value};
ghost use Rattle.json.specs.Lex.{tokens};
ghost use Rattle.json.specs.Token.{begin_object, end_object, key};
ghost use Rattle.serde_json.specs.Read.{max_depth};
ghost use Rattle.siri_json.specs.Shown.{data_of, whole};
ghost use Rattle.siri_messages.specs.declared.message.Message.TheVariants as message;
ghost use Rattle.siri_wire.specs.Documents.{message_of, root};

use json::{Reader, Token};
use siri_deliveries::{Incoming, NotRead, ServiceDeliveryTable, names};
use siri_json::{LONGEST_DOCUMENT, Scratch};
use siri_messages::ServiceDelivery;
use std::alloc::Global;

/// How many lists and objects may nest in a ServiceDelivery, itself counted: a document's 127 without the two around it.
const DEPTH: usize = 125;

/// The ServiceDelivery of a document that holds it in Siri, and nothing else. Its items are read one by one, so that no
/// tree of all of them is there. A document that is refused isn't read, nor one of another form.
pub(crate) fn read_delivery(
    alloc: Global,
    document: &[u8],
    scratch: &mut Scratch,
) -> Result<ServiceDelivery, NotRead>
    ensures { IfOk result (λ delivery. message_of document.now ≡ Ok (message.ServiceDelivery delivery)) }
{
    if document.len() > LONGEST_DOCUMENT {
        return Err(NotRead::Otherwise);
    }
    match simdutf8::compat::from_utf8(document) {
        Ok(text) => delivery_of(alloc, text, scratch),
        Err(_) => Err(NotRead::Otherwise),
    }
}

/// The ServiceDelivery of a text.
fn delivery_of<'a>(
    alloc: Global,
    text: &'a str,
    scratch: &'a mut Scratch,
) -> Result<ServiceDelivery, NotRead>
    ensures { IfOk result (λ delivery. (j : Json) × (whole (value max_depth (tokens text.now)) ≡ Some j) × (root (data_of j) ≡ Ok (message.ServiceDelivery delivery))) }
{
    let mut reader = Reader::new(text, scratch)?;
    if !begins(&mut reader, names::SIRI) || !begins(&mut reader, names::SERVICE_DELIVERY) {
        return Err(NotRead::Otherwise);
    }
    let delivery = ServiceDeliveryTable::read_next(alloc, &mut reader, DEPTH)?;
    if !ends(&mut reader) || !ends(&mut reader) || reader.next().is_some() {
        return Err(NotRead::Otherwise);
    }
    Ok(delivery)
}

/// Whether an object stands next whose first member has that name; both are passed.
fn begins(reader: &mut Reader<'_>, name: &str) -> bool
    ensures { IsTrue result → reader.old ≡ begin_object ∷ key name.now ∷ reader.new }
{
    let Some(Token::BeginObject) = reader.next() else {
        return false;
    };
    match reader.next() {
        Some(Token::Key(key)) => key == name,
        _ => false,
    }
}

/// Whether the end of an object stands next; it is passed.
fn ends(reader: &mut Reader<'_>) -> bool
    ensures { IsTrue result → reader.old ≡ end_object ∷ reader.new }
{
    matches!(reader.next(), Some(Token::EndObject))
}
