//! The frame of a reply: a whole document that carries a ServiceDelivery, without its functional deliveries.

ghost use Rattle.std.specs.Prelude.{◌≡◌, true, IfOk};
ghost use Rattle.std.specs.List.{list_all};
ghost use Rattle.siri_messages.specs.declared.deliveries.ServiceDelivery.{ServiceDelivery as ADelivery};
ghost use Rattle.siri_messages.specs.declared.message.Message.TheVariants as message;
ghost use Rattle.siri_deliveries.specs.Frame.{filled_text, is_of, without_entries};
ghost use Rattle.siri_wire.specs.Canonical.{canonical};

use siri_base::{List, OutOfMemory};
use siri_deliveries::{FramePiece, cut, names, write_frame};
use siri_json::Output;
use siri_messages::ServiceDelivery;
use std::alloc::Global;

/// The pieces of the document that says a ServiceDelivery: its text, and the places where its functional deliveries
/// stand, in their order. `head` is the delivery but for the items and removals of these, at which nothing looks. With the
/// text of each functional delivery at its place they are the document's canonical text.
#[tactic(auto, using(crate::proofs::Framed::frame_said))]
pub fn reply_frame(alloc: Global, head: &ServiceDelivery) -> Result<List<FramePiece>, OutOfMemory>
    ensures text { IfOk result (λ pieces. (d : ADelivery) → without_entries d ≡ without_entries head.now → filled_text d pieces ≡ canonical (message.ServiceDelivery d)) }
    ensures there { IfOk result (λ pieces. list_all (is_of head.now) pieces ≡ true) }
{
    let mut out = Output::new(alloc);
    let mut pieces = List::new(alloc);
    out.begin_object()?;
    out.key(names::SIRI)?;
    out.begin_object()?;
    out.key(names::SERVICE_DELIVERY)?;
    write_frame(&mut pieces, &mut out, head)?;
    out.end_object()?;
    out.end_object()?;
    cut(&mut pieces, &mut out)?;
    Ok(pieces)
}
