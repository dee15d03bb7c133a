//! What requests ask, and what an accepted connection asks.

ghost use Rattle.std.specs.Prelude.{◌≡◌, IfOk, OnErr, Some};
ghost use Rattle.siri_http.specs.Connections.{OnConnection};
ghost use Rattle.siri_http.specs.Messages.{is_post};
ghost use Rattle.siri_http.specs.Requests.{Asks, Meaning, NeverFails, StopsAsking, WholeRequest, by_method, post_alone, post_alone_never_fails};
ghost use Rattle.siri_http.specs.ExchangeCauses.{HasAskedCause, outcome};

use crate::asked::{Asked, BadRequest, unasked};
use crate::request::{HttpRequest, read_request};
use siri_base::OutOfMemory;
use siri_outside::Wire;
use std::alloc::Global;

/// What requests ask that are read whole: a POST alone, or others, too. One that isn't read whole asks what [`unasked`]
/// says.
pub trait Asking {
    /// What a request asks.
    ghost asks: { Meaning };

    /// A request for which that may take memory.
    ghost takes_memory: { WholeRequest → Type 0 };

    /// What a request asks. `OutOfMemory` only where that may take memory.
    fn asked(alloc: Global, request: HttpRequest) -> Result<Asked, OutOfMemory>
        ensures value { IfOk result (λ asked. asked ≡ asks ((request.method, request.target), request.body)) }
        ensures memory { OnErr result (takes_memory ((request.method, request.target), request.body)) };

    /// None asks what a request asks of which a read failed.
    ghost never_fails: { NeverFails asks };
}

/// A POST alone asks something, whatever its target.
pub struct PostAlone;

impl Asking for PostAlone {
    ghost asks = { post_alone };

    ghost takes_memory = { λ _. ⊥ };

    fn asked(_alloc: Global, request: HttpRequest) -> Result<Asked, OutOfMemory> {
        Ok(asked_of(request))
    }

    ghost never_fails = { post_alone_never_fails };
}

/// What a request asks where a POST alone does: its body where its method is POST, which it is in these letters alone.
/// Its target isn't looked at.
pub fn asked_of(request: HttpRequest) -> Asked
    ensures { result ≡ by_method (is_post request.method) request.body }
{
    if request.method.text() == "POST" {
        Asked::Posted(request.body)
    } else {
        Asked::Refused(BadRequest::NotPost)
    }
}

/// Reads what the connection that is there asks. `Failed` comes only where the wire's count of faults rose. After
/// `OutOfMemory` a part of the request was read; or the whole of it, where what it asks may take memory.
pub fn read_asked<W: Wire, A: Asking>(alloc: Global, wire: &mut W) -> Result<Asked, OutOfMemory>
    requires there { W.is_open wire.old }
    ensures open { W.is_open wire.new }
    ensures told { IfOk result (λ asked. OnConnection (Asks A.asks (Some asked)) (W.tells wire.old) (W.tells wire.new)) }
    ensures stopped { OnErr result (StopsAsking A.asks A.takes_memory (W.tells wire.old) (W.tells wire.new)) }
    ensures cause { HasAskedCause (W.faults wire.old) (W.faults wire.new) (outcome result) }
{
    match read_request(alloc, wire) {
        Ok(request) => A::asked(alloc, request),
        Err(error) => unasked(error),
    }
}
