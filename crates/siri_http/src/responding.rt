//! Answers a request.

ghost use Rattle.std.specs.Prelude.{◌≡◌, true, ℕ, List, Option, IfErr, IsErr, IsErrOf};
ghost use Rattle.siri_outside.specs.OutsideCalls.{WhereTold};
ghost use Rattle.siri_outside.specs.Wires.{WireState};
ghost use Rattle.siri_http.specs.declared.errors.HttpError.TheVariants as http;
ghost use Rattle.siri_http.specs.Connections.{OnConnection};
ghost use Rattle.siri_http.specs.HttpCauses.{EndsWrite, HasWriteCause};
ghost use Rattle.siri_http.specs.Texts.{PutsText, is_written, response_text};
ghost use Rattle.siri_http.specs.Responses.{Responds};
ghost use Rattle.siri_http.specs.ExchangeCauses.{HasResponseCause, outcome};

use crate::errors::HttpError;
use crate::writing::write_response;
use siri_base::OutOfMemory;
use siri_outside::Wire;
use std::alloc::Global;

/// Writes a response to the connection that is there, with a JSON body or a plain one, and hangs up. It answers whether
/// the response was written whole; `false` comes only where the wire's count of faults rose. The status is one of 200,
/// 400, 404, 405, 411, 413, 431 and 501.
pub fn respond<W: Wire>(
    alloc: Global,
    wire: &mut W,
    status: u16,
    plain: bool,
    body: &[u8],
) -> Result<bool, OutOfMemory>
    requires there { W.is_open wire.old }
    requires status { is_written status ≡ true }
    ensures told { WhereTold (W.tells wire.old) (W.tells wire.new) (Responds (response_text status plain body.now) (outcome result)) }
    ensures cause { HasResponseCause (W.faults wire.old) (W.faults wire.new) (outcome result) }
{
    let written = write_response(alloc, wire, status, plain, body);
    end_response(wire, written)
}

/// Ends a response of which a text was written with this result, whole or as far as it went, and hangs up. It answers
/// whether the text was written whole. After want of memory it doesn't hang up, and says so.
pub fn end_response<W: Wire>(
    wire: &mut W,
    written: Result<(), HttpError>,
) -> Result<bool, OutOfMemory>
    requires { IfErr written EndsWrite }
    ensures told { (text : List ℕ) (before : Option WireState) → OnConnection (PutsText text written) before (W.tells wire.old)
        → WhereTold before (W.tells wire.new) (Responds text (outcome result)) }
    ensures cause { (before : ℕ) → HasWriteCause before (W.faults wire.old) written
        → HasResponseCause before (W.faults wire.new) (outcome result) }
    ensures memory { IsErrOf written http.OutOfMemory → IsErr result }
{
    match written {
        Ok(()) => {
            wire.hang_up();
            Ok(true)
        }
        Err(HttpError::WriteFault) => {
            wire.hang_up();
            Ok(false)
        }
        Err(HttpError::OutOfMemory) => Err(OutOfMemory),
        Err(_) => unreachable!(),
    }
}
