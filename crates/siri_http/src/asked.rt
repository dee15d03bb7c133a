//! What an accepted connection asks.

ghost use Rattle.std.specs.Prelude.{◌≡◌, true};
ghost use Rattle.siri_http.specs.Texts.{is_written};
ghost use Rattle.siri_http.specs.Requests.{name_of, status_of, unasked_of};
ghost use Rattle.siri_http.specs.ExchangeCauses.{outcome};

use crate::errors::HttpError;
use siri_base::{List, OutOfMemory};

/// Why a request is refused before its body is looked at.
#[derive(Clone, Copy, Debug, PartialEq, Eq)]
pub enum BadRequest {
    /// Its head is none, or its Content-Length is none or stands twice.
    BadHead,
    /// Its head has more bytes or more lines than a head may have.
    HeadTooLong,
    /// It is a POST and has no Content-Length.
    NoLength,
    /// It has a Transfer-Encoding.
    TransferCoding,
    /// Its Content-Length is above 8,388,608.
    BodyTooLong,
    /// Its method isn't POST.
    NotPost,
    /// Its target's path is none that is served.
    NoPath,
}

impl BadRequest {
    /// The status that it is answered with.
    pub fn status(self) -> u16
        ensures value { result ≡ status_of self }
        ensures written { is_written result ≡ true }
    {
        match self {
            BadRequest::BadHead => 400,
            BadRequest::HeadTooLong => 431,
            BadRequest::NoLength => 411,
            BadRequest::TransferCoding => 501,
            BadRequest::BodyTooLong => 413,
            BadRequest::NotPost => 405,
            BadRequest::NoPath => 404,
        }
    }

    /// Its name, which the answer's body tells.
    pub fn name(self) -> &'static str
        ensures { result.now ≡ name_of self }
    {
        match self {
            BadRequest::BadHead => "BadHead",
            BadRequest::HeadTooLong => "HeadTooLong",
            BadRequest::NoLength => "NoLength",
            BadRequest::TransferCoding => "TransferCoding",
            BadRequest::BodyTooLong => "BodyTooLong",
            BadRequest::NotPost => "NotPost",
            BadRequest::NoPath => "NoPath",
        }
    }
}

/// What an accepted connection asks.
#[derive(Debug, Drop)]
pub enum Asked {
    /// A POST with this body.
    Posted(List<u8>),
    /// A request that is refused.
    Refused(BadRequest),
    /// The input ended before the request did.
    Short,
    /// A read of the wire failed: its count of faults rose.
    Failed,
}

/// What is asked where no request was read, for this reason; `OutOfMemory` exactly where that is the reason.
pub fn unasked(error: HttpError) -> Result<Asked, OutOfMemory>
    ensures { outcome result ≡ unasked_of error }
{
    match error {
        HttpError::BadHead => Ok(Asked::Refused(BadRequest::BadHead)),
        HttpError::HeadTooLong => Ok(Asked::Refused(BadRequest::HeadTooLong)),
        HttpError::NoLength => Ok(Asked::Refused(BadRequest::NoLength)),
        HttpError::TransferCoding => Ok(Asked::Refused(BadRequest::TransferCoding)),
        HttpError::BodyTooLong => Ok(Asked::Refused(BadRequest::BodyTooLong)),
        HttpError::Short => Ok(Asked::Short),
        HttpError::ReadFault | HttpError::WriteFault => Ok(Asked::Failed),
        HttpError::OutOfMemory => Err(OutOfMemory),
    }
}
