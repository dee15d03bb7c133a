//! Why no message is read or written.

ghost use Rattle.siri_http.specs.declared.errors.HttpError.TheVariants.{OutOfMemory};
ghost use Rattle.std.specs.Prelude.{◌≡◌};

use std::alloc::AllocError;

/// Why a message isn't read or written. Where several of the first five fit, the order is `HeadTooLong`, `BadHead`,
/// `TransferCoding`, `NoLength`, `BodyTooLong`.
#[derive(Clone, Copy, Debug, PartialEq, Eq)]
pub enum HttpError {
    /// The head text as a whole is no head by the grammar of `httparse`, or Content-Length stands twice or isn't a
    /// number of 1 to 18 digits.
    BadHead,
    /// There are 16,384 bytes and more, and the first 16,384 hold no whole head text; or the head text has more than
    /// 65 lines that aren't empty.
    HeadTooLong,
    /// No Content-Length in a POST or in a response.
    NoLength,
    /// A Transfer-Encoding stands.
    TransferCoding,
    /// Content-Length is above 8,388,608.
    BodyTooLong,
    /// The input ended before the head text, with fewer than 16,384 bytes, or before the body.
    Short,
    /// A read of the wire failed: its count of faults rose.
    ReadFault,
    /// A write to the wire failed: its count of faults rose.
    WriteFault,
    /// There was no memory.
    OutOfMemory,
}

impl From<siri_base::OutOfMemory> for HttpError {
    ghost from_gives = { λ _ e. e ≡ OutOfMemory };

    fn from(_: siri_base::OutOfMemory) -> Self {
        HttpError::OutOfMemory
    }
}

impl From<AllocError> for HttpError {
    ghost from_gives = { λ _ e. e ≡ OutOfMemory };

    fn from(_: AllocError) -> Self {
        HttpError::OutOfMemory
    }
}
