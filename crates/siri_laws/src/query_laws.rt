//! What holds of queries by GET: a law of writing and reading, the contract of a function that does nothing when it is
//! called.
//!
//! ```text
//!   a proper request --target_of--> target --document_of--> document --message_of--> that request, but for
//!                                                                                    who asks, when, and by which name
//! ```
//!
//! `siri_queries` writes targets and their documents, `siri_wire` reads documents, and says which requests are proper.

ghost use Rattle.std.specs.Prelude.{◌≡◌, List, ℕ, Some, Ok};
ghost use Rattle.siri_messages.specs.declared.message.Message.TheVariants as message;
ghost use Rattle.siri_messages.specs.declared.requests.ServiceRequest.{ServiceRequest};
ghost use Rattle.siri_wire.specs.Documents.{message_of};
ghost use Rattle.siri_wire.specs.laws.ProperRequests.{IsProperServiceRequest};
ghost use Rattle.siri_queries.specs.Documents.{document_of};
ghost use Rattle.siri_queries.specs.Targets.{target_of};
ghost use Rattle.siri_laws.specs.queries.Queried.{queried};

/// A query asks what its request asks: where a proper request has a target, that stands for a document, which is read
/// as that request, without its RequestTimestamp, RequestorRef and MessageIdentifier.
pub fn queries_are_requests()
    ensures { (request : ServiceRequest) (target : List ℕ) → IsProperServiceRequest request → target_of request ≡ Some target
        → (document : List ℕ) × (document_of target ≡ Some document) × (message_of document ≡ Ok (message.ServiceRequest (queried request))) }
{}
