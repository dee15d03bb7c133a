//! What a request asks where queries are answered.

ghost use Rattle.std.specs.Prelude.{◌≡◌, IfOk};
ghost use Rattle.siri_queries.specs.Documents.{document_of};
ghost use Rattle.siri_ends.specs.lite.Asking.{IsQuery, is_query, post_or_query, post_or_query_never_fails, query_asked};

use siri_base::{List, OutOfMemory, Text};
use siri_http::{Asked, Asking, BadRequest, HttpRequest, asked_of};
use siri_queries::{QueryError, document_of};
use std::alloc::Global;

/// Whether a method and a target are those of a query: a GET, in these letters alone, of a target that begins with
/// `/siri-lite/`.
fn is_query(method: &str, target: &str) -> bool
    ensures { result ≡ is_query method.now target.now }
{
    method == "GET" && target.starts_with("/siri-lite/")
}

/// What a query of this target asks.
fn query_asked(alloc: Global, target: &Text) -> Result<Asked, OutOfMemory>
    ensures { IfOk result (λ asked. asked ≡ query_asked (document_of target.now)) }
{
    match document_of(alloc, target) {
        Ok(document) => Ok(Asked::Posted(List::of(document))),
        Err(QueryError::NoPath) => Ok(Asked::Refused(BadRequest::NoPath)),
        Err(QueryError::OutOfMemory) => Err(OutOfMemory),
        Err(QueryError::NotQuery) => unreachable!(),
    }
}

/// A POST asks something, and so does a query: a GET of a target that begins with `/siri-lite/` asks what a POST of its
/// document asks, its own body is passed over, and where it stands for no document it is refused for `NoPath`. Every other
/// request asks what it asks of [`PostAlone`](siri_http::PostAlone).
pub struct PostOrQuery;

impl Asking for PostOrQuery {
    ghost asks = { post_or_query };

    ghost takes_memory = { IsQuery };

    fn asked(alloc: Global, request: HttpRequest) -> Result<Asked, OutOfMemory> {
        if is_query(request.method.text(), request.target.text()) {
            query_asked(alloc, &request.target)
        } else {
            Ok(asked_of(request))
        }
    }

    ghost never_fails = { post_or_query_never_fails };
}
