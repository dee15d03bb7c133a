//! What holds of queries that are asked: each function has a law for its clause, and does nothing when it is called.

ghost use Rattle.std.specs.Prelude.{◌≡◌, List, ℕ, Some, None, codes, true, false};
ghost use Rattle.siri_http.specs.Requests.{WholeRequest, post_alone};
ghost use Rattle.siri_queries.specs.Documents.{document_of};
ghost use Rattle.siri_ends.specs.lite.Asking.{is_query, post_or_query};
ghost use Rattle.siri_ends.specs.lite.Replacing.{IsAnsweredAlike, IsReadAsItsPost};

use siri_http::{Asked, BadRequest};

/// A GET of a target that stands for a document asks what a POST of that document asks, whatever that one's target and
/// whatever the body of the GET.
pub fn a_get_asks_what_its_post_asks()
    ensures { (target document other body : List ℕ) → document_of target ≡ Some document
        → post_or_query ((codes "GET", target), body) ≡ post_or_query ((codes "POST", other), document) }
{}

/// A GET of a target that begins with `/siri-lite/` and stands for no document is refused for `NoPath`.
pub fn a_get_of_an_unknown_path_is_refused()
    ensures { (target body : List ℕ) → is_query (codes "GET") target ≡ true → document_of target ≡ None
        → post_or_query ((codes "GET", target), body) ≡ Asked.Refused BadRequest.NoPath }
{}

/// Every other request asks what it asks where a POST alone asks something.
pub fn all_else_asks_what_it_asks_without_queries()
    ensures { (request : WholeRequest) → is_query request.0.0 request.0.1 ≡ false → post_or_query request ≡ post_alone request }
{}

/// A connection that is read as a GET of a target with a document asks, for a run that answers queries, what a connection in
/// its place asks of one that answers a POST alone, where that holds a POST of the document whole and no failure of reading
/// is named for it. After it was read that one is in its place, too.
pub fn a_query_is_read_as_its_post()
    ensures { IsReadAsItsPost }
{}

/// What is answered to a connection, and that it is hung up, does to the wire what it does where another is in its place.
pub fn a_connection_in_its_place_is_answered_alike()
    ensures { IsAnsweredAlike }
{}
