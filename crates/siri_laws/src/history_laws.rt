//! What holds of the answers of a producer: each function has a law for its clause, and does nothing when it is called.

ghost use Rattle.std.specs.Prelude.{◌≡◌, ℕ, ◌≤◌, List, length, Ok};
ghost use Rattle.siri_messages.specs.declared.deliveries.ServiceDelivery.{ServiceDelivery};
ghost use Rattle.siri_messages.specs.declared.message.Message.TheVariants as message;
ghost use Rattle.siri_messages.specs.declared.requests.ServiceRequest.{ServiceRequest};
ghost use Rattle.siri_model.specs.Direct.{response};
ghost use Rattle.siri_model.specs.History.{History, Feed, entries_of, now_of, current};
ghost use Rattle.siri_tables.specs.Proper.{IsName};
ghost use Rattle.siri_wire.specs.Canonical.{canonical};
ghost use Rattle.siri_wire.specs.Documents.{message_of};
ghost use Rattle.siri_wire.specs.laws.ProperMessages.{IsProper};
ghost use Rattle.siri_wire.specs.laws.ProperRequests.{IsProperServiceRequest};
ghost use Rattle.siri_laws.specs.ProperHistories.{IsProperStep, IsProperHistory};
ghost use Rattle.siri_json.specs.Tree.{longest_document};

/// What a delivery feeds that was read from a document is a step of a proper history.
pub fn feed_is_proper()
    ensures { (document : List ℕ) (d : ServiceDelivery) → message_of document ≡ Ok (message.ServiceDelivery d) → IsProperStep (Feed (entries_of d)) }
{}

/// The direct response to a proper request is proper, after each history of proper steps, of a producer with a proper
/// name.
pub fn response_is_proper()
    ensures { (name : List ℕ) (h : History) (request : ServiceRequest) → IsName name → IsProperHistory h → IsProperServiceRequest request → IsProper (message.ServiceDelivery (response name (now_of h) (current h) request)) }
{}

/// So the document by which it is answered, where it has at most 8,388,608 bytes, is read as that response.
pub fn answer_is_read()
    ensures { (name : List ℕ) (h : History) (request : ServiceRequest) → IsName name → IsProperHistory h → IsProperServiceRequest request
        → length (canonical (message.ServiceDelivery (response name (now_of h) (current h) request))) ≤ longest_document
        → message_of (canonical (message.ServiceDelivery (response name (now_of h) (current h) request))) ≡ Ok (message.ServiceDelivery (response name (now_of h) (current h) request)) }
{}
