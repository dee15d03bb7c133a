//! What holds of the sends of a producer: each function has a law for its clause, and does nothing when it is called.

ghost use Rattle.std.specs.Prelude.{◌≡◌, ◌↔◌, ℕ, List, [], ◌∷◌, ◌++◌};
ghost use Rattle.siri_model.specs.History.{History, Settle};
ghost use Rattle.siri_producer.specs.Known.{Known, StandsFor, Follows, SameButReads};
ghost use Rattle.siri_producer.specs.Sends.{sends};

/// What a producer sends at a settle right after a settle: nothing.
pub fn a_second_settle_sends_nothing()
    ensures { (name : List ℕ) (h : History) → sends name (h ++ Settle ∷ []) ≡ [] }
{}

/// What a settle leaves for which there was no memory: the producer stands for the histories that it stood for and no
/// others, and follows those that it followed and no others. So does a message that is no feed.
pub fn a_refused_settle_changes_nothing()
    ensures stands { (old new : Known) (h : History) → SameButReads old new → (StandsFor old h ↔ StandsFor new h) }
    ensures follows { (old new : Known) (h : History) → SameButReads old new → (Follows old h ↔ Follows new h) }
{}
