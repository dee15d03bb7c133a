//! What follows of a relay and of its source.

ghost use Rattle.std.specs.Prelude.{◌≡◌, ℕ, pos, ◌+◌, true, List, Some};
ghost use Rattle.siri_records.specs.Keyed.{Items, InOrder, living};
ghost use Rattle.siri_records.specs.Near.{is_near};
ghost use Rattle.siri_records.specs.declared.item.Item.{Item};
ghost use Rattle.siri_topic.specs.declared.topics.Topic.{Topic};
ghost use Rattle.siri_change.specs.Changes.{Meets};
ghost use Rattle.siri_messages.specs.Asked.{AskedFor};
ghost use Rattle.siri_messages.specs.declared.message.Message.{Message};
ghost use Rattle.siri_model.specs.Direct.{direct_to};
ghost use Rattle.siri_model.specs.History.{History, current, now_of};
ghost use Rattle.siri_model.specs.Lives.{quiet_number};
ghost use Rattle.siri_model.specs.Meaning.{direct_of};
ghost use Rattle.siri_producer.specs.Answers.{is_ignored};
ghost use Rattle.siri_relay.specs.Feeds.{through};
ghost use Rattle.siri_relay.specs.Nearness.{IsNearSource, ShowsView};
ghost use Rattle.siri_relay.specs.Relaying.{is_up};

/// A law, which does nothing when it is called: where an item is near a second one with one slack, and the second is
/// near a third with another, the first is near the third with the sum of the two.
pub fn near_adds_up()
    ensures { (p q : ℕ) (a b c : Item) → is_near (pos p) a b ≡ true → is_near (pos q) b c ≡ true → is_near (pos (p + q)) a c ≡ true }
{}

/// A law: where a relay is level, as `level` says of it, and a subscription to it is quiet, the view that the
/// subscriber acknowledged meets the direct response over the relay's own view at the relay's moment.
pub fn a_level_relay_shows_its_view()
    ensures { (h : History) (view : Items) (subscriber identifier : List ℕ) (number : ℕ)
        → living (now_of h) (current h) ≡ through view (now_of h) → quiet_number h subscriber identifier ≡ Some number
        → ShowsView h subscriber identifier number view }
{}

/// A law: where the view, in order of key as each is, moreover meets the direct response of its source with one slack, as it
/// does where the upstream subscription is quiet there, each item that the subscriber acknowledged is near, with the sum of
/// the two slacks, to the source's current item of its key.
pub fn items_are_near_the_source()
    ensures { (p q : ℕ) (source : History) (asked : AskedFor) (view acknowledged : Items) (now : ℕ) (topic : Topic)
        → InOrder view → Meets (pos p) view (direct_of source asked) → Meets (pos q) acknowledged (direct_to now view topic)
        → IsNearSource (p + q) acknowledged source }
{}

/// A law: a message for the producer is none that it passes over.
pub fn kinds_have_one_end()
    ensures { (m : Message) → is_ignored m ≡ true → is_up m ≡ true }
{}
