//! Laws of what a shelf keeps of a producer's items.

ghost use Rattle.std.specs.Prelude.{◌≡◌, ◌≢◌, ◌≤◌, ◌∷◌, [], ℕ, List, length, map, IsSome, Some, Result};
ghost use Rattle.std.specs.List.{AllByRecursion};
ghost use Rattle.siri_outside.specs.declared.errors.OutsideError.{OutsideError};
ghost use Rattle.siri_records.specs.declared.item.Item.{Item};
ghost use Rattle.siri_records.specs.declared.key.Key.{Key};
ghost use Rattle.siri_records.specs.Keys.{key_of};
ghost use Rattle.siri_records.specs.Keyed.{InOrder, Items, apply, item_of};
ghost use Rattle.siri_model.specs.History.{Entry};
ghost use Rattle.siri_model.specs.Last.{entry_key};
ghost use Rattle.siri_outside.specs.Rows.{Rows, text_at, with_puts};
ghost use Rattle.siri_outside.specs.declared.rows.Put.{Put};
ghost use Rattle.siri_outside.specs.Shelves.{ShelfState, Writes};
ghost use Rattle.siri_model.specs.Held.{Held};
ghost use Rattle.siri_topic.specs.declared.subscription.Subscription.{Subscription};
ghost use Rattle.siri_messages.specs.declared.message.Message.{Message};
ghost use Rattle.siri_items.specs.Proper.{IsProper};
ghost use Rattle.siri_wire.specs.laws.ProperMessages.{IsProper as IsProperMessage};
ghost use Rattle.siri_row_texts.specs.Reading.{item_of_row, renewal_of_row, request_of_row};
ghost use Rattle.siri_row_texts.specs.ItemRows.{key_text, moment_row};
ghost use Rattle.siri_keeping.specs.Keeping.{AddsOnly, Covers, HasItems, IsProperKey, changes_to, live_after, live_of, moment_put, places_to, puts_to, subscription_puts};
ghost use Rattle.siri_keeping.specs.Keeps.{HasSubscriptions};

/// A law, which does nothing when it is called: proper keys with one text are equal, so that each row of table 1 is its
/// own.
pub fn key_texts_differ()
    ensures { (k j : Key) → IsProperKey k → IsProperKey j → key_text k ≡ key_text j → k ≡ j }
{}

/// A law: a shelf has the rows of items of which the live ones are some and the rest are dead. After the entries of a feed
/// and one put for each key that they name it has such rows again, by the items that are live then. No other table
/// changes.
pub fn a_feed_is_kept()
    ensures rows { (rows : Rows) (kept live : Items) (keys : List Key) → AllByRecursion IsProperKey keys → InOrder kept
        → HasItems rows kept → HasItems (with_puts rows (puts_to live keys)) (apply kept (changes_to live keys)) }
    ensures covers { (now : ℕ) (items kept : Items) (entries : List Entry) → InOrder items → InOrder kept
        → Covers now (live_of now items) kept
        → Covers now (live_after now items entries) (apply kept (changes_to (live_after now items entries) (map entry_key entries))) }
    ensures others { (rows : Rows) (live : Items) (keys : List Key) (table : ℕ) (key : List ℕ) → table ≢ 1
        → text_at (with_puts rows (puts_to live keys)) table key ≡ text_at rows table key }
{}

/// A law: the puts of any keys by the items that are live leave these covered, where they were.
pub fn live_items_stay_covered()
    ensures { (now : ℕ) (live kept : Items) (keys : List Key) → InOrder kept → Covers now live kept
        → Covers now live (apply kept (changes_to live keys)) }
{}

/// A law: a write adds to what a stop may have left only the rows that were there and those with its puts.
pub fn a_stop_leaves_a_front<T>()
    ensures { (puts : List Put) (old new : ShelfState) (result : Result T OutsideError) → Writes puts old new result
        → AddsOnly (λ rows. rows ≡ old.rows) (λ rows. rows ≡ with_puts old.rows puts) old new }
{}

/// A law: the puts of all subscriptions, at most 200, take away the rows that were there and make theirs, at the places from
/// 1 on. No other table changes.
pub fn subscriptions_are_written_whole()
    ensures rows { (rows : Rows) (places : List (List ℕ)) (old helds : List Held) → HasSubscriptions rows places old → length helds ≤ 200
        → HasSubscriptions (with_puts rows (subscription_puts places helds)) (places_to (length helds)) helds }
    ensures others { (rows : Rows) (places : List (List ℕ)) (helds : List Held) (table : ℕ) (key : List ℕ) → table ≢ 2 → table ≢ 3
        → text_at (with_puts rows (subscription_puts places helds)) table key ≡ text_at rows table key }
{}

/// A law: the put of the moment makes the one row of table 0. No other table changes.
pub fn the_moment_is_written()
    ensures there { (rows : Rows) (moment start : ℕ) (name : List ℕ)
        → text_at (with_puts rows (moment_put moment start name ∷ [])) 0 [] ≡ Some (moment_row moment start name) }
    ensures alone { (rows : Rows) (moment start : ℕ) (name : List ℕ) → ((k : List ℕ) → IsSome (text_at rows 0 k) → k ≡ [])
        → (key : List ℕ) → IsSome (text_at (with_puts rows (moment_put moment start name ∷ [])) 0 key) → key ≡ [] }
    ensures others { (rows : Rows) (moment start : ℕ) (name : List ℕ) (table : ℕ) (key : List ℕ) → table ≢ 0
        → text_at (with_puts rows (moment_put moment start name ∷ [])) table key ≡ text_at rows table key }
{}

/// A law: items in order of key that have the same item of each key are the same.
pub fn items_are_known_by_their_keys()
    ensures { (xs ys : Items) → InOrder xs → InOrder ys → ((k : Key) → item_of xs k ≡ item_of ys k) → xs ≡ ys }
{}

/// A law: what is read of rows is proper, and so is the key of an item that is read.
pub fn read_rows_are_proper()
    ensures items { (key text : List ℕ) (i : Item) → item_of_row key text ≡ Some i → IsProper i × IsProperKey (key_of i) }
    ensures requests { (text : List ℕ) (m : Message) → request_of_row text ≡ Some m → IsProperMessage m }
    ensures renewals { (s : Subscription) (base : ℕ) (text : List ℕ) (m : Message) → renewal_of_row s base text ≡ Some m → IsProperMessage m }
{}
