//! What holds of rows: each function has a law for its clause, and does nothing when it is called.

ghost use Rattle.std.specs.Prelude.{◌≡◌, ◌≤◌, ℕ, List, length, map, true, Some};
ghost use Rattle.std.specs.Cmp.Lexicographic.{slice_cmp};
ghost use Rattle.std.specs.Ordering.{nat_cmp};
ghost use Rattle.std.specs.List.Sorted.{IsStrictlySortedBy};
ghost use Rattle.std.specs.List.{AllByRecursion, list_all, range_with_len};
ghost use Rattle.std.specs.Char.{is_ascii_digit};
ghost use Rattle.siri_json.specs.Tree.{longest_document};
ghost use Rattle.siri_records.specs.declared.item.Item.{Item};
ghost use Rattle.siri_records.specs.declared.item.Service.{Service};
ghost use Rattle.siri_records.specs.declared.key.Key.{Key};
ghost use Rattle.siri_records.specs.Keys.{key_of};
ghost use Rattle.siri_items.specs.Proper.{IsProper};
ghost use Rattle.siri_deliveries.specs.Removals.{IsProperRemoval};
ghost use Rattle.siri_messages.specs.Asked.{AskedFor, asked_in};
ghost use Rattle.siri_messages.specs.declared.message.Message.TheVariants as message;
ghost use Rattle.siri_messages.specs.declared.subscriptions.SubscriptionRequest.{SubscriptionRequest};
ghost use Rattle.siri_topic.specs.declared.subscription.Subscription.{Subscription};
ghost use Rattle.siri_tables.specs.Proper.{IsMoment, IsName, IsNumber};
ghost use Rattle.siri_wire.specs.laws.ProperMessages.{IsProper as IsProperMessage};
ghost use Rattle.siri_row_texts.specs.ItemRows.{item_text, key_text, moment_row};
ghost use Rattle.siri_row_texts.specs.SubscriptionRows.{place_text, renewal_of, renewal_text, request_of, request_text};
ghost use Rattle.siri_row_texts.specs.Reading.{began_of_row, item_of_row, renewal_of_row, request_of_row};

/// The row of a moment, a start from 1 to 999,999,999,999,999,999 and a name is read as these.
pub fn moment_row_is_read()
    ensures { (m start : ℕ) (name : List ℕ) → IsMoment m → 1 ≤ start → IsNumber start → IsName name
        → began_of_row (moment_row m start name) ≡ Some (record { moment = m; start = start; name = name }) }
{}

/// The row of a proper item is read as that item, in every field, where its text has at most 8,388,608 bytes.
pub fn item_row_is_read()
    ensures { (i : Item) → IsProper i → length (item_text i) ≤ longest_document → item_of_row (key_text (key_of i)) (item_text i) ≡ Some i }
{}

/// A row that is read as an item is the one that is written of it, byte by byte, under its key.
pub fn read_row_is_written()
    ensures { (key text : List ℕ) (i : Item) → item_of_row key text ≡ Some i → (text ≡ item_text i) × (key ≡ key_text (key_of i)) }
{}

/// Proper keys with one text are equal, however long it is. So each row of an item is its own.
pub fn key_texts_determine_their_keys()
    ensures { (s t : Service) (k j : Key) → IsProperRemoval s k → IsProperRemoval t j → key_text k ≡ key_text j → k ≡ j }
{}

/// The row of a subscription is read as the request that it is written of, where that is proper and its text has at most
/// 8,388,608 bytes.
pub fn request_row_is_read()
    ensures { (asked : AskedFor) (base : ℕ) → IsProperMessage (message.SubscriptionRequest (request_of asked base))
        → length (request_text asked base) ≤ longest_document
        → request_of_row (request_text asked base) ≡ Some (message.SubscriptionRequest (request_of asked base)) }
{}

/// The row of a subscription's number is read as the request that it is written of; its text is never too long.
pub fn renewal_row_is_read()
    ensures { (s : Subscription) (number base : ℕ) → base ≤ number → IsName s.subscriber → IsName s.identifier → IsNumber number
        → IsNumber base → (text : List ℕ) → renewal_text s number base ≡ Some text
        → renewal_of_row s base text ≡ Some (message.DataSupplyRequest (renewal_of s number base)) }
{}

/// Of a proper SubscriptionRequest the request of each of its subscriptions alone is proper too.
pub fn each_request_alone_is_proper()
    ensures { (r : SubscriptionRequest) → IsProperMessage (message.SubscriptionRequest r)
        → AllByRecursion (λ asked. IsProperMessage (message.SubscriptionRequest (request_of asked r.message_identifier))) (asked_in r) }
{}

/// The texts of the places from 1 on, up to the 200 of a whole table, are in order and have 20 digits.
pub fn places_ascend()
    ensures order { (count : ℕ) → count ≤ 200 → IsStrictlySortedBy (slice_cmp nat_cmp) (map place_text (range_with_len 1 count)) }
    ensures twenty { (place : ℕ) → IsNumber place → length (place_text place) ≡ 20 }
    ensures digits { (place : ℕ) → IsNumber place → list_all is_ascii_digit (place_text place) ≡ true }
{}
