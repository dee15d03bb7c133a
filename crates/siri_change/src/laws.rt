//! What follows from the definitions of views and changes.

ghost use Rattle.std.specs.Prelude.{◌≡◌, ◌↔◌, ◌<◌, ◌≤◌, ℕ, ℤ, Bool, true, List, [], length, map, flat_map, slice_get, Some, None};
ghost use Rattle.siri_records.specs.declared.item.Item.{Item};
ghost use Rattle.siri_records.specs.declared.key.Key.{Key};
ghost use Rattle.siri_records.specs.Keyed.{Items, InOrder, KeyChange, after_change, apply, most_live};
ghost use Rattle.siri_change.specs.Same.{is_same};
ghost use Rattle.siri_change.specs.Changes.{Meets, meets, target, changes};
ghost use Rattle.siri_change.specs.Looks.{LooksByKeys};
ghost use Rattle.siri_change.specs.Views.{is_keyed, is_view, is_keyed_change, are_keyed};
ghost use Rattle.siri_change.specs.Parts.{load, base_view, led_to, part_after, parts_count, parts_of, as_sent, apply_parts, Carried, carried, changes_in, apply_carried};

/// A law, which does nothing when it is called: two items pass the test of sameness exactly where they are equal.
pub fn same_items_are_equal()
    ensures { (a b : Item) → (is_same a b ≡ true) ↔ (a ≡ b) }
{}

/// A law: a view meets another by the test exactly where they have the same keys and the two items of each key are
/// near.
pub fn views_that_meet_are_near()
    ensures { (slack : ℤ) (view list : Items) → (meets slack view list ≡ true) ↔ Meets slack view list }
{}

/// A law: the changes from one view to another, made one after the other, lead to it.
pub fn changes_lead_to_the_view()
    ensures { (before after : Items) → InOrder before → InOrder after → apply before (changes before after) ≡ after }
{}

/// A law: what a round carries leads to its target, at once and part by part, though of each part the items are made
/// before the removals. There is at least one part, and at most 400 where neither view has more than 20,000 items.
pub fn parts_lead_to_the_target()
    ensures at_once { (acknowledged target : Items) (incremental : Bool) → InOrder acknowledged → InOrder target → led_to acknowledged incremental (load acknowledged target incremental) ≡ target }
    ensures whole { (acknowledged target : Items) (incremental : Bool) → InOrder acknowledged → InOrder target → apply_parts (base_view acknowledged incremental) (parts_of (load acknowledged target incremental)) ≡ target }
    ensures some_part { (list : List KeyChange) → 0 < length (parts_of list) }
    ensures few_parts { (acknowledged target : Items) (incremental : Bool) → length acknowledged ≤ most_live → length target ≤ most_live → length (parts_of (load acknowledged target incremental)) ≤ 400 }
{}

/// A law: the target of a round meets the direct response that it was made for. So once it is acknowledged, no further
/// round is due until the direct response changes.
pub fn targets_meet_the_response()
    ensures { (slack : ℤ) (incremental : Bool) (acknowledged direct : Items) → meets slack (target slack incremental acknowledged direct) direct ≡ true }
{}

/// A law: changes keep a view in order, one or many, and a target is in order and as long as the direct response.
pub fn views_stay_in_order()
    ensures changes { (view : Items) (list : List KeyChange) → InOrder view → InOrder (apply view list) }
    ensures change { (view : Items) (change : KeyChange) → InOrder view → InOrder (after_change view change) }
    ensures target { (slack : ℤ) (incremental : Bool) (acknowledged direct : Items) → InOrder direct → InOrder (target slack incremental acknowledged direct) }
    ensures length { (slack : ℤ) (incremental : Bool) (acknowledged direct : Items) → length (target slack incremental acknowledged direct) ≡ length direct }
{}

/// A law: the parts of a list, joined in order, are the list. Each is the next hundred of it, and none has more than
/// 100.
pub fn parts_are_the_list<A>()
    ensures joined { (list : List A) → flat_map (λ part. part) (parts_of list) ≡ list }
    ensures count { (list : List A) → length (parts_of list) ≡ parts_count list }
    ensures each { (list : List A) (place : ℕ) → place < parts_count list → slice_get (parts_of list) place ≡ Some (part_after list place) }
    ensures most { (list : List A) (place : ℕ) → length (part_after list place) ≤ 100 }
{}

/// A law: parts that are made one after the other are all their changes, joined and made at once; so are parts as they
/// are carried.
pub fn parts_are_made_as_one()
    ensures sent { (view : Items) (parts : List (List KeyChange)) → apply_parts view parts ≡ apply view (flat_map as_sent parts) }
    ensures carried { (view : Items) (parts : List Carried) → apply_carried view parts ≡ apply view (flat_map changes_in parts) }
{}

/// A law: what a part carries, items without their keys and removals, are its changes, where each of its items is under
/// its own key.
pub fn items_carry_their_keys()
    ensures part { (part : List KeyChange) → are_keyed part ≡ true → changes_in (carried part) ≡ as_sent part }
    ensures load { (acknowledged target : Items) (incremental : Bool) → is_keyed target ≡ true → are_keyed (load acknowledged target incremental) ≡ true }
{}

/// A law: what a round's parts carry leads to its target, one after the other, where its items are under their own
/// keys. There is at least one part, and of views at most 400.
pub fn carried_parts_lead_to_the_target()
    ensures whole { (acknowledged target : Items) (incremental : Bool) → InOrder acknowledged → InOrder target → is_keyed target ≡ true
        → apply_carried (base_view acknowledged incremental) (map carried (parts_of (load acknowledged target incremental))) ≡ target }
    ensures of_views { (acknowledged target : Items) (incremental : Bool) → is_view acknowledged ≡ true → is_view target ≡ true
        → apply_carried (base_view acknowledged incremental) (map carried (parts_of (load acknowledged target incremental))) ≡ target }
    ensures some_part { (acknowledged target : Items) (incremental : Bool) → 0 < length (map carried (parts_of (load acknowledged target incremental))) }
    ensures few_parts { (acknowledged target : Items) (incremental : Bool) → is_view acknowledged ≡ true → is_view target ≡ true
        → length (map carried (parts_of (load acknowledged target incremental))) ≤ 400 }
{}

/// A law: the test of a view says that it is in order of key, each item under its own, and has at most 20,000.
pub fn views_are_tested()
    ensures { (view : Items) → (is_view view ≡ true) ↔ (InOrder view × (is_keyed view ≡ true) × (length view ≤ most_live)) }
{}

/// A law: a view stays one. The empty one is; after a removal it is; after an item of its own key, and after what a
/// part carries, it is while it has at most 20,000; the target of two views is.
pub fn views_stay_views()
    ensures empty { is_view [] ≡ true }
    ensures removal { (view : Items) (key : Key) → is_view view ≡ true → is_view (after_change view (key, None)) ≡ true }
    ensures change { (view : Items) (change : KeyChange) → is_view view ≡ true → is_keyed_change change ≡ true → length (after_change view change) ≤ most_live → is_view (after_change view change) ≡ true }
    ensures part { (view : Items) (part : Carried) → is_view view ≡ true → length (apply view (changes_in part)) ≤ most_live → is_view (apply view (changes_in part)) ≡ true }
    ensures target { (slack : ℤ) (incremental : Bool) (acknowledged direct : Items) → is_view acknowledged ≡ true → is_view direct ≡ true → is_view (target slack incremental acknowledged direct) ≡ true }
{}

/// A law: where a view and what is shown agree on all keys but some, these alone tell whether the view meets it, which
/// target a round has, and which changes it carries.
pub fn looks_need_few_keys()
    ensures { LooksByKeys }
{}
