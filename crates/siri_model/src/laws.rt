//! What follows from the definitions, of every history: each law is the contract of a function that does nothing when
//! it is called.
//!
//! ```text
//!     a history --current--> items: in order of key, each under its own, few of them live, each the last that was taken
//!               --direct---> a view --target, parts--> the target: what lives ask of views and parts holds of items
//!               --table----> lives: their rows change as a subscription table does
//!               --looks----> of each life, which keys its next look needs: those touched since its last one, and few more
//! ```
//!
//! The producer's proofs cite the lemmas. `small_histories` has small ones, run by the definitions.

mod followed;
mod histories;
mod looks;
mod meaning;
mod small_histories;
mod tables;

pub use followed::facts_hold_of_all_subscriptions;
pub use histories::{
    an_entry_is_of_its_key_alone, current_items_are_in_order, current_items_stand_under_their_keys,
    few_keys_are_live, the_last_observation_is_current,
};
pub use looks::{
    bounds_of_looks_add_up, facts_tell_a_look, followed_rows_are_those_of_the_table,
    looks_tell_which_keys_are_kept_apart, steps_keep_the_facts, unmarked_keys_stay_as_shown,
    what_is_found_tells,
};
pub use meaning::{direct_responses_are_views, lives_of_items_are_lawful};
pub use small_histories::{
    acknowledgements_are_of_their_part, changes_wait_for_the_round, complete_sets,
    departures_are_sent, numbers_and_terminations, small_changes_wait,
};
pub use tables::{rows_follow_their_lives, subscriptions_are_held_once};
