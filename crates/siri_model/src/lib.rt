//! What the exchange means: the definitions that several crates cite and that no single type owns.
//!
//! A producer's history is the list of its steps; what is current after it is a fold over them; a direct response is a
//! filter of what is current. The program's own code stands in other crates, whose contracts cite these definitions.
//!
//! Stands on `siri_base`, `siri_records`, `siri_topic`, `siri_messages`, `siri_change`, `siri_subs` and `siri_life`. It
//! has definitions, in `specs/`, and `laws` of them; no other code.
#![tactic(auto)]

mod laws;

pub use laws::{
    acknowledgements_are_of_their_part, an_entry_is_of_its_key_alone, bounds_of_looks_add_up,
    changes_wait_for_the_round, complete_sets, current_items_are_in_order,
    current_items_stand_under_their_keys, departures_are_sent, direct_responses_are_views,
    facts_hold_of_all_subscriptions, facts_tell_a_look, few_keys_are_live,
    followed_rows_are_those_of_the_table, lives_of_items_are_lawful,
    looks_tell_which_keys_are_kept_apart, numbers_and_terminations, rows_follow_their_lives,
    small_changes_wait, steps_keep_the_facts, subscriptions_are_held_once,
    the_last_observation_is_current, unmarked_keys_stay_as_shown, what_is_found_tells,
};
