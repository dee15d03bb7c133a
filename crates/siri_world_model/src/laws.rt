//! What holds of every world: each law is the contract of a function that does nothing when it is called.
//!
//! ```text
//!     events --world_after--> a world: its producer's histories, its packets, its consumers
//!                                |
//!                                |  each packet is a letter of one subscription, or of none
//!                                v
//!                             a network: lives, what consumers keep, letters
//!                                |
//!                                +---> what a consumer's view is, and where it meets the direct response
//!                                +---> what is said of a packet that comes again
//!                                +---> what other subscriptions change of one: nothing
//! ```
//!
//! A world is a network as `siri_life` has it, event by event: `specs/laws/Letters.antt` says what each packet is
//! about, `specs/laws/Networks.antt` what a world is in the words of networks, `specs/laws/Happenings.antt` what each
//! event is there. So what `siri_life` proves of networks holds of worlds; `specs/laws/Claims.antt`, `QuietViews.antt`
//! and `Views.antt` say it in the words of scripts, and `Apart.antt` of a producer's history. No law says that a packet
//! comes: all of them hold where each one is lost.
//!
//! How it is proved: `proofs/Producer.antt` has what the producer's messages are as letters, `Consumers.antt` what the
//! consumers' events do, `Steps.antt` every event, `Worlds.antt` all of them; `Goals.antt` that the lives of all starts
//! tell the same rounds as the history of one; `Views`, `QuietLines`, `Parts`, `Again`, `Apart` and `Once` what
//! follows; `Observed` that a producer knows what was observed since its latest start, `SentItems` that what a consumer
//! shows was sent to it, and `Telling` what is told of a view and of a request. `scripts` has small ones, run by the
//! definitions, with the lines of their reports.
//!
//! They stand on the laws of `siri_model` and of `siri_life`.

mod networks;
mod packets;
mod producers;
mod scripts;
mod told;
mod views;

pub use networks::worlds_are_networks;
pub use packets::{
    no_gap_is_shown, other_packets_change_nothing, packets_carry_their_rounds,
    parts_are_taken_once, repeated_parts_change_no_view,
};
pub use producers::{
    a_second_settle_changes_nothing, other_subscriptions_and_their_settles_change_nothing,
    other_subscriptions_change_nothing,
};
pub use scripts::{
    changes_wait_for_the_round, consumer_restarts, ended_lives, quiet_views, repeats, requests,
    restarts, sixteen_consumers_subscribe, small_changes_wait, starts_are_numbered, terminations,
    two_consumers,
};
pub use told::{quiet_views_are_direct, requests_are_answered_directly};
pub use views::{quiet_views_meet, views_are_goals};
