//! Small scripts, run by the definitions of `siri_world_model`, and the lines of their reports.
//!
//! ```text
//!     events --told--> lines --> their texts; of a message its name, of a visit its departure in milliseconds
//! ```
//!
//! A visit is known by a letter; moments are seconds after the start, but for those of `Start` and `Clock`, which are
//! milliseconds. A report has a line more than a script's would: the name of a refusal.
//!
//! Each function has examples for its clauses, and does nothing when it is called.
#![tactic(auto, unfolding(crate::specs::laws::Opened::opened))]

ghost use Rattle.std.specs.Prelude.{◌≡◌, true, [], ◌∷◌, ◌++◌, codes, Ok};
ghost use Rattle.siri_model.specs.laws.Histories.{c1, at, visit};
ghost use Rattle.siri_world_model.specs.declared.event.Event.TheVariants.{Start, Clock, Deliver, View, Terminate, Restart, Status};
ghost use Rattle.siri_world_model.specs.Lines as line;
ghost use Rattle.siri_world_model.specs.Told.{told, world_after};
ghost use Rattle.siri_world_model.specs.laws.Views.{AllHappen};
ghost use Rattle.siri_world_model.specs.laws.Scripts.{report, last_lines, feed, subscribe, sixteen, view, subscribed, acknowledged, numbered, two, first_request, drifted, restarted, renewed, base_is_gone, departures};

/// Starts are told with their numbers; before the first no other event happens. What wasn't sent or isn't held is told
/// so.
pub fn starts_are_numbered()
    ensures first { report (Start 0 ∷ []) ≡ codes "started 1" ∷ [] }
    ensures second { report (Start 0 ∷ Start 5 ∷ []) ≡ codes "started 1" ∷ codes "started 2" ∷ [] }
    ensures early { report (Clock 0 ∷ []) ≡ codes "NotStarted" ∷ [] }
    ensures none { report (Start 0 ∷ Deliver 9 ∷ view ∷ Terminate c1 (codes "S") ∷ Status c1 ∷ []) ≡ codes "started 1" ∷ codes "no packet 9" ∷ codes "unknown c1 S" ∷ codes "unknown c1 S" ∷ codes "unknown c1" ∷ [] }
    ensures not_zero { last_lines subscribed (Deliver 0) ≡ codes "no packet 0" ∷ [] }
{}

/// A drift within the slack isn't sent: the view is quiet, and shows the visit as it was sent. A whole minute is.
pub fn small_changes_wait()
    ensures subscribed { report subscribed ≡ codes "started 1" ∷ codes "fed 1 0 0" ∷ codes "packet 1 to producer SubscriptionRequest" ∷ codes "took producer Subscribed" ∷ codes "packet 2 to c1 SubscriptionResponse" ∷ codes "packet 3 to c1 ServiceDelivery" ∷ [] }
    ensures applied { last_lines subscribed (Deliver 3) ≡ codes "took c1 Applied 1" ∷ codes "packet 4 to producer DataReceivedAcknowledgement" ∷ [] }
    ensures acknowledged { last_lines (subscribed ++ Deliver 3 ∷ []) (Deliver 4) ≡ codes "took producer Acknowledged" ∷ [] }
    ensures quiet { last_lines (acknowledged ++ feed 97 620 ∷ feed 97 640 ∷ []) view ≡ codes "view c1 S number 1 start 1 round 1 items 1 quiet" ∷ codes "item 600000" ∷ [] }
    ensures whole { last_lines (acknowledged ++ feed 97 620 ∷ feed 97 640 ∷ []) (feed 97 660) ≡ codes "fed 1 0 0" ∷ codes "packet 5 to c1 ServiceDelivery" ∷ [] }
{}

/// A change while a round is outstanding waits: the view is moving.
pub fn changes_wait_for_the_round()
    ensures nothing { last_lines (subscribed ++ feed 97 1200 ∷ []) view ≡ codes "view c1 S number 0 start 0 round 0 items 0 moving" ∷ [] }
    ensures moving { last_lines (subscribed ++ feed 97 1200 ∷ Deliver 3 ∷ []) view ≡ codes "view c1 S number 1 start 1 round 1 items 1 moving" ∷ codes "item 600000" ∷ [] }
    ensures follows { last_lines (subscribed ++ feed 97 1200 ∷ Deliver 3 ∷ []) (Deliver 4) ≡ codes "took producer Acknowledged" ∷ codes "packet 5 to c1 ServiceDelivery" ∷ [] }
{}

/// A packet is delivered as often as is wanted; a round is applied once. One that was lost is sent again after 30
/// seconds.
pub fn repeats()
    ensures again { last_lines (subscribed ++ Deliver 3 ∷ []) (Deliver 3) ≡ codes "took c1 Repeat" ∷ codes "packet 5 to producer DataReceivedAcknowledgement" ∷ [] }
    ensures same { last_lines (subscribed ++ Deliver 3 ∷ Deliver 3 ∷ []) view ≡ codes "view c1 S number 1 start 1 round 1 items 1 moving" ∷ codes "item 600000" ∷ [] }
    ensures lost { last_lines subscribed (Clock 30000) ≡ codes "packet 4 to c1 ServiceDelivery" ∷ [] }
    ensures not_lost { last_lines subscribed (Clock 29999) ≡ [] }
    ensures noted { last_lines subscribed (Deliver 2) ≡ codes "took c1 Noted" ∷ [] }
{}

/// Over a restart: the view shows the goal of the earlier start until a round of the later one comes; then the earlier
/// one is old.
pub fn restarts()
    ensures moving { last_lines (acknowledged ++ Start 300000 ∷ []) view ≡ codes "view c1 S number 1 start 1 round 1 items 1 moving" ∷ codes "item 600000" ∷ [] }
    ensures anew { last_lines (acknowledged ++ Start 300000 ∷ []) (Deliver 1) ≡ codes "took producer Subscribed" ∷ codes "packet 5 to c1 SubscriptionResponse" ∷ codes "packet 6 to c1 ServiceDelivery" ∷ [] }
    ensures quiet { last_lines (acknowledged ++ Start 300000 ∷ Deliver 1 ∷ Deliver 6 ∷ Deliver 7 ∷ []) view ≡ codes "view c1 S number 1 start 2 round 1 items 0 quiet" ∷ [] }
    ensures old { last_lines (acknowledged ++ Start 300000 ∷ Deliver 1 ∷ Deliver 6 ∷ []) (Deliver 3) ≡ codes "took c1 OldStart" ∷ [] }
    ensures other { last_lines (acknowledged ++ subscribe c1 0 ∷ []) (Deliver 3) ≡ codes "took c1 UnknownSubscription" ∷ [] }
{}

/// Over a restart of a consumer: its view is lost, and comes again under a new number. What is of the old number is
/// nothing to it. An acceptance that is gone isn't renewed.
pub fn consumer_restarts()
    ensures asks { last_lines acknowledged (Restart c1) ≡ codes "packet 5 to producer DataSupplyRequest" ∷ [] }
    ensures lost { last_lines (acknowledged ++ Restart c1 ∷ []) view ≡ codes "view c1 S number 0 start 0 round 0 items 0 moving" ∷ [] }
    ensures anew { last_lines (acknowledged ++ Restart c1 ∷ []) (Deliver 5) ≡ codes "took producer Renewed" ∷ codes "packet 6 to c1 ServiceDelivery" ∷ codes "packet 7 to c1 ServiceDelivery" ∷ [] }
    ensures quiet { last_lines renewed view ≡ codes "view c1 S number 2 start 1 round 1 items 1 quiet" ∷ codes "item 600000" ∷ [] }
    ensures old { last_lines renewed (Deliver 3) ≡ codes "took c1 UnknownSubscription" ∷ [] }
    ensures superseded { last_lines renewed (Deliver 1) ≡ codes "took producer Subscribed" ∷ codes "packet 9 to c1 SubscriptionResponse" ∷ [] }
    ensures gone { last_lines base_is_gone (Deliver 5) ≡ codes "took producer NotRenewed" ∷ codes "packet 8 to c1 ServiceDelivery" ∷ [] }
    ensures none { last_lines subscribed (Restart (numbered 0 2)) ≡ codes "unknown c02" ∷ [] }
{}

/// A termination ends the subscription at the consumer at once, and at the producer as it comes.
pub fn terminations()
    ensures sent { last_lines acknowledged (Terminate c1 (codes "S")) ≡ codes "packet 5 to producer TerminateSubscriptionRequest" ∷ [] }
    ensures ended { last_lines (acknowledged ++ Terminate c1 (codes "S") ∷ []) (Deliver 5) ≡ codes "took producer Ended" ∷ codes "packet 6 to c1 TerminateSubscriptionResponse" ∷ [] }
    ensures unknown { last_lines (acknowledged ++ Terminate c1 (codes "S") ∷ []) view ≡ codes "unknown c1 S" ∷ [] }
{}

/// Sixteen consumers subscribe, and a seventeenth doesn't; one of the sixteen may do so again.
pub fn sixteen_consumers_subscribe()
    ensures tenth { last_lines (Start 0 ∷ sixteen) (subscribe (numbered 1 6) 0) ≡ codes "packet 17 to producer SubscriptionRequest" ∷ [] }
    ensures too_many { last_lines (Start 0 ∷ sixteen) (subscribe (numbered 1 7) 0) ≡ codes "ConsumerLimit" ∷ [] }
{}

/// A request is a consumer's own, and says its moment: the greatest of all starts and clocks, before its first use too.
pub fn requests()
    ensures first { told (world_after (Start 100 ∷ [])) (subscribe c1 0) ≡ Ok (line.Packet 1 (codes "producer") (first_request 100 c1) ∷ []) }
    ensures other { told (world_after (Start 100 ∷ [])) (subscribe (numbered 0 2) 0) ≡ Ok (line.Packet 1 (codes "producer") (first_request 100 (numbered 0 2)) ∷ []) }
    ensures later { told (world_after (Start 100 ∷ Clock 300 ∷ Clock 200 ∷ [])) (subscribe c1 0) ≡ Ok (line.Packet 1 (codes "producer") (first_request 300 c1) ∷ []) }
    ensures anew { told (world_after (Start 300 ∷ Start 200 ∷ [])) (subscribe c1 0) ≡ Ok (line.Packet 1 (codes "producer") (first_request 300 c1) ∷ []) }
{}

/// A view shows the goal of its round after the subscription's life ended at the producer.
pub fn ended_lives()
    ensures shown { last_lines (acknowledged ++ Clock 86400000 ∷ []) view ≡ codes "view c1 S number 1 start 1 round 1 items 1 moving" ∷ codes "item 600000" ∷ [] }
    ensures nothing_sent { last_lines (acknowledged ++ Clock 86400000 ∷ []) (feed 98 90000) ≡ codes "fed 1 0 0" ∷ [] }
{}

/// What settles is sent in order of first acceptance.
pub fn two_consumers()
    ensures order { last_lines two (feed 97 660) ≡ codes "fed 1 0 0" ∷ codes "packet 9 to c02 ServiceDelivery" ∷ codes "packet 10 to c01 ServiceDelivery" ∷ [] }
    ensures own { last_lines (two ++ feed 97 660 ∷ Deliver 9 ∷ []) (View (numbered 0 1) (codes "S")) ≡ codes "view c01 S number 1 start 1 round 1 items 1 moving" ∷ codes "item 600000" ∷ [] }
    ensures others { last_lines (two ++ feed 97 660 ∷ Deliver 9 ∷ Deliver 11 ∷ []) (View (numbered 0 2) (codes "S")) ≡ codes "view c02 S number 1 start 1 round 2 items 1 quiet" ∷ codes "item 660000" ∷ [] }
{}

/// Views that are told as quiet, and the direct responses that their items are near to: to the last observation of a
/// visit, not the one that was sent, and to none of an earlier start.
pub fn quiet_views()
    ensures happen { AllHappen drifted }
    ensures quiet { told (world_after drifted) view ≡ Ok (line.View c1 (codes "S") (record { number = 1; start = 1; round = 1 }) 1 true ∷ line.Item (visit 97 (at 600)) ∷ []) }
    ensures direct { departures drifted ≡ at 640 ∷ [] }
    ensures anew_happen { AllHappen restarted }
    ensures anew { told (world_after restarted) view ≡ Ok (line.View c1 (codes "S") (record { number = 1; start = 2; round = 1 }) 0 true ∷ []) }
    ensures direct_anew { departures restarted ≡ [] }
{}
