//! What packets carry, and what consumers say of them: each function has a law for its clause, and does nothing when it
//! is called.

ghost use Rattle.std.specs.Prelude.{◌≡◌, ℕ, List, [], ◌∷◌, ◌++◌, Some, None};
ghost use Rattle.siri_messages.specs.declared.message.Message.{Message};
ghost use Rattle.siri_life.specs.Named.{Name};
ghost use Rattle.siri_view.specs.Hearing.{heard};
ghost use Rattle.siri_world_model.specs.declared.event.Event.{Event};
ghost use Rattle.siri_world_model.specs.declared.event.Event.TheVariants as event;
ghost use Rattle.siri_world_model.specs.Packets.{ToConsumer, packet_at};
ghost use Rattle.siri_world_model.specs.Told.{refusal, world_after};
ghost use Rattle.siri_world_model.specs.laws.Claims.{CarriesItsRound, ChangesNoView, ShowsNoGap, TakesPart, said, view_told};
ghost use Rattle.siri_world_model.specs.laws.Letters.{moment_in};

/// Each part that was ever sent to a consumer, under the number that it holds, is the part that its mark names of the
/// round that its mark names, with the moment at which that round opened, and with MoreData where a part comes after
/// it; each notification tells of such a round.
pub fn packets_carry_their_rounds()
    ensures { (events : List Event) (number : ℕ) (receiver : Name) (message : Message)
        → packet_at number (world_after events).packets ≡ Some (ToConsumer receiver message)
        → CarriesItsRound (world_after events) receiver (moment_in message) (heard message) }
{}

/// A part that a consumer buffered or applied changes no view when its packet comes again at any later time: it is a
/// repeat, of an old start, or of a subscription that isn't held.
pub fn parts_are_taken_once()
    ensures { (before later : List Event) (number : ℕ) → refusal (world_after before) (event.Deliver number) ≡ None
        → TakesPart (said (world_after before) number)
        → ChangesNoView (said (world_after (before ++ event.Deliver number ∷ later)) number) }
{}

/// A packet that comes changes nothing of what any consumer keeps, unless it brings a part that is buffered or applied:
/// every consumer has the same number and moment, and keeps the same start, round, parts and view of each subscription.
pub fn other_packets_change_nothing()
    ensures { (events : List Event) (number : ℕ) → (TakesPart (said (world_after events) number) → ⊥)
        → (world_after (events ++ event.Deliver number ∷ [])).consumers ≡ (world_after events).consumers }
{}

/// Where the packet of a part that a consumer buffered or applied comes again at any later time, it changes nothing of
/// what any consumer keeps, so no view, and each view is told as before.
pub fn repeated_parts_change_no_view()
    ensures consumers { (before later : List Event) (number : ℕ) → refusal (world_after before) (event.Deliver number) ≡ None
        → TakesPart (said (world_after before) number)
        → (world_after (before ++ event.Deliver number ∷ later ++ event.Deliver number ∷ [])).consumers ≡ (world_after (before ++ event.Deliver number ∷ later)).consumers }
    ensures views { (before later : List Event) (number : ℕ) → refusal (world_after before) (event.Deliver number) ≡ None
        → TakesPart (said (world_after before) number) → (consumer identifier : Name)
        → view_told (world_after (before ++ event.Deliver number ∷ later ++ event.Deliver number ∷ [])) consumer identifier ≡ view_told (world_after (before ++ event.Deliver number ∷ later)) consumer identifier }
{}

/// No packet that was ever sent shows its consumer a gap, or is past the greatest part or round, whenever it comes.
pub fn no_gap_is_shown()
    ensures { (events : List Event) (number : ℕ) → ShowsNoGap (said (world_after events) number) }
{}
