//! When connections are hung up: each function has a law for its clause, and does nothing when it is called.

ghost use Rattle.std.specs.Prelude.{List, ℕ};
ghost use Rattle.siri_http.specs.Requests.{Meaning};
ghost use Rattle.siri_model.specs.History.{History};
ghost use Rattle.siri_view.specs.Consuming.{Consuming};
ghost use Rattle.siri_ends.specs.At.{At};
ghost use Rattle.siri_ends.specs.Consuming.{ConsumesOne};
ghost use Rattle.siri_ends.specs.HangingUp.{HangsUpInTurn};
ghost use Rattle.siri_ends.specs.Serving.{ServesOne};

/// In a turn of a producer the connection that is answered is hung up before another is dialled, and each of these before
/// the next one.
pub fn a_producer_hangs_up_before_it_dials()
    ensures { (asks : Meaning) (name : List ℕ) (at end : At History) → ServesOne asks name at end → HangsUpInTurn at end }
{}

/// So it is in a turn of a consumer.
pub fn a_consumer_hangs_up_before_it_dials()
    ensures { (host path : List ℕ) (at end : At Consuming) → ConsumesOne host path at end → HangsUpInTurn at end }
{}
