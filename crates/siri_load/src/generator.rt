//! What is drawn.

ghost use Rattle.std.specs.Prelude.{◌≡◌, ◌<◌, ◌≤◌};
ghost use Rattle.siri_load.specs.Generator.{next, drawn};

use std::marker::Model;

/// What the number is multiplied by at a draw, modulo 2^64 (Knuth's MMIX).
const MULTIPLIER: u64 = 6_364_136_223_846_793_005;

/// What is added then, modulo 2^64 (Knuth's MMIX).
const INCREMENT: u64 = 1_442_695_040_888_963_407;

/// A linear congruential generator over 64 bits. Contracts see its number.
#[derive(Debug, Drop)]
pub(crate) struct Generator {
    number: u64,
}

impl Model for Generator {
    ghost use Rattle.std.specs.Prelude.{ℕ};

    ghost Value = { ℕ };

    ghost view = { λ g. g.number };
}

impl Generator {
    /// It begins with this number.
    pub(crate) fn new(seed: u64) -> Generator
        ensures { result ≡ seed }
    {
        Generator { number: seed }
    }

    /// Draws one of the numbers from 0 up to one below this.
    pub(crate) fn draw(&mut self, below: u64) -> u64
        requires { 1 ≤ below }
        ensures number { self.new ≡ next self.old }
        ensures value { result ≡ drawn self.new below }
        ensures bound { result < below }
    {
        self.number = MULTIPLIER.wrapping_mul(self.number).wrapping_add(INCREMENT);
        (self.number >> 33) % below
    }
}
