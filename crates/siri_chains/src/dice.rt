//! What is drawn.

ghost use Rattle.std.specs.Prelude.{◌<◌, ◌≤◌, IfSome};

use rand_core::utils::NextWord;
use rand_pcg::Pcg32;

/// Draws that follow from a seed.
#[derive(Drop)]
pub(crate) struct Dice {
    words: Pcg32,
}

impl Dice {
    /// The draws of a seed.
    pub(crate) fn new(seed: u64) -> Dice {
        Dice {
            words: Pcg32::new(seed, 0),
        }
    }

    /// One of the numbers from 0 up to one below this.
    pub(crate) fn draw(&mut self, below: u32) -> u32
        requires { 1 ≤ below }
        ensures { result < below }
    {
        self.words.next_word() % below
    }

    /// The same of a length, or none of length zero.
    pub(crate) fn place(&mut self, length: usize) -> Option<usize>
        ensures { IfSome result (λ place. place < length) }
    {
        if length == 0 {
            return None;
        }
        Some(self.words.next_word() as usize % length)
    }

    /// Whether it happens, which it does once in so many times.
    pub(crate) fn once_in(&mut self, times: u32) -> bool
        requires { 1 ≤ times }
    {
        self.draw(times) == 0
    }
}
