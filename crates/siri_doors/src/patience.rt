//! Until when a connection is waited for.

ghost use Rattle.std.specs.Prelude.{◌≡◌, ℕ, List, Bool};

/// When a request is whole, by the bytes that came.
pub trait Patience {
    /// Whether no more is waited for.
    ghost whole: { Self → List ℕ → Bool };

    /// Whether no more is waited for, after these bytes.
    fn is_whole(&self, bytes: &[u8]) -> bool
        ensures { result ≡ whole self.now bytes.now };
}
