//! What a clock is.

ghost use Rattle.std.specs.Prelude.{ℕ, Bool, IsTrue};

/// A clock that counts nanoseconds. A reading may be less than the one before. No call fails.
pub trait Clock {
    /// Whether the clock may give that number. No call changes which ones it may give.
    ghost gives: { Self → ℕ → Bool };

    /// The time, in nanoseconds.
    fn now(&self) -> u64
        ensures { IsTrue (gives self.now result) };

    /// Waits for about this many nanoseconds.
    fn nap(&self, nanos: u64);
}
