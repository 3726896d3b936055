//! A fake clock that naps move on.

ghost use Rattle.std.specs.Prelude.{◌≡◌, ℕ, nat_le};

use crate::clock::Clock;
use crossbeam_utils::CachePadded;
use std::marker::Model;
use std::sync::atomic::{AtomicU64, Ordering};

/// A clock that moves on only by naps. It counts the nanoseconds since its first reading, so no reading is less
/// than that one. Clauses see the clock as its first reading.
#[derive(Drop)]
pub struct StepClock {
    first: u64,
    since_first: CachePadded<AtomicU64>,
}

impl Model for StepClock {
    ghost Value = { ℕ };

    ghost view = { λ clock. clock.first };
}

impl StepClock {
    /// A clock whose first reading, in nanoseconds, is `first`.
    pub fn new(first: u64) -> Self
        ensures { result ≡ first }
    {
        StepClock {
            first,
            since_first: CachePadded::new(AtomicU64::new(0)),
        }
    }
}

impl Clock for StepClock {
    /// Each number from the first reading on.
    ghost gives = { λ first reading. nat_le first reading };

    fn now(&self) -> u64 {
        let since_first = self.since_first.load(Ordering::SeqCst);
        self.first.saturating_add(since_first)
    }

    /// Moves the clock on by at least this many nanoseconds from its reading at the call, but not past the greatest
    /// u64.
    fn nap(&self, nanos: u64) {
        let since_first = self.since_first.load(Ordering::SeqCst);
        self.since_first
            .fetch_max(since_first.saturating_add(nanos), Ordering::SeqCst);
    }
}
