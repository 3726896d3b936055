//! A fake clock that gives readings from a list.

ghost use Rattle.std.specs.Prelude.{◌≡◌, ◌<◌, List, ℕ, nat_eq, length, vec_len};
ghost use Rattle.std.specs.List.{list_any};

use crate::clock::Clock;
use crossbeam_utils::CachePadded;
use std::marker::Model;
use std::sync::atomic::{AtomicUsize, Ordering};

/// A clock that gives the readings of a list in turn, and then its last one again and again. Clauses see the
/// clock as that list.
#[derive(Drop)]
pub struct ListClock {
    readings: Vec<u64>,
    index: CachePadded<AtomicUsize>,
}

impl Model for ListClock {
    ghost Value = { List ℕ };

    ghost view = { λ clock. clock.readings.items };

    ghost invariant = { λ clock. 0 < vec_len clock.readings };
}

impl ListClock {
    /// A clock that gives these readings, in nanoseconds.
    pub fn new(readings: Vec<u64>) -> Self
        requires { 0 < vec_len readings }
        ensures { result ≡ readings.items }
    {
        ListClock {
            readings,
            index: CachePadded::new(AtomicUsize::new(0)),
        }
    }

    // The index of the next reading, which is that of the last one from there on.
    fn next_index(&self) -> usize
        ensures { result < length self.now }
    {
        let last = self.readings.len() - 1;
        let moved = self
            .index
            .fetch_update(Ordering::SeqCst, Ordering::SeqCst, |index| {
                if index < last { Some(index + 1) } else { None }
            });
        match moved {
            Ok(index) | Err(index) => index.min(last),
        }
    }
}

impl Clock for ListClock {
    /// The numbers of the list.
    ghost gives = { λ readings reading. list_any (nat_eq reading) readings };

    fn now(&self) -> u64 {
        self.readings[self.next_index()]
    }

    /// Does nothing.
    fn nap(&self, _nanos: u64) {}
}
