//! A clock over that of the system.

ghost use Rattle.std.specs.Prelude.{◌≡◌, true};
ghost use Rattle.std.specs.Duration.{as_nanos};
ghost use Rattle.jvm_edges.specs.Nanos.{clock_nanos, nap_nanos};

use crate::clock::Clock;
use std::marker::Model;
use std::time::{Duration, Instant};
use std::{rt, thread};

/// How long a nap of no length takes, in nanoseconds.
const SHORT_NAP: u64 = 50_000;

/// The clock of the system, in nanoseconds since `new` was called. It gives 0 where the system's clock fails. Clauses see it as the
/// runtime whose clock it reads.
#[derive(Drop)]
pub struct RealClock<'a, R: rt::Clock> {
    rt: &'a R,
    start: Option<Instant>,
}

impl<'a, R: rt::Clock> Model for RealClock<'a, R> {
    ghost Value = { R };

    ghost view = { λ clock. clock.rt.now };
}

// The nanoseconds of a time, at most the greatest u64.
fn clock_nanos(elapsed: Duration) -> u64
    ensures { result ≡ clock_nanos (as_nanos elapsed) }
{
    u64::try_from(elapsed.as_nanos()).unwrap_or(u64::MAX)
}

// How long a nap takes, in nanoseconds.
fn nap_length(nanos: u64) -> Duration
    ensures { as_nanos result ≡ nap_nanos SHORT_NAP nanos }
{
    Duration::from_nanos(if nanos == 0 { SHORT_NAP } else { nanos })
}

impl<'a, R: rt::Clock> RealClock<'a, R> {
    /// A clock that counts from now on by the clock of this runtime.
    pub fn new(rt: &'a R) -> Self
        ensures { result ≡ rt.now }
    {
        RealClock {
            rt,
            start: Instant::now(rt).ok(),
        }
    }

    // The time since `new` was called, where the system gives it.
    fn elapsed(&self) -> Option<Duration> {
        self.start?.elapsed(self.rt).ok()
    }
}

impl<'a, R: rt::Clock> Clock for RealClock<'a, R> {
    /// Any number.
    ghost gives = { λ _ _. true };

    fn now(&self) -> u64 {
        clock_nanos(self.elapsed().unwrap_or(Duration::ZERO))
    }

    fn nap(&self, nanos: u64) {
        thread::sleep(self.rt, nap_length(nanos));
    }
}
