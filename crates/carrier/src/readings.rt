//! Readings of a carrier's clock.

ghost use Rattle.std.specs.Prelude.{IsTrue};

use crate::post::Post;
use carrier_turns::Turn;
use jvm_edges::Clock;
use machine::ReadyProgram;

// How long the first nap takes, in nanoseconds, where a carrier finds nothing to do. Each further one takes twice as long.
const FIRST_NAP: u64 = 50_000;

// How long a nap takes at most, in nanoseconds, of up to four carriers; and of more, for each of them. So however many there are, they don't
// ask for the machine more often than four do.
const LONGEST_NAP: u64 = 1_000_000;

const LONGEST_NAP_EACH: u64 = LONGEST_NAP / 4;

// A reading of the clock may serve for so many turns, where no turn can need a later one.
const MOST_AGE: u32 = 15;

/// How long a nap takes at most of one of so many carriers, in nanoseconds.
pub(crate) fn longest_nap(carriers: usize) -> u64 {
    LONGEST_NAP.max(LONGEST_NAP_EACH.saturating_mul(carriers as u64))
}

/// A reading of the clock, in nanoseconds, for how many turns it has served, and how long the nap before it took, in nanoseconds.
#[derive(Clone, Copy)]
pub(crate) struct Reading {
    pub now: u64,
    age: u32,
    nap: u64,
}

impl Reading {
    /// The clock is read anew, after a nap that took so long.
    #[inline(never)]
    pub fn new<C: Clock>(clock: &C, nap: u64) -> Self
        ensures { IsTrue (C.gives clock.now result.now) }
    {
        Reading {
            now: clock.now(),
            age: 0,
            nap,
        }
    }

    // The one after a nap. A carrier that found nothing to do at an older reading naps only where it finds nothing at a new one.
    #[inline(never)]
    fn after_nap<C: Clock>(self, clock: &C, nanos: Option<u64>, longest: u64) -> Self
        ensures { IsTrue (C.gives clock.now result.now) }
    {
        if self.age > 0 {
            return Reading::new(clock, self.nap);
        }
        let nap = self.nap.saturating_mul(2).max(FIRST_NAP).min(longest);
        clock.nap(match nanos {
            Some(nanos) => nanos.min(nap),
            None => nap,
        });
        Reading::new(clock, nap)
    }

    /// The one for the next round, after one that came to this: a new one.
    pub fn next_round<C: Clock>(self, clock: &C, all: Turn, longest: u64) -> Self
        ensures { IsTrue (C.gives clock.now result.now) }
    {
        match all {
            Turn::Nap(nanos) => self.after_nap(clock, nanos, longest),
            Turn::Run(_) | Turn::Over => Reading::new(clock, 0),
        }
    }

    /// The one for the next turn, after one that answered this: a new one where the turn's step may read the clock, and at the latest after
    /// sixteen turns.
    #[inline(always)]
    pub fn next<C: Clock>(
        self,
        clock: &C,
        program: &ReadyProgram,
        post: &Post<'_>,
        answer: Turn,
    ) -> Self
        requires { IsTrue (C.gives clock.now self.now) }
        ensures { IsTrue (C.gives clock.now result.now) }
    {
        if let Turn::Nap(nanos) = answer {
            return self.after_nap(clock, nanos, post.longest_nap);
        }
        if self.age >= MOST_AGE || post.hand.may_read_clock(program) {
            return Reading::new(clock, 0);
        }
        Reading {
            now: self.now,
            age: self.age + 1,
            nap: 0,
        }
    }
}
