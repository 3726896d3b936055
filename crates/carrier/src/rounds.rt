//! Several carriers in one thread.

ghost use Rattle.std.specs.Prelude.{◌≡◌, All, IsTrue, length};
ghost use Rattle.carrier.specs.Posts.{IsPost};
ghost use Rattle.carrier.specs.Shared.{shared_run};

use crate::post::{Post, make_turns};
use crate::readings::{Reading, longest_nap};
use crate::timed_machine::MachineLock;
use carrier_turns::{Ask, Turn};
use jvm_edges::{Clock, Gate};
use machine::ReadyProgram;
use std::alloc::Global;
use std::sync::Wait;

// The shorter of two naps, in nanoseconds; `None` has no end.
fn shorter(a: Option<u64>, b: Option<u64>) -> Option<u64> {
    match (a, b) {
        (Some(a), Some(b)) => Some(a.min(b)),
        (None, b) => b,
        (a, None) => a,
    }
}

// What two turns come to: the run is over where one says so, and there is nothing to do where both nap.
fn both(first: Turn, second: Turn) -> Turn {
    match (first, second) {
        (Turn::Over, _) | (_, Turn::Over) => Turn::Over,
        (Turn::Nap(a), Turn::Nap(b)) => Turn::Nap(shorter(a, b)),
        _ => Turn::Run(Ask::Nothing),
    }
}

// A turn of each carrier, at one reading of the clock: what they come to.
fn round<'p, 'c, R: Wait, C: Clock, G: Gate>(
    rt: &R,
    alloc: Global,
    program: &'p ReadyProgram,
    lock: &MachineLock<'p, 'c, C>,
    posts: &mut [Post<'p>],
    reading: Reading,
    clock: &C,
    gate: &G,
) -> Turn
    requires posts { All (IsPost (shared_run C.gives lock.now)) posts.old }
    requires program { program.now ≡ lock.now.initial.machine.setting.world }
    requires clock { clock.now ≡ lock.now.initial.clock }
    requires given { IsTrue (C.gives clock.now reading.now) }
    ensures posts { All (IsPost (shared_run C.gives lock.now)) posts.new }
    ensures count { length posts.new ≡ length posts.old }
{
    let mut all = Turn::Nap(None);
    for post in posts.iter_mut() {
        let answer = make_turns(rt, alloc, program, lock, post, reading, clock, gate, 1);
        all = both(all, answer);
    }
    all
}

/// Makes rounds, in each a turn of each carrier, until one of them meets the end of the run. Where all find nothing to do, the thread naps by
/// the clock. One carrier alone needs no rounds, and none are made.
pub(crate) fn run_rounds<'p, 'c, R: Wait, C: Clock, G: Gate>(
    rt: &R,
    alloc: Global,
    program: &'p ReadyProgram,
    lock: &MachineLock<'p, 'c, C>,
    posts: &mut [Post<'p>],
    clock: &C,
    gate: &G,
)
    requires posts { All (IsPost (shared_run C.gives lock.now)) posts.old }
    requires program { program.now ≡ lock.now.initial.machine.setting.world }
    requires clock { clock.now ≡ lock.now.initial.clock }
    ensures posts { All (IsPost (shared_run C.gives lock.now)) posts.new }
    ensures count { length posts.new ≡ length posts.old }
{
    if posts.len() < 2 {
        return;
    }
    let longest = longest_nap(posts.len());
    let mut reading = Reading::new(clock, 0);
    for _ in rt.forever() {
        let all = round(rt, alloc, program, lock, posts, reading, clock, gate);
        if all.is_over() {
            return;
        }
        reading = reading.next_round(clock, all, longest);
    }
    unreachable!()
}
