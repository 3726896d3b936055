//! What a carrier has outside the machine's lock, and its turns.

ghost use Rattle.std.specs.Prelude.{◌≡◌, ◌<◌, IfOk, IsTrue, Some, false, true, is_some};
ghost use Rattle.carrier_turns.specs.Turns as answers;
ghost use Rattle.carrier.specs.Posts.{HasMetEnding, HasTurned, IsBeginning, IsNewSeat, IsPost, Knows};
ghost use Rattle.carrier.specs.Shared.{shared_run};

use crate::readings::Reading;
use crate::timed_machine::MachineLock;
use carrier_turns::{Ask, Hand, Turn, do_asked};
use items::NoMemory;
use jvm_edges::{Clock, Gate};
use machine::ReadyProgram;
use ref_model::Ending;
use std::alloc::Global;
use std::sync::Wait;
use turn_lock::Seat;

// How many turns a carrier makes in one loop that counts them, which costs less at each turn than a loop that may not end.
const MANY: u32 = 1 << 20;

/// What a carrier has outside the machine's lock: its seat, its hand, the ending of the run, once it has met it, and how long a nap of it takes
/// at most, in nanoseconds. `IsPost` says when it is that of a carrier of the lock's machine.
#[derive(Drop)]
pub struct Post<'p> {
    pub seat: Seat,
    pub hand: Hand<'p>,
    pub met: Option<Ending>,
    pub longest_nap: u64,
}

// Waits for the turn, makes a turn of the seat's carrier with the machine, at a time in nanoseconds, and gives the machine back. Besides the
// answer, it is how the run has ended, if it has.
#[inline(always)]
fn turn_in_lock<'p, 'c, R: Wait, C: Clock>(
    rt: &R,
    alloc: Global,
    lock: &MachineLock<'p, 'c, C>,
    seat: &mut Seat,
    hand: &mut Hand<'p>,
    now: u64,
) -> (Turn, Option<Ending>)
    requires lock { seat.old.lock ≡ lock.now.id }
    requires idle { seat.old.holds ≡ false }
    requires knows { Knows lock.now.initial.machine seat.old.number seat.old.seen hand.old }
    requires given { IsTrue (C.gives lock.now.initial.clock now) }
    ensures lock { seat.new.lock ≡ seat.old.lock }
    ensures number { seat.new.number ≡ seat.old.number }
    ensures idle { seat.new.holds ≡ false }
    ensures turned { HasTurned (shared_run C.gives lock.now) seat.new.number seat.new.seen
        hand.new result.0 }
    ensures met { (e : _) → result.1 ≡ Some e
        → HasMetEnding (shared_run C.gives lock.now) seat.new.seen e }
    ensures over { answers.is_over result.0 ≡ is_some result.1 }
{
    let carrier = seat.number();
    let mut held = lock.take(rt, seat);
    let answer = held.value.turn(alloc, hand, carrier, now);
    held.value.is_legal();
    let met = held.value.ending_after(answer);
    let makes_way = held.value.makes_way(carrier, answer);
    lock.give(seat, held);
    seat.give_way(makes_way);
    (answer, met)
}

impl<'p> Post<'p> {
    /// What a carrier has with this seat, when the run begins: its hand holds nothing.
    pub fn new<C: Clock>(
        alloc: Global,
        lock: &MachineLock<'p, '_, C>,
        seat: Seat,
        longest_nap: u64,
    ) -> Result<Self, NoMemory>
        requires begins { IsBeginning lock.now.initial.machine }
        requires seat { IsNewSeat lock.now.id lock.now.initial.machine.carriers seat }
        ensures { IfOk result (IsPost (shared_run C.gives lock.now)) }
    {
        let hand = Hand::new(alloc)?;
        Ok(Post {
            seat,
            hand,
            met: None,
            longest_nap,
        })
    }

    /// A turn with the machine, at a time in nanoseconds that the clock gives, and then what it asks for, while others have their turns. Once
    /// the run has ended nothing more is done.
    #[inline(always)]
    pub fn turn<'c, R: Wait, C: Clock, G: Gate>(
        &mut self,
        rt: &R,
        alloc: Global,
        program: &'p ReadyProgram,
        lock: &MachineLock<'p, 'c, C>,
        now: u64,
        gate: &G,
    ) -> Turn
        requires post { IsPost (shared_run C.gives lock.now) self.old }
        requires program { program.now ≡ lock.now.initial.machine.setting.world }
        requires given { IsTrue (C.gives lock.now.initial.clock now) }
        ensures post { IsPost (shared_run C.gives lock.now) self.new }
        ensures number { self.new.seat.number ≡ self.old.seat.number }
        ensures over { answers.is_over result ≡ is_some self.new.met }
    {
        if self.met.is_some() {
            return Turn::Over;
        }
        let (answer, met) = turn_in_lock(rt, alloc, lock, &mut self.seat, &mut self.hand, now);
        let carrier = self.seat.number();
        do_asked(program, &mut self.hand, carrier, answer, gate);
        self.met = met;
        answer
    }
}

/// Makes turns of a carrier, at most so many, and fewer where the run ends: what the last one answered. Between them the carrier executes local
/// instructions, freezes or naps, without the lock. All turns are made here, so that a turn is part of the loop.
#[inline(never)]
pub(crate) fn make_turns<'p, 'c, R: Wait, C: Clock, G: Gate>(
    rt: &R,
    alloc: Global,
    program: &'p ReadyProgram,
    lock: &MachineLock<'p, 'c, C>,
    post: &mut Post<'p>,
    mut reading: Reading,
    clock: &C,
    gate: &G,
    turns: u32,
) -> Turn
    requires post { IsPost (shared_run C.gives lock.now) post.old }
    requires program { program.now ≡ lock.now.initial.machine.setting.world }
    requires clock { clock.now ≡ lock.now.initial.clock }
    requires given { IsTrue (C.gives clock.now reading.now) }
    ensures post { IsPost (shared_run C.gives lock.now) post.new }
    ensures number { post.new.seat.number ≡ post.old.seat.number }
    ensures over { answers.is_over result ≡ true → is_some post.new.met ≡ true }
{
    let mut answer = Turn::Run(Ask::Nothing);
    for _ in 0..turns {
        reading = reading.next(clock, program, post, answer);
        answer = post.turn(rt, alloc, program, lock, reading.now, gate);
        if answer.is_over() {
            return answer;
        }
    }
    answer
}

/// Makes turns of a carrier until the run has ended, at times of the clock.
pub fn run_carrier<'p, 'c, R: Wait, C: Clock, G: Gate>(
    rt: &R,
    alloc: Global,
    program: &'p ReadyProgram,
    lock: &MachineLock<'p, 'c, C>,
    post: &mut Post<'p>,
    clock: &C,
    gate: &G,
)
    requires post { IsPost (shared_run C.gives lock.now) post.old }
    requires program { program.now ≡ lock.now.initial.machine.setting.world }
    requires clock { clock.now ≡ lock.now.initial.clock }
    ensures post { IsPost (shared_run C.gives lock.now) post.new }
    ensures number { post.new.seat.number ≡ post.old.seat.number }
    ensures over { is_some post.new.met ≡ true }
{
    for _ in rt.forever() {
        let reading = Reading::new(clock, 0);
        let answer = make_turns(rt, alloc, program, lock, post, reading, clock, gate, MANY);
        if answer.is_over() {
            return;
        }
    }
    unreachable!()
}
