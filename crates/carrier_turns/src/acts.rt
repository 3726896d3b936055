//! What a carrier does in its turn, by what its hand holds.

ghost use Rattle.std.specs.Prelude.{◌≡◌, ℕ, IfNone, IfSome, None, false, true};
ghost use Rattle.carrier_turns.specs.Acts.{IsAct};
ghost use Rattle.carrier_turns.specs.Hands.{Fits, HasThread};
ghost use Rattle.carrier_turns.specs.Steps.{HasJustGone, MayAct, MayGoOn, NeedsClock, is_runs};
ghost use Rattle.carrier_turns.specs.Turns.{HoldsFrozen, HoldsNothing, MayNotStep, ReadsInTime, wants_nothing};

use crate::answers::{
    asked, give_up, nap_length, nap_unless_stalled, run_on, unless_over, unless_stalled, way_on,
};
use crate::ask::{Ask, Turn};
use crate::hand::Hand;
use crate::mounted_steps::{is_off, is_pinned, make_step, may_go_on};
use machine::{After, Machine};
use std::alloc::Global;

// Whether a thread goes on after its step, and runs.
#[inline(always)]
fn runs_on(after: After) -> bool
    ensures { result ≡ is_runs after }
{
    matches!(after, After::Runs)
}

// What a turn answers after any other step of its thread.
#[inline(never)]
fn answer_to<'p>(
    machine: &mut Machine<'p>,
    hand: &mut Hand<'p>,
    carrier: u32,
    thread: u32,
    now: u64,
    after: After,
) -> Turn
    requires other { is_runs after ≡ false }
    requires gone { HasJustGone after machine.old carrier thread hand.old }
    ensures fits { Fits machine.new carrier hand.new }
    ensures act { (x : HasJustGone after machine.old carrier thread hand.old)
        → IsAct x.old machine.new carrier now x.held hand.new result }
    ensures in_time { (x : HasJustGone after machine.old carrier thread hand.old)
        → wants_nothing machine.new.told ≡ true → ReadsInTime x.old x.held x.least }
{
    machine.is_legal();
    match after {
        After::Goes => {
            let answer = way_on(machine, thread);
            hand.asked = asked(answer);
            answer
        }
        After::Runs => unreachable!(),
        After::Leaves => {
            let answer = unless_stalled(machine, Ask::Freeze);
            hand.asked = asked(answer);
            answer
        }
        After::Waits => nap_unless_stalled(machine, now),
        After::Ends => {
            machine.retire(carrier, thread);
            machine.is_legal();
            hand.mounted = None;
            unless_stalled(machine, Ask::Nothing)
        }
        After::Halts | After::ReadsClock => {
            hand.failed = true;
            Turn::Over
        }
    }
}

/// The step of the mounted thread, which may make it. `None`: it reads the clock, the time is less than `least`, and nothing was done.
#[inline(always)]
pub(crate) fn step_on<'p>(
    alloc: Global,
    machine: &mut Machine<'p>,
    hand: &mut Hand<'p>,
    carrier: u32,
    thread: u32,
    now: u64,
    least: u64,
) -> Option<Turn>
    requires may { MayGoOn machine.old carrier hand.old thread }
    ensures fits { IfSome result (λ answer. Fits machine.new carrier hand.new) }
    ensures act { IfSome result (λ answer.
        IsAct machine.old machine.new carrier now hand.old hand.new answer) }
    ensures in_time { IfSome result (λ answer.
        wants_nothing machine.new.told ≡ true → ReadsInTime machine.old hand.old least) }
    ensures none { IfNone result (NeedsClock machine.old machine.new hand.old hand.new least) }
{
    let after = make_step(alloc, machine, hand, carrier, thread, least)?;
    machine.is_legal();
    if runs_on(after) {
        return Some(run_on(machine, &mut hand.asked, thread));
    }
    Some(answer_to(machine, hand, carrier, thread, now, after))
}

// The turn of a carrier whose thread can't step: the carrier naps with a pinned one, and any other is to be frozen.
#[inline(never)]
fn pause<'p>(
    machine: &Machine<'p>,
    hand: &mut Hand<'p>,
    carrier: u32,
    thread: u32,
    now: u64,
) -> Turn
    requires may { MayAct machine.now carrier hand.old }
    requires mounted { HasThread hand.old thread }
    requires off { MayNotStep machine.now thread }
    ensures fits { Fits machine.now carrier hand.new }
    ensures act { IsAct machine.now machine.now carrier now hand.old hand.new result }
{
    if is_pinned(machine, hand, carrier, thread) {
        return Turn::Nap(nap_length(machine, now));
    }
    hand.asked = Ask::Freeze;
    Turn::Run(Ask::Freeze)
}

// The turn of a carrier that has a thread mounted. The thread makes a step, if it is enabled.
#[inline(always)]
fn go_on<'p>(
    alloc: Global,
    machine: &mut Machine<'p>,
    hand: &mut Hand<'p>,
    carrier: u32,
    thread: u32,
    now: u64,
    least: u64,
) -> Option<Turn>
    requires may { MayAct machine.old carrier hand.old }
    requires mounted { HasThread hand.old thread }
    ensures fits { IfSome result (λ answer. Fits machine.new carrier hand.new) }
    ensures act { IfSome result (λ answer.
        IsAct machine.old machine.new carrier now hand.old hand.new answer) }
    ensures in_time { IfSome result (λ answer.
        wants_nothing machine.new.told ≡ true → ReadsInTime machine.old hand.old least) }
    ensures none { IfNone result (NeedsClock machine.old machine.new hand.old hand.new least) }
{
    if is_off(machine, hand, carrier, thread) {
        return Some(pause(machine, hand, carrier, thread, now));
    }
    may_go_on(machine, hand, carrier, thread);
    step_on(alloc, machine, hand, carrier, thread, now, least)
}

// The turn of a carrier that has frozen its thread: it puts the thread down.
fn put_down<'p>(machine: &mut Machine<'p>, hand: &mut Hand<'p>, carrier: u32) -> Turn
    requires may { MayAct machine.old carrier hand.old }
    requires frozen { HoldsFrozen hand.old }
    ensures fits { Fits machine.new carrier hand.new }
    ensures act { (now : ℕ) →
        IsAct machine.old machine.new carrier now hand.old hand.new result }
{
    let Some(frozen) = hand.frozen.take() else {
        return Turn::Over;
    };
    machine.settle(carrier, frozen);
    machine.is_legal();
    unless_over(machine, Ask::Nothing)
}

// The turn of a carrier that has no thread: it takes one up, if there is one in a deque.
fn take_up<'p>(machine: &mut Machine<'p>, hand: &mut Hand<'p>, carrier: u32, now: u64) -> Turn
    requires may { MayAct machine.old carrier hand.old }
    requires nothing { HoldsNothing hand.old }
    ensures fits { Fits machine.new carrier hand.new }
    ensures act { IsAct machine.old machine.new carrier now hand.old hand.new result }
{
    let Some(frozen) = machine.next(carrier) else {
        return Turn::Nap(nap_length(machine, now));
    };
    machine.is_legal();
    let thread = frozen.thread();
    let Ok(mounted) = frozen.mount() else {
        hand.failed = true;
        give_up(machine);
        return Turn::Over;
    };
    hand.mounted = Some(mounted);
    let answer = way_on(machine, thread);
    hand.asked = asked(answer);
    answer
}

// The thread that a hand has mounted.
#[inline(always)]
fn mounted_thread(hand: &Hand<'_>) -> Option<u32>
    ensures some { IfSome result (λ thread. HasThread hand.now thread) }
    ensures none { IfNone result (hand.now.mounted ≡ None) }
{
    match &hand.mounted {
        Some(mounted) => Some(mounted.thread()),
        None => None,
    }
}

/// The turn of a carrier with a machine that has no ending, and memory for the turn's entries, time aside. `None`: the step of its thread reads
/// the clock, the time is less than `least`, and nothing was done.
#[inline(always)]
pub(crate) fn act<'p>(
    alloc: Global,
    machine: &mut Machine<'p>,
    hand: &mut Hand<'p>,
    carrier: u32,
    now: u64,
    least: u64,
) -> Option<Turn>
    requires { MayAct machine.old carrier hand.old }
    ensures fits { IfSome result (λ answer. Fits machine.new carrier hand.new) }
    ensures act { IfSome result (λ answer.
        IsAct machine.old machine.new carrier now hand.old hand.new answer) }
    ensures in_time { IfSome result (λ answer.
        wants_nothing machine.new.told ≡ true → ReadsInTime machine.old hand.old least) }
    ensures none { IfNone result (NeedsClock machine.old machine.new hand.old hand.new least) }
{
    if let Some(thread) = mounted_thread(hand) {
        return go_on(alloc, machine, hand, carrier, thread, now, least);
    }
    if hand.frozen.is_some() {
        return Some(put_down(machine, hand, carrier));
    }
    Some(take_up(machine, hand, carrier, now))
}
