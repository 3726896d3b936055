//! Turns of carriers.

ghost use Rattle.std.specs.Prelude.{◌≡◌, ◌≤◌, IfNone, IfSome, IsTrue, None, false, true, is_some};
ghost use Rattle.machine.specs.Machines.{machine_ending};
ghost use Rattle.machine.specs.Clocks.{Awaits, IsBefore};
ghost use Rattle.carrier_turns.specs.Hands.{Fits, HasDone};
ghost use Rattle.carrier_turns.specs.Steps.{IsReached, MayAct};
ghost use Rattle.carrier_turns.specs.Turns.{IsTurn, StepReads};
ghost use Rattle.carrier_turns.specs.declared.ask.Turn.TheVariants.{Over};

use crate::acts::{act, step_on};
use crate::answers::unless_stalled;
use crate::ask::{Ask, Turn};
use crate::hand::Hand;
use machine::Machine;
use std::alloc::Global;

// Lets time go on to this, for which a live thread waits: whether the run goes on.
#[inline(never)]
fn let_time_go_on<'p>(machine: &mut Machine<'p>, hand: &Hand<'p>, carrier: u32, now: u64) -> bool
    requires may { MayAct machine.old carrier hand.now }
    requires spare { 3 ≤ machine.old.spare }
    requires awaits { Awaits machine.old now }
    ensures fits { result ≡ false → Fits machine.new carrier hand.now }
    ensures over { result ≡ false
        → IsTurn machine.old machine.new carrier now hand.now hand.now Over }
    ensures reached { IsTrue result → IsReached machine.old machine.new carrier now 0 }
{
    if machine.clock(carrier, now).is_err() {
        machine.fail();
        return false;
    }
    machine.is_legal();
    if let Turn::Over = unless_stalled(machine, Ask::Nothing) {
        return false;
    }
    true
}

// Lets time go on where a live thread waits for that: the least time at which the turn's step may read the clock. `None`: the run has ended.
#[inline(always)]
fn least_time<'p>(machine: &mut Machine<'p>, hand: &Hand<'p>, carrier: u32, now: u64) -> Option<u64>
    requires may { MayAct machine.old carrier hand.now }
    requires spare { 3 ≤ machine.old.spare }
    ensures fits { IfNone result (Fits machine.new carrier hand.now) }
    ensures over { IfNone result
        (IsTurn machine.old machine.new carrier now hand.now hand.now Over) }
    ensures reached { IfSome result (IsReached machine.old machine.new carrier now) }
{
    if !machine.is_awaited(now) {
        return Some(now);
    }
    if let_time_go_on(machine, hand, carrier, now) {
        Some(0)
    } else {
        None
    }
}

// The turn of a carrier whose thread makes a step that reads the clock: time goes on first.
#[inline(never)]
fn turn_with_clock<'p>(
    alloc: Global,
    machine: &mut Machine<'p>,
    hand: &mut Hand<'p>,
    carrier: u32,
    now: u64,
) -> Turn
    requires may { MayAct machine.old carrier hand.old }
    requires spare { 3 ≤ machine.old.spare }
    requires reads { StepReads machine.old hand.old }
    requires later { IsBefore machine.old now }
    ensures fits { Fits machine.new carrier hand.new }
    ensures turn { IsTurn machine.old machine.new carrier now hand.old hand.new result }
{
    let Some(mounted) = &hand.mounted else {
        return Turn::Over;
    };
    let thread = mounted.thread();
    if machine.clock(carrier, now).is_err() {
        machine.fail();
        return Turn::Over;
    }
    machine.is_legal();
    match step_on(alloc, machine, hand, carrier, thread, now, 0) {
        Some(answer) => answer,
        None => unreachable!(),
    }
}

// A turn with a machine that has no ending, and memory for the turn's entries.
#[inline(always)]
fn turn_at<'p>(
    alloc: Global,
    machine: &mut Machine<'p>,
    hand: &mut Hand<'p>,
    carrier: u32,
    now: u64,
) -> Turn
    requires may { MayAct machine.old carrier hand.old }
    requires spare { 3 ≤ machine.old.spare }
    ensures fits { Fits machine.new carrier hand.new }
    ensures turn { IsTurn machine.old machine.new carrier now hand.old hand.new result }
{
    let Some(least) = least_time(machine, hand, carrier, now) else {
        return Turn::Over;
    };
    machine.is_legal();
    match act(alloc, machine, hand, carrier, now, least) {
        Some(answer) => answer,
        None => turn_with_clock(alloc, machine, hand, carrier, now),
    }
}

// A turn with a machine that has no ending. Where there is no memory the run is given up.
#[inline(always)]
fn turn_on<'p>(
    alloc: Global,
    machine: &mut Machine<'p>,
    hand: &mut Hand<'p>,
    carrier: u32,
    now: u64,
) -> Turn
    requires fits { Fits machine.old carrier hand.old }
    requires done { HasDone hand.old }
    requires going { machine_ending machine.old ≡ None }
    ensures fits { Fits machine.new carrier hand.new }
    ensures turn { IsTurn machine.old machine.new carrier now hand.old hand.new result }
{
    machine.is_legal();
    if hand.failed {
        machine.fail();
        return Turn::Over;
    }
    if machine.room().is_err() {
        machine.fail();
        return Turn::Over;
    }
    machine.is_legal();
    turn_at(alloc, machine, hand, carrier, now)
}

/// A turn of a carrier with the machine, at a time in nanoseconds. Its hand fits, and has done what its last turn asked for. The turn appends
/// entries of this carrier alone: a mount, an unmount, or a step of the mounted thread, with its unmount where it ends; and before them that
/// time goes on, where a live thread waits for that, or the step reads the clock. The answer says what the carrier does until its next turn.
#[inline(always)]
pub fn turn<'p>(
    alloc: Global,
    machine: &mut Machine<'p>,
    hand: &mut Hand<'p>,
    carrier: u32,
    now: u64,
) -> Turn
    requires fits { Fits machine.old carrier hand.old }
    requires done { HasDone hand.old }
    ensures fits { Fits machine.new carrier hand.new }
    ensures turn { IsTurn machine.old machine.new carrier now hand.old hand.new result }
    ensures ended { is_some (machine_ending machine.old) ≡ true → machine.new ≡ machine.old }
{
    if machine.ending().is_some() {
        return Turn::Over;
    }
    turn_on(alloc, machine, hand, carrier, now)
}
