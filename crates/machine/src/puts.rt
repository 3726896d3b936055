//! Whom a step puts into the deque of its carrier.

ghost use Rattle.std.specs.Prelude.{◌≡◌, ◌<◌, ◌≤◌, ℕ, Bool, false, [], ◌∷◌, Contains, filter, length, true, OnOk};
ghost use Rattle.std.specs.List.Sorted.{IsStrictlyIncreasing};
ghost use Rattle.thread_lists.specs.Lists.{count, push, total};
ghost use Rattle.program_state.specs.Waiting.{has_ended_in, lies_in};
ghost use Rattle.ref_model.specs.State.{State};
ghost use Rattle.program_state.specs.States.{IsState};
ghost use Rattle.machine.specs.Puts.{HasAlso, HasFirst, HasPut, IsBelow, IsPutAtEnd, IsTouched, if_nowhere, is_nowhere as is_nowhere_in, is_quiet as is_quiet_in, is_to_go};
ghost use Rattle.machine.specs.declared.made.Others.TheVariants as moves;

use crate::carriers::{put_if, put_loose};
use crate::endings::may_step;
use crate::made::Others;
use continuation::Frozen;
use items::NoMemory;
use program_state::{ProgramState, ending, woken_by_end};
use run_deques::Deques;
use std::alloc::Global;
use vthread_state::{Status, ThreadTable};

/// Whether a thread has ended.
#[inline(always)]
pub(crate) fn is_done(threads: &ThreadTable, t: u32) -> bool
    requires { t < length threads.now.threads }
    ensures { result ≡ has_ended_in threads.now t }
{
    matches!(threads.row(t).status, Status::Done)
}

// Whether the frames of a thread lie with those that no carrier runs.
fn lies(frozen: &Vec<Option<Frozen>>, u: u32) -> bool
    ensures { result ≡ lies_in frozen.now.items u }
{
    match frozen.get(u as usize) {
        Some(Some(_)) => true,
        _ => false,
    }
}

// Whether a thread is neither mounted nor in a deque.
fn is_nowhere(state: &ProgramState, deques: &Deques, u: u32) -> bool
    ensures { result ≡ is_nowhere_in state.now deques.now.lists u }
{
    lies(&state.frozen, u) && !deques.holds(u)
}

// Puts a thread that is neither mounted nor in a deque and may step.
fn put_if_to_go(state: &ProgramState, deques: &mut Deques, c: u32, t: u32)
    requires thread { t < length state.now.threads.threads }
    requires carrier { c < length deques.old.lists }
    requires room { t < deques.old.threads }
    ensures lists { (r : State) (out : ℕ → Bool) → IsState state.now r out → deques.new.lists
        ≡ push deques.old.lists c (filter (is_to_go state.now r deques.old.lists) (t ∷ [])) }
    ensures carriers { length deques.new.lists ≡ length deques.old.lists }
    ensures room { deques.new.threads ≡ deques.old.threads }
{
    let lies = lies(&state.frozen, t);
    let goes = may_step(state, t);
    let loose = !deques.holds(t);
    put_if(deques, c, t, (lies & goes) & loose);
}

/// Puts those of some threads that are neither mounted nor in a deque, and may step, into that of a carrier, in this order.
pub(crate) fn put_due(state: &ProgramState, deques: &mut Deques, c: u32, threads: &[u32])
    requires carrier { c < length deques.old.lists }
    requires below { (u : ℕ) → Contains threads.now u → u < length state.now.threads.threads }
    requires room { (u : ℕ) → Contains threads.now u → u < deques.old.threads }
    requires once { (u : ℕ) → count u threads.now ≤ 1 }
    ensures lists { (r : State) (out : ℕ → Bool) → IsState state.now r out → deques.new.lists
        ≡ push deques.old.lists c (filter (is_to_go state.now r deques.old.lists) threads.now) }
    ensures room { deques.new.threads ≡ deques.old.threads }
{
    for t in threads {
        put_if_to_go(state, deques, c, *t);
    }
}

// Puts a thread that got a permit or an interrupt, if it is nowhere and may step. A program that ended with that counts as memory run out.
fn put_roused(
    state: &ProgramState,
    deques: &mut Deques,
    c: u32,
    t: u32,
    u: u32,
) -> Result<(), NoMemory>
    requires thread { u < length state.now.threads.threads }
    requires goes { has_ended_in state.now.threads t ≡ false }
    requires carrier { c < length deques.old.lists }
    requires room { length state.now.threads.threads ≤ deques.old.threads }
    ensures put { OnOk result
        (HasPut state.now t (moves.Wakes u) c deques.old.lists deques.new.lists) }
    ensures room { OnOk result (deques.new.threads ≡ deques.old.threads) }
{
    if ending(state).is_some() {
        return Err(NoMemory);
    }
    let nowhere = is_nowhere(state, deques, u);
    let goes = may_step(state, u);
    put_if(deques, c, u, nowhere & goes);
    Ok(())
}

// Puts the first thread in line for a monitor that has no owner now, if there is one and it is neither mounted nor in a deque.
fn put_first(state: &ProgramState, deques: &mut Deques, c: u32, first: Option<u32>)
    requires below { IsBelow first (length state.now.threads.threads) }
    requires carrier { c < length deques.old.lists }
    requires room { length state.now.threads.threads ≤ deques.old.threads }
    ensures lists { deques.new.lists
        ≡ push deques.old.lists c (if_nowhere state.now deques.old.lists first) }
    ensures room { deques.new.threads ≡ deques.old.threads }
{
    if let Some(u) = first {
        let nowhere = is_nowhere(state, deques, u);
        put_if(deques, c, u, nowhere);
    }
}

// A number comes to its place in a rising list, unless it is there.
fn add_number(numbers: &mut Vec<u32>, number: u32) -> Result<(), NoMemory>
    requires { IsStrictlyIncreasing numbers.old.items }
    ensures { OnOk result (HasAlso number numbers.old.items numbers.new.items) }
{
    if let Err(at) = numbers.binary_search(&number) {
        if numbers.insert(at, number).is_err() {
            return Err(NoMemory);
        }
    }
    Ok(())
}

// The first in line for a monitor comes to those that the end of a thread lets go on, unless it is mounted.
fn add_first(
    threads: &mut Vec<u32>,
    state: &ProgramState,
    first: Option<u32>,
) -> Result<(), NoMemory>
    requires { IsStrictlyIncreasing threads.old.items }
    ensures { OnOk result (HasFirst state.now first threads.old.items threads.new.items) }
{
    match first {
        Some(u) => {
            if lies(&state.frozen, u) {
                add_number(threads, u)?;
            }
            Ok(())
        }
        None => Ok(()),
    }
}

// Puts whom the end of a thread lets go on: the first in line for a monitor that it left, if there is one, and while the program goes on those
// that wait for the end.
fn put_at_end(
    alloc: Global,
    state: &ProgramState,
    deques: &mut Deques,
    c: u32,
    t: u32,
    first: Option<u32>,
) -> Result<(), NoMemory>
    requires thread { t < length state.now.threads.threads }
    requires done { has_ended_in state.now.threads t ≡ true }
    requires below { IsBelow first (length state.now.threads.threads) }
    requires carrier { c < length deques.old.lists }
    requires room { length state.now.threads.threads ≤ deques.old.threads }
    ensures put { OnOk result (IsPutAtEnd state.now t first c deques.old.lists deques.new.lists) }
    ensures room { OnOk result (deques.new.threads ≡ deques.old.threads) }
{
    if ending(state).is_some() {
        put_first(state, deques, c, first);
        return Ok(());
    }
    let mut woken = woken_by_end(alloc, state, t)?;
    add_first(&mut woken, state, first)?;
    put_loose(deques, c, woken.as_slice());
    Ok(())
}

// Puts whom a step puts with which its thread ended. A thread that does something else to others and ends in one step counts as memory run out.
fn put_by_end(
    alloc: Global,
    state: &ProgramState,
    deques: &mut Deques,
    c: u32,
    t: u32,
    others: Others,
) -> Result<(), NoMemory>
    requires thread { t < length state.now.threads.threads }
    requires touched { IsTouched others (length state.now.threads.threads) }
    requires done { has_ended_in state.now.threads t ≡ true }
    requires carrier { c < length deques.old.lists }
    requires room { length state.now.threads.threads ≤ deques.old.threads }
    ensures put { OnOk result
        (HasPut state.now t others c deques.old.lists deques.new.lists) }
    ensures room { OnOk result (deques.new.threads ≡ deques.old.threads) }
{
    match others {
        Others::Stay => put_at_end(alloc, state, deques, c, t, None),
        Others::Frees(first) => put_at_end(alloc, state, deques, c, t, first),
        _ => Err(NoMemory),
    }
}

// Whether a step lets nobody go on.
fn is_quiet(others: Others) -> bool
    ensures { result ≡ is_quiet_in others }
{
    match others {
        Others::Stay | Others::Quiet | Others::Notifies(_) => true,
        Others::Starts(_) | Others::Wakes(_) | Others::Frees(_) => false,
    }
}

// Puts whom a step puts after which its thread goes on.
#[inline(always)]
fn put_by_step(
    state: &ProgramState,
    deques: &mut Deques,
    c: u32,
    t: u32,
    others: Others,
) -> Result<(), NoMemory>
    requires touched { IsTouched others (length state.now.threads.threads) }
    requires goes { has_ended_in state.now.threads t ≡ false }
    requires carrier { c < length deques.old.lists }
    requires room { length state.now.threads.threads ≤ deques.old.threads }
    requires free { (u : ℕ) → others ≡ moves.Starts u → total (count u) deques.old.lists ≡ 0 }
    ensures put { OnOk result
        (HasPut state.now t others c deques.old.lists deques.new.lists) }
    ensures room { OnOk result (deques.new.threads ≡ deques.old.threads) }
{
    if is_quiet(others) {
        return Ok(());
    }
    match others {
        Others::Starts(u) => {
            deques.put(c, u);
            Ok(())
        }
        Others::Wakes(u) => put_roused(state, deques, c, t, u),
        Others::Frees(first) => {
            put_first(state, deques, c, first);
            Ok(())
        }
        _ => Err(NoMemory),
    }
}

/// Puts whom a step of a thread puts into the deque of its carrier: the thread that it started, the one that it gave a permit or an
/// interrupt, the first in line for a monitor that it left, or those that waited for its end. There is room for each thread then.
pub(crate) fn put_woken(
    alloc: Global,
    state: &ProgramState,
    deques: &mut Deques,
    c: u32,
    t: u32,
    others: Others,
) -> Result<(), NoMemory>
    requires thread { t < length state.now.threads.threads }
    requires touched { IsTouched others (length state.now.threads.threads) }
    requires carrier { c < length deques.old.lists }
    requires free { (u : ℕ) → others ≡ moves.Starts u → total (count u) deques.old.lists ≡ 0 }
    ensures put { OnOk result
        (HasPut state.now t others c deques.old.lists deques.new.lists) }
    ensures room { OnOk result (length state.now.threads.threads ≤ deques.new.threads) }
{
    deques.room(state.threads.count())?;
    if is_done(&state.threads, t) {
        return put_by_end(alloc, state, deques, c, t, others);
    }
    put_by_step(state, deques, c, t, others)
}
