//! A thread whose instruction asked something goes on at the next one, or in the method that it calls.

ghost use Rattle.std.specs.Prelude.{◌≡◌, ◌≤◌, IsTrue, OnOk, length, ◌&&◌};
ghost use Rattle.heap_instructions.specs.Operands.{HasTop, operands};
ghost use Rattle.ref_model.specs.Asking as asking;
ghost use Rattle.ref_run.specs.GoingOn.{CallsTo, GoesOnWith, GoesOnWithout, HasBegun, LeadsTo};
ghost use Rattle.ref_run.specs.States.{state_of};

use crate::state::RefState;
use continuation::Mounted;
use heap_instructions::{Outcome, drop_operands, give};
use instruction_rows::Value;
use invocation::{SynchronizedCall, enter_synchronized};
use items::NoMemory;
use std::alloc::Global;
use thread_steps::PendingRequest;

// Whether there is a top frame with at least this many operands.
fn has_operands(mounted: &Mounted, count: u16) -> bool
    ensures { IsTrue result → HasTop mounted.now × (count ≤ length (operands mounted.now)) }
{
    if mounted.depth() == 0 {
        return false;
    }
    mounted.operands_fit();
    count <= mounted.top().operands
}

// The top frame goes on. Operands that aren't there count as memory run out.
fn go_on(mounted: &mut Mounted, pending: PendingRequest) -> Result<(), NoMemory>
    ensures { OnOk result (GoesOnWithout pending
        mounted.old.stack.frames mounted.new.stack.frames) }
{
    if !has_operands(mounted, pending.operands) {
        return Err(NoMemory);
    }
    drop_operands(mounted, pending.operands);
    mounted.set_pc(pending.next);
    Ok(())
}

// The same with a value on the operand stack. One that has no room there counts as memory run out.
fn go_on_with(mounted: &mut Mounted, pending: PendingRequest, value: Value) -> Result<(), NoMemory>
    ensures { OnOk result (GoesOnWith pending value
        mounted.old.stack.frames mounted.new.stack.frames) }
{
    if !has_operands(mounted, pending.operands) {
        return Err(NoMemory);
    }
    match give(mounted, pending.operands, value) {
        Outcome::Done => {
            mounted.operands_fit();
            mounted.set_pc(pending.next);
            Ok(())
        }
        _ => Err(NoMemory),
    }
}

// A synchronized method begins, whose monitor its thread has. Arguments that aren't there count as memory run out.
fn begin(mounted: &mut Mounted, call: SynchronizedCall) -> Result<(), NoMemory>
    ensures { OnOk result (HasBegun call mounted.old.stack.frames mounted.new.stack.frames) }
{
    if !has_operands(mounted, call.callee.slots) {
        return Err(NoMemory);
    }
    enter_synchronized(call, mounted)
}

/// Thread t goes on at its next instruction.
pub(crate) fn resume(
    alloc: Global,
    state: &mut RefState,
    t: u32,
    pending: PendingRequest,
) -> Result<(), NoMemory>
    ensures { OnOk result (LeadsTo (λ r a. asking.goes r t a) t pending
        (state_of state.old) (state_of state.new)) }
{
    if t as usize >= state.threads.len() {
        return Err(NoMemory);
    }
    let row = &mut state.threads[t as usize];
    let mut mounted = row.take_frames(alloc);
    go_on(&mut mounted, pending)?;
    row.put_frames(mounted);
    Ok(())
}

/// The same with a value on the operand stack.
pub(crate) fn resume_with(
    alloc: Global,
    state: &mut RefState,
    t: u32,
    pending: PendingRequest,
    value: Value,
) -> Result<(), NoMemory>
    ensures { OnOk result (LeadsTo (λ r a. asking.gives_back r t a value) t pending
        (state_of state.old) (state_of state.new)) }
{
    if t as usize >= state.threads.len() {
        return Err(NoMemory);
    }
    let row = &mut state.threads[t as usize];
    let mut mounted = row.take_frames(alloc);
    go_on_with(&mut mounted, pending, value)?;
    row.put_frames(mounted);
    Ok(())
}

/// Thread t goes into the synchronized method that it calls, and has its monitor.
pub(crate) fn go_into(
    alloc: Global,
    state: &mut RefState,
    t: u32,
    call: SynchronizedCall,
) -> Result<(), NoMemory>
    ensures { OnOk result (CallsTo (λ r a g. asking.goes_into r t a g) t call
        (state_of state.old) (state_of state.new)) }
{
    if t as usize >= state.threads.len() {
        return Err(NoMemory);
    }
    let row = &mut state.threads[t as usize];
    let mut mounted = row.take_frames(alloc);
    begin(&mut mounted, call)?;
    row.put_frames(mounted);
    Ok(())
}
