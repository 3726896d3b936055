//! Replies to what a thread asked: how it goes on.

ghost use Rattle.std.specs.Prelude.{◌≡◌, ◌<◌, ◌≤◌, length, OnOk};
ghost use Rattle.heap_instructions.specs.Operands.{HasTop, operands};
ghost use Rattle.program_state.specs.Replies.{Concludes, GoesOnWith, GoesOnWithout};
ghost use Rattle.program_state.specs.Replying.{IsRaised};

use crate::phases::begin_wait;
use crate::reply::Reply;
use crate::state::{ProgramState, settle_status};
use continuation::Mounted;
use heap_instructions::{Outcome, drop_operands, give};
use instruction_rows::Value;
use items::NoMemory;
use ref_model::Exception;
use thread_steps::{MachineWorld, PendingRequest, raise};

/// The thread goes on at its next instruction.
pub fn go_on(mounted: &mut Mounted, pending: PendingRequest)
    requires top { HasTop mounted.old }
    requires takes { pending.operands ≤ length (operands mounted.old) }
    ensures frames { GoesOnWithout pending mounted.old.stack.frames mounted.new.stack.frames }
    ensures thread { mounted.new.thread ≡ mounted.old.thread }
{
    drop_operands(mounted, pending.operands);
    mounted.set_pc(pending.next);
}

// The same with a value on the operand stack. One that has no room there counts as memory run out.
fn go_on_with(mounted: &mut Mounted, pending: PendingRequest, value: Value) -> Result<(), NoMemory>
    requires top { HasTop mounted.old }
    requires takes { pending.operands ≤ length (operands mounted.old) }
    ensures frames { OnOk result (GoesOnWith pending value mounted.old.stack.frames
        mounted.new.stack.frames) }
    ensures thread { mounted.new.thread ≡ mounted.old.thread }
{
    match give(mounted, pending.operands, value) {
        Outcome::Done => {
            mounted.operands_fit();
            mounted.set_pc(pending.next);
            Ok(())
        }
        _ => Err(NoMemory),
    }
}

/// The thread, which runs, throws a new exception.
pub(crate) fn throw<W: MachineWorld>(
    world: &W,
    state: &mut ProgramState,
    t: u32,
    exception: Exception,
) -> Result<(), NoMemory>
    ensures raised { OnOk result (IsRaised (W.world world.now) exception t state.old state.new) }
    ensures monitors { state.new.monitors ≡ state.old.monitors }
{
    raise(world, &mut state.memory, exception)?;
    settle_status(state, t)
}

/// Gives a reply to the thread that asked.
pub(crate) fn conclude_reply<W: MachineWorld>(
    world: &W,
    state: &mut ProgramState,
    mounted: &mut Mounted,
    pending: PendingRequest,
    reply: Reply,
) -> Result<(), NoMemory>
    requires frame { 0 < length mounted.old.stack.frames }
    requires takes { pending.operands ≤ length (operands mounted.old) }
    ensures concludes { OnOk result (Concludes (W.world world.now) pending mounted.old.thread reply
        state.old mounted.old.stack.frames state.new mounted.new.stack.frames) }
    ensures monitors { state.new.monitors ≡ state.old.monitors }
    ensures thread { mounted.new.thread ≡ mounted.old.thread }
{
    mounted.operands_fit();
    let t = mounted.thread();
    match reply {
        Reply::Goes => {
            go_on(mounted, pending);
            Ok(())
        }
        Reply::Gives(value) => go_on_with(mounted, pending, value),
        Reply::Throws(exception) => throw(world, state, t, exception),
        Reply::Waits(phase) => begin_wait(state, t, phase),
    }
}
