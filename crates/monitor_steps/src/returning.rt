//! Returns from synchronized methods (JVMS 2.11.10).

ghost use Rattle.std.specs.Prelude.{◌≡◌, ◌<◌, length, IfOk, OnOk};
ghost use Rattle.vthread_state.specs.declared.phase.Phase.TheVariants.{Run};
ghost use Rattle.ref_model.specs.Operands.{HasOperands};
ghost use Rattle.heap_instructions.specs.Operands.{operands};
ghost use Rattle.invocation.specs.FrameSteps.{returned_kinds};
ghost use Rattle.program_state.specs.Monitors.{ListsMove};
ghost use Rattle.program_state.specs.Running.{IsReturnPending};
ghost use Rattle.monitor_steps.specs.Frames.{ReturnLeads};
ghost use Rattle.monitor_steps.specs.Outcomes.{IsLeaving};

use crate::outcome::MonitorOutcome;
use crate::owning::leave_once;
use crate::throwing::throw;
use continuation::Mounted;
use items::NoMemory;
use opcodes::ValueKind;
use program_state::{ProgramState, ThreadWorld, settle_status};
use ref_model::Exception;
use thread_steps::{MonitorReturn, return_unlocked};

// The rest of a return whose thread has left the monitor that its frame held.
fn leave_frame<W: ThreadWorld>(
    world: &W,
    state: &mut ProgramState,
    mounted: &mut Mounted,
    kind: Option<ValueKind>,
) -> Result<(), NoMemory>
    requires frame { 0 < length mounted.old.stack.frames }
    requires operands { HasOperands (returned_kinds kind) 0 (operands mounted.old) }
    ensures leads { OnOk result (ReturnLeads (W.world world.now) kind mounted.old.thread
        state.old mounted.old.stack.frames state.new mounted.new.stack.frames) }
    ensures monitors { OnOk result (state.new.monitors ≡ state.old.monitors) }
    ensures thread { OnOk result (mounted.new.thread ≡ mounted.old.thread) }
{
    let t = mounted.thread();
    return_unlocked(world, &mut state.memory, mounted, kind)?;
    if mounted.thread() != t {
        return Err(NoMemory);
    }
    settle_status(state, t)
}

/// A return from the frame of a synchronized method, whose thread leaves its monitor with it. Where it doesn't own that it throws
/// IllegalMonitorStateException, and the frame stays.
pub fn make_return<W: ThreadWorld>(
    world: &W,
    state: &mut ProgramState,
    mounted: &mut Mounted,
    q: MonitorReturn,
) -> Result<MonitorOutcome, NoMemory>
    requires { IsReturnPending (W.world world.now) q mounted.old.stack.frames }
    ensures made { IfOk result (λ outcome. IsLeaving (W.world world.now) outcome Run
        mounted.old.thread state.old mounted.old.stack.frames
        state.new mounted.new.stack.frames) }
    ensures lists { OnOk result (ListsMove state.old.monitors state.new.monitors) }
    ensures thread { OnOk result (mounted.new.thread ≡ mounted.old.thread) }
{
    let t = mounted.thread();
    match leave_once(&mut state.monitors, t, q.monitor)? {
        Some(outcome) => {
            leave_frame(world, state, mounted, q.kind)?;
            Ok(outcome)
        }
        None => {
            throw(world, state, t, Exception::IllegalMonitorStateException)?;
            Ok(MonitorOutcome::Done)
        }
    }
}
