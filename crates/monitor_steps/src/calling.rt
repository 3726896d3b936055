//! Calls of synchronized methods (JVMS 2.11.10).

ghost use Rattle.std.specs.Prelude.{◌≡◌, ◌<◌, ◌≤◌, length, OnOk};
ghost use Rattle.link_model.specs.World.{World};
ghost use Rattle.vthread_state.specs.declared.phase.Phase.TheVariants.{Run};
ghost use Rattle.heap_instructions.specs.Operands.{operands};
ghost use Rattle.program_state.specs.Monitors.{AreSeated, ListsMove};
ghost use Rattle.program_state.specs.Running.{IsCallPending};
ghost use Rattle.program_state.specs.Steps.{PutsNobody, StepsTo};

use crate::entering::enter_monitor;
use continuation::Mounted;
use invocation::{SynchronizedCall, enter_synchronized};
use items::NoMemory;
use program_state::ProgramState;

/// Calls a synchronized method: its frame begins where the thread has its monitor, and else the thread waits in line at its call.
pub fn make_call(
    state: &mut ProgramState,
    mounted: &mut Mounted,
    call: SynchronizedCall,
) -> Result<(), NoMemory>
    requires frame { 0 < length mounted.old.stack.frames }
    requires given { call.callee.slots ≤ length (operands mounted.old) }
    requires seated { AreSeated state.old.monitors state.old.threads }
    ensures steps { (w : World) → IsCallPending w call state.old.memory mounted.old.stack.frames
        → OnOk result (StepsTo w (PutsNobody mounted.old.thread) Run mounted.old.thread
        state.old mounted.old.stack.frames state.new mounted.new.stack.frames) }
    ensures lists { OnOk result (ListsMove state.old.monitors state.new.monitors) }
    ensures thread { mounted.new.thread ≡ mounted.old.thread }
{
    let t = mounted.thread();
    if enter_monitor(state, t, call.monitor)? {
        enter_synchronized(call, mounted)
    } else {
        Ok(())
    }
}
