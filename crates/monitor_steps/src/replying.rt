//! Replies to threads that ask something of a monitor.

ghost use Rattle.std.specs.Prelude.{◌≡◌, ◌<◌, ◌≤◌, length, IfOk};
ghost use Rattle.heap_instructions.specs.Operands.{operands};
ghost use Rattle.monitor_steps.specs.Replies.{IsConcluded};

use crate::outcome::MonitorOutcome;
use crate::reply::MonitorReply;
use crate::throwing::throw;
use continuation::Mounted;
use items::NoMemory;
use program_state::{ProgramState, go_on};
use thread_steps::{MachineWorld, PendingRequest};

/// Gives a reply to the thread that asked: what becomes of its step.
pub(crate) fn conclude<W: MachineWorld>(
    world: &W,
    state: &mut ProgramState,
    mounted: &mut Mounted,
    pending: PendingRequest,
    reply: MonitorReply,
) -> Result<MonitorOutcome, NoMemory>
    requires frame { 0 < length mounted.old.stack.frames }
    requires takes { pending.operands ≤ length (operands mounted.old) }
    ensures concluded { IfOk result (λ outcome. IsConcluded (W.world world.now) pending
        mounted.old.thread reply outcome
        state.old mounted.old.stack.frames state.new mounted.new.stack.frames) }
    ensures thread { mounted.new.thread ≡ mounted.old.thread }
{
    mounted.operands_fit();
    let t = mounted.thread();
    match reply {
        MonitorReply::Goes(outcome) => {
            go_on(mounted, pending);
            Ok(outcome)
        }
        MonitorReply::Throws(exception) => {
            throw(world, state, t, exception)?;
            Ok(MonitorOutcome::Done)
        }
        MonitorReply::Waits(outcome) => Ok(outcome),
    }
}
