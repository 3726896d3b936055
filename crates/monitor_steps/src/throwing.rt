//! New exceptions of threads that run.

ghost use Rattle.std.specs.Prelude.{◌≡◌, OnOk};
ghost use Rattle.program_state.specs.Replying.{IsRaised};

use items::NoMemory;
use program_state::{ProgramState, settle_status};
use ref_model::Exception;
use thread_steps::{MachineWorld, raise};

/// The thread, which runs, throws a new exception.
pub(crate) fn throw<W: MachineWorld>(
    world: &W,
    state: &mut ProgramState,
    t: u32,
    exception: Exception,
) -> Result<(), NoMemory>
    ensures raised { OnOk result (IsRaised (W.world world.now) exception t state.old state.new) }
    ensures monitors { OnOk result (state.new.monitors ≡ state.old.monitors) }
{
    raise(world, &mut state.memory, exception)?;
    settle_status(state, t)
}
