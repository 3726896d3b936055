//! The step of a thread that throws.

ghost use Rattle.std.specs.Prelude.{◌≡◌, IfOk, OnOk};
ghost use Rattle.program_state.specs.Throwing.{IsThrown};

use crate::state::{ProgramState, row_at, settle_throwing};
use crate::world::ThreadWorld;
use continuation::Mounted;
use items::NoMemory;
use std::alloc::Global;
use thread_steps;
use thread_steps::Thrown;
use vthread_state::{Phase, Status};

/// The step of a thread that throws an object (JVMS 2.10, JLS 11.3). Where it leaves a frame that holds a monitor, nothing has changed.
pub fn throwing_step<W: ThreadWorld>(
    alloc: Global,
    world: &W,
    state: &mut ProgramState,
    mounted: &mut Mounted,
    o: u32,
) -> Result<Thrown, NoMemory>
    ensures thrown { IfOk result (λ thrown. IsThrown (W.world world.now) o thrown
        state.old mounted.old state.new mounted.new) }
    ensures monitors { state.new.monitors ≡ state.old.monitors }
    ensures thread { OnOk result (mounted.new.thread ≡ mounted.old.thread) }
{
    if mounted.depth() == 0 {
        return Err(NoMemory);
    }
    let t = mounted.thread();
    let name = row_at(&state.threads, t)?.name;
    let status = state.memory.status;
    state.memory.status = Status::Live(Phase::Throwing(o));
    let thrown = thread_steps::throwing_step(alloc, world, &mut state.memory, mounted, t, name, o)?;
    if mounted.thread() != t {
        return Err(NoMemory);
    }
    match thrown {
        Thrown::Stepped => {
            settle_throwing(state, t, o)?;
            Ok(Thrown::Stepped)
        }
        Thrown::Holds(held) => {
            state.memory.status = status;
            Ok(Thrown::Holds(held))
        }
    }
}
