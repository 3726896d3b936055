//! The step of a thread that runs, by the instruction at hand.

ghost use Rattle.std.specs.Prelude.{◌≡◌, ◌<◌, length, IfOk, IsTrue, OnOk};
ghost use Rattle.instruction_rows.specs.Table.{row};
ghost use Rattle.ref_model.specs.Operands.{FindsOperands};
ghost use Rattle.heap_instructions.specs.Operands.{operands};
ghost use Rattle.invocation.specs.InvocationCache.{AreSelected};
ghost use Rattle.thread_steps.specs.Operands.{FindsNatives};
ghost use Rattle.thread_steps.specs.declared.progress.Progress.TheVariants.{Stepped};
ghost use Rattle.program_state.specs.Running.{IsProgress, StandsAt};

use crate::state::{ProgramState, settle_running};
use crate::world::ThreadWorld;
use continuation::Mounted;
use invocation::InvocationCache;
use items::NoMemory;
use link_model::Resolution;
use opcodes::Instr;
use std::alloc::Global;
use thread_steps::{Progress, instruction_step};

/// The step of a thread that runs, whose top frame is at this instruction, which isn't one that stays in its frame. What it asks is written to
/// `progress`. Where the answer is true, the table of threads is as it was.
#[inline(always)]
pub fn run_step<W: ThreadWorld>(
    alloc: Global,
    world: &W,
    cache: &mut InvocationCache,
    state: &mut ProgramState,
    mounted: &mut Mounted,
    progress: &mut Progress,
    instr: &Instr,
    resolution: &Resolution,
) -> Result<bool, NoMemory>
    requires nothing { progress.old ≡ Stepped }
    requires frame { 0 < length mounted.old.stack.frames }
    requires at { StandsAt (W.world world.now)
        (record { instr = instr.now; resolution = resolution.now }) mounted.old.stack.frames }
    requires operands { FindsOperands (W.world world.now) resolution.now (row instr.now.op)
        (operands mounted.old) }
    requires natives { FindsNatives (W.world world.now) resolution.now (row instr.now.op)
        state.old.memory.natives.heap mounted.old }
    requires selected { AreSelected (W.world world.now) cache.old }
    ensures progress { OnOk result (IsProgress (W.world world.now) progress.new
        state.old mounted.old state.new mounted.new) }
    ensures same { IfOk result (λ same. IsTrue same → state.new.threads ≡ state.old.threads) }
    ensures monitors { state.new.monitors ≡ state.old.monitors }
    ensures thread { OnOk result (mounted.new.thread ≡ mounted.old.thread) }
    ensures cache { AreSelected (W.world world.now) cache.new }
{
    let t = mounted.thread();
    instruction_step(
        alloc,
        world,
        cache,
        &mut state.memory,
        mounted,
        progress,
        instr,
        resolution,
    )?;
    if mounted.thread() != t {
        return Err(NoMemory);
    }
    match progress {
        Progress::Stepped => settle_running(state, t),
        _ => Ok(true),
    }
}
