//! The instruction at hand of a thread, which makes its step or asks something.

ghost use Rattle.std.specs.Prelude.{◌≡◌, ◌<◌, IfOk, length};
ghost use Rattle.frame_soundness.specs.Typed.{Typed};
ghost use Rattle.interp_local.specs.Fetched.{IsTopAt};
ghost use Rattle.invocation.specs.InvocationCache.{AreSelected};
ghost use Rattle.ref_run.specs.States.{state_of};
ghost use Rattle.operand_soundness.specs.Ready.{IsReady};
ghost use Rattle.ref_run.specs.Steps.{HasTyped, IsProgress};

use crate::state::RefState;
use crate::taking::{put_frames, take_frames};
use continuation::Mounted;
use interp_local::Fetched;
use invocation::InvocationCache;
use items::NoMemory;
use startup::ReadyProgram;
use std::alloc::Global;
use thread_steps::{Progress, instruction_step};

// The instruction of the top frame.
fn top_instruction<'a>(
    program: &'a ReadyProgram,
    mounted: &Mounted,
) -> Result<Fetched<'a>, NoMemory>
    requires { 0 < length mounted.now.stack.frames }
    ensures { IfOk result (λ next. IsTopAt program.now mounted.now.stack.frames next) }
{
    let top = mounted.top();
    program.instruction(top.method, top.pc).ok_or(NoMemory)
}

/// Runs the instruction at which thread t is, whatever its status is.
pub(crate) fn run_instruction(
    alloc: Global,
    program: &ReadyProgram,
    cache: &mut InvocationCache,
    state: &mut RefState,
    t: u32,
) -> Result<Progress, NoMemory>
    requires ready { IsReady program.now }
    requires typed { HasTyped program.now (state_of state.old) t }
    requires selected { AreSelected program.now cache.old }
    ensures progress { IfOk result (λ progress. IsProgress program.now (state_of state.old) t
        progress (state_of state.new)) }
    ensures cache { AreSelected program.now cache.new }
{
    let mut mounted = take_frames(alloc, state, t)?;
    let next = top_instruction(program, &mounted)?;
    let mut progress = Progress::Stepped;
    instruction_step(
        alloc,
        program,
        cache,
        &mut state.memory,
        &mut mounted,
        &mut progress,
        next.instr,
        next.resolution,
    )?;
    put_frames(state, t, mounted);
    Ok(progress)
}
