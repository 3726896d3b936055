//! Runs of local instructions: those of the top frame, and of the frames to which it returns.

ghost use Rattle.std.specs.Prelude.{◌≡◌, ◌≤◌, Some, false, true, IfNone, IfOk, IfSome, IsTrue};
ghost use Rattle.instruction_rows.specs.Table.{row as row_of};
ghost use Rattle.interp_local.specs.Runs.{stays_on};
ghost use Rattle.interp_local.specs.Fetched.{IsTopAt};
ghost use Rattle.ref_model.specs.Entries as entries;
ghost use Rattle.ref_model.specs.LocalRows.{row, rows};
ghost use Rattle.frame_soundness.specs.Typed.{Typed};
ghost use Rattle.invocation.specs.InvocationCache.{AreSelected};
ghost use Rattle.carrier_turns.specs.LocalRuns.{GoesOver, IsLongRun};
ghost use Rattle.operand_soundness.specs.Ready.{IsReady};

use continuation::Mounted;
use interp_local::{Fetched, TopRun, run_and_fetch};
use invocation::{Entered, InvocationCache, Left, enter, leave, static_callee};
use items::NoMemory;
use lib_table::Native;
use link_model::{Resolution, Site};
use machine::ReadyProgram;
use opcodes::Op;
use thread_steps::return_at;

/// How many steps an entry has at most.
pub(crate) const MOST_STEPS: u32 = 10_001;

/// A run of local instructions: how many were made, and the instruction before which it stopped.
#[derive(Clone, Copy)]
pub struct LocalRun<'a> {
    pub steps: u32,
    pub next: Fetched<'a>,
}

// Executes instructions that stay in the top frame, at most `most`.
#[inline(always)]
fn run_top<'a>(program: &'a ReadyProgram, mounted: &mut Mounted, most: u32) -> TopRun<'a>
    requires { Typed program.now mounted.old.stack.frames }
    ensures rows { rows program.now result.steps mounted.old.stack.frames
        ≡ Some mounted.new.stack.frames }
    ensures typed { Typed program.now mounted.new.stack.frames }
    ensures few { result.steps ≤ most }
    ensures stays { result.stays ≡ stays_on program.now mounted.new.stack.frames }
    ensures slice { IsTrue result.stays → result.steps ≡ most }
    ensures next { IsTopAt program.now mounted.new.stack.frames result.next }
    ensures thread { mounted.new.thread ≡ mounted.old.thread }
{
    run_and_fetch(program.prepared(), mounted, most)
}

// Returns to the caller if the top frame is at a return that is neither from a root frame nor from one that holds a monitor; false if it isn't.
// A return that the definitions don't have counts as memory run out.
#[inline(always)]
fn go_back(
    program: &ReadyProgram,
    mounted: &mut Mounted,
    fetched: &Fetched<'_>,
) -> Result<bool, NoMemory>
    requires ready { IsReady program.now }
    requires typed { Typed program.now mounted.old.stack.frames }
    requires leaves { stays_on program.now mounted.old.stack.frames ≡ false }
    requires next { IsTopAt program.now mounted.old.stack.frames fetched.now }
    ensures over { IfOk result (GoesOver program.now mounted.old.stack.frames
        mounted.new.stack.frames) }
    ensures thread { mounted.new.thread ≡ mounted.old.thread }
{
    let Some(returns) = return_at(&fetched.instr.op) else {
        return Ok(false);
    };
    match leave(program, returns.kind, mounted) {
        Left::Returned => Ok(true),
        Left::Root | Left::Holds(_) | Left::Native => Ok(false),
        Left::Undefined => Err(NoMemory),
    }
}

// Goes on in the method that an invokestatic names, where it is a local instruction and the frame has room: whether it does.
#[inline(always)]
fn go_into(
    program: &ReadyProgram,
    cache: &mut InvocationCache,
    mounted: &mut Mounted,
    fetched: &Fetched<'_>,
) -> Result<bool, NoMemory>
    requires ready { IsReady program.now }
    requires typed { Typed program.now mounted.old.stack.frames }
    requires next { IsTopAt program.now mounted.old.stack.frames fetched.now }
    requires calls { entries.is_static_call (row_of fetched.now.instr.now.op) ≡ true }
    requires selected { AreSelected program.now cache.old }
    ensures over { IfOk result (GoesOver program.now mounted.old.stack.frames
        mounted.new.stack.frames) }
    ensures thread { mounted.new.thread ≡ mounted.old.thread }
    ensures cache { AreSelected program.now cache.new }
{
    let Some(callee) = static_callee(program, cache, fetched.resolution) else {
        return Ok(false);
    };
    match enter(callee, mounted)? {
        Entered::Begun => Ok(true),
        Entered::Throws(_) | Entered::Undefined => Ok(false),
    }
}

// Whether a native method may read the clock.
fn is_timed(native: Native) -> bool {
    matches!(
        native,
        Native::SystemNanoTime
            | Native::SystemCurrentTimeMillis
            | Native::ThreadSleep
            | Native::ThreadJoinMillis
            | Native::LockSupportParkNanos
            | Native::LockSupportParkNanosBlocker
            | Native::ObjectWaitMillis
    )
}

// Whether an instruction names a native method that may read the clock.
fn names_timed(program: &ReadyProgram, resolution: &Resolution) -> bool {
    match resolution.site {
        Site::Method(n) => match program.native(n) {
            Some(native) => is_timed(native),
            None => false,
        },
        _ => false,
    }
}

// Whether an instruction calls a method.
#[inline(always)]
fn is_call(op: &Op) -> bool {
    matches!(
        op,
        Op::InvokeVirtual(_)
            | Op::InvokeSpecial(_)
            | Op::InvokeStatic(_)
            | Op::InvokeInterface(_, _)
    )
}

/// Whether an instruction calls a method that may read the clock.
#[inline(always)]
pub(crate) fn calls_clock(program: &ReadyProgram, next: &Fetched<'_>) -> bool {
    is_call(&next.instr.op) && names_timed(program, next.resolution)
}

// Whether an instruction is an invokestatic.
#[inline(always)]
fn is_static_call(op: &Op) -> bool
    ensures { result ≡ entries.is_static_call (row_of op.now) }
{
    matches!(op, Op::InvokeStatic(_))
}

// Makes the instruction of the top frame, which doesn't stay in it, where it is a local one that leads to another frame: whether it is.
#[inline(always)]
fn go_over(
    program: &ReadyProgram,
    cache: &mut InvocationCache,
    mounted: &mut Mounted,
    fetched: &Fetched<'_>,
) -> Result<bool, NoMemory>
    requires ready { IsReady program.now }
    requires typed { Typed program.now mounted.old.stack.frames }
    requires leaves { stays_on program.now mounted.old.stack.frames ≡ false }
    requires next { IsTopAt program.now mounted.old.stack.frames fetched.now }
    requires selected { AreSelected program.now cache.old }
    ensures over { IfOk result (GoesOver program.now mounted.old.stack.frames
        mounted.new.stack.frames) }
    ensures thread { mounted.new.thread ≡ mounted.old.thread }
    ensures cache { AreSelected program.now cache.new }
{
    if is_static_call(&fetched.instr.op) {
        return go_into(program, cache, mounted, fetched);
    }
    go_back(program, mounted, fetched)
}

/// Executes the local instructions of a thread, in its top frame, in the frames to which it returns and in those that invokestatic begins,
/// until one isn't local or 10,001 were executed.
#[inline(always)]
pub(crate) fn run_local<'a>(
    program: &'a ReadyProgram,
    cache: &mut InvocationCache,
    mounted: &mut Mounted,
) -> Result<LocalRun<'a>, NoMemory>
    requires ready { IsReady program.now }
    requires typed { Typed program.now mounted.old.stack.frames }
    requires selected { AreSelected program.now cache.old }
    ensures run { IfOk result (λ run. IsLongRun program.now run.steps
        mounted.old.stack.frames mounted.new.stack.frames) }
    ensures next { IfOk result (λ run.
        IsTopAt program.now mounted.new.stack.frames run.next) }
    ensures thread { mounted.new.thread ≡ mounted.old.thread }
    ensures cache { AreSelected program.now cache.new }
{
    let mut steps = 0;
    loop {
        let run = run_top(program, mounted, MOST_STEPS - steps);
        steps += run.steps;
        if steps == MOST_STEPS {
            return Ok(LocalRun {
                steps,
                next: run.next,
            });
        }
        if !go_over(program, cache, mounted, &run.next)? {
            return Ok(LocalRun {
                steps,
                next: run.next,
            });
        }
        steps += 1;
    }
}
