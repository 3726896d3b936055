//! Which carriers have a pinned thread that doesn't just go on (JEP 444).

ghost use Rattle.std.specs.Prelude.{◌≡◌, ◌<◌, ◌≢◌, ℕ, IfOk, IsTrue, false, get_or, length, slice_set};
ghost use Rattle.machine.specs.Pins.{IsInNoList, NotesOwn};
ghost use Rattle.machine.specs.Steps.{told_of};

use crate::made::StepResult;
use continuation::Mounted;
use invocation::is_pinned;
use program_state::ProgramState;
use startup::ReadyProgram;
use vthread_state::Phase;

/// A carrier has a pinned thread now that waits, or another thread.
pub(crate) fn set_pin(pins: &mut Vec<bool>, c: u32, pinned: bool)
    requires { c < length pins.old.items }
    ensures { pins.new.items ≡ slice_set pins.old.items c pinned }
{
    pins[c as usize] = pinned;
}

// Whether a live thread is in no list of a monitor. `false`: it may be in one.
fn is_in_no_list(state: &ProgramState, t: u32) -> bool
    requires { t < length state.now.threads.threads }
    ensures { IsTrue result → IsInNoList state.now t }
{
    state.threads.is_alive(t)
        && matches!(
            state.threads.phase(t),
            Phase::Run
                | Phase::Throwing(_)
                | Phase::Parked(_)
                | Phase::Asleep(_)
                | Phase::Joining { .. }
        )
}

/// Notes after a step of the thread that a carrier has mounted whether it is pinned, unless it just goes on.
#[inline(always)]
pub(crate) fn note_pins(
    program: &ReadyProgram,
    state: &ProgramState,
    mounted: &Mounted,
    pins: &mut Vec<bool>,
    c: u32,
    t: u32,
    tried: StepResult,
)
    requires carrier { c < length pins.old.items }
    requires thread { IfOk (told_of tried) (λ o. t < length state.now.threads.threads) }
    ensures own { NotesOwn program.now state.now t mounted.now.stack.frames tried c
        pins.old.items pins.new.items }
    ensures others { (k : ℕ) → k ≢ c →
        get_or pins.new.items k false ≡ get_or pins.old.items k false }
    ensures sizes { length pins.new.items ≡ length pins.old.items }
{
    match tried {
        StepResult::Goes | StepResult::Notifies(_) => {
            if !is_in_no_list(state, t) {
                set_pin(pins, c, is_pinned(program, mounted));
            }
        }
        StepResult::Waits => set_pin(pins, c, true),
        StepResult::Leaves | StepResult::Ends => set_pin(pins, c, false),
        StepResult::Runs
        | StepResult::LacksThreads
        | StepResult::ReadsClock
        | StepResult::LacksMemory => {}
    }
}
