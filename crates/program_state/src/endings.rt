//! How a program has ended (JLS 12.8).

ghost use Rattle.std.specs.Prelude.{◌≡◌, ℕ, Bool};
ghost use Rattle.ref_model.specs.Ending as spec;
ghost use Rattle.ref_model.specs.State.{State};
ghost use Rattle.program_state.specs.States.{IsState};

use crate::state::ProgramState;
use ref_model::Ending;

// How it has ended by its threads.
#[inline(always)]
fn threads_ending(state: &ProgramState) -> Option<Ending>
    ensures { (r : State) (out : ℕ → Bool) → IsState state.now r out
        → result ≡ spec.threads_ending r }
{
    if state.threads.goes_on() {
        return None;
    }
    if state.memory.main_threw {
        Some(Ending::MainThrew)
    } else {
        Some(Ending::Ended)
    }
}

/// How the program has ended, if it has. No thread is looked at.
#[inline(always)]
pub fn ending(state: &ProgramState) -> Option<Ending>
    ensures { (r : State) (out : ℕ → Bool) → IsState state.now r out
        → result ≡ spec.ending r }
{
    match state.memory.natives.exited {
        Some(status) => Some(Ending::Exited(status)),
        None => threads_ending(state),
    }
}
