//! Threads that begin to wait.

ghost use Rattle.std.specs.Prelude.{◌≡◌, OnOk};
ghost use Rattle.ref_model.specs.Looks as looks;
ghost use Rattle.program_state.specs.Replying.{BeginsWait, IsWaiting};

use crate::state::ProgramState;
use crate::timers::set_timer;
use items::NoMemory;
use vthread_state::{Phase, ThreadTable};

// The time at which a wait ends, in nanoseconds.
fn phase_deadline(phase: Phase) -> Option<u64>
    ensures { result ≡ looks.phase_deadline phase }
{
    match phase {
        Phase::Waiting { deadline, .. } => deadline,
        Phase::Parked(deadline) => deadline,
        Phase::Asleep(deadline) => Some(deadline),
        Phase::Joining { deadline, .. } => deadline,
        _ => None,
    }
}

// A live thread waits in a phase. A thread that isn't there counts as memory run out, and so does a wait for a monitor.
fn set_waiting(threads: &mut ThreadTable, t: u32, phase: Phase) -> Result<(), NoMemory>
    ensures { OnOk result (IsWaiting t phase threads.old threads.new) }
{
    let count = threads.count();
    if t >= count || !threads.is_alive(t) {
        return Err(NoMemory);
    }
    match phase {
        Phase::Parked(deadline) => {
            threads.set_phase(t, Phase::Parked(deadline));
            Ok(())
        }
        Phase::Asleep(deadline) => {
            threads.set_phase(t, Phase::Asleep(deadline));
            Ok(())
        }
        Phase::Joining { target, deadline } => {
            if target >= count {
                return Err(NoMemory);
            }
            threads.set_phase(t, Phase::Joining { target, deadline });
            Ok(())
        }
        _ => Err(NoMemory),
    }
}

/// A thread that runs waits in a phase. Its deadline, if that is to come, goes onto the wheel.
pub(crate) fn begin_wait(state: &mut ProgramState, t: u32, phase: Phase) -> Result<(), NoMemory>
    ensures waits { OnOk result (BeginsWait t phase state.old state.new) }
    ensures monitors { state.new.monitors ≡ state.old.monitors }
{
    let deadline = phase_deadline(phase);
    set_timer(&mut state.wheel, &mut state.keys, state.time, t, deadline)?;
    set_waiting(&mut state.threads, t, phase)
}
