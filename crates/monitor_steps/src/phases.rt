//! Phases of live threads.

ghost use Rattle.std.specs.Prelude.{◌≡◌, OnOk};
ghost use Rattle.vthread_state.specs.declared.thread.Status.TheVariants.{Live};
ghost use Rattle.vthread_state.specs.Threads.{with_status};

use items::NoMemory;
use vthread_state::{Phase, ThreadTable};

/// A live thread has another phase. A thread that isn't live counts as memory run out, and so does a wait for the end of another.
pub(crate) fn set_phase(threads: &mut ThreadTable, t: u32, phase: Phase) -> Result<(), NoMemory>
    ensures { OnOk result (threads.new ≡ with_status threads.old t (Live phase)) }
{
    if t >= threads.count() || !threads.is_alive(t) {
        return Err(NoMemory);
    }
    if let Phase::Joining { .. } = phase {
        return Err(NoMemory);
    }
    threads.set_phase(t, phase);
    Ok(())
}
