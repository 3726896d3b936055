//! Threads that run and ask for a monitor (JLS 17.1, JVMS monitorenter).

ghost use Rattle.std.specs.Prelude.{IfOk, OnOk};
ghost use Rattle.program_state.specs.Monitors.{AreSeated, ListsMove};
ghost use Rattle.monitor_steps.specs.Entries.{EntersTo};

use crate::phases::set_phase;
use items::NoMemory;
use monitors::Enter;
use program_state::ProgramState;
use vthread_state::Phase;

/// A thread that runs takes a monitor that nobody owns, or enters its own once more, or else waits in line: whether it has it. A thread in a
/// line counts as memory run out, and so does one that entered the monitor 2^32 - 1 times.
pub(crate) fn enter_monitor(state: &mut ProgramState, t: u32, o: u32) -> Result<bool, NoMemory>
    requires { AreSeated state.old.monitors state.old.threads }
    ensures enters { IfOk result (EntersTo t o state.old state.new) }
    ensures lists { OnOk result (ListsMove state.old.monitors state.new.monitors) }
{
    if t >= state.threads.count() || state.monitors.holds(t) {
        return Err(NoMemory);
    }
    if state.monitors.count(o) == u32::MAX {
        return Err(NoMemory);
    }
    state.monitors.room(1)?;
    state.monitors.once();
    match state.monitors.enter(o, t) {
        Enter::Got => Ok(true),
        Enter::Blocked => {
            set_phase(&mut state.threads, t, Phase::Entering(o))?;
            Ok(false)
        }
    }
}
