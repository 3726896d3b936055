//! Threads that are in line for a monitor, and take it (JLS 17.1, 17.2).

ghost use Rattle.std.specs.Prelude.{◌≡◌, ◌<◌, Some, length, slice_get, IfOk, OnOk};
ghost use Rattle.monitors.specs.Monitors.{IsInLine, monitor_of};
ghost use Rattle.ref_model.specs.Resuming.{is_first_entry};
ghost use Rattle.program_state.specs.Monitors.{ListsMove};
ghost use Rattle.monitor_steps.specs.Entries.{TakesTo, after_wake, line_in};

use crate::phases::set_phase;
use continuation::Mounted;
use items::NoMemory;
use program_state::ProgramState;
use vthread_state::{Phase, Wake};

/// How a thread goes on that was in line for a monitor, and has it.
#[derive(Clone, Copy)]
pub(crate) enum AfterEntry {
    /// Its first frame, which is of a synchronized method, begins.
    Begins,
    /// It finishes its instruction.
    Resumes,
    /// It throws InterruptedException, since an interrupt ended its wait.
    Throws,
}

/// The monitor for which a thread is in line, and how often it is to have entered that.
#[derive(Clone, Copy)]
pub(crate) struct Line {
    pub monitor: u32,
    pub count: u32,
    pub then_goes: AfterEntry,
}

/// The number of the monitor of class 0, which no object has (own).
const CLASS_MONITORS: u32 = 0xffff_0000;

// Whether the frames are those of a thread that was started with a synchronized method, which hasn't begun.
fn is_first_entry(mounted: &Mounted, o: u32) -> bool
    requires { 0 < length mounted.now.stack.frames }
    ensures { result ≡ is_first_entry o mounted.now.stack.frames }
{
    mounted.top().pc == 0 && o < CLASS_MONITORS
}

// How a thread goes on that waited to be notified.
fn after_wake(wake: Wake) -> AfterEntry
    ensures { result ≡ after_wake wake }
{
    match wake {
        Wake::Notified | Wake::TimedOut => AfterEntry::Resumes,
        Wake::Interrupted => AfterEntry::Throws,
    }
}

// How a thread goes on that waited to enter a monitor.
fn after_entering(mounted: &Mounted, o: u32) -> AfterEntry
    requires { 0 < length mounted.now.stack.frames }
    ensures { Some (record { monitor = o; count = 1; then_goes = result })
        ≡ line_in (Phase.Entering o) mounted.now.stack.frames }
{
    if is_first_entry(mounted, o) {
        AfterEntry::Begins
    } else {
        AfterEntry::Resumes
    }
}

/// What a thread in a phase is in line for. Any other phase counts as memory run out.
pub(crate) fn line_in(mounted: &Mounted, phase: Phase) -> Result<Line, NoMemory>
    requires { 0 < length mounted.now.stack.frames }
    ensures { IfOk result (λ line. line_in phase mounted.now.stack.frames ≡ Some line) }
{
    match phase {
        Phase::Entering(monitor) => Ok(Line {
            monitor,
            count: 1,
            then_goes: after_entering(mounted, monitor),
        }),
        Phase::Reenter {
            monitor,
            count,
            wake,
        } => Ok(Line {
            monitor,
            count,
            then_goes: after_wake(wake),
        }),
        _ => Err(NoMemory),
    }
}

/// A thread that is in line takes its monitor, and runs. A monitor that has an owner counts as memory run out.
pub(crate) fn take_monitor(state: &mut ProgramState, t: u32, line: Line) -> Result<(), NoMemory>
    requires { IsInLine t (monitor_of state.old.monitors line.monitor) }
    ensures takes { OnOk result (TakesTo t line state.old state.new) }
    ensures lists { OnOk result (ListsMove state.old.monitors state.new.monitors) }
    ensures memory { OnOk result (state.new.memory ≡ state.old.memory) }
{
    if !state.monitors.retake(line.monitor, t, line.count) {
        return Err(NoMemory);
    }
    set_phase(&mut state.threads, t, Phase::Run)
}
