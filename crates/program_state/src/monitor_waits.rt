//! Threads that line up for monitors: those whose waits end, to take the monitor again (JLS 17.2), and new ones.

ghost use Rattle.std.specs.Prelude.{◌<◌, OnOk};
ghost use Rattle.vthread_state.specs.declared.phase.Wake.TheVariants.{TimedOut};
ghost use Rattle.program_state.specs.Monitors.{AreSeated, HasEndedWait, HaveEndedWaits, LinesUpFor};

use items::NoMemory;
use monitors::Monitors;
use vthread_state::{Phase, Status, ThreadTable, Wake};

/// The wait of a thread on a monitor ends so: it lines up for the monitor. To any other thread nothing happens.
pub(crate) fn end_monitor_wait(
    monitors: &mut Monitors,
    threads: &mut ThreadTable,
    t: u32,
    wake: Wake,
)
    requires { AreSeated monitors.old threads.old }
    ensures { HasEndedWait wake t monitors.old threads.old monitors.new threads.new }
{
    if t >= threads.count() {
        return;
    }
    let Status::Live(phase) = threads.row(t).status else {
        return;
    };
    let Phase::Waiting { monitor, count, .. } = phase else {
        return;
    };
    monitors.leave_wait(monitor, t);
    let phase = Phase::Reenter {
        monitor,
        count,
        wake,
    };
    threads.set_phase(t, phase);
}

/// The waits of these threads on monitors end one after the other, since their time is over.
pub(crate) fn end_monitor_waits(monitors: &mut Monitors, threads: &mut ThreadTable, due: &[u32])
    requires { AreSeated monitors.old threads.old }
    ensures { HaveEndedWaits TimedOut due.now monitors.old threads.old
        monitors.new threads.new }
{
    for t in due {
        end_monitor_wait(monitors, threads, *t, Wake::TimedOut);
    }
}

/// A thread lines up for a monitor, where there is one. A thread that is in a list of one counts as memory run out.
pub(crate) fn line_up_for(
    monitors: &mut Monitors,
    t: u32,
    monitor: Option<u32>,
) -> Result<(), NoMemory>
    requires { t < monitors.old.threads }
    ensures { OnOk result (LinesUpFor t monitor monitors.old monitors.new) }
{
    let Some(o) = monitor else {
        return Ok(());
    };
    monitors.room(1)?;
    if monitors.holds(t) {
        return Err(NoMemory);
    }
    monitors.line_up(o, t);
    Ok(())
}
