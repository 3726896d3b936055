//! How far a thread is, and what ends its wait.

ghost use Rattle.std.specs.Prelude.{◌≡◌};
ghost use Rattle.ref_model.specs.Enabled as enabled;
ghost use Rattle.ref_model.specs.Ending as ending;
ghost use Rattle.ref_model.specs.Requesting as requesting;
ghost use Rattle.ref_model.specs.Waiting as waiting;

use thread_calls::is_reached;
use vthread_state::{Phase, Status, ThreadKind, Wake};

/// Whether a thread was started and didn't end.
pub(crate) fn is_live(status: Status) -> bool
    ensures { result ≡ ending.is_live status }
{
    matches!(status, Status::Live(_))
}

/// Whether a thread has ended.
pub(crate) fn is_done(status: Status) -> bool
    ensures { result ≡ enabled.is_done status }
{
    matches!(status, Status::Done)
}

/// Whether a thread is a virtual one (JEP 444).
pub(crate) fn is_virtual(kind: ThreadKind) -> bool
    ensures { result ≡ requesting.is_virtual kind }
{
    matches!(kind, ThreadKind::Virtual)
}

// A phase whose wait on a monitor has ended, if it was one.
fn phase_woken(wake: Wake, phase: Phase) -> Phase
    ensures { result ≡ waiting.phase_woken wake phase }
{
    match phase {
        Phase::Waiting { monitor, count, .. } => Phase::Reenter {
            monitor,
            count,
            wake,
        },
        other => other,
    }
}

/// The same of the status of a thread.
pub(crate) fn status_woken(wake: Wake, status: Status) -> Status
    ensures { result ≡ waiting.status_woken wake status }
{
    match status {
        Status::Live(phase) => Status::Live(phase_woken(wake, phase)),
        other => other,
    }
}

// Whether a phase is a wait to be notified on this monitor.
fn phase_waits_on(o: u32, phase: Phase) -> bool
    ensures { result ≡ waiting.phase_waits_on o phase }
{
    match phase {
        Phase::Waiting { monitor, .. } => monitor == o,
        _ => false,
    }
}

/// Whether a thread waits to be notified on this monitor.
pub(crate) fn status_waits_on(o: u32, status: Status) -> bool
    ensures { result ≡ waiting.status_waits_on o status }
{
    match status {
        Status::Live(phase) => phase_waits_on(o, phase),
        Status::New | Status::Done => false,
    }
}

// A phase at a time: a wait on a monitor whose deadline is reached has ended.
fn phase_at_time(now: u64, phase: Phase) -> Phase
    ensures { result ≡ waiting.phase_at_time now phase }
{
    match phase {
        Phase::Waiting {
            monitor,
            count,
            deadline,
        } => {
            if is_reached(now, deadline) {
                Phase::Reenter {
                    monitor,
                    count,
                    wake: Wake::TimedOut,
                }
            } else {
                phase
            }
        }
        other => other,
    }
}

/// The same of the status of a thread.
pub(crate) fn status_at_time(now: u64, status: Status) -> Status
    ensures { result ≡ waiting.status_at_time now status }
{
    match status {
        Status::Live(phase) => Status::Live(phase_at_time(now, phase)),
        other => other,
    }
}
