//! What a thread asks about permits and interrupts (LockSupport, java.lang.Thread).

ghost use Rattle.std.specs.Prelude.{◌≡◌, ℕ, IfOk, OnOk};
ghost use Rattle.link_model.specs.World.{World};
ghost use Rattle.schedule_soundness.specs.PutLaws.{OthersStay};
ghost use Rattle.program_state.specs.Monitors.{AreSeated, ListsMove};
ghost use Rattle.program_state.specs.Replies.{Answers};
ghost use Rattle.ref_model.specs.Looks as looks;
ghost use Rattle.schedule_model.specs.Look.{is_in_line, is_in_wait_list};
ghost use Rattle.program_state.specs.Waking.{LeavesWoken, woken_in};

use crate::flags::{is_interrupted, take_interrupt};
use crate::monitor_waits::end_monitor_wait;
use crate::reply::Reply;
use crate::request_rows::tell;
use crate::state::{ProgramState, row_at};
use crate::timers::clear_timer;
use items::NoMemory;
use ref_model::ThreadRequest;
use vthread_state::{Phase, Status, Wake};

/// isInterrupted.
pub(crate) fn tell_interrupt(state: &ProgramState, u: u32) -> Reply
    ensures { (w : World) (t : ℕ) → Answers w (ThreadRequest.TellsInterrupt u)
        (OthersStay t) t state.now state.now result }
{
    tell(is_interrupted(&state.wakes, u))
}

/// interrupted, which clears the status of the thread that asks.
pub(crate) fn clear_interrupt(state: &mut ProgramState, t: u32) -> Result<Reply, NoMemory>
    ensures answers { (w : World) → IfOk result (Answers w ThreadRequest.TakesInterrupt
        (OthersStay t) t state.old state.new) }
    ensures monitors { state.new.monitors ≡ state.old.monitors }
{
    let interrupted = take_interrupt(&mut state.wakes, t)?;
    Ok(tell(interrupted))
}

// Whether a live thread in a phase is in line for a monitor.
fn is_in_line(phase: Phase) -> bool
    ensures { result ≡ is_in_line (looks.spot_in phase) }
{
    matches!(phase, Phase::Entering(_) | Phase::Reenter { .. })
}

// Whether a live thread in a phase waits on a monitor to be notified.
fn is_waiting(phase: Phase) -> bool
    ensures { result ≡ is_in_wait_list (looks.spot_in phase) }
{
    matches!(phase, Phase::Waiting { .. })
}

// A live thread in a phase, if it isn't this one and isn't in line for a monitor, where no permit and no interrupt lets it go on.
fn woken_thread(t: u32, u: u32, phase: Phase) -> Option<u32>
    ensures { result ≡ woken_in t u phase }
{
    if u == t || is_in_line(phase) {
        None
    } else {
        Some(u)
    }
}

/// unpark: a live thread gets a permit. The thread, where it is another one, and may go on with it.
pub(crate) fn unpark(state: &mut ProgramState, t: u32, u: u32) -> Result<Option<u32>, NoMemory>
    ensures answers { (w : World) → IfOk result (λ woken. Answers w (ThreadRequest.Unparks u)
        (LeavesWoken t woken) t state.old state.new Reply.Goes) }
    ensures monitors { state.new.monitors ≡ state.old.monitors }
{
    let row = row_at(&state.threads, u)?;
    let Status::Live(phase) = row.status else {
        return Ok(None);
    };
    if u as usize >= state.wakes.count() {
        return Err(NoMemory);
    }
    state.wakes.unpark(u);
    Ok(woken_thread(t, u, phase))
}

/// interrupt: the status of a live thread is set, and its wait on a monitor ends. The thread, where it is another one, and may go on with it.
pub(crate) fn interrupt(state: &mut ProgramState, t: u32, u: u32) -> Result<Option<u32>, NoMemory>
    requires seated { AreSeated state.old.monitors state.old.threads }
    ensures answers { (w : World) → IfOk result (λ woken. Answers w (ThreadRequest.Interrupts u)
        (LeavesWoken t woken) t state.old state.new Reply.Goes) }
    ensures lists { OnOk result (ListsMove state.old.monitors state.new.monitors) }
{
    let row = row_at(&state.threads, u)?;
    let Status::Live(phase) = row.status else {
        return Ok(None);
    };
    if u as usize >= state.wakes.count() {
        return Err(NoMemory);
    }
    state.wakes.interrupt(u);
    if is_waiting(phase) {
        clear_timer(&mut state.wheel, &mut state.keys, u)?;
        end_monitor_wait(
            &mut state.monitors,
            &mut state.threads,
            u,
            Wake::Interrupted,
        );
        return Ok(woken_thread(t, u, phase));
    }
    Ok(woken_thread(t, u, phase))
}
