//! Time that goes on, and the deadlines that it reaches.

ghost use Rattle.std.specs.Prelude.{◌≡◌, ◌<◌, ◌↔◌, ℕ, Bool, None, Some, IsNone, IfSome, IfOk, OnOk, OnErr};
ghost use Rattle.link_model.specs.World.{World};
ghost use Rattle.monitor_soundness.specs.TickLaws.{NoWaitIsOver};
ghost use Rattle.ref_model.specs.State.{State};
ghost use Rattle.ref_model.specs.Waiting.{at_time};
ghost use Rattle.program_state.specs.Deadlines.{IsLeast, deadlines_of};
ghost use Rattle.program_state.specs.Monitors.{AreSeated};
ghost use Rattle.program_state.specs.States.{IsState};
ghost use Rattle.program_state.specs.Times.{AreDue, DueMove, Passes};

use crate::monitor_waits::end_monitor_waits;
use crate::state::ProgramState;
use crate::timers::clear_keys;
use items::NoMemory;

/// Lets time go on, to this in nanoseconds: the threads whose deadline is reached by that, in the order of the deadlines, and of their
/// numbers at one deadline. They come off the wheel, and those that wait on a monitor line up for it, one after the other. It takes time by
/// their number, and not by that of all threads. Where memory runs out nothing changes.
pub fn pass_time(state: &mut ProgramState, now: u64) -> Result<Vec<u32>, NoMemory>
    requires later { state.old.time < now }
    requires seated { AreSeated state.old.monitors state.old.threads }
    ensures passes { OnOk result ((r : State) (out : ℕ → Bool) → IsState state.old r out
        → NoWaitIsOver r → Passes now state.new r out) }
    ensures moves { IfOk result (λ due. (w : World) (r : State) (out : ℕ → Bool)
        → IsState state.old r out
        → DueMove w r due.items state.old.monitors state.new.monitors) }
    ensures due { IfOk result (λ due. (r : State) (out : ℕ → Bool) → IsState state.old r out
        → AreDue r now due.items) }
    ensures err { OnErr result (state.new ≡ state.old) }
{
    let due = state.wheel.due(now)?;
    clear_keys(&mut state.keys, &due);
    end_monitor_waits(&mut state.monitors, &mut state.threads, &due);
    state.time = now;
    Ok(due)
}

/// The least deadline of a live thread that is to come, in nanoseconds. `None`: there is none.
#[inline(always)]
pub fn earliest(state: &ProgramState) -> Option<u64>
    ensures none { (r : State) (out : ℕ → Bool) → IsState state.now r out
        → IsNone result ↔ ((t : ℕ) → deadlines_of r.now r.threads t ≡ None) }
    ensures least { (r : State) (out : ℕ → Bool) → IsState state.now r out
        → IfSome result (IsLeast (deadlines_of r.now r.threads)) }
{
    state.wheel.earliest()
}
