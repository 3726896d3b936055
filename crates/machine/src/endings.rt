//! How a run ends.

ghost use Rattle.std.specs.Prelude.{◌≡◌, ◌<◌, ◌≤◌, ℕ, Bool, List, None, length};
ghost use Rattle.std.specs.Option.{option_or};
ghost use Rattle.ref_model.specs.Ending.{ending as ending_of};
ghost use Rattle.ref_model.specs.State.{State};
ghost use Rattle.ref_model.specs.Step.{enabled};
ghost use Rattle.program_state.specs.States.{IsState};
ghost use Rattle.machine.specs.Machines.{limit_reached};

use program_state::{ProgramState, ending, is_enabled};
use ref_model::{Ending, Limits, Which};

// Whether a run with this number of entries has reached the limit of events.
#[inline(always)]
pub(crate) fn limit_within(limits: Limits, entries: usize) -> Option<Ending>
    ensures { result ≡ limit_reached limits entries }
{
    if entries >= limits.events.saturating_sub(2) as usize {
        Some(Ending::Limit(Which::Events, limits.events))
    } else {
        None
    }
}

/// How a run with this number of entries has ended, where no other ending was told.
#[inline(always)]
pub(crate) fn ended_within(state: &ProgramState, limits: Limits, entries: usize) -> Option<Ending>
    ensures { (r : State) (out : ℕ → Bool) → IsState state.now r out →
        result ≡ option_or (ending_of r) (limit_reached limits entries) }
{
    match ending(state) {
        Some(ended) => Some(ended),
        None => limit_within(limits, entries),
    }
}

/// Whether a thread may step.
#[inline(always)]
pub(crate) fn may_step(state: &ProgramState, t: u32) -> bool
    requires { t < length state.now.threads.threads }
    ensures { (r : State) (out : ℕ → Bool) → IsState state.now r out → result ≡ enabled r t }
{
    ending(state).is_none() && is_enabled(state, t)
}
