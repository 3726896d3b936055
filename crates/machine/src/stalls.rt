//! Whether a program can go on.

ghost use Rattle.std.specs.Prelude.{◌≡◌, ◌<◌, ◌||◌, ℕ, Bool, IfNone, IfSome, Some, is_some, length, slice_get};
ghost use Rattle.ref_model.specs.State.{State};
ghost use Rattle.ref_model.specs.Step.{enabled};
ghost use Rattle.thread_lists.specs.Lists.{list_at};
ghost use Rattle.program_state.specs.States.{IsState};
ghost use Rattle.std.specs.List.{list_any};
ghost use Rattle.program_state.specs.Deadlines.{deadlines_of};
ghost use Rattle.machine.specs.Stalls as spec;
ghost use Rattle.machine.specs.Stalls.{AreBelow, AreKeptBack, DequesAreBelow, GoesOnHere, goes_on};

use crate::endings::may_step;
use program_state::ProgramState;
use run_deques::Deques;

// Whether the thread that a carrier has mounted, if any, may step.
fn goes(state: &ProgramState, thread: Option<u32>) -> bool
    requires { (t : ℕ) → thread ≡ Some t → t < length state.now.threads.threads }
    ensures { (r : State) (out : ℕ → Bool) → IsState state.now r out → result ≡ goes_on r thread }
{
    match thread {
        Some(t) => may_step(state, t),
        None => false,
    }
}

/// Whether any mounted thread may step.
pub(crate) fn any_enabled(state: &ProgramState, mounted: &[Option<u32>]) -> bool
    requires { AreBelow mounted.now (length state.now.threads.threads) }
    ensures { (r : State) (out : ℕ → Bool) → IsState state.now r out
        → result ≡ list_any (goes_on r) mounted.now }
{
    for thread in mounted {
        if goes(state, *thread) {
            return true;
        }
    }
    false
}

// Whether a live thread has a deadline that is still to come.
fn is_timed(state: &ProgramState, t: u32) -> bool
    requires { t < length state.now.threads.threads }
    ensures { (r : State) (out : ℕ → Bool) → IsState state.now r out
        → result ≡ is_some (deadlines_of r.now r.threads t) }
{
    match state.keys.get(t as usize) {
        Some(key) => key.is_some(),
        None => false,
    }
}

// Whether a live thread may step, or has a deadline that is still to come.
fn is_coming(state: &ProgramState, t: u32) -> bool
    requires { t < length state.now.threads.threads }
    ensures { (r : State) (out : ℕ → Bool) → IsState state.now r out
        → result ≡ (enabled r t || is_some (deadlines_of r.now r.threads t)) }
{
    if may_step(state, t) {
        return true;
    }
    is_timed(state, t)
}

// Whether the thread that a carrier has mounted is pinned, may not step, and has no deadline to come.
fn is_kept_back(state: &ProgramState, thread: Option<u32>, pinned: bool) -> bool
    requires { (t : ℕ) → thread ≡ Some t → t < length state.now.threads.threads }
    ensures { (r : State) (out : ℕ → Bool) → IsState state.now r out
        → result ≡ spec.is_kept_back r thread pinned }
{
    match thread {
        Some(t) => pinned && !is_coming(state, t),
        None => false,
    }
}

/// The first carrier whose thread isn't pinned, or may step, or has a deadline to come; or that has no thread. `None`: there is none.
pub(crate) fn first_going(
    state: &ProgramState,
    mounted: &[Option<u32>],
    pins: &[bool],
) -> Option<usize>
    requires below { AreBelow mounted.now (length state.now.threads.threads) }
    requires sizes { length pins.now ≡ length mounted.now }
    ensures some { IfSome result (λ c. (r : State) (out : ℕ → Bool) → IsState state.now r out
        → GoesOnHere r mounted.now pins.now c) }
    ensures none { IfNone result ((r : State) (out : ℕ → Bool) → IsState state.now r out
        → AreKeptBack r mounted.now pins.now) }
{
    for c in 0..mounted.len() {
        let thread = mounted[c];
        let pinned = pins[c];
        if !is_kept_back(state, thread, pinned) {
            return Some(c);
        }
    }
    None
}

// Whether any thread of one deque may step. Those behind the first that may aren't looked at.
fn deque_goes(state: &ProgramState, deques: &Deques, c: u32) -> bool
    requires deque { c < length deques.now.lists }
    requires below { DequesAreBelow deques.now.lists (length state.now.threads.threads) }
    ensures { (r : State) (out : ℕ → Bool) → IsState state.now r out
        → result ≡ list_any (enabled r) (list_at deques.now.lists c) }
{
    deques.once();
    let mut next = deques.first(c);
    while let Some(t) = next {
        if may_step(state, t) {
            return true;
        }
        next = deques.behind(t);
    }
    false
}

/// Whether any thread in a deque may step, of those of all carriers.
pub(crate) fn any_deque_goes(state: &ProgramState, deques: &Deques, carriers: u32) -> bool
    requires carriers { carriers ≡ length deques.now.lists }
    requires below { DequesAreBelow deques.now.lists (length state.now.threads.threads) }
    ensures { (r : State) (out : ℕ → Bool) → IsState state.now r out
        → result ≡ list_any (list_any (enabled r)) deques.now.lists }
{
    for k in 0..carriers {
        if deque_goes(state, deques, k) {
            return true;
        }
    }
    false
}
