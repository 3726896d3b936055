//! The step of a mounted thread.

ghost use Rattle.std.specs.Prelude.{◌≡◌, false, IfNone, IfSome, IsTrue};
ghost use Rattle.machine.specs.Hands.{IsLoose, MayStep, Waits};
ghost use Rattle.carrier_turns.specs.Hands.{HasThread};
ghost use Rattle.carrier_turns.specs.LocalRuns.{steps_of, stop_of};
ghost use Rattle.carrier_turns.specs.Steps.{HasGone, MayAct, MayGoOn, NeedsClock};
ghost use Rattle.carrier_turns.specs.Turns.{MayNotStep};

use crate::hand::Hand;
use crate::local::{LocalRun, MOST_STEPS};
use interp_local::Fetched;
use machine::{After, Machine};
use std::alloc::Global;

// How many local instructions were executed ahead of the history.
#[inline(always)]
fn steps_ahead(local: &Option<LocalRun<'_>>) -> u32
    ensures { result ≡ steps_of local.now }
{
    match local {
        Some(run) => run.steps,
        None => 0,
    }
}

// The instruction before which they stopped.
#[inline(always)]
fn next_of<'p>(local: &Option<LocalRun<'p>>) -> Option<Fetched<'p>>
    ensures { result ≡ stop_of local.now }
{
    match local {
        Some(run) => Some(run.next),
        None => None,
    }
}

/// Whether the mounted thread can't step now. One that has executed local instructions can.
#[inline(always)]
pub(crate) fn is_off(machine: &Machine<'_>, hand: &Hand<'_>, carrier: u32, thread: u32) -> bool
    requires may { MayAct machine.now carrier hand.now }
    requires mounted { HasThread hand.now thread }
    ensures off { IsTrue result → MayNotStep machine.now thread }
    ensures on { result ≡ false → MayStep machine.now thread }
{
    let _ = carrier;
    if hand.local.is_some() {
        return false;
    }
    !machine.is_enabled(thread)
}

/// Whether the mounted thread, which can't step, is pinned.
pub(crate) fn is_pinned(machine: &Machine<'_>, hand: &Hand<'_>, carrier: u32, thread: u32) -> bool
    requires may { MayAct machine.now carrier hand.now }
    requires mounted { HasThread hand.now thread }
    requires off { MayNotStep machine.now thread }
    ensures held { IsTrue result → Waits machine.now thread }
    ensures loose { result ≡ false → IsLoose machine.now thread }
{
    let _ = thread;
    match &hand.mounted {
        Some(mounted) => machine.is_pinned(carrier, mounted),
        None => false,
    }
}

/// A turn whose mounted thread may step may go on with it. This does nothing.
#[inline(always)]
pub(crate) fn may_go_on(machine: &Machine<'_>, hand: &Hand<'_>, carrier: u32, thread: u32)
    requires may { MayAct machine.now carrier hand.now }
    requires mounted { HasThread hand.now thread }
    requires enabled { MayStep machine.now thread }
    ensures { MayGoOn machine.now carrier hand.now thread }
{
    let _ = machine;
    let _ = hand;
    let _ = (carrier, thread);
}

/// Makes the step of the mounted thread, with the local instructions that were executed. `None`: it reads the clock, the time is less than
/// `least`, and nothing was done.
#[inline(always)]
pub(crate) fn make_step<'p>(
    alloc: Global,
    machine: &mut Machine<'p>,
    hand: &mut Hand<'p>,
    carrier: u32,
    thread: u32,
    least: u64,
) -> Option<After>
    requires { MayGoOn machine.old carrier hand.old thread }
    ensures gone { IfSome result (λ after.
        HasGone after machine.old machine.new carrier thread least hand.old hand.new) }
    ensures none { IfNone result (NeedsClock machine.old machine.new hand.old hand.new least) }
{
    let _ = thread;
    let steps = steps_ahead(&hand.local);
    let next = next_of(&hand.local);
    let Some(mounted) = &mut hand.mounted else {
        return Some(After::Halts);
    };
    if steps == MOST_STEPS {
        machine.slice(carrier, mounted);
        hand.local = None;
        return Some(After::Goes);
    }
    let after = machine.step(alloc, &mut hand.cache, mounted, carrier, steps, next, least);
    match after {
        After::ReadsClock => None,
        _ => {
            hand.local = None;
            Some(after)
        }
    }
}
