//! What a turn answers after its entry.

ghost use Rattle.std.specs.Prelude.{◌≡◌};
ghost use Rattle.vthread_state.specs.declared.phase.Phase.TheVariants.{Run};
ghost use Rattle.machine.specs.Hands.{HasPhase, Lives};
ghost use Rattle.machine.specs.Legal.{GoesOn, IsLegal, Works};
ghost use Rattle.carrier_turns.specs.Steps.{AnswersUnlessOver, AnswersUnlessStalled, GoesOnBy, IsGivenUp, NapsUnlessStalled};
ghost use Rattle.carrier_turns.specs.Turns.{IsNap, asked_by};
ghost use Rattle.carrier_turns.specs.declared.ask.Ask.TheVariants.{Nothing};
ghost use Rattle.carrier_turns.specs.declared.ask.Turn.TheVariants.{Over};

use crate::ask::{Ask, Turn};
use machine::Machine;
use vthread_state::Phase;

/// What a turn asks for.
#[inline(always)]
pub(crate) fn asked(answer: Turn) -> Ask
    ensures { result ≡ asked_by answer }
{
    match answer {
        Turn::Run(ask) => ask,
        Turn::Nap(_) | Turn::Over => Ask::Nothing,
    }
}

/// This answer, unless the run has ended.
#[inline(always)]
pub(crate) fn unless_over(machine: &Machine<'_>, ask: Ask) -> Turn
    ensures { AnswersUnlessOver machine.now ask result }
{
    if machine.ending().is_some() {
        return Turn::Over;
    }
    Turn::Run(ask)
}

/// This answer, unless the run has ended. That no thread can go on is told, and that carriers keep all that could from it.
#[inline(always)]
pub(crate) fn unless_stalled(machine: &mut Machine<'_>, ask: Ask) -> Turn
    ensures { AnswersUnlessStalled machine.old machine.new ask result }
{
    if machine.ending().is_some() {
        return Turn::Over;
    }
    if machine.stall() {
        return Turn::Over;
    }
    if machine.starve() {
        return Turn::Over;
    }
    Turn::Run(ask)
}

/// How a thread goes on that was mounted or made a step: it is to execute local instructions, if it runs.
#[inline(always)]
pub(crate) fn way_on(machine: &Machine<'_>, thread: u32) -> Turn
    requires works { Works machine.now }
    requires live { Lives machine.now thread }
    ensures { GoesOnBy machine.now thread result }
{
    if machine.ending().is_some() {
        return Turn::Over;
    }
    match machine.phase(thread) {
        Phase::Run => Turn::Run(Ask::Local(thread)),
        _ => Turn::Run(Ask::Nothing),
    }
}

// That the run has ended, and that nothing is asked.
#[inline(never)]
fn stop(asked: &mut Ask) -> Turn
    ensures asked { asked.new ≡ Nothing }
    ensures over { result ≡ Over }
{
    *asked = Ask::Nothing;
    Turn::Over
}

/// How a thread goes on that runs, in a program that goes on: it is to execute local instructions, if there are entries left.
#[inline(always)]
pub(crate) fn run_on(machine: &Machine<'_>, asked: &mut Ask, thread: u32) -> Turn
    requires legal { IsLegal machine.now }
    requires going { GoesOn machine.now }
    requires runs { HasPhase machine.now thread Run }
    ensures way { GoesOnBy machine.now thread result }
    ensures asked { asked.new ≡ asked_by result }
{
    if machine.is_at_limit() {
        return stop(asked);
    }
    *asked = Ask::Local(thread);
    Turn::Run(Ask::Local(thread))
}

/// Gives the run up, unless it has ended.
pub(crate) fn give_up(machine: &mut Machine<'_>)
    ensures { IsGivenUp machine.old machine.new }
{
    if machine.ending().is_none() {
        machine.fail();
    }
}

/// How long a carrier without a thread may nap, in nanoseconds from this time on. `None`: no live thread has a deadline to come.
pub(crate) fn nap_length(machine: &Machine<'_>, now: u64) -> Option<u64>
    requires { Works machine.now }
    ensures { IsNap machine.now now result }
{
    match machine.earliest() {
        Some(deadline) => Some(deadline.saturating_sub(now)),
        None => None,
    }
}

/// How long a carrier naps whose thread is pinned and can't go on, unless the run has ended.
#[inline(never)]
pub(crate) fn nap_unless_stalled(machine: &mut Machine<'_>, now: u64) -> Turn
    requires { IsLegal machine.old }
    ensures { NapsUnlessStalled machine.old machine.new now result }
{
    if unless_stalled(machine, Ask::Nothing).is_over() {
        return Turn::Over;
    }
    Turn::Nap(nap_length(machine, now))
}
