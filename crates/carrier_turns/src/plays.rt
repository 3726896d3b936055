//! Turns of several carriers, one after another.

ghost use Rattle.std.specs.Prelude.{◌≡◌, ◌<◌, IfOk};
ghost use Rattle.carrier_turns.specs.Hands.{FitsAsBefore, HasDone};
ghost use Rattle.carrier_turns.specs.Plays.{AreCarriersIdle, AreTurnsOf, GoesOnFrom, HandsFit, IsDoneTurn, IsReadyHand, MayDo};
ghost use Rattle.carrier_turns.specs.Turns.{KeepsPressing};
ghost use Rattle.operand_soundness.specs.Ready.{IsReady};

use crate::ask::{Ask, Turn};
use crate::hand::Hand;
use crate::turns::turn;
use items::NoMemory;
use jvm_edges::{Gate, OpenGate};
use machine::{Machine, ReadyProgram};
use std::alloc::Global;

/// A turn in a list of turns: of which carrier, and at what time.
#[derive(Clone, Copy, Debug, PartialEq, Eq)]
pub struct TurnOf {
    pub carrier: u32,
    pub now: u64,
}

/// Does what a turn asked for. The gate is passed before local instructions.
#[inline(always)]
pub fn do_asked<'p, G: Gate>(
    program: &'p ReadyProgram,
    hand: &mut Hand<'p>,
    carrier: u32,
    answer: Turn,
    gate: &G,
)
    requires ready { IsReady program.now }
    requires may { MayDo program.now hand.old answer }
    ensures fits { FitsAsBefore program.now hand.old hand.new }
    ensures done { HasDone hand.new }
    ensures presses { KeepsPressing hand.old hand.new }
{
    match answer {
        Turn::Run(Ask::Local(thread)) => {
            gate.local(carrier, thread);
            hand.local(program);
        }
        Turn::Run(Ask::Freeze) => hand.freeze(),
        Turn::Run(Ask::Nothing) | Turn::Nap(_) | Turn::Over => {}
    }
}

// A turn of a carrier, and what it asks for.
#[inline(always)]
fn turn_and_do<'p, G: Gate>(
    alloc: Global,
    program: &'p ReadyProgram,
    machine: &mut Machine<'p>,
    hand: &mut Hand<'p>,
    at: TurnOf,
    gate: &G,
) -> Turn
    requires program { program.now ≡ machine.old.setting.world }
    requires hand { IsReadyHand machine.old at.carrier hand.old }
    ensures hand { IsReadyHand machine.new at.carrier hand.new }
    ensures turn { IsDoneTurn machine.old machine.new at.carrier at.now
        hand.old hand.new result }
{
    let answer = turn(alloc, machine, hand, at.carrier, at.now);
    machine.is_legal();
    do_asked(program, hand, at.carrier, answer, gate);
    answer
}

// One of the turns that are listed.
fn play_one<'p>(alloc: Global, machine: &mut Machine<'p>, hands: &mut [Hand<'p>], at: TurnOf)
    requires hands { HandsFit machine.old hands.old }
    requires below { at.carrier < machine.old.carriers }
    ensures hands { HandsFit machine.new hands.new }
    ensures grown { GoesOnFrom machine.old machine.new }
{
    machine.is_legal();
    let program = machine.program();
    let hand = &mut hands[at.carrier as usize];
    turn_and_do(alloc, program, machine, hand, at, &OpenGate::new());
    machine.is_legal();
}

/// Hands for the carriers of a machine that begins, which hold nothing.
pub fn new_hands<'p>(alloc: Global, machine: &Machine<'p>) -> Result<Vec<Hand<'p>>, NoMemory>
    requires idle { AreCarriersIdle machine.now }
    ensures fit { IfOk result (λ hands. HandsFit machine.now hands.items) }
{
    let mut hands = Vec::new(alloc);
    for _ in 0..machine.carriers() {
        hands.push(Hand::new(alloc)?)?;
    }
    Ok(hands)
}

/// Makes these turns in their order. What a turn asks for is done directly after it.
pub fn play<'p>(alloc: Global, machine: &mut Machine<'p>, hands: &mut [Hand<'p>], turns: &[TurnOf])
    requires hands { HandsFit machine.old hands.old }
    requires turns { AreTurnsOf machine.old turns.now }
    ensures hands { HandsFit machine.new hands.new }
    ensures grown { GoesOnFrom machine.old machine.new }
{
    for turn in turns {
        play_one(alloc, machine, hands, *turn);
    }
}
