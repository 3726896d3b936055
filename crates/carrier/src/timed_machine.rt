//! A machine with the clock of its run.

ghost use Rattle.std.specs.Prelude.{◌≡◌, ◌<◌, [], IfOk, IsTrue, is_some};
ghost use Rattle.machine.specs.Legal.{IsLegal, Works};
ghost use Rattle.machine.specs.Machines.{machine_ending};
ghost use Rattle.carrier_turns.specs.Hands.{Fits, HasDone};
ghost use Rattle.carrier_turns.specs.Turns.{IsTurn, is_over};
ghost use Rattle.carrier.specs.Runs.{IsTimed};

use carrier_turns::{Ask, Hand, Turn, turn};
use history::{Entry, Kept, What};
use items::NoMemory;
use jvm_edges::Clock;
use machine::{Machine, ReadyProgram};
use ref_model::{Ending, Limits};
use std::alloc::Global;
use std::marker::Model;
use turn_lock::TurnLock;

/// A machine, and the clock of its run. Each entry of time in the history has a number that the clock gives, and a reason.
#[derive(Drop)]
pub struct TimedMachine<'p, 'c, C: Clock> {
    machine: Box<Machine<'p>>,
    clock: &'c C,
}

impl<'p, 'c, C: Clock> Model for TimedMachine<'p, 'c, C> {
    ghost use Rattle.carrier.specs.Runs.{IsTimed};
    ghost use Rattle.carrier.specs.Shared.{MachineAndClock};

    ghost Value = { MachineAndClock C };

    ghost view = { λ t. record { machine = t.machine.value; clock = t.clock.now } };

    ghost invariant = { λ t. IsTimed (C.gives t.clock.now) t.machine.value };
}

/// A lock that keeps a machine, for the carriers of a run.
pub type MachineLock<'p, 'c, C> = TurnLock<TimedMachine<'p, 'c, C>>;

/// A machine with its clock keeps the entries of its history. The clock stays, and all that the machine was given.
impl<'p, 'c, C: Clock> Kept for TimedMachine<'p, 'c, C> {
    ghost use Rattle.carrier.specs.Shared.{machine_parts};

    type Setting = ((ReadyProgram, u32, Limits, u32), C);

    ghost history = { λ t. t.machine.history };

    ghost setting = { λ t. (machine_parts t.machine, t.clock) };

    fn entries(&self) -> &[Entry] {
        self.machine.entries()
    }
}

impl<'p, 'c, C: Clock> TimedMachine<'p, 'c, C> {
    /// A machine that begins, with the clock of its run.
    pub fn new(alloc: Global, machine: Machine<'p>, clock: &'c C) -> Result<Self, NoMemory>
        requires { machine.history ≡ [] }
        ensures { IfOk result (λ timed. timed
            ≡ record { machine = machine.entry; clock = clock.now }) }
    {
        Ok(TimedMachine {
            machine: Box::new(alloc, machine)?,
            clock,
        })
    }

    /// A turn of a carrier with the machine (`carrier_turns::turn`), at a time that the clock gives.
    #[inline(always)]
    pub fn turn(&mut self, alloc: Global, hand: &mut Hand<'p>, carrier: u32, now: u64) -> Turn
        requires fits { Fits self.old.machine carrier hand.old }
        requires done { HasDone hand.old }
        requires given { IsTrue (C.gives self.old.clock now) }
        ensures fits { Fits self.new.machine carrier hand.new }
        ensures turn { IsTurn self.old.machine self.new.machine carrier now
            hand.old hand.new result }
        ensures clock { self.new.clock ≡ self.old.clock }
    {
        self.machine.is_legal();
        turn(alloc, &mut *self.machine, hand, carrier, now)
    }

    /// How the run has ended after a turn that answered this, if it has.
    #[inline(always)]
    pub(crate) fn ending_after(&self, answer: Turn) -> Option<Ending>
        requires { is_over answer ≡ is_some (machine_ending self.now.machine) }
        ensures { result ≡ machine_ending self.now.machine }
    {
        if answer.is_over() {
            self.machine.ending()
        } else {
            None
        }
    }

    // Whether a carrier leaves its next turn to others where they have the machine, after its own turn answered this: it found no thread,
    // or it put one down (`has_let_go`).
    #[inline(always)]
    pub(crate) fn makes_way(&self, carrier: u32, answer: Turn) -> bool
        requires carrier { carrier < self.now.machine.carriers }
        requires ended { is_over answer ≡ is_some (machine_ending self.now.machine) }
    {
        match answer {
            Turn::Nap(_) => true,
            Turn::Run(Ask::Nothing) => {
                self.machine.is_legal();
                self.has_let_go(carrier)
            }
            Turn::Run(Ask::Local(_) | Ask::Freeze) | Turn::Over => false,
        }
    }

    // Whether the last entry puts a thread down which yielded, or of a carrier with no other thread in its deque.
    fn has_let_go(&self, carrier: u32) -> bool
        requires works { Works self.now.machine }
        requires carrier { carrier < self.now.machine.carriers }
    {
        let Some(
            Entry {
                what: What::Unmount(thread),
                ..
            },
        ) = self.machine.entries().last()
        else {
            return false;
        };
        self.machine.is_in_deque(*thread) || self.machine.first_in_deque(carrier).is_none()
    }

    /// That the history is that of a run of the program (`Machine::is_legal`).
    #[inline(always)]
    pub fn is_legal(&self)
        ensures legal { IsLegal self.now.machine }
        ensures timed { IsTimed (C.gives self.now.clock) self.now.machine }
    {
        self.machine.is_legal();
    }

    /// Takes the machine out.
    pub fn into_machine(self) -> Machine<'p>
        ensures machine { result ≡ self.entry.machine }
        ensures timed { IsTimed (C.gives self.entry.clock) result }
    {
        let TimedMachine { machine, .. } = self;
        Box::into_inner(machine)
    }
}
