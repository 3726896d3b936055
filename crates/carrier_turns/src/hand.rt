//! What a carrier holds between its turns, and what it does then.

ghost use Rattle.std.specs.Prelude.{◌<◌, ℕ, IfOk};
ghost use Rattle.machine.specs.Machines.{Known};
ghost use Rattle.machine.specs.Hands.{Idle};
ghost use Rattle.carrier_turns.specs.Hands.{Fits, FitsAnyAsBefore, FitsAsBefore, HasDone, MayFreeze, MayRun};
ghost use Rattle.carrier_turns.specs.Turns.{KeepsPressing};
ghost use Rattle.operand_soundness.specs.Ready.{IsReady};

use crate::ask::Ask;
use crate::local::{LocalRun, calls_clock, run_local};
use continuation::{Frozen, Mounted};
use invocation::InvocationCache;
use items::NoMemory;
use machine::ReadyProgram;
use std::alloc::Global;

/// What a carrier holds between its turns: the continuation of the thread that it has mounted, or that continuation frozen, and the local
/// instructions that it executed ahead of the history. `Fits` says when it is that of a carrier of a machine.
#[derive(Drop)]
pub struct Hand<'p> {
    pub(crate) mounted: Option<Mounted>,
    pub(crate) frozen: Option<Frozen>,
    pub(crate) local: Option<LocalRun<'p>>,
    pub(crate) cache: InvocationCache,
    pub(crate) asked: Ask,
    pub(crate) failed: bool,
}

impl<'p> Hand<'p> {
    /// A hand that holds nothing.
    pub fn new(alloc: Global) -> Result<Self, NoMemory>
        ensures fits { IfOk result (λ hand. (m : Known) (c : ℕ) → c < m.carriers → Idle m c
            → Fits m c hand) }
        ensures done { IfOk result HasDone }
    {
        let cache = InvocationCache::new(alloc)?;
        Ok(Hand {
            mounted: None,
            frozen: None,
            local: None,
            cache,
            asked: Ask::Nothing,
            failed: false,
        })
    }

    /// Whether the step of its next turn may read the clock: its thread runs, and calls a method that does.
    #[inline(always)]
    pub fn may_read_clock(&self, program: &ReadyProgram) -> bool {
        match &self.local {
            Some(run) => calls_clock(program, &run.next),
            None => false,
        }
    }

    /// Executes the local instructions of its thread, for which the last turn asked. If there is no memory for it, the hand has failed, and
    /// its next turn ends the run.
    #[inline(always)]
    pub fn local(&mut self, program: &'p ReadyProgram)
        requires ready { IsReady program.now }
        requires may { MayRun program.now self.old }
        ensures fits { FitsAsBefore program.now self.old self.new }
        ensures done { HasDone self.new }
        ensures presses { KeepsPressing self.old self.new }
    {
        self.asked = Ask::Nothing;
        let Some(mounted) = &mut self.mounted else {
            return;
        };
        match run_local(program, &mut self.cache, mounted) {
            Ok(run) => self.local = Some(run),
            Err(NoMemory) => self.failed = true,
        }
    }

    /// Freezes the continuation of its thread, for which the last turn asked. If there is no memory for it, the hand has failed.
    pub fn freeze(&mut self)
        requires { MayFreeze self.old }
        ensures fits { FitsAnyAsBefore self.old self.new }
        ensures done { HasDone self.new }
        ensures presses { KeepsPressing self.old self.new }
    {
        self.asked = Ask::Nothing;
        let Some(mounted) = self.mounted.take() else {
            return;
        };
        match mounted.freeze() {
            Ok(frozen) => self.frozen = Some(frozen),
            Err(mounted) => self.failed = true,
        }
    }
}
