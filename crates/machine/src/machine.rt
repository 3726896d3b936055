//! A machine: the state in which a program is, and what its carriers have, with the history that gives both.

ghost use Rattle.std.specs.Prelude.{◌≡◌, ◌≤◌, ◌<◌, ◌-◌, ℕ, None, Some, drop, is_some, length, vec_capacity, IfNone, IfOk, IfSome, IsTrue, MatchBool, OnErr, OnOk, false, ◌≢◌};
ghost use Rattle.history.specs.declared.entry.What.TheVariants as whats;
ghost use Rattle.ref_model.specs.declared.ending.Ending.TheVariants as endings;
ghost use Rattle.ref_model.specs.Looks.{is_stalled, look_of};
ghost use Rattle.ref_model.specs.Step.{enabled};
ghost use Rattle.schedule_model.specs.Run.{Scheduled};
ghost use Rattle.step_soundness.specs.OpeningLaws.{IsMain};
ghost use Rattle.link_soundness.specs.Library.{HasLibrary};
ghost use Rattle.startup.specs.Openings.{setting};
ghost use Rattle.machine.specs.Machines.{Given, Known, at_first, errors, limit_reached, machine_ending, output, with_ending, with_entry};
ghost use Rattle.machine.specs.Hands.{AreDequesEmpty, AreTypedInRun, HasEnded, HasPhase, Holds, Idle, IsFirstInDeque, IsLoose, IsMounted, Lives, MayStep, MayUnmount, OwesNothing, TellsIfInDeque};
ghost use Rattle.machine.specs.Legal.{GoesOn, HasEntryLeft, HasNotStalled, HasNotStarved, IsLegal, Works};
ghost use Rattle.machine.specs.Clocks.{Awaits, AwaitsNothing, IsBefore, IsEarliest};
ghost use Rattle.machine.specs.Live.{ListsLive, ListsMounted};
ghost use Rattle.machine.specs.Turns.{HasStepped, IsInTime, IsStepReady, Steps};
ghost use Rattle.machine.specs.declared.after.After.TheVariants as After;
ghost use Rattle.invocation.specs.InvocationCache.{AreSelected};

use crate::after::After;
use crate::begin::{first_deques, first_mounted, first_pins, first_state};
use crate::carriers::{put_frozen, put_if, set_mounted, take_frozen};
use crate::endings::{ended_within, limit_within, may_step};
use crate::entries::{MOST_STEPS, enter_step, make_step, pick_of};
use crate::laws::{is_accepted, main_pins};
use crate::live::{live_in, mounted_in};
use crate::pins::{note_pins, set_pin};
use crate::puts::put_due;
use crate::stalls::{any_deque_goes, any_enabled, first_going};
use continuation::{Frozen, Mounted};
use history::{Entry, What};
use interp_local::Fetched;
use invocation::{InvocationCache, is_pinned};
use items::NoMemory;
use program_state::{ProgramState, earliest, pass_time};
use ref_model::{Ending, Limits};
use run_deques::Deques;
use startup::{ReadyProgram, open_typed};
use std::alloc::Global;
use std::marker::Model;
use vthread_state::Phase;

/// A program that runs, its threads on carriers, with the history of its run. Contracts see what it was given and the history. The type's
/// invariant says that its state, its deques and what its carriers have are those that the history gives, but for the frames of mounted
/// threads, which their carriers have.
#[derive(Drop)]
pub struct Machine<'p> {
    program: &'p ReadyProgram,
    main: u32,
    limits: Limits,
    carriers: u32,
    state: ProgramState,
    deques: Deques,
    mounted: Vec<Option<u32>>,
    // By carrier, whether its thread is pinned, for each that doesn't just go on.
    pins: Vec<bool>,
    history: Vec<Entry>,
    told: Option<Ending>,
}

/// The history of a run, and what the program wrote to its two streams.
#[derive(Drop)]
pub struct Written {
    pub history: Vec<Entry>,
    pub out: Vec<u8>,
    pub err: Vec<u8>,
}

impl<'p> Model for Machine<'p> {
    ghost use Rattle.machine.specs.Machines.{Known};

    ghost Value = { Known };

    ghost use Rattle.machine.specs.Insides.{known, IsSound};

    ghost view = { known };

    ghost invariant = { IsSound };
}

impl<'p> Machine<'p> {
    /// Begins a program whose main method has this number, with an empty history. A program that can't begin counts as memory run out.
    pub fn begin(
        alloc: Global,
        program: &'p ReadyProgram,
        main: u32,
        limits: Limits,
        carriers: u32,
    ) -> Result<Self, NoMemory>
        requires library { HasLibrary program.now.program }
        requires main { IsMain program.now main }
        requires carriers { 0 < carriers }
        ensures { IfOk result (λ m. m ≡ at_first (setting program.now main limits) carriers) }
    {
        if main_pins(program, main) {
            return Err(NoMemory);
        }
        is_accepted(program, main, limits);
        let opened = open_typed(alloc, program, main, limits)?;
        Ok(Machine {
            program,
            main,
            limits,
            carriers,
            state: first_state(alloc, opened, limits)?,
            deques: first_deques(alloc, carriers)?,
            mounted: first_mounted(alloc, carriers)?,
            pins: first_pins(alloc, carriers)?,
            history: Vec::new(alloc),
            told: None,
        })
    }

    /// That each entry of the history may stand where it stands, that there are no more than the limit allows, and that an ending that was
    /// told has its cause.
    #[inline(always)]
    pub fn is_legal(&self)
        ensures { IsLegal self.now }
    {
        let _ = &self.history;
    }

    /// How the run has ended, if it has: as was told, as the program did, or since fewer entries are left than a carrier's turn may make.
    #[inline(always)]
    pub fn ending(&self) -> Option<Ending>
        ensures { result ≡ machine_ending self.now }
    {
        match self.told {
            Some(told) => Some(told),
            None => ended_within(&self.state, self.limits, self.history.len()),
        }
    }

    /// Whether fewer entries are left than a carrier's turn may make.
    #[inline(always)]
    pub fn is_at_limit(&self) -> bool
        ensures { result ≡ is_some (limit_reached self.now.setting.limits
            (length self.now.history)) }
    {
        limit_within(self.limits, self.history.len()).is_some()
    }

    /// The entries so far.
    pub fn history(&self) -> &[Entry]
        ensures { result.now ≡ self.now.history }
    {
        self.history.as_slice()
    }

    /// How many carriers there are.
    pub fn carriers(&self) -> u32
        ensures { result ≡ self.now.carriers }
    {
        self.carriers
    }

    /// For how many more entries there is memory.
    pub fn spare(&self) -> usize
        ensures { result ≡ self.now.spare }
    {
        self.history.capacity() - self.history.len()
    }

    /// Makes room for the entries of a turn. Nothing else changes.
    pub fn room(&mut self) -> Result<(), NoMemory>
        ensures ok { OnOk result (3 ≤ self.new.spare) }
        ensures kept { self.new ≡ record self.old { spare = self.new.spare } }
    {
        self.history.reserve(3)?;
        Ok(())
    }

    /// What the program has written to its output, but for the first n bytes.
    pub fn output_from(&self, n: usize) -> &[u8]
        requires works { Works self.now }
        requires there { n ≤ length (output self.now) }
        ensures { result.now ≡ drop n (output self.now) }
    {
        self.state.memory.natives.out.split_at(n).1
    }

    /// What the program has written to its error output, but for the first n bytes.
    pub fn errors_from(&self, n: usize) -> &[u8]
        requires works { Works self.now }
        requires there { n ≤ length (errors self.now) }
        ensures { result.now ≡ drop n (errors self.now) }
    {
        self.state.memory.natives.err.split_at(n).1
    }

    /// Whether a live thread has a deadline that is still to come and is reached at this time, in nanoseconds.
    #[inline(always)]
    pub fn is_awaited(&self, now: u64) -> bool
        requires works { Works self.now }
        ensures yes { IsTrue result → Awaits self.now now }
        ensures no { result ≡ false → AwaitsNothing self.now now }
    {
        match earliest(&self.state) {
            Some(deadline) => deadline <= now,
            None => false,
        }
    }

    /// The least deadline of a live thread that is still to come, in nanoseconds. `None`: there is none.
    pub fn earliest(&self) -> Option<u64>
        requires works { Works self.now }
        ensures { IsEarliest self.now result }
    {
        earliest(&self.state)
    }

    /// Lets time go on to this, in nanoseconds. Threads whose deadlines it reaches, and that are in no place, come to the deque of the carrier, in
    /// the order of the deadlines, and of their numbers at one deadline. Where memory runs out nothing changes.
    pub fn clock(&mut self, c: u32, now: u64) -> Result<(), NoMemory>
        requires carrier { c < self.old.carriers }
        requires going { GoesOn self.old }
        requires left { HasEntryLeft self.old }
        requires spare { 0 < self.old.spare }
        requires later { IsBefore self.old now }
        ensures entry { OnOk result (self.new ≡ with_entry self.old c (whats.Clock now)) }
        ensures goes_on { OnOk result (GoesOn self.new) }
        ensures err { OnErr result (self.new ≡ self.old) }
    {
        let due = pass_time(&mut self.state, now)?;
        put_due(&self.state, &mut self.deques, c, due.as_slice());
        self.history.push_reserved(Entry {
            carrier: c,
            what: What::Clock(now),
        });
        Ok(())
    }

    /// Gives the run up.
    pub fn fail(&mut self)
        requires { machine_ending self.old ≡ None }
        ensures { self.new ≡ with_ending self.old endings.Halted }
    {
        self.told = Some(Ending::Halted);
    }

    /// An idle carrier takes up a thread: the first of its own deque, or of the next one that isn't empty. `None`: all deques are empty.
    pub fn next(&mut self, c: u32) -> Option<Frozen>
        requires carrier { c < self.old.carriers }
        requires going { machine_ending self.old ≡ None }
        requires idle { Idle self.old c }
        requires spare { 0 < self.old.spare }
        ensures entry { IfSome result (λ f.
            self.new ≡ with_entry self.old c (whats.Mount f.thread)) }
        ensures hand { IfSome result (λ f.
            Holds self.new c f.thread 0 f.stack.frames) }
        ensures live { IfSome result (λ f. Lives self.new f.thread) }
        ensures free { IfSome result (λ f. OwesNothing self.new f.thread) }
        ensures loose { IfSome result (λ f. IsLoose self.new f.thread) }
        ensures goes_on { IfSome result (λ f. GoesOn self.new) }
        ensures none { IfNone result (self.new ≡ self.old) }
        ensures empty { IfNone result (AreDequesEmpty self.old) }
    {
        let (_, t) = self.deques.take(c)?;
        let frozen = take_frozen(&mut self.state.frozen, t);
        set_mounted(&mut self.mounted, c, Some(t));
        set_pin(&mut self.pins, c, false);
        self.history.push_reserved(Entry {
            carrier: c,
            what: What::Mount(t),
        });
        Some(frozen)
    }

    /// A carrier puts down its thread, with its frames. The thread comes to the carrier's deque where it may step.
    pub fn settle(&mut self, c: u32, frozen: Frozen)
        requires going { GoesOn self.old }
        requires left { HasEntryLeft self.old }
        requires spare { 0 < self.old.spare }
        requires hand { Holds self.old c frozen.thread 0 frozen.stack.frames }
        requires may { MayUnmount self.old c frozen.thread }
        ensures entry { self.new ≡ with_entry self.old c (whats.Unmount frozen.thread) }
        ensures idle { Idle self.new c }
    {
        let t = frozen.thread();
        let goes_on = may_step(&self.state, t);
        let live = self.state.threads.is_alive(t);
        put_frozen(&mut self.state.frozen, t, frozen, live);
        set_mounted(&mut self.mounted, c, None);
        put_if(&mut self.deques, c, t, goes_on);
        self.history.push_reserved(Entry {
            carrier: c,
            what: What::Unmount(t),
        });
    }

    /// A carrier puts down its thread, which has ended.
    pub fn retire(&mut self, c: u32, t: u32)
        requires told { self.old.told ≡ None }
        requires left { HasEntryLeft self.old }
        requires spare { 0 < self.old.spare }
        requires ended { HasEnded self.old t }
        requires may { MayUnmount self.old c t }
        ensures entry { self.new ≡ with_entry self.old c (whats.Unmount t) }
        ensures idle { Idle self.new c }
    {
        set_mounted(&mut self.mounted, c, None);
        self.history.push_reserved(Entry {
            carrier: c,
            what: What::Unmount(t),
        });
    }

    /// The thread at the front of a carrier's deque, if there is one.
    pub fn first_in_deque(&self, c: u32) -> Option<u32>
        requires works { Works self.now }
        requires carrier { c < self.now.carriers }
        ensures { IsFirstInDeque self.now c result }
    {
        self.deques.first(c)
    }

    /// Whether a thread is in a carrier's deque.
    pub fn is_in_deque(&self, t: u32) -> bool
        requires works { Works self.now }
        ensures { TellsIfInDeque self.now t result }
    {
        self.deques.holds(t)
    }

    /// Whether a thread that is mounted may step.
    pub fn is_enabled(&self, t: u32) -> bool
        requires works { Works self.now }
        requires mounted { IsMounted self.now t }
        ensures { Given self.now (λ v. result ≡ enabled v.state t) }
    {
        may_step(&self.state, t)
    }

    /// Whether the thread that a carrier has mounted is pinned to it (JEP 444).
    pub fn is_pinned(&self, c: u32, mounted: &Mounted) -> bool
        requires { Holds self.now c mounted.now.thread 0 mounted.now.stack.frames }
        ensures { Given self.now (λ v.
            result ≡ (look_of self.now.setting.world v.state).pinned mounted.now.thread) }
    {
        let _ = c;
        is_pinned(self.program, mounted)
    }

    /// The phase of a live thread.
    pub fn phase(&self, t: u32) -> Phase
        requires works { Works self.now }
        requires live { Lives self.now t }
        ensures { HasPhase self.now t result }
    {
        self.state.threads.phase(t)
    }

    /// The next step of the thread that a carrier has mounted, after n local instructions that the history doesn't have yet. Where the thread
    /// runs `next` is its instruction, which isn't one that stays in its frame. The entry goes to the history, unless the run halts. Where the
    /// step reads the clock, and the time is less than `now` in nanoseconds, nothing is done.
    #[inline(always)]
    pub fn step(
        &mut self,
        alloc: Global,
        cache: &mut InvocationCache,
        mounted: &mut Mounted,
        c: u32,
        n: u32,
        next: Option<Fetched<'p>>,
        now: u64,
    ) -> After
        requires going { GoesOn self.old }
        requires left { HasEntryLeft self.old }
        requires spare { 0 < self.old.spare }
        requires hand { Holds self.old c mounted.old.thread n mounted.old.stack.frames }
        requires free { OwesNothing self.old mounted.old.thread }
        requires enabled { MayStep self.old mounted.old.thread }
        requires ready { IsStepReady self.old mounted.old.thread n mounted.old.stack.frames next }
        requires selected { AreSelected self.old.setting.world cache.old }
        ensures step { Steps result self.old self.new c mounted.old.thread n now
            mounted.old.stack.frames mounted.new.stack.frames }
        ensures in_time { IsInTime result self.old mounted.old.thread now
            mounted.old.stack.frames }
        ensures thread { result ≢ After.Halts → mounted.new.thread ≡ mounted.old.thread }
        ensures kept { result ≡ After.ReadsClock → mounted.new ≡ mounted.old }
        ensures cache { AreSelected self.old.setting.world cache.new }
    {
        let t = mounted.thread();
        let tried = make_step(
            alloc,
            self.program,
            cache,
            &mut self.state,
            &mut self.deques,
            mounted,
            c,
            next,
            now,
        );
        note_pins(
            self.program,
            &self.state,
            mounted,
            &mut self.pins,
            c,
            t,
            tried,
        );
        let step = What::Step {
            thread: t,
            steps: n + 1,
            pick: pick_of(tried),
        };
        enter_step(
            &mut self.history,
            &mut self.told,
            c,
            step,
            tried,
            self.limits.threads,
        )
    }

    /// The entry of 10,001 local instructions that the thread of a carrier made.
    #[inline(always)]
    pub fn slice(&mut self, c: u32, mounted: &Mounted)
        requires going { GoesOn self.old }
        requires left { HasEntryLeft self.old }
        requires spare { 0 < self.old.spare }
        requires hand { Holds self.old c mounted.now.thread 10001 mounted.now.stack.frames }
        requires free { OwesNothing self.old mounted.now.thread }
        ensures { HasStepped After.Goes self.old self.new c mounted.now.thread 10000
            mounted.now.stack.frames mounted.now.stack.frames }
    {
        self.history.push_reserved(Entry {
            carrier: c,
            what: What::Step {
                thread: mounted.thread(),
                steps: MOST_STEPS,
                pick: None,
            },
        });
    }

    /// Ends the run where no thread can go on: whether it does. Mounted threads are looked at, then whether a deadline is to come, and then the
    /// threads in deques, up to the first that may step.
    pub fn stall(&mut self) -> bool
        requires { machine_ending self.old ≡ None }
        ensures { MatchBool result (self.new ≡ with_ending self.old endings.Stalled)
            (HasNotStalled self.old self.new) }
    {
        if any_enabled(&self.state, self.mounted.as_slice()) {
            return false;
        }
        if earliest(&self.state).is_some() {
            return false;
        }
        if any_deque_goes(&self.state, &self.deques, self.carriers) {
            return false;
        }
        self.told = Some(Ending::Stalled);
        true
    }

    /// Ends the run where each carrier has a pinned thread that can't go on, while another thread could: whether it does.
    pub fn starve(&mut self) -> bool
        requires going { machine_ending self.old ≡ None }
        requires some { Given self.old (λ v. is_stalled self.old.setting.world v.state ≡ false) }
        ensures { MatchBool result (self.new ≡ with_ending self.old endings.Starved)
            (HasNotStarved self.old self.new) }
    {
        if first_going(&self.state, self.mounted.as_slice(), self.pins.as_slice()).is_some() {
            return false;
        }
        self.told = Some(Ending::Starved);
        true
    }

    /// The frames of a mounted thread that runs keep to the typing. This does nothing.
    pub fn frames_are_typed(&self, c: u32, mounted: &Mounted)
        requires { Holds self.now c mounted.now.thread 0 mounted.now.stack.frames }
        ensures { AreTypedInRun self.now mounted.now.thread mounted.now.stack.frames }
    {
        let _ = &self.history;
        let _ = c;
        let _ = mounted.depth();
    }

    /// The program that it runs.
    #[inline(always)]
    pub fn program(&self) -> &'p ReadyProgram
        ensures { result.now ≡ self.now.setting.world }
    {
        self.program
    }

    /// The numbers of the live threads, rising.
    pub fn live_threads(&self, alloc: Global) -> Result<Vec<u32>, NoMemory>
        requires { Works self.now }
        ensures { IfOk result (λ live. ListsLive self.now live.items) }
    {
        live_in(alloc, &self.state.threads)
    }

    /// The threads that carriers have mounted, in the order of the carriers.
    pub fn mounted_threads(&self, alloc: Global) -> Result<Vec<u32>, NoMemory>
        requires { Works self.now }
        ensures { IfOk result (λ threads. ListsMounted self.now threads.items) }
    {
        mounted_in(alloc, self.mounted.as_slice())
    }

    /// The history, and what the program wrote to its two streams.
    pub fn into_written(self) -> Written
        requires { Works self }
        ensures history { result.history.items ≡ self.entry.history }
        ensures out { result.out.items ≡ output self.entry }
        ensures err { result.err.items ≡ errors self.entry }
    {
        let Machine { history, state, .. } = self;
        Written {
            history,
            out: state.memory.natives.out,
            err: state.memory.natives.err,
        }
    }
}
