//! The table of threads, and the calls that change it.

ghost use Rattle.std.specs.Prelude.{◌≡◌, ◌↔◌, ◌<◌, ℕ, [], ◌∷◌, ◌++◌, length, Some, Ok, Err, IsSome, IsTrue, IfOk, OnOk, OnErr, Contains};
ghost use Rattle.std.specs.List.Sorted.{IsStrictlyIncreasing};
ghost use Rattle.std.specs.Option.{option_map};
ghost use Rattle.vthread_state.specs.declared.error.ThreadError.TheVariants as errors;
ghost use Rattle.vthread_state.specs.declared.phase.Phase.TheVariants as phases;
ghost use Rattle.vthread_state.specs.declared.thread.Status.TheVariants as statuses;
ghost use Rattle.vthread_state.specs.JavaState.{java_state};
ghost use Rattle.vthread_state.specs.Threads.{IsInTable, goes_on, joins, new_thread, phase_at, status_at, target_of, target_of_status, thread_at, with_status, with_thread};

use crate::error::{NotNew, ThreadError};
use crate::java_state::JavaState;
use crate::joiners::{come, joined_by, leave};
use crate::phase::Phase;
use crate::thread::{Status, Thread, ThreadKind, recount};
use items::NoMemory;
use std::alloc::Global;
use std::marker::Model;
use thread_lists::ThreadLists;

/// The threads by number, who waits to join each of them, and how many of them keep the program going.
#[derive(Drop)]
pub struct ThreadTable {
    alloc: Global,
    limit: u32,
    threads: Vec<Thread>,
    joiners: ThreadLists,
    going: u32,
}

impl Model for ThreadTable {
    ghost use Rattle.vthread_state.specs.Threads.{Threads};

    ghost Value = { Threads };

    ghost use Rattle.vthread_state.specs.Table.{IsTable, table_view};

    ghost view = { table_view };

    ghost invariant = { IsTable };
}

impl ThreadTable {
    /// Makes a table without threads, with a limit on their number.
    pub fn new(alloc: Global, limit: u32) -> Result<Self, NoMemory>
        ensures { IfOk result (λ table. table ≡ record { threads = []; limit = limit }) }
    {
        Ok(ThreadTable {
            alloc,
            limit,
            threads: Vec::new(alloc),
            joiners: ThreadLists::new(alloc),
            going: 0,
        })
    }

    /// How many threads there are.
    pub fn count(&self) -> u32
        ensures { result ≡ length self.now.threads }
    {
        self.threads.len() as u32
    }

    /// One more thread, which is new: its number. After an error nothing changed.
    pub fn add(
        &mut self,
        kind: ThreadKind,
        daemon: bool,
        object: u32,
        name: u32,
    ) -> Result<u32, ThreadError>
        ensures number { IfOk result (λ t. t ≡ length self.old.threads) }
        ensures ok { OnOk result (self.new ≡ record self.old {
          threads = self.old.threads ++ new_thread kind daemon object name ∷ [];
        }) }
        ensures full { (result ≡ Err errors.Full) ↔ (length self.old.threads ≡ self.old.limit) }
        ensures err { OnErr result (self.new ≡ self.old) }
    {
        let t = self.threads.len() as u32;
        if t == self.limit {
            return Err(ThreadError::Full);
        }
        self.threads.reserve(1)?;
        self.joiners.room(t + 1)?;
        self.joiners.add_lists(1)?;
        self.threads.push_reserved(Thread {
            kind,
            daemon,
            object,
            name,
            status: Status::New,
        });
        Ok(t)
    }

    /// Starts a new thread: it is live, in phase Run (`Thread.start`). After an error nothing changed.
    pub fn start(&mut self, t: u32) -> Result<(), NotNew>
        requires { t < length self.old.threads }
        ensures new { (result ≡ Ok tt) ↔ (status_at self.old t ≡ Some statuses.New) }
        ensures ok { OnOk result (self.new ≡ with_status self.old t (statuses.Live phases.Run)) }
        ensures err { OnErr result (self.new ≡ self.old) }
    {
        match self.threads[t as usize].status {
            Status::New => {
                self.set_status(t, Status::Live(Phase::Run));
                Ok(())
            }
            _ => Err(NotNew),
        }
    }

    /// Whether a thread was started and didn't end (`Thread.isAlive`).
    pub fn is_alive(&self, t: u32) -> bool
        requires { t < length self.now.threads }
        ensures { IsTrue result ↔ IsSome (phase_at self.now t) }
    {
        matches!(self.threads[t as usize].status, Status::Live(_))
    }

    /// The phase of a live thread.
    pub fn phase(&self, t: u32) -> Phase
        requires { IsSome (phase_at self.now t) }
        ensures { phase_at self.now t ≡ Some result }
    {
        match self.threads[t as usize].status {
            Status::Live(phase) => phase,
            _ => unreachable!(),
        }
    }

    /// Gives a live thread another phase. This takes no memory.
    pub fn set_phase(&mut self, t: u32, phase: Phase)
        requires live { IsSome (phase_at self.old t) }
        requires target { IsInTable self.old (target_of phase) }
        ensures { self.new ≡ with_status self.old t (statuses.Live phase) }
    {
        self.set_status(t, Status::Live(phase));
    }

    /// Ends a live thread.
    pub fn finish(&mut self, t: u32)
        requires { IsSome (phase_at self.old t) }
        ensures { self.new ≡ with_status self.old t statuses.Done }
    {
        self.set_status(t, Status::Done);
    }

    /// The state of a thread as the Java program sees it (`Thread.getState`).
    pub fn state(&self, t: u32) -> JavaState
        requires { t < length self.now.threads }
        ensures { option_map java_state (status_at self.now t) ≡ Some result }
    {
        JavaState::from(self.threads[t as usize].status)
    }

    /// The threads that wait to join a thread, in rising order. It takes time by their number, and not by that of all threads.
    pub fn joiners(&self, t: u32) -> Result<Vec<u32>, NoMemory>
        requires { t < length self.now.threads }
        ensures just_these { IfOk result (λ v. (u : ℕ) →
            Contains v.items u ↔ (joins self.now u ≡ Some t)) }
        ensures rising { IfOk result (λ v. IsStrictlyIncreasing v.items) }
    {
        let mut threads = self.joiners.to_vec(self.alloc, t)?;
        threads.sort_unstable();
        Ok(threads)
    }

    /// Whether a thread that is no daemon was started and didn't end, so that the program goes on (JLS 12.8). The threads aren't looked at.
    pub fn goes_on(&self) -> bool
        ensures { result ≡ goes_on self.now }
    {
        self.going > 0
    }

    /// A thread as it is.
    pub fn row(&self, t: u32) -> Thread
        requires { t < length self.now.threads }
        ensures { thread_at self.now t ≡ Some result }
    {
        self.threads[t as usize]
    }

    /// Which kind of thread it is.
    pub fn kind(&self, t: u32) -> ThreadKind
        requires { t < length self.now.threads }
        ensures { option_map (λ thread. thread.kind) (thread_at self.now t) ≡ Some result }
    {
        self.threads[t as usize].kind
    }

    /// Whether a thread is a daemon (`Thread.isDaemon`).
    pub fn daemon(&self, t: u32) -> bool
        requires { t < length self.now.threads }
        ensures { option_map (λ thread. thread.daemon) (thread_at self.now t) ≡ Some result }
    {
        self.threads[t as usize].daemon
    }

    /// Makes a thread a daemon or not (`Thread.setDaemon`).
    pub fn set_daemon(&mut self, t: u32, daemon: bool)
        requires { t < length self.old.threads }
        ensures { self.new ≡ with_thread self.old t (λ thread. record thread { daemon = daemon }) }
    {
        let thread = &mut self.threads[t as usize];
        let before = thread.keeps_going();
        thread.daemon = daemon;
        self.going = recount(self.going, before, thread.keeps_going());
    }

    /// The number of a thread's Thread object.
    pub fn object(&self, t: u32) -> u32
        requires { t < length self.now.threads }
        ensures { option_map (λ thread. thread.object) (thread_at self.now t) ≡ Some result }
    {
        self.threads[t as usize].object
    }

    /// The number of the String that is a thread's name (`Thread.getName`).
    pub fn name(&self, t: u32) -> u32
        requires { t < length self.now.threads }
        ensures { option_map (λ thread. thread.name) (thread_at self.now t) ≡ Some result }
    {
        self.threads[t as usize].name
    }

    /// Gives a thread another name (`Thread.setName`).
    pub fn set_name(&mut self, t: u32, name: u32)
        requires { t < length self.old.threads }
        ensures { self.new ≡ with_thread self.old t (λ thread. record thread { name = name }) }
    {
        let thread = &mut self.threads[t as usize];
        thread.name = name;
    }

    fn set_status(&mut self, t: u32, status: Status)
        requires thread { t < length self.old.threads }
        requires target { IsInTable self.old (target_of_status status) }
        ensures { self.new ≡ with_status self.old t status }
    {
        let thread = &mut self.threads[t as usize];
        let target = joined_by(thread.status);
        let before = thread.keeps_going();
        thread.status = status;
        self.going = recount(self.going, before, thread.keeps_going());
        leave(&mut self.joiners, t, target);
        come(&mut self.joiners, t, joined_by(status));
    }
}
