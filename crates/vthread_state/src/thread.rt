//! What the table has of each thread.

ghost use Rattle.std.specs.Prelude.{◌≡◌, ◌+◌, ◌<◌, true, false};
ghost use Rattle.vthread_state.specs.Threads.{keeps_going, times_true};

use crate::phase::Phase;

/// Which kind of thread it is (JEP 444).
#[derive(Clone, Copy, Debug, PartialEq, Eq)]
pub enum ThreadKind {
    Platform,
    Virtual,
}

/// How far a thread is.
#[derive(Clone, Copy, Debug, PartialEq, Eq)]
pub enum Status {
    /// It wasn't started.
    New,
    /// It was started, and didn't end.
    Live(Phase),
    /// It ended.
    Done,
}

/// A thread. `object` is the number of its Thread object, and `name` that of its name's String.
#[derive(Clone, Copy, Debug, PartialEq, Eq)]
pub struct Thread {
    pub kind: ThreadKind,
    pub daemon: bool,
    pub object: u32,
    pub name: u32,
    pub status: Status,
}

impl Thread {
    /// Whether it keeps the program going: it was started, didn't end, and is no daemon (JLS 12.8).
    pub(crate) fn keeps_going(&self) -> bool
        ensures { result ≡ keeps_going self.now }
    {
        matches!(self.status, Status::Live(_)) && !self.daemon
    }
}

// How many of some things have a property, after one of them has it or not, which had it before or not.
pub(crate) fn recount(count: u32, before: bool, after: bool) -> u32
    requires some { before ≡ true → 0 < count }
    requires few { before ≡ false → count < 4294967295 }
    ensures { result + times_true before ≡ count + times_true after }
{
    match (before, after) {
        (false, true) => count + 1,
        (true, false) => count - 1,
        _ => count,
    }
}
