//! One thread, with its whole stack.

ghost use Rattle.std.specs.Prelude.{◌≡◌, [], true, false, if◌then◌else◌, length, nat_lt};
ghost use Rattle.ref_model.specs.Requesting as requesting;
ghost use Rattle.ref_model.specs.Resuming as resuming;
ghost use Rattle.ref_model.specs.Waiting as waiting;

use crate::statuses::{is_live, is_virtual, status_at_time, status_waits_on, status_woken};
use continuation::Mounted;
use std::alloc::Global;
use std::marker::Model;
use std::mem;
use vthread_state::{Status, Thread, Wake};

// The number of the monitor of class 0, which no object has.
const CLASS_MONITORS: u32 = 0xffff0000;

/// A thread: what the definitions' table of threads has of it, its permit, its interrupt status, and its frames.
#[derive(Drop)]
pub(crate) struct ThreadRow {
    thread: Thread,
    permit: bool,
    interrupted: bool,
    mounted: Mounted,
}

impl Model for ThreadRow {
    ghost use Rattle.ref_model.specs.State.{JavaThread};

    ghost Value = { JavaThread };

    ghost view = { λ a. record {
      thread = a.thread;
      permit = a.permit;
      interrupted = a.interrupted;
      frames = a.mounted.stack.frames;
    } };
}

impl ThreadRow {
    /// A thread with these frames, which has neither a permit nor an interrupt.
    pub(crate) fn new(thread: Thread, mounted: Mounted) -> Self
        ensures { result ≡ record {
          thread = thread;
          permit = false;
          interrupted = false;
          frames = mounted.stack.frames;
        } }
    {
        ThreadRow {
            thread,
            permit: false,
            interrupted: false,
            mounted,
        }
    }

    /// What the table of threads has of it.
    pub(crate) fn thread(&self) -> Thread
        ensures { result ≡ self.now.thread }
    {
        self.thread
    }

    /// Whether it has a permit (LockSupport).
    pub(crate) fn permit(&self) -> bool
        ensures { result ≡ self.now.permit }
    {
        self.permit
    }

    /// Its interrupt status.
    pub(crate) fn interrupted(&self) -> bool
        ensures { result ≡ self.now.interrupted }
    {
        self.interrupted
    }

    /// Whether it waits to be notified on this monitor.
    pub(crate) fn waits_on(&self, o: u32) -> bool
        ensures { result ≡ waiting.thread_waits_on o self.now }
    {
        status_waits_on(o, self.thread.status)
    }

    /// Whether it has frames.
    pub(crate) fn has_frames(&self) -> bool
        ensures { result ≡ nat_lt 0 (length self.now.frames) }
    {
        self.mounted.depth() > 0
    }

    /// Whether it hasn't begun its first frame, and waits for the monitor of an object.
    pub(crate) fn is_first_entry(&self, o: u32) -> bool
        ensures { result ≡ resuming.is_first_entry o self.now.frames }
    {
        self.mounted.depth() > 0 && (self.mounted.top().pc == 0 && o < CLASS_MONITORS)
    }

    /// Gives it another status.
    pub(crate) fn set_status(&mut self, status: Status)
        ensures { self.new ≡ record self.old {
          thread = record self.old.thread { status = status };
        } }
    {
        self.thread.status = status;
    }

    /// Gives it a permit, or takes it.
    pub(crate) fn set_permit(&mut self, permit: bool)
        ensures { self.new ≡ record self.old { permit = permit } }
    {
        self.permit = permit;
    }

    /// Sets its interrupt status, or clears it.
    pub(crate) fn set_interrupted(&mut self, interrupted: bool)
        ensures { self.new ≡ record self.old { interrupted = interrupted } }
    {
        self.interrupted = interrupted;
    }

    /// Gives it another name.
    pub(crate) fn set_name(&mut self, name: u32)
        ensures { self.new ≡ requesting.with_name name self.old }
    {
        self.thread.name = name;
    }

    /// Makes it a daemon or none: a virtual thread stays one.
    pub(crate) fn set_daemon(&mut self, daemon: bool)
        ensures { self.new ≡ requesting.with_daemon daemon self.old }
    {
        self.thread.daemon = daemon_after(self.thread, daemon);
    }

    /// Ends its wait on a monitor, if it is in one.
    pub(crate) fn wake(&mut self, wake: Wake)
        ensures { self.new ≡ waiting.thread_woken wake self.old }
    {
        self.thread.status = status_woken(wake, self.thread.status);
    }

    /// Notifies it, where it waits on this monitor.
    pub(crate) fn notify_on(&mut self, o: u32)
        ensures { self.new ≡ waiting.notified_on o self.old }
    {
        if self.waits_on(o) {
            self.wake(Wake::Notified);
        }
    }

    /// Gives it a permit, where it is live.
    pub(crate) fn unpark(&mut self)
        ensures { self.new ≡ requesting.thread_unparked self.old }
    {
        if is_live(self.thread.status) {
            self.permit = true;
        }
    }

    /// Sets its interrupt status and ends its wait on a monitor, where it is live.
    pub(crate) fn interrupt(&mut self)
        ensures { self.new ≡ requesting.thread_interrupted self.old }
    {
        if is_live(self.thread.status) {
            self.wake(Wake::Interrupted);
            self.set_interrupted(true);
        }
    }

    /// Ends its wait on a monitor, if it is in one whose deadline is reached.
    pub(crate) fn pass_time(&mut self, now: u64)
        ensures { self.new ≡ waiting.thread_at_time now self.old }
    {
        self.thread.status = status_at_time(now, self.thread.status);
    }

    /// Takes its frames.
    pub(crate) fn take_frames(&mut self, alloc: Global) -> Mounted
        ensures taken { result.stack.frames ≡ self.old.frames }
        ensures left { self.new ≡ record self.old { frames = [] } }
    {
        mem::replace(&mut self.mounted, Mounted::new(alloc, 0))
    }

    /// Gives it these frames in place of its own.
    pub(crate) fn put_frames(&mut self, mounted: Mounted)
        ensures { self.new ≡ record self.old { frames = mounted.stack.frames } }
    {
        self.mounted = mounted;
    }
}

// Whether a thread is a daemon after setDaemon.
fn daemon_after(thread: Thread, daemon: bool) -> bool
    ensures { result ≡ if requesting.is_virtual thread.kind then thread.daemon else daemon }
{
    if is_virtual(thread.kind) {
        thread.daemon
    } else {
        daemon
    }
}
