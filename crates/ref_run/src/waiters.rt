//! What goes over all threads: who waits on a monitor, who keeps the program going, and time that goes on.

ghost use Rattle.std.specs.Prelude.{◌≡◌, ◌<◌, Some, length, map, slice_get, slice_set};
ghost use Rattle.std.specs.List.{list_any};
ghost use Rattle.ref_model.specs.Ending as ending;
ghost use Rattle.ref_model.specs.State as model;
ghost use Rattle.ref_model.specs.Waiting as waiting;
ghost use Rattle.ref_run.specs.States.{state_of};

use crate::state::RefState;
use crate::statuses::is_live;
use crate::thread_row::ThreadRow;

// Whether a thread keeps the program going.
fn keeps_going(row: &ThreadRow) -> bool
    ensures { result ≡ ending.keeps_going row.now }
{
    let thread = row.thread();
    is_live(thread.status) && !thread.daemon
}

// Whether any thread keeps the program going.
fn any_keeps_going(threads: &[ThreadRow]) -> bool
    ensures { result ≡ list_any ending.keeps_going threads.now }
{
    for row in threads {
        if keeps_going(row) {
            return true;
        }
    }
    false
}

/// Whether a thread that is no daemon was started and didn't end.
pub(crate) fn goes_on(state: &RefState) -> bool
    ensures { result ≡ list_any ending.keeps_going (state_of state.now).threads }
{
    any_keeps_going(state.threads.as_slice())
}

// Whether any thread waits to be notified on a monitor.
fn any_waits_on(threads: &[ThreadRow], o: u32) -> bool
    ensures { result ≡ list_any (waiting.thread_waits_on o) threads.now }
{
    for row in threads {
        if row.waits_on(o) {
            return true;
        }
    }
    false
}

/// Whether any thread waits to be notified on a monitor.
pub(crate) fn has_waiter(state: &RefState, o: u32) -> bool
    ensures { result ≡ waiting.has_waiter (state_of state.now) o }
{
    any_waits_on(state.threads.as_slice(), o)
}

// Notifies the thread with this number, where it waits on a monitor.
fn notify_row(threads: &mut [ThreadRow], i: usize, o: u32)
    requires { i < length threads.old }
    ensures { (x : model.JavaThread) → slice_get threads.old i ≡ Some x
        → threads.new ≡ slice_set threads.old i (waiting.notified_on o x) }
{
    let row = &mut threads[i];
    row.notify_on(o);
}

// Notifies each thread that waits on a monitor.
fn notify_rows(threads: &mut [ThreadRow], o: u32)
    ensures { threads.new ≡ map (waiting.notified_on o) threads.old }
{
    for i in 0..threads.len() {
        notify_row(threads, i, o);
    }
}

/// Notifies each thread that waits on a monitor.
pub(crate) fn notify_each(state: &mut RefState, o: u32)
    ensures { state_of state.new ≡ waiting.with_all_notified (state_of state.old) o }
{
    notify_rows(state.threads.as_mut_slice(), o);
}

// The wait of a thread ends, where its deadline is reached.
fn pass_row(threads: &mut [ThreadRow], i: usize, now: u64)
    requires { i < length threads.old }
    ensures { (x : model.JavaThread) → slice_get threads.old i ≡ Some x
        → threads.new ≡ slice_set threads.old i (waiting.thread_at_time now x) }
{
    let row = &mut threads[i];
    row.pass_time(now);
}

// The waits on monitors end whose deadlines are reached.
fn pass_rows(threads: &mut [ThreadRow], now: u64)
    ensures { threads.new ≡ map (waiting.thread_at_time now) threads.old }
{
    for i in 0..threads.len() {
        pass_row(threads, i, now);
    }
}

/// Lets time go on to this one.
pub(crate) fn pass_time(state: &mut RefState, now: u64)
    ensures { state_of state.new ≡ record (state_of state.old) {
      now = now;
      threads = map (waiting.thread_at_time now) (state_of state.old).threads;
    } }
{
    pass_rows(state.threads.as_mut_slice(), now);
    state.time = now;
}
