//! What changes a row of the table of threads (java.lang.Thread: setDaemon, setName).

ghost use Rattle.std.specs.Prelude.{◌≡◌, ◌&&◌, ℕ, not, if◌then◌else◌, IfOk};
ghost use Rattle.link_model.specs.World.{World};
ghost use Rattle.ref_model.specs.Requesting as requesting;
ghost use Rattle.schedule_soundness.specs.PutLaws.{OthersStay};
ghost use Rattle.program_state.specs.Replies.{Answers};

use crate::reply::Reply;
use crate::request_rows::{is_live, is_virtual};
use crate::state::{ProgramState, row_at};
use items::NoMemory;
use ref_model::{Exception, ThreadRequest};
use vthread_state::Thread;

// Whether a thread is a daemon after setDaemon: a virtual thread stays one.
fn daemon_after(row: Thread, daemon: bool) -> bool
    ensures { result ≡ (if requesting.is_virtual row.kind then row.daemon else daemon) }
{
    if is_virtual(row.kind) {
        row.daemon
    } else {
        daemon
    }
}

// Whether setDaemon doesn't do this to a thread: a virtual thread is a daemon.
fn refuses_daemon(row: Thread, daemon: bool) -> bool
    ensures { result ≡ (requesting.is_virtual row.kind && not daemon) }
{
    is_virtual(row.kind) && !daemon
}

/// setDaemon. A virtual thread is a daemon, and a thread that runs isn't changed.
pub(crate) fn set_daemon(state: &mut ProgramState, u: u32, daemon: bool) -> Result<Reply, NoMemory>
    ensures answers { (w : World) (t : ℕ) → IfOk result (Answers w
        (ThreadRequest.SetsDaemon u daemon) (OthersStay t) t state.old state.new) }
    ensures monitors { state.new.monitors ≡ state.old.monitors }
{
    let row = row_at(&state.threads, u)?;
    if refuses_daemon(row, daemon) {
        return Ok(Reply::Throws(Exception::IllegalArgumentException));
    }
    if is_live(row.status) {
        return Ok(Reply::Throws(Exception::IllegalThreadStateException));
    }
    state.threads.set_daemon(u, daemon_after(row, daemon));
    Ok(Reply::Goes)
}

/// setName, by the String.
pub(crate) fn set_name(state: &mut ProgramState, u: u32, name: u32) -> Result<Reply, NoMemory>
    ensures answers { (w : World) (t : ℕ) → IfOk result (Answers w (ThreadRequest.SetsName u name)
        (OthersStay t) t state.old state.new) }
    ensures monitors { state.new.monitors ≡ state.old.monitors }
{
    row_at(&state.threads, u)?;
    state.threads.set_name(u, name);
    Ok(Reply::Goes)
}
