//! Threads that are made (java.lang.Thread).

ghost use Rattle.std.specs.Prelude.{◌≡◌, IfOk, OnOk, true};
ghost use Rattle.link_model.specs.World.{World};
ghost use Rattle.vthread_state.specs.Threads as table;
ghost use Rattle.schedule_soundness.specs.PutLaws.{OthersStay};
ghost use Rattle.program_state.specs.Creating.{IsAdded, has_room};
ghost use Rattle.program_state.specs.Monitors.{HaveSameLists};
ghost use Rattle.program_state.specs.Replies.{Answers};

use crate::reply::Reply;
use crate::state::{ProgramState, row_at};
use items::NoMemory;
use ref_model::{Exception, ThreadRequest};
use std::alloc::Global;
use thread_calls::{count_unnamed, first_daemon, name_of, number_object};
use vthread_state::ThreadKind;

// One more thread, which wasn't started and has no frames.
fn add_thread(
    state: &mut ProgramState,
    kind: ThreadKind,
    daemon: bool,
    object: u32,
    name: u32,
) -> Result<(), NoMemory>
    ensures { OnOk result (IsAdded (table.new_thread kind daemon object name)
        state.old state.new) }
{
    state.frozen.reserve(1)?;
    state.keys.reserve(1)?;
    state.wakes.add()?;
    state.monitors.add_thread()?;
    if state.threads.add(kind, daemon, object, name).is_err() {
        return Err(NoMemory);
    }
    state.frozen.push_reserved(None);
    state.keys.push_reserved(None);
    Ok(())
}

/// Makes a thread of a Thread object, where there may be one more. Where there is no room for its name, nothing is made.
pub(crate) fn create_thread(
    alloc: Global,
    state: &mut ProgramState,
    t: u32,
    kind: ThreadKind,
    object: u32,
    name: Option<u32>,
) -> Result<Reply, NoMemory>
    requires { has_room state.old ≡ true }
    ensures answers { (w : World) → IfOk result (Answers w (ThreadRequest.Creates kind object name)
        (OthersStay t) t state.old state.new) }
    ensures lists { OnOk result (HaveSameLists state.old.monitors state.new.monitors) }
{
    let number = state.threads.count();
    let daemon = first_daemon(kind, row_at(&state.threads, t)?.daemon);
    let unnamed = count_unnamed(kind, name, state.unnamed)?;
    let made = name_of(
        alloc,
        &mut state.memory.natives.heap,
        kind,
        name,
        state.unnamed,
    )?;
    let Some(string) = made else {
        return Ok(Reply::Throws(Exception::OutOfMemoryError));
    };
    number_object(&mut state.memory.natives.heap, object, number)?;
    add_thread(state, kind, daemon, object, string)?;
    state.unnamed = unnamed;
    Ok(Reply::Goes)
}
