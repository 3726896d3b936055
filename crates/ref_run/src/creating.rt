//! Threads that are made (java.lang.Thread).

ghost use Rattle.std.specs.Prelude.{◌≡◌, ◌++◌, ◌∷◌, [], IfOk, OnOk, length};
ghost use Rattle.link_model.specs.World.{World};
ghost use Rattle.ref_model.specs.Starting as starting;
ghost use Rattle.ref_run.specs.Replies.{Answers};
ghost use Rattle.ref_run.specs.States.{state_of};

use crate::fault::Fault;
use crate::reply::Reply;
use crate::state::{RefState, row_at};
use crate::thread_row::ThreadRow;
use continuation::Mounted;
use items::NoMemory;
use ref_model::{Exception, ThreadRequest};
use std::alloc::Global;
use thread_calls::{count_unnamed, first_daemon, name_of, number_object};
use vthread_state::{Status, Thread, ThreadKind};

// One more thread, which wasn't started and has no frames.
fn add_thread(
    alloc: Global,
    threads: &mut Vec<ThreadRow>,
    number: u32,
    kind: ThreadKind,
    daemon: bool,
    object: u32,
    name: u32,
) -> Result<(), NoMemory>
    ensures { OnOk result (threads.new.items
        ≡ threads.old.items ++ starting.made_thread kind daemon object name ∷ []) }
{
    let thread = Thread {
        kind,
        daemon,
        object,
        name,
        status: Status::New,
    };
    threads.push(ThreadRow::new(thread, Mounted::new(alloc, number)))?;
    Ok(())
}

// The number of a thread that is made next.
fn next_number(threads: &Vec<ThreadRow>) -> Result<u32, NoMemory>
    ensures { IfOk result (λ n. n ≡ length threads.now.items) }
{
    match u32::try_from(threads.len()) {
        Ok(number) => Ok(number),
        Err(_) => Err(NoMemory),
    }
}

// Whether one more thread may be made.
fn may_create(state: &RefState) -> bool
    ensures { result ≡ starting.may_create (state_of state.now) }
{
    state.threads.len() < state.most_threads as usize
}

/// A constructor of Thread, for this Thread object. Where there is no room for the name, nothing is made.
pub(crate) fn create_thread(
    alloc: Global,
    state: &mut RefState,
    t: u32,
    kind: ThreadKind,
    object: u32,
    name: Option<u32>,
) -> Result<Reply, Fault>
    ensures { (w : World) → Answers w (ThreadRequest.Creates kind object name) t
        (state_of state.old) result (state_of state.new) }
{
    if !may_create(state) {
        return Err(Fault::NoStep);
    }
    let number = next_number(&state.threads)?;
    let daemon = first_daemon(kind, row_at(state, t)?.thread().daemon);
    let unnamed = count_unnamed(kind, name, state.unnamed)?;
    let heap = &mut state.memory.natives.heap;
    let Some(string) = name_of(alloc, heap, kind, name, state.unnamed)? else {
        return Ok(Reply::Throws(Exception::OutOfMemoryError));
    };
    number_object(&mut state.memory.natives.heap, object, number)?;
    add_thread(
        alloc,
        &mut state.threads,
        number,
        kind,
        daemon,
        object,
        string,
    )?;
    state.unnamed = unnamed;
    Ok(Reply::Goes)
}
