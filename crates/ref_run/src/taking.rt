//! The frames of one thread, taken out of the state while an instruction runs.

ghost use Rattle.std.specs.Prelude.{◌≡◌, IfOk, OnOk};
ghost use Rattle.ref_run.specs.Taking.{IsPut, IsTaken};

use crate::state::RefState;
use continuation::Mounted;
use items::NoMemory;
use std::alloc::Global;

/// Takes the frames of a thread, and gives the memory its status. A thread that has none counts as memory run out.
pub(crate) fn take_frames(alloc: Global, state: &mut RefState, t: u32) -> Result<Mounted, NoMemory>
    ensures { IfOk result (λ mounted. IsTaken t state.old mounted.stack.frames state.new) }
{
    if t as usize >= state.threads.len() {
        return Err(NoMemory);
    }
    let row = &mut state.threads[t as usize];
    if !row.has_frames() {
        return Err(NoMemory);
    }
    state.memory.status = row.thread().status;
    Ok(row.take_frames(alloc))
}

/// Gives a thread these frames, and the status that is in the memory.
pub(crate) fn put_frames(state: &mut RefState, t: u32, mounted: Mounted)
    ensures { IsPut t state.old mounted.stack.frames state.new }
{
    if (t as usize) < state.threads.len() {
        let row = &mut state.threads[t as usize];
        row.set_status(state.memory.status);
        row.put_frames(mounted);
    }
}
