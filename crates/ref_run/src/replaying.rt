//! A history that is run again, from the state in which its program begins.

ghost use Rattle.std.specs.Prelude.{◌≡◌, ℕ, Some, IfOk, nat_eq};
ghost use Rattle.std.specs.HashMap.{get};
ghost use Rattle.frame_soundness.specs.TypedStates.{IsTypedState};
ghost use Rattle.ref_model.specs.Opening.{opening, opening_owners, opening_thread};
ghost use Rattle.ref_model.specs.Setting.{Setting};
ghost use Rattle.link_soundness.specs.Library.{HasLibrary};
ghost use Rattle.step_soundness.specs.OpeningLaws.{IsMain};
ghost use Rattle.startup.specs.Openings.{opened_state, setting};
ghost use Rattle.ref_run.specs.Owners.{owner_of};
ghost use Rattle.ref_run.specs.Replays.{IsReplayed, IsRunOf, stopped_at};
ghost use Rattle.ref_run.specs.States.{state_of};
ghost use Rattle.operand_soundness.specs.Ready.{IsReady};

use crate::entries::make_entry;
use crate::fault::Fault;
use crate::owners::{Owner, put};
use crate::state::RefState;
use crate::thread_row::ThreadRow;
use continuation::Mounted;
use history::Entry;
use invocation::InvocationCache;
use items::NoMemory;
use link_model::MAIN_NAME;
use link_soundness::{linked_code_is_named, linked_fields_have_kinds};
use native_methods::NativeState;
use ref_model::Limits;
use startup::{Opened, ReadyProgram, open_typed};
use std::alloc::Global;
use std::collections::HashMap;
use step_soundness::{linked_worlds_open, runs_are_such};
use thiserror::Error;
use thread_steps::Parts;
use vthread_state::{Phase, Status, Thread, ThreadKind};

/// The object of the main thread.
const MAIN_THREAD: u32 = 3;

/// Why a list of entries wasn't run to its end.
#[derive(Clone, Copy, Debug, PartialEq, Eq, Error)]
pub enum ReplayError {
    /// The definitions have no such step after the entries before this one.
    #[error("entry {entry}: no step")]
    NoStep { entry: usize },
    /// Memory ran out. This says nothing of the list.
    #[error("out of memory")]
    NoMemory,
}

impl From<NoMemory> for ReplayError {
    ghost use Rattle.std.specs.Prelude.{◌≡◌};
    ghost use Rattle.ref_run.specs.declared.replaying.ReplayError.TheVariants as errors;

    ghost from_gives = { λ _ e. e ≡ errors.NoMemory };

    fn from(_: NoMemory) -> Self {
        ReplayError::NoMemory
    }
}

// Why the list stops at an entry.
fn stop_at(entry: usize, fault: Fault) -> ReplayError
    ensures { result ≡ stopped_at entry fault }
{
    match fault {
        Fault::NoStep => ReplayError::NoStep { entry },
        Fault::NoMemory => ReplayError::NoMemory,
    }
}

// The main thread, which runs.
fn first_thread(mounted: Mounted) -> ThreadRow
    ensures { result ≡ opening_thread mounted.stack.frames }
{
    let thread = Thread {
        kind: ThreadKind::Platform,
        daemon: false,
        object: MAIN_THREAD,
        name: MAIN_NAME,
        status: Status::Live(Phase::Run),
    };
    ThreadRow::new(thread, mounted)
}

// Who owns a monitor when a program begins: thread 0 the one that main holds, where it is synchronized.
fn first_owners(alloc: Global, monitor: Option<u32>) -> Result<HashMap<u32, Owner>, NoMemory>
    ensures { IfOk result (λ owners. (o : ℕ)
        → owner_of (get nat_eq owners o) ≡ opening_owners monitor o) }
{
    let mut owners = HashMap::new(alloc);
    if let Some(o) = monitor {
        let main = Owner {
            thread: 0,
            count: 1,
        };
        put(&mut owners, o, Some(main))?;
    }
    Ok(owners)
}

// The state of a program that begins.
fn first_state(alloc: Global, opened: Opened, limits: Limits) -> Result<RefState, NoMemory>
    ensures { IfOk result (λ state. state_of state ≡ opened_state limits opened) }
{
    let Opened {
        heap,
        statics,
        mounted,
        monitor,
    } = opened;
    let owners = first_owners(alloc, monitor)?;
    let mut threads = Vec::new(alloc);
    threads.push(first_thread(mounted))?;
    let natives = NativeState {
        heap,
        out: Vec::new(alloc),
        err: Vec::new(alloc),
        exited: None,
    };
    Ok(RefState {
        memory: Parts {
            natives,
            statics,
            status: Status::Live(Phase::Run),
            main_threw: false,
        },
        threads,
        owners,
        most_threads: limits.threads,
        unnamed: 0,
        time: 0,
    })
}

// What holds of a program with the built-in classes.
fn is_ready(program: &ReadyProgram)
    requires { HasLibrary program.now.program }
    ensures { IsReady program.now }
{
    program.is_linked();
    linked_worlds_open();
    linked_fields_have_kinds();
    linked_code_is_named();
    runs_are_such();
}

// Runs a list of entries from the state in which the program begins on. After an error the state is of no use.
fn run_list(
    alloc: Global,
    program: &ReadyProgram,
    state: &mut RefState,
    list: &[Entry],
) -> Result<(), ReplayError>
    requires ready { IsReady program.now }
    requires typed { IsTypedState program.now (state_of state.old) }
    ensures { (p : Setting) → p.world ≡ program.now → opening p ≡ Some (state_of state.old)
        → IsRunOf p list.now result state.new }
{
    let mut cache = InvocationCache::new(alloc)?;
    for (i, entry) in list.iter().enumerate() {
        match make_entry(alloc, program, &mut cache, state, entry.what) {
            Ok(()) => {}
            Err(fault) => return Err(stop_at(i, fault)),
        }
    }
    Ok(())
}

/// Runs a list of entries of a program whose main method has this number, from its opening on: mounts and unmounts change nothing.
pub fn replay(
    alloc: Global,
    program: &ReadyProgram,
    main: u32,
    limits: Limits,
    list: &[Entry],
) -> Result<RefState, ReplayError>
    requires library { HasLibrary program.now.program }
    requires main { IsMain program.now main }
    ensures { IsReplayed (setting program.now main limits) list.now result }
{
    is_ready(program);
    let opened = open_typed(alloc, program, main, limits)?;
    let mut state = first_state(alloc, opened, limits)?;
    match run_list(alloc, program, &mut state, list) {
        Ok(()) => Ok(state),
        Err(error) => Err(error),
    }
}
