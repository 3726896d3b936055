//! The parts of a program that begins.

ghost use Rattle.std.specs.Prelude.{◌≡◌, ◌-◌, ◌<◌, ℕ, false, [], ◌∷◌, None, Some, IfOk, replicate};
ghost use Rattle.thread_lists.specs.Lists.{push};
ghost use Rattle.startup.specs.Openings.{first_state as opening_state, opened_state};
ghost use Rattle.thread_steps.specs.States.{memory_of};
ghost use Rattle.vthread_state.specs.declared.phase.Phase.TheVariants.{Run};
ghost use Rattle.vthread_state.specs.declared.thread.Status.TheVariants.{Live};
ghost use Rattle.program_state.specs.States.{IsState};
ghost use Rattle.machine.specs.Begin.{AreFirst, main_row};

use continuation::{Frozen, Mounted};
use heap_objs::Heap;
use instruction_rows::Value;
use items::NoMemory;
use link_model::MAIN_NAME;
use monitors::Monitors;
use native_methods::NativeState;
use program_state::ProgramState;
use ref_model::Limits;
use run_deques::Deques;
use sleep_wheel::{Key, Wheel};
use startup::Opened;
use std::alloc::Global;
use thread_steps::Parts;
use vthread_state::{Phase, Status, ThreadKind, ThreadTable};
use wakes::Wakes;

// The object of the main thread.
const MAIN_THREAD: u32 = 3;

// The table with the main thread, which was started.
fn first_threads(alloc: Global, most: u32) -> Result<ThreadTable, NoMemory>
    ensures { IfOk result (λ table. table ≡ record { threads = main_row ∷ []; limit = most }) }
{
    let mut table = ThreadTable::new(alloc, most)?;
    let Ok(main) = table.add(ThreadKind::Platform, false, MAIN_THREAD, MAIN_NAME) else {
        return Err(NoMemory);
    };
    if table.start(main).is_err() {
        return Err(NoMemory);
    }
    Ok(table)
}

// The frames of the main thread, which no carrier runs yet.
fn first_frozen(alloc: Global, mounted: Mounted) -> Result<Vec<Option<Frozen>>, NoMemory>
    ensures { IfOk result (λ frozen. frozen.items ≡ Some mounted ∷ []) }
{
    let Ok(main) = mounted.freeze() else {
        return Err(NoMemory);
    };
    let mut frozen = Vec::new(alloc);
    frozen.push(Some(main))?;
    Ok(frozen)
}

// The memory of a program that begins.
fn first_memory(alloc: Global, heap: Heap, statics: Vec<Value>) -> Parts
    ensures memory { memory_of result
        ≡ (opening_state 0 heap.objects (heap.cells - heap.used) statics.items [] None).memory }
    ensures status { result.status ≡ Live Run }
    ensures main { result.main_threw ≡ false }
{
    Parts {
        natives: NativeState {
            heap,
            out: Vec::new(alloc),
            err: Vec::new(alloc),
            exited: None,
        },
        statics,
        status: Status::Live(Phase::Run),
        main_threw: false,
    }
}

// The main thread has neither a permit nor an interrupt.
fn first_wakes(alloc: Global) -> Result<Wakes, NoMemory>
    ensures { IfOk result
        (λ wakes. wakes ≡ record { permits = false ∷ []; interrupts = false ∷ [] }) }
{
    let mut wakes = Wakes::new(alloc)?;
    wakes.add()?;
    Ok(wakes)
}

// It has no deadline.
fn first_keys(alloc: Global) -> Result<Vec<Option<Key>>, NoMemory>
    ensures { IfOk result (λ keys. keys.items ≡ None ∷ []) }
{
    let mut keys = Vec::new(alloc);
    keys.push(None)?;
    Ok(keys)
}

// The main thread owns the monitor that it begins with, if any.
fn first_monitors(alloc: Global, owned: Option<u32>) -> Result<Monitors, NoMemory>
    ensures { IfOk result (λ monitors. AreFirst monitors owned) }
{
    let mut monitors = Monitors::new(alloc);
    monitors.add_thread()?;
    if let Some(monitor) = owned {
        monitors.room(1)?;
        let _ = monitors.enter(monitor, 0);
    }
    Ok(monitors)
}

/// The state of a program that begins, in which no thread is mounted.
pub(crate) fn first_state(
    alloc: Global,
    opened: Opened,
    limits: Limits,
) -> Result<ProgramState, NoMemory>
    requires { opened.mounted.thread ≡ 0 }
    ensures state { IfOk result (λ state.
        IsState state (opened_state limits opened) (λ t. false)) }
    ensures monitors { IfOk result (λ state. AreFirst state.monitors opened.monitor) }
{
    let Opened {
        heap,
        statics,
        mounted,
        monitor,
    } = opened;
    Ok(ProgramState {
        memory: first_memory(alloc, heap, statics),
        threads: first_threads(alloc, limits.threads)?,
        frozen: first_frozen(alloc, mounted)?,
        wakes: first_wakes(alloc)?,
        monitors: first_monitors(alloc, monitor)?,
        wheel: Wheel::new(alloc)?,
        keys: first_keys(alloc)?,
        time: 0,
        unnamed: 0,
        most_threads: limits.threads,
    })
}

/// The deques of this many carriers, with the main thread in the first.
pub(crate) fn first_deques(alloc: Global, carriers: u32) -> Result<Deques, NoMemory>
    requires { 0 < carriers }
    ensures { IfOk result (λ deques. deques
        ≡ record { lists = push (replicate carriers []) 0 (0 ∷ []); threads = 1 }) }
{
    let mut deques = Deques::new(alloc, carriers)?;
    deques.room(1)?;
    deques.put(0, 0);
    Ok(deques)
}

/// No carrier has a pinned thread.
pub(crate) fn first_pins(alloc: Global, carriers: u32) -> Result<Vec<bool>, NoMemory>
    ensures { IfOk result (λ pins. pins.items ≡ replicate carriers false) }
{
    Ok(vec![in alloc; false; carriers as usize]?)
}

/// No carrier has a thread mounted.
pub(crate) fn first_mounted(alloc: Global, carriers: u32) -> Result<Vec<Option<u32>>, NoMemory>
    ensures { IfOk result (λ mounted. mounted.items ≡ replicate carriers None) }
{
    Ok(vec![in alloc; None; carriers as usize]?)
}
