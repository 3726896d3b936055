//! The state in which a program begins.

ghost use Rattle.std.specs.Prelude.{◌≡◌, ◌+◌, length, IfOk};
ghost use Rattle.ref_model.specs.declared.limits.Limits.{Limits};
ghost use Rattle.ref_model.specs.Opening.{opening, opening_monitor, opening_statics};
ghost use Rattle.step_soundness.specs.OpeningLaws.{IsMain};
ghost use Rattle.link_soundness.specs.Begins.{MayBegin};
ghost use Rattle.link_soundness.specs.OpeningClasses.{HasOpeningClasses};
ghost use Rattle.startup.specs.Openings.{monitor_held, opened_state, setting};

use crate::first_frames::first_frames;
use crate::first_heap::first_heap;
use crate::first_statics::first_statics;
use crate::library::library_in;
use continuation::Mounted;
use heap_objs::Heap;
use instruction_rows::Value;
use invocation::class_monitor;
use items::NoMemory;
use link_model::{MethodInfo, OBJECTS_BEFORE_STRINGS, is_synchronized};
use link_numbers::Names;
use ref_model::Limits;
use runtime_program::ReadyProgram;
use std::alloc::Global;

/// The state in which a program begins: its heap, its static fields, and the frames of main's thread, which has the number 0.
#[derive(Drop)]
pub struct Opened {
    pub heap: Heap,
    pub statics: Vec<Value>,
    pub mounted: Mounted,
    /// The monitor that main holds, where it is synchronized.
    pub monitor: Option<u32>,
}

// The number of the array of words, the last object. Numbers from 2^32 on count as memory run out.
fn words_number(strings: &Names) -> Result<u32, NoMemory>
    ensures { IfOk result (λ n. n ≡ 10 + length strings.now) }
{
    strings
        .count()
        .checked_add(OBJECTS_BEFORE_STRINGS)
        .ok_or(NoMemory)
}

// The monitor that a static method holds while it runs.
fn held_monitor(method: &MethodInfo) -> Result<Option<u32>, NoMemory>
    ensures { IfOk result (λ monitor. monitor ≡ monitor_held method.now) }
{
    if !is_synchronized(method) {
        return Ok(None);
    }
    match class_monitor(method.class) {
        Some(monitor) => Ok(Some(monitor)),
        None => Err(NoMemory),
    }
}

// The monitor that main holds. `None`: it isn't synchronized.
fn main_monitor(program: &ReadyProgram, main: u32) -> Result<Option<u32>, NoMemory>
    ensures { (limits : Limits) → IfOk result (λ monitor. monitor
        ≡ opening_monitor (setting program.now main limits)) }
{
    match program.method(main) {
        Some(method) => held_monitor(method),
        None => Ok(None),
    }
}

/// Begins a program whose main method has this number (JVMS 5.2, 5.5). A frame too many counts as memory run out.
pub fn open(
    alloc: Global,
    program: &ReadyProgram,
    main: u32,
    limits: Limits,
) -> Result<Opened, NoMemory>
    requires classes { HasOpeningClasses program.now }
    requires begins { MayBegin program.now }
    requires main { IsMain program.now main }
    // The definitions have an opening state, and it is this one.
    ensures state { IfOk result (λ o. opening (setting program.now main limits)
        ≡ Some (opened_state limits o)) }
    ensures statics { IfOk result (λ o. o.statics.items ≡ opening_statics program.now.program) }
    ensures cells { IfOk result (λ o. o.heap.cells ≡ limits.heap_cells) }
    ensures used { IfOk result (λ o. o.heap.used ≡ 0) }
    ensures thread { IfOk result (λ o. o.mounted.thread ≡ 0) }
{
    let library = library_in(alloc, program.tables())?;
    let strings = program.tables().strings();
    let heap = first_heap(alloc, program, library, strings, limits.heap_cells)?;
    let statics = first_statics(alloc, program.tables(), strings)?;
    let monitor = main_monitor(program, main)?;
    let mounted = first_frames(alloc, program, main, words_number(strings)?, monitor)?;
    Ok(Opened {
        heap,
        statics,
        mounted,
        monitor,
    })
}
