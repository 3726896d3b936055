//! The heap with which a program begins.

ghost use Rattle.std.specs.Prelude.{◌≡◌, ◌<◌, [], length, map, slice_index_or, IfOk, OnOk};
ghost use Rattle.std.specs.List.{range_with_len};
ghost use Rattle.link_model.specs.Strings.{strings_of};
ghost use Rattle.state_model.specs.Objects.{instance, text};
ghost use Rattle.heap_objs.specs.Heap.{with_object};
ghost use Rattle.ref_model.specs.Opening.{thread_state};
ghost use Rattle.startup.specs.FirstObjects as spec;

use crate::library::Library;
use heap_objs::Heap;
use instruction_rows::Value;
use items::NoMemory;
use link_model::FIRST_STATE_NAME;
use link_numbers::Names;
use runtime_program::ReadyProgram;
use std::alloc::Global;

// Makes an object whose fields have their first values.
fn add_object(program: &ReadyProgram, heap: &mut Heap, class: u32) -> Result<(), NoMemory>
    ensures { OnOk result (heap.new ≡ with_object (spec.new_object program.now class) heap.old) }
{
    heap.opening_object(class, program.new_values(class))?;
    Ok(())
}

// Makes the state of a thread at an index (Thread.State).
fn add_state(heap: &mut Heap, class: u32, index: u8) -> Result<(), NoMemory>
    ensures { OnOk result (heap.new ≡ with_object (thread_state class index) heap.old) }
{
    let index = u32::from(index);
    let values = [
        Value::Ref(FIRST_STATE_NAME + index),
        Value::Int(index as i32),
    ];
    heap.opening_object(class, &values)?;
    Ok(())
}

// Makes the String at a place.
fn add_string(heap: &mut Heap, strings: &Names, place: u32) -> Result<(), NoMemory>
    requires { place < length strings.now }
    ensures { OnOk result (heap.new ≡
        with_object (text (slice_index_or strings.now place [])) heap.old) }
{
    match strings.text(place) {
        Some(units) => {
            heap.opening_text(units)?;
            Ok(())
        }
        None => unreachable!(),
    }
}

// Makes all Strings.
fn add_strings(heap: &mut Heap, strings: &Names) -> Result<(), NoMemory>
    ensures { OnOk result (heap.new ≡ spec.with_objects (map text strings.now) heap.old) }
{
    for place in 0..strings.count() {
        add_string(heap, strings, place)?;
    }
    Ok(())
}

// The states of a thread, in their order.
#[tactic(auto, using(crate::proofs::HeapLaws::next_state))]
fn add_states(heap: &mut Heap, class: u32) -> Result<(), NoMemory>
    ensures { OnOk result (heap.new ≡
        spec.with_objects (map (thread_state class) (range_with_len 0 6)) heap.old) }
{
    for index in 0..6 {
        add_state(heap, class, index)?;
    }
    Ok(())
}

// The objects before the Strings.
fn machine_objects(
    alloc: Global,
    program: &ReadyProgram,
    library: Library,
    cells: u32,
) -> Result<Heap, NoMemory>
    ensures { IfOk result (λ h. h ≡
        spec.heap_of cells (spec.machine_objects program.now library)) }
{
    let mut heap = Heap::new(alloc, cells);
    add_object(program, &mut heap, library.error)?;
    add_object(program, &mut heap, library.stream)?;
    add_object(program, &mut heap, library.stream)?;
    add_object(program, &mut heap, library.thread)?;
    add_states(&mut heap, library.state)?;
    Ok(heap)
}

/// The heap with which a program begins: its limit of cells, and objects by the classes and the Strings of the program.
pub(crate) fn first_heap(
    alloc: Global,
    program: &ReadyProgram,
    library: Library,
    strings: &Names,
    cells: u32,
) -> Result<Heap, NoMemory>
    requires { strings.now ≡ strings_of program.now.program }
    ensures { IfOk result (λ h. h ≡ spec.heap_of cells (spec.first_objects program.now library)) }
{
    let mut heap = machine_objects(alloc, program, library, cells)?;
    add_strings(&mut heap, strings)?;
    heap.opening_object(library.words, &[])?;
    Ok(heap)
}
