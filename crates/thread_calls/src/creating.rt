//! What a thread is made with, and the number in its Thread object (java.lang.Thread).

ghost use Rattle.std.specs.Prelude.{◌≡◌, Some, IfOk, OnOk};
ghost use Rattle.ref_model.specs.Memory.{Memory};
ghost use Rattle.ref_model.specs.ThreadNatives as thread_natives;
ghost use Rattle.ref_model.specs.ThreadNatives.{with_number};
ghost use Rattle.heap_instructions.specs.Outcomes.{with_heap};
ghost use Rattle.native_methods.specs.NativeStates.{thread_in};
ghost use Rattle.thread_calls.specs.Creating.{IsNameMade, daemon_of, first_name_of, unnamed_with};

use heap_instructions::{make_text, set_value, value_in};
use heap_objs::Heap;
use instruction_rows::Value;
use items::NoMemory;
use native_methods::long_text;
use std::alloc::Global;
use vthread_state::ThreadKind;

// Which field of a Thread object holds the number of its thread.
const NUMBER_FIELD: u32 = 1;

/// Whether a thread begins as a daemon: a virtual one does (JEP 444), and a platform thread where the one that makes it is.
pub fn first_daemon(kind: ThreadKind, creator: bool) -> bool
    ensures { result ≡ daemon_of kind creator }
{
    match kind {
        ThreadKind::Platform => creator,
        ThreadKind::Virtual => true,
    }
}

// The name of a thread that is made without one, of so many before it.
fn first_name(alloc: Global, kind: ThreadKind, unnamed: u32) -> Result<Vec<u16>, NoMemory>
    ensures { IfOk result (λ name. name.items ≡ first_name_of kind unnamed) }
{
    match kind {
        ThreadKind::Platform => {
            // The units of "Thread-".
            let mut name = Vec::from_slice(alloc, &[84, 104, 114, 101, 97, 100, 45])?;
            name.extend_from_slice(long_text(alloc, i64::from(unnamed))?.as_slice())?;
            Ok(name)
        }
        ThreadKind::Virtual => Ok(Vec::new(alloc)),
    }
}

/// The String of a new thread's name: a new one where it has no name. `None`: there is no room for it.
pub fn name_of(
    alloc: Global,
    heap: &mut Heap,
    kind: ThreadKind,
    name: Option<u32>,
    unnamed: u32,
) -> Result<Option<u32>, NoMemory>
    ensures { IfOk result (IsNameMade kind name unnamed heap.old heap.new) }
{
    match name {
        Some(name) => Ok(Some(name)),
        None => make_text(heap, first_name(alloc, kind, unnamed)?.as_slice()),
    }
}

// An int as the number of a thread. `None`: it is negative.
fn number_in(value: Value) -> Option<u32>
    ensures { result ≡ thread_natives.number_in value }
{
    match value {
        Value::Int(n) => match u32::try_from(n) {
            Ok(t) => Some(t),
            Err(_) => None,
        },
        _ => None,
    }
}

// The number of the thread of a Thread object. `None`: it isn't one.
fn thread_number(heap: &Heap, o: u32) -> Option<u32>
    ensures { result ≡ thread_in heap.now.objects o }
{
    number_in(value_in(heap, o, NUMBER_FIELD)?)
}

/// Writes the number of its thread to a Thread object. Another object, and a number greater than an int, count as memory run out.
pub fn number_object(heap: &mut Heap, object: u32, number: u32) -> Result<(), NoMemory>
    ensures { OnOk result ((r : Memory) → with_number (with_heap heap.old r) object number
        ≡ Some (with_heap heap.new r)) }
{
    let Ok(n) = i32::try_from(number) else {
        return Err(NoMemory);
    };
    if thread_number(heap, object).is_none() {
        return Err(NoMemory);
    }
    if !set_value(heap, object, NUMBER_FIELD, Value::Int(n)) {
        return Err(NoMemory);
    }
    Ok(())
}

/// How many platform threads were made without a name, with one more thread.
pub fn count_unnamed(kind: ThreadKind, name: Option<u32>, unnamed: u32) -> Result<u32, NoMemory>
    ensures { IfOk result (λ n. n ≡ unnamed_with kind name unnamed) }
{
    match (kind, name) {
        (ThreadKind::Platform, None) => unnamed.checked_add(1).ok_or(NoMemory),
        _ => Ok(unnamed),
    }
}
