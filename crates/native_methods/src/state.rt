//! What native methods read and write, and the Strings in it.

ghost use Rattle.std.specs.Prelude.{◌≡◌, ◌++◌, Some, IfOk};
ghost use Rattle.std.specs.Option.{option_copied};
ghost use Rattle.ref_model.specs.Heap as heap;
ghost use Rattle.ref_model.specs.NativeRows as rows;
ghost use Rattle.native_methods.specs.NativeStates.{Answers, IsMade, IsSet, KeptIfThrownOrAsked, units_in};

use crate::answer::Answer;
use heap_objs::Heap;
use instruction_rows::Value;
use items::NoMemory;
use ref_model::Exception;
use std::alloc::Global;

/// What native methods read and write beside the operands of their thread.
#[derive(Drop)]
pub struct NativeState {
    pub heap: Heap,
    /// What the program wrote to System.out.
    pub out: Vec<u8>,
    /// What it wrote to System.err.
    pub err: Vec<u8>,
    /// The status with which it called System.exit.
    pub exited: Option<i32>,
}

// The units of a String. `None`: there is no such String.
fn units_at(heap: &Heap, o: u32) -> Option<&[u16]>
    ensures { option_copied result ≡ units_in heap.now.objects o }
{
    if o as usize >= heap.count() || !heap.is_text(o) {
        return None;
    }
    Some(heap.units(o))
}

/// The units of a String of a state. `None`: there is no such String.
pub(crate) fn text_at(state: &NativeState, o: u32) -> Option<&[u16]>
    ensures { option_copied result ≡ units_in state.now.heap.objects o }
{
    units_at(&state.heap, o)
}

/// Two texts as one.
pub(crate) fn joined(alloc: Global, first: &[u16], second: &[u16]) -> Result<Vec<u16>, NoMemory>
    ensures { IfOk result (λ text. text.items ≡ first.now ++ second.now) }
{
    let mut text = Vec::from_slice(alloc, first)?;
    text.extend_from_slice(second)?;
    Ok(text)
}

/// A String of these units: its number. `None`: it has no room in the heap.
pub(crate) fn make_text(state: &mut NativeState, units: &[u16]) -> Result<Option<u32>, NoMemory>
    ensures { IfOk result (λ found.
        IsMade (λ r. heap.with_text r units.now) state.old state.new found) }
{
    heap_instructions::make_text(&mut state.heap, units)
}

/// A new String as the result.
pub(crate) fn new_text(state: &mut NativeState, units: &[u16]) -> Result<Answer, NoMemory>
    ensures answer { IfOk result (λ a.
        Answers (λ r. Some (rows.gives_text r units.now)) state.old state.new a) }
    ensures kept { IfOk result (λ a. KeptIfThrownOrAsked a state.old state.new) }
{
    match make_text(state, units)? {
        Some(o) => Ok(Answer::Gives(Value::Ref(o))),
        None => Ok(Answer::Throws(Exception::OutOfMemoryError)),
    }
}

/// Sets the value of an object at a place, where there is one: whether there is.
pub(crate) fn set_value(state: &mut NativeState, o: u32, place: u32, value: Value) -> bool
    ensures { IsSet o place value state.old state.new result }
{
    heap_instructions::set_value(&mut state.heap, o, place, value)
}
