//! New objects, where there is room for them in the heap.

ghost use Rattle.std.specs.Prelude.{◌≡◌, IfOk, OnErr};
ghost use Rattle.ref_model.specs.Arrays as arrays;
ghost use Rattle.ref_model.specs.Heap as spec;
ghost use Rattle.heap_instructions.specs.HeapReads.{IsMade};

use heap_objs::{Heap, HeapError};
use instruction_rows::Value;
use items::NoMemory;

/// An object with these values: its number. `None`: it has no room in the heap.
#[inline(always)]
pub fn make_object(heap: &mut Heap, class: u32, values: &[Value]) -> Result<Option<u32>, NoMemory>
    ensures made { IfOk result (λ found.
        IsMade (λ r. spec.with_instance r class values.now) heap.old heap.new found) }
    ensures err { OnErr result (heap.new ≡ heap.old) }
{
    match heap.object(class, values) {
        Ok(o) => Ok(Some(o)),
        Err(HeapError::Full) => Ok(None),
        Err(HeapError::NoMemory) => Err(NoMemory),
    }
}

/// Makes an array whose elements all have one value, and returns its number. `None`: the heap has no room for it.
pub fn make_array(
    heap: &mut Heap,
    class: u32,
    len: u32,
    first: Value,
) -> Result<Option<u32>, NoMemory>
    ensures made { IfOk result (λ found.
        IsMade (λ r. arrays.with_array r class len first) heap.old heap.new found) }
    ensures err { OnErr result (heap.new ≡ heap.old) }
{
    match heap.array(class, len, first) {
        Ok(o) => Ok(Some(o)),
        Err(HeapError::Full) => Ok(None),
        Err(HeapError::NoMemory) => Err(NoMemory),
    }
}

/// A String of these units: its number. `None`: it has no room in the heap.
pub fn make_text(heap: &mut Heap, units: &[u16]) -> Result<Option<u32>, NoMemory>
    ensures made { IfOk result (λ found.
        IsMade (λ r. spec.with_text r units.now) heap.old heap.new found) }
    ensures err { OnErr result (heap.new ≡ heap.old) }
{
    match heap.text(units) {
        Ok(o) => Ok(Some(o)),
        Err(HeapError::Full) => Ok(None),
        Err(HeapError::NoMemory) => Err(NoMemory),
    }
}
