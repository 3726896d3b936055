//! What is read of the objects of a heap: their classes, values and arrays.

ghost use Rattle.std.specs.Prelude.{◌≡◌};
ghost use Rattle.heap_instructions.specs.HeapReads as spec;
ghost use Rattle.heap_instructions.specs.HeapReads.{IsArrayAt, IsValueSet};

use crate::world::EventWorld;
use heap_objs::Heap;
use instruction_rows::Value;
use link_model::ArrayType;

/// An array: its class, the type of that, and how many elements it has.
#[derive(Clone, Copy)]
pub struct ArrayView {
    pub class: u32,
    pub kind: ArrayType,
    pub len: u32,
}

/// The class of an object. `None`: there is no such object.
#[inline(always)]
pub fn class_number<W: EventWorld>(world: &W, heap: &Heap, o: u32) -> Option<u32>
    ensures { result ≡ spec.class_number (W.world world.now) heap.now.objects o }
{
    if o as usize >= heap.count() {
        return None;
    }
    if heap.is_text(o) {
        return world.string();
    }
    Some(heap.class_of(o))
}

/// The value of an object, or of an array, at a place. `None`: there is none.
#[inline(always)]
pub fn value_in(heap: &Heap, o: u32, place: u32) -> Option<Value>
    ensures { result ≡ spec.value_in heap.now.objects o place }
{
    if o as usize >= heap.count() || heap.is_text(o) || place >= heap.len(o) {
        return None;
    }
    Some(heap.get(o, place))
}

/// The array of a number. `None`: there is no such array.
#[inline(always)]
pub fn array_at<W: EventWorld>(world: &W, heap: &Heap, o: u32) -> Option<ArrayView>
    ensures { IsArrayAt (W.world world.now) heap.now.objects o result }
{
    if o as usize >= heap.count() || heap.is_text(o) {
        return None;
    }
    let class = heap.class_of(o);
    let kind = world.array_type(class)?;
    let len = heap.len(o);
    Some(ArrayView { class, kind, len })
}

/// Sets the value of an object, or of an array, at a place, where there is one: whether there is.
#[inline(always)]
pub fn set_value(heap: &mut Heap, o: u32, place: u32, value: Value) -> bool
    ensures { IsValueSet o place value heap.old heap.new result }
{
    if o as usize >= heap.count() || heap.is_text(o) || place >= heap.len(o) {
        return false;
    }
    heap.set(o, place, value);
    true
}
