//! A thread's frames and the heap.

use continuation::Mounted;
use frames::{Stack, StackError};
use heap_objs::{Heap, HeapError};
use instruction_rows::{Slot, Value};
use slot_block::{SlotBlock, StoredSlot};
use std::alloc::Global;
use std::test::Fail;

const LONG: Slot = Slot::One(Value::Long(-7));

// The local variables of a method that gets a long, and what its caller has when it gave the long back.
fn called(alloc: Global) -> Result<(Slot, Slot, Slot, Slot), StackError> {
    let mut stack = Stack::new(alloc);
    stack.push_frame(1, 0, 2, 0)?;
    stack.push(LONG);
    stack.push(Slot::Second);
    stack.push_frame(2, 3, 2, 2)?;
    let first = stack.local(0);
    let unset = stack.local(2);
    stack.push(first);
    stack.push(Slot::Second);
    stack.return_top(2);
    let top = stack.pop();
    Ok((first, unset, top, stack.pop()))
}

#[test]
fn a_long_goes_to_a_callee_and_back(rt: HostRuntime) -> Result<(), Fail> {
    let (first, unset, top, below) = called(rt.alloc())?;
    assert_eq!(rt; first, LONG);
    assert_eq!(rt; unset, Slot::Second);
    assert_eq!(rt; top, Slot::Second);
    assert_eq!(rt; below, LONG);
    Ok(())
}

// How many frames of a thread can be pushed one over the other, and why no more.
fn deepest(mounted: &mut Mounted) -> Option<StackError> {
    for _ in 0..3000u32 {
        if let Err(why) = mounted.push_frame(1, 1, 1, 0) {
            return Some(why);
        }
    }
    None
}

#[test]
fn a_stack_has_2048_frames(rt: HostRuntime) -> Result<(), Fail> {
    let mut mounted = Mounted::new(rt.alloc(), 5);
    assert_eq!(rt; deepest(&mut mounted), Some(StackError::Deep));
    assert_eq!(rt; mounted.depth(), 2048);
    assert_eq!(rt; mounted.thread(), 5);
    Ok(())
}

// A thread with a frame that has an operand, under another.
fn thread_of_two_frames(alloc: Global) -> Result<Mounted, StackError> {
    let mut mounted = Mounted::new(alloc, 5);
    mounted.push_frame(7, 1, 1, 0)?;
    mounted.set_pc(3);
    mounted.push(Slot::One(Value::Int(42)));
    mounted.push_frame(8, 0, 0, 0)?;
    Ok(mounted)
}

#[test]
fn a_thread_is_frozen_and_mounted_again(rt: HostRuntime) -> Result<(), Fail> {
    let mounted = thread_of_two_frames(rt.alloc())?;
    let frozen = mounted.freeze().ok().ok_or("memory")?;
    assert_eq!(rt; frozen.thread(), 5);
    let again = frozen.mount().ok().ok_or("memory")?;
    assert_eq!(rt; (again.thread(), again.depth()), (5, 2));
    assert_eq!(rt; (again.method_at(0), again.method_at(1)), (8, 7));
    Ok(())
}

// What a heap of ten cells answers to an array of so many elements, to a String of so many units and to an object without fields, and how
// many cells are in use then.
fn filled(
    alloc: Global,
    elements: u32,
    units: &[u16],
) -> (
    Result<u32, HeapError>,
    Result<u32, HeapError>,
    Result<u32, HeapError>,
    u32,
) {
    let mut heap = Heap::new(alloc, 10);
    let array = heap.array(4, elements, Value::Int(0));
    let text = heap.text(units);
    let object = heap.object(3, &[]);
    (array, text, object, heap.used())
}

#[test]
fn a_heap_is_full_where_more_cells_are_asked_for_than_are_left(
    rt: HostRuntime,
) -> Result<(), Fail> {
    let (eight, nine) = ([7; 8], [7; 9]);
    let full = Err(HeapError::Full);
    let table = [
        (9, eight.as_slice(), (Ok(0), full, full, 10)),
        (10, eight.as_slice(), (full, Ok(0), Ok(1), 3)),
        (10, nine.as_slice(), (full, Ok(0), Ok(1), 4)),
        (5, nine.as_slice(), (Ok(0), Ok(1), Ok(2), 10)),
        (6, nine.as_slice(), (Ok(0), Ok(1), full, 10)),
        (7, nine.as_slice(), (Ok(0), full, Ok(1), 9)),
        (0, [].as_slice(), (Ok(0), Ok(1), Ok(2), 3)),
    ];
    for (elements, units, answers) in table {
        assert_eq!(rt; filled(rt.alloc(), elements, units), answers);
    }
    Ok(())
}

#[test]
fn a_block_copies_its_top_and_stays(rt: HostRuntime) -> Result<(), Fail> {
    let (first, second) = (Slot::One(Value::Int(5)), Slot::One(Value::Ref(9)));
    let mut from = SlotBlock::new(rt.alloc(), 4).ok().ok_or("memory")?;
    let mut into = SlotBlock::new(rt.alloc(), 2).ok().ok_or("memory")?;
    from.push(first);
    from.push(second);
    from.push(Slot::Second);
    from.copy_top(2, &mut into);
    assert_eq!(rt; into.len(), 2);
    assert_eq!(rt; (into.get(0), into.get(1)), (second, Slot::Second));
    assert_eq!(rt; from.len(), 3);
    assert_eq!(rt;
        (from.get(0), from.get(1), from.get(2)),
        (first, second, Slot::Second)
    );
    assert_eq!(rt; StoredSlot::of(LONG).slot(), LONG);
    Ok(())
}
