//! Arrays of several dimensions (JVMS 6.5: multianewarray): their lengths, and the arrays themselves, each outer one before those below it.

ghost use Rattle.std.specs.Prelude.{◌≡◌, ◌+◌, ◌*◌, ◌-◌, ◌<◌, ◌≤◌, ℕ, [], ◌∷◌, IfOk, IfSome, OnOk, int_lt, length, map, nat_le, pos, replicate, unsigned_abs};
ghost use Rattle.opcodes.specs.declared.op.ValueKind.TheVariants as kinds;
ghost use Rattle.std.specs.List.{list_any};
ghost use Rattle.ref_model.specs.Arrays as spec;
ghost use Rattle.ref_model.specs.Operands.{HasOperands};
ghost use Rattle.heap_instructions.specs.ArrayMaking.{AreInts, AreMade, IsCounted, IsOuter, references, step_between};
ghost use Rattle.heap_instructions.specs.Operands.{operands};

use crate::kinds::element_zero;
use crate::operands::int_operand;
use crate::world::EventWorld;
use continuation::Mounted;
use heap_objs::Heap;
use instruction_rows::Value;
use items::{Items, NoMemory};
use std::alloc::Global;

/// So many ints on top of the operand stack, the lowest first.
pub(crate) fn ints_on_top(
    alloc: Global,
    mounted: &Mounted,
    count: u8,
) -> Result<Items<i32>, NoMemory>
    requires { HasOperands (replicate count kinds.Int) 0 (operands mounted.now) }
    ensures ints { IfOk result (λ ints. AreInts count ints (operands mounted.now)) }
    ensures within { count ≤ length (operands mounted.now) }
{
    let mut ints = Items::new(alloc);
    let mut left = u16::from(count);
    while left > 0 {
        left -= 1;
        ints.push(int_operand(mounted, left))?;
    }
    Ok(ints)
}

pub(crate) fn is_any_negative(ints: &[i32]) -> bool
    ensures { result ≡ list_any (λ n. int_lt n (pos 0)) ints.now }
{
    ints.iter().any(|n| *n < 0)
}

/// The ints without their signs.
pub(crate) fn magnitudes(alloc: Global, ints: &[i32]) -> Result<Items<u32>, NoMemory>
    ensures { IfOk result (λ lengths. lengths ≡ map unsigned_abs ints.now) }
{
    let mut lengths = Items::new(alloc);
    for n in ints {
        lengths.push(n.unsigned_abs())?;
    }
    Ok(lengths)
}

// The cells that an array uses, with those of the arrays below each of its elements.
fn cells_over(n: u32, below: Option<u32>) -> Option<u32>
    ensures { (cells : ℕ) → IsCounted below cells → IsCounted result (1 + n + n * cells) }
{
    match below {
        Some(cells) => u32::try_from(1 + u64::from(n) + u64::from(n) * u64::from(cells)).ok(),
        None if n == 0 => Some(1),
        None => None,
    }
}

// The cells of all arrays of such lengths. `None`: they are more than a `u32` counts.
fn cells_of(lengths: &[u32]) -> Option<u32>
    ensures { IsCounted result (spec.cells_of_lengths lengths.now) }
{
    match lengths.split_first() {
        Some((n, below)) => cells_over(*n, cells_of(below)),
        None => Some(0),
    }
}

/// Whether all arrays of such lengths have room.
pub(crate) fn have_room(heap: &Heap, lengths: &[u32]) -> bool
    ensures { result ≡ nat_le (spec.cells_of_lengths lengths.now) (heap.now.cells - heap.now.used) }
{
    let room = heap.room();
    match cells_of(lengths) {
        Some(cells) => cells <= room,
        None => false,
    }
}

// An array of so many elements, and the arrays below it, of which each element has so many.
fn arrays_over(n: u32, below: Option<u32>) -> Option<u32>
    ensures { (count : ℕ) → IsCounted below count → IsCounted result (1 + n * count) }
{
    match below {
        Some(count) => u32::try_from(1 + u64::from(n) * u64::from(count)).ok(),
        None if n == 0 => Some(1),
        None => None,
    }
}

// How many arrays those of such lengths are. `None`: they are more than a `u32` counts.
fn count_of(lengths: &[u32]) -> Option<u32>
    ensures { IsCounted result (spec.array_count lengths.now) }
{
    match lengths.split_first() {
        Some((n, below)) => arrays_over(*n, count_of(below)),
        None => Some(0),
    }
}

// How far the numbers of the arrays in one array of `n` elements lie apart. `None`: further than a `u32` counts.
fn step_of(n: u32, below: &[u32]) -> Option<u32>
    ensures { IsCounted result (step_between n (spec.array_count below.now)) }
{
    if n == 0 { Some(0) } else { count_of(below) }
}

// The number a number of steps after another.
fn number_behind(first: u32, step: u32, index: u32) -> Option<u32>
    ensures { IfSome result (λ o. o ≡ first + index * step) }
{
    first.checked_add(index.checked_mul(step)?)
}

// References to objects whose numbers are evenly spaced.
#[tactic(auto, using(crate::proofs::ArrayMakingLaws::references_more))]
fn references_to(alloc: Global, first: u32, step: u32, n: u32) -> Result<Items<Value>, NoMemory>
    ensures { IfOk result (λ values. values ≡ references first step n) }
{
    let mut values = Items::new(alloc);
    for index in 0..n {
        let Some(o) = number_behind(first, step, index) else {
            return Err(NoMemory);
        };
        values.push(Value::Ref(o))?;
    }
    Ok(values)
}

// The arrays of the last dimension.
fn make_last<W: EventWorld>(world: &W, heap: &mut Heap, class: u32, n: u32) -> Result<(), NoMemory>
    ensures { OnOk result (AreMade (W.world world.now) (n ∷ []) class heap.old heap.new) }
{
    let Some(array) = world.array_type(class) else {
        return Err(NoMemory);
    };
    match heap.array(class, n, element_zero(array)) {
        Ok(_) => Ok(()),
        Err(_) => Err(NoMemory),
    }
}

// An array whose elements are those of lengths below it, which are made next.
fn make_outer(
    alloc: Global,
    heap: &mut Heap,
    class: u32,
    n: u32,
    below: &[u32],
) -> Result<(), NoMemory>
    ensures { OnOk result (IsOuter below.now n class heap.old heap.new) }
{
    let Some(step) = step_of(n, below) else {
        return Err(NoMemory);
    };
    let Ok(number) = u32::try_from(heap.count()) else {
        return Err(NoMemory);
    };
    let Some(first) = number.checked_add(1) else {
        return Err(NoMemory);
    };
    let values = references_to(alloc, first, step, n)?;
    match heap.object(class, &values) {
        Ok(_) => Ok(()),
        Err(_) => Err(NoMemory),
    }
}

/// The arrays of a class for some lengths, each outer one before those below it. Where they can't be made, or have no room, memory is
/// wanted.
pub(crate) fn make_arrays<W: EventWorld>(
    alloc: Global,
    world: &W,
    heap: &mut Heap,
    class: u32,
    lengths: &[u32],
) -> Result<(), NoMemory>
    ensures { OnOk result (AreMade (W.world world.now) lengths.now class heap.old heap.new) }
{
    let Some((n, below)) = lengths.split_first() else {
        return Ok(());
    };
    if below.is_empty() {
        return make_last(world, heap, class, *n);
    }
    let Some(inner) = world.element_class(class) else {
        return Err(NoMemory);
    };
    make_outer(alloc, heap, class, *n, below)?;
    for _ in 0..*n {
        make_arrays(alloc, world, heap, inner, below)?;
    }
    Ok(())
}
