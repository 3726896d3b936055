//! Rows that give an int (JVMS 6.5).

ghost use Rattle.std.specs.Prelude.{◌+◌, ◌≤◌, ◌<◌, [], ◌∷◌, Some, length, pos};
ghost use Rattle.std.specs.Int.{w32, int_wrap};
ghost use Rattle.opcodes.specs.declared.op.ValueKind.TheVariants as kinds;
ghost use Rattle.instruction_rows.specs.Rows.{int, push};
ghost use Rattle.instruction_rows.specs.SlotEffect.{on};
ghost use Rattle.stack_maps.specs.declared.types.VType.TheVariants as types;
ghost use Rattle.instruction_rows.specs.declared.value.Value.TheVariants as values;
ghost use Rattle.jvm_words.specs.declared.operation.IntOp.TheVariants as int_ops;
ghost use Rattle.jvm_words.specs.Words.{int_result, long_order, narrow_result};
ghost use Rattle.frame_instructions.specs.SlotRows.{CanAct, Acts};

use crate::words::{low_half, negated_int};
use jvm_words::{IntOp, Narrow, i_binary, l_compare, narrow};
use slot_block::{StoredSlot, int_at, long_at, put_int};

/// iconst, bipush, sipush, and ldc of an int.
#[inline(always)]
pub fn push_int(slots: &mut [StoredSlot], locals: usize, used: usize, n: i32) -> usize
    requires room { locals + used < length slots.old }
    ensures { Acts (push types.Int (values.Int n)) slots.old locals used slots.new result on }
{
    put_int(slots, locals + used, n);
    used + 1
}

/// iadd to irem, ishl to iushr, iand, ior and ixor.
#[inline(always)]
pub fn int_binary(op: IntOp, slots: &mut [StoredSlot], locals: usize, used: usize) -> usize
    requires fits { locals + used ≤ length slots.old }
    requires acts { CanAct (int (kinds.Int ∷ kinds.Int ∷ []) (λ b a. int_result op a b))
        slots.old locals used }
    ensures { Acts (int (kinds.Int ∷ kinds.Int ∷ []) (λ b a. int_result op a b))
        slots.old locals used slots.new result on }
{
    let at = locals + used - 2;
    let a = int_at(slots, at);
    let b = int_at(slots, at + 1);
    match i_binary(op, a, b) {
        Some(n) => put_int(slots, at, n),
        None => unreachable!(),
    }
    used - 1
}

/// iadd to irem, ishl to iushr, iand, ior and ixor with this upper int, which isn't pushed.
#[inline(always)]
pub fn int_with(op: IntOp, n: i32, slots: &mut [StoredSlot], locals: usize, used: usize) -> usize
    requires fits { locals + used ≤ length slots.old }
    requires acts { CanAct (int (kinds.Int ∷ []) (λ a. int_result op a n)) slots.old locals used }
    ensures { Acts (int (kinds.Int ∷ []) (λ a. int_result op a n))
        slots.old locals used slots.new result on }
{
    let at = locals + used - 1;
    let a = int_at(slots, at);
    match i_binary(op, a, n) {
        Some(made) => put_int(slots, at, made),
        None => unreachable!(),
    }
    used
}

/// ineg.
#[inline(always)]
pub fn int_negate(slots: &mut [StoredSlot], locals: usize, used: usize) -> usize
    requires fits { locals + used ≤ length slots.old }
    requires acts { CanAct (int (kinds.Int ∷ []) (λ a. int_result int_ops.Sub (pos 0) a))
        slots.old locals used }
    ensures { Acts (int (kinds.Int ∷ []) (λ a. int_result int_ops.Sub (pos 0) a))
        slots.old locals used slots.new result on }
{
    let at = locals + used - 1;
    let a = int_at(slots, at);
    put_int(slots, at, negated_int(a));
    used
}

/// i2b, i2c and i2s.
#[inline(always)]
pub fn int_narrow(to: Narrow, slots: &mut [StoredSlot], locals: usize, used: usize) -> usize
    requires fits { locals + used ≤ length slots.old }
    requires acts { CanAct (int (kinds.Int ∷ []) (λ a. Some (narrow_result to a)))
        slots.old locals used }
    ensures { Acts (int (kinds.Int ∷ []) (λ a. Some (narrow_result to a)))
        slots.old locals used slots.new result on }
{
    let at = locals + used - 1;
    let a = int_at(slots, at);
    put_int(slots, at, narrow(to, a));
    used
}

/// l2i.
#[inline(always)]
pub fn long_to_int(slots: &mut [StoredSlot], locals: usize, used: usize) -> usize
    requires fits { locals + used ≤ length slots.old }
    requires acts { CanAct (int (kinds.Long ∷ []) (λ a. Some (int_wrap w32 a)))
        slots.old locals used }
    ensures { Acts (int (kinds.Long ∷ []) (λ a. Some (int_wrap w32 a)))
        slots.old locals used slots.new result on }
{
    let at = locals + used - 2;
    let a = long_at(slots, at);
    put_int(slots, at, low_half(a));
    used - 1
}

/// lcmp.
#[inline(always)]
pub fn long_compare(slots: &mut [StoredSlot], locals: usize, used: usize) -> usize
    requires fits { locals + used ≤ length slots.old }
    requires acts { CanAct (int (kinds.Long ∷ kinds.Long ∷ []) (λ b a. Some (long_order a b)))
        slots.old locals used }
    ensures { Acts (int (kinds.Long ∷ kinds.Long ∷ []) (λ b a. Some (long_order a b)))
        slots.old locals used slots.new result on }
{
    let at = locals + used - 4;
    let a = long_at(slots, at);
    let b = long_at(slots, at + 2);
    put_int(slots, at, l_compare(a, b));
    used - 3
}
