//! Rows that give a long (JVMS 6.5).

ghost use Rattle.std.specs.Prelude.{◌+◌, ◌≤◌, [], ◌∷◌, Some, length, pos};
ghost use Rattle.opcodes.specs.declared.op.ValueKind.TheVariants as kinds;
ghost use Rattle.instruction_rows.specs.Rows.{long, push};
ghost use Rattle.instruction_rows.specs.SlotEffect.{on};
ghost use Rattle.stack_maps.specs.declared.types.VType.TheVariants as types;
ghost use Rattle.instruction_rows.specs.declared.value.Value.TheVariants as values;
ghost use Rattle.jvm_words.specs.declared.operation.LongOp.TheVariants as long_ops;
ghost use Rattle.jvm_words.specs.Words.{long_result, long_shift_result};
ghost use Rattle.frame_instructions.specs.SlotRows.{CanAct, Acts, shift_row};

use crate::words::negated_long;
use jvm_words::{LongOp, ShiftOp, l_binary, l_shift};
use slot_block::{StoredSlot, int_at, long_at, put_long};

/// lconst, and ldc2_w of a long.
#[inline(always)]
pub fn push_long(slots: &mut [StoredSlot], locals: usize, used: usize, n: i64) -> usize
    requires room { locals + used + 2 ≤ length slots.old }
    ensures { Acts (push types.Long (values.Long n)) slots.old locals used slots.new result on }
{
    put_long(slots, locals + used, n);
    used + 2
}

/// ladd to lrem, land, lor and lxor.
#[inline(always)]
pub fn long_binary(op: LongOp, slots: &mut [StoredSlot], locals: usize, used: usize) -> usize
    requires fits { locals + used ≤ length slots.old }
    requires acts { CanAct (long (kinds.Long ∷ kinds.Long ∷ []) (λ b a. long_result op a b))
        slots.old locals used }
    ensures { Acts (long (kinds.Long ∷ kinds.Long ∷ []) (λ b a. long_result op a b))
        slots.old locals used slots.new result on }
{
    let at = locals + used - 4;
    let a = long_at(slots, at);
    let b = long_at(slots, at + 2);
    match l_binary(op, a, b) {
        Some(n) => put_long(slots, at, n),
        None => unreachable!(),
    }
    used - 2
}

/// lshl, lshr and lushr.
#[inline(always)]
pub fn long_shift(op: ShiftOp, slots: &mut [StoredSlot], locals: usize, used: usize) -> usize
    requires fits { locals + used ≤ length slots.old }
    requires acts { CanAct (shift_row op) slots.old locals used }
    ensures { Acts (shift_row op) slots.old locals used slots.new result on }
{
    let at = locals + used - 3;
    let a = long_at(slots, at);
    let b = int_at(slots, at + 2);
    put_long(slots, at, l_shift(op, a, b));
    used - 1
}

/// lshl, lshr and lushr by this int, which isn't pushed.
#[inline(always)]
pub fn long_shift_by(
    op: ShiftOp,
    n: i32,
    slots: &mut [StoredSlot],
    locals: usize,
    used: usize,
) -> usize
    requires fits { locals + used ≤ length slots.old }
    requires acts { CanAct (long (kinds.Long ∷ []) (λ a. Some (long_shift_result op a n)))
        slots.old locals used }
    ensures { Acts (long (kinds.Long ∷ []) (λ a. Some (long_shift_result op a n)))
        slots.old locals used slots.new result on }
{
    let at = locals + used - 2;
    let a = long_at(slots, at);
    put_long(slots, at, l_shift(op, a, n));
    used
}

/// lneg.
#[inline(always)]
pub fn long_negate(slots: &mut [StoredSlot], locals: usize, used: usize) -> usize
    requires fits { locals + used ≤ length slots.old }
    requires acts { CanAct (long (kinds.Long ∷ []) (λ a. long_result long_ops.Sub (pos 0) a))
        slots.old locals used }
    ensures { Acts (long (kinds.Long ∷ []) (λ a. long_result long_ops.Sub (pos 0) a))
        slots.old locals used slots.new result on }
{
    let at = locals + used - 2;
    let a = long_at(slots, at);
    put_long(slots, at, negated_long(a));
    used
}

/// i2l.
#[inline(always)]
pub fn int_to_long(slots: &mut [StoredSlot], locals: usize, used: usize) -> usize
    requires fits { locals + used + 1 ≤ length slots.old }
    requires acts { CanAct (long (kinds.Int ∷ []) (λ a. Some a))
        slots.old locals used }
    ensures { Acts (long (kinds.Int ∷ []) (λ a. Some a))
        slots.old locals used slots.new result on }
{
    let at = locals + used - 1;
    let a = int_at(slots, at);
    put_long(slots, at, i64::from(a));
    used + 1
}
