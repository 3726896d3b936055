//! Whether an instruction stays in its frame (JVMS 6.5): idiv, irem, ldiv and lrem do where the divisor isn't 0.

ghost use Rattle.std.specs.Prelude.{◌≡◌, ◌+◌, ◌≤◌, length, not};
ghost use Rattle.opcodes.specs.declared.op.Op.TheVariants as ops;
ghost use Rattle.opcodes.specs.declared.op.Simple.TheVariants as simples;
ghost use Rattle.instruction_rows.specs.Marks.{has_zero_divisor, is_zero_int_on, is_zero_long_on};
ghost use Rattle.frames.specs.Slots.{descending};
ghost use Rattle.frame_instructions.specs.SlotRows.{CanAct};
ghost use Rattle.interp_local.specs.FrameRows as spec;
ghost use Rattle.interp_local.specs.FrameRows.{HasOperands, adds_ints, adds_longs};

use jvm_words::{IntOp, LongOp, i_binary, l_binary};
use opcodes::{Op, Simple};
use slot_block::{StoredSlot, int_at, long_at};

// Whether the int on top isn't 0.
#[inline(always)]
fn has_int_divisor(slots: &[StoredSlot], locals: usize, used: usize) -> bool
    requires fits { locals + used ≤ length slots.now }
    requires operands { CanAct adds_ints slots.now locals used }
    ensures { result ≡ not (is_zero_int_on (descending slots.now locals used)) }
{
    let divisor = int_at(slots, locals + used - 1);
    i_binary(IntOp::Div, 0, divisor).is_some()
}

#[inline(always)]
fn int_stays(op: IntOp, slots: &[StoredSlot], locals: usize, used: usize) -> bool
    requires fits { locals + used ≤ length slots.now }
    requires operands { CanAct adds_ints slots.now locals used }
    ensures { result ≡ not (has_zero_divisor (ops.Simple (simples.IntBinary op))
        (descending slots.now locals used)) }
{
    match op {
        IntOp::Div => has_int_divisor(slots, locals, used),
        IntOp::Rem => has_int_divisor(slots, locals, used),
        _ => true,
    }
}

// Whether the long on top isn't 0.
#[inline(always)]
fn has_long_divisor(slots: &[StoredSlot], locals: usize, used: usize) -> bool
    requires fits { locals + used ≤ length slots.now }
    requires operands { CanAct adds_longs slots.now locals used }
    ensures { result ≡ not (is_zero_long_on (descending slots.now locals used)) }
{
    let divisor = long_at(slots, locals + used - 2);
    l_binary(LongOp::Div, 0, divisor).is_some()
}

#[inline(always)]
fn long_stays(op: LongOp, slots: &[StoredSlot], locals: usize, used: usize) -> bool
    requires fits { locals + used ≤ length slots.now }
    requires operands { CanAct adds_longs slots.now locals used }
    ensures { result ≡ not (has_zero_divisor (ops.Simple (simples.LongBinary op))
        (descending slots.now locals used)) }
{
    match op {
        LongOp::Div => has_long_divisor(slots, locals, used),
        LongOp::Rem => has_long_divisor(slots, locals, used),
        _ => true,
    }
}

#[inline(always)]
fn simple_stays(simple: Simple, slots: &[StoredSlot], locals: usize, used: usize) -> bool
    requires fits { locals + used ≤ length slots.now }
    requires operands { HasOperands (ops.Simple simple) slots.now locals used }
    ensures { result ≡ spec.stays (ops.Simple simple) (descending slots.now locals used) }
{
    match simple {
        Simple::IntBinary(op) => int_stays(op, slots, locals, used),
        Simple::LongBinary(op) => long_stays(op, slots, locals, used),
        Simple::ArrayLoad(_)
        | Simple::ArrayStore(_)
        | Simple::ReturnValue(_)
        | Simple::Return
        | Simple::ArrayLength
        | Simple::Throw
        | Simple::MonitorEnter
        | Simple::MonitorExit => false,
        _ => true,
    }
}

// Whether an instruction that may stay in its frame does.
#[inline(never)]
fn row_stays(op: &Op, slots: &[StoredSlot], locals: usize, used: usize) -> bool
    requires fits { locals + used ≤ length slots.now }
    requires operands { HasOperands op.now slots.now locals used }
    ensures { result ≡ spec.stays op.now (descending slots.now locals used) }
{
    match op {
        Op::Simple(simple) => simple_stays(*simple, slots, locals, used),
        Op::PushInt(_)
        | Op::PushLong(_)
        | Op::PushConstant(_)
        | Op::PushWideConstant(_)
        | Op::Load(_, _)
        | Op::Store(_, _)
        | Op::Increment(_, _)
        | Op::IfZero(_, _)
        | Op::IfInts(_, _)
        | Op::IfReferences(_, _)
        | Op::IfNull(_, _)
        | Op::Goto(_)
        | Op::TableSwitch(_)
        | Op::LookupSwitch(_) => true,
        _ => false,
    }
}

/// Whether the instruction stays in its frame. Those that end most runs are told apart here, without a call.
#[inline(always)]
pub(crate) fn does_stay(op: &Op, slots: &[StoredSlot], locals: usize, used: usize) -> bool
    requires fits { locals + used ≤ length slots.now }
    requires operands { HasOperands op.now slots.now locals used }
    ensures { result ≡ spec.stays op.now (descending slots.now locals used) }
{
    match op {
        Op::GetStatic(_)
        | Op::PutStatic(_)
        | Op::GetField(_)
        | Op::PutField(_)
        | Op::InvokeVirtual(_)
        | Op::InvokeSpecial(_)
        | Op::InvokeStatic(_)
        | Op::InvokeInterface(_, _) => false,
        _ => row_stays(op, slots, locals, used),
    }
}
