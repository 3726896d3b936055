//! Rows that push a constant (JVMS 6.5: aconst_null, ldc to ldc2_w).

ghost use Rattle.std.specs.Prelude.{◌+◌, ◌≤◌, ◌<◌, length};
ghost use Rattle.stack_maps.specs.declared.types.VType.{VType};
ghost use Rattle.instruction_rows.specs.declared.value.Value.TheVariants as values;
ghost use Rattle.instruction_rows.specs.Contents.{slots_of};
ghost use Rattle.instruction_rows.specs.Rows.{push};
ghost use Rattle.instruction_rows.specs.SlotEffect.{on};
ghost use Rattle.frame_instructions.specs.SlotRows.{Acts};

use crate::ints::push_int;
use crate::longs::push_long;
use instruction_rows::Value;
use slot_block::{StoredSlot, put_null, put_reference};

/// aconst_null.
#[inline(always)]
pub fn push_null(slots: &mut [StoredSlot], locals: usize, used: usize) -> usize
    requires room { locals + used < length slots.old }
    ensures { (t : VType) → Acts (push t values.Null) slots.old locals used slots.new result on }
{
    put_null(slots, locals + used);
    used + 1
}

// A reference to an object.
#[inline(always)]
fn push_reference(slots: &mut [StoredSlot], locals: usize, used: usize, object: u32) -> usize
    requires room { locals + used < length slots.old }
    ensures { (t : VType) → Acts (push t (values.Ref object))
        slots.old locals used slots.new result on }
{
    put_reference(slots, locals + used, object);
    used + 1
}

/// ldc, ldc_w and ldc2_w: the value of the constant.
#[inline(always)]
pub fn push_value(slots: &mut [StoredSlot], locals: usize, used: usize, value: Value) -> usize
    requires room { locals + used + length (slots_of value) ≤ length slots.old }
    ensures { (t : VType) → Acts (push t value) slots.old locals used slots.new result on }
{
    match value {
        Value::Int(n) => push_int(slots, locals, used, n),
        Value::Long(n) => push_long(slots, locals, used, n),
        Value::Null => push_null(slots, locals, used),
        Value::Ref(object) => push_reference(slots, locals, used, object),
    }
}
