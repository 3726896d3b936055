//! Rows on local variables (JVMS 6.5: iload to aload, istore to astore, iinc).

ghost use Rattle.std.specs.Prelude.{◌+◌, ◌≤◌, ◌<◌, length};
ghost use Rattle.opcodes.specs.declared.op.ValueKind.TheVariants as kinds;
ghost use Rattle.instruction_rows.specs.Rows.{load, store, increment};
ghost use Rattle.instruction_rows.specs.SlotEffect.{on};
ghost use Rattle.frame_instructions.specs.SlotRows.{CanAct, Acts};

use crate::slots::{put_one, stored_at};
use crate::words::increased;
use slot_block::{StoredSlot, int_at, long_at, put_int, put_long};

/// iload.
#[inline(always)]
pub fn load_int(slots: &mut [StoredSlot], locals: usize, used: usize, n: usize) -> usize
    requires room { locals + used < length slots.old }
    requires acts { CanAct (load kinds.Int n) slots.old locals used }
    ensures { Acts (load kinds.Int n) slots.old locals used slots.new result on }
{
    let a = int_at(slots, n);
    put_int(slots, locals + used, a);
    used + 1
}

/// istore.
#[inline(always)]
pub fn store_int(slots: &mut [StoredSlot], locals: usize, used: usize, n: usize) -> usize
    requires fits { locals + used ≤ length slots.old }
    requires acts { CanAct (store kinds.Int n) slots.old locals used }
    ensures { Acts (store kinds.Int n) slots.old locals used slots.new result on }
{
    let a = int_at(slots, locals + used - 1);
    put_int(slots, n, a);
    used - 1
}

/// aload.
#[inline(always)]
pub fn load_reference(slots: &mut [StoredSlot], locals: usize, used: usize, n: usize) -> usize
    requires room { locals + used < length slots.old }
    requires acts { CanAct (load kinds.Reference n) slots.old locals used }
    ensures { Acts (load kinds.Reference n) slots.old locals used slots.new result on }
{
    let a = stored_at(slots, n);
    put_one(slots, locals + used, a);
    used + 1
}

/// astore.
#[inline(always)]
pub fn store_reference(slots: &mut [StoredSlot], locals: usize, used: usize, n: usize) -> usize
    requires fits { locals + used ≤ length slots.old }
    requires acts { CanAct (store kinds.Reference n) slots.old locals used }
    ensures { Acts (store kinds.Reference n) slots.old locals used slots.new result on }
{
    let a = stored_at(slots, locals + used - 1);
    put_one(slots, n, a);
    used - 1
}

/// lload.
#[inline(always)]
pub fn load_long(slots: &mut [StoredSlot], locals: usize, used: usize, n: usize) -> usize
    requires room { locals + used + 2 ≤ length slots.old }
    requires acts { CanAct (load kinds.Long n) slots.old locals used }
    ensures { Acts (load kinds.Long n) slots.old locals used slots.new result on }
{
    let a = long_at(slots, n);
    put_long(slots, locals + used, a);
    used + 2
}

/// lstore.
#[inline(always)]
pub fn store_long(slots: &mut [StoredSlot], locals: usize, used: usize, n: usize) -> usize
    requires fits { locals + used ≤ length slots.old }
    requires acts { CanAct (store kinds.Long n) slots.old locals used }
    ensures { Acts (store kinds.Long n) slots.old locals used slots.new result on }
{
    let a = long_at(slots, locals + used - 2);
    put_long(slots, n, a);
    used - 2
}

/// iinc.
#[inline(always)]
pub fn increase(slots: &mut [StoredSlot], locals: usize, used: usize, n: usize, amount: i16)
    requires fits { locals + used ≤ length slots.old }
    requires acts { CanAct (increment n amount) slots.old locals used }
    ensures { Acts (increment n amount) slots.old locals used slots.new used on }
{
    let a = int_at(slots, n);
    put_int(slots, n, increased(a, amount));
}
