//! Rows that move operands (JVMS 6.5: pop to swap), whatever they hold.

ghost use Rattle.std.specs.Prelude.{◌+◌, ◌≤◌, [], ◌∷◌, length};
ghost use Rattle.instruction_rows.specs.StackItems.{one, two};
ghost use Rattle.instruction_rows.specs.Rows.{moves};
ghost use Rattle.instruction_rows.specs.SlotEffect.{on};
ghost use Rattle.frame_instructions.specs.SlotRows.{CanAct, Acts};

use crate::slots::{put_five, put_four, put_six, put_three, put_two, stored_at};
use slot_block::StoredSlot;

/// pop.
#[inline(always)]
pub fn pop(slots: &[StoredSlot], locals: usize, used: usize) -> usize
    requires room { locals + used ≤ length slots.now }
    requires acts { CanAct (moves (one ∷ []) ([])) slots.now locals used }
    ensures { Acts (moves (one ∷ []) ([]))
        slots.now locals used slots.now result on }
{
    used - 1
}

/// pop2.
#[inline(always)]
pub fn pop_two(slots: &[StoredSlot], locals: usize, used: usize) -> usize
    requires room { locals + used ≤ length slots.now }
    requires acts { CanAct (moves (two ∷ []) ([])) slots.now locals used }
    ensures { Acts (moves (two ∷ []) ([]))
        slots.now locals used slots.now result on }
{
    used - 2
}

/// dup.
#[inline(always)]
pub fn dup(slots: &mut [StoredSlot], locals: usize, used: usize) -> usize
    requires room { locals + used + 1 ≤ length slots.old }
    requires acts { CanAct (moves (one ∷ []) (0 ∷ 0 ∷ [])) slots.old locals used }
    ensures { Acts (moves (one ∷ []) (0 ∷ 0 ∷ []))
        slots.old locals used slots.new result on }
{
    let at = locals + used - 1;
    let a = stored_at(slots, at);
    put_two(slots, at, a, a);
    used + 1
}

/// dup_x1.
#[inline(always)]
pub fn dup_x1(slots: &mut [StoredSlot], locals: usize, used: usize) -> usize
    requires room { locals + used + 1 ≤ length slots.old }
    requires acts { CanAct (moves (one ∷ one ∷ []) (0 ∷ 1 ∷ 0 ∷ [])) slots.old locals used }
    ensures { Acts (moves (one ∷ one ∷ []) (0 ∷ 1 ∷ 0 ∷ []))
        slots.old locals used slots.new result on }
{
    let at = locals + used - 2;
    let b = stored_at(slots, at);
    let a = stored_at(slots, at + 1);
    put_three(slots, at, a, b, a);
    used + 1
}

/// dup_x2.
#[inline(always)]
pub fn dup_x2(slots: &mut [StoredSlot], locals: usize, used: usize) -> usize
    requires room { locals + used + 1 ≤ length slots.old }
    requires acts { CanAct (moves (one ∷ two ∷ []) (0 ∷ 1 ∷ 0 ∷ [])) slots.old locals used }
    ensures { Acts (moves (one ∷ two ∷ []) (0 ∷ 1 ∷ 0 ∷ []))
        slots.old locals used slots.new result on }
{
    let at = locals + used - 3;
    let c = stored_at(slots, at);
    let b = stored_at(slots, at + 1);
    let a = stored_at(slots, at + 2);
    put_four(slots, at, a, c, b, a);
    used + 1
}

/// dup2.
#[inline(always)]
pub fn dup_two(slots: &mut [StoredSlot], locals: usize, used: usize) -> usize
    requires room { locals + used + 2 ≤ length slots.old }
    requires acts { CanAct (moves (two ∷ []) (0 ∷ 0 ∷ [])) slots.old locals used }
    ensures { Acts (moves (two ∷ []) (0 ∷ 0 ∷ []))
        slots.old locals used slots.new result on }
{
    let at = locals + used - 2;
    let b = stored_at(slots, at);
    let a = stored_at(slots, at + 1);
    put_four(slots, at, b, a, b, a);
    used + 2
}

/// dup2_x1.
#[inline(always)]
pub fn dup_two_x1(slots: &mut [StoredSlot], locals: usize, used: usize) -> usize
    requires room { locals + used + 2 ≤ length slots.old }
    requires acts { CanAct (moves (two ∷ one ∷ []) (0 ∷ 1 ∷ 0 ∷ [])) slots.old locals used }
    ensures { Acts (moves (two ∷ one ∷ []) (0 ∷ 1 ∷ 0 ∷ []))
        slots.old locals used slots.new result on }
{
    let at = locals + used - 3;
    let c = stored_at(slots, at);
    let b = stored_at(slots, at + 1);
    let a = stored_at(slots, at + 2);
    put_five(slots, at, b, a, c, b, a);
    used + 2
}

/// dup2_x2.
#[inline(always)]
pub fn dup_two_x2(slots: &mut [StoredSlot], locals: usize, used: usize) -> usize
    requires room { locals + used + 2 ≤ length slots.old }
    requires acts { CanAct (moves (two ∷ two ∷ []) (0 ∷ 1 ∷ 0 ∷ [])) slots.old locals used }
    ensures { Acts (moves (two ∷ two ∷ []) (0 ∷ 1 ∷ 0 ∷ []))
        slots.old locals used slots.new result on }
{
    let at = locals + used - 4;
    let d = stored_at(slots, at);
    let c = stored_at(slots, at + 1);
    let b = stored_at(slots, at + 2);
    let a = stored_at(slots, at + 3);
    put_six(slots, at, b, a, d, c, b, a);
    used + 2
}

/// swap.
#[inline(always)]
pub fn swap(slots: &mut [StoredSlot], locals: usize, used: usize) -> usize
    requires room { locals + used ≤ length slots.old }
    requires acts { CanAct (moves (one ∷ one ∷ []) (1 ∷ 0 ∷ [])) slots.old locals used }
    ensures { Acts (moves (one ∷ one ∷ []) (1 ∷ 0 ∷ []))
        slots.old locals used slots.new result on }
{
    let at = locals + used - 2;
    let b = stored_at(slots, at);
    let a = stored_at(slots, at + 1);
    put_two(slots, at, a, b);
    used
}
