//! Slots that are read and written where they lie, whatever they hold.

ghost use Rattle.std.specs.Prelude.{◌≡◌, ◌+◌, ◌<◌, ◌≤◌, [], ◌∷◌, length};
ghost use Rattle.frames.specs.Slots.{slot_at};
ghost use Rattle.frame_instructions.specs.SlotRows.{written};

use slot_block::StoredSlot;

// The slot at an index.
#[inline(always)]
pub(crate) fn stored_at(slots: &[StoredSlot], i: usize) -> StoredSlot
    requires { i < length slots.now }
    ensures { result ≡ slot_at slots.now i }
{
    slots[i]
}

// Slots one after the other, from an index on.
#[inline(always)]
pub(crate) fn put_one(slots: &mut [StoredSlot], at: usize, a: StoredSlot)
    requires { at + 1 ≤ length slots.old }
    ensures { slots.new ≡ written at (a ∷ []) slots.old }
{
    slots[at] = a;
}

#[inline(always)]
pub(crate) fn put_two(slots: &mut [StoredSlot], at: usize, a: StoredSlot, b: StoredSlot)
    requires { at + 2 ≤ length slots.old }
    ensures { slots.new ≡ written at (a ∷ b ∷ []) slots.old }
{
    slots[at] = a;
    put_one(slots, at + 1, b);
}

#[inline(always)]
pub(crate) fn put_three(
    slots: &mut [StoredSlot],
    at: usize,
    a: StoredSlot,
    b: StoredSlot,
    c: StoredSlot,
)
    requires { at + 3 ≤ length slots.old }
    ensures { slots.new ≡ written at (a ∷ b ∷ c ∷ []) slots.old }
{
    slots[at] = a;
    put_two(slots, at + 1, b, c);
}

#[inline(always)]
pub(crate) fn put_four(
    slots: &mut [StoredSlot],
    at: usize,
    a: StoredSlot,
    b: StoredSlot,
    c: StoredSlot,
    d: StoredSlot,
)
    requires { at + 4 ≤ length slots.old }
    ensures { slots.new ≡ written at (a ∷ b ∷ c ∷ d ∷ []) slots.old }
{
    slots[at] = a;
    put_three(slots, at + 1, b, c, d);
}

#[inline(always)]
pub(crate) fn put_five(
    slots: &mut [StoredSlot],
    at: usize,
    a: StoredSlot,
    b: StoredSlot,
    c: StoredSlot,
    d: StoredSlot,
    e: StoredSlot,
)
    requires { at + 5 ≤ length slots.old }
    ensures { slots.new ≡ written at (a ∷ b ∷ c ∷ d ∷ e ∷ []) slots.old }
{
    slots[at] = a;
    put_four(slots, at + 1, b, c, d, e);
}

#[inline(always)]
pub(crate) fn put_six(
    slots: &mut [StoredSlot],
    at: usize,
    a: StoredSlot,
    b: StoredSlot,
    c: StoredSlot,
    d: StoredSlot,
    e: StoredSlot,
    f: StoredSlot,
)
    requires { at + 6 ≤ length slots.old }
    ensures { slots.new ≡ written at (a ∷ b ∷ c ∷ d ∷ e ∷ f ∷ []) slots.old }
{
    slots[at] = a;
    put_five(slots, at + 1, b, c, d, e, f);
}
