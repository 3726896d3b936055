//! The slots of a stack: more of them, and unset ones (JVMS 2.6.1).

ghost use Rattle.std.specs.Prelude.{ℕ, ◌≡◌, ◌<◌, ◌≤◌, drop, vec_len, IsOk, OnErr, OnOk};
ghost use Rattle.frames.specs.Slots.{slot_at};

use instruction_rows::Slot;
use slot_block::StoredSlot;
use std::alloc::AllocError;

// Makes the slots at least as many as are wanted; new ones are unset. Growth doubles them, so that it costs little a slot.
pub(crate) fn lengthen(slots: &mut Vec<StoredSlot>, wanted: usize) -> Result<(), AllocError>
    ensures kept { (i : ℕ) → i < vec_len slots.old
        → slot_at slots.new.items i ≡ slot_at slots.old.items i }
    ensures ok { OnOk result (wanted ≤ vec_len slots.new) }
    ensures longer { vec_len slots.old ≤ vec_len slots.new }
    ensures err { OnErr result (slots.new.items ≡ slots.old.items) }
    ensures enough { wanted ≤ vec_len slots.old → IsOk result }
    ensures same { wanted ≤ vec_len slots.old → slots.new.items ≡ slots.old.items }
{
    let len = slots.len();
    if wanted <= len {
        return Ok(());
    }
    slots.resize(wanted.saturating_add(len), StoredSlot::of(Slot::Second))
}

// Unsets the slots from one index up to another.
pub(crate) fn unset(slots: &mut Vec<StoredSlot>, from: usize, to: usize)
    requires { to ≤ vec_len slots.old }
    ensures len { vec_len slots.new ≡ vec_len slots.old }
    ensures kept { (i : ℕ) → i < from → slot_at slots.new.items i ≡ slot_at slots.old.items i }
    ensures unset { (i : ℕ) → from ≤ i → i < to → slot_at slots.new.items i ≡ Slot.Second }
    ensures behind { drop to slots.new.items ≡ drop to slots.old.items }
{
    for i in from..to {
        slots[i] = StoredSlot::of(Slot::Second);
    }
}
