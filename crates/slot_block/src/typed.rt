//! Reads and writes of slots by kind.

ghost use Rattle.std.specs.Prelude.{ℕ, ℤ, ◌≡◌, ◌+◌, ◌%◌, ◌^◌, ◌<◌, Some, length, slice_get, slice_set};

use crate::stored_slot::{StoredKind, StoredSlot};
use instruction_rows::{Slot, Value};

// The low 32 bits of a word.
#[inline(always)]
fn low(word: u64) -> u32
    ensures { result ≡ word % 2 ^ 32 }
{
    (word % 0x1_0000_0000) as u32
}

/// The slot at an index.
#[inline(always)]
pub fn slot_at(slots: &[StoredSlot], i: usize) -> Slot
    requires { i < length slots.now }
    ensures { slice_get slots.now i ≡ Some result }
{
    let slot = slots[i];
    slot.slot()
}

/// The int at an index where one lies.
#[inline(always)]
pub fn int_at(slots: &[StoredSlot], i: usize) -> i32
    requires { i < length slots.now }
    ensures { (z : ℤ) → slice_get slots.now i ≡ Some (Slot.One (Value.Int z)) → result ≡ z }
{
    let slot = slots[i];
    low(slot.word).cast_signed()
}

/// The long at an index where one lies.
#[inline(always)]
pub fn long_at(slots: &[StoredSlot], i: usize) -> i64
    requires { i < length slots.now }
    ensures { (z : ℤ) → slice_get slots.now i ≡ Some (Slot.One (Value.Long z)) → result ≡ z }
{
    let slot = slots[i];
    slot.word.cast_signed()
}

/// The number of the object at an index where a reference to one lies.
#[inline(always)]
pub fn reference_at(slots: &[StoredSlot], i: usize) -> u32
    requires { i < length slots.now }
    ensures { (n : ℕ) → slice_get slots.now i ≡ Some (Slot.One (Value.Ref n)) → result ≡ n }
{
    let slot = slots[i];
    low(slot.word)
}

/// Puts a slot at an index.
#[inline(always)]
pub fn put_slot(slots: &mut [StoredSlot], i: usize, slot: Slot)
    requires { i < length slots.old }
    ensures { slots.new ≡ slice_set slots.old i slot }
{
    slots[i] = StoredSlot::of(slot);
}

/// Puts an int at an index.
#[inline(always)]
pub fn put_int(slots: &mut [StoredSlot], i: usize, x: i32)
    requires { i < length slots.old }
    ensures { slots.new ≡ slice_set slots.old i (Slot.One (Value.Int x)) }
{
    slots[i] = StoredSlot {
        kind: StoredKind::Int,
        word: u64::from(x.cast_unsigned()),
    };
}

/// Puts a long at an index, and its second half after it.
#[inline(always)]
pub fn put_long(slots: &mut [StoredSlot], i: usize, x: i64)
    requires { i + 1 < length slots.old }
    ensures { slots.new ≡
        slice_set (slice_set slots.old i (Slot.One (Value.Long x))) (i + 1) Slot.Second }
{
    slots[i] = StoredSlot {
        kind: StoredKind::Long,
        word: x.cast_unsigned(),
    };
    slots[i + 1] = StoredSlot {
        kind: StoredKind::Second,
        word: 0,
    };
}

/// Puts the null reference at an index.
#[inline(always)]
pub fn put_null(slots: &mut [StoredSlot], i: usize)
    requires { i < length slots.old }
    ensures { slots.new ≡ slice_set slots.old i (Slot.One Value.Null) }
{
    slots[i] = StoredSlot {
        kind: StoredKind::Null,
        word: 0,
    };
}

/// Puts a reference to an object at an index.
#[inline(always)]
pub fn put_reference(slots: &mut [StoredSlot], i: usize, object: u32)
    requires { i < length slots.old }
    ensures { slots.new ≡ slice_set slots.old i (Slot.One (Value.Ref object)) }
{
    slots[i] = StoredSlot {
        kind: StoredKind::Ref,
        word: u64::from(object),
    };
}
