//! A list of slots that grows at its end.

ghost use Rattle.std.specs.Prelude.{◌≡◌, ◌+◌, ◌-◌, ◌<◌, ◌≤◌, [], ◌∷◌, ◌++◌, drop, take, length, slice_get, slice_set, Some, IfOk, IsTrue, OnErr, OnOk, ◌↔◌};

use crate::stored_slot::StoredSlot;
use instruction_rows::Slot;
use items::NoMemory;
use std::alloc::Global;
use std::marker::Model;

/// A list of slots, and how many more it can take without new memory.
#[derive(Drop)]
pub struct SlotBlock {
    slots: Vec<StoredSlot>,
}

impl Model for SlotBlock {
    ghost use Rattle.std.specs.Prelude.{◌-◌, vec_len};
    ghost use Rattle.std.specs.Vec.{vec_capacity};
    ghost use Rattle.slot_block.specs.Block.{Block};

    ghost Value = { Block };

    ghost view = { λ a. record {
      slots = a.slots.items;
      spare = vec_capacity a.slots - vec_len a.slots;
    } };
}

impl SlotBlock {
    /// Makes an empty block that can take this many slots without new memory.
    pub fn new(alloc: Global, slots: usize) -> Result<Self, NoMemory>
        ensures empty { IfOk result (λ block. block.slots ≡ []) }
        ensures spare { IfOk result (λ block. slots ≤ block.spare) }
    {
        Ok(SlotBlock {
            slots: Vec::with_capacity(alloc, slots)?,
        })
    }

    /// Makes room for this many more slots. After an error nothing has changed.
    pub fn reserve(&mut self, slots: usize) -> Result<(), NoMemory>
        ensures slots { self.new.slots ≡ self.old.slots }
        ensures ok { OnOk result (slots ≤ self.new.spare) }
        ensures spare { self.old.spare ≤ self.new.spare }
        ensures enough { slots ≤ self.old.spare → OnErr result ⊥ }
    {
        self.slots.reserve(slots)?;
        Ok(())
    }

    /// Appends a slot.
    pub fn push(&mut self, slot: Slot)
        requires { 0 < self.old.spare }
        ensures { self.new ≡
            record { slots = self.old.slots ++ slot ∷ []; spare = self.old.spare - 1 } }
    {
        self.slots.push_reserved(StoredSlot::of(slot));
    }

    /// Takes the last slot.
    pub fn pop(&mut self) -> Slot
        requires { 0 < length self.old.slots }
        ensures slots { self.old.slots ≡ self.new.slots ++ result ∷ [] }
        ensures spare { self.new.spare ≡ self.old.spare + 1 }
    {
        match self.slots.pop() {
            Some(slot) => slot.slot(),
            None => unreachable!(),
        }
    }

    /// The slot at an index.
    pub fn get(&self, i: usize) -> Slot
        requires { i < length self.now.slots }
        ensures { slice_get self.now.slots i ≡ Some result }
    {
        let slot = self.slots[i];
        slot.slot()
    }

    /// Puts a slot at an index.
    pub fn set(&mut self, i: usize, slot: Slot)
        requires { i < length self.old.slots }
        ensures { self.new ≡ record self.old { slots = slice_set self.old.slots i slot } }
    {
        self.slots[i] = StoredSlot::of(slot);
    }

    /// Appends the last `slots` slots to another block, in order.
    pub fn copy_top(&self, slots: usize, into: &mut SlotBlock)
        requires inside { slots ≤ length self.now.slots }
        requires spare { slots ≤ into.old.spare }
        ensures slots { into.new.slots ≡
            into.old.slots ++ drop (length self.now.slots - slots) self.now.slots }
        ensures spare { into.new.spare + slots ≡ into.old.spare }
    {
        let first = self.slots.len() - slots;
        for slot in &self.slots[first..] {
            into.slots.push_reserved(*slot);
        }
    }

    /// Drops the last `slots` slots.
    pub fn drop_top(&mut self, slots: usize)
        requires { slots ≤ length self.old.slots }
        ensures slots { self.new.slots ≡ take (length self.old.slots - slots) self.old.slots }
        ensures spare { self.new.spare ≡ self.old.spare + slots }
    {
        let left = self.slots.len() - slots;
        self.slots.truncate(left);
    }

    /// How many slots it can take without new memory.
    pub fn spare(&self) -> usize
        ensures { result ≡ self.now.spare }
    {
        self.slots.capacity() - self.slots.len()
    }

    /// How many slots there are.
    pub fn len(&self) -> usize
        ensures { result ≡ length self.now.slots }
    {
        self.slots.len()
    }

    /// Whether there is none.
    pub fn is_empty(&self) -> bool
        ensures { IsTrue result ↔ (self.now.slots ≡ []) }
    {
        self.slots.is_empty()
    }
}
