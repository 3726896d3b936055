//! A stack of frames, and the calls that change it (JVMS 2.5.2, 2.6).

ghost use Rattle.std.specs.Prelude.{ℕ, ◌≡◌, ◌↔◌, ◌+◌, ◌-◌, ◌<◌, ◌≤◌, Err, IsOk, IsTrue, OnErr, OnOk, Some, [], drop, length, slice_get};
ghost use Rattle.std.specs.Borrow.{sem};
ghost use Rattle.frames.specs.Frames.{HasRoom, at_pc, called, cleared, dropped, entered, left, popped, pushed, returned, room_left, all_slots, with_pc_and_operands, size_of, top_locals, top_method, top_pc, top_room, top_stack, with_frames, with_local};
ghost use Rattle.frames.specs.declared.error.StackError.TheVariants as errors;

use crate::error::StackError;
use crate::record::Record;
use crate::slots::{lengthen, unset};
use instruction_rows::Slot;
use items::NoMemory;
use slot_block::StoredSlot;
use std::alloc::Global;
use std::marker::Model;

/// The most frames that a stack has.
pub const MOST_FRAMES: u32 = 2048;

/// What the top frame is: the number of its method, the pc of its instruction, and how many local variables and operands it has.
#[derive(Clone, Copy)]
pub struct FrameView {
    pub method: u32,
    pub pc: u32,
    pub locals: u32,
    pub operands: u16,
}

/// The frames of a thread (JVMS 2.5.2), at most 2,048.
#[derive(Drop)]
pub struct Stack {
    slots: Vec<StoredSlot>,
    // Where the frames below lie, under the record of no frame.
    saved: Vec<Record>,
    top: Record,
}

impl Model for Stack {
    ghost use Rattle.frames.specs.Frames.{Frames};

    ghost Value = { Frames };

    ghost use Rattle.frames.specs.Layout.{seen, IsStack};

    ghost view = { seen };

    ghost invariant = { IsStack };
}

impl Stack {
    ghost use Rattle.frames.specs.Lending.{LendsSlots};

    /// No frame. This takes no memory.
    pub fn new(alloc: Global) -> Self
        ensures frames { result.frames ≡ [] }
        ensures spare { result.spare ≡ [] }
    {
        Stack {
            slots: Vec::new(alloc),
            saved: Vec::new(alloc),
            top: Record::none(),
        }
    }

    /// How many frames there are, at most 2,048.
    #[inline(always)]
    pub fn frame_count(&self) -> u32
        ensures count { result ≡ length self.now.frames }
        ensures most { result ≤ 2048 }
    {
        self.saved.len() as u32
    }

    /// What the top frame is.
    #[inline(always)]
    pub fn top(&self) -> FrameView
        requires { 0 < length self.now.frames }
        ensures method { result.method ≡ top_method self.now.frames }
        ensures pc { result.pc ≡ top_pc self.now.frames }
        ensures locals { result.locals ≡ length (top_locals self.now.frames) }
        ensures operands { result.operands ≡ length (top_stack self.now.frames) }
    {
        FrameView {
            method: self.top.method,
            pc: self.top.pc,
            locals: self.top.locals,
            operands: self.top.used,
        }
    }

    /// The number of the method of the frame with this many frames above it.
    pub fn method_at(&self, above: u32) -> u32
        requires { above < length self.now.frames }
        ensures { result ≡ top_method (drop above self.now.frames) }
    {
        if above == 0 {
            return self.top.method;
        }
        let at = self.saved.len() - above as usize;
        self.saved[at].method
    }

    /// The top frame's local variable with this index.
    #[inline(always)]
    pub fn local(&self, i: u16) -> Slot
        requires { i < length (top_locals self.now.frames) }
        ensures { slice_get (top_locals self.now.frames) i ≡ Some result }
    {
        let slot = self.slots[self.top.base + i as usize];
        slot.slot()
    }

    /// The top frame's operand at this depth; that at depth 0 is the top.
    #[inline(always)]
    pub fn operand(&self, i: u16) -> Slot
        requires { i < length (top_stack self.now.frames) }
        ensures { slice_get (top_stack self.now.frames) i ≡ Some result }
    {
        let slot = self.slots[self.top.end() - 1 - i as usize];
        slot.slot()
    }

    /// How many more operands the top frame may have.
    #[inline(always)]
    pub fn operand_room(&self) -> u16
        ensures { result ≡ room_left self.now.frames }
    {
        self.top.room - self.top.used
    }

    /// The top frame has no more operands than it may have. This does nothing.
    #[inline(always)]
    pub fn operands_fit(&self)
        ensures { length (top_stack self.now.frames) ≤ top_room self.now.frames }
    {
        let _ = &self.top;
    }

    /// Sets the top frame's pc.
    #[inline(always)]
    pub fn set_pc(&mut self, pc: u32)
        ensures { self.new ≡ with_frames (at_pc pc self.old.frames) self.old }
    {
        self.top.pc = pc;
    }

    /// Sets a local variable of the top frame.
    #[inline(always)]
    pub fn set_local(&mut self, i: u16, slot: Slot)
        requires { i < length (top_locals self.old.frames) }
        ensures { self.new ≡ with_frames (with_local i slot self.old.frames) self.old }
    {
        let at = self.top.base + i as usize;
        self.slots[at] = StoredSlot::of(slot);
    }

    /// Pushes an operand on the top frame.
    #[inline(always)]
    pub fn push(&mut self, slot: Slot)
        requires { 0 < room_left self.old.frames }
        ensures { self.new ≡ pushed slot self.old }
    {
        let end = self.top.end();
        self.slots[end] = StoredSlot::of(slot);
        self.top.used += 1;
    }

    /// Pops the top frame's top operand.
    #[inline(always)]
    pub fn pop(&mut self) -> Slot
        requires { 0 < length (top_stack self.old.frames) }
        ensures value { slice_get (top_stack self.old.frames) 0 ≡ Some result }
        ensures popped { self.new ≡ popped self.old }
    {
        let slot = self.slots[self.top.end() - 1];
        self.top.used -= 1;
        slot.slot()
    }

    /// Drops the topmost `slots` operands of the top frame.
    #[inline(always)]
    pub fn drop_operands(&mut self, slots: u16)
        requires { slots ≤ length (top_stack self.old.frames) }
        ensures { self.new ≡ dropped slots self.old }
    {
        self.top.used -= slots;
    }

    /// Drops the top frame's operands.
    pub fn clear(&mut self)
        ensures { self.new ≡ cleared self.old }
    {
        self.top.used = 0;
    }

    /// Drops the top frame.
    #[inline(always)]
    pub fn pop_frame(&mut self)
        requires { 0 < length self.old.frames }
        ensures { self.new ≡ left self.old }
    {
        match self.saved.pop() {
            Some(below) => self.top = below,
            None => unreachable!(),
        }
    }

    /// Whether a frame of this size can be pushed without new memory.
    #[inline(always)]
    pub fn fits(&self, locals: u32, operands: u16) -> bool
        ensures { IsTrue result ↔ HasRoom self.now locals operands }
    {
        let spare = self.slots.len() - self.top.end();
        self.saved.len() < self.saved.capacity() && locals as usize + operands as usize <= spare
    }

    /// Room for a frame of this size. After an error there is no less room than before.
    pub fn reserve(&mut self, locals: u32, operands: u16) -> Result<(), NoMemory>
        ensures frames { self.new.frames ≡ self.old.frames }
        ensures ok { OnOk result (HasRoom self.new locals operands) }
        ensures err { OnErr result (self.new.spare ≡ self.old.spare) }
        ensures spare { length self.old.spare ≤ length self.new.spare }
        ensures calls { self.old.calls ≤ self.new.calls }
        ensures enough { HasRoom self.old locals operands → IsOk result }
    {
        self.saved.reserve(1)?;
        let wanted = self.top.end() + locals as usize + operands as usize;
        lengthen(&mut self.slots, wanted)?;
        Ok(())
    }

    /// Pushes the frame of a method, where there is room for it: the top frame's last `args` operands are its first local variables,
    /// the others are unset, and its pc is 0. No slot moves.
    #[inline(always)]
    pub fn enter(&mut self, method: u32, locals: u32, operands: u16, args: u16)
        requires room { HasRoom self.old locals operands }
        requires few { length self.old.frames < 2048 }
        requires given { args ≤ length (top_stack self.old.frames) }
        requires taken { args ≤ locals }
        ensures { self.new ≡ called method locals operands args self.old }
    {
        let mut caller = self.top;
        caller.used -= args;
        let base = caller.end();
        unset(
            &mut self.slots,
            base + args as usize,
            base + locals as usize,
        );
        self.saved.push_reserved(caller);
        self.top = Record {
            base,
            method,
            pc: 0,
            locals,
            used: 0,
            room: operands,
        };
    }

    /// Pushes the frame of a method, as `enter` does, with new memory where that is wanted. `Deep` comes exactly where there are 2,048
    /// frames. After an error there is no less room than before.
    pub fn push_frame(
        &mut self,
        method: u32,
        locals: u32,
        operands: u16,
        args: u16,
    ) -> Result<(), StackError>
        requires given { args ≤ length (top_stack self.old.frames) }
        requires taken { args ≤ locals }
        ensures deep { (result ≡ Err StackError.Deep) ↔ (2048 ≤ length self.old.frames) }
        ensures ok { OnOk result
            (self.new.frames ≡ entered method locals operands args self.old.frames) }
        ensures err { OnErr result (self.new.frames ≡ self.old.frames) }
        ensures spare { OnErr result (self.new.spare ≡ self.old.spare) }
        ensures slots { length self.old.spare ≤ length self.new.spare + locals }
        ensures calls { self.old.calls ≤ self.new.calls + 1 }
        ensures enough { HasRoom self.old locals operands → length self.old.frames < 2048
            → IsOk result }
    {
        if self.frame_count() >= MOST_FRAMES {
            return Err(StackError::Deep);
        }
        self.reserve(locals, operands)?;
        self.enter(method, locals, operands, args);
        Ok(())
    }

    /// Drops the top frame, and pushes its top operands on the frame below: none, or the one or two of a value. This costs the same
    /// however many slots the frames have.
    #[inline(always)]
    pub fn return_top(&mut self, slots: u16)
        requires frame { 0 < length self.old.frames }
        requires few { slots ≤ 2 }
        requires given { slots ≤ length (top_stack self.old.frames) }
        requires room { slots ≤ room_left (drop 1 self.old.frames) }
        ensures frames { self.new.frames ≡ returned slots self.old.frames }
        ensures calls { self.new.calls ≡ self.old.calls + 1 }
    {
        match slots {
            0 => self.pop_frame(),
            1 => self.return_one(),
            _ => self.return_two(),
        }
    }

    #[inline(always)]
    fn return_one(&mut self)
        requires given { 0 < length (top_stack self.old.frames) }
        requires room { 0 < room_left (drop 1 self.old.frames) }
        ensures frames { self.new.frames ≡ returned 1 self.old.frames }
        ensures calls { self.new.calls ≡ self.old.calls + 1 }
    {
        let top = self.pop();
        self.pop_frame();
        self.push(top);
    }

    #[inline(always)]
    fn return_two(&mut self)
        requires given { 1 < length (top_stack self.old.frames) }
        requires room { 1 < room_left (drop 1 self.old.frames) }
        ensures frames { self.new.frames ≡ returned 2 self.old.frames }
        ensures calls { self.new.calls ≡ self.old.calls + 1 }
    {
        let top = self.pop();
        let second = self.pop();
        self.pop_frame();
        self.push(second);
        self.push(top);
    }

    /// Lends the slots of all frames, the lowest frame first, and the spare ones after them. What is written there is in the frames. A
    /// loop over the instructions of one frame uses it.
    #[inline(always)]
    pub fn slots(&mut self) -> &mut [StoredSlot]
        ensures* writes_back { sem 𝓛 (LendsSlots self.entry result) }
        ensures value { result.now ≡ all_slots self.old }
    {
        self.slots.as_mut_slice()
    }

    /// The index of the top frame's first local variable among those slots. Its operands lie after its local variables, with slots for as
    /// many as it may have.
    #[inline(always)]
    pub fn base(&self) -> usize
        ensures value { result ≡ size_of (drop 1 self.now.frames) }
        ensures room { result + length (top_locals self.now.frames) + top_room self.now.frames
            ≤ length (all_slots self.now) }
    {
        self.top.base
    }

    /// Sets the top frame's pc and how many operands it has: those that lie after its local variables.
    #[inline(always)]
    pub fn set_pc_and_operands(&mut self, pc: u32, operands: u16)
        requires { operands ≤ top_room self.old.frames }
        ensures { self.new ≡ with_pc_and_operands pc operands self.old }
    {
        self.top.pc = pc;
        self.top.used = operands;
    }
}
