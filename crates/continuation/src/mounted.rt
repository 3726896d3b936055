//! A continuation, mounted or frozen, and the calls that change its frames (JVMS 2.6, JEP 444).

ghost use Rattle.std.specs.Prelude.{◌≡◌, ◌↔◌, ◌+◌, ◌<◌, ◌≤◌, Err, IfErr, IfOk, IsOk, IsTrue, OnErr, OnOk, Some, [], drop, length, slice_get};
ghost use Rattle.std.specs.Borrow.{sem};
ghost use Rattle.frames.specs.Frames.{HasRoom, at_pc, called, cleared, dropped, entered, left, popped, pushed, returned, room_left, all_slots, with_pc_and_operands, size_of, top_locals, top_method, top_pc, top_room, top_stack, with_frames, with_local};

use frames::{FrameView, Stack, StackError};
use instruction_rows::Slot;
use items::NoMemory;
use slot_block::StoredSlot;
use std::alloc::Global;
use std::marker::Model;

/// The continuation of a thread that a carrier runs. It has the calls of a `Stack`.
#[derive(Drop)]
pub struct Mounted {
    thread: u32,
    stack: Stack,
}

impl Model for Mounted {
    ghost use Rattle.continuation.specs.Continuation.{Continuation};

    ghost Value = { Continuation };

    ghost view = { λ a. record { thread = a.thread; stack = a.stack } };
}

/// The continuation of a thread that no carrier runs.
#[derive(Drop)]
pub struct Frozen {
    mounted: Mounted,
}

impl Model for Frozen {
    ghost use Rattle.continuation.specs.Continuation.{Continuation};

    ghost Value = { Continuation };

    ghost view = { λ a. a.mounted };
}

impl Frozen {
    /// The continuation as a carrier runs it. Want of memory hands it back.
    pub fn mount(self) -> Result<Mounted, Frozen>
        ensures ok { IfOk result (λ mounted. mounted ≡ self) }
        ensures err { IfErr result (λ frozen. frozen ≡ self) }
    {
        let Frozen { mounted } = self;
        Ok(mounted)
    }

    /// The number of its thread.
    pub fn thread(&self) -> u32
        ensures { result ≡ self.now.thread }
    {
        self.mounted.thread()
    }
}

impl Mounted {
    ghost use Rattle.continuation.specs.Lending.{LendsSlots};

    /// The continuation of a thread without a frame. This takes no memory.
    pub fn new(alloc: Global, thread: u32) -> Self
        ensures thread { result.thread ≡ thread }
        ensures frames { result.stack.frames ≡ [] }
    {
        Mounted {
            thread,
            stack: Stack::new(alloc),
        }
    }

    /// The continuation as no carrier runs it. Want of memory hands it back.
    pub fn freeze(self) -> Result<Frozen, Mounted>
        ensures ok { IfOk result (λ frozen. frozen ≡ self) }
        ensures err { IfErr result (λ mounted. mounted ≡ self) }
    {
        Ok(Frozen { mounted: self })
    }

    /// Makes ready the frames below those that are at hand. All are, so nothing changes.
    pub fn refill(&mut self) -> Result<(), NoMemory>
        ensures { self.new ≡ self.old }
    {
        Ok(())
    }

    /// The number of its thread.
    #[inline(always)]
    pub fn thread(&self) -> u32
        ensures { result ≡ self.now.thread }
    {
        self.thread
    }

    /// How many frames it has, at most 2,048.
    #[inline(always)]
    pub fn depth(&self) -> u32
        ensures depth { result ≡ length self.now.stack.frames }
        ensures most { result ≤ 2048 }
    {
        self.stack.frame_count()
    }

    /// What the top frame is.
    #[inline(always)]
    pub fn top(&self) -> FrameView
        requires { 0 < length self.now.stack.frames }
        ensures method { result.method ≡ top_method self.now.stack.frames }
        ensures pc { result.pc ≡ top_pc self.now.stack.frames }
        ensures locals { result.locals ≡ length (top_locals self.now.stack.frames) }
        ensures operands { result.operands ≡ length (top_stack self.now.stack.frames) }
    {
        self.stack.top()
    }

    /// The number of the method of the frame with this many frames above it.
    pub fn method_at(&self, above: u32) -> u32
        requires { above < length self.now.stack.frames }
        ensures { result ≡ top_method (drop above self.now.stack.frames) }
    {
        self.stack.method_at(above)
    }

    /// The top frame's local variable with this index.
    #[inline(always)]
    pub fn local(&self, i: u16) -> Slot
        requires { i < length (top_locals self.now.stack.frames) }
        ensures { slice_get (top_locals self.now.stack.frames) i ≡ Some result }
    {
        self.stack.local(i)
    }

    /// The top frame's operand at this depth; that at depth 0 is the top.
    #[inline(always)]
    pub fn operand(&self, i: u16) -> Slot
        requires { i < length (top_stack self.now.stack.frames) }
        ensures { slice_get (top_stack self.now.stack.frames) i ≡ Some result }
    {
        self.stack.operand(i)
    }

    /// How many more operands the top frame may have.
    #[inline(always)]
    pub fn operand_room(&self) -> u16
        ensures { result ≡ room_left self.now.stack.frames }
    {
        self.stack.operand_room()
    }

    /// The top frame has no more operands than it may have. This does nothing.
    #[inline(always)]
    pub fn operands_fit(&self)
        ensures { length (top_stack self.now.stack.frames) ≤ top_room self.now.stack.frames }
    {
        self.stack.operands_fit();
    }

    /// Whether a frame of this size can be pushed without new memory.
    #[inline(always)]
    pub fn fits(&self, locals: u32, operands: u16) -> bool
        ensures { IsTrue result ↔ HasRoom self.now.stack locals operands }
    {
        self.stack.fits(locals, operands)
    }

    /// Sets the top frame's pc.
    #[inline(always)]
    pub fn set_pc(&mut self, pc: u32)
        ensures { self.new ≡ record self.old {
          stack = with_frames (at_pc pc self.old.stack.frames) self.old.stack;
        } }
    {
        self.stack.set_pc(pc);
    }

    /// Sets a local variable of the top frame.
    #[inline(always)]
    pub fn set_local(&mut self, i: u16, slot: Slot)
        requires { i < length (top_locals self.old.stack.frames) }
        ensures { self.new ≡ record self.old {
          stack = with_frames (with_local i slot self.old.stack.frames) self.old.stack;
        } }
    {
        self.stack.set_local(i, slot);
    }

    /// Pushes an operand on the top frame.
    #[inline(always)]
    pub fn push(&mut self, slot: Slot)
        requires { 0 < room_left self.old.stack.frames }
        ensures { self.new ≡ record self.old { stack = pushed slot self.old.stack } }
    {
        self.stack.push(slot);
    }

    /// Pops the top frame's top operand.
    #[inline(always)]
    pub fn pop(&mut self) -> Slot
        requires { 0 < length (top_stack self.old.stack.frames) }
        ensures value { slice_get (top_stack self.old.stack.frames) 0 ≡ Some result }
        ensures popped { self.new ≡ record self.old { stack = popped self.old.stack } }
    {
        self.stack.pop()
    }

    /// Drops the topmost `slots` operands of the top frame.
    #[inline(always)]
    pub fn drop_operands(&mut self, slots: u16)
        requires { slots ≤ length (top_stack self.old.stack.frames) }
        ensures { self.new ≡ record self.old { stack = dropped slots self.old.stack } }
    {
        self.stack.drop_operands(slots);
    }

    /// Drops the top frame's operands.
    pub fn clear(&mut self)
        ensures { self.new ≡ record self.old { stack = cleared self.old.stack } }
    {
        self.stack.clear();
    }

    /// Pushes the frame of a method: the top frame's last `args` operands are its first local variables, the others are unset, and its pc
    /// is 0. `Deep` comes exactly where there are 2,048 frames. After an error there is no less room than before.
    pub fn push_frame(
        &mut self,
        method: u32,
        locals: u32,
        operands: u16,
        args: u16,
    ) -> Result<(), StackError>
        requires given { args ≤ length (top_stack self.old.stack.frames) }
        requires taken { args ≤ locals }
        ensures thread { self.new.thread ≡ self.old.thread }
        ensures deep { (result ≡ Err StackError.Deep) ↔ (2048 ≤ length self.old.stack.frames) }
        ensures ok { OnOk result (self.new.stack.frames
            ≡ entered method locals operands args self.old.stack.frames) }
        ensures err { OnErr result (self.new.stack.frames ≡ self.old.stack.frames) }
        ensures spare { OnErr result (self.new.stack.spare ≡ self.old.stack.spare) }
    {
        self.stack.push_frame(method, locals, operands, args)
    }

    /// Pushes the frame of a method, where there is room for it.
    #[inline(always)]
    pub fn enter(&mut self, method: u32, locals: u32, operands: u16, args: u16)
        requires room { HasRoom self.old.stack locals operands }
        requires few { length self.old.stack.frames < 2048 }
        requires given { args ≤ length (top_stack self.old.stack.frames) }
        requires taken { args ≤ locals }
        ensures { self.new ≡ record self.old {
          stack = called method locals operands args self.old.stack;
        } }
    {
        self.stack.enter(method, locals, operands, args);
    }

    /// Drops the top frame.
    #[inline(always)]
    pub fn pop_frame(&mut self)
        requires { 0 < length self.old.stack.frames }
        ensures { self.new ≡ record self.old { stack = left self.old.stack } }
    {
        self.stack.pop_frame();
    }

    /// Drops the top frame, and pushes its top operands on the frame below: none, or the one or two of a value.
    #[inline(always)]
    pub fn return_top(&mut self, slots: u16)
        requires frame { 0 < length self.old.stack.frames }
        requires few { slots ≤ 2 }
        requires given { slots ≤ length (top_stack self.old.stack.frames) }
        requires room { slots ≤ room_left (drop 1 self.old.stack.frames) }
        ensures thread { self.new.thread ≡ self.old.thread }
        ensures frames { self.new.stack.frames ≡ returned slots self.old.stack.frames }
    {
        self.stack.return_top(slots);
    }

    /// Lends the slots of all frames, the lowest frame first, and the spare ones after them.
    #[inline(always)]
    pub fn slots(&mut self) -> &mut [StoredSlot]
        ensures* writes_back { sem 𝓛 (LendsSlots self.entry result) }
        ensures value { result.now ≡ all_slots self.old.stack }
    {
        self.stack.slots()
    }

    /// The index of the top frame's first local variable among those slots.
    #[inline(always)]
    pub fn base(&self) -> usize
        ensures value { result ≡ size_of (drop 1 self.now.stack.frames) }
        ensures room { result + length (top_locals self.now.stack.frames)
            + top_room self.now.stack.frames ≤ length (all_slots self.now.stack) }
    {
        self.stack.base()
    }

    /// Sets the top frame's pc and how many operands it has: those that lie after its local variables.
    #[inline(always)]
    pub fn set_pc_and_operands(&mut self, pc: u32, operands: u16)
        requires { operands ≤ top_room self.old.stack.frames }
        ensures { self.new ≡ record self.old {
          stack = with_pc_and_operands pc operands self.old.stack;
        } }
    {
        self.stack.set_pc_and_operands(pc, operands);
    }
}
