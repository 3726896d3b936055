//! Where a frame lies in the slots of its stack.

ghost use Rattle.std.specs.Prelude.{◌≡◌, ◌+◌, ◌<◌, ◌^◌};

/// What is known of a frame beside its slots: where they lie, and how many operands there are and may be.
#[derive(Clone, Copy)]
pub(crate) struct Record {
    pub(crate) base: usize,
    pub(crate) method: u32,
    pub(crate) pc: u32,
    pub(crate) locals: u32,
    pub(crate) used: u16,
    pub(crate) room: u16,
}

impl Record {
    // The record of no frame, at the first slot.
    pub(crate) fn none() -> Self
        ensures { result ≡ record { base = 0; method = 0; pc = 0; locals = 0; used = 0; room = 0 } }
    {
        Record {
            base: 0,
            method: 0,
            pc: 0,
            locals: 0,
            used: 0,
            room: 0,
        }
    }

    // The index after the frame's operands.
    #[inline(always)]
    pub(crate) fn end(&self) -> usize
        requires { self.now.base + self.now.locals + self.now.used < 2 ^ 64 }
        ensures { result ≡ self.now.base + self.now.locals + self.now.used }
    {
        self.base + self.locals as usize + self.used as usize
    }
}
