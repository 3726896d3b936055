//! The lines of the body of a method, before its end.

ghost use Rattle.std.specs.Prelude.{◌≡◌, Some};
ghost use Rattle.asm_pool.specs.Places.{IsPool};
ghost use Rattle.asm_class.specs.States.{Steps, state_of};
ghost use Rattle.asm_class.specs.BodyLines as spec;

use crate::assembly::{Assembly, BodyParts, Stage};
use crate::class_lines::has_room;
use crate::names::{are_sound_types, is_sound};
use crate::pooled::{caught_at, text_at};
use asm_body::{PlacedFrame, PlacedRow, types_of};
use asm_code::Labels;
use asm_text::{FrameType, LineError, Name, Operands};
use std::alloc::Global;

impl Assembly {
    /// The sizes of the method's frame.
    pub fn stack_line(&mut self, alloc: Global, stack: u16, locals: u16)
        requires { IsPool self.old.pool }
        ensures state { state_of self.new ≡ spec.stack_line stack locals (state_of self.old) }
        ensures pool { self.new.pool ≡ self.old.pool }
    {
        self.body = BodyParts::new(alloc, stack, locals);
        self.labels = Labels::new(alloc);
        self.stage = Stage::Code;
    }

    /// A label, which has no place yet.
    pub fn label_line(&mut self, alloc: Global, label: &[u8]) -> Result<(), LineError>
        requires { IsPool self.old.pool }
        ensures { Steps result self.new (spec.label_line label.now (state_of self.old)) }
    {
        if self.labels.place(label).is_some() {
            return Err(LineError::Bad);
        }
        self.labels.add(alloc, label, self.body.instructions.size)?;
        Ok(())
    }

    /// The frame of the instruction behind it.
    pub fn frame_line(
        &mut self,
        alloc: Global,
        line: u32,
        locals: &[FrameType],
        stack: &[FrameType],
    ) -> Result<(), LineError>
        requires { IsPool self.old.pool }
        ensures { Steps result self.new
            (spec.frame_line line locals.now stack.now (state_of self.old)) }
    {
        if self.body.frame_waits {
            return Err(LineError::Bad);
        }
        if !are_sound_types(alloc, locals)? || !are_sound_types(alloc, stack)? {
            return Err(LineError::Bad);
        }
        self.add_frame(alloc, line, locals, stack)
    }

    fn add_frame(
        &mut self,
        alloc: Global,
        line: u32,
        locals: &[FrameType],
        stack: &[FrameType],
    ) -> Result<(), LineError>
        requires { IsPool self.old.pool }
        ensures { Steps result self.new
            (spec.frame_by line locals.now stack.now (state_of self.old)) }
    {
        let map_name = text_at(&mut self.pool, b"StackMapTable")?;
        let locals = types_of(alloc, &mut self.pool, locals)?;
        let stack = types_of(alloc, &mut self.pool, stack)?;
        self.body.frames.push(PlacedFrame {
            line,
            pc: self.body.instructions.size,
            locals,
            stack,
        })?;
        self.body.map_name = map_name;
        self.body.frame_waits = true;
        Ok(())
    }

    /// An instruction.
    pub fn instruction_line(
        &mut self,
        alloc: Global,
        line: u32,
        opcode: u8,
        operands: Operands,
    ) -> Result<(), LineError>
        requires { IsPool self.old.pool }
        ensures { Steps result self.new
            (spec.instruction_line line opcode operands (state_of self.old)) }
    {
        if !is_sound(alloc, opcode, &operands)? {
            return Err(LineError::Bad);
        }
        self.body
            .instructions
            .add(alloc, &mut self.pool, line, opcode, operands)?;
        self.body.frame_waits = false;
        Ok(())
    }

    /// A row of the exception table.
    pub fn catch_line(
        &mut self,
        alloc: Global,
        line: u32,
        caught: &Option<Name>,
        from: Name,
        to: Name,
        handler: Name,
    ) -> Result<(), LineError>
        requires { IsPool self.old.pool }
        ensures { Steps result self.new
            (spec.catch_line line caught.now from to handler (state_of self.old)) }
    {
        if self.body.frame_waits || !has_room(&self.body.rows) {
            return Err(LineError::Bad);
        }
        let catch_type = caught_at(alloc, &mut self.pool, caught)?;
        self.body.rows.push(PlacedRow {
            line,
            from,
            to,
            handler,
            catch_type,
        })?;
        self.stage = Stage::Rows;
        Ok(())
    }
}
