//! Methods with code that begin (JVMS 2.6.1).

ghost use Rattle.std.specs.Prelude.{◌≡◌, ◌↔◌, ◌<◌, ◌≤◌, Err, IfOk, OnErr, OnOk, length};
ghost use Rattle.frames.specs.Frames.{entered, top_stack};
ghost use Rattle.frames.specs.declared.error.StackError.TheVariants as errors;
ghost use Rattle.invocation.specs.FrameSteps.{IsEntered};
ghost use Rattle.heap_instructions.specs.Operands.{operands};

use crate::target::Callee;
use continuation::Mounted;
use frames::{MOST_FRAMES, StackError};
use items::NoMemory;
use ref_model::Exception;

/// What became of a call of a method with code.
#[derive(Clone, Copy, Debug, PartialEq, Eq)]
pub enum Entered {
    /// Its frame is the top one.
    Begun,
    /// It throws a new exception, and the frames are as before: there are 2,048.
    Throws(Exception),
    /// The definitions have no effect here, and the frames are as before: its local variables are fewer than the slots that it takes.
    Undefined,
}

/// Pushes the frame of a method. Where that wants no memory it takes constant time but for the local variables.
#[inline(always)]
pub(crate) fn push_callee(
    mounted: &mut Mounted,
    n: u32,
    locals: u32,
    operands: u16,
    slots: u16,
) -> Result<(), StackError>
    requires given { slots ≤ length (top_stack mounted.old.stack.frames) }
    requires taken { slots ≤ locals }
    ensures thread { mounted.new.thread ≡ mounted.old.thread }
    ensures deep { (result ≡ Err errors.Deep) ↔ (2048 ≤ length mounted.old.stack.frames) }
    ensures ok { OnOk result (mounted.new.stack.frames
        ≡ entered n locals operands slots mounted.old.stack.frames) }
    ensures err { OnErr result (mounted.new.stack.frames ≡ mounted.old.stack.frames) }
{
    if mounted.depth() < MOST_FRAMES && mounted.fits(locals, operands) {
        mounted.enter(n, locals, operands, slots);
        return Ok(());
    }
    mounted.push_frame(n, locals, operands, slots)
}

/// Begins a method. The slots that it takes lie on the operand stack.
#[inline(always)]
pub fn enter(callee: Callee, mounted: &mut Mounted) -> Result<Entered, NoMemory>
    requires frame { 0 < length mounted.old.stack.frames }
    requires given { callee.slots ≤ length (operands mounted.old) }
    ensures entered { IfOk result (IsEntered callee mounted.old mounted.new) }
    ensures thread { mounted.new.thread ≡ mounted.old.thread }
{
    let Callee {
        method,
        slots,
        locals,
        operands,
    } = callee;
    if slots > locals {
        if mounted.depth() < MOST_FRAMES {
            return Ok(Entered::Undefined);
        }
        return Ok(Entered::Throws(Exception::StackOverflowError));
    }
    match push_callee(mounted, method, u32::from(locals), operands, slots) {
        Ok(()) => Ok(Entered::Begun),
        Err(StackError::Deep) => Ok(Entered::Throws(Exception::StackOverflowError)),
        Err(StackError::NoMemory) => Err(NoMemory),
    }
}
