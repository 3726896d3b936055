//! Divisions by 0 (JVMS 6.5: idiv, irem, ldiv, lrem). All others are local.

ghost use Rattle.std.specs.Prelude.{◌∷◌, []};
ghost use Rattle.opcodes.specs.declared.op.ValueKind.TheVariants as kinds;
ghost use Rattle.ref_model.specs.Operands.{HasOperands};
ghost use Rattle.heap_instructions.specs.Dispatch.{DividesInts, DividesLongs, IsDivided};
ghost use Rattle.heap_instructions.specs.Operands.{operands};

use crate::operands::{int_operand, long_operand};
use crate::outcome::Outcome;
use continuation::Mounted;
use jvm_words::{IntOp, LongOp};
use ref_model::Exception;

#[inline(always)]
fn divide_by_int(divisor: i32) -> Outcome
    ensures { IsDivided divisor result }
{
    if divisor == 0 {
        Outcome::Throws(Exception::ArithmeticException)
    } else {
        Outcome::Undefined
    }
}

#[inline(always)]
fn divide_by_long(divisor: i64) -> Outcome
    ensures { IsDivided divisor result }
{
    if divisor == 0 {
        Outcome::Throws(Exception::ArithmeticException)
    } else {
        Outcome::Undefined
    }
}

/// idiv and irem, where the divisor is 0. Every other operation on ints is undefined.
#[inline(always)]
pub fn divide_ints(op: IntOp, mounted: &Mounted) -> Outcome
    requires { HasOperands (kinds.Int ∷ kinds.Int ∷ []) 0 (operands mounted.now) }
    ensures { DividesInts op mounted.now result }
{
    match op {
        IntOp::Div => divide_by_int(int_operand(mounted, 0)),
        IntOp::Rem => divide_by_int(int_operand(mounted, 0)),
        _ => Outcome::Undefined,
    }
}

/// ldiv and lrem, where the divisor is 0. Every other operation on longs is undefined.
#[inline(always)]
pub fn divide_longs(op: LongOp, mounted: &Mounted) -> Outcome
    requires { HasOperands (kinds.Long ∷ kinds.Long ∷ []) 0 (operands mounted.now) }
    ensures { DividesLongs op mounted.now result }
{
    match op {
        LongOp::Div => divide_by_long(long_operand(mounted, 0)),
        LongOp::Rem => divide_by_long(long_operand(mounted, 0)),
        _ => Outcome::Undefined,
    }
}
