//! Arithmetic on ints and longs (JVMS 6.5).

ghost use Rattle.std.specs.Prelude.{◌≡◌};
ghost use Rattle.jvm_words.specs.Words.{int_result, long_result, long_shift_result, long_order, narrow_result};

use crate::{IntOp, LongOp, Narrow, ShiftOp};

/// The result of an operation on two ints (JVMS 6.5: iadd to irem, ishl to iushr, iand, ior, ixor). `None` is a
/// division by 0.
pub fn i_binary(op: IntOp, a: i32, b: i32) -> Option<i32>
    ensures { result ≡ int_result op a b }
{
    match op {
        IntOp::Add => Some(a.wrapping_add(b)),
        IntOp::Sub => Some(a.wrapping_sub(b)),
        IntOp::Mul => Some(a.wrapping_mul(b)),
        IntOp::Div => {
            if b == 0 {
                None
            } else {
                Some(a.wrapping_div(b))
            }
        }
        IntOp::Rem => {
            if b == 0 {
                None
            } else {
                Some(a.wrapping_rem(b))
            }
        }
        IntOp::Shl => Some(a.wrapping_shl(b.cast_unsigned())),
        IntOp::Shr => Some(a.wrapping_shr(b.cast_unsigned())),
        IntOp::Ushr => Some(
            a.cast_unsigned()
                .wrapping_shr(b.cast_unsigned())
                .cast_signed(),
        ),
        IntOp::And => Some(a & b),
        IntOp::Or => Some(a | b),
        IntOp::Xor => Some(a ^ b),
    }
}

/// The result of an operation on two longs (JVMS 6.5: ladd to lrem, land, lor, lxor). `None` is a division by 0.
pub fn l_binary(op: LongOp, a: i64, b: i64) -> Option<i64>
    ensures { result ≡ long_result op a b }
{
    match op {
        LongOp::Add => Some(a.wrapping_add(b)),
        LongOp::Sub => Some(a.wrapping_sub(b)),
        LongOp::Mul => Some(a.wrapping_mul(b)),
        LongOp::Div => {
            if b == 0 {
                None
            } else {
                Some(a.wrapping_div(b))
            }
        }
        LongOp::Rem => {
            if b == 0 {
                None
            } else {
                Some(a.wrapping_rem(b))
            }
        }
        LongOp::And => Some(a & b),
        LongOp::Or => Some(a | b),
        LongOp::Xor => Some(a ^ b),
    }
}

/// The result of a shift of a long (JVMS 6.5: lshl, lshr, lushr). The low six bits of `count` are how far it goes.
pub fn l_shift(op: ShiftOp, a: i64, count: i32) -> i64
    ensures { result ≡ long_shift_result op a count }
{
    let count = count.cast_unsigned();
    match op {
        ShiftOp::Shl => a.wrapping_shl(count),
        ShiftOp::Shr => a.wrapping_shr(count),
        ShiftOp::Ushr => a.cast_unsigned().wrapping_shr(count).cast_signed(),
    }
}

/// How two longs are ordered (JVMS 6.5: lcmp): -1, 0 or 1.
pub fn l_compare(a: i64, b: i64) -> i32
    ensures { result ≡ long_order a b }
{
    if a < b {
        -1
    } else if b < a {
        1
    } else {
        0
    }
}

/// An int narrowed to the type, as a field, an array element or a result of that type holds it (JVMS 2.11.1, 6.5: i2b, i2c,
/// i2s, putfield, bastore, castore, sastore, ireturn).
pub fn narrow(to: Narrow, a: i32) -> i32
    ensures { result ≡ narrow_result to a }
{
    match to {
        Narrow::Bool => a & 1,
        Narrow::Byte => i32::from(((a & 0xff) as u8).cast_signed()),
        Narrow::Char => a & 0xffff,
        Narrow::Short => i32::from(((a & 0xffff) as u16).cast_signed()),
    }
}
