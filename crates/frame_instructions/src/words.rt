//! Arithmetic that jvm_words leaves out: negation and i2l.

ghost use Rattle.std.specs.Prelude.{◌≡◌, ◌-ℤ◌, ◌+ℤ◌, pos};
ghost use Rattle.std.specs.Int.{w32, w64, int_wrap};

// An int subtracted from 0.
#[inline(always)]
pub(crate) fn negated_int(a: i32) -> i32
    ensures { result ≡ int_wrap w32 (pos 0 -ℤ a) }
{
    0i32.wrapping_sub(a)
}

// A long subtracted from 0.
#[inline(always)]
pub(crate) fn negated_long(a: i64) -> i64
    ensures { result ≡ int_wrap w64 (pos 0 -ℤ a) }
{
    0i64.wrapping_sub(a)
}

// The low 32 bits of a long, with their sign.
#[inline(always)]
pub(crate) fn low_half(a: i64) -> i32
    ensures { result ≡ int_wrap w32 a }
{
    let low = (a.cast_unsigned() % 0x1_0000_0000) as u32;
    low.cast_signed()
}

// An int with an amount added.
#[inline(always)]
pub(crate) fn increased(a: i32, amount: i16) -> i32
    ensures { result ≡ int_wrap w32 (a +ℤ amount) }
{
    a.wrapping_add(i32::from(amount))
}
