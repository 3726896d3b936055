//! Numbers at the front of bytes, the highest byte first.

ghost use Rattle.std.specs.Prelude.{◌≡◌};
ghost use Rattle.asm_listing.specs.Numbers as spec;
ghost use Rattle.asm_listing.specs.Numbers.{Reads, GivesBy};

use asm_text::LineError;
use byteorder::{BigEndian, ByteOrder};

pub fn u1_at(bytes: &[u8]) -> Result<(u8, &[u8]), LineError>
    ensures { Reads result (spec.u1_at bytes.now) }
{
    match bytes {
        [first, rest @ ..] => Ok((*first, rest)),
        [] => Err(LineError::Bad),
    }
}

pub fn u2_at(bytes: &[u8]) -> Result<(u16, &[u8]), LineError>
    ensures { Reads result (spec.u2_at bytes.now) }
{
    if bytes.len() < 2 {
        return Err(LineError::Bad);
    }
    Ok((BigEndian::read_u16(bytes), &bytes[2..]))
}

fn u4_at(bytes: &[u8]) -> Result<(u32, &[u8]), LineError>
    ensures { Reads result (spec.u4_at bytes.now) }
{
    if bytes.len() < 4 {
        return Err(LineError::Bad);
    }
    Ok((BigEndian::read_u32(bytes), &bytes[4..]))
}

pub fn s1_at(bytes: &[u8]) -> Result<(i8, &[u8]), LineError>
    ensures { Reads result (spec.s1_at bytes.now) }
{
    let (number, rest) = u1_at(bytes)?;
    Ok((number.cast_signed(), rest))
}

pub fn s2_at(bytes: &[u8]) -> Result<(i16, &[u8]), LineError>
    ensures { Reads result (spec.s2_at bytes.now) }
{
    let (number, rest) = u2_at(bytes)?;
    Ok((number.cast_signed(), rest))
}

pub fn s4_at(bytes: &[u8]) -> Result<(i32, &[u8]), LineError>
    ensures { Reads result (spec.s4_at bytes.now) }
{
    let (number, rest) = u4_at(bytes)?;
    Ok((number.cast_signed(), rest))
}

/// The bytes behind so many.
pub fn skip(count: usize, bytes: &[u8]) -> Result<&[u8], LineError>
    ensures { GivesBy (λ rest. rest.now) result (spec.skip count bytes.now) }
{
    if bytes.len() < count {
        return Err(LineError::Bad);
    }
    Ok(&bytes[count..])
}
