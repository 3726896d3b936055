//! Numbers and runs of bytes at the front of the bytes (JVMS 4).

ghost use Rattle.byte_reader.specs.Reader.{Reads, ReadsBytes, number_at, signed_at, bytes_at, both};
ghost use Rattle.std.specs.Int.{w8, w16, w32};

use crate::fault::{Reason, Stop};
use byteorder::{BigEndian, ByteOrder};

/// A number in one byte.
pub fn u1_of<W: Reason>(bytes: &[u8]) -> Result<(u8, &[u8]), Stop<W>>
    ensures { Reads result (number_at W.short 1 bytes.now) }
{
    if bytes.is_empty() {
        return Err(Stop::at(bytes, W::short()));
    }
    Ok((bytes[0], &bytes[1..]))
}

/// A number in two bytes.
pub fn u2_of<W: Reason>(bytes: &[u8]) -> Result<(u16, &[u8]), Stop<W>>
    ensures { Reads result (number_at W.short 2 bytes.now) }
{
    if bytes.len() < 2 {
        return Err(Stop::at(bytes, W::short()));
    }
    Ok((BigEndian::read_u16(bytes), &bytes[2..]))
}

/// A number in four bytes.
pub fn u4_of<W: Reason>(bytes: &[u8]) -> Result<(u32, &[u8]), Stop<W>>
    ensures { Reads result (number_at W.short 4 bytes.now) }
{
    if bytes.len() < 4 {
        return Err(Stop::at(bytes, W::short()));
    }
    Ok((BigEndian::read_u32(bytes), &bytes[4..]))
}

/// A number in eight bytes.
pub fn u8_of<W: Reason>(bytes: &[u8]) -> Result<(u64, &[u8]), Stop<W>>
    ensures { Reads result (number_at W.short 8 bytes.now) }
{
    if bytes.len() < 8 {
        return Err(Stop::at(bytes, W::short()));
    }
    Ok((BigEndian::read_u64(bytes), &bytes[8..]))
}

/// A number with a sign in one byte.
pub fn i1_of<W: Reason>(bytes: &[u8]) -> Result<(i8, &[u8]), Stop<W>>
    ensures { Reads result (signed_at W.short w8 bytes.now) }
{
    let (number, rest) = u1_of(bytes)?;
    Ok((number.cast_signed(), rest))
}

/// A number with a sign in two bytes.
pub fn i2_of<W: Reason>(bytes: &[u8]) -> Result<(i16, &[u8]), Stop<W>>
    ensures { Reads result (signed_at W.short w16 bytes.now) }
{
    let (number, rest) = u2_of(bytes)?;
    Ok((number.cast_signed(), rest))
}

/// A number with a sign in four bytes.
pub fn i4_of<W: Reason>(bytes: &[u8]) -> Result<(i32, &[u8]), Stop<W>>
    ensures { Reads result (signed_at W.short w32 bytes.now) }
{
    let (number, rest) = u4_of(bytes)?;
    Ok((number.cast_signed(), rest))
}

/// Two numbers of two bytes each.
pub fn pair_of<W: Reason>(bytes: &[u8]) -> Result<((u16, u16), &[u8]), Stop<W>>
    ensures { Reads result (both (number_at W.short 2) (number_at W.short 2) bytes.now) }
{
    let (first, rest) = u2_of(bytes)?;
    let (second, rest) = u2_of(rest)?;
    Ok(((first, second), rest))
}

/// That many bytes.
pub fn bytes_of<W: Reason>(count: usize, bytes: &[u8]) -> Result<(&[u8], &[u8]), Stop<W>>
    ensures { ReadsBytes result (bytes_at W.short count bytes.now) }
{
    if bytes.len() < count {
        return Err(Stop::at(bytes, W::short()));
    }
    Ok(bytes.split_at(count))
}
