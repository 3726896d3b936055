//! Numbers and runs of bytes (JVMS 4), with how many bytes they take.

ghost use Rattle.std.specs.Prelude.{◌≡◌, ◌≤◌, ◌+◌, length, IfOk};
ghost use Rattle.std.specs.Io.{StartsWith};
ghost use Rattle.byte_reader.specs.Reader.{Reads, ReadsBytes};
ghost use Rattle.class_file.specs.Numbers.{u1_at, u2_at, u4_at, u8_at, pair_at, run_at, sized_bytes_at};

use byte_reader::Stop;
use class_grammar::ClassWhy;

/// A number in one byte.
pub fn u1_of(bytes: &[u8]) -> Result<(u8, &[u8]), Stop<ClassWhy>>
    ensures read { Reads result (u1_at bytes.now) }
    ensures size { IfOk result (λ x. length x.1.now + 1 ≡ length bytes.now) }
{
    byte_reader::u1_of(bytes)
}

/// A number in two bytes.
pub fn u2_of(bytes: &[u8]) -> Result<(u16, &[u8]), Stop<ClassWhy>>
    ensures read { Reads result (u2_at bytes.now) }
    ensures size { IfOk result (λ x. length x.1.now + 2 ≡ length bytes.now) }
{
    byte_reader::u2_of(bytes)
}

/// A number in four bytes.
pub fn u4_of(bytes: &[u8]) -> Result<(u32, &[u8]), Stop<ClassWhy>>
    ensures read { Reads result (u4_at bytes.now) }
    ensures size { IfOk result (λ x. length x.1.now + 4 ≡ length bytes.now) }
{
    byte_reader::u4_of(bytes)
}

/// A number in eight bytes.
pub fn u8_of(bytes: &[u8]) -> Result<(u64, &[u8]), Stop<ClassWhy>>
    ensures read { Reads result (u8_at bytes.now) }
    ensures size { IfOk result (λ x. length x.1.now + 8 ≡ length bytes.now) }
{
    byte_reader::u8_of(bytes)
}

/// Two numbers of two bytes each.
pub fn pair_of(bytes: &[u8]) -> Result<((u16, u16), &[u8]), Stop<ClassWhy>>
    ensures read { Reads result (pair_at bytes.now) }
    ensures size { IfOk result (λ x. length x.1.now + 4 ≡ length bytes.now) }
{
    let (first, rest) = u2_of(bytes)?;
    let (second, rest) = u2_of(rest)?;
    Ok(((first, second), rest))
}

/// That many bytes.
pub fn bytes_of(count: usize, bytes: &[u8]) -> Result<(&[u8], &[u8]), Stop<ClassWhy>>
    ensures read { ReadsBytes result (run_at count bytes.now) }
    ensures size { IfOk result (λ x. length x.0.now + length x.1.now ≡ length bytes.now) }
    ensures front { IfOk result (λ x. StartsWith bytes.now x.0.now) }
{
    byte_reader::bytes_of(count, bytes)
}

/// A length in four bytes, and that many bytes.
pub fn sized_bytes_of(bytes: &[u8]) -> Result<(&[u8], &[u8]), Stop<ClassWhy>>
    ensures read { ReadsBytes result (sized_bytes_at bytes.now) }
    ensures size { IfOk result (λ x. length x.0.now + length x.1.now + 4 ≡ length bytes.now) }
{
    let (count, rest) = u4_of(bytes)?;
    bytes_of(count as usize, rest)
}
