//! Texts of UTF-16 units: their hash, and those of values.

ghost use Rattle.std.specs.Prelude.{◌≡◌, IfOk};
ghost use Rattle.ref_model.specs.Texts as spec;

use items::NoMemory;
use itoa::Buffer;
use std::alloc::Global;

// The hash of one unit more. The sum is that of 64 bits, of which the low 32 count.
#[tactic(auto, using(std::proofs::lemmas::Int::wraps))]
fn hashed(hash: i32, unit: u16) -> i32
    ensures { result ≡ spec.hashed hash unit }
{
    31i32.wrapping_mul(hash).wrapping_add(i32::from(unit))
}

/// String.hashCode: the sum of the units times powers of 31, the last by 1.
pub fn text_hash(units: &[u16]) -> i32
    ensures { result ≡ spec.text_hash units.now }
{
    let mut hash = 0;
    for unit in units {
        hash = hashed(hash, *unit);
    }
    hash
}

// Bytes as units of the same numbers.
fn units_of(alloc: Global, bytes: &[u8]) -> Result<Vec<u16>, NoMemory>
    ensures { IfOk result (λ units. units.items ≡ bytes.now) }
{
    Ok(bytes.iter().map(|byte| u16::from(*byte)).collect(alloc)?)
}

/// An int in decimal.
pub fn int_text(alloc: Global, n: i32) -> Result<Vec<u16>, NoMemory>
    ensures { IfOk result (λ units. units.items ≡ spec.decimal_text n) }
{
    let mut buffer = Buffer::new();
    units_of(alloc, buffer.format(n).as_bytes())
}

/// A long in decimal.
pub fn long_text(alloc: Global, n: i64) -> Result<Vec<u16>, NoMemory>
    ensures { IfOk result (λ units. units.items ≡ spec.decimal_text n) }
{
    let mut buffer = Buffer::new();
    units_of(alloc, buffer.format(n).as_bytes())
}

/// An int as an unsigned number in hexadecimal (Integer.toHexString).
pub fn hex_text(alloc: Global, n: i32) -> Result<Vec<u16>, NoMemory>
    ensures { IfOk result (λ units. units.items ≡ spec.hex_text n) }
{
    let number = n.cast_unsigned();
    let digits = format!(in alloc; "{number:x}")?;
    units_of(alloc, digits.as_bytes())
}

/// A char, of which the low 16 bits count.
pub(crate) fn char_text(n: i32) -> [u16; 1]
    ensures { result ≡ spec.char_text n }
{
    [(n & 0xffff) as u16]
}

const TRUE: [u16; 4] = [116, 114, 117, 101];

const FALSE: [u16; 5] = [102, 97, 108, 115, 101];

const NULL: [u16; 4] = [110, 117, 108, 108];

/// The text of a boolean: 0 is false, and every other int true.
pub(crate) fn boolean_text(n: i32) -> &'static [u16]
    ensures { result.now ≡ spec.boolean_text n }
{
    if n == 0 { &FALSE } else { &TRUE }
}

/// The text that stands for null.
pub(crate) fn null_text() -> &'static [u16]
    ensures { result.now ≡ spec.null_text }
{
    &NULL
}
