//! From modified UTF-8 to the units of a text (JVMS 4.4.7).

ghost use Rattle.std.specs.Prelude.{◌≡◌, ◌<◌, ◌^◌, ◌+◌, ◌++◌, List, ℕ, length, IfOk, OnOk, Ok, Err, IsTrue, true};
ghost use Rattle.std.specs.Int.{is_in_range};
ghost use Rattle.std.specs.List.{list_all};
ghost use Rattle.std.specs.Option.{option_map};
ghost use Rattle.items.specs.Memory.{OkUnless};
ghost use Rattle.jvm_utf8.specs.declared.error.Utf8Error.TheVariants as errors;
ghost use Rattle.jvm_utf8.specs.Text.{AreUnits, text};
ghost use Rattle.jvm_utf8.specs.Units as spec;
ghost use Rattle.jvm_utf8.specs.Refusal.{IsFirstBad};

use crate::error::Utf8Error;
use std::alloc::{AllocError, Global};
use std::marker::Brand;
use std::sync::ledger::{Blank, Ledger};
use steps::Steps;

/// The units that the bytes spell (JVMS 4.4.7). A unit has one form, the shortest: no byte is 0
/// or from `f0` on, and a surrogate is a unit of three bytes by itself.
pub fn decode(alloc: Global, bytes: &[u8]) -> Result<Vec<u16>, Utf8Error>
    requires { length bytes.now < 2 ^ 32 }
    // The bytes are the text of the units that it returns.
    ensures found { IfOk result (λ v. AreUnits v.items × (bytes.now ≡ text v.items)) }
    // The text of some units is decoded to these.
    ensures only { (units : List ℕ) → AreUnits units → bytes.now ≡ text units
        → OkUnless result errors.NoMemory (λ v. v.items ≡ units) }
    // A refusal names the first byte at which no unit begins.
    ensures bad { (at : ℕ) → result ≡ Err (errors.Bad at) → IsFirstBad bytes.now at }
    // Both answers are those of one reading from left to right.
    ensures value { IfOk result (λ v. spec.units_of bytes.now ≡ Ok v.items) }
    ensures offset { (at : ℕ) → result ≡ Err (errors.Bad at) → spec.units_of bytes.now ≡ Err at }
{
    decode_on::<Brand>(alloc, bytes, Blank::new(1))
}

// `decode`, on a ledger that nobody reads.
fn decode_on<L: Ledger>(alloc: Global, bytes: &[u8], blank: Blank) -> Result<Vec<u16>, Utf8Error>
    requires name { blank.name ≡ L.name }
    requires parts { blank.parts ≡ L.parts }
    requires some { 0 < L.parts }
    requires size { length bytes.now < 2 ^ 32 }
    ensures found { IfOk result (λ v. AreUnits v.items × (bytes.now ≡ text v.items)) }
    ensures only { (units : List ℕ) → AreUnits units → bytes.now ≡ text units
        → OkUnless result errors.NoMemory (λ v. v.items ≡ units) }
    ensures bad { (at : ℕ) → result ≡ Err (errors.Bad at) → IsFirstBad bytes.now at }
    ensures value { IfOk result (λ v. spec.units_of bytes.now ≡ Ok v.items) }
    ensures offset { (at : ℕ) → result ≡ Err (errors.Bad at) → spec.units_of bytes.now ≡ Err at }
{
    let mut steps = Steps::<L>::new(blank);
    decode_counted(alloc, bytes, &mut steps)
}

/// `decode`, with its steps counted.
pub fn decode_counted<L: Ledger>(
    alloc: Global,
    bytes: &[u8],
    steps: &mut Steps<L>,
) -> Result<Vec<u16>, Utf8Error>
    requires { length bytes.now < 2 ^ 32 }
    ensures found { IfOk result (λ v. AreUnits v.items × (bytes.now ≡ text v.items)) }
    ensures only { (units : List ℕ) → AreUnits units → bytes.now ≡ text units
        → OkUnless result errors.NoMemory (λ v. v.items ≡ units) }
    ensures bad { (at : ℕ) → result ≡ Err (errors.Bad at) → IsFirstBad bytes.now at }
    ensures value { IfOk result (λ v. spec.units_of bytes.now ≡ Ok v.items) }
    ensures offset { (at : ℕ) → result ≡ Err (errors.Bad at) → spec.units_of bytes.now ≡ Err at }
    // Each byte takes one step, whatever the answer is.
    ensures cost { steps.new ≡ steps.old + length bytes.now }
{
    units_of(alloc, bytes, steps)
}

// The clauses of `decode` on texts follow from these.
fn units_of<L: Ledger>(
    alloc: Global,
    bytes: &[u8],
    steps: &mut Steps<L>,
) -> Result<Vec<u16>, Utf8Error>
    requires { length bytes.now < 2 ^ 32 }
    ensures value { IfOk result (λ v. spec.units_of bytes.now ≡ Ok v.items) }
    ensures offset { (at : ℕ) → result ≡ Err (errors.Bad at) → spec.units_of bytes.now ≡ Err at }
    ensures cost { steps.new ≡ steps.old + length bytes.now }
{
    let mut units = Vec::new(alloc);
    decode_onto(alloc, &mut units, bytes, steps)?;
    Ok(units)
}

/// Appends the units that the bytes spell, as `decode_counted` finds them.
pub fn decode_onto<L: Ledger>(
    alloc: Global,
    units: &mut Vec<u16>,
    bytes: &[u8],
    steps: &mut Steps<L>,
) -> Result<(), Utf8Error>
    requires { length bytes.now < 2 ^ 32 }
    ensures value { OnOk result
        (spec.after units.old.items (spec.units_of bytes.now) ≡ Ok units.new.items) }
    ensures offset { (at : ℕ) → result ≡ Err (errors.Bad at) → spec.units_of bytes.now ≡ Err at }
    // Each byte takes one step, whatever the answer is.
    ensures cost { steps.new ≡ steps.old + length bytes.now }
{
    if are_plain(bytes) {
        return append_plain(units, bytes, steps);
    }
    let mut others = units_by_form(alloc, bytes, steps)?;
    units.append(&mut others)?;
    Ok(())
}

// Whether each byte is a unit by itself. That a byte is looked at here is part of the step in
// which its unit is made.
#[inline]
fn are_plain(bytes: &[u8]) -> bool
    ensures { result ≡ list_all spec.is_plain bytes.now }
{
    let mut plain = true;
    for byte in bytes {
        plain &= is_plain(*byte);
    }
    plain
}

// Whether the byte is a unit by itself.
fn is_plain(byte: u8) -> bool
    ensures { result ≡ spec.is_plain byte }
{
    byte.wrapping_sub(1) < 0x7f
}

// Appends bytes that are units by themselves, as those of most texts are.
fn append_plain<L: Ledger>(
    units: &mut Vec<u16>,
    bytes: &[u8],
    steps: &mut Steps<L>,
) -> Result<(), Utf8Error>
    requires size { length bytes.now < 2 ^ 32 }
    requires plain { list_all spec.is_plain bytes.now ≡ true }
    ensures value { OnOk result
        (spec.after units.old.items (spec.units_of bytes.now) ≡ Ok units.new.items) }
    ensures offset { (at : ℕ) → result ≡ Err (errors.Bad at) → spec.units_of bytes.now ≡ Err at }
    ensures cost { steps.new ≡ steps.old + length bytes.now }
{
    steps.spend(bytes.len());
    append_widened(units, bytes)?;
    Ok(())
}

// Appends each byte as a unit.
fn append_widened(units: &mut Vec<u16>, bytes: &[u8]) -> Result<(), AllocError>
    requires { length bytes.now < 2 ^ 32 }
    ensures { OnOk result (units.new.items ≡ units.old.items ++ bytes.now) }
{
    let before = units.len();
    units.resize(before + bytes.len(), 0)?;
    widen(bytes, &mut units[before..]);
    Ok(())
}

// Writes each byte as a unit.
fn widen(bytes: &[u8], units: &mut [u16])
    requires { length units.now ≡ length bytes.now }
    ensures { units.new ≡ bytes.now }
{
    for index in 0..bytes.len() {
        units[index] = u16::from(bytes[index]);
    }
}

// The units of any bytes.
fn units_by_form<L: Ledger>(
    alloc: Global,
    bytes: &[u8],
    steps: &mut Steps<L>,
) -> Result<Vec<u16>, Utf8Error>
    requires { length bytes.now < 2 ^ 32 }
    ensures value { IfOk result (λ v. spec.units_of bytes.now ≡ Ok v.items) }
    ensures offset { (at : ℕ) → result ≡ Err (errors.Bad at) → spec.units_of bytes.now ≡ Err at }
    ensures cost { steps.new ≡ steps.old + length bytes.now }
{
    let Ok(mut units) = Vec::with_capacity(alloc, bytes.len()) else {
        steps.spend(bytes.len());
        return Err(Utf8Error::NoMemory);
    };
    let mut rest = bytes;
    while !rest.is_empty() {
        let Some((unit, behind)) = unit_at(rest) else {
            steps.spend(rest.len());
            return Err(Utf8Error::Bad {
                at: (bytes.len() - rest.len()) as u32,
            });
        };
        let Ok(()) = units.push(unit) else {
            steps.spend(rest.len());
            return Err(Utf8Error::NoMemory);
        };
        steps.spend(rest.len() - behind.len());
        rest = behind;
    }
    Ok(units)
}

// The unit at the front, and the bytes after it.
fn unit_at(bytes: &[u8]) -> Option<(u16, &[u8])>
    ensures { option_map (λ x. (x.0, x.1.now)) result ≡ spec.unit_at bytes.now }
{
    let (first, rest) = bytes.split_first()?;
    match *first {
        0x01..=0x7f => Some((u16::from(*first), rest)),
        0xc0..=0xdf => two_at(*first, rest),
        0xe0..=0xef => three_at(*first, rest),
        _ => None,
    }
}

// The unit of two bytes, and the bytes after it.
fn two_at(first: u8, bytes: &[u8]) -> Option<(u16, &[u8])>
    requires { IsTrue (is_in_range 192 223 first) }
    ensures { option_map (λ x. (x.0, x.1.now)) result ≡ spec.two_at first bytes.now }
{
    match bytes {
        [second @ 0x80..=0xbf, rest @ ..] => {
            let unit = u16::from(first - 0xc0) * 64 + u16::from(*second - 0x80);
            if unit == 0 || unit > 0x7f {
                Some((unit, rest))
            } else {
                None
            }
        }
        _ => None,
    }
}

// The unit of three bytes, and the bytes after it.
fn three_at(first: u8, bytes: &[u8]) -> Option<(u16, &[u8])>
    requires { IsTrue (is_in_range 224 239 first) }
    ensures { option_map (λ x. (x.0, x.1.now)) result ≡ spec.three_at first bytes.now }
{
    match bytes {
        [second @ 0x80..=0xbf, third @ 0x80..=0xbf, rest @ ..] => {
            let high = u16::from(first - 0xe0) * 64 + u16::from(*second - 0x80);
            let unit = high * 64 + u16::from(*third - 0x80);
            if unit > 0x7ff {
                Some((unit, rest))
            } else {
                None
            }
        }
        _ => None,
    }
}
