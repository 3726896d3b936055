//! Descriptors of fields (JVMS 4.3.2).

ghost use Rattle.std.specs.Prelude.{◌≡◌, ℕ, ◌<◌, ◌≤◌, ◌+◌, ◌^◌, [], ◌∷◌, ◌++◌, Err, length, take, drop, true, false, not, position, ◌==◌, IfOk};
ghost use Rattle.items.specs.Memory.{OkUnless};
ghost use Rattle.descriptors.specs.declared.error.DescriptorError.TheVariants as errors;
ghost use Rattle.descriptors.specs.declared.kind.Kind.{Kind as AnyKind};
ghost use Rattle.descriptors.specs.Descriptors.{element_spelling, spelling, brackets, semicolon, IsClassName, IsElement, IsKind, is_base};
ghost use Rattle.descriptors.specs.Refusal.{IsField, IsFirstBad, ElementInFront, KindInFront, NameInFront};
ghost use Rattle.descriptors.specs.States as spec;
ghost use Rattle.descriptors.specs.Meaning as meaning;

use crate::error::DescriptorError;
use crate::fronts::field_bad;
use crate::kind::{ElementType, Kind};
use crate::letters::{
    BRACKET, BYTE_LETTER, CHAR_LETTER, CLASS_LETTER, DOUBLE_LETTER, FLOAT_LETTER, INT_LETTER,
    LONG_LETTER, SEMICOLON, SHORT_LETTER,
};
use items::Items;
use std::alloc::{AllocError, Global};
use std::marker::Brand;
use std::sync::ledger::{Blank, Ledger};
use steps::Steps;

/// Whether the units are the descriptor of a field (JVMS 4.3.2). This takes no memory.
pub fn is_field_descriptor(units: &[u16]) -> bool
    ensures { result ≡ spec.is_field units.now }
{
    is_field_on::<Brand>(units, Blank::new(1))
}

// `is_field_descriptor`, on a ledger that nobody reads.
fn is_field_on<L: Ledger>(units: &[u16], blank: Blank) -> bool
    requires name { blank.name ≡ L.name }
    requires parts { blank.parts ≡ L.parts }
    requires some { 0 < L.parts }
    ensures { result ≡ spec.is_field units.now }
{
    let mut steps = Steps::<L>::new(blank);
    is_field_counted(units, &mut steps)
}

/// `is_field_descriptor`, with its steps counted.
pub fn is_field_counted<L: Ledger>(units: &[u16], steps: &mut Steps<L>) -> bool
    ensures test { result ≡ spec.is_field units.now }
    // Each unit takes one step, whatever the answer is.
    ensures cost { steps.new ≡ steps.old + length units.now }
{
    field_bad(units, steps).is_none()
}

/// The kind whose descriptor the units are (JVMS 4.3.2): of a class with a name by JVMS 4.2.1, of
/// an array with at most 255 dimensions.
pub fn field_kind(alloc: Global, units: &[u16]) -> Result<Kind, DescriptorError>
    requires { length units.now < 2 ^ 32 }
    // The units are the descriptor of the kind that it returns.
    ensures found { IfOk result (λ kind. IsKind kind × (units.now ≡ spelling kind)) }
    ensures value { IfOk result (λ kind. kind ≡ meaning.kind_of units.now) }
    // The descriptor of a kind is read as this kind.
    ensures only { (kind : AnyKind) → IsKind kind → units.now ≡ spelling kind
        → OkUnless result errors.NoMemory (λ found. found ≡ kind) }
    // A refusal names the first bad unit.
    ensures bad { (at : ℕ) → result ≡ Err (errors.Bad at) → IsFirstBad IsField units.now at }
    ensures none { (at : ℕ) → result ≡ Err (errors.Bad at) → spec.is_field units.now ≡ false }
{
    field_kind_on::<Brand>(alloc, units, Blank::new(1))
}

// `field_kind`, on a ledger that nobody reads.
fn field_kind_on<L: Ledger>(
    alloc: Global,
    units: &[u16],
    blank: Blank,
) -> Result<Kind, DescriptorError>
    requires name { blank.name ≡ L.name }
    requires parts { blank.parts ≡ L.parts }
    requires some { 0 < L.parts }
    requires size { length units.now < 2 ^ 32 }
    ensures found { IfOk result (λ kind. IsKind kind × (units.now ≡ spelling kind)) }
    ensures value { IfOk result (λ kind. kind ≡ meaning.kind_of units.now) }
    ensures only { (kind : AnyKind) → IsKind kind → units.now ≡ spelling kind
        → OkUnless result errors.NoMemory (λ found. found ≡ kind) }
    ensures bad { (at : ℕ) → result ≡ Err (errors.Bad at) → IsFirstBad IsField units.now at }
    ensures none { (at : ℕ) → result ≡ Err (errors.Bad at) → spec.is_field units.now ≡ false }
{
    let mut steps = Steps::<L>::new(blank);
    field_kind_counted(alloc, units, &mut steps)
}

/// `field_kind`, with its steps counted.
pub fn field_kind_counted<L: Ledger>(
    alloc: Global,
    units: &[u16],
    steps: &mut Steps<L>,
) -> Result<Kind, DescriptorError>
    requires { length units.now < 2 ^ 32 }
    ensures found { IfOk result (λ kind. IsKind kind × (units.now ≡ spelling kind)) }
    ensures value { IfOk result (λ kind. kind ≡ meaning.kind_of units.now) }
    ensures only { (kind : AnyKind) → IsKind kind → units.now ≡ spelling kind
        → OkUnless result errors.NoMemory (λ found. found ≡ kind) }
    ensures bad { (at : ℕ) → result ≡ Err (errors.Bad at) → IsFirstBad IsField units.now at }
    ensures none { (at : ℕ) → result ≡ Err (errors.Bad at) → spec.is_field units.now ≡ false }
    // Each unit takes one step, whatever the answer is. To copy it is part of that step.
    ensures cost { steps.new ≡ steps.old + length units.now }
{
    if let Some(at) = field_bad(units, steps) {
        return Err(DescriptorError::Bad { at: at as u32 });
    }
    let (kind, _) = kind_at(alloc, units)?;
    Ok(kind)
}

/// The kind whose descriptor is in front, and the units after it.
pub fn kind_at(alloc: Global, units: &[u16]) -> Result<(Kind, &[u16]), AllocError>
    requires { KindInFront units.now }
    ensures { IfOk result (λ x. IsKind x.0 × (units.now ≡ spelling x.0 ++ x.1.now)) }
{
    let brackets = brackets_in(units);
    let (element, rest) = element_at(alloc, &units[brackets..])?;
    let dimensions = brackets as u8;
    let kind = Kind {
        dimensions,
        element,
    };
    Ok((kind, rest))
}

// How many `[` are in front.
fn brackets_in(units: &[u16]) -> usize
    requires { KindInFront units.now }
    ensures few { result ≤ 255 }
    ensures within { result ≤ length units.now }
    ensures brackets { units.now ≡ brackets result ++ drop result units.now }
    ensures element { ElementInFront (drop result units.now) }
{
    first_other(units, BRACKET).unwrap()
}

// The type in front, which is no array, and the units after it.
fn element_at(alloc: Global, units: &[u16]) -> Result<(ElementType, &[u16]), AllocError>
    requires { ElementInFront units.now }
    ensures { IfOk result (λ x.
        IsElement x.0 × (units.now ≡ element_spelling x.0 ++ x.1.now)) }
{
    let first = units[0];
    let rest = &units[1..];
    if first != CLASS_LETTER {
        return Ok((base(first), rest));
    }
    let end = name_len(rest);
    let name = Items::from(Vec::from_slice(alloc, &rest[..end])?);
    Ok((ElementType::Class(name), &rest[end + 1..]))
}

// How many units the class name in front has.
fn name_len(units: &[u16]) -> usize
    requires { NameInFront units.now }
    ensures within { result < length units.now }
    ensures name { IsClassName (take result units.now) }
    ensures end { units.now ≡ take result units.now ++ semicolon ∷ drop (result + 1) units.now }
{
    first_same(units, SEMICOLON).unwrap()
}

// The offset of the first unit that is this one.
fn first_same(units: &[u16], wanted: u16) -> Option<usize>
    ensures { result ≡ position (λ unit. unit == wanted) units.now }
{
    units.iter().position(|unit| *unit == wanted)
}

// The offset of the first unit that is another one.
fn first_other(units: &[u16], skipped: u16) -> Option<usize>
    ensures { result ≡ position (λ unit. not (unit == skipped)) units.now }
{
    units.iter().position(|unit| *unit != skipped)
}

// The type of one unit.
fn base(unit: u16) -> ElementType
    requires { is_base unit ≡ true }
    ensures { IsElement result × (element_spelling result ≡ unit ∷ []) }
{
    match unit {
        BYTE_LETTER => ElementType::Byte,
        CHAR_LETTER => ElementType::Char,
        DOUBLE_LETTER => ElementType::Double,
        FLOAT_LETTER => ElementType::Float,
        INT_LETTER => ElementType::Int,
        LONG_LETTER => ElementType::Long,
        SHORT_LETTER => ElementType::Short,
        _ => ElementType::Bool,
    }
}
