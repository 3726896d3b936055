//! Descriptors of methods (JVMS 4.3.3).

ghost use Rattle.std.specs.Prelude.{◌≡◌, ℕ, ◌+◌, ◌<◌, ◌^◌, Err, false, length, IfOk};
ghost use Rattle.items.specs.Memory.{OkUnless};
ghost use Rattle.descriptors.specs.declared.error.DescriptorError.TheVariants as errors;
ghost use Rattle.descriptors.specs.declared.kind.Signature.{Signature as AnySignature};
ghost use Rattle.descriptors.specs.Descriptors.{method_spelling, result_spelling, IsResult, IsSignature};
ghost use Rattle.descriptors.specs.Refusal.{IsMethod, IsFirstBad, IsResultText};
ghost use Rattle.descriptors.specs.States as spec;
ghost use Rattle.descriptors.specs.Meaning as meaning;

use crate::error::DescriptorError;
use crate::fields::kind_at;
use crate::fronts::method_bad;
use crate::kind::{Kind, Signature};
use crate::letters::{CLOSE_PARENTHESIS, VOID_LETTER};
use items::Items;
use std::alloc::{AllocError, Global};
use std::marker::Brand;
use std::sync::ledger::{Blank, Ledger};
use steps::Steps;

/// Whether the units are the descriptor of a method (JVMS 4.3.3). This takes no memory.
pub fn is_method_descriptor(units: &[u16]) -> bool
    ensures { result ≡ spec.is_method units.now }
{
    is_method_on::<Brand>(units, Blank::new(1))
}

// `is_method_descriptor`, on a ledger that nobody reads.
fn is_method_on<L: Ledger>(units: &[u16], blank: Blank) -> bool
    requires name { blank.name ≡ L.name }
    requires parts { blank.parts ≡ L.parts }
    requires some { 0 < L.parts }
    ensures { result ≡ spec.is_method units.now }
{
    let mut steps = Steps::<L>::new(blank);
    is_method_counted(units, &mut steps)
}

/// `is_method_descriptor`, with its steps counted.
pub fn is_method_counted<L: Ledger>(units: &[u16], steps: &mut Steps<L>) -> bool
    ensures test { result ≡ spec.is_method units.now }
    // Each unit takes one step, whatever the answer is.
    ensures cost { steps.new ≡ steps.old + length units.now }
{
    method_bad(units, steps).is_none()
}

/// The signature whose descriptor the units are (JVMS 4.3.3). Its arguments take at most 255
/// slots: a long and a double take two each, every other kind one, and the receiver isn't
/// counted.
pub fn method_kind(alloc: Global, units: &[u16]) -> Result<Signature, DescriptorError>
    requires { length units.now < 2 ^ 32 }
    // The units are the descriptor of the signature that it returns.
    ensures found { IfOk result (λ s. IsSignature s × (units.now ≡ method_spelling s)) }
    ensures value { IfOk result (λ s. s ≡ meaning.signature_of units.now) }
    // The descriptor of a signature is read as this signature.
    ensures only { (s : AnySignature) → IsSignature s → units.now ≡ method_spelling s
        → OkUnless result errors.NoMemory (λ found. found ≡ s) }
    // A refusal names the first bad unit.
    ensures bad { (at : ℕ) → result ≡ Err (errors.Bad at) → IsFirstBad IsMethod units.now at }
    ensures none { (at : ℕ) → result ≡ Err (errors.Bad at) → spec.is_method units.now ≡ false }
{
    method_kind_on::<Brand>(alloc, units, Blank::new(1))
}

// `method_kind`, on a ledger that nobody reads.
fn method_kind_on<L: Ledger>(
    alloc: Global,
    units: &[u16],
    blank: Blank,
) -> Result<Signature, DescriptorError>
    requires name { blank.name ≡ L.name }
    requires parts { blank.parts ≡ L.parts }
    requires some { 0 < L.parts }
    requires size { length units.now < 2 ^ 32 }
    ensures found { IfOk result (λ s. IsSignature s × (units.now ≡ method_spelling s)) }
    ensures value { IfOk result (λ s. s ≡ meaning.signature_of units.now) }
    ensures only { (s : AnySignature) → IsSignature s → units.now ≡ method_spelling s
        → OkUnless result errors.NoMemory (λ found. found ≡ s) }
    ensures bad { (at : ℕ) → result ≡ Err (errors.Bad at) → IsFirstBad IsMethod units.now at }
    ensures none { (at : ℕ) → result ≡ Err (errors.Bad at) → spec.is_method units.now ≡ false }
{
    let mut steps = Steps::<L>::new(blank);
    method_kind_counted(alloc, units, &mut steps)
}

/// `method_kind`, with its steps counted.
pub fn method_kind_counted<L: Ledger>(
    alloc: Global,
    units: &[u16],
    steps: &mut Steps<L>,
) -> Result<Signature, DescriptorError>
    requires { length units.now < 2 ^ 32 }
    ensures found { IfOk result (λ s. IsSignature s × (units.now ≡ method_spelling s)) }
    ensures value { IfOk result (λ s. s ≡ meaning.signature_of units.now) }
    ensures only { (s : AnySignature) → IsSignature s → units.now ≡ method_spelling s
        → OkUnless result errors.NoMemory (λ found. found ≡ s) }
    ensures bad { (at : ℕ) → result ≡ Err (errors.Bad at) → IsFirstBad IsMethod units.now at }
    ensures none { (at : ℕ) → result ≡ Err (errors.Bad at) → spec.is_method units.now ≡ false }
    // Each unit takes one step, whatever the answer is. To copy it is part of that step.
    ensures cost { steps.new ≡ steps.old + length units.now }
{
    if let Some(at) = method_bad(units, steps) {
        return Err(DescriptorError::Bad { at: at as u32 });
    }
    Ok(signature_of(alloc, units)?)
}

// The signature of a method's descriptor.
fn signature_of(alloc: Global, units: &[u16]) -> Result<Signature, AllocError>
    requires { IsMethod units.now }
    ensures { IfOk result (λ s. IsSignature s × (units.now ≡ method_spelling s)) }
{
    let mut args = Items::new(alloc);
    let mut rest = &units[1..];
    while rest[0] != CLOSE_PARENTHESIS {
        let (kind, behind) = kind_at(alloc, rest)?;
        args.push(kind)?;
        rest = behind;
    }
    let result = result_of(alloc, &rest[1..])?;
    Ok(Signature { args, result })
}

// The result of a method, or none for `V`.
fn result_of(alloc: Global, units: &[u16]) -> Result<Option<Kind>, AllocError>
    requires { IsResultText units.now }
    ensures { IfOk result (λ r. IsResult r × (units.now ≡ result_spelling r)) }
{
    if units[0] == VOID_LETTER {
        return Ok(None);
    }
    let (kind, _) = kind_at(alloc, units)?;
    Ok(Some(kind))
}
