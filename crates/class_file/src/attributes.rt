//! The attributes of a class, a field or a method (JVMS 4.7).

ghost use Rattle.std.specs.Prelude.{◌≡◌, ◌≤◌, ◌+◌, ◌*◌, false, length, IfOk};
ghost use Rattle.byte_reader.specs.Reader.{Reads, map_value};
ghost use Rattle.class_model.specs.declared.attribute.Body.TheVariants as bodies;
ghost use Rattle.class_file.specs.Numbers.{sized_bytes_at, sized_value_at, u2_at};
ghost use Rattle.class_file.specs.Attributes as spec;

use crate::bodies::body_of;
use crate::code::sized_code_of;
use crate::names::{is_recognized, name_of};
use crate::numbers::{sized_bytes_of, u2_of, u4_of};
use byte_reader::Stop;
use class_grammar::{ClassWhy, Holder};
use class_model::{Attribute, Body, Const};
use items::{Boxed, Items};
use shared_slices::SharedVec;
use std::alloc::Global;
use std::sync::ledger::Ledger;
use steps::Steps;

// The body of a ConstantValue after its length: the index of the value (JVMS 4.7.2).
fn sized_value_of(bytes: &[u8]) -> Result<(u16, &[u8]), Stop<ClassWhy>>
    ensures read { Reads result (sized_value_at u2_at bytes.now) }
    ensures size { IfOk result (λ x. length x.1.now + 4 ≤ length bytes.now) }
{
    let (size, front) = u4_of(bytes)?;
    let (value, rest) = u2_of(front)?;
    if front.len().saturating_sub(rest.len()) != size as usize {
        return Err(Stop::at(bytes, ClassWhy::Length));
    }
    Ok((value, rest))
}

// The bytes of an attribute that isn't recognized, after their length. That length leaves twelve steps for the name.
fn other_body_of<'a, L: Ledger>(
    alloc: Global,
    tail: &SharedVec<u8>,
    bytes: &'a [u8],
    steps: &mut Steps<L>,
) -> Result<(Body, &'a [u8]), Stop<ClassWhy>>
    ensures read { Reads result (map_value bodies.Other sized_bytes_at bytes.now) }
    ensures cost { steps.new ≤ steps.old + 3 * length bytes.now }
    ensures rest { IfOk result (λ x.
        steps.new + 12 + 3 * length x.1.now ≤ steps.old + 3 * length bytes.now) }
{
    let (body, rest) = sized_bytes_of(bytes)?;
    let body = Body::Other(body_of(alloc, tail, body, rest, steps)?);
    Ok((body, rest))
}

// A recognized attribute of the holder. Its length leaves twelve steps for the name.
fn recognized_of<'a, L: Ledger>(
    alloc: Global,
    pool: &[Const],
    tail: &SharedVec<u8>,
    holder: Holder,
    name: u16,
    bytes: &'a [u8],
    steps: &mut Steps<L>,
) -> Result<(Attribute, &'a [u8]), Stop<ClassWhy>>
    ensures read { Reads result (spec.recognized_at pool.now holder name bytes.now) }
    ensures cost { steps.new ≤ steps.old + 3 * length bytes.now }
    ensures rest { IfOk result (λ x.
        steps.new + 12 + 3 * length x.1.now ≤ steps.old + 3 * length bytes.now) }
{
    match holder {
        Holder::Method => {
            let (code, rest) = sized_code_of(alloc, pool, tail, bytes, steps)?;
            let body = Body::Code(Boxed::new(alloc, code)?);
            Ok((Attribute { name, body }, rest))
        }
        Holder::Field => {
            let (value, rest) = sized_value_of(bytes)?;
            let body = Body::Constant(value);
            Ok((Attribute { name, body }, rest))
        }
        Holder::Class => {
            let (body, rest) = other_body_of(alloc, tail, bytes, steps)?;
            Ok((Attribute { name, body }, rest))
        }
    }
}

// An attribute. `seen` says that the holder has a recognized one before it.
#[tactic(auto, unfolding(crate::specs::Attributes::attribute_at))]
fn attribute_of<'a, L: Ledger>(
    alloc: Global,
    pool: &[Const],
    tail: &SharedVec<u8>,
    holder: Holder,
    seen: bool,
    bytes: &'a [u8],
    steps: &mut Steps<L>,
) -> Result<(Attribute, &'a [u8]), Stop<ClassWhy>>
    ensures read { Reads result (spec.attribute_at pool.now holder seen bytes.now) }
    ensures cost { steps.new ≤ steps.old + 3 * length bytes.now + 7 }
    ensures rest { IfOk result (λ x.
        steps.new + 3 * length x.1.now ≤ steps.old + 3 * length bytes.now) }
{
    let (name, rest) = name_of(pool, bytes)?;
    if !is_recognized(holder, name.text, steps) {
        let (body, rest) = other_body_of(alloc, tail, rest, steps)?;
        let name = name.index;
        return Ok((Attribute { name, body }, rest));
    }
    if seen {
        return Err(Stop::at(bytes, ClassWhy::Duplicate));
    }
    recognized_of(alloc, pool, tail, holder, name.index, rest, steps)
}

// Whether there is a recognized attribute up to this one.
fn is_one_seen(seen: bool, attribute: &Attribute) -> bool
    ensures { result ≡ spec.next_attribute seen attribute.now }
{
    seen || !matches!(attribute.body, Body::Other(_))
}

/// That many attributes (JVMS 4.7). The bytes are the last ones of the tail.
pub fn attributes_of<'a, L: Ledger>(
    alloc: Global,
    pool: &[Const],
    tail: &SharedVec<u8>,
    holder: Holder,
    count: u16,
    bytes: &'a [u8],
    steps: &mut Steps<L>,
) -> Result<(Items<Attribute>, &'a [u8]), Stop<ClassWhy>>
    ensures read { Reads result (spec.attributes_at pool.now holder false count bytes.now) }
    ensures cost { steps.new ≤ steps.old + 3 * length bytes.now + 7 }
    ensures rest { IfOk result (λ x.
        steps.new + 3 * length x.1.now ≤ steps.old + 3 * length bytes.now) }
{
    let most = usize::from(count).min(bytes.len() / 6);
    let mut attributes = Vec::with_capacity(alloc, most)?;
    let mut rest = bytes;
    let mut seen = false;
    for _ in 0..count {
        let (attribute, after) = attribute_of(alloc, pool, tail, holder, seen, rest, steps)?;
        seen = is_one_seen(seen, &attribute);
        attributes.push(attribute)?;
        rest = after;
    }
    Ok((Items::from(attributes), rest))
}
