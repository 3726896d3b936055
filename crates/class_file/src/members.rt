//! Interfaces, fields and methods (JVMS 4.1, 4.5, 4.6).

ghost use Rattle.std.specs.Prelude.{◌≤◌, ◌+◌, ◌*◌, length, IfOk};
ghost use Rattle.byte_reader.specs.Reader.{Reads, many};
ghost use Rattle.class_file.specs.Numbers.{u2_at};
ghost use Rattle.class_file.specs.File.{member_at, members_at};

use crate::attributes::attributes_of;
use crate::numbers::{pair_of, u2_of};
use byte_reader::Stop;
use class_grammar::{ClassWhy, Holder};
use class_model::{Const, Member};
use items::Items;
use shared_slices::SharedVec;
use std::alloc::Global;
use std::sync::ledger::Ledger;
use steps::Steps;

// A field or a method.
#[tactic(auto, unfolding(crate::specs::File::member_at))]
fn member_of<'a, L: Ledger>(
    alloc: Global,
    pool: &[Const],
    tail: &SharedVec<u8>,
    holder: Holder,
    bytes: &'a [u8],
    steps: &mut Steps<L>,
) -> Result<(Member, &'a [u8]), Stop<ClassWhy>>
    ensures read { Reads result (member_at pool.now holder bytes.now) }
    ensures cost { steps.new ≤ steps.old + 3 * length bytes.now + 7 }
    ensures rest { IfOk result (λ x.
        steps.new + 3 * length x.1.now ≤ steps.old + 3 * length bytes.now) }
{
    let (flags, rest) = u2_of(bytes)?;
    let ((name, descriptor), rest) = pair_of(rest)?;
    let (count, rest) = u2_of(rest)?;
    let (attributes, rest) = attributes_of(alloc, pool, tail, holder, count, rest, steps)?;
    let member = Member {
        flags,
        name,
        descriptor,
        attributes,
    };
    Ok((member, rest))
}

// That many fields or methods.
fn all_of<'a, L: Ledger>(
    alloc: Global,
    pool: &[Const],
    tail: &SharedVec<u8>,
    holder: Holder,
    count: u16,
    bytes: &'a [u8],
    steps: &mut Steps<L>,
) -> Result<(Items<Member>, &'a [u8]), Stop<ClassWhy>>
    ensures read { Reads result (many (member_at pool.now holder) count bytes.now) }
    ensures cost { steps.new ≤ steps.old + 3 * length bytes.now + 7 }
    ensures rest { IfOk result (λ x.
        steps.new + 3 * length x.1.now ≤ steps.old + 3 * length bytes.now) }
{
    let most = usize::from(count).min(bytes.len() / 8);
    let mut members = Vec::with_capacity(alloc, most)?;
    let mut rest = bytes;
    for _ in 0..count {
        let (member, after) = member_of(alloc, pool, tail, holder, rest, steps)?;
        members.push(member)?;
        rest = after;
    }
    Ok((Items::from(members), rest))
}

/// The fields or the methods after their number (JVMS 4.5, 4.6).
#[tactic(auto, unfolding(crate::specs::File::members_at))]
pub fn members_of<'a, L: Ledger>(
    alloc: Global,
    pool: &[Const],
    tail: &SharedVec<u8>,
    holder: Holder,
    bytes: &'a [u8],
    steps: &mut Steps<L>,
) -> Result<(Items<Member>, &'a [u8]), Stop<ClassWhy>>
    ensures read { Reads result (members_at pool.now holder bytes.now) }
    ensures cost { steps.new ≤ steps.old + 3 * length bytes.now + 7 }
    ensures rest { IfOk result (λ x.
        steps.new + 3 * length x.1.now ≤ steps.old + 3 * length bytes.now) }
{
    let (count, rest) = u2_of(bytes)?;
    all_of(alloc, pool, tail, holder, count, rest, steps)
}

/// That many interfaces, each by its index in the constant pool (JVMS 4.1).
pub fn interfaces_of(
    alloc: Global,
    count: u16,
    bytes: &[u8],
) -> Result<(Items<u16>, &[u8]), Stop<ClassWhy>>
    ensures read { Reads result (many u2_at count bytes.now) }
    ensures size { IfOk result (λ x. length x.1.now ≤ length bytes.now) }
{
    let most = usize::from(count).min(bytes.len() / 2);
    let mut interfaces = Vec::with_capacity(alloc, most)?;
    let mut rest = bytes;
    for _ in 0..count {
        let (index, after) = u2_of(rest)?;
        interfaces.push(index)?;
        rest = after;
    }
    Ok((Items::from(interfaces), rest))
}
