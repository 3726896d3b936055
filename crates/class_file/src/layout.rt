//! The layout of a whole class file (JVMS 4.1).

ghost use Rattle.std.specs.Prelude.{◌≡◌, ◌≤◌, ◌+◌, ◌*◌, length, IfOk};
ghost use Rattle.byte_reader.specs.Reader.{Gives, Reads};
ghost use Rattle.class_checks.specs.Costs.{checking};
ghost use Rattle.class_file.specs.File as spec;

use crate::attributes::attributes_of;
use crate::constants::pool_of;
use crate::members::{interfaces_of, members_of};
use crate::numbers::{pair_of, u2_of, u4_of};
use byte_reader::Stop;
use class_grammar::{ClassWhy, Holder};
use class_model::{ClassFile, Const};
use items::Items;
use shared_slices::SharedVec;
use std::alloc::{AllocError, Global};
use std::sync::ledger::Ledger;
use steps::Steps;

/// The first bytes of every class file (JVMS 4.1).
const MAGIC: u32 = 0xcafe_babe;

/// The version of a class file (JVMS 4.1).
#[derive(Clone, Copy)]
pub struct Version {
    pub minor: u16,
    pub major: u16,
}

/// What a class says of itself (JVMS 4.1).
#[derive(Drop)]
pub struct Class {
    pub flags: u16,
    pub own: u16,
    pub parent: u16,
    pub interfaces: Items<u16>,
}

// Whether it is Java 7 to 25, and from version 56 on without preview features.
fn is_supported(version: Version) -> bool
    ensures { result ≡ spec.is_supported version }
{
    let Version { minor, major } = version;
    51 <= major && major <= 69 && (major < 56 || minor == 0)
}

// The version after the magic number.
#[tactic(auto, unfolding(crate::specs::File::version_at))]
fn version_of(bytes: &[u8]) -> Result<(Version, &[u8]), Stop<ClassWhy>>
    ensures read { Reads result (spec.version_at bytes.now) }
    ensures size { IfOk result (λ x. length x.1.now + 8 ≡ length bytes.now) }
{
    let (magic, front) = u4_of(bytes)?;
    if magic != MAGIC {
        return Err(Stop::at(bytes, ClassWhy::Magic));
    }
    let ((minor, major), rest) = pair_of(front)?;
    let version = Version { minor, major };
    if !is_supported(version) {
        return Err(Stop::at(front, ClassWhy::Version));
    }
    Ok((version, rest))
}

#[tactic(auto, unfolding(crate::specs::File::class_at))]
fn class_of(alloc: Global, bytes: &[u8]) -> Result<(Class, &[u8]), Stop<ClassWhy>>
    ensures read { Reads result (spec.class_at bytes.now) }
    ensures size { IfOk result (λ x. length x.1.now ≤ length bytes.now) }
{
    let (flags, rest) = u2_of(bytes)?;
    let ((own, parent), rest) = pair_of(rest)?;
    let (count, rest) = u2_of(rest)?;
    let (interfaces, rest) = interfaces_of(alloc, count, rest)?;
    let class = Class {
        flags,
        own,
        parent,
        interfaces,
    };
    Ok((class, rest))
}

// The bytes that follow the pool, of which the bodies of attributes are slices.
fn tail_bytes<L: Ledger>(
    alloc: Global,
    bytes: &[u8],
    steps: &mut Steps<L>,
) -> Result<SharedVec<u8>, AllocError>
    ensures cost { steps.new ≡ steps.old + length bytes.now }
{
    steps.spend(bytes.len());
    SharedVec::new(alloc, Vec::from_slice(alloc, bytes)?)
}

// What follows the pool.
#[tactic(auto, unfolding(crate::specs::File::tail_at))]
fn tail_of<'a, L: Ledger>(
    alloc: Global,
    version: Version,
    pool: Items<Const>,
    bytes: &'a [u8],
    steps: &mut Steps<L>,
) -> Result<(ClassFile, &'a [u8]), Stop<ClassWhy>>
    ensures read { Reads result (spec.tail_at version pool bytes.now) }
    ensures pool { IfOk result (λ x. x.0.pool ≡ pool) }
    ensures cost { steps.new ≤ steps.old + 4 * length bytes.now + 7 }
    ensures rest { IfOk result (λ _. steps.new ≤ steps.old + 4 * length bytes.now) }
{
    let tail = tail_bytes(alloc, bytes, steps)?;
    let (class, rest) = class_of(alloc, bytes)?;
    let (fields, rest) = members_of(alloc, &pool, &tail, Holder::Field, rest, steps)?;
    let (methods, rest) = members_of(alloc, &pool, &tail, Holder::Method, rest, steps)?;
    let (count, rest) = u2_of(rest)?;
    let (attributes, rest) = attributes_of(alloc, &pool, &tail, Holder::Class, count, rest, steps)?;
    let file = ClassFile {
        minor: version.minor,
        major: version.major,
        pool,
        flags: class.flags,
        own: class.own,
        parent: class.parent,
        interfaces: class.interfaces,
        fields,
        methods,
        attributes,
    };
    Ok((file, rest))
}

/// A class file, and no byte more (JVMS 4.1). None of its items is checked.
#[tactic(auto, unfolding(crate::specs::File::layout_of))]
pub fn layout_of<L: Ledger>(
    alloc: Global,
    bytes: &[u8],
    steps: &mut Steps<L>,
) -> Result<ClassFile, Stop<ClassWhy>>
    ensures read { Gives result (spec.layout_of bytes.now) }
    ensures cost { steps.new ≤ steps.old + 4 * length bytes.now }
    // What the checks of the file may take is left.
    ensures rest { IfOk result (λ file.
        steps.new + checking file ≤ steps.old + 4 * length bytes.now) }
{
    let (version, rest) = version_of(bytes)?;
    let (pool, rest) = pool_of(alloc, rest, steps)?;
    let (file, rest) = tail_of(alloc, version, pool, rest, steps)?;
    if !rest.is_empty() {
        return Err(Stop::at(rest, ClassWhy::Trailing));
    }
    Ok(file)
}
