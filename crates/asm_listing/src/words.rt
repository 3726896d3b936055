//! The words for labels and for entries of the constant pool. `Bad`: there is none.

ghost use Rattle.std.specs.Prelude.{◌≡◌, true, nat_lt, IfOk};
ghost use Rattle.std.specs.List.{list_all};
ghost use Rattle.asm_listing.specs.Numbers.{Gives};
ghost use Rattle.asm_listing.specs.Words as spec;

use asm_text::{Constant, LineError, Name, Operands};
use class_grammar::{class_name_at, text_at};
use class_model::Const;
use itoa::Buffer;
use std::alloc::{AllocError, Global};

/// The label of a pc.
pub fn label_of(alloc: Global, pc: u16) -> Result<Name, AllocError>
    ensures { IfOk result (λ label. label ≡ spec.label_of pc) }
{
    let mut label = Vec::from_slice(alloc, b"L")?;
    let mut buffer = Buffer::new();
    label.extend_from_slice(buffer.format(pc).as_bytes())?;
    Ok(Name::from(label))
}

fn as_pc(target: i64) -> Option<u16>
    ensures { result ≡ spec.as_pc target }
{
    if target < 0 || target > 65_535 {
        return None;
    }
    Some(target.unsigned_abs() as u16)
}

/// The pc at an offset from another.
pub fn target_of(pc: u16, offset: i32) -> Result<u16, LineError>
    ensures { Gives result (spec.target_of pc offset) }
{
    as_pc(i64::from(pc) + i64::from(offset)).ok_or(LineError::Bad)
}

fn is_ascii(units: &[u16]) -> bool
    ensures { result ≡ list_all (λ u. nat_lt u 128) units.now }
{
    units.iter().all(|unit| *unit < 128)
}

fn bytes_of(alloc: Global, units: &[u16]) -> Result<Name, AllocError>
    requires { list_all (λ u. nat_lt u 128) units.now ≡ true }
    ensures { IfOk result (λ name. name ≡ units.now) }
{
    let mut bytes = Vec::with_capacity(alloc, units.len())?;
    for unit in units {
        bytes.push(*unit as u8)?;
    }
    Ok(Name::from(bytes))
}

fn ascii_of(alloc: Global, units: &[u16]) -> Result<Name, LineError>
    ensures { Gives result (spec.ascii_of units.now) }
{
    if !is_ascii(units) {
        return Err(LineError::Bad);
    }
    Ok(bytes_of(alloc, units)?)
}

/// The text at an index.
pub fn word_at(alloc: Global, pool: &[Const], index: u16) -> Result<Name, LineError>
    ensures { Gives result (spec.word_at pool.now index) }
{
    match text_at(pool, index) {
        Some(units) => ascii_of(alloc, units),
        None => Err(LineError::Bad),
    }
}

/// The name of the class at an index.
pub fn class_at(alloc: Global, pool: &[Const], index: u16) -> Result<Name, LineError>
    ensures { Gives result (spec.class_at pool.now index) }
{
    match class_name_at(pool, index) {
        Some(units) => ascii_of(alloc, units),
        None => Err(LineError::Bad),
    }
}

/// The class at an index, or none where it is 0.
pub fn caught_at(alloc: Global, pool: &[Const], index: u16) -> Result<Option<Name>, LineError>
    ensures { Gives result (spec.caught_at pool.now index) }
{
    if index == 0 {
        return Ok(None);
    }
    Ok(Some(class_at(alloc, pool, index)?))
}

fn member_by(
    alloc: Global,
    pool: &[Const],
    class: u16,
    constant: &Const,
) -> Result<Operands, LineError>
    ensures { Gives result (spec.member_by pool.now class constant.now) }
{
    match constant {
        Const::NameAndType(name, descriptor) => {
            let class = class_at(alloc, pool, class)?;
            let name = word_at(alloc, pool, *name)?;
            let descriptor = word_at(alloc, pool, *descriptor)?;
            Ok(Operands::Member {
                class,
                name,
                descriptor,
            })
        }
        _ => Err(LineError::Bad),
    }
}

fn member_with(
    alloc: Global,
    pool: &[Const],
    class: u16,
    member: u16,
) -> Result<Operands, LineError>
    ensures { Gives result (spec.member_with pool.now class member) }
{
    match pool.get(usize::from(member)) {
        Some(constant) => member_by(alloc, pool, class, constant),
        None => Err(LineError::Bad),
    }
}

fn member_of(alloc: Global, pool: &[Const], constant: &Const) -> Result<Operands, LineError>
    ensures { Gives result (spec.member_of pool.now constant.now) }
{
    match constant {
        Const::Fieldref(class, member)
        | Const::Methodref(class, member)
        | Const::InterfaceMethodref(class, member) => member_with(alloc, pool, *class, *member),
        _ => Err(LineError::Bad),
    }
}

/// The field or method at an index.
pub fn member_at(alloc: Global, pool: &[Const], index: u16) -> Result<Operands, LineError>
    ensures { Gives result (spec.member_at pool.now index) }
{
    match pool.get(usize::from(index)) {
        Some(constant) => member_of(alloc, pool, constant),
        None => Err(LineError::Bad),
    }
}

fn constant_of(alloc: Global, pool: &[Const], constant: &Const) -> Result<Constant, LineError>
    ensures { Gives result (spec.constant_of pool.now constant.now) }
{
    match constant {
        Const::Integer(value) => Ok(Constant::Int(*value)),
        Const::Long(value) => Ok(Constant::Long(*value)),
        Const::Text(text) => Ok(Constant::Text(word_at(alloc, pool, *text)?)),
        _ => Err(LineError::Bad),
    }
}

/// The constant at an index, by its value.
pub fn constant_at(alloc: Global, pool: &[Const], index: u16) -> Result<Constant, LineError>
    ensures { Gives result (spec.constant_at pool.now index) }
{
    match pool.get(usize::from(index)) {
        Some(constant) => constant_of(alloc, pool, constant),
        None => Err(LineError::Bad),
    }
}
