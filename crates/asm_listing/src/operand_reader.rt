//! The operands of an instruction, as its line has them.

ghost use Rattle.std.specs.Prelude.{◌≡◌, ◌∷◌, [], IfOk};
ghost use Rattle.asm_listing.specs.Numbers.{Gives, Reads};
ghost use Rattle.asm_listing.specs.Operands as spec;

use crate::numbers::{s1_at, s2_at, s4_at, skip, u1_at, u2_at};
use crate::words::{class_at, constant_at, label_of, member_at, target_of};
use asm_text::{Element, LineError, Operands};
use class_model::Const;
use items::Items;
use std::alloc::{AllocError, Global};

/// The operands of an instruction, and the pcs that they name.
#[derive(Drop)]
pub struct Listed {
    pub operands: Operands,
    pub targets: Items<u16>,
}

/// Operands that name no pc.
pub fn plain(alloc: Global, operands: Operands) -> Listed
    ensures { result ≡ spec.plain operands }
{
    Listed {
        operands,
        targets: Items::new(alloc),
    }
}

/// A number in one byte.
pub fn byte(alloc: Global, bytes: &[u8]) -> Result<(Listed, &[u8]), LineError>
    ensures { Reads result (spec.byte bytes.now) }
{
    let (value, rest) = s1_at(bytes)?;
    Ok((plain(alloc, Operands::Byte(value)), rest))
}

/// A number in two bytes.
pub fn short(alloc: Global, bytes: &[u8]) -> Result<(Listed, &[u8]), LineError>
    ensures { Reads result (spec.short bytes.now) }
{
    let (value, rest) = s2_at(bytes)?;
    Ok((plain(alloc, Operands::Short(value)), rest))
}

/// A constant whose index has one byte.
pub fn constant<'a>(
    alloc: Global,
    pool: &[Const],
    bytes: &'a [u8],
) -> Result<(Listed, &'a [u8]), LineError>
    ensures { Reads result (spec.constant pool.now bytes.now) }
{
    let (index, rest) = u1_at(bytes)?;
    let value = constant_at(alloc, pool, index as u16)?;
    Ok((plain(alloc, Operands::Constant(value)), rest))
}

/// A constant whose index has two bytes.
pub fn wide_constant<'a>(
    alloc: Global,
    pool: &[Const],
    bytes: &'a [u8],
) -> Result<(Listed, &'a [u8]), LineError>
    ensures { Reads result (spec.wide_constant pool.now bytes.now) }
{
    let (index, rest) = u2_at(bytes)?;
    let value = constant_at(alloc, pool, index)?;
    Ok((plain(alloc, Operands::Constant(value)), rest))
}

/// A local variable.
pub fn local(alloc: Global, bytes: &[u8]) -> Result<(Listed, &[u8]), LineError>
    ensures { Reads result (spec.local bytes.now) }
{
    let (number, rest) = u1_at(bytes)?;
    Ok((plain(alloc, Operands::Local(number as u16)), rest))
}

/// A local variable, and what is added to it.
pub fn increment(alloc: Global, bytes: &[u8]) -> Result<(Listed, &[u8]), LineError>
    ensures { Reads result (spec.increment bytes.now) }
{
    let (number, rest) = u1_at(bytes)?;
    let (value, rest) = s1_at(rest)?;
    Ok((
        plain(alloc, Operands::Increment(number as u16, i16::from(value))),
        rest,
    ))
}

fn branch_to(alloc: Global, target: u16) -> Result<Listed, AllocError>
    ensures { IfOk result (λ listed. listed ≡ spec.branch_to target) }
{
    let mut targets = Items::new(alloc);
    targets.push(target)?;
    Ok(Listed {
        operands: Operands::Branch(label_of(alloc, target)?),
        targets,
    })
}

/// The target of a branch at `pc`, by an offset in two bytes.
pub fn branch(alloc: Global, pc: u16, bytes: &[u8]) -> Result<(Listed, &[u8]), LineError>
    ensures { Reads result (spec.branch pc bytes.now) }
{
    let (offset, rest) = s2_at(bytes)?;
    let target = target_of(pc, i32::from(offset))?;
    Ok((branch_to(alloc, target)?, rest))
}

/// The target of a branch at `pc`, by an offset in four bytes.
pub fn far_branch(alloc: Global, pc: u16, bytes: &[u8]) -> Result<(Listed, &[u8]), LineError>
    ensures { Reads result (spec.far_branch pc bytes.now) }
{
    let (offset, rest) = s4_at(bytes)?;
    let target = target_of(pc, offset)?;
    Ok((branch_to(alloc, target)?, rest))
}

/// A field or a method.
pub fn member<'a>(
    alloc: Global,
    pool: &[Const],
    bytes: &'a [u8],
) -> Result<(Listed, &'a [u8]), LineError>
    ensures { Reads result (spec.member pool.now bytes.now) }
{
    let (index, rest) = u2_at(bytes)?;
    let operands = member_at(alloc, pool, index)?;
    Ok((plain(alloc, operands), rest))
}

/// A method of an interface. The count and the zero behind it follow from it.
pub fn interface_member<'a>(
    alloc: Global,
    pool: &[Const],
    bytes: &'a [u8],
) -> Result<(Listed, &'a [u8]), LineError>
    ensures { Reads result (spec.interface_member pool.now bytes.now) }
{
    let (listed, rest) = member(alloc, pool, bytes)?;
    let rest = skip(2, rest)?;
    Ok((listed, rest))
}

/// A class.
pub fn class<'a>(
    alloc: Global,
    pool: &[Const],
    bytes: &'a [u8],
) -> Result<(Listed, &'a [u8]), LineError>
    ensures { Reads result (spec.class pool.now bytes.now) }
{
    let (index, rest) = u2_at(bytes)?;
    let name = class_at(alloc, pool, index)?;
    Ok((plain(alloc, Operands::Class(name)), rest))
}

fn element_of(code: u8) -> Result<Element, LineError>
    ensures { Gives result (spec.element_of code) }
{
    match code {
        4 => Ok(Element::Boolean),
        5 => Ok(Element::Char),
        8 => Ok(Element::Byte),
        9 => Ok(Element::Short),
        10 => Ok(Element::Int),
        11 => Ok(Element::Long),
        _ => Err(LineError::Bad),
    }
}

/// The type of the elements of a new array.
pub fn element(alloc: Global, bytes: &[u8]) -> Result<(Listed, &[u8]), LineError>
    ensures { Reads result (spec.element bytes.now) }
{
    let (code, rest) = u1_at(bytes)?;
    let element = element_of(code)?;
    Ok((plain(alloc, Operands::Element(element)), rest))
}

/// The class of a new array of arrays, and how many dimensions are made.
pub fn dimensions<'a>(
    alloc: Global,
    pool: &[Const],
    bytes: &'a [u8],
) -> Result<(Listed, &'a [u8]), LineError>
    ensures { Reads result (spec.dimensions pool.now bytes.now) }
{
    let (index, rest) = u2_at(bytes)?;
    let name = class_at(alloc, pool, index)?;
    let (count, rest) = u1_at(rest)?;
    Ok((plain(alloc, Operands::Dimensions(name, count)), rest))
}

fn wide_increment(alloc: Global, bytes: &[u8]) -> Result<(Listed, &[u8]), LineError>
    ensures { Reads result (spec.wide_increment bytes.now) }
{
    let (number, rest) = u2_at(bytes)?;
    let (value, rest) = s2_at(rest)?;
    Ok((plain(alloc, Operands::Increment(number, value)), rest))
}

fn wide_local(alloc: Global, bytes: &[u8]) -> Result<(Listed, &[u8]), LineError>
    ensures { Reads result (spec.wide_local bytes.now) }
{
    let (number, rest) = u2_at(bytes)?;
    Ok((plain(alloc, Operands::Local(number)), rest))
}

/// The operands of an opcode behind wide.
pub fn wide_operands(alloc: Global, opcode: u8, bytes: &[u8]) -> Result<(Listed, &[u8]), LineError>
    ensures { Reads result (spec.wide_operands opcode bytes.now) }
{
    if opcode == 132 {
        wide_increment(alloc, bytes)
    } else {
        wide_local(alloc, bytes)
    }
}
