//! The bytes of an instruction.

ghost use Rattle.std.specs.Prelude.{◌≡◌, ◌++◌, ◌<◌, ◌^◌, length, OnOk};
ghost use Rattle.asm_code.specs.Encoding as spec;
ghost use Rattle.asm_code.specs.Encoding.{Puts};
ghost use Rattle.asm_code.specs.Places.{place_of};

use crate::labels::Labels;
use crate::offset::{put_far, put_near, put_s2, put_u2};
use crate::switch::{put_lookup, put_table};
use asm_text::{Element, LineError, Operands};

/// The constant that an instruction names: its index in the pool, and for invokeinterface the number of argument slots
/// with the receiver. Of an instruction that names none both are 0.
#[derive(Clone, Copy)]
pub struct Mentioned {
    pub index: u16,
    pub slots: u8,
}

/// The opcode of ldc.
const LDC: u8 = 18;

/// The opcode of invokeinterface.
const INVOKEINTERFACE: u8 = 185;

/// The opcode of wide.
const WIDE: u8 = 196;

/// The opcode of goto_w.
const GOTO_W: u8 = 200;

/// Appends the instruction at `pc` to the code. `Bad`: a label has no place, or an index, an offset or a count doesn't
/// fit.
pub fn put_instruction(
    code: &mut Vec<u8>,
    labels: &Labels,
    pc: u16,
    opcode: u8,
    mentioned: Mentioned,
    operands: &Operands,
) -> Result<(), LineError>
    ensures { Puts result code.new.items
        (spec.with_instruction (place_of labels.now) pc opcode mentioned operands.now
        code.old.items) }
{
    match operands {
        Operands::Constant(_) => put_constant(code, opcode, mentioned.index),
        Operands::Local(local) => put_local(code, opcode, *local),
        Operands::Increment(local, value) => put_increment(code, opcode, *local, *value),
        Operands::Branch(label) => put_branch(code, labels, pc, opcode, label),
        Operands::Table {
            low,
            labels: names,
            default,
        } => {
            code.push(opcode)?;
            put_table(code, labels, pc, *low, names, default)
        }
        Operands::Lookup { cases, default } => {
            code.push(opcode)?;
            put_lookup(code, labels, pc, cases, default)
        }
        Operands::Member { .. } => put_member(code, opcode, mentioned),
        Operands::Nothing => {
            code.push(opcode)?;
            Ok(())
        }
        Operands::Byte(value) => {
            code.extend_from_slice(&[opcode, value.cast_unsigned()])?;
            Ok(())
        }
        Operands::Short(value) => {
            code.push(opcode)?;
            put_s2(code, *value)?;
            Ok(())
        }
        Operands::Class(_) => {
            code.push(opcode)?;
            put_u2(code, mentioned.index)?;
            Ok(())
        }
        Operands::Element(element) => {
            code.extend_from_slice(&[opcode, element_code(*element)])?;
            Ok(())
        }
        Operands::Dimensions(_, count) => put_dimensions(code, opcode, mentioned.index, *count),
    }
}

fn put_constant(code: &mut Vec<u8>, opcode: u8, index: u16) -> Result<(), LineError>
    ensures { Puts result code.new.items (spec.constant opcode index code.old.items) }
{
    if opcode != LDC {
        code.push(opcode)?;
        put_u2(code, index)?;
        return Ok(());
    }
    if index >= 256 {
        return Err(LineError::Bad);
    }
    code.extend_from_slice(&[opcode, index as u8])?;
    Ok(())
}

fn put_local(code: &mut Vec<u8>, opcode: u8, local: u16) -> Result<(), LineError>
    ensures { Puts result code.new.items (spec.local opcode local code.old.items) }
{
    if local < 256 {
        code.extend_from_slice(&[opcode, local as u8])?;
        return Ok(());
    }
    code.extend_from_slice(&[WIDE, opcode])?;
    put_u2(code, local)?;
    Ok(())
}

fn put_increment(code: &mut Vec<u8>, opcode: u8, local: u16, value: i16) -> Result<(), LineError>
    ensures { Puts result code.new.items (spec.increment opcode local value code.old.items) }
{
    if is_small(local, value) {
        code.extend_from_slice(&[opcode, local as u8, (value as i8).cast_unsigned()])?;
        return Ok(());
    }
    code.extend_from_slice(&[WIDE, opcode])?;
    put_u2(code, local)?;
    put_s2(code, value)?;
    Ok(())
}

/// Whether an increment has a byte for each operand.
pub fn is_small(local: u16, value: i16) -> bool
    ensures { result ≡ spec.is_small local value }
{
    local < 256 && value >= -128 && value <= 127
}

fn put_branch(
    code: &mut Vec<u8>,
    labels: &Labels,
    pc: u16,
    opcode: u8,
    label: &[u8],
) -> Result<(), LineError>
    ensures { Puts result code.new.items
        (spec.branch (place_of labels.now) pc opcode label.now code.old.items) }
{
    code.push(opcode)?;
    if opcode == GOTO_W {
        put_far(code, labels, pc, label)
    } else {
        put_near(code, labels, pc, label)
    }
}

fn put_member(code: &mut Vec<u8>, opcode: u8, mentioned: Mentioned) -> Result<(), LineError>
    ensures { Puts result code.new.items (spec.member opcode mentioned code.old.items) }
{
    code.push(opcode)?;
    put_u2(code, mentioned.index)?;
    if opcode == INVOKEINTERFACE {
        code.extend_from_slice(&[mentioned.slots, 0])?;
    }
    Ok(())
}

fn element_code(element: Element) -> u8
    ensures { result ≡ spec.element_code element }
{
    match element {
        Element::Boolean => 4,
        Element::Char => 5,
        Element::Byte => 8,
        Element::Short => 9,
        Element::Int => 10,
        Element::Long => 11,
    }
}

fn put_dimensions(code: &mut Vec<u8>, opcode: u8, index: u16, count: u8) -> Result<(), LineError>
    ensures { Puts result code.new.items (spec.dimensions opcode index count code.old.items) }
{
    if count == 0 {
        return Err(LineError::Bad);
    }
    code.push(opcode)?;
    put_u2(code, index)?;
    code.push(count)?;
    Ok(())
}
