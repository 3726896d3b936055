//! The code of a method (JVMS 4.7.3).

ghost use Rattle.std.specs.Prelude.{◌≡◌, ◌++◌, [], ◌∷◌, IfOk, OnOk, map};
ghost use Rattle.std.specs.List.{fold};
ghost use Rattle.lib_table.specs.Instructions.{meaning, operand_of};
ghost use Rattle.lib_table.specs.Declarations.{code_of};
ghost use Rattle.lib_table.specs.Build as spec;

use crate::declarations::MethodCode;
use crate::instruction::{Instruction, Operand, opcode_of, operand_in};
use crate::pool::{ConstantPool, narrow};
use class_model::{CodeAttribute, CodeBody, CodeExtra};
use items::{Items, NoMemory};
use shared_slices::SharedSlice;
use std::alloc::Global;

/// A list of one item.
pub fn single<T: Drop>(alloc: Global, item: T) -> Result<Items<T>, NoMemory>
    ensures { IfOk result (λ items. items ≡ item ∷ []) }
{
    let mut items = Items::new(alloc);
    items.push(item)?;
    Ok(items)
}

// A number in two bytes, the highest first.
fn push_u2(code: &mut Vec<u8>, n: u16) -> Result<(), NoMemory>
    ensures { OnOk result (code.new.items ≡ code.old.items ++ spec.u2 n) }
{
    code.extend_from_slice(&n.to_be_bytes())?;
    Ok(())
}

// The count of an invokeinterface, and the byte after it.
fn push_count(code: &mut Vec<u8>, count: u8) -> Result<(), NoMemory>
    ensures { OnOk result (code.new.items ≡ code.old.items ++ count ∷ 0 ∷ []) }
{
    code.extend_from_slice(&[count, 0])?;
    Ok(())
}

// What comes after the opcode of the instruction at a pc.
fn push_operand(
    code: &mut Vec<u8>,
    pool: &mut ConstantPool,
    pc: u16,
    operand: &Operand,
) -> Result<(), NoMemory>
    ensures { OnOk result ((code.new.items, pool.new) ≡
        spec.with_operand pc (operand_of operand.now) code.old.items pool.old) }
{
    match operand {
        Operand::Nothing => Ok(()),
        Operand::Text(text) => {
            let index = pool.string(text)?;
            push_u2(code, index)
        }
        Operand::Class(name) => {
            let index = pool.class(name)?;
            push_u2(code, index)
        }
        Operand::Field(class, name, descriptor) => {
            let index = pool.field(class, name, descriptor)?;
            push_u2(code, index)
        }
        Operand::Method(class, name, descriptor) => {
            let index = pool.method(class, name, descriptor)?;
            push_u2(code, index)
        }
        Operand::InterfaceMethod(class, name, descriptor, count) => {
            let index = pool.interface_method(class, name, descriptor)?;
            push_u2(code, index)?;
            push_count(code, *count)
        }
        Operand::Target(target) => push_u2(code, target.saturating_sub(pc)),
    }
}

#[tactic(auto, unfolding(crate::specs::Build::with_instruction))]
fn push_instruction(
    code: &mut Vec<u8>,
    pool: &mut ConstantPool,
    instruction: &Instruction,
) -> Result<(), NoMemory>
    ensures { OnOk result ((code.new.items, pool.new) ≡
        spec.with_instruction (code.old.items, pool.old) (meaning instruction.now)) }
{
    let pc = narrow(code.len())?;
    code.push(opcode_of(instruction))?;
    push_operand(code, pool, pc, &operand_in(instruction))
}

fn bytes_of(
    alloc: Global,
    pool: &mut ConstantPool,
    instructions: &[Instruction],
) -> Result<SharedSlice<u8>, NoMemory>
    ensures { IfOk result (λ bytes. (bytes, pool.new) ≡
        fold spec.with_instruction ([], pool.old) (map meaning instructions.now)) }
{
    let mut code = Vec::new(alloc);
    for instruction in instructions {
        push_instruction(&mut code, pool, instruction)?;
    }
    Ok(SharedSlice::new(alloc, code)?)
}

// The number of frames, and one with the first locals and an empty operand stack, whose type is its pc (JVMS 4.7.4).
fn same_frame(alloc: Global, pc: u8) -> Result<SharedSlice<u8>, NoMemory>
    ensures { IfOk result (λ bytes. bytes ≡ spec.same_frame pc) }
{
    let mut map = Vec::new(alloc);
    push_u2(&mut map, 1)?;
    map.push(pc)?;
    Ok(SharedSlice::new(alloc, map)?)
}

fn stack_map(
    alloc: Global,
    pool: &mut ConstantPool,
    pc: u8,
) -> Result<Items<CodeAttribute>, NoMemory>
    ensures { IfOk result (λ attributes. (attributes, pool.new) ≡ spec.stack_map pc pool.old) }
{
    let name = pool.text("StackMapTable")?;
    let body = CodeExtra::StackMap(same_frame(alloc, pc)?);
    single(alloc, CodeAttribute { name, body })
}

fn frames(
    alloc: Global,
    pool: &mut ConstantPool,
    frame: Option<u8>,
) -> Result<Items<CodeAttribute>, NoMemory>
    ensures { IfOk result (λ attributes. (attributes, pool.new) ≡ spec.frames frame pool.old) }
{
    match frame {
        None => Ok(Items::new(alloc)),
        Some(pc) => stack_map(alloc, pool, pc),
    }
}

/// The code with the sizes of its frame and its stack map.
pub fn code_body(
    alloc: Global,
    pool: &mut ConstantPool,
    code: &MethodCode,
) -> Result<CodeBody, NoMemory>
    ensures { IfOk result (λ body. (body, pool.new) ≡ spec.code (code_of code.now) pool.old) }
{
    let bytes = bytes_of(alloc, pool, code.instructions)?;
    let attributes = frames(alloc, pool, code.frame)?;
    Ok(CodeBody {
        max_stack: code.max_stack,
        max_locals: code.max_locals,
        code: bytes,
        rows: Items::new(alloc),
        attributes,
    })
}
