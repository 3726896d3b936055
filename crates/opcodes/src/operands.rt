//! The operands after each opcode.

ghost use Rattle.std.specs.Prelude.{◌≡◌, ℕ, ◌≤◌, ◌<◌};
ghost use Rattle.byte_reader.specs.Reader.{Reads, GivesBy};
ghost use Rattle.opcodes.specs.Encoding.{primitive_of};
ghost use Rattle.opcodes.specs.Meaning.{meaning, local_op, index_op, branch_op};
ghost use Rattle.opcodes.specs.Operands.{target, near_target_at, target_at, zero_at, op_at, operands_at, wide_operands_at, wide_at};
ghost use Rattle.opcodes.specs.Formats.{byte, short, constant, index, local, increment, branch, far_branch, interface, dynamic, primitive, dimensions};

use crate::error::CodeWhy;
use crate::formats::{BranchFormat, Format, IndexFormat, LocalFormat, format_of};
use crate::switch_operands::{lookup_switch_of, table_switch_of};
use crate::{Op, Primitive};
use byte_reader::{Stop, i1_of, i2_of, i4_of, u1_of, u2_of};
use std::alloc::Global;

// The instruction at the front of the code from `pc` on (JVMS 6.5).
#[tactic(auto, unfolding(crate::specs::Operands::op_at))]
pub fn op_of(alloc: Global, pc: u32, code: &[u8]) -> Result<(Op, &[u8]), Stop<CodeWhy>>
    ensures { Reads result (op_at pc code.now) }
{
    let (opcode, rest) = u1_of(code)?;
    operands_of(alloc, pc, format_of(opcode), rest)
}

fn operands_of(
    alloc: Global,
    pc: u32,
    format: Format,
    rest: &[u8],
) -> Result<(Op, &[u8]), Stop<CodeWhy>>
    ensures { Reads result (operands_at pc (meaning format) rest.now) }
{
    match format {
        Format::Undefined => Err(Stop::at(rest, CodeWhy::Opcode)),
        Format::Simple(simple) => Ok((Op::Simple(simple), rest)),
        Format::PushInt(value) => Ok((Op::PushInt(value), rest)),
        Format::PushLong(value) => Ok((Op::PushLong(value), rest)),
        Format::LocalAt(format, index) => Ok((local_op(format, index), rest)),
        Format::Floating(opcode) => Ok((Op::Floating(opcode), rest)),
        Format::Byte => bipush_of(rest),
        Format::Short => sipush_of(rest),
        Format::Ldc => ldc_of(rest),
        Format::Index(format) => index_of(format, rest),
        Format::Local(format) => local_of(format, rest),
        Format::Increment => iinc_of(rest),
        Format::Branch(format) => branch_of(pc, format, rest),
        Format::FarBranch(format) => far_branch_of(pc, format, rest),
        Format::TableSwitch => table_switch_of(alloc, pc, rest),
        Format::LookupSwitch => lookup_switch_of(alloc, pc, rest),
        Format::InvokeInterface => invoke_interface_of(rest),
        Format::InvokeDynamic => invoke_dynamic_of(rest),
        Format::NewArray => new_array_of(rest),
        Format::MultiANewArray => multi_a_new_array_of(rest),
        Format::Wide => wide_of(rest),
    }
}

fn bipush_of(rest: &[u8]) -> Result<(Op, &[u8]), Stop<CodeWhy>>
    ensures { Reads result (operands_at 0 byte rest.now) }
{
    let (value, rest) = i1_of(rest)?;
    Ok((Op::PushInt(i16::from(value)), rest))
}

fn sipush_of(rest: &[u8]) -> Result<(Op, &[u8]), Stop<CodeWhy>>
    ensures { Reads result (operands_at 0 short rest.now) }
{
    let (value, rest) = i2_of(rest)?;
    Ok((Op::PushInt(value), rest))
}

fn ldc_of(rest: &[u8]) -> Result<(Op, &[u8]), Stop<CodeWhy>>
    ensures { Reads result (operands_at 0 constant rest.now) }
{
    let (index, rest) = u1_of(rest)?;
    Ok((Op::PushConstant(u16::from(index)), rest))
}

fn index_of(format: IndexFormat, rest: &[u8]) -> Result<(Op, &[u8]), Stop<CodeWhy>>
    ensures { Reads result (operands_at 0 (index (index_op format)) rest.now) }
{
    let (index, rest) = u2_of(rest)?;
    Ok((index_op(format, index), rest))
}

fn index_op(format: IndexFormat, index: u16) -> Op
    ensures { result ≡ index_op format index }
{
    match format {
        IndexFormat::PushConstant => Op::PushConstant(index),
        IndexFormat::PushWideConstant => Op::PushWideConstant(index),
        IndexFormat::GetStatic => Op::GetStatic(index),
        IndexFormat::PutStatic => Op::PutStatic(index),
        IndexFormat::GetField => Op::GetField(index),
        IndexFormat::PutField => Op::PutField(index),
        IndexFormat::InvokeVirtual => Op::InvokeVirtual(index),
        IndexFormat::InvokeSpecial => Op::InvokeSpecial(index),
        IndexFormat::InvokeStatic => Op::InvokeStatic(index),
        IndexFormat::New => Op::New(index),
        IndexFormat::ANewArray => Op::ANewArray(index),
        IndexFormat::CheckCast => Op::CheckCast(index),
        IndexFormat::InstanceOf => Op::InstanceOf(index),
    }
}

fn local_of(format: LocalFormat, rest: &[u8]) -> Result<(Op, &[u8]), Stop<CodeWhy>>
    ensures { Reads result (operands_at 0 (local (local_op format)) rest.now) }
{
    let (index, rest) = u1_of(rest)?;
    Ok((local_op(format, u16::from(index)), rest))
}

fn local_op(format: LocalFormat, index: u16) -> Op
    ensures { result ≡ local_op format index }
{
    match format {
        LocalFormat::Load(kind) => Op::Load(kind, index),
        LocalFormat::Store(kind) => Op::Store(kind, index),
        LocalFormat::Ret => Op::Ret(index),
        LocalFormat::Floating(opcode) => Op::Floating(opcode),
    }
}

fn iinc_of(rest: &[u8]) -> Result<(Op, &[u8]), Stop<CodeWhy>>
    ensures { Reads result (operands_at 0 increment rest.now) }
{
    let (index, rest) = u1_of(rest)?;
    let (amount, rest) = i1_of(rest)?;
    Ok((Op::Increment(u16::from(index), i16::from(amount)), rest))
}

fn branch_of(pc: u32, format: BranchFormat, rest: &[u8]) -> Result<(Op, &[u8]), Stop<CodeWhy>>
    ensures { Reads result (operands_at pc (branch (branch_op format)) rest.now) }
{
    let (target, rest) = near_target_of(pc, rest)?;
    Ok((branch_op(format, target), rest))
}

fn far_branch_of(pc: u32, format: BranchFormat, rest: &[u8]) -> Result<(Op, &[u8]), Stop<CodeWhy>>
    ensures { Reads result (operands_at pc (far_branch (branch_op format)) rest.now) }
{
    let (target, rest) = target_of(pc, rest)?;
    Ok((branch_op(format, target), rest))
}

// A target, from its offset in two bytes.
fn near_target_of(pc: u32, bytes: &[u8]) -> Result<(i64, &[u8]), Stop<CodeWhy>>
    ensures { Reads result (near_target_at pc bytes.now) }
{
    let (offset, rest) = i2_of(bytes)?;
    Ok((target(pc, i32::from(offset)), rest))
}

// A target, from its offset in four bytes.
pub fn target_of(pc: u32, bytes: &[u8]) -> Result<(i64, &[u8]), Stop<CodeWhy>>
    ensures { Reads result (target_at pc bytes.now) }
{
    let (offset, rest) = i4_of(bytes)?;
    Ok((target(pc, offset), rest))
}

// The pc at this offset from the instruction's own pc (JVMS 6.5).
fn target(pc: u32, offset: i32) -> i64
    ensures { result ≡ target pc offset }
{
    i64::from(pc) + i64::from(offset)
}

fn branch_op(format: BranchFormat, target: i64) -> Op
    ensures { result ≡ branch_op format target }
{
    match format {
        BranchFormat::IfZero(comparison) => Op::IfZero(comparison, target),
        BranchFormat::IfInts(comparison) => Op::IfInts(comparison, target),
        BranchFormat::IfReferences(sameness) => Op::IfReferences(sameness, target),
        BranchFormat::IfNull(sameness) => Op::IfNull(sameness, target),
        BranchFormat::Goto => Op::Goto(target),
        BranchFormat::Jsr => Op::Jsr(target),
    }
}

fn invoke_interface_of(rest: &[u8]) -> Result<(Op, &[u8]), Stop<CodeWhy>>
    ensures { Reads result (operands_at 0 interface rest.now) }
{
    let (index, rest) = u2_of(rest)?;
    let (count, rest) = u1_of(rest)?;
    let rest = skip_zero(rest)?;
    Ok((Op::InvokeInterface(index, count), rest))
}

fn invoke_dynamic_of(rest: &[u8]) -> Result<(Op, &[u8]), Stop<CodeWhy>>
    ensures { Reads result (operands_at 0 dynamic rest.now) }
{
    let (index, rest) = u2_of(rest)?;
    let rest = skip_zero(rest)?;
    let rest = skip_zero(rest)?;
    Ok((Op::InvokeDynamic(index), rest))
}

// The bytes after a byte that is 0.
fn skip_zero(bytes: &[u8]) -> Result<&[u8], Stop<CodeWhy>>
    ensures { GivesBy (λ x. (tt, x.now)) result (zero_at bytes.now) }
{
    let (byte, rest) = u1_of(bytes)?;
    if byte != 0 {
        return Err(Stop::at(bytes, CodeWhy::Operand));
    }
    Ok(rest)
}

fn new_array_of(rest: &[u8]) -> Result<(Op, &[u8]), Stop<CodeWhy>>
    ensures { Reads result (operands_at 0 primitive rest.now) }
{
    let (code, behind) = u1_of(rest)?;
    if code < 4 || code >= 12 {
        return Err(Stop::at(rest, CodeWhy::Operand));
    }
    Ok((Op::NewArray(primitive_of(code)), behind))
}

// The type that a code of newarray names (JVMS 6.5).
fn primitive_of(code: u8) -> Primitive
    requires first { 4 ≤ code }
    requires last { code < 12 }
    ensures { result ≡ primitive_of code }
{
    match code {
        4 => Primitive::Boolean,
        5 => Primitive::Char,
        6 => Primitive::Float,
        7 => Primitive::Double,
        8 => Primitive::Byte,
        9 => Primitive::Short,
        10 => Primitive::Int,
        _ => Primitive::Long,
    }
}

fn multi_a_new_array_of(rest: &[u8]) -> Result<(Op, &[u8]), Stop<CodeWhy>>
    ensures { Reads result (operands_at 0 dimensions rest.now) }
{
    let (index, rest) = u2_of(rest)?;
    let (count, behind) = u1_of(rest)?;
    if count == 0 {
        return Err(Stop::at(rest, CodeWhy::Operand));
    }
    Ok((Op::MultiANewArray(index, count), behind))
}

// The opcode after wide and its operands.
fn wide_of(rest: &[u8]) -> Result<(Op, &[u8]), Stop<CodeWhy>>
    ensures { Reads result (wide_at rest.now) }
{
    let (opcode, rest) = u1_of(rest)?;
    wide_operands_of(format_of(opcode), rest)
}

fn wide_operands_of(format: Format, rest: &[u8]) -> Result<(Op, &[u8]), Stop<CodeWhy>>
    ensures { Reads result (wide_operands_at (meaning format) rest.now) }
{
    match format {
        Format::Local(format) => wide_local_of(format, rest),
        Format::Increment => wide_iinc_of(rest),
        _ => Err(Stop::at(rest, CodeWhy::Operand)),
    }
}

fn wide_local_of(format: LocalFormat, rest: &[u8]) -> Result<(Op, &[u8]), Stop<CodeWhy>>
    ensures { Reads result (wide_operands_at (local (local_op format)) rest.now) }
{
    let (index, rest) = u2_of(rest)?;
    Ok((local_op(format, index), rest))
}

fn wide_iinc_of(rest: &[u8]) -> Result<(Op, &[u8]), Stop<CodeWhy>>
    ensures { Reads result (wide_operands_at increment rest.now) }
{
    let (index, rest) = u2_of(rest)?;
    let (amount, rest) = i2_of(rest)?;
    Ok((Op::Increment(index, amount), rest))
}
