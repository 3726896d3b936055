//! The instructions of a code, each as its line at its pc.

ghost use Rattle.std.specs.Prelude.{◌≡◌, ◌≤◌, length, OnOk};
ghost use Rattle.asm_listing.specs.Numbers.{GivesBy, GoesOn, Reads, repeat};
ghost use Rattle.asm_listing.specs.Code as spec;

use crate::form::{Form, form_of};
use crate::numbers::u1_at;
use crate::operand_reader as readers;
use crate::operand_reader::{Listed, plain};
use crate::switch_reader::{lookup, table};
use asm_text::{Line, LineError, Operands};
use class_model::Const;
use items::Items;
use std::alloc::{AllocError, Global};

/// A line at a pc.
#[derive(Drop)]
pub struct PlacedLine {
    pub pc: u16,
    pub line: Line,
}

/// The line of an instruction, and the pcs that it names.
#[derive(Drop)]
struct Said {
    line: Line,
    targets: Items<u16>,
}

/// Lines, and the pcs that are named so far.
#[derive(Drop)]
pub struct Found {
    pub lines: Vec<PlacedLine>,
    pub named: Vec<u16>,
}

fn operands_by<'a>(
    alloc: Global,
    pool: &[Const],
    pc: u16,
    form: Form,
    bytes: &'a [u8],
) -> Result<(Listed, &'a [u8]), LineError>
    ensures { Reads result (spec.operands_by pool.now pc form bytes.now) }
{
    match form {
        Form::Nothing => Ok((plain(alloc, Operands::Nothing), bytes)),
        Form::Byte => readers::byte(alloc, bytes),
        Form::Short => readers::short(alloc, bytes),
        Form::Constant => readers::constant(alloc, pool, bytes),
        Form::WideConstant => readers::wide_constant(alloc, pool, bytes),
        Form::Local => readers::local(alloc, bytes),
        Form::Increment => readers::increment(alloc, bytes),
        Form::Branch => readers::branch(alloc, pc, bytes),
        Form::FarBranch => readers::far_branch(alloc, pc, bytes),
        Form::Table => table(alloc, pc, bytes),
        Form::Lookup => lookup(alloc, pc, bytes),
        Form::Member => readers::member(alloc, pool, bytes),
        Form::InterfaceMember => readers::interface_member(alloc, pool, bytes),
        Form::Class => readers::class(alloc, pool, bytes),
        Form::Element => readers::element(alloc, bytes),
        Form::Dimensions => readers::dimensions(alloc, pool, bytes),
    }
}

fn said_of(opcode: u8, listed: Listed) -> Said
    ensures { result ≡ spec.said_of opcode listed }
{
    let Listed { operands, targets } = listed;
    Said {
        line: Line::Instruction { opcode, operands },
        targets,
    }
}

fn wide_at(alloc: Global, bytes: &[u8]) -> Result<(Said, &[u8]), LineError>
    ensures { Reads result (spec.wide_at bytes.now) }
{
    let (opcode, rest) = u1_at(bytes)?;
    let (listed, rest) = readers::wide_operands(alloc, opcode, rest)?;
    Ok((said_of(opcode, listed), rest))
}

fn plain_at<'a>(
    alloc: Global,
    pool: &[Const],
    pc: u16,
    opcode: u8,
    bytes: &'a [u8],
) -> Result<(Said, &'a [u8]), LineError>
    ensures { Reads result (spec.plain_at pool.now pc opcode bytes.now) }
{
    let (listed, rest) = operands_by(alloc, pool, pc, form_of(opcode), bytes)?;
    Ok((said_of(opcode, listed), rest))
}

// The line of the instruction at `pc`, where these bytes are left.
fn instruction_at<'a>(
    alloc: Global,
    pool: &[Const],
    pc: u16,
    bytes: &'a [u8],
) -> Result<(Said, &'a [u8]), LineError>
    ensures { Reads result (spec.instruction_at pool.now pc bytes.now) }
{
    let (opcode, rest) = u1_at(bytes)?;
    if opcode == 196 {
        return wide_at(alloc, rest);
    }
    plain_at(alloc, pool, pc, opcode, rest)
}

impl Found {
    /// Nothing. This takes no memory.
    pub fn new(alloc: Global) -> Self
        ensures { spec.seen result ≡ spec.nothing }
    {
        Found {
            lines: Vec::new(alloc),
            named: Vec::new(alloc),
        }
    }

    fn push(&mut self, pc: u16, said: Said) -> Result<(), AllocError>
        ensures { OnOk result (spec.seen self.new ≡ spec.with_said (spec.seen self.old) pc said) }
    {
        let Said { line, targets } = said;
        self.lines.push(PlacedLine { pc, line })?;
        self.named.extend_from_slice(&targets)?;
        Ok(())
    }
}

/// What is found, where nothing may be left.
pub fn ended(found: Found, rest: &[u8]) -> Result<Found, LineError>
    ensures { GivesBy spec.seen result (spec.ended (spec.seen found) rest.now) }
{
    if !rest.is_empty() {
        return Err(LineError::Bad);
    }
    Ok(found)
}

// The next instruction of a code of this size, where one is left.
fn one_line<'a>(
    alloc: Global,
    found: &mut Found,
    pool: &[Const],
    size: usize,
    bytes: &'a [u8],
) -> Result<&'a [u8], LineError>
    requires { size ≤ 65535 }
    ensures { GoesOn result (spec.seen found.new)
        (spec.one_line pool.now size (spec.seen found.old) bytes.now) }
{
    if bytes.is_empty() {
        return Ok(bytes);
    }
    let pc = size.saturating_sub(bytes.len()) as u16;
    let (said, rest) = instruction_at(alloc, pool, pc, bytes)?;
    found.push(pc, said)?;
    Ok(rest)
}

// As many steps as there are bytes.
fn all_lines<'a>(
    alloc: Global,
    pool: &[Const],
    code: &'a [u8],
) -> Result<(Found, &'a [u8]), LineError>
    requires { length code.now ≤ 65535 }
    ensures { GivesBy (λ x. (spec.seen x.0, x.1.now)) result
        (repeat (spec.one_line pool.now (length code.now)) (length code.now) spec.nothing
        code.now) }
{
    let size = code.len();
    let mut found = Found::new(alloc);
    let mut rest = code;
    for _ in 0..size {
        rest = one_line(alloc, &mut found, pool, size, rest)?;
    }
    Ok((found, rest))
}

/// The lines of a code, and the pcs that they name. `Bad`: an instruction has no line.
pub fn code_lines(alloc: Global, pool: &[Const], code: &[u8]) -> Result<Found, LineError>
    requires { length code.now ≤ 65535 }
    ensures { GivesBy spec.seen result (spec.code_lines pool.now code.now) }
{
    let (found, rest) = all_lines(alloc, pool, code)?;
    ended(found, rest)
}
