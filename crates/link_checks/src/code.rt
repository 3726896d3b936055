//! What is wrong with the code of a method: its instructions from the first on, and then its exception table (JVMS 4.7.3).

ghost use Rattle.std.specs.Prelude.{◌≡◌, ◌<◌, ◌^◌, false, length, true, IfOk};
ghost use Rattle.opcodes.specs.Code.{IsCode, IsFirstBad};
ghost use Rattle.opcodes.specs.declared.error.CodeWhy.{CodeWhy};
ghost use Rattle.items.specs.First.{first_in, first_some};
ghost use Rattle.link_rules.specs.Faults as spec;
ghost use Rattle.link_checks.specs.ConstantUses.{AreFine};
ghost use Rattle.link_checks.specs.Firsts.{attribute_why, code_why, instr_why, row_why};

use crate::constant_uses::Use;
use crate::instructions::{Namer, class_fault, instr_fault};
use crate::rules::unless;
use class_model::{Attribute, Body, CodeBody, Member, Row};
use items::NoMemory;
use link_resolution::name_at;
use link_rules::{LinkWhy, Purpose};
use opcodes::{CodeError, Instr, decode};
use std::alloc::Global;

/// The instructions of a code up to the first that is bad, and whether there is such a one.
#[derive(Drop)]
pub struct Front {
    pub instrs: Vec<Instr>,
    pub is_bad: bool,
}

/// Decodes code as far as it goes. Code of 2^32 bytes or more counts as memory run out.
pub fn front_of(alloc: Global, code: &[u8]) -> Result<Front, NoMemory>
    ensures front { IfOk result (λ front.
        spec.decoded code.now ≡ record { instrs = front.instrs.items; is_bad = front.is_bad }) }
    ensures whole { IfOk result (λ front.
        front.is_bad ≡ false → IsCode code.now front.instrs.items) }
{
    if code.len() > u32::MAX as usize {
        return Err(NoMemory);
    }
    match decode(alloc, code) {
        Ok(instrs) => Ok(Front {
            instrs,
            is_bad: false,
        }),
        Err(CodeError::Bad { pc, .. }) => front_before(alloc, code, pc),
        Err(CodeError::NoMemory) => Err(NoMemory),
    }
}

// The instructions before the first that is bad.
fn front_before(alloc: Global, code: &[u8], pc: u32) -> Result<Front, NoMemory>
    requires small { length code.now < 2 ^ 32 }
    requires bad { (why : CodeWhy) × IsFirstBad code.now pc why }
    ensures front { IfOk result (λ front.
        spec.decoded code.now ≡ record { instrs = front.instrs.items; is_bad = front.is_bad }) }
    ensures bad { IfOk result (λ front. front.is_bad ≡ true) }
{
    match decode(alloc, &code[..pc as usize]) {
        Ok(instrs) => Ok(Front {
            instrs,
            is_bad: true,
        }),
        Err(_) => Err(NoMemory),
    }
}

fn instrs_fault(
    alloc: Global,
    namer: Namer,
    fine: &mut [Option<Use>],
    instrs: &[Instr],
) -> Result<Option<LinkWhy>, NoMemory>
    requires { AreFine namer.world.now namer.class namer.pool.now fine.old }
    ensures fault { IfOk result (λ fault. fault ≡ first_in (instr_why
        namer.entry.world.now namer.entry.class namer.entry.pool.now) instrs.now) }
    ensures fine { AreFine namer.entry.world.now namer.entry.class namer.entry.pool.now fine.new }
{
    for instr in instrs {
        if let Some(why) = instr_fault(alloc, namer, fine, &instr.op)? {
            return Ok(Some(why));
        }
    }
    Ok(None)
}

// What is wrong with the class that a row catches; index 0 stands for every throwable.
fn row_fault(namer: Namer, row: &Row) -> Option<LinkWhy>
    ensures { result ≡ first_some (spec.row_faults
        namer.entry.world.now namer.entry.class namer.entry.pool.now row.now) }
{
    if row.catch_type == 0 {
        return None;
    }
    let name = name_at(namer.pool, row.catch_type);
    class_fault(namer.world, namer.class, Purpose::Type, name)
}

fn rows_fault(namer: Namer, rows: &[Row]) -> Option<LinkWhy>
    ensures { result ≡ first_in (row_why
        namer.entry.world.now namer.entry.class namer.entry.pool.now) rows.now }
{
    for row in rows {
        if let Some(why) = row_fault(namer, row) {
            return Some(why);
        }
    }
    None
}

// What is wrong with a code.
fn code_fault(
    alloc: Global,
    namer: Namer,
    fine: &mut [Option<Use>],
    body: &CodeBody,
) -> Result<Option<LinkWhy>, NoMemory>
    requires { AreFine namer.world.now namer.class namer.pool.now fine.old }
    ensures fault { IfOk result (λ fault. fault ≡ first_some (spec.code_faults
        namer.entry.world.now namer.entry.class namer.entry.pool.now body.now)) }
    ensures fine { AreFine namer.entry.world.now namer.entry.class namer.entry.pool.now fine.new }
{
    let front = front_of(alloc, &body.code)?;
    let instrs = instrs_fault(alloc, namer, fine, &front.instrs)?;
    let end = unless(!front.is_bad, LinkWhy::BadCode);
    let rows = rows_fault(namer, &body.rows);
    Ok(instrs.or(end).or(rows))
}

fn attribute_fault(
    alloc: Global,
    namer: Namer,
    fine: &mut [Option<Use>],
    attribute: &Attribute,
) -> Result<Option<LinkWhy>, NoMemory>
    requires { AreFine namer.world.now namer.class namer.pool.now fine.old }
    ensures fault { IfOk result (λ fault. fault ≡ first_some (spec.attribute_faults
        namer.entry.world.now namer.entry.class namer.entry.pool.now attribute.now)) }
    ensures fine { AreFine namer.entry.world.now namer.entry.class namer.entry.pool.now fine.new }
{
    match &attribute.body {
        Body::Code(body) => code_fault(alloc, namer, fine, body.get()),
        _ => Ok(None),
    }
}

fn attributes_fault(
    alloc: Global,
    namer: Namer,
    fine: &mut [Option<Use>],
    attributes: &[Attribute],
) -> Result<Option<LinkWhy>, NoMemory>
    requires { AreFine namer.world.now namer.class namer.pool.now fine.old }
    ensures fault { IfOk result (λ fault. fault ≡ first_in (attribute_why
        namer.entry.world.now namer.entry.class namer.entry.pool.now) attributes.now) }
    ensures fine { AreFine namer.entry.world.now namer.entry.class namer.entry.pool.now fine.new }
{
    for attribute in attributes {
        if let Some(why) = attribute_fault(alloc, namer, fine, attribute)? {
            return Ok(Some(why));
        }
    }
    Ok(None)
}

/// What is wrong with the code of a method, if it has code.
pub fn method_code_fault(
    alloc: Global,
    namer: Namer,
    fine: &mut [Option<Use>],
    method: &Member,
) -> Result<Option<LinkWhy>, NoMemory>
    requires { AreFine namer.world.now namer.class namer.pool.now fine.old }
    ensures fault { IfOk result (λ fault. fault ≡ code_why
        namer.entry.world.now namer.entry.class namer.entry.pool.now method.now) }
    ensures fine { AreFine namer.entry.world.now namer.entry.class namer.entry.pool.now fine.new }
{
    let fault = attributes_fault(alloc, namer, fine, &method.attributes)?;
    Ok(fault)
}
